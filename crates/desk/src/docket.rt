//! A docket from its sheet to its listing.
ghost use Rattle.std.specs.Prelude.{◌≡◌, Some as SomeCase};
ghost use Rattle.register.specs.Views.{EntryView};
ghost use Rattle.register.specs.Calls.{contents, open_of, admits};
ghost use Rattle.desk.specs.Handled.{Ended, EndsItsDocket};

use crate::examined::{Examined, examine};
use crate::judging::judge_in_trees;
use crate::steps::print_steps;
use anyhow::anyhow;
use bodies::kind::Kind;
use bodies::size::LABEL_BYTES;
use findings::frame::FRAME_LENGTH;
use findings::verdict::Verdict;
use handshake::model::Protocol;
use listing::lines::{Ending, FaultLine, Head, Tail};
use register::entry::Status;
use register::fault::Refused;
use register::register::Register;
use register::slip::Slip;
use sheets::arrangement::{Arrangement, Docket};
use sheets::names::Names;
use sheets::read::{read, read_named};
use std::alloc::Global;
use tokens::model::TokenStore;

// Examines the arrangement of a docket.
fn examine_docket(
    heap: Global,
    docket: &Docket,
    places: u16,
    sheet: &[u8],
) -> anyhow::Result<Examined> {
    match docket.arrangement {
        Arrangement::Handshake(arrangement) => {
            examine(heap, &Protocol { arrangement }, places, sheet)
        }
        Arrangement::Tokens(program) => examine(heap, &TokenStore { program }, places, sheet),
    }
}

// The verdict on the finding of an examination, if it has one. The table that fits has a place for each state.
fn verdict_on(
    heap: Global,
    docket: &Docket,
    places: u16,
    examined: &Examined,
) -> anyhow::Result<Option<Verdict>> {
    let Some(finding) = &examined.finding else {
        return Ok(None);
    };
    let (scene_places, store_places) = match docket.arrangement {
        Arrangement::Handshake(_) => (places, 0),
        Arrangement::Tokens(_) => (0, places),
    };
    match judge_in_trees(heap, scene_places, store_places, finding.as_slice())? {
        Ok(verdict) => Ok(Some(verdict)),
        Err(_) => Err(anyhow!("the finding is refused")),
    }
}

// Spends the slip of an open docket: files the verdict, or withdraws the docket where there is none.
fn settle(register: &mut Register, slip: Slip, verdict: Option<Verdict>)
    requires { (e : EntryView) × (open_of slip.number (contents register.old) ≡ SomeCase e) }
    ensures { Ended slip.number (contents register.old) (contents register.new) }
{
    match verdict {
        None => {
            let _ = register.withdraw(slip);
        }
        Some(verdict) => match register.file(slip, verdict) {
            Ok(()) => {}
            Err(refused) => {
                let Refused {
                    fault: _,
                    slip: returned,
                    verdict: _,
                } = refused;
                let _ = register.withdraw(returned);
            }
        },
    }
}

// How the register shows a docket, with the number of steps or states.
fn ending(register: &Register, number: u16, steps: usize, states: usize) -> Ending {
    match register.entry(number).map(|entry| entry.status) {
        Some(Status::Filed(Kind::Breach)) => Ending::Breach(steps),
        Some(Status::Filed(Kind::Closed)) => Ending::Closed(states),
        _ => Ending::Exhausted,
    }
}

// The labels of a breach's finding, which stand behind its frame and its sheet.
fn labels_of<'a>(finding: &'a [u8], sheet: &[u8]) -> &'a [u8] {
    let start = sheet.len().saturating_add(FRAME_LENGTH).min(finding.len());
    &finding[start..]
}

// Prints what the register shows of a docket, with the steps of a breach.
fn print_listing(
    rt: &impl Print,
    register: &Register,
    examined: &Examined,
    sheet: &[u8],
) -> anyhow::Result<()> {
    let mut names = Names::new();
    let Ok(docket) = read_named(sheet, &mut names) else {
        return Err(anyhow!("the sheet has a fault"));
    };
    let labels = match &examined.finding {
        None => b"",
        Some(finding) => labels_of(finding.as_slice(), sheet),
    };
    let standing = examined.standing;
    let number = docket.number;
    let ending = ending(
        register,
        number,
        labels.len() / LABEL_BYTES,
        standing.stored,
    );
    rt.println(Head { number, ending })?;
    if let Ending::Breach(_) = ending {
        print_steps(rt, docket.arrangement, &names, labels)?;
    }
    rt.println(Tail {
        taken: standing.taken,
        stored: standing.stored,
    })?;
    Ok(())
}

// An examination, and the verdict on its finding, if it has one.
#[derive(Drop)]
struct Work {
    examined: Examined,
    verdict: Option<Verdict>,
}

fn work_on(heap: Global, places: u16, sheet: &[u8]) -> anyhow::Result<Work> {
    let Ok(docket) = read(sheet) else {
        return Err(anyhow!("the sheet has a fault"));
    };
    let examined = examine_docket(heap, &docket, places, sheet)?;
    let verdict = verdict_on(heap, &docket, places, &examined)?;
    Ok(Work { examined, verdict })
}

/// The whole task on one sheet, with so many places; what a fault says is printed alone. No docket is left open.
pub fn handle(
    rt: &impl Print,
    heap: Global,
    register: &mut Register,
    places: u16,
    sheet: &[u8],
) -> anyhow::Result<()>
    ensures { EndsItsDocket (contents register.old) (admits (contents register.old) sheet.now) (contents register.new) }
{
    let slip = match register.issue(sheet) {
        Ok(slip) => slip,
        Err(fault) => return Ok(rt.println(FaultLine::of(&fault))?),
    };
    match work_on(heap, places, sheet) {
        Ok(work) => {
            let Work { examined, verdict } = work;
            settle(register, slip, verdict);
            print_listing(rt, register, &examined, sheet)
        }
        Err(e) => {
            settle(register, slip, None);
            Err(e)
        }
    }
}

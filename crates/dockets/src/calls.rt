//! Calls that must be refused, each with its fault.
use anyhow::anyhow;
use desk::judging::judge_in_trees;
use examination::calls::{MAX_BUDGET, open};
use examination::exam::Examination;
use examination::trail::Link;
use faults::Fault;
use findings::verdict::Verdict;
use findings::write::write;
use listing::lines::FaultLine;
use meaning::model::Model;
use meaning::table::Table;
use register::fault::{FileFault, Refused, WithdrawFault};
use register::register::{MOST_ENTRIES, Register};
use register::slip::Slip;
use sheets::arrangement::Arrangement;
use sheets::read::{LONGEST, read};
use std::alloc::{AllocError, Global};
use std::io;
use tables::Scatter;
use tokens::model::TokenStore;
use tokens::state::State;

// A sheet of tokens.
const RELAY: &[u8] = b"docket 7\ntokens\nagent +a -b\nagent -a +c\nbreach c\n";

// Says what was asked, and the fault that was given.
fn say(rt: &impl Print, what: &str, fault: &impl Fault) -> io::Result<()> {
    let line = FaultLine::of(fault);
    println!(rt; "{what}: {line}")
}

// Table and trail are the caller's memory, lent for a call, so these functions are given them apart, as the calls are.
fn say_open<M: Model, T: Table<State = M::State>>(
    rt: &impl Print,
    what: &str,
    model: &M,
    table: &mut T,
    trail: &mut [Link],
) -> io::Result<()> {
    match open(model, table, trail) {
        Ok(_) => println!(rt; "{what}: opened"),
        Err(fault) => say(rt, what, &fault),
    }
}

fn say_advance<M: Model, T: Table<State = M::State>>(
    rt: &impl Print,
    what: &str,
    exam: &mut Examination,
    model: &M,
    table: &mut T,
    trail: &mut [Link],
    budget: usize,
) -> io::Result<()> {
    match exam.advance(model, table, trail, budget) {
        Ok(taken) => println!(rt; "{what}: took {taken}"),
        Err(fault) => say(rt, what, &fault),
    }
}

fn say_write<M: Model, T: Table<State = M::State>>(
    rt: &impl Print,
    what: &str,
    exam: &Examination,
    model: &M,
    table: &T,
    trail: &[Link],
    sheet: &[u8],
) -> io::Result<()> {
    match write(exam, model, table, trail, sheet, &mut [0; 78]) {
        Ok(length) => println!(rt; "{what}: wrote {length}"),
        Err(fault) => say(rt, what, &fault),
    }
}

fn print_opens(rt: &impl Print, model: &TokenStore) -> io::Result<()> {
    let mut states = [model.start(); 8];
    let mut index = [0; 16];
    let mut none: Scatter<State> = Scatter::new(&mut [], &mut []);
    say_open(
        rt,
        "open, a table without places",
        model,
        &mut none,
        &mut [Link::START; 8],
    )?;
    let mut table = Scatter::new(&mut states, &mut index);
    say_open(
        rt,
        "open, a trail that is too short",
        model,
        &mut table,
        &mut [Link::START; 7],
    )?;
    let _placed = table.put(&model.start());
    say_open(
        rt,
        "open, a table that is not empty",
        model,
        &mut table,
        &mut [Link::START; 8],
    )
}

// What is asked of an examination while it runs.
fn print_running<M: Model, T: Table<State = M::State>>(
    rt: &impl Print,
    exam: &mut Examination,
    model: &M,
    table: &mut T,
    trail: &mut [Link],
) -> io::Result<()> {
    say_advance(rt, "advance, no budget", exam, model, table, trail, 0)?;
    say_advance(
        rt,
        "advance, a budget over 65,535",
        exam,
        model,
        table,
        trail,
        MAX_BUDGET + 1,
    )?;
    say_advance(
        rt,
        "advance, a trail that is too short",
        exam,
        model,
        table,
        &mut [Link::START; 7],
        1,
    )?;
    say_write(rt, "write, while it runs", exam, model, table, trail, RELAY)
}

// What is asked of an examination that has ended.
fn print_ended<M: Model, T: Table<State = M::State>>(
    rt: &impl Print,
    exam: &mut Examination,
    model: &M,
    table: &mut T,
    trail: &mut [Link],
) -> io::Result<()> {
    say_advance(rt, "advance, after the end", exam, model, table, trail, 1)?;
    say_write(
        rt,
        "write, a sheet that is too long",
        exam,
        model,
        table,
        trail,
        &[0; LONGEST + 1],
    )?;
    say_write(
        rt,
        "write, a trail that is too short",
        exam,
        model,
        table,
        &[Link::START; 7],
        RELAY,
    )?;
    say_write(
        rt,
        "write, a buffer that is too short",
        exam,
        model,
        table,
        trail,
        RELAY,
    )
}

fn print_advances(rt: &impl Print, model: &TokenStore) -> anyhow::Result<()> {
    let mut states = [model.start(); 8];
    let mut index = [0; 16];
    let mut trail = [Link::START; 8];
    let mut table = Scatter::new(&mut states, &mut index);
    let Ok(opened) = open(model, &mut table, &mut trail) else {
        return Err(anyhow!("no examination can be opened"));
    };
    let mut exam = opened;
    print_running(rt, &mut exam, model, &mut table, &mut trail)?;
    let _taken = exam.advance(model, &mut table, &mut trail, MAX_BUDGET);
    print_ended(rt, &mut exam, model, &mut table, &mut trail)?;
    Ok(())
}

fn say_issue(rt: &impl Print, what: &str, register: &mut Register, sheet: &[u8]) -> io::Result<()> {
    match register.issue(sheet) {
        Ok(slip) => {
            let _ = register.withdraw(slip);
            println!(rt; "{what}: issued")
        }
        Err(fault) => say(rt, what, &fault),
    }
}

// Files a verdict, and withdraws the slip that comes back where it is refused: the fault of each. Two `Option`s, as each call may
// be refused, and the second is made only after the first was.
fn file_and_withdraw(
    register: &mut Register,
    slip: Slip,
    verdict: Verdict,
) -> (Option<FileFault>, Option<WithdrawFault>) {
    match register.file(slip, verdict) {
        Ok(()) => (None, None),
        Err(refused) => {
            let Refused {
                fault,
                slip,
                verdict: _,
            } = refused;
            (Some(fault), register.withdraw(slip).err())
        }
    }
}

// Says what was asked, and the fault that was given, if one was.
fn say_answer<F: Fault + Drop>(rt: &impl Print, what: &str, fault: Option<F>) -> io::Result<()> {
    match fault {
        Some(fault) => say(rt, what, &fault),
        None => println!(rt; "{what}: accepted"),
    }
}

// The finding of that sheet: a frame, the sheet, and the labels 0, 1, 1.
const RELAY_FINDING: &[u8] =
    b"\x01\x01\0\x14\0\0\0\x03\0\0\0\x18\0\0\01\0\0\0I\0\0\0\x06docket 7\ntokens\nagent +a -b\nagent -a +c\nbreach c\n\0\0\0\x01\0\x01";

fn verdict_of(heap: Global) -> anyhow::Result<Verdict> {
    match judge_in_trees(heap, 8, 8, RELAY_FINDING)? {
        Ok(verdict) => Ok(verdict),
        Err(_) => Err(anyhow!("the finding is refused")),
    }
}

// Fills a register with dockets, all withdrawn.
fn fill(heap: Global, register: &mut Register) -> Result<(), AllocError> {
    for number in 1..=MOST_ENTRIES {
        let sheet = format!(in heap; "docket {number}\nhandshake 1 1 1 lowe\n")?;
        if let Ok(slip) = register.issue(sheet.as_str().as_bytes()) {
            let _ = register.withdraw(slip);
        }
    }
    Ok(())
}

fn print_register(rt: &impl Print, heap: Global) -> anyhow::Result<()> {
    let mut register = Register::new();
    say_issue(
        rt,
        "issue, a sheet with a fault",
        &mut register,
        b"docket x\n",
    )?;
    let first = verdict_of(heap)?;
    let second = verdict_of(heap)?;
    let mut other = Register::new();
    let (filed, withdrawn) = match register.issue(RELAY) {
        Ok(slip) => file_and_withdraw(&mut other, slip, first),
        Err(_) => (None, None),
    };
    say_issue(rt, "issue, a number that is there", &mut register, RELAY)?;
    say_answer(rt, "file, in another register", filed)?;
    say_answer(rt, "withdraw, in another register", withdrawn)?;
    let (mixed, _) = match register.issue(b"docket 8\nhandshake 1 1 1 lowe\n") {
        Ok(slip) => file_and_withdraw(&mut register, slip, second),
        Err(_) => (None, None),
    };
    say_answer(rt, "file, a verdict of another number", mixed)?;
    fill(heap, &mut other)?;
    say_issue(
        rt,
        "issue, a register that is full",
        &mut other,
        b"docket 65\nhandshake 1 1 1 lowe\n",
    )?;
    Ok(())
}

// Prints each call and its fault.
pub(crate) fn print_calls(rt: &impl Print, heap: Global) -> anyhow::Result<()> {
    let Ok(docket) = read(RELAY) else {
        return Err(anyhow!("the sheet has a fault"));
    };
    match docket.arrangement {
        Arrangement::Handshake(_) => Err(anyhow!("the sheet describes a handshake")),
        Arrangement::Tokens(program) => {
            let model = TokenStore { program };
            print_opens(rt, &model)?;
            print_advances(rt, &model)?;
            print_register(rt, heap)
        }
    }
}

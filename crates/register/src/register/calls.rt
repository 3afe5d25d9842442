//! The calls of the register.
ghost use Rattle.std.specs.Prelude.{◌≡◌, [], Some as SomeCase};
ghost use Rattle.register.specs.Views.{EntryView, stamped, FiledKindIsTrue};
ghost use Rattle.sheets.specs.Reads.{plan_of};
ghost use Rattle.register.specs.Plans.{PlansCompared, same_plan};
ghost use Rattle.register.specs.Calls.{contents, place_of, lookup, open_of, viewed, ShownKindIsTrue, marked, issue_answer, file_check, file_answer, withdraw_answer};
ghost use Rattle.register.specs.Rows.{after, issuing, filing, withdrawing, FiledDocketsAreTrue};

use crate::entry::{Entry, Status};
use crate::fault::{FileFault, IssueFault, Refused, WithdrawFault};
use crate::register::Register;
use crate::slip::Slip;
use findings::verdict::Verdict;
use sheets::arrangement::{Arrangement, Handshake};
use sheets::fixed_list::FixedList;
use sheets::read::read;

// What stands in a place without an entry. A call that is not inlined: of a constant, LLVM writes out the filling of all places and
// each move of the list, and making a register takes twice as long and more.
#[inline(never)]
fn blank() -> Entry {
    Entry {
        number: 0,
        model: Arrangement::Handshake(Handshake::SMALLEST),
        status: Status::Withdrawn,
    }
}

// Whether two arrangements are one model: the same numbers, or the same lines and breach.
#[tactic(auto, using(crate::proofs::Plans::same_is))]
fn same_model(a: Arrangement, b: Arrangement) -> bool
    ensures { result ≡ same_plan (plan_of a) (plan_of b) }
{
    a == b
}

impl Register {
    /// No entries.
    pub fn new() -> Register
        ensures empty { contents result ≡ [] }
        ensures rows { FiledDocketsAreTrue }
    {
        let entries = FixedList::new(blank());
        Register { entries }
    }

    // Where the entry of a number stands.
    fn seek(&self, number: u16) -> Option<usize>
        ensures { result ≡ place_of number (contents self.now) }
    {
        self.entries
            .as_slice()
            .iter()
            .position(|entry| entry.number == number)
    }

    /// The entry of a number. Where it is filed, the kind is true of its model.
    pub fn entry(&self, number: u16) -> Option<Entry>
        ensures is { viewed result ≡ lookup number (contents self.now) }
        ensures sound { ShownKindIsTrue result }
    {
        self.entries.get(self.seek(number)?)
    }

    // The entry of a number, where it is open.
    fn open_entry(&self, number: u16) -> Option<Entry>
        ensures { viewed result ≡ open_of number (contents self.now) }
    {
        self.entry(number).filter(|entry| entry.status.is_open())
    }

    // Gives the entry of a number another status.
    fn mark(&mut self, number: u16, status: Status)
        requires { (e : EntryView) → lookup number (contents self.old) ≡ SomeCase e → FiledKindIsTrue (stamped e status) }
        ensures { contents self.new ≡ marked number status (contents self.old) }
    {
        let Some(i) = self.seek(number) else {
            return;
        };
        if let Some(entry) = self.entries.get(i) {
            self.entries.set(i, Entry { status, ..entry });
        }
    }

    /// Opens the docket that a sheet describes.
    pub fn issue(&mut self, sheet: &[u8]) -> Result<Slip, IssueFault>
        ensures answer { result ≡ issue_answer (contents self.old) sheet.now }
        ensures held { contents self.new ≡ after (contents self.old) (issuing sheet.now) }
    {
        let docket = read(sheet)?;
        if self.seek(docket.number).is_some() {
            return Err(IssueFault::Taken);
        }
        let entry = Entry {
            number: docket.number,
            model: docket.arrangement,
            status: Status::Open,
        };
        if self.entries.try_push(entry).is_err() {
            return Err(IssueFault::Full);
        }
        Ok(Slip {
            number: docket.number,
        })
    }

    // Whether a verdict closes the docket of a slip.
    fn check(&self, slip: &Slip, verdict: &Verdict) -> Result<(), FileFault>
        ensures { result ≡ file_check (contents self.now) slip.now verdict.now }
    {
        let Some(entry) = self.open_entry(slip.number) else {
            return Err(FileFault::NotOpen);
        };
        if verdict.number() == slip.number && same_model(verdict.model(), entry.model) {
            Ok(())
        } else {
            Err(FileFault::OtherDocket)
        }
    }

    /// Closes the docket of a slip by a verdict on it.
    pub fn file(&mut self, slip: Slip, verdict: Verdict) -> Result<(), Refused>
        ensures answer { result ≡ file_answer (contents self.old) slip verdict }
        ensures held { contents self.new ≡ after (contents self.old) (filing slip verdict) }
        ensures compared { PlansCompared }
    {
        match self.check(&slip, &verdict) {
            Err(fault) => Err(Refused {
                fault,
                slip,
                verdict,
            }),
            Ok(()) => {
                let Slip { number } = slip;
                self.mark(number, Status::Filed(verdict.kind()));
                Ok(())
            }
        }
    }

    /// Closes the docket of a slip without a verdict.
    pub fn withdraw(&mut self, slip: Slip) -> Result<(), WithdrawFault>
        ensures answer { result ≡ withdraw_answer (contents self.old) slip }
        ensures held { contents self.new ≡ after (contents self.old) (withdrawing slip) }
    {
        let Slip { number } = slip;
        match self.open_entry(number) {
            None => Err(WithdrawFault::NotOpen),
            Some(_) => {
                self.mark(number, Status::Withdrawn);
                Ok(())
            }
        }
    }
}

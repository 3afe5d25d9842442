//! Why a sheet is refused, with the place of the first offending byte.
ghost use Rattle.std.specs.Prelude.{◌≡◌, Some};
ghost use Rattle.sheets.specs.Faults.{number_of as fault_number, values_of as fault_values, place_of, fault_line};

use crate::read::LONGEST;
use faults::{Fault, Values};
use std::fmt;

/// Over 2,048 bytes; a word or separator that may not stand at a place; a number or name out of its range at a place; the end, where more was due.
#[derive(Clone, Copy, Debug, PartialEq, Eq)]
pub enum SheetFault {
    TooLong,
    Misplaced(usize),
    OutOfRange(usize),
    Ended(usize),
}

impl SheetFault {
    /// The offset of the first offending byte: the length where the sheet ends too early, and 2,048 where it is too long.
    pub fn place(self) -> usize
        ensures { result ≡ place_of self }
    {
        match self {
            SheetFault::TooLong => LONGEST,
            SheetFault::Misplaced(place)
            | SheetFault::OutOfRange(place)
            | SheetFault::Ended(place) => place,
        }
    }
}

// The value beside the number is the place.
impl Fault for SheetFault {
    ghost number_of = { fault_number };

    ghost values_of = { fault_values };

    fn number(&self) -> u8 {
        match self {
            SheetFault::TooLong => 1,
            SheetFault::Misplaced(_) => 2,
            SheetFault::OutOfRange(_) => 3,
            SheetFault::Ended(_) => 4,
        }
    }

    fn values(&self) -> Values {
        Values::One(self.place())
    }
}

// The line that a program prints of a fault: its number and its place. A sheet's fault always has one value beside its
// number, so this takes no cases of `Values`, as the line of any fault does.
impl fmt::Display for SheetFault {
    ghost output = { λ fault. Some (fault_line fault) };

    fn fmt<W: fmt::Write>(&self, f: &mut fmt::Formatter<W>) -> fmt::Result {
        let number = self.number();
        let place = self.place();
        write!(f, "fault {number} at {place}")
    }
}

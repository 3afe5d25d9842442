//! The lines of a listing.
ghost use Rattle.std.specs.Prelude.{◌≡◌, Some};
ghost use Rattle.listing.specs.Lines.{ending_text, head_text, instruction_text, rule_text, tail_text, fault_text};

use faults::{Fault, Values};
use std::fmt;

/// How an examination ended: a breach after so many steps; closed with so many states; no place left.
#[derive(Clone, Copy, Debug, PartialEq, Eq)]
pub enum Ending {
    Breach(usize),
    Closed(usize),
    Exhausted,
}

impl fmt::Display for Ending {
    ghost output = { λ ending. Some (ending_text ending) };

    fn fmt<W: fmt::Write>(&self, f: &mut fmt::Formatter<W>) -> fmt::Result {
        match self {
            Ending::Breach(steps) => write!(f, "breach {steps}"),
            Ending::Closed(states) => write!(f, "closed {states}"),
            Ending::Exhausted => write!(f, "exhausted"),
        }
    }
}

/// The first line: the docket's number, and how its examination ended.
#[derive(Clone, Copy, Debug, PartialEq, Eq)]
pub struct Head {
    pub number: u16,
    pub ending: Ending,
}

impl fmt::Display for Head {
    ghost output = { λ line. Some (head_text line.number line.ending) };

    fn fmt<W: fmt::Write>(&self, f: &mut fmt::Formatter<W>) -> fmt::Result {
        let number = self.number;
        let ending = self.ending;
        write!(f, "docket {number} {ending}")
    }
}

/// A step of a token store: its number from 1, its label, and the instruction that it performs.
#[derive(Clone, Copy, Debug, PartialEq, Eq)]
pub struct InstructionLine<'a> {
    pub step: usize,
    pub label: usize,
    pub sign: char,
    pub name: &'a str,
}

impl<'a> fmt::Display for InstructionLine<'a> {
    ghost output = { λ line. Some (instruction_text line.step line.label line.sign line.name.now) };

    fn fmt<W: fmt::Write>(&self, f: &mut fmt::Formatter<W>) -> fmt::Result {
        let step = self.step;
        let label = self.label;
        let sign = self.sign;
        let name = self.name;
        write!(f, "{step} {label} {sign}{name}")
    }
}

/// A step of a handshake: its number from 1, its label, its rule's letter, and how many nonces the intruder knows after it.
#[derive(Clone, Copy, Debug, PartialEq, Eq)]
pub struct RuleLine {
    pub step: usize,
    pub label: usize,
    pub letter: char,
    pub known: u32,
}

impl fmt::Display for RuleLine {
    ghost output = { λ line. Some (rule_text line.step line.label line.letter line.known) };

    fn fmt<W: fmt::Write>(&self, f: &mut fmt::Formatter<W>) -> fmt::Result {
        let step = self.step;
        let label = self.label;
        let letter = self.letter;
        let known = self.known;
        write!(f, "{step} {label} {letter} {known}")
    }
}

/// The last line: how many states were taken, and how many stored.
#[derive(Clone, Copy, Debug, PartialEq, Eq)]
pub struct Tail {
    pub taken: usize,
    pub stored: usize,
}

impl fmt::Display for Tail {
    ghost output = { λ line. Some (tail_text line.taken line.stored) };

    fn fmt<W: fmt::Write>(&self, f: &mut fmt::Formatter<W>) -> fmt::Result {
        let taken = self.taken;
        let stored = self.stored;
        write!(f, "taken {taken} stored {stored}")
    }
}

/// A refusal: the fault's number, and its values, if it has any.
#[derive(Clone, Copy, Debug, PartialEq, Eq)]
pub struct FaultLine {
    pub number: u8,
    pub values: Values,
}

impl FaultLine {
    ghost use Rattle.listing.specs.FaultLines.{line_of};

    /// The line that tells this fault.
    pub fn of<F: Fault>(fault: &F) -> FaultLine
        ensures { result ≡ line_of (F.number_of fault.now) (F.values_of fault.now) }
    {
        FaultLine {
            number: fault.number(),
            values: fault.values(),
        }
    }
}

impl fmt::Display for FaultLine {
    ghost output = { λ line. Some (fault_text line.number line.values) };

    fn fmt<W: fmt::Write>(&self, f: &mut fmt::Formatter<W>) -> fmt::Result {
        let number = self.number;
        match self.values {
            Values::Nothing => write!(f, "fault {number}"),
            Values::One(value) => write!(f, "fault {number} at {value}"),
            Values::Two(first, second) => write!(f, "fault {number} at {first} {second}"),
        }
    }
}

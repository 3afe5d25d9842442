//! Why a body is not accepted, and why none is written.
use faults::{Fault, Values};

/// A step whose label is not possible; n labels that end unbreached; a state that cannot stand at its number; a state and a label that lead out; a table that is not empty or has too few places.
#[derive(Clone, Copy, Debug, PartialEq, Eq)]
pub enum BodyFault {
    Label(usize),
    Unbreached(usize),
    State(usize),
    Step(usize, usize),
    Table,
}

impl Fault for BodyFault {
    ghost use Rattle.bodies.specs.Faults.{judge_number, judge_values};

    ghost number_of = { judge_number };

    ghost values_of = { judge_values };

    fn number(&self) -> u8 {
        match *self {
            BodyFault::Label(_) => 12,
            BodyFault::Unbreached(_) => 13,
            BodyFault::State(_) => 14,
            BodyFault::Step(_, _) => 15,
            BodyFault::Table => 16,
        }
    }

    fn values(&self) -> Values {
        match *self {
            BodyFault::Label(step) => Values::One(step),
            BodyFault::Unbreached(n) => Values::One(n),
            BodyFault::State(number) => Values::One(number),
            BodyFault::Step(state, label) => Values::Two(state, label),
            BodyFault::Table => Values::Nothing,
        }
    }
}

/// The search is not ended in a breach or closed; a parent on the path is not below its child; the buffer is too short, with the length needed.
#[derive(Clone, Copy, Debug, PartialEq, Eq)]
pub enum WriteFault {
    Unfinished,
    Trail,
    Short(usize),
}

impl Fault for WriteFault {
    ghost use Rattle.bodies.specs.Faults.{write_number, write_values};

    ghost number_of = { write_number };

    ghost values_of = { write_values };

    fn number(&self) -> u8 {
        match *self {
            WriteFault::Unfinished => 9,
            WriteFault::Trail => 8,
            WriteFault::Short(_) => 10,
        }
    }

    fn values(&self) -> Values {
        match *self {
            WriteFault::Unfinished | WriteFault::Trail => Values::Nothing,
            WriteFault::Short(needed) => Values::One(needed),
        }
    }
}

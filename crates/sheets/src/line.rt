//! An agent's line of instructions.
use crate::fixed_list::FixedList;

/// No line has more instructions.
pub const MOST_ACTS: usize = 8;

/// No token store has more agents.
pub const MOST_AGENTS: usize = 4;

/// An instruction: its sign, which is one of + - ? !, and the number of its token.
#[derive(Clone, Copy, Debug, PartialEq, Eq)]
pub struct Act {
    pub sign: char,
    pub token: usize,
}

/// An agent's instructions.
pub type Line = FixedList<Act, MOST_ACTS>;

/// The agents' lines.
pub type Agents = FixedList<Line, MOST_AGENTS>;

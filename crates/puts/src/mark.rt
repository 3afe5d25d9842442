//! A small kind of state: a number under 65,536.
ghost use Rattle.puts.specs.Marks.{mark_code, mark_scattered, mark_laws, mark_compared};

use meaning::coded::{Coded, OrderedByCode};
use std::cmp::Ordering;

// Its multiples spread the numbers.
const SPREAD: usize = 2654435761;

// The largest prime under 2^32.
const PRIME: usize = 4294967291;

/// A state that is a number.
#[derive(Clone, Copy, Debug, PartialEq, Eq, PartialOrd, Ord)]
pub struct Mark {
    pub number: u16,
}

impl Coded for Mark {
    ghost code = { mark_code };

    ghost width = { 2 };

    ghost scattered = { mark_scattered };

    ghost laws = { mark_laws };

    fn same(&self, other: &Mark) -> bool {
        self == other
    }

    fn order(&self, other: &Mark) -> Ordering {
        self.cmp(other)
    }

    fn scatter(&self) -> usize {
        let spread = usize::from(self.number) * SPREAD % PRIME;
        spread.wrapping_mul(spread) % PRIME
    }

    fn byte(&self, k: usize) -> u8 {
        self.number.to_be_bytes().get(k).copied().unwrap_or(0)
    }
}

impl OrderedByCode for Mark {
    ghost compared = { mark_compared };
}

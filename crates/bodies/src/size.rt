//! The size of a body.

/// How many bytes tell a label.
pub const LABEL_BYTES: usize = 2;

/// How many labels or states a body tells, and how many bytes it has.
#[derive(Clone, Copy, Debug, PartialEq, Eq)]
pub struct BodySize {
    pub number: usize,
    pub length: usize,
}

//! The body of a finding: the labels of a run to a breach, or the states of a search that closed. Judged and written once, for any model and any table.
// Model, table and trail come apart: table and trail are the caller's memory, lent for a call. A trail and a last link have no
// fact of their own.
#![tactic(auto)]

pub mod fault;
pub mod judge;
pub mod kind;
pub mod measure;
pub mod size;
pub mod write;

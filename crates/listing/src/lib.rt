//! The lines that a program prints of an examination.
#![tactic(auto)]

pub mod lines;

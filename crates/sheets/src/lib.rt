//! Sheets: text that describes a docket, read into its number and its arrangement.
#![tactic(auto)]

pub mod arrangement;
pub mod fault;
pub mod fixed_list;
mod grammar;
pub mod line;
pub mod names;
pub mod read;
mod reader;
mod words;

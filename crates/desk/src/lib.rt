//! The whole task on one sheet: read, issue, examine, write the finding, judge it, file the docket, print the listing.
#![tactic(auto)]

pub mod docket;
mod examined;
pub mod judging;
mod steps;

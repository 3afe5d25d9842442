//! The public-key handshake, with an intruder who owns the network, as a model.
#![tactic(auto)]

pub mod attack;
pub mod coding;
mod hand;
mod lawful;
mod message;
pub mod model;
mod network;
mod perform;
mod places;
mod read;
mod receive;
pub mod rule;
pub mod scene;
pub mod state;
mod words;

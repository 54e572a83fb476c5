//! What is seen of a list of trace records: a detector and a table of objects together, and the
//! report of both.
#![tactic(auto)]

mod laws;
mod observations;

pub use laws::{an_end_shows_nothing, what_is_noted_is_seen, what_stands_was_noted};
pub use observations::Observations;

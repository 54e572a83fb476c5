//! Misses of lines: what sharing costs, and which of it is for nothing.
//!
//! Each hart has a cache from which a write by another takes the line, and beside it copies that
//! nobody takes away, which it loads again only for a word that changed. An access that doesn't
//! find its line in the cache is a miss; one that doesn't find its word in the copy, as it is now,
//! is a needed load. What is left of a line's misses is useless: it brought no word that its hart
//! needed.
//!
//! The definitions stand in `specs/Misses.antt`, over whole lists, and the laws in `specs/Laws/`:
//! each needed load has a miss of its own, under lines of 4 bytes nothing is useless, and a line
//! for each word saves at most what is useless. `Misses` keeps one latest write of each line and of
//! each word in it, and two positions of each hart in it, which is enough to determine both.
//! [`MissObservations`] sees the records of a trace and has the text: `specs/Seen.antt` and
//! `specs/Texts.antt`.
#![tactic(auto)]

mod all_lines;
mod comers;
mod hart_table;
mod kept_write;
mod laws;
mod line_misses;
mod observer;
mod recent;
mod seat;
mod text;

pub use all_lines::{Misses, Row};
pub use laws::{costs_add_up, padding_saves_what_is_useless, word_lines_waste_nothing};
pub use line_misses::Costs;
pub use observer::MissObservations;
pub use recent::Recent;

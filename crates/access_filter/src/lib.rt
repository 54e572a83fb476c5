//! Redundant accesses of an access list, found in one pass.
//!
//! Most accesses change no cache of any layout: their hart made one to the same word before, as a
//! write if this is one, and no other hart came near since. [`Filter`] finds exactly these.
//!
//! It keeps a [`Stamp`](stamp::Stamp) of each region, the 2^k bytes at a multiple of 2^k: the hart that
//! came near it last, and a number that rises when another one does. A stamp of each word of 4 bytes
//! has the hart of its last access that wasn't redundant, whether that wrote, and the number that
//! its region had then. While the region still has that number, no other hart came near.
//!
//! `sharing_rules/specs/Filtered.antt` says what is redundant, over whole lists, and
//! `specs/Rules.antt` what the stamps say of a list.
#![tactic(auto)]

mod filter;
mod pages;
mod regions;
mod stamp;

pub use filter::Filter;

//! Private caches of a stated shape, least recently used, beside caches that lose no line.
//!
//! An unbounded cache counts an invalidation even where a real one would have lost the line long
//! before. `specs/Bounded.antt` says what a cache of some sets and ways holds after a list of
//! accesses: for each hart and set a list of lines, the most recently used first. `specs/Rows.antt`
//! says how often a line is taken from a hart there, how often in unbounded caches, and how often it
//! was evicted.
//!
//! [`Caches`] keeps one `LruCache` for each hart and set, made when it is first used. Of a line it
//! keeps the harts that came since its last write: only these can have it, so a write asks no other.
#![tactic(auto)]

mod caches;
mod laws;
mod line_use;
mod observer;
mod rows;
mod shape;
mod step;
mod tables;
mod text;
mod way_set;

pub use caches::Caches;
pub use laws::bounded_caches_lose_no_more_than_they_evict;
pub use rows::{CacheRow, Totals};
pub use text::write_caches;

//! The invalidations of every shift of a line size, counted in one pass.
//!
//! A line of N bytes may begin at any of N / 4 places within N bytes, and which is best decides how
//! large a header of a block should be, or how an arena is aligned. Each window of N bytes that
//! begins at a multiple of 4 is a line of exactly one of these shifts, so the lines of all shifts
//! are all windows. [`Sweep`] keeps them by where they begin, in pages, and an access touches the
//! N / 4 windows that hold its word, which are neighbours.
//!
//! A window keeps the first two harts that came since its last write, which determine whether a
//! write finds another hart there, and whether that ever happened. A shift keeps two sums: its
//! total, and how many of its lines have a part in it.
//!
//! [`LineCounts`] keeps the same of one layout alone, for an access list that others choose.
//!
//! `specs/Totals.antt` says what the total of a layout is, over whole lists, and
//! `specs/Windows.antt` what a window is.
#![tactic(auto)]

mod counts;
mod laws;
mod line_counts;
mod observer;
mod one_access;
mod pages;
mod sweep;
mod text;
mod window;

pub use counts::Swept;
pub use laws::{none_undercuts_the_least, what_is_counted_is_listed, windows_are_lines};
pub use line_counts::LineCounts;
pub use one_access::see;
pub use sweep::Sweep;
pub use text::write_sweep;

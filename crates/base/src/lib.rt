//! The values that every crate speaks of: harts and their accesses, layouts and lines, thresholds,
//! the shape of private caches, names, how a run ends, and a counter of steps that costs nothing;
//! and how addresses, names and lines of words are written.
//!
//! Each type holds only allowed values, and its constructor says exactly which those are.
//!
//! A text is lines of words: the words of a line stand with a space between, and each line ends
//! with a line feed. An address is `0x` and at least eight lower-case hexadecimal digits; one below
//! 0 has a `-` in front. A name is its bytes, those that are no visible ASCII, and the backslash,
//! each as `\x` and two digits; an empty one is `?`.
#![tactic(auto)]

mod access;
mod addresses;
mod ending;
mod faults;
mod fields;
mod hart;
mod layout;
mod name;
mod printed_names;
mod shape;
mod steps;
mod thresholds;

pub use access::{Access, Kind};
pub use addresses::{address, push_address, push_address_past};
pub use ending::{Cause, Ending, Outcome};
pub use faults::{NoMemory, ResumeFault};
pub use fields::{behind, u16_at, u32_at, u64_at};
pub use hart::Hart;
pub use layout::{Layout, Range};
pub use name::Name;
pub use printed_names::{printed_name, push_name};
pub use shape::Shape;
pub use steps::Steps;
pub use thresholds::Thresholds;

//! The words of the command line: the first names the command, and `clap` reads the words after it.
//!
//! Each command is one simple command of `clap`, and the contracts cite what `clap` itself says of
//! those: which words such a command refuses, and which value each of its arguments gets. An option
//! is `--name value` or `--name=value`, at most once, in any order; after `--` every word is
//! positional.
//!
//! A command is a file here and one in specs/, with its options and what they ask for, and a row in
//! each table: `read_command`, [`USAGE`], [`Demand`], and those of specs/Words.antt. Commands that
//! take the same options share them: a trace under a layout is [`LayoutOptions`].
#![tactic(auto)]

mod address;
mod blame;
mod bounds;
mod caches;
mod check;
mod convert;
mod demand;
mod explain;
mod files_read;
mod filter;
mod forms;
mod generate;
mod layout;
mod misses;
mod names;
mod place;
mod reason;
mod relocate;
mod replay;
mod run;
mod set;
mod split;
mod sweep;
mod trace_layout;
mod words;

pub use bounds::what_is_asked_is_bounded;
pub use caches::CachesOptions;
pub use check::CheckOptions;
pub use convert::ConvertOptions;
pub use demand::{Demand, USAGE, WordsFault};
pub use explain::ExplainOptions;
pub use files_read::{FilesRead, TraceToRead};
pub use filter::FilterOptions;
pub use generate::GenOptions;
pub use place::PlaceOptions;
pub use reason::{Reason, WrongChange};
pub use relocate::MoveOptions;
pub use replay::ReplayOptions;
pub use run::RunOptions;
pub use split::SplitOptions;
pub use sweep::SweepOptions;
pub use trace_layout::LayoutOptions;
pub use words::read_words;

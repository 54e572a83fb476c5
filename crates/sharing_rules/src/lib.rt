//! The rules of sharing: definitions over whole access lists, their laws, and the small values that
//! they speak of.
//!
//! The definitions stand in `specs/`, and their laws in `specs/Laws/`, each with its proof, so that
//! other crates can cite it. Nothing here goes over a list: the crates above keep two entries and a
//! row of words for each line, and are proved to agree with what is defined here. The tables of
//! `detector_tests` and the cases of `worked_runs` state worked results.
#![tactic(auto)]

mod bases;
mod cache_line;
mod laws;
mod line_kind;
mod native;
mod verdicts;
mod word;

pub use bases::{line_from, number_of_base, shifted_base, word_address};
pub use cache_line::CacheLine;
pub use laws::{a_longer_list_moves_no_start, findings_are_recounted, kept_lines};
pub use line_kind::{LineKind, Verdict};
pub use native::is_native;
pub use verdicts::is_truly_shared;
pub use word::{Owner, Word};

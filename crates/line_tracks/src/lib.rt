//! What is kept of a line of memory from its start on, observed or predicted.
//!
//! A [`Track`] keeps its start, a [`History`], the count of invalidations, and a [`Shadow`] of its
//! words, in at most 100 bytes beside those of its words. It is exact: for every access list it is
//! the track that the list defines.
//!
//! A history is the first two harts that came to the line since its last write. Two are enough:
//! whether a write finds another hart holding its line is the same question asked of them and of
//! the simulated caches.
//!
//! A shadow is what was counted of each word of a range, without the accesses themselves: the
//! reads, the writes and the owner of each 4 bytes, in 16 bytes. Over it stand the best hot
//! pair of two neighbouring lines, the two words that would be shared falsely if they came to lie
//! on one line, and the verdict: whether a line's sharing is false, true or mixed.
#![tactic(auto)]

mod cell;
mod history;
mod kind_order;
mod laws;
mod line_verdict;
mod pair;
mod pair_search;
mod ranges;
mod shadow;
mod track;
mod tracks;

pub use history::History;
pub use kind_order::{order_by_kind, rank};
pub use laws::at_most_four_lines_hold_an_address;
pub use line_verdict::verdict;
pub use pair::Pair;
pub use pair_search::best_pair;
pub use ranges::{doubled_range, shifted_range};
pub use shadow::Shadow;
pub use sharing_rules::LineKind;
pub use track::{Mark, Track};
pub use tracks::Tracks;

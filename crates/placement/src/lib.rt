//! A new place for each word of an object, so that no two harts share a line for its sake, and what
//! that comes to over the same accesses.
//!
//! `specs/Words.antt` says what the words of an object are, and who touches each;
//! `specs/Plans.antt` where each goes, and `specs/Recounts.antt` what that saves. Three passes over
//! a trace find it all: [`Finder`] seeks the object, [`Owners`] keeps who touches its words, access
//! by access, and [`Recount`] counts the accesses where they are and where a [`Plan`] moves them.
#![tactic(auto)]

mod cases;
mod extent;
mod finder;
mod groups;
mod laws;
mod observer;
mod owners;
mod plan;
mod recount;
mod refusal;
mod sums;
mod text;

pub use cases::cases_of_a_placement;
pub use extent::Extent;
pub use finder::Finder;
pub use laws::{
    a_harts_lines_count_nothing, padding_saves_all_of_the_object, the_area_counts_what_many_count,
    words_keep_apart,
};
pub use owners::Owners;
pub use plan::{Plan, PlanFault};
pub use recount::Recount;
pub use refusal::PlaceRefusal;
pub use sums::Sums;
pub use text::write_place;

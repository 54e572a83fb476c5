//! Which hart runs next: the text of a schedule, read, and the choices that it makes.
//!
//! A schedule lists harts in the order in which they run. Harts that can't run are passed over, and
//! after the list the harts take turns, in their order or as numbers say that a seed draws.
#![tactic(auto)]

mod draws;
mod entry;
mod fault;
mod listed;
mod lone_choice;
mod read;
mod runnable;
mod schedule;
mod streak;
mod turns;

pub use fault::ScheduleFault;
pub use lone_choice::{lone_goes_on, lone_is_chosen};
pub use schedule::Schedule;

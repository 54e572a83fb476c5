// How the turns after the list go.
use crate::draws::Draws;

/// How the turns after the list go: round, or as numbers are drawn.
#[derive(Clone, Copy, Debug)]
pub enum Turns {
    /// They go round.
    Round,
    /// They go as these numbers say.
    Drawn(Draws),
    /// None was taken yet. They will go round, or as these numbers say.
    First(Option<Draws>),
}

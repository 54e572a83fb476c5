//! Tests of the shelves, in memory and over real files, and of files that are written piece by piece.
#![tactic(auto)]

#[cfg(test)]
mod disk;
#[cfg(test)]
mod held;
#[cfg(test)]
mod outgoing;
#[cfg(test)]
mod shelves;

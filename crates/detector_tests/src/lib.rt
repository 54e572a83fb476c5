//! Tests of the detector and its parts on lists worked by hand, and of printed addresses and names.
//! The detector is tried over its own index and over a plain one, [`MapIndex`].
#![tactic(auto)]

#[cfg(test)]
mod added;
#[cfg(test)]
mod histories;
#[cfg(test)]
mod indexes;
mod map_index;
#[cfg(test)]
mod pairs;
#[cfg(test)]
mod ranges;
#[cfg(test)]
mod shadows;
#[cfg(test)]
mod stated;
#[cfg(test)]
mod texts;
#[cfg(test)]
mod tracks;
#[cfg(test)]
mod verdicts;

pub use map_index::MapIndex;

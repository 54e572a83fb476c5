//! Tests of the parts of a guest: instructions, memory, the heap, calls and schedules.
#![tactic(auto)]

#[cfg(test)]
mod calls;
#[cfg(test)]
mod heaps;
#[cfg(test)]
mod memories;
#[cfg(test)]
mod schedules;
#[cfg(test)]
mod steps;
#[cfg(test)]
mod threads;
#[cfg(test)]
mod words;

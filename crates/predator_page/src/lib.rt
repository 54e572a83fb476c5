//! The program for hosts that have no files of the system, as a page of a browser: one exported
//! call over files in memory.
//!
//! [`call_in_memory`] is the top call over a shelf in memory. [`predator_page`] is what a host calls: it
//! takes the words and the files out of the bytes of a request (request.rt), and puts what came of
//! the call into the bytes of a reply (reply.rt). docs/ANYWHERE.md has both forms.
#![tactic(auto)]

mod export;
mod memory_call;
mod message;
mod reply;
mod request;

pub use export::predator_page;
pub use memory_call::{Answer, call_in_memory};

// A call over a shelf that never fails.
use crate::trouble::Trouble;
use crate::words::words_of;
use predator_cli::predator_steady;
use shelf::{HeldFile, NeverFails};
use std::alloc::{AllocError, Global};
use std::fs;
use std::rt::Files;

const PROGRAM: &str = "plain.elf";

const CALL: &str = "check plain.elf";

// A shelf that holds the program.
fn shelf_of(alloc: Global, content: Vec<u8>) -> Result<NeverFails, AllocError> {
    let mut files = Vec::new(alloc);
    let name = String::from_str(alloc, PROGRAM)?;
    files.push(HeldFile { name, content })?;
    Ok(NeverFails::new(files))
}

// The status of the call, as a number.
fn status_over(alloc: Global, shelf: &mut NeverFails) -> Result<u8, AllocError> {
    let words = words_of(alloc, CALL)?;
    Ok(predator_steady(alloc, &words, shelf).number())
}

// Says how the call ends, and answers whether it ends well.
pub(crate) fn ends_well<R: Files + Print + AllocGlobal>(rt: &R) -> Result<bool, Trouble> {
    let content = fs::read(rt, PROGRAM)?;
    let mut shelf = shelf_of(rt.alloc(), content)?;
    let status = status_over(rt.alloc(), &mut shelf)?;
    println!(rt; "{CALL}, over a shelf that never fails: status {status}")?;
    Ok(status == 0)
}

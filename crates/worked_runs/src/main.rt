//! Whole cases of the program, over files in memory: runs each case that `cases.txt` names, and
//! says how many of its calls ended as the case says. A case is a text file beside it, and what it
//! may say stands in `case.rt`; so a new case is a file, its name in `cases.txt`, its line in
//! `stdout`, and no proof. At the end one call is made over a shelf that never fails.
#![tactic(auto)]

mod call;
mod case;
mod content;
mod steady;
mod trouble;
mod words;

use crate::case::Case;
use crate::trouble::Trouble;
use std::process::ExitCode;
use std::rt::Files;
use std::{fs, io};

const INDEX: &str = "cases.txt";

// Takes each line of a case and ends it. What is wrong with the case itself is said by the number
// of its line.
fn play<R: Files + Print + AllocGlobal>(
    rt: &R,
    case: &mut Case,
    text: &str,
) -> Result<(), Trouble> {
    let mut number = 0u32;
    for line in text.lines() {
        number = number.saturating_add(1);
        match case.take(rt, line) {
            Ok(()) => {}
            Err(Trouble::BadLine) => {
                println!(rt; "line {number}: {line}")?;
                return Err(Trouble::BadLine);
            }
            Err(trouble) => return Err(trouble),
        }
    }
    case.end(rt)
}

// Plays a case, says how it went, and answers whether each of its calls ended as it says.
fn report<R: Files + Print + AllocGlobal>(
    rt: &R,
    name: &str,
    case: &mut Case,
    text: &str,
) -> Result<bool, Trouble> {
    play(rt, case, text)?;
    let (passed, failed) = (case.passed(), case.failed());
    if failed == 0 {
        println!(rt; "{name}: {passed} passed")?;
    } else {
        println!(rt; "{name}: {passed} passed, {failed} failed")?;
    }
    Ok(failed == 0)
}

// The same of the case of a name.
fn pass<R: Files + Print + AllocGlobal>(rt: &R, name: &str) -> Result<bool, Trouble> {
    let text = fs::read_to_string(rt, name)?;
    let mut case = Case::new(rt.alloc());
    report(rt, name, &mut case, &text)
}

fn pass_all<R: Files + Print + AllocGlobal>(rt: &R) -> Result<bool, Trouble> {
    let index = fs::read_to_string(rt, INDEX)?;
    let mut passed = true;
    for name in index.lines() {
        if !pass(rt, name)? {
            passed = false;
        }
    }
    Ok(passed)
}

// Each case, and then a call over a shelf that never fails.
fn run<R: Files + Print + AllocGlobal>(rt: &R) -> Result<bool, Trouble> {
    let passed = pass_all(rt)?;
    let ends_well = steady::ends_well(rt)?;
    Ok(passed && ends_well)
}

fn main(rt: HostRuntime) -> ExitCode {
    match run(&rt) {
        Ok(true) => ExitCode::from(0),
        Ok(false) => ExitCode::from(1),
        Err(trouble) => {
            let _said = println!(rt; "{}", trouble.text());
            ExitCode::from(2)
        }
    }
}

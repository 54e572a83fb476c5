//! What the commands of the program share: how a command ends ([`Status`]), the files that it reads
//! and judges one after another, and what it writes under a name.
//!
//! A file is judged by a [`Judge`]: at most how many bytes it has, how a longer one is refused, and
//! what an accepted one gives. [`read_judged`] alone reads and judges a named file; what it answers
//! is said over a list of readings, each with its name and its refusal (specs/Readings.antt). A
//! command that reads several files puts such lists together, and ends by the first refusal in
//! them; the laws for that are in specs/Laws. Each status has its number for the process
//! (specs/Numbers.antt) and its line where it is printed (specs/Faults.antt). What each fault is
//! called and the advice on it stand together, in a file for each kind of fault, as
//! `trace_faults.rt`. The advice is no format, and no promise is made of it. What is wrong with
//! words is said by the `Reason` of `command_line`.
//!
//! What a command does with its files isn't known here.
#![tactic(auto)]

mod advice;
mod elf_faults;
mod faults;
mod files;
mod files_read;
mod place_faults;
mod program_file;
mod saving;
mod schedule_faults;
mod settings_faults;
mod settings_file;
mod start;
mod state_faults;
mod status;
mod table_faults;
mod trace_faults;

pub use advice::{advice_for, advice_on, advise};
pub use faults::{NO_MEMORY_LINE, READ_FAULT_LINE, WRITE_FAULT_LINE, fault_line};
pub use files::{Judge, read_judged};
pub use files_read::{file_to_look_at, trace_to_read};
pub use program_file::{PROGRAM_LIMIT, Program, judge_program};
pub use saving::save;
pub use settings_file::{native_layout, read_settings, thresholds_of};
pub use start::{exit_code, words_of};
pub use status::{StateFault, Status};

// The first lines of a report.
ghost use Rattle.std.specs.Prelude.{◌∷◌, [], codes, OnOk};
ghost use Rattle.std.specs.Fmt.{decimal};
ghost use Rattle.report.specs.Added.{AddsLine, AddsLines};
ghost use Rattle.report.specs.Lines.{outcome_words};
ghost use Rattle.report.specs.Reports.{ending_lines, outcome_lines, setting_lines, threshold_line};

use crate::words::cause_name;
use base::{Cause, Ending, Hart, Layout, Outcome, Thresholds, push_address};
use std::alloc::AllocError;

// The line of an end by a trap.
fn push_trap(text: &mut String, hart: Hart, pc: u32, cause: Cause) -> Result<(), AllocError>
    ensures { OnOk result (AddsLine text.old text.new
        (codes "outcome" ∷ outcome_words (Outcome.Trap hart pc cause))) }
{
    let number = hart.number();
    let name = cause_name(cause);
    write!(text, "outcome trap hart {number} pc ")?;
    push_address(text, u64::from(pc))?;
    writeln!(text, " {name}")
}

// The line of how it ended.
fn push_outcome(text: &mut String, outcome: Outcome) -> Result<(), AllocError>
    ensures { OnOk result (AddsLine text.old text.new (codes "outcome" ∷ outcome_words outcome)) }
{
    match outcome {
        Outcome::Exit(code) => writeln!(text, "outcome exit {code}"),
        Outcome::Budget => text.push_str("outcome budget\n"),
        Outcome::Deadlock => text.push_str("outcome deadlock\n"),
        Outcome::Trap(hart, pc, cause) => push_trap(text, hart, pc, cause),
        Outcome::Part => text.push_str("outcome part\n"),
    }
}

// The line of the thresholds.
fn push_thresholds(text: &mut String, thresholds: Thresholds) -> Result<(), AllocError>
    ensures { OnOk result (AddsLine text.old text.new
        (threshold_line thresholds)) }
{
    let tracking = thresholds.tracking();
    let report = thresholds.report();
    match thresholds.prediction() {
        Some(prediction) => writeln!(text, "thresholds {tracking} {prediction} {report}"),
        None => writeln!(text, "thresholds {tracking} none {report}"),
    }
}

// The line of the layout.
fn push_layout(text: &mut String, layout: Layout) -> Result<(), AllocError>
    ensures { OnOk result (AddsLine text.old text.new
        (codes "layout" ∷ decimal layout.size ∷ decimal layout.offset ∷ [])) }
{
    let size = layout.size();
    let offset = layout.offset();
    writeln!(text, "layout {size} {offset}")
}

/// The lines of how it ended, after how many steps and accesses.
pub fn push_outcome_lines(text: &mut String, ending: &Ending) -> Result<(), AllocError>
    ensures { OnOk result (AddsLines text.old text.new (outcome_lines ending.now)) }
{
    let steps = ending.steps;
    let accesses = ending.accesses;
    push_outcome(text, ending.outcome)?;
    writeln!(text, "steps {steps}\naccesses {accesses}")
}

/// The first line of a report, and those of how it ended.
pub fn push_ending(text: &mut String, ending: &Ending) -> Result<(), AllocError>
    ensures { OnOk result (AddsLines text.old text.new (ending_lines ending.now)) }
{
    text.push_str("predator report 1\n")?;
    push_outcome_lines(text, ending)
}

/// The lines of the layout, of the thresholds and of how many lines are listed.
pub fn push_settings(
    text: &mut String,
    layout: Layout,
    thresholds: Thresholds,
    count: usize,
) -> Result<(), AllocError>
    ensures { OnOk result (AddsLines text.old text.new (setting_lines layout thresholds count)) }
{
    push_layout(text, layout)?;
    push_thresholds(text, thresholds)?;
    writeln!(text, "lines {count}")
}

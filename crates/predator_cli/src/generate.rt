// The command `gen`.
ghost use Rattle.std.specs.Prelude.{◌≡◌, ◌++◌, ◌≤◌, ◌^◌, [], IfErr, IfOk, IsTrue, OnOk, Some};
ghost use Rattle.std.specs.Prelude.{string_bytes};
ghost use Rattle.command_line.specs.Gen.{gen_meaning};
ghost use Rattle.command_line.specs.Words.{gen as asks};
ghost use Rattle.detector.specs.Standing.{StandsFor};
ghost use Rattle.shelf.specs.Files.{AreCut, AreWritten};
ghost use Rattle.sharing_rules.specs.AccessLists.{AccessList};
ghost use Rattle.sharing_rules.specs.Listed.{may_predict};
ghost use Rattle.observations.specs.Seen.{HasSeen, begins_at};
ghost use Rattle.trace_files.specs.Made.{made_file};
ghost use Rattle.detector.specs.TotalsOf.{totals_of};
ghost use Rattle.predator_cli.specs.Gen.{made_accesses, summary_of, summary_text};
ghost use Rattle.predator_cli.specs.Meets.{Meets};

use crate::endings::{finish, refuse};
use base::{Layout, NoMemory, Thresholds};
use command_io::{Status, native_layout, thresholds_of};
use command_line::GenOptions;
use detector::{Totals, count_tracks};
use observations::Observations;
use settings::Settings;
use shelf::{Shelf, ShelfError};
use std::alloc::{AllocError, Global};
use trace_files::make_trace;

// Puts the summary of so many accesses whose lines come to these totals behind a text.
fn push_summary(text: &mut String, count: u64, totals: Totals) -> Result<(), AllocError>
    ensures { OnOk result (string_bytes text.new
        ≡ string_bytes text.old ++ summary_text count totals) }
{
    let tracked = totals.tracked;
    let listed = totals.listed;
    let invalidations = totals.invalidations;
    writeln!(
        text,
        "generated {count}\ntracked {tracked}\nlisted {listed}\ninvalidations {invalidations}\nend"
    )
}

// The same alone.
fn summary(alloc: Global, count: u64, totals: Totals) -> Result<String, AllocError>
    ensures { IfOk result (λ text. string_bytes text ≡ summary_text count totals) }
{
    let mut text = String::new(alloc);
    push_summary(&mut text, count, totals)?;
    Ok(text)
}

// The summary of accesses that were seen.
fn summary_of_seen(
    alloc: Global,
    count: u64,
    observations: &Observations,
) -> Result<String, NoMemory>
    ensures { (t : AccessList) → StandsFor t observations.now.watch
        → IfOk result (λ text. string_bytes text ≡ summary_text count
        (totals_of observations.now.watch.grid observations.now.watch.levels t)) }
{
    let detector = observations.detector();
    let totals = count_tracks(detector.tracks(), detector.thresholds().report());
    match summary(alloc, count, totals) {
        Ok(text) => Ok(text),
        Err(AllocError) => Err(NoMemory),
    }
}

// Makes the trace of so many accesses, and counts them as they are made, seen from nothing on.
fn make_seen<S: Shelf>(
    alloc: Global,
    shelf: &mut S,
    name: &str,
    count: u64,
    observations: &mut Observations,
) -> Result<String, ShelfError>
    requires few { count ≤ 10 ^ 9 }
    requires begins { begins_at observations.old 0 }
    requires fresh { HasSeen observations.old observations.old [] }
    requires stands { StandsFor [] observations.old.watch }
    ensures text { IfOk result (λ text. string_bytes text ≡ summary_text count (totals_of
        observations.old.watch.grid observations.old.watch.levels (made_accesses count))) }
    ensures written { OnOk result (AreWritten (made_file name.now count)
        (S.outside shelf.old) (S.outside shelf.new)) }
    ensures cut { IfErr result (AreCut (made_file name.now count)
        (S.outside shelf.old) (S.outside shelf.new)) }
{
    match make_trace(alloc, shelf, name, count, observations) {
        Ok(()) => match summary_of_seen(alloc, count, observations) {
            Ok(text) => Ok(text),
            Err(NoMemory) => Err(ShelfError::NoMemory),
        },
        Err(error) => Err(error),
    }
}

// The same under a layout and thresholds.
fn make_under<S: Shelf>(
    alloc: Global,
    shelf: &mut S,
    name: &str,
    count: u64,
    layout: Layout,
    thresholds: Thresholds,
) -> Result<String, ShelfError>
    requires few { count ≤ 10 ^ 9 }
    requires native { IsTrue (may_predict layout thresholds) }
    ensures text { IfOk result (λ text. string_bytes text
        ≡ summary_text count (totals_of layout thresholds (made_accesses count))) }
    ensures written { OnOk result (AreWritten (made_file name.now count)
        (S.outside shelf.old) (S.outside shelf.new)) }
    ensures cut { IfErr result (AreCut (made_file name.now count)
        (S.outside shelf.old) (S.outside shelf.new)) }
{
    let mut observations = Observations::new(alloc, layout, thresholds);
    make_seen(alloc, shelf, name, count, &mut observations)
}

// The same under the usual settings.
fn make<S: Shelf>(
    alloc: Global,
    options: &GenOptions<'_>,
    shelf: &mut S,
) -> Result<String, ShelfError>
    requires { options.now.count ≤ 10 ^ 9 }
    ensures text { IfOk result (λ text. string_bytes text ≡ summary_of options.now.count) }
    ensures written { OnOk result (AreWritten (made_file options.now.file.now options.now.count)
        (S.outside shelf.old) (S.outside shelf.new)) }
    ensures cut { IfErr result (AreCut (made_file options.now.file.now options.now.count)
        (S.outside shelf.old) (S.outside shelf.new)) }
{
    let settings = Settings::usual();
    let layout = native_layout(&settings);
    let thresholds = thresholds_of(&settings, None);
    make_under(
        alloc,
        shelf,
        options.file,
        options.count,
        layout,
        thresholds,
    )
}

/// Makes a trace of so many accesses under a name, counts them as they are made, and prints what
/// their lines come to under the usual settings.
pub fn generate<S: Shelf>(alloc: Global, options: &GenOptions<'_>, shelf: &mut S) -> Status
    requires { options.now.count ≤ 10 ^ 9 }
    ensures { Meets (Some (asks (gen_meaning options.now)))
        (S.outside shelf.old) (S.outside shelf.new) result }
{
    match make(alloc, options, shelf) {
        Ok(text) => finish(shelf, Status::Done, text.as_bytes()),
        Err(error) => refuse(alloc, shelf, Status::from(error)),
    }
}

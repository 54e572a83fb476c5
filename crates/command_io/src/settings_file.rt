// The settings of a command.
ghost use Rattle.std.specs.Prelude.{◌≡◌, ◌≢◌, Ok, Err, Some, None, IfOk, IfErr, IsOk, IsTrue, OnOk};
ghost use Rattle.std.specs.Option.{ForSome};
ghost use Rattle.sharing_rules.specs.Listed.{may_predict};
ghost use Rattle.command_line.specs.Demands.{text_of};
ghost use Rattle.command_line.specs.Set.{asked_under};
ghost use Rattle.settings.specs.Allowed.{IsAllowed};
ghost use Rattle.shelf.specs.Shelf.{Known};
ghost use Rattle.settings.specs.Answers.{usual_under};
ghost use Rattle.settings.specs.Changed.{no_changes};
ghost use Rattle.command_io.specs.Readings.{IsAccepted, IsRefusal, IsStopped};
ghost use Rattle.command_io.specs.SettingsFiles.{layout_of, levels_of, native_of};
ghost use Rattle.command_io.specs.SettingsFiles.{settings_in, settings_readings};
ghost use Rattle.command_io.specs.SettingsFiles.{settings_refusal};

use crate::Status;
use crate::files::{Judge, read_judged};
use base::{Layout, Thresholds};
use settings::{Changes, Settings, SettingsFault};
use shelf::Shelf;
use std::alloc::Global;

/// A settings file, of at most 64 KiB, under changes.
#[derive(Drop)]
struct SettingsFile {
    changes: Changes,
}

impl Judge for SettingsFile {
    ghost use Rattle.settings.specs.Answers.{settings_under};

    type Given = Settings;

    ghost most = { λ _. 65536 };

    ghost refusal = { λ file bytes. settings_refusal (settings_under file.changes bytes) };

    ghost gives = { λ file bytes settings.
        (settings_under file.changes bytes ≡ Ok settings) × IsAllowed settings };

    fn limit(&self) -> u64 {
        1 << 16
    }

    fn too_long(&self) -> Status {
        Status::Settings(SettingsFault::TooLong)
    }

    fn judge(&self, alloc: Global, bytes: &[u8]) -> Result<Settings, Status> {
        Ok(Settings::read(alloc, bytes, &self.changes)?)
    }
}

// The usual settings under changes.
#[tactic(auto, using(crate::proofs::Usual::usual_given, crate::proofs::Usual::usual_refused))]
fn usual_settings(alloc: Global, changes: &Changes) -> Result<Settings, Status>
    ensures value { IfOk result (λ settings. usual_under changes.now ≡ Ok settings) }
    ensures allowed { IfOk result IsAllowed }
    ensures accepted { OnOk result (settings_refusal (usual_under changes.now) ≡ None) }
    ensures refused { IfErr result (λ s. IsRefusal s
        × (settings_refusal (usual_under changes.now) ≡ Some s)) }
    ensures usual { changes.now ≡ no_changes → IsOk result }
{
    match Settings::usual_under(alloc, changes) {
        Ok(settings) => Ok(settings),
        Err(fault) => Err(Status::from(fault)),
    }
}

/// The settings that a file gives under changes, or the usual ones under them where none is named;
/// or why the command stops: `ReadFault` where the reading failed, `Settings` by the file's first
/// fault, and then by the first key that the changes put out of its range, `NoMemory` where memory
/// runs out.
pub fn read_settings<S: Shelf>(
    alloc: Global,
    shelf: &mut S,
    name: Option<&str>,
    changes: &Changes,
) -> Result<Settings, Status>
    ensures read { IfOk result (λ settings. Known (S.outside shelf.new).held
        (λ files. settings_in (asked_under (text_of name.entry) changes.now) files
        ≡ Ok settings)) }
    ensures allowed { IfOk result IsAllowed }
    ensures accepted { OnOk result (IsAccepted
        (settings_readings (asked_under (text_of name.entry) changes.now))
        (S.outside shelf.old) (S.outside shelf.new)) }
    ensures stopped { IfErr result (IsStopped
        (settings_readings (asked_under (text_of name.entry) changes.now))
        (S.outside shelf.old) (S.outside shelf.new)) }
    // Where none is named no memory is wanted, and where nothing is changed either, nothing is.
    ensures unnamed { text_of name.entry ≡ None → result ≢ Err Status.NoMemory }
    ensures usual { text_of name.entry ≡ None → changes.now ≡ no_changes → IsOk result }
{
    match name {
        Some(name) => read_judged(alloc, shelf, name, &SettingsFile { changes: *changes }),
        None => usual_settings(alloc, changes),
    }
}

/// The native layout of settings: the one of a command where no layout is named.
pub fn native_layout(settings: &Settings) -> Layout
    requires { IsAllowed settings.now }
    ensures { result ≡ native_of settings.now }
{
    match Layout::new(settings.line(), 0) {
        Some(layout) => layout,
        None => unreachable!(),
    }
}

// The thresholds that settings give, with a threshold of prediction or without.
fn thresholds_with(settings: &Settings, prediction: Option<u64>) -> Thresholds
    requires allowed { IsAllowed settings.now }
    requires prediction { ForSome prediction (λ p. p ≡ settings.now.prediction) }
    ensures { result ≡ record {
      tracking = settings.now.tracking;
      prediction = prediction;
      report = settings.now.report;
    } }
{
    match Thresholds::new(settings.tracking, prediction, settings.report) {
        Some(thresholds) => thresholds,
        None => unreachable!(),
    }
}

/// The thresholds that settings give. Something is predicted where no layout is named.
pub fn thresholds_of(settings: &Settings, layout: Option<Layout>) -> Thresholds
    requires { IsAllowed settings.now }
    ensures value { result ≡ levels_of layout settings.now }
    ensures native { IsTrue (may_predict (layout_of layout settings.now) result) }
{
    match layout {
        Some(_) => thresholds_with(settings, None),
        None => thresholds_with(settings, Some(settings.prediction)),
    }
}

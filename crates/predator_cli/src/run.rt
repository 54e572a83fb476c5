// The command `run`.
ghost use Rattle.std.specs.Prelude.{◌≡◌, ◌≤◌, ◌^◌, ◌++◌, IfErr, IfOk, [], Ok, OnOk};
ghost use Rattle.std.specs.Prelude.{Some, length, take, None};
ghost use Rattle.command_line.specs.Demands.{text_of};
ghost use Rattle.command_line.specs.Run.{run_meaning, run_outputs};
ghost use Rattle.command_line.specs.Set.{AskedSettings};
ghost use Rattle.command_line.specs.Words.{run as asks};
ghost use Rattle.guest.specs.Runs.{IsShort, rest_of};
ghost use Rattle.shelf.specs.Files.{AreCut, AreWritten};
ghost use Rattle.shelf.specs.OnTheirWay.{AreApart};
ghost use Rattle.run_recorder.specs.Recorded.{IsKept, IsSymbolRecord, names_of, outputs_for};
ghost use Rattle.run_recorder.specs.Recorded.{trace_for};
ghost use Rattle.std.specs.List.{All};
ghost use Rattle.command_io.specs.ProgramFiles.{IsStartable};
ghost use Rattle.base.specs.Levels.{Levels};
ghost use Rattle.base.specs.Lines.{Grid};
ghost use Rattle.settings.specs.Allowed.{IsAllowed};
ghost use Rattle.observations.specs.Seen.{HasSeen, begins_at};
ghost use Rattle.observations.specs.ObservedTraces.{nothing_observed};
ghost use Rattle.shelf.specs.Shelf.{Outside, Known, content};
ghost use Rattle.command_io.specs.Readings.{IsAccepted, IsStopped};
ghost use Rattle.command_io.specs.SettingsFiles.{levels_of, native_of, settings_in};
ghost use Rattle.command_io.specs.Statuses.{kind_of, done};
ghost use Rattle.predator_cli.specs.Meets.{Meets};
ghost use Rattle.predator_cli.specs.Replay.{report_of};
ghost use Rattle.predator_cli.specs.Run.{IsReady, file_for, outputs_of_run, run_for_demand};
ghost use Rattle.predator_cli.specs.Run.{run_readings, schedule_in, schedule_readings, status_for};
ghost use Rattle.predator_cli.specs.Run.{symbol_records, version_with, whole_run};

use crate::endings::{finish, refuse, stop};
use crate::symbols::records_of;
use base::{NoMemory, Outcome};
use command_io::{
    Judge, PROGRAM_LIMIT, Program, Status, judge_program, native_layout, read_judged,
    read_settings, thresholds_of,
};
use command_line::RunOptions;
use guest::{Guest, RunSettings};
use hart_scheduler::{Schedule, ScheduleFault};
use observations::Observations;
use program_files::{ElfFault, Image};
use run_recorder::{Content, RunFile, record_run};
use settings::Settings;
use shelf::{Shelf, ShelfError};
use std::alloc::Global;
use trace_format::{TraceRecord, Version};

/// How the program ends after a run with this outcome.
pub fn status_of(outcome: Outcome) -> Status
    ensures value { result ≡ status_for outcome }
    ensures done { kind_of result ≡ done }
{
    match outcome {
        Outcome::Exit(_) | Outcome::Part => Status::Done,
        Outcome::Budget => Status::Budget,
        Outcome::Deadlock => Status::Deadlock,
        Outcome::Trap(..) => Status::Trapped,
    }
}

/// A program in memory, and its symbols as its trace records them.
#[derive(Drop)]
pub struct Loading {
    /// Its image.
    pub image: Image,
    /// Its symbols.
    pub symbols: Vec<TraceRecord>,
}

/// A program file that gives its image and its symbols, under settings.
#[derive(Clone, Copy)]
struct ProgramUnder {
    settings: Settings,
}

impl Judge for ProgramUnder {
    ghost use Rattle.command_io.specs.ProgramFiles.{program_refusal};
    ghost use Rattle.predator_cli.specs.Run.{IsLoading};

    type Given = Loading;

    ghost ready = { λ j. IsAllowed j.settings };

    ghost most = { λ _. 2 ^ 24 };

    ghost refusal = { λ j bytes. program_refusal j.settings bytes };

    ghost gives = { λ j bytes loading. IsLoading j.settings bytes loading };

    fn limit(&self) -> u64 {
        PROGRAM_LIMIT
    }

    fn too_long(&self) -> Status {
        Status::Elf(ElfFault::TooLong)
    }

    fn judge(&self, alloc: Global, bytes: &[u8]) -> Result<Loading, Status> {
        let program = match judge_program(alloc, bytes, &self.settings) {
            Ok(program) => program,
            Err(status) => return Err(status),
        };
        let Program { image, symbols, .. } = program;
        match records_of(alloc, symbols) {
            Ok(symbols) => Ok(Loading { image, symbols }),
            Err(NoMemory) => Err(Status::NoMemory),
        }
    }
}

/// A schedule, of at most 1 MiB, under settings.
#[derive(Clone, Copy)]
struct ScheduleUnder {
    settings: Settings,
}

impl Judge for ScheduleUnder {
    ghost use Rattle.predator_cli.specs.Run.{schedule_refusal, schedule_under};

    type Given = Schedule;

    ghost ready = { λ j. IsAllowed j.settings };

    ghost most = { λ _. 2 ^ 20 };

    ghost refusal = { λ j bytes. schedule_refusal (schedule_under j.settings bytes) };

    ghost gives = { λ j bytes plan. (schedule_under j.settings bytes ≡ Ok plan)
        × (plan.harts ≡ j.settings.harts) × (plan.quantum ≡ j.settings.quantum) };

    fn limit(&self) -> u64 {
        1 << 20
    }

    fn too_long(&self) -> Status {
        Status::Schedule(ScheduleFault::TooLong)
    }

    fn judge(&self, alloc: Global, bytes: &[u8]) -> Result<Schedule, Status> {
        let settings = self.settings;
        Ok(Schedule::read(
            alloc,
            bytes,
            settings.harts,
            settings.quantum,
            settings.seed,
        )?)
    }
}

// The schedule of a name, or one of an empty list where none is named; or why the command stops.
// The settings are those of a file that was read before.
fn read_schedule<S: Shelf>(
    alloc: Global,
    shelf: &mut S,
    name: Option<&str>,
    settings: &Settings,
) -> Result<Schedule, Status>
    requires { IsAllowed settings.now }
    ensures plan { IfOk result (λ plan. Known (S.outside shelf.new).held
        (λ files. schedule_in settings.now (text_of name.entry) files ≡ Ok plan)) }
    ensures harts { IfOk result (λ plan. plan.harts ≡ settings.now.harts) }
    ensures quantum { IfOk result (λ plan. plan.quantum ≡ settings.now.quantum) }
    ensures accepted { OnOk result ((named : AskedSettings) → Known (S.outside shelf.old).held
        (λ files. settings_in named files ≡ Ok settings.now)
        → IsAccepted (schedule_readings named (text_of name.entry)) (S.outside shelf.old)
        (S.outside shelf.new)) }
    ensures stopped { IfErr result (λ status. (named : AskedSettings)
        → Known (S.outside shelf.old).held (λ files. settings_in named files ≡ Ok settings.now)
        → IsStopped (schedule_readings named (text_of name.entry)) (S.outside shelf.old)
        (S.outside shelf.new) status) }
{
    let judge = ScheduleUnder {
        settings: *settings,
    };
    match name {
        Some(name) => match read_judged(alloc, shelf, name, &judge) {
            Ok(schedule) => Ok(schedule),
            Err(status) => Err(status),
        },
        None => match judge.judge(alloc, &[]) {
            Ok(schedule) => Ok(schedule),
            Err(status) => Err(status),
        },
    }
}

/// A guest before its first step, the symbols of its program, and the settings that it has.
#[derive(Drop)]
pub struct Loaded {
    pub guest: Guest,
    pub symbols: Vec<TraceRecord>,
    pub settings: Settings,
}

// The guest of a program and a schedule under settings.
fn make_guest(
    alloc: Global,
    loading: Loading,
    schedule: Schedule,
    settings: Settings,
) -> Result<Loaded, NoMemory>
    requires allowed { IsAllowed settings }
    requires starts { IsStartable loading.image }
    requires image { loading.image.harts ≡ settings.harts }
    requires schedule { schedule.harts ≡ settings.harts }
    requires quantum { schedule.quantum ≡ settings.quantum }
    ensures run { IfOk result
        (λ loaded. rest_of loaded.guest ≡ whole_run settings loading.image schedule) }
    ensures short { IfOk result (λ loaded. IsShort loaded.guest.setup (rest_of loaded.guest)) }
    ensures harts { IfOk result (λ loaded. loaded.guest.setup.harts ≡ settings.harts) }
    ensures budget { IfOk result (λ loaded. loaded.guest.setup.budget ≡ settings.budget) }
    ensures settings { IfOk result (λ loaded. loaded.settings ≡ settings) }
    ensures symbols { IfOk result (λ loaded. loaded.symbols ≡ loading.symbols) }
{
    let Loading { image, symbols } = loading;
    let chosen = RunSettings {
        harts: settings.harts,
        quantum: settings.quantum,
        budget: settings.budget,
    };
    let guest = Guest::new(alloc, image, schedule, chosen)?;
    Ok(Loaded {
        guest,
        symbols,
        settings,
    })
}

/// The guest of a program under the settings and the schedule of their names, or why the command
/// stops.
pub fn load_guest<S: Shelf>(
    alloc: Global,
    shelf: &mut S,
    options: &RunOptions<'_>,
) -> Result<Loaded, Status>
    ensures allowed { IfOk result (λ loaded. IsAllowed loaded.settings) }
    ensures settings { IfOk result (λ loaded. Known (S.outside shelf.new).held
        (λ files. settings_in (run_meaning options.now).settings files ≡ Ok loaded.settings)) }
    ensures run { IfOk result (λ loaded. Known (S.outside shelf.new).held (λ files.
        rest_of loaded.guest ≡ run_for_demand (run_meaning options.now) loaded.settings files)) }
    ensures symbols { IfOk result (λ loaded. Known (S.outside shelf.new).held (λ files.
        loaded.symbols.items ≡ symbol_records (content files options.now.program.now))) }
    ensures stated { IfOk result (λ loaded. All IsSymbolRecord loaded.symbols.items) }
    ensures few { IfOk result (λ loaded. length loaded.symbols.items ≤ 2 ^ 20) }
    ensures short { IfOk result (λ loaded. IsShort loaded.guest.setup (rest_of loaded.guest)) }
    ensures harts { IfOk result (λ loaded. loaded.guest.setup.harts ≡ loaded.settings.harts) }
    ensures budget { IfOk result (λ loaded. loaded.guest.setup.budget ≡ loaded.settings.budget) }
    ensures accepted { OnOk result (IsAccepted (run_readings (run_meaning options.now))
        (S.outside shelf.old) (S.outside shelf.new)) }
    ensures stopped { IfErr result (IsStopped (run_readings (run_meaning options.now))
        (S.outside shelf.old) (S.outside shelf.new)) }
{
    let settings = match read_settings(alloc, shelf, options.settings, &options.set) {
        Ok(settings) => settings,
        Err(status) => return Err(status),
    };
    let loading = match read_judged(alloc, shelf, options.program, &ProgramUnder { settings }) {
        Ok(loading) => loading,
        Err(status) => return Err(status),
    };
    let schedule = match read_schedule(alloc, shelf, options.schedule, &settings) {
        Ok(schedule) => schedule,
        Err(status) => return Err(status),
    };
    match make_guest(alloc, loading, schedule, settings) {
        Ok(loaded) => Ok(loaded),
        Err(NoMemory) => Err(Status::NoMemory),
    }
}

// The files that are named, in the order in which they are begun, and how many there are.
fn files_of<'a>(options: &RunOptions<'a>) -> ([RunFile<'a>; 2], usize)
    ensures few { result.1 ≤ 2 }
    ensures files { take result.1 result.0 ≡ file_for options.now.trace Content.Trace
        ++ file_for options.now.output Content.Output }
{
    let trace = RunFile {
        name: options.trace.unwrap_or(""),
        content: Content::Trace,
    };
    let output = RunFile {
        name: options.output.unwrap_or(""),
        content: Content::Output,
    };
    match (options.trace, options.output) {
        (Some(_), Some(_)) => ([trace, output], 2),
        (Some(_), None) => ([trace, output], 1),
        (None, Some(_)) => ([output, trace], 1),
        (None, None) => ([trace, output], 0),
    }
}

// The version of the trace, with pcs and without.
fn version_with(pcs: bool) -> Version
    ensures { result ≡ version_with pcs }
{
    if pcs { Version::Three } else { Version::One }
}

// What a run shows: how the program is to end, and its report.
#[derive(Drop)]
struct Shown {
    status: Status,
    text: Vec<u8>,
}

// The run of a guest, recorded, and its report, which is seen from nothing on.
fn show_run<S: Shelf>(
    alloc: Global,
    shelf: &mut S,
    guest: Guest,
    symbols: &[TraceRecord],
    version: Version,
    files: &[RunFile<'_>],
    observations: &mut Observations,
) -> Result<Shown, ShelfError>
    requires apart { AreApart (names_of files.now) }
    requires stated { All IsSymbolRecord symbols.now }
    requires few { length symbols.now ≤ 2 ^ 20 }
    requires short { IsShort guest.setup (rest_of guest) }
    requires budget { guest.setup.budget ≤ 2 ^ 36 }
    requires some { 1 ≤ guest.setup.harts }
    requires most { guest.setup.harts ≤ 256 }
    requires begins { begins_at observations.old 0 }
    requires fresh { HasSeen observations.old observations.old [] }
    ensures status { IfOk result (λ shown. shown.status
        ≡ status_for (rest_of guest).ending.outcome) }
    ensures done { IfOk result (λ shown. kind_of shown.status ≡ done) }
    ensures text { (g : Grid) (v : Levels) → observations.old ≡ nothing_observed g v
        → IfOk result (λ shown. shown.text.items
        ≡ report_of v g (trace_for version guest.setup.harts symbols.now (rest_of guest))) }
    ensures good { OnOk result (IsKept
        (trace_for version guest.setup.harts symbols.now (rest_of guest))) }
    ensures written { OnOk result (AreWritten
        (outputs_for version guest.setup.harts symbols.now (rest_of guest) files.now)
        (S.outside shelf.old) (S.outside shelf.new)) }
    ensures cut { IfErr result (AreCut
        (outputs_for version guest.setup.harts symbols.now (rest_of guest) files.now)
        (S.outside shelf.old) (S.outside shelf.new)) }
{
    match record_run(alloc, shelf, guest, observations, symbols, version, files) {
        Ok(ending) => match observations.report(alloc, &ending) {
            Ok(text) => Ok(Shown {
                status: status_of(ending.outcome),
                text,
            }),
            Err(NoMemory) => Err(ShelfError::NoMemory),
        },
        Err(error) => Err(error),
    }
}

// The run of a guest that is loaded, recorded in the files that are named, and its report.
fn run_guest<S: Shelf>(
    alloc: Global,
    options: &RunOptions<'_>,
    loaded: Loaded,
    shelf: &mut S,
) -> Result<Shown, ShelfError>
    requires apart { AreApart (run_outputs (run_meaning options.now)) }
    requires allowed { IsAllowed loaded.settings }
    requires stated { All IsSymbolRecord loaded.symbols.items }
    requires few { length loaded.symbols.items ≤ 2 ^ 20 }
    requires short { IsShort loaded.guest.setup (rest_of loaded.guest) }
    requires harts { loaded.guest.setup.harts ≡ loaded.settings.harts }
    requires budget { loaded.guest.setup.budget ≡ loaded.settings.budget }
    ensures status { IfOk result (λ shown. shown.status
        ≡ status_for (rest_of loaded.guest).ending.outcome) }
    ensures done { IfOk result (λ shown. kind_of shown.status ≡ done) }
    ensures text { IfOk result (λ shown. shown.text.items
        ≡ report_of (levels_of None loaded.settings) (native_of loaded.settings)
        (trace_for (version_with options.now.pcs) loaded.settings.harts loaded.symbols.items
        (rest_of loaded.guest))) }
    ensures good { OnOk result (IsKept
        (trace_for (version_with options.now.pcs) loaded.settings.harts loaded.symbols.items
        (rest_of loaded.guest))) }
    ensures written { OnOk result (AreWritten (outputs_of_run (run_meaning options.now)
        (trace_for (version_with options.now.pcs) loaded.settings.harts loaded.symbols.items
        (rest_of loaded.guest))
        (rest_of loaded.guest)) (S.outside shelf.old) (S.outside shelf.new)) }
    ensures cut { IfErr result (AreCut (outputs_of_run (run_meaning options.now)
        (trace_for (version_with options.now.pcs) loaded.settings.harts loaded.symbols.items
        (rest_of loaded.guest))
        (rest_of loaded.guest)) (S.outside shelf.old) (S.outside shelf.new)) }
{
    let (files, count) = files_of(options);
    let Loaded {
        guest,
        symbols,
        settings,
    } = loaded;
    let thresholds = thresholds_of(&settings, None);
    let mut observations = Observations::new(alloc, native_layout(&settings), thresholds);
    show_run(
        alloc,
        shelf,
        guest,
        &symbols,
        version_with(options.pcs),
        &files[..count],
        &mut observations,
    )
}

// Runs a guest, and prints the report.
fn run_loaded<S: Shelf>(
    alloc: Global,
    options: &RunOptions<'_>,
    loaded: Loaded,
    shelf: &mut S,
) -> Status
    requires apart { AreApart (run_outputs (run_meaning options.now)) }
    requires allowed { IsAllowed loaded.settings }
    requires stated { All IsSymbolRecord loaded.symbols.items }
    requires few { length loaded.symbols.items ≤ 2 ^ 20 }
    requires short { IsShort loaded.guest.setup (rest_of loaded.guest) }
    requires harts { loaded.guest.setup.harts ≡ loaded.settings.harts }
    requires budget { loaded.guest.setup.budget ≡ loaded.settings.budget }
    ensures { (old : Outside)
        → IsReady (run_meaning options.now) loaded.settings
        (trace_for (version_with options.now.pcs) loaded.settings.harts loaded.symbols.items
        (rest_of loaded.guest))
        (rest_of loaded.guest) old (S.outside shelf.old)
        → Meets (Some (asks (run_meaning options.now))) old (S.outside shelf.new) result }
{
    match run_guest(alloc, options, loaded, shelf) {
        Ok(shown) => finish(shelf, shown.status, &shown.text),
        Err(error) => refuse(alloc, shelf, Status::from(error)),
    }
}

/// Runs the program of a name under settings and a schedule, writes its trace and its output where
/// they are named, and prints the report.
pub fn run<S: Shelf>(alloc: Global, options: &RunOptions<'_>, shelf: &mut S) -> Status
    requires { AreApart (run_outputs (run_meaning options.now)) }
    ensures { Meets (Some (asks (run_meaning options.now)))
        (S.outside shelf.old) (S.outside shelf.new) result }
{
    match load_guest(alloc, shelf, options) {
        Err(status) => stop(alloc, shelf, status),
        Ok(loaded) => run_loaded(alloc, options, loaded, shelf),
    }
}

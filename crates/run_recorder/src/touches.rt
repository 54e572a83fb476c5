// The accesses that a guest has made since it was last asked, and what is seen of the step behind
// them.
ghost use Rattle.std.specs.Prelude.{◌≡◌, ◌++◌, List, ℕ, IfErr, OnOk, length};
ghost use Rattle.std.specs.List.{All};
ghost use Rattle.shelf.specs.Shelf.{Outside};
ghost use Rattle.shelf.specs.OnTheirWay.{AreBegun, names_of as waiting_names};
ghost use Rattle.trace_format.specs.Rules.{IsGoodRecord};
ghost use Rattle.trace_format.specs.declared.record.TraceRecord.{TraceRecord as ARecord};
ghost use Rattle.trace_passes.specs.Rooms.{HasRoom};
ghost use Rattle.guest.specs.SeenTurns.{AreOfHarts};
ghost use Rattle.run_recorder.specs.Recording.{AreCutAfter, AreNoted, IsRecorded, event_bytes};
ghost use Rattle.run_recorder.specs.Recording.{event_records, touch_records};

use crate::files::put_touches;
use crate::notes::note_event;
use crate::run_file::RunFile;
use crate::speller::Speller;
use crate::step_records::touch_record;
use base::NoMemory;
use guest::{Event, Guest, Touched};
use shelf::{Shelf, ShelfError};
use trace_files::TraceOutputs;
use trace_format::Version;
use trace_passes::Observer;

// The accesses: the observer sees each.
#[inline(always)]
fn see_touches<O: Observer>(
    observer: &mut O,
    version: Version,
    touches: &[Touched],
) -> Result<(), NoMemory>
    requires room { HasRoom O.begins O.given observer.old (touch_records version touches.now) }
    ensures given { OnOk result ((begun : O) (earlier : List ARecord)
        → O.given begun observer.old earlier → O.given begun observer.new
        (earlier ++ touch_records version touches.now)) }
    ensures good { OnOk result ((harts : ℕ) → AreOfHarts harts touches.now
        → All (IsGoodRecord version harts) (touch_records version touches.now)) }
{
    for place in 0..touches.len() {
        let touched = touches[place];
        let item = touch_record(version, touched.access, touched.pc);
        match observer.note(&item) {
            Ok(()) => {}
            Err(refused) => return Err(refused),
        }
    }
    Ok(())
}

// The accesses: the observer sees each, and then the files get them.
#[inline(always)]
pub(crate) fn note_touches<S: Shelf, O: Observer>(
    shelf: &mut S,
    files: &[RunFile<'_>],
    outputs: &mut TraceOutputs<'_>,
    speller: &mut Speller,
    observer: &mut O,
    version: Version,
    touches: &[Touched],
) -> Result<(), ShelfError>
    requires paired { length outputs.old ≡ length files.now }
    requires begun { AreBegun (waiting_names outputs.old) (S.outside shelf.old) }
    requires room { HasRoom O.begins O.given observer.old (touch_records version touches.now) }
    ensures given { OnOk result ((begun : O) (earlier : List ARecord)
        → O.given begun observer.old earlier → O.given begun observer.new
        (earlier ++ touch_records version touches.now)) }
    ensures good { OnOk result ((harts : ℕ) → AreOfHarts harts touches.now
        → All (IsGoodRecord version harts) (touch_records version touches.now)) }
    ensures noted { OnOk result
        ((harts : ℕ) (items : List ARecord) (put : List ℕ) (before : Outside)
        → AreNoted version harts items put files.now outputs.old speller.old.writer before
        (S.outside shelf.old)
        → AreNoted version harts (items ++ touch_records version touches.now) put files.now
        outputs.new speller.new.writer before (S.outside shelf.new)) }
    ensures cut { IfErr result (λ error. (harts : ℕ) (items : List ARecord) (put : List ℕ)
        (before : Outside)
        → AreNoted version harts items put files.now outputs.old speller.old.writer before
        (S.outside shelf.old)
        → AreCutAfter version harts (items ++ touch_records version touches.now) put files.now before
        (S.outside shelf.new) error) }
    ensures begun { OnOk result (AreBegun (waiting_names outputs.new) (S.outside shelf.new)) }
    ensures count { length outputs.new ≡ length outputs.old }
{
    match see_touches(observer, version, touches) {
        Ok(()) => put_touches(shelf, files, outputs, speller, version, touches),
        Err(_) => Err(ShelfError::NoMemory),
    }
}

// The accesses, and then what is seen of a step of the guest behind them.
#[inline(always)]
pub(crate) fn note_turn<S: Shelf, O: Observer>(
    shelf: &mut S,
    files: &[RunFile<'_>],
    outputs: &mut TraceOutputs<'_>,
    speller: &mut Speller,
    observer: &mut O,
    guest: &Guest,
    version: Version,
    touches: &[Touched],
    event: Event,
) -> Result<(), ShelfError>
    requires paired { length outputs.old ≡ length files.now }
    requires begun { AreBegun (waiting_names outputs.old) (S.outside shelf.old) }
    requires seen { IsRecorded guest.now.setup.harts event guest.now.config }
    requires theirs { AreOfHarts guest.now.setup.harts touches.now }
    requires room { HasRoom O.begins O.given observer.old
        (touch_records version touches.now ++ event_records version guest.now.config event) }
    ensures given { OnOk result ((begun : O) (earlier : List ARecord)
        → O.given begun observer.old earlier
        → O.given begun observer.new
        (earlier
        ++ (touch_records version touches.now ++ event_records version guest.now.config event))) }
    ensures good { OnOk result (All (IsGoodRecord version guest.now.setup.harts)
        (touch_records version touches.now ++ event_records version guest.now.config event)) }
    ensures noted { OnOk result
        ((harts : ℕ) (items : List ARecord) (put : List ℕ) (before : Outside)
        → AreNoted version harts items put files.now outputs.old speller.old.writer before
        (S.outside shelf.old)
        → AreNoted version harts
        (items
        ++ (touch_records version touches.now ++ event_records version guest.now.config event))
        (put ++ event_bytes guest.now.config event) files.now outputs.new
        speller.new.writer before (S.outside shelf.new)) }
    ensures cut { IfErr result (λ error. (harts : ℕ) (items : List ARecord) (put : List ℕ)
        (before : Outside)
        → AreNoted version harts items put files.now outputs.old speller.old.writer before
        (S.outside shelf.old)
        → AreCutAfter version harts
        (items
        ++ (touch_records version touches.now ++ event_records version guest.now.config event))
        (put ++ event_bytes guest.now.config event) files.now before (S.outside shelf.new) error) }
    ensures begun { OnOk result (AreBegun (waiting_names outputs.new) (S.outside shelf.new)) }
    ensures count { length outputs.new ≡ length outputs.old }
{
    match note_touches(shelf, files, outputs, speller, observer, version, touches) {
        Ok(()) => note_event(
            shelf, files, outputs, speller, observer, guest, version, event,
        ),
        Err(error) => Err(error),
    }
}

// What is noted while a run goes on: an observer sees each record, and each file gets what its
// content says.
ghost use Rattle.std.specs.Prelude.{◌≡◌, ◌++◌, ◌∷◌, [], List, ℕ, IfErr, OnOk, length};
ghost use Rattle.std.specs.List.{All};
ghost use Rattle.shelf.specs.Shelf.{Outside};
ghost use Rattle.shelf.specs.OnTheirWay.{AreBegun, names_of as waiting_names};
ghost use Rattle.trace_format.specs.declared.record.Version.{Version as AVersion};
ghost use Rattle.trace_format.specs.Rules.{IsGoodRecord, IsWritable};
ghost use Rattle.trace_format.specs.declared.record.TraceRecord.{TraceRecord as ARecord};
ghost use Rattle.trace_format.specs.Writing.{Writing};
ghost use Rattle.trace_passes.specs.Rooms.{HasRoom};
ghost use Rattle.run_recorder.specs.Recording.{AreCutAfter, AreNoted, IsRecorded, event_bytes};
ghost use Rattle.run_recorder.specs.Recording.{event_records};

use crate::files::{put_output, put_record};
use crate::run_file::RunFile;
use crate::showing::output_to_show;
use crate::speller::Speller;
use crate::step_records::{alloc_record, free_record, touch_record};
use guest::{Event, Guest};
use shelf::{Shelf, ShelfError};
use trace_files::TraceOutputs;
use trace_format::{TraceRecord, Version};
use trace_passes::Observer;

// A record: the observer sees it, and the files get it.
#[inline]
pub(crate) fn note_record<S: Shelf, O: Observer>(
    shelf: &mut S,
    files: &[RunFile<'_>],
    outputs: &mut TraceOutputs<'_>,
    speller: &mut Speller,
    observer: &mut O,
    item: &TraceRecord,
) -> Result<(), ShelfError>
    requires paired { length outputs.old ≡ length files.now }
    requires begun { AreBegun (waiting_names outputs.old) (S.outside shelf.old) }
    requires writable { IsWritable item.now }
    requires room { HasRoom O.begins O.given observer.old (item.now ∷ []) }
    ensures given { OnOk result ((begun : O) (earlier : List ARecord)
        → O.given begun observer.old earlier → O.given begun observer.new
        (earlier ++ item.now ∷ [])) }
    ensures noted { OnOk result
        ((v : AVersion) (harts : ℕ) (items : List ARecord) (put : List ℕ) (before : Outside)
        → AreNoted v harts items put files.now outputs.old speller.old.writer before
        (S.outside shelf.old)
        → AreNoted v harts (items ++ item.now ∷ []) put files.now outputs.new
        speller.new.writer before (S.outside shelf.new)) }
    ensures cut { IfErr result (λ error. (v : AVersion) (harts : ℕ) (items : List ARecord)
        (put : List ℕ) (before : Outside)
        → AreNoted v harts items put files.now outputs.old speller.old.writer before
        (S.outside shelf.old)
        → AreCutAfter v harts (items ++ item.now ∷ []) put files.now before (S.outside shelf.new)
        error) }
    ensures begun { OnOk result (AreBegun (waiting_names outputs.new) (S.outside shelf.new)) }
    ensures count { length outputs.new ≡ length outputs.old }
{
    match observer.note(item) {
        Ok(()) => put_record(shelf, files, outputs, speller, item),
        Err(_) => Err(ShelfError::NoMemory),
    }
}

// Lets the shelf show bytes that the guest puts out, where no file gets them.
fn show_output<S: Shelf>(shelf: &mut S, files: &[RunFile<'_>], bytes: &[u8])
    ensures { S.outside shelf.new ≡ S.outside shelf.old }
{
    if let Some(shown) = output_to_show(files, bytes) {
        shelf.show_run(shown);
    }
}

// Bytes that the guest puts out: the files get them, or the shelf shows them.
fn note_output<S: Shelf>(
    shelf: &mut S,
    files: &[RunFile<'_>],
    outputs: &mut TraceOutputs<'_>,
    bytes: &[u8],
) -> Result<(), ShelfError>
    requires paired { length outputs.old ≡ length files.now }
    requires begun { AreBegun (waiting_names outputs.old) (S.outside shelf.old) }
    ensures noted { OnOk result
        ((v : AVersion) (harts : ℕ) (items : List ARecord) (put : List ℕ) (w : Writing)
        (before : Outside)
        → AreNoted v harts items put files.now outputs.old w before (S.outside shelf.old)
        → AreNoted v harts items (put ++ bytes.now) files.now outputs.new w before
        (S.outside shelf.new)) }
    ensures cut { IfErr result (λ error. (v : AVersion) (harts : ℕ) (items : List ARecord)
        (put : List ℕ) (w : Writing) (before : Outside)
        → AreNoted v harts items put files.now outputs.old w before (S.outside shelf.old)
        → AreCutAfter v harts items (put ++ bytes.now) files.now before (S.outside shelf.new) error) }
    ensures begun { OnOk result (AreBegun (waiting_names outputs.new) (S.outside shelf.new)) }
    ensures count { length outputs.new ≡ length outputs.old }
{
    show_output(shelf, files, bytes);
    put_output(shelf, files, outputs, bytes)
}

// What is seen of a step of the guest.
#[tactic(auto, unfolding(crate::specs::Recording::IsRecorded, crate::specs::Recording::event_records, crate::specs::Recording::event_bytes))]
#[inline]
pub(crate) fn note_event<S: Shelf, O: Observer>(
    shelf: &mut S,
    files: &[RunFile<'_>],
    outputs: &mut TraceOutputs<'_>,
    speller: &mut Speller,
    observer: &mut O,
    guest: &Guest,
    version: Version,
    event: Event,
) -> Result<(), ShelfError>
    requires paired { length outputs.old ≡ length files.now }
    requires begun { AreBegun (waiting_names outputs.old) (S.outside shelf.old) }
    requires seen { IsRecorded guest.now.setup.harts event guest.now.config }
    requires room { HasRoom O.begins O.given observer.old
        (event_records version guest.now.config event) }
    ensures given { OnOk result ((begun : O) (earlier : List ARecord)
        → O.given begun observer.old earlier
        → O.given begun observer.new (earlier ++ event_records version guest.now.config event)) }
    ensures good { All (IsGoodRecord version guest.now.setup.harts)
        (event_records version guest.now.config event) }
    ensures noted { OnOk result
        ((harts : ℕ) (items : List ARecord) (put : List ℕ) (before : Outside)
        → AreNoted version harts items put files.now outputs.old speller.old.writer before
        (S.outside shelf.old)
        → AreNoted version harts (items ++ event_records version guest.now.config event)
        (put ++ event_bytes guest.now.config event) files.now outputs.new
        speller.new.writer before (S.outside shelf.new)) }
    ensures cut { IfErr result (λ error. (harts : ℕ) (items : List ARecord) (put : List ℕ)
        (before : Outside)
        → AreNoted version harts items put files.now outputs.old speller.old.writer before
        (S.outside shelf.old)
        → AreCutAfter version harts (items ++ event_records version guest.now.config event)
        (put ++ event_bytes guest.now.config event) files.now before
        (S.outside shelf.new) error) }
    ensures begun { OnOk result (AreBegun (waiting_names outputs.new) (S.outside shelf.new)) }
    ensures count { length outputs.new ≡ length outputs.old }
{
    match event {
        Event::Quiet => Ok(()),
        Event::Touch { access, pc } => {
            note_record(
                shelf,
                files,
                outputs,
                speller,
                observer,
                &touch_record(version, access, pc),
            )
        }
        Event::Alloc { addr, size, sites } => {
            note_record(
                shelf,
                files,
                outputs,
                speller,
                observer,
                &alloc_record(addr, size, sites),
            )
        }
        Event::Free { addr } => {
            note_record(shelf, files, outputs, speller, observer, &free_record(addr))
        }
        Event::Output { addr, len } => match guest.bytes(addr, len) {
            Some(bytes) => note_output(shelf, files, outputs, bytes),
            None => unreachable!(),
        },
    }
}

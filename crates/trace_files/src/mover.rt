// A trace on its way to a file, with its accesses moved.
ghost use Rattle.std.specs.Prelude.{◌≡◌, ◌++◌, ◌%◌, ◌∷◌, ℕ, List, [], Option, None, OnOk, IfErr, Some};
ghost use Rattle.std.specs.Prelude.{◌+◌, ◌<◌, ◌≤◌, ◌^◌, false, if◌then◌else◌};
ghost use Rattle.shelf.specs.Shelf.{Outside};
ghost use Rattle.shelf.specs.Files.{AreCut, AreWritten};
ghost use Rattle.trace_format.specs.declared.record.Header.{Header as Head};
ghost use Rattle.trace_format.specs.declared.record.TraceRecord.{TraceRecord as Record};
ghost use Rattle.trace_format.specs.declared.record.TraceRecord.TheVariants as records;
ghost use Rattle.trace_format.specs.declared.record.Version.{Version as AVersion};
ghost use Rattle.trace_format.specs.Rules.{IsGoodHeader, IsWritable};
ghost use Rattle.trace_files.specs.declared.move_row.Move.{Move};
ghost use Rattle.trace_files.specs.Movers.{HasMoved, MayPut};
ghost use Rattle.trace_files.specs.Moves.{is_moved, moved_in};
ghost use Rattle.trace_files.specs.Moving.{access_fault, is_at_fault, moved_so_far, narrowed};

use crate::MoveTable;
use crate::trace_outputs::TraceOutputs;
use base::Access;
use shelf::{Shelf, ShelfError};
use std::alloc::Global;
use trace_format::{Header, TraceRecord, TraceWriter, Version};

// The file of a moved trace, which is begun once the header is known.
#[derive(Drop)]
pub(crate) struct Mover<'a> {
    name: &'a str,
    files: TraceOutputs<'a>,
    writer: TraceWriter,
    pub(crate) begun: bool,
    // under what the list is filtered, 0 where it isn't or no header is known
    pub(crate) near: u16,
    // how many accesses lie in a range
    pub(crate) moved: u64,
}

// An access where its range goes, and whether it is in one.
fn moved_access(table: &MoveTable, access: &Access) -> (Access, bool)
    ensures access { result.0 ≡ moved_in table.now access.now }
    ensures moved { result.1 ≡ is_moved table.now access.now.addr }
{
    match table.destination(access.addr()) {
        Some(place) => (at_place(access, place), true),
        None => (*access, false),
    }
}

// The access at another address with the same place in its word.
fn at_place(access: &Access, place: u32) -> Access
    requires { place % 4 ≡ access.now.addr % 4 }
    ensures { result ≡ record access.now { addr = place } }
{
    let moved = Access::of_size(access.hart(), place, access.kind(), access.size());
    let Some(moved) = moved else {
        unreachable!();
    };
    moved
}

// One more where an access is moved.
fn counted(moved: u64, goes: bool) -> u64
    requires { moved < 2 ^ 63 }
    ensures { result ≡ moved + (if goes then 1 else 0) }
{
    if goes { moved + 1 } else { moved }
}

// The header of the moved trace.
fn narrowed(header: Header) -> Header
    ensures value { result ≡ narrowed header }
    ensures good { IsGoodHeader header → IsGoodHeader result }
{
    Header {
        near: header.near.min(8),
        ..header
    }
}

impl<'a> Mover<'a> {
    // Nothing is begun.
    pub(crate) fn new(alloc: Global, name: &'a str) -> Mover<'a>
        ensures { (table : List Move) (outside : Outside)
            → HasMoved table name.now result None [] outside outside }
    {
        Mover {
            name,
            files: TraceOutputs::new(alloc),
            writer: TraceWriter::new(Version::One),
            begun: false,
            near: 0,
            moved: 0,
        }
    }

    // Begins the file, and puts the header into it.
    pub(crate) fn begin<S: Shelf>(
        &mut self,
        alloc: Global,
        shelf: &mut S,
        version: Version,
        header: Header,
    ) -> Result<(), ShelfError>
        requires good { IsGoodHeader header }
        requires small { header.near ≤ 16 }
        requires way { (table : List Move) × (before : Outside)
            × HasMoved table self.old.name.now self.old None [] before (S.outside shelf.old) }
        ensures moved { OnOk result ((table : List Move) (before : Outside)
            → HasMoved table self.old.name.now self.old None [] before (S.outside shelf.old)
            → HasMoved table self.old.name.now self.new (Some (version, header)) [] before
            (S.outside shelf.new)) }
        ensures cut { IfErr result (λ error. (table : List Move) (before : Outside)
            → HasMoved table self.old.name.now self.old None [] before (S.outside shelf.old)
            → AreCut (moved_so_far table self.old.name.now (Some (version, header)) []) before
            (S.outside shelf.new) error) }
        ensures name { self.new.name ≡ self.old.name }
        ensures keeps_held { (S.outside shelf.new).held ≡ (S.outside shelf.old).held }
    {
        match self
            .files
            .begin_trace(alloc, shelf, 0, self.name, version, narrowed(header))
        {
            Ok(writer) => {
                self.writer = writer;
                self.begun = true;
                self.near = header.near;
                Ok(())
            }
            Err(error) => Err(error),
        }
    }

    // Puts a record behind the others, moved if it is an access in a range.
    pub(crate) fn put<S: Shelf>(
        &mut self,
        shelf: &mut S,
        table: &MoveTable,
        item: &TraceRecord,
    ) -> Result<(), ShelfError>
        requires writable { IsWritable item.now }
        requires way { MayPut table.now self.old (item.now ∷ []) (S.outside shelf.old) }
        requires free { is_at_fault self.old.near table.now item.now ≡ false }
        ensures moved { OnOk result ((head : AVersion × Head) (seen : List Record)
            (before : Outside)
            → HasMoved table.now self.old.name.now self.old (Some head) seen before
            (S.outside shelf.old)
            → HasMoved table.now self.old.name.now self.new (Some head) (seen ++ item.now ∷ [])
            before (S.outside shelf.new)) }
        ensures cut { IfErr result (λ error. (head : AVersion × Head) (seen : List Record)
            (before : Outside)
            → HasMoved table.now self.old.name.now self.old (Some head) seen before
            (S.outside shelf.old)
            → AreCut (moved_so_far table.now self.old.name.now (Some head) (seen ++ item.now ∷ []))
            before (S.outside shelf.new) error) }
        ensures name { self.new.name ≡ self.old.name }
        ensures keeps_held { (S.outside shelf.new).held ≡ (S.outside shelf.old).held }
    {
        match item {
            TraceRecord::Touch(access, pc) => self.put_access(shelf, table, access, *pc),
            _ => self.files.put_record(shelf, 0, &mut self.writer, item),
        }
    }

    // Puts an access behind the others, moved if it is in a range.
    fn put_access<S: Shelf>(
        &mut self,
        shelf: &mut S,
        table: &MoveTable,
        access: &Access,
        pc: Option<u32>,
    ) -> Result<(), ShelfError>
        requires way { MayPut table.now self.old (records.Touch access.now pc ∷ [])
            (S.outside shelf.old) }
        requires free { access_fault self.old.near table.now access.now.addr ≡ None }
        ensures moved { OnOk result ((head : AVersion × Head) (seen : List Record)
            (before : Outside)
            → HasMoved table.now self.old.name.now self.old (Some head) seen before
            (S.outside shelf.old)
            → HasMoved table.now self.old.name.now self.new (Some head)
            (seen ++ records.Touch access.now pc ∷ []) before (S.outside shelf.new)) }
        ensures cut { IfErr result (λ error. (head : AVersion × Head) (seen : List Record)
            (before : Outside)
            → HasMoved table.now self.old.name.now self.old (Some head) seen before
            (S.outside shelf.old)
            → AreCut (moved_so_far table.now self.old.name.now (Some head)
            (seen ++ records.Touch access.now pc ∷ [])) before (S.outside shelf.new) error) }
        ensures name { self.new.name ≡ self.old.name }
        ensures keeps_held { (S.outside shelf.new).held ≡ (S.outside shelf.old).held }
    {
        let (access, goes) = moved_access(table, access);
        self.moved = counted(self.moved, goes);
        let item = TraceRecord::Touch(access, pc);
        self.files.put_record(shelf, 0, &mut self.writer, &item)
    }

    // Appends what still waits to the file.
    pub(crate) fn finish<S: Shelf>(&mut self, shelf: &mut S) -> Result<(), ShelfError>
        requires way { (table : List Move) × (name : List ℕ) × (head : Option (AVersion × Head))
            × (seen : List Record) × (before : Outside)
            × HasMoved table name self.old head seen before (S.outside shelf.old) }
        ensures written { OnOk result ((table : List Move) (name : List ℕ)
            (head : Option (AVersion × Head)) (seen : List Record) (before : Outside)
            → HasMoved table name self.old head seen before (S.outside shelf.old)
            → AreWritten (moved_so_far table name head seen) before (S.outside shelf.new)) }
        ensures cut { IfErr result (λ error. (table : List Move) (name : List ℕ)
            (head : Option (AVersion × Head)) (seen : List Record) (before : Outside)
            → HasMoved table name self.old head seen before (S.outside shelf.old)
            → AreCut (moved_so_far table name head seen) before (S.outside shelf.new) error) }
        // What was put is all there, and no more.
        ensures cut_there { OnOk result ((table : List Move) (name : List ℕ)
            (head : Option (AVersion × Head)) (seen : List Record) (before : Outside)
            → HasMoved table name self.old head seen before (S.outside shelf.old)
            → AreCut (moved_so_far table name head seen) before (S.outside shelf.new)
            ShelfError.NoMemory) }
        ensures moved { self.new.moved ≡ self.old.moved }
        ensures name { self.new.name ≡ self.old.name }
        ensures keeps_held { (S.outside shelf.new).held ≡ (S.outside shelf.old).held }
    {
        self.files.finish(shelf)
    }
}

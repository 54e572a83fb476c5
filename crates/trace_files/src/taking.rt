// The records of a piece, on their way to the file of a moved trace.
ghost use Rattle.std.specs.Prelude.{◌≡◌, ◌++◌, ◌∷◌, ℕ, List, [], Option, OnOk, IfErr, Some};
ghost use Rattle.std.specs.Prelude.{◌≤◌};
ghost use Rattle.std.specs.List.{All};
ghost use Rattle.shelf.specs.Shelf.{Outside};
ghost use Rattle.trace_format.specs.declared.record.Header.{Header as Head};
ghost use Rattle.trace_format.specs.declared.record.TraceRecord.{TraceRecord as Record};
ghost use Rattle.trace_format.specs.declared.record.Version.{Version as AVersion};
ghost use Rattle.trace_format.specs.Rules.{IsGoodHeader, IsWritable};
ghost use Rattle.trace_files.specs.declared.move_row.Move.{Move};
ghost use Rattle.trace_files.specs.Movers.{Follows, HasMoved, MayPut, MayTake, StopsAt};
ghost use Rattle.trace_files.specs.Moving.{access_fault, record_fault};

use crate::move_fault::write_fault;
use crate::mover::Mover;
use crate::{MoveFault, MoveTable};
use shelf::Shelf;
use std::alloc::Global;
use trace_format::{Header, TraceRecord, Version};

// How an access is refused, if it is.
fn access_fault(table: &MoveTable, near: u16, addr: u32) -> Option<MoveFault>
    requires { near ≤ 16 }
    ensures { result ≡ access_fault near table.now addr }
{
    if table.is_taken(addr) {
        return Some(MoveFault::Occupied(addr));
    }
    if table.is_far(near, addr) {
        Some(MoveFault::Far(addr))
    } else {
        None
    }
}

// How a record is refused, if it is.
fn record_fault(table: &MoveTable, near: u16, item: &TraceRecord) -> Option<MoveFault>
    requires { near ≤ 16 }
    ensures { result ≡ record_fault near table.now item.now }
{
    match item {
        TraceRecord::Touch(access, _) => access_fault(table, near, access.addr()),
        _ => None,
    }
}

// Puts a record, unless it is refused: then what was put is written.
fn put_one<S: Shelf>(
    shelf: &mut S,
    table: &MoveTable,
    mover: &mut Mover<'_>,
    item: &TraceRecord,
) -> Result<(), MoveFault>
    requires writable { IsWritable item.now }
    requires way { MayPut table.now mover.old (item.now ∷ []) (S.outside shelf.old) }
    ensures moved { OnOk result ((head : AVersion × Head) (seen : List Record) (before : Outside)
        → HasMoved table.now mover.old.name.now mover.old (Some head) seen before
        (S.outside shelf.old)
        → HasMoved table.now mover.old.name.now mover.new (Some head) (seen ++ item.now ∷ []) before
        (S.outside shelf.new)) }
    ensures stopped { IfErr result (λ fault. (head : AVersion × Head) (seen : List Record)
        (before : Outside)
        → HasMoved table.now mover.old.name.now mover.old (Some head) seen before
        (S.outside shelf.old)
        → StopsAt table.now mover.old.name.now (Some head) (seen ++ item.now ∷ []) before
        (S.outside shelf.new) fault) }
    ensures name { mover.new.name ≡ mover.old.name }
    ensures keeps_held { (S.outside shelf.new).held ≡ (S.outside shelf.old).held }
{
    if let Some(fault) = record_fault(table, mover.near, item) {
        return match mover.finish(shelf) {
            Ok(()) => Err(fault),
            Err(error) => Err(write_fault(error)),
        };
    }
    match mover.put(shelf, table, item) {
        Ok(()) => Ok(()),
        Err(error) => Err(write_fault(error)),
    }
}

// Puts records up to the first that is refused.
fn put_all<S: Shelf>(
    shelf: &mut S,
    table: &MoveTable,
    mover: &mut Mover<'_>,
    items: &[TraceRecord],
) -> Result<(), MoveFault>
    requires writable { All IsWritable items.now }
    requires way { MayPut table.now mover.old items.now (S.outside shelf.old) }
    ensures moved { OnOk result ((head : AVersion × Head) (seen : List Record) (before : Outside)
        → HasMoved table.now mover.old.name.now mover.old (Some head) seen before
        (S.outside shelf.old)
        → HasMoved table.now mover.old.name.now mover.new (Some head) (seen ++ items.now) before
        (S.outside shelf.new)) }
    ensures stopped { IfErr result (λ fault. (head : AVersion × Head) (seen : List Record)
        (before : Outside)
        → HasMoved table.now mover.old.name.now mover.old (Some head) seen before
        (S.outside shelf.old)
        → StopsAt table.now mover.old.name.now (Some head) (seen ++ items.now) before
        (S.outside shelf.new) fault) }
    ensures name { mover.new.name ≡ mover.old.name }
    ensures keeps_held { (S.outside shelf.new).held ≡ (S.outside shelf.old).held }
{
    for item in items {
        match put_one(shelf, table, mover, item) {
            Ok(()) => {}
            Err(fault) => return Err(fault),
        }
    }
    Ok(())
}

// Begins the file, unless it is.
fn begin_once<S: Shelf>(
    alloc: Global,
    shelf: &mut S,
    mover: &mut Mover<'_>,
    version: Version,
    header: Header,
) -> Result<(), MoveFault>
    requires good { IsGoodHeader header }
    requires small { header.near ≤ 16 }
    requires way { (table : List Move) × (name : List ℕ) × (known : Option (AVersion × Head))
        × (seen : List Record) × (before : Outside)
        × HasMoved table name mover.old known seen before (S.outside shelf.old)
        × Follows known seen (Some (version, header)) [] }
    ensures moved { OnOk result ((table : List Move) (known : Option (AVersion × Head))
        (seen : List Record) (before : Outside)
        → HasMoved table mover.old.name.now mover.old known seen before (S.outside shelf.old)
        → Follows known seen (Some (version, header)) []
        → HasMoved table mover.old.name.now mover.new (Some (version, header)) seen before
        (S.outside shelf.new)) }
    ensures stopped { IfErr result (λ fault. (table : List Move)
        (known : Option (AVersion × Head)) (seen : List Record) (before : Outside)
        → HasMoved table mover.old.name.now mover.old known seen before (S.outside shelf.old)
        → Follows known seen (Some (version, header)) []
        → StopsAt table mover.old.name.now (Some (version, header)) seen before
        (S.outside shelf.new) fault) }
    ensures name { mover.new.name ≡ mover.old.name }
    ensures keeps_held { (S.outside shelf.new).held ≡ (S.outside shelf.old).held }
{
    if mover.begun {
        return Ok(());
    }
    match mover.begin(alloc, shelf, version, header) {
        Ok(()) => Ok(()),
        Err(error) => Err(write_fault(error)),
    }
}

// Puts the records of a piece, and begins the file once the header is known.
pub(crate) fn take<S: Shelf>(
    alloc: Global,
    shelf: &mut S,
    table: &MoveTable,
    mover: &mut Mover<'_>,
    head: Option<(Version, Header)>,
    items: &[TraceRecord],
) -> Result<(), MoveFault>
    requires writable { All IsWritable items.now }
    requires way { MayTake table.now mover.old head items.now (S.outside shelf.old) }
    ensures moved { OnOk result ((known : Option (AVersion × Head)) (seen : List Record)
        (before : Outside)
        → HasMoved table.now mover.old.name.now mover.old known seen before (S.outside shelf.old)
        → Follows known seen head items.now
        → HasMoved table.now mover.old.name.now mover.new head (seen ++ items.now) before
        (S.outside shelf.new)) }
    ensures stopped { IfErr result (λ fault. (known : Option (AVersion × Head))
        (seen : List Record) (before : Outside)
        → HasMoved table.now mover.old.name.now mover.old known seen before (S.outside shelf.old)
        → Follows known seen head items.now
        → StopsAt table.now mover.old.name.now head (seen ++ items.now) before
        (S.outside shelf.new) fault) }
    ensures name { mover.new.name ≡ mover.old.name }
    ensures keeps_held { (S.outside shelf.new).held ≡ (S.outside shelf.old).held }
{
    let Some((version, header)) = head else {
        return Ok(());
    };
    match begin_once(alloc, shelf, mover, version, header) {
        Ok(()) => put_all(shelf, table, mover, items),
        Err(fault) => Err(fault),
    }
}

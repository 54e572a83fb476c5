// The table of moves.
ghost use Rattle.std.specs.Prelude.{◌≡◌, ◌≢◌, ◌≤◌, ◌<◌, ◌↔◌, ◌++◌, ◌-◌, ◌%◌, ◌||◌, ◌∷◌, length};
ghost use Rattle.std.specs.Prelude.{Bool, [], None};
ghost use Rattle.std.specs.Prelude.{Some, nat_eq, nat_le, slice_index_or};
ghost use Rattle.std.specs.Prelude.{Err, Ok, IfErr, IfOk, OnOk, IfSome, false, true, slice_get};
ghost use Rattle.std.specs.Prelude.{find, option_map};
ghost use Rattle.std.specs.Option.{option_to_list};
ghost use Rattle.std.specs.List.{AllWithin, insert, list_all};
ghost use Rattle.trace_files.specs.declared.move_row.Move.{Move as AMove};
ghost use Rattle.trace_files.specs.Moves.{carried, is_in_range, is_taken, moved_addr};
ghost use Rattle.trace_files.specs.NearMoves.{is_far};
ghost use Rattle.trace_files.specs.Rows.{AreKept, AreRising, crosses_none, end_of};
ghost use Rattle.trace_files.specs.Tables.{IsTable, UnlessMemory, faults_of, is_behind};
ghost use Rattle.trace_files.specs.Tables.{keeps_rules, line_fault, lines_of, longest_table};
ghost use Rattle.trace_files.specs.Tables.{move_fault, move_of, moves_of, table_of};

use crate::TableFault;
use crate::move_row::{Move, cut_at, row_of};
use crate::near_moves::some_come_from_far;
use std::alloc::Global;
use std::marker::Model;

// How many bytes a table may have.
const LONGEST_TABLE: usize = 1 << 20;

/// Ranges of memory, and the place that the bytes of each go to.
///
/// Contracts see the moves in the order of their ranges.
#[derive(Drop)]
pub struct MoveTable {
    rows: Vec<Move>,
    // the ways back, in the order of the places
    places: Vec<Move>,
}

impl Model for MoveTable {
    ghost use Rattle.std.specs.Prelude.{List};
    ghost use Rattle.trace_files.specs.Rows.{AreKept};
    ghost use Rattle.trace_files.specs.declared.move_row.Move.{Move as AMove};

    ghost Value = { List AMove };

    ghost view = { λ t. t.rows.items };

    ghost invariant = { λ t. AreKept t.rows.items t.places.items };
}

// How many ranges begin at or below an address.
fn begun_at(rows: &[Move], addr: u32) -> usize
    requires { AreRising rows.now }
    ensures bound { result ≤ length rows.now }
    ensures below { AllWithin (λ m. m.from ≤ addr) rows.now 0 result }
    ensures above { AllWithin (λ m. addr < m.from) rows.now result (length rows.now) }
{
    rows.partition_point(|row| row.from <= addr)
}

// The row whose range holds an address.
fn row_at(rows: &[Move], addr: u32) -> Option<Move>
    requires { AreRising rows.now }
    ensures value { result ≡ find (is_in_range addr) rows.now }
    ensures holds { IfSome result (λ m. is_in_range addr m ≡ true) }
    ensures within { IfSome result (λ m. (test : AMove → Bool)
        → list_all test rows.now ≡ true → test m ≡ true) }
{
    let begun = begun_at(rows, addr);
    if begun == 0 {
        return None;
    }
    let row = rows[begun - 1];
    if u64::from(addr - row.from) < row.size {
        Some(row)
    } else {
        None
    }
}

// Whether a range begins at or above the end of the last one.
fn is_behind(rows: &[Move], row: &Move) -> bool
    requires { AreRising rows.now }
    ensures { result ≡ is_behind rows.now row.now }
{
    if rows.is_empty() {
        return true;
    }
    let last = rows[rows.len() - 1];
    row.from >= last.from && u64::from(row.from - last.from) >= last.size
}

// Whether the last of the first so many ranges ends before a range begins.
fn ends_before(rows: &[Move], place: usize, row: &Move) -> bool
    requires bound { place ≤ length rows.now }
    requires below { AllWithin (λ m. m.from ≤ row.now.from) rows.now 0 place }
    ensures { result ≡ nat_eq place 0 || nat_le (end_of (slice_index_or rows.now (place - 1) row.now))
        row.now.from }
{
    if place == 0 {
        return true;
    }
    let last = rows[place - 1];
    u64::from(row.from - last.from) >= last.size
}

// Whether the range at a place begins behind the end of a range.
fn begins_behind(rows: &[Move], place: usize, row: &Move) -> bool
    requires above { AllWithin (λ m. row.now.from < m.from) rows.now place (length rows.now) }
    ensures { result ≡ nat_le (length rows.now) place || nat_le (end_of row.now)
        (slice_index_or rows.now place row.now).from }
{
    if place >= rows.len() {
        return true;
    }
    let next = rows[place];
    u64::from(next.from - row.from) >= row.size
}

// The place of a range among others, None where it crosses one.
fn place_for(rows: &[Move], row: &Move) -> Option<usize>
    requires rising { AreRising rows.now }
    requires some { 0 < row.now.size }
    ensures bound { IfSome result (λ place. place ≤ length rows.now) }
    ensures apart { IfSome result (λ place. crosses_none rows.now row.now ≡ true) }
    ensures rising { IfSome result (λ place. AreRising (insert rows.now place row.now)) }
    ensures none { result ≡ None → crosses_none rows.now row.now ≡ false }
{
    let place = begun_at(rows, row.from);
    if ends_before(rows, place, row) && begins_behind(rows, place, row) {
        Some(place)
    } else {
        None
    }
}

// Adds the row of a numbered line.
fn add_row(
    rows: &mut Vec<Move>,
    places: &mut Vec<Move>,
    row: Move,
    number: u64,
) -> Result<(), TableFault>
    requires kept { AreKept rows.old.items places.old.items }
    requires rules { keeps_rules row ≡ true }
    ensures good { OnOk result (move_fault rows.old.items number row ≡ None) }
    ensures added { OnOk result (rows.new.items ≡ rows.old.items ++ row ∷ []) }
    ensures kept { OnOk result (AreKept rows.new.items places.new.items) }
    ensures bad { IfErr result (λ fault. UnlessMemory fault
        (move_fault rows.old.items number row ≡ Some fault)) }
    ensures of_a_line { IfErr result (λ fault. fault ≢ TableFault.TooLong) }
{
    if !is_behind(rows, &row) {
        return Err(TableFault::BadLine(number));
    }
    let back = row.turned();
    let Some(place) = place_for(places, &back) else {
        return Err(TableFault::Overlap(number));
    };
    match places.insert(place, back) {
        Ok(()) => {}
        Err(_) => return Err(TableFault::NoMemory),
    }
    match rows.push(row) {
        Ok(()) => Ok(()),
        Err(_) => Err(TableFault::NoMemory),
    }
}

// Adds what a numbered line says, unless it is empty or has a fault.
fn read_line(
    rows: &mut Vec<Move>,
    places: &mut Vec<Move>,
    line: &[u8],
    number: u64,
) -> Result<(), TableFault>
    requires { AreKept rows.old.items places.old.items }
    ensures good { OnOk result (line_fault rows.old.items number line.now ≡ None) }
    ensures added { OnOk result (rows.new.items ≡ rows.old.items ++ option_to_list
        (move_of line.now)) }
    ensures kept { OnOk result (AreKept rows.new.items places.new.items) }
    ensures bad { IfErr result (λ fault. UnlessMemory fault
        (line_fault rows.old.items number line.now ≡ Some fault)) }
    ensures of_a_line { IfErr result (λ fault. fault ≢ TableFault.TooLong) }
{
    if line.is_empty() {
        return Ok(());
    }
    match row_of(line) {
        Some(row) => add_row(rows, places, row, number),
        None => Err(TableFault::BadLine(number)),
    }
}

// The table of a text, or the fault of its first line that has one.
fn read_lines(alloc: Global, text: &[u8]) -> Result<MoveTable, TableFault>
    requires { length text.now ≤ longest_table }
    ensures good { OnOk result (faults_of (lines_of text.now) ≡ []) }
    ensures read { IfOk result (λ table. table ≡ moves_of (lines_of text.now)) }
    ensures bad { IfErr result (λ fault. UnlessMemory fault
        (slice_get (faults_of (lines_of text.now)) 0 ≡ Some fault)) }
    ensures of_a_line { IfErr result (λ fault. fault ≢ TableFault.TooLong) }
{
    let mut rows = Vec::new(alloc);
    let mut places = Vec::new(alloc);
    let mut number: u64 = 1;
    let mut rest = text;
    while !rest.is_empty() {
        let (line, after) = cut_at(rest, b'\n');
        match read_line(&mut rows, &mut places, line, number) {
            Ok(()) => {}
            Err(fault) => return Err(fault),
        }
        rest = after;
        number += 1;
    }
    Ok(MoveTable { rows, places })
}

impl MoveTable {
    /// The table of a text, or its first fault.
    ///
    /// Lines end at a line feed, which the last may lack, and empty lines are skipped. Each other
    /// line is `FROM SIZE TO`, with one space between each two: the range of SIZE bytes that begins
    /// at FROM goes to the place that begins at TO. A number is in decimal without leading zeros,
    /// or
    /// `0x` and one to eight hexadecimal digits of either case. All three are multiples of 4, SIZE
    /// is at least 4, and range and place end at or below 2^32. A range begins at or above the end
    /// of each one before it, and no two places have a byte in common.
    ///
    /// `TooLong` comes exactly where there is more than 1 MiB; else the first line at fault is
    /// named. Want of memory may come before any fault but `TooLong`.
    pub fn read(alloc: Global, text: &[u8]) -> Result<MoveTable, TableFault>
        ensures accepted { IfOk result (λ table. table_of text.now ≡ Ok table) }
        ensures refused { IfErr result (λ fault. UnlessMemory fault
            (table_of text.now ≡ Err fault)) }
        ensures table { IfOk result (λ table. IsTable table) }
        ensures too_long { (result ≡ Err TableFault.TooLong) ↔ (longest_table < length text.now) }
    {
        if text.len() > LONGEST_TABLE {
            return Err(TableFault::TooLong);
        }
        read_lines(alloc, text)
    }

    /// The address that the byte of an address in a range goes to, None where it is in no range. It
    /// takes time as the logarithm of the number of lines, as the calls below do.
    pub fn destination(&self, addr: u32) -> Option<u32>
        ensures value { result ≡ option_map (carried addr) (find (is_in_range addr) self.now) }
        ensures word { IfSome result (λ place. place % 4 ≡ addr % 4) }
    {
        match row_at(&self.rows, addr) {
            Some(row) => Some(addr - row.from + row.to),
            None => None,
        }
    }

    /// Where the byte of an address is once the ranges are moved.
    pub fn moved_address(&self, addr: u32) -> u32
        ensures { result ≡ moved_addr self.now addr }
    {
        match self.destination(addr) {
            Some(place) => place,
            None => addr,
        }
    }

    /// Whether a place has a byte that is near an access at an address once it is moved, and that
    /// comes from an address that isn't near it before. `near` is what the access's list is filtered
    /// under, and for 0, which says that it isn't filtered, none has. An access counts whether it is
    /// moved or not, and a byte whether anybody accesses it or not.
    pub fn is_far(&self, near: u16, addr: u32) -> bool
        requires { near ≤ 16 }
        ensures { result ≡ is_far near self.now addr }
    {
        near != 0 && some_come_from_far(near, self.moved_address(addr), addr, &self.places)
    }

    /// Whether the byte of an address is in no range, and lies in a place.
    pub fn is_taken(&self, addr: u32) -> bool
        ensures { result ≡ is_taken self.now addr }
    {
        row_at(&self.places, addr).is_some() && row_at(&self.rows, addr).is_none()
    }
}

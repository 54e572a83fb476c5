// Program headers, and the segments that they place in memory.
ghost use Rattle.std.specs.Prelude.{◌≡◌, ℕ, List, [], ◌∷◌, map, filter};
ghost use Rattle.std.specs.Prelude.{false, true, IfSome, MatchOption};
ghost use Rattle.std.specs.List.{list_any};
ghost use Rattle.program_files.specs.Programs.{loaded, segments_in, program_header, is_dynamic};
ghost use Rattle.program_files.specs.Programs.{is_outside, has_wrong_size, is_segment, overlap};
ghost use Rattle.program_files.specs.Programs.{some_pair};

use crate::fields::part_of;
use base::u32_at;
use std::marker::Model;

const PT_LOAD: u32 = 1;

const PT_DYNAMIC: u32 = 2;

const PT_INTERP: u32 = 3;

// A program header, with the fields that are looked at.
#[derive(Clone, Copy)]
pub(crate) struct ProgramHeader {
    pub(crate) kind: u32,
    pub(crate) offset: u32,
    pub(crate) addr: u32,
    pub(crate) file_size: u32,
    pub(crate) size: u32,
    pub(crate) flags: u32,
}

impl ProgramHeader {
    pub(crate) fn read(row: &[u8; 32]) -> ProgramHeader
        ensures { result ≡ program_header row.now }
    {
        ProgramHeader {
            kind: u32_at(row, 0),
            offset: u32_at(row, 4),
            addr: u32_at(row, 8),
            file_size: u32_at(row, 16),
            size: u32_at(row, 20),
            flags: u32_at(row, 24),
        }
    }

    fn is_dynamic(&self) -> bool
        ensures { result ≡ is_dynamic self.now }
    {
        self.kind == PT_DYNAMIC || self.kind == PT_INTERP
    }

    fn is_outside(&self, file: &[u8]) -> bool
        ensures { result ≡ is_outside file.now self.now }
    {
        let end = self.offset as usize + self.file_size as usize;
        self.kind == PT_LOAD && self.file_size > 0 && end > file.len()
    }

    fn has_wrong_size(&self) -> bool
        ensures { result ≡ has_wrong_size self.now }
    {
        let end = u64::from(self.addr) + u64::from(self.size);
        self.kind == PT_LOAD && (self.file_size > self.size || end > 1 << 32)
    }

    fn is_segment(&self) -> bool
        ensures { result ≡ is_segment self.now }
    {
        self.kind == PT_LOAD && self.size > 0
    }

    fn overlaps(&self, other: &ProgramHeader) -> bool
        ensures { result ≡ overlap self.now other.now }
    {
        let end = u64::from(self.addr) + u64::from(self.size);
        let other_end = u64::from(other.addr) + u64::from(other.size);
        self.is_segment()
            && other.is_segment()
            && u64::from(self.addr) < other_end
            && u64::from(other.addr) < end
    }
}

/// A loadable segment of a program file. Its bytes past its content are zero.
#[derive(Clone, Copy, Debug)]
pub struct Segment<'a> {
    /// Its first address.
    pub addr: u32,
    /// How many bytes it has in memory, more than 0. It ends at 2^32 at most.
    pub size: u32,
    /// PF_X is 1, PF_W 2 and PF_R 4.
    pub flags: u32,
    /// Its bytes in the file, no more than its size.
    pub content: &'a [u8],
}

impl ProgramHeader {
    ghost use Rattle.program_files.specs.SegmentViews.{segment_shown};

    fn segment_in<'a>(&self, file: &'a [u8]) -> Segment<'a>
        requires loadable { is_segment self.now ≡ true }
        requires inside { is_outside file.now self.now ≡ false }
        ensures { segment_shown result ≡ loaded file.now self.now }
    {
        let (offset, size) = (self.offset as usize, self.file_size as usize);
        Segment {
            addr: self.addr,
            size: self.size,
            flags: self.flags,
            content: part_of(file, offset, size),
        }
    }
}

/// The loadable segments of a program file that have bytes in memory, in the order of their
/// headers.
///
/// Contracts see the list of the segments that are left.
#[derive(Drop)]
pub struct Segments<'a> {
    file: &'a [u8],
    rows: &'a [[u8; 32]],
}

impl<'a> Model for Segments<'a> {
    ghost use Rattle.std.specs.Prelude.{List, ◌≡◌, map, false};
    ghost use Rattle.std.specs.List.{list_any};
    ghost use Rattle.program_files.specs.Programs.{segments_in, Loaded, program_header};
    ghost use Rattle.program_files.specs.Programs.{is_outside};

    ghost Value = { List Loaded };

    ghost view = { λ s. segments_in s.file.now (map program_header s.rows.now) };

    ghost invariant = { λ s. list_any (is_outside s.file.now)
        (map program_header s.rows.now) ≡ false };
}

impl<'a> Segments<'a> {
    // Those of all rows, none of which has bytes outside the file.
    pub(crate) fn of(file: &'a [u8], rows: &'a [[u8; 32]]) -> Segments<'a>
        requires { list_any (is_outside file.now) (map program_header rows.now) ≡ false }
        ensures { result ≡ segments_in file.now (map program_header rows.now) }
    {
        Segments { file, rows }
    }
}

// The header of the first segment among the rows, and the rows behind it.
fn next_segment<'a>(rows: &'a [[u8; 32]]) -> Option<(ProgramHeader, &'a [[u8; 32]])>
    ensures first { MatchOption result (filter is_segment (map program_header rows.now) ≡ [])
        (λ p. filter is_segment (map program_header rows.now) ≡ p.0 ∷ filter is_segment
        (map program_header p.1.now)) }
    ensures segment { IfSome result (λ p. is_segment p.0 ≡ true) }
    ensures inside { IfSome result (λ p. (file : List ℕ)
        → list_any (is_outside file) (map program_header rows.now) ≡ false
        → (is_outside file p.0 ≡ false) × (list_any (is_outside file)
        (map program_header p.1.now) ≡ false)) }
{
    let mut rest = rows;
    while let Some((row, others)) = rest.split_first() {
        rest = others;
        let header = ProgramHeader::read(row);
        if header.is_segment() {
            return Some((header, rest));
        }
    }
    None
}

impl<'a> Iterator for Segments<'a> {
    type Item = Segment<'a>;

    ghost use Rattle.std.specs.Iterator.{YieldsFirstBy, item_count};
    ghost use Rattle.program_files.specs.SegmentViews.{segment_shown};

    ghost next_gives = { YieldsFirstBy segment_shown (λ s. s) };

    ghost remaining = { item_count (λ s. s) };

    fn next(&mut self) -> Option<Segment<'a>> {
        let (header, rest) = next_segment(self.rows)?;
        self.rows = rest;
        Some(header.segment_in(self.file))
    }
}

pub(crate) fn some_dynamic(rows: &[[u8; 32]]) -> bool
    ensures { result ≡ list_any is_dynamic (map program_header rows.now) }
{
    rows.iter()
        .map(ProgramHeader::read)
        .any(|header| header.is_dynamic())
}

pub(crate) fn some_outside(rows: &[[u8; 32]], file: &[u8]) -> bool
    ensures { result ≡ list_any (is_outside file.now) (map program_header rows.now) }
{
    rows.iter()
        .map(ProgramHeader::read)
        .any(|header| header.is_outside(file))
}

pub(crate) fn some_wrong_size(rows: &[[u8; 32]]) -> bool
    ensures { result ≡ list_any has_wrong_size (map program_header rows.now) }
{
    rows.iter()
        .map(ProgramHeader::read)
        .any(|header| header.has_wrong_size())
}

fn overlaps_some(header: ProgramHeader, rows: &[[u8; 32]]) -> bool
    ensures { result ≡ list_any (overlap header) (map program_header rows.now) }
{
    rows.iter()
        .map(ProgramHeader::read)
        .any(|other| header.overlaps(&other))
}

pub(crate) fn some_overlap(rows: &[[u8; 32]]) -> bool
    ensures { result ≡ some_pair overlap (map program_header rows.now) }
{
    let mut rest = rows;
    while let Some((row, others)) = rest.split_first() {
        if overlaps_some(ProgramHeader::read(row), others) {
            return true;
        }
        rest = others;
    }
    false
}

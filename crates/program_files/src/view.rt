// A program file that was read.
ghost use Rattle.std.specs.Prelude.{◌≡◌, ◌≤◌, length, false, None, Some, IfOk, OnOk, IfErr};
ghost use Rattle.std.specs.Option.{option_map};
ghost use Rattle.program_files.specs.Fields.{rows, entry_of, program_count, program_offset};
ghost use Rattle.program_files.specs.Fields.{section_count, section_offset};
ghost use Rattle.program_files.specs.Programs.{segments_of};
ghost use Rattle.program_files.specs.Symbols.{table_in, symbol_table, symbols_of};
ghost use Rattle.program_files.specs.SymbolViews.{table_shown};
ghost use Rattle.program_files.specs.Faults.{first_fault, segment_faults, read_fault};
ghost use Rattle.program_files.specs.Faults.{symbols_fault};
ghost use Rattle.program_files.specs.Faults.{is_table_outside};

use crate::fault::ElfFault;
use crate::fields::rows_at;
use crate::header::{header_fault, program_rows, section_rows, tables_fault};
use crate::program::{Segments, some_dynamic, some_outside, some_overlap, some_wrong_size};
use crate::section::{SectionHeader, linked_names, symbol_section};
use crate::symbol::{SymbolRows, Symbols};
use base::u32_at;
use std::marker::Model;

// The first fault of the program headers.
fn segment_fault(content: &[u8]) -> Option<ElfFault>
    requires long { 52 ≤ length content.now }
    requires inside { is_table_outside 32 (program_count content.now) (program_offset content.now)
        content.now ≡ false }
    ensures { result ≡ first_fault segment_faults content.now }
{
    let rows = program_rows(content);
    if some_dynamic(rows) {
        Some(ElfFault::Dynamic)
    } else if some_outside(rows, content) {
        Some(ElfFault::SegmentOutsideFile)
    } else if some_wrong_size(rows) {
        Some(ElfFault::SegmentSizes)
    } else if some_overlap(rows) {
        Some(ElfFault::SegmentOverlap)
    } else {
        None
    }
}

// The first fault of a file that is read.
#[tactic(auto, using(crate::proofs::FirstFaults::firsts))]
fn read_fault(content: &[u8]) -> Option<ElfFault>
    ensures { result ≡ read_fault content.now }
{
    if let Some(fault) = header_fault(content) {
        return Some(fault);
    }
    if let Some(fault) = tables_fault(content) {
        return Some(fault);
    }
    segment_fault(content)
}

// The symbol table of a section, with the names that the section links to.
fn table_in<'a>(
    content: &'a [u8],
    sections: &[[u8; 40]],
    table: SectionHeader,
) -> Option<SymbolRows<'a>>
    requires { sections.now ≡ rows 40 (section_count content.now) (section_offset content.now)
        content.now }
    ensures { option_map table_shown result ≡ table_in content.now table }
{
    if !table.is_table(content) {
        return None;
    }
    let names = linked_names(content, sections, table.link)?;
    let rows = rows_at(content, table.offset as usize, table.size as usize / 16);
    Some(SymbolRows { rows, names })
}

// The symbol table of the file, an empty one where it has none.
fn symbol_table(content: &[u8]) -> Option<SymbolRows<'_>>
    requires long { 52 ≤ length content.now }
    requires inside { is_table_outside 40 (section_count content.now) (section_offset content.now)
        content.now ≡ false }
    ensures { option_map table_shown result ≡ symbol_table content.now }
{
    let sections = section_rows(content);
    match symbol_section(sections) {
        Some(table) => table_in(content, sections, table),
        None => Some(SymbolRows {
            rows: &[],
            names: &[],
        }),
    }
}

/// A program file that may be placed in memory. It borrows the file.
///
/// Contracts see the list of the file's bytes.
#[derive(Drop)]
pub struct ElfView<'a> {
    content: &'a [u8],
}

impl<'a> Model for ElfView<'a> {
    ghost use Rattle.std.specs.Prelude.{List, ℕ, ◌≡◌, None};
    ghost use Rattle.program_files.specs.Faults.{read_fault};

    ghost Value = { List ℕ };

    ghost view = { λ v. v.content.now };

    ghost invariant = { λ v. read_fault v.content.now ≡ None };
}

impl<'a> ElfView<'a> {
    /// Reads a program file: refused with its first fault from `TooShort` to `SegmentOverlap`.
    pub fn read(content: &'a [u8]) -> Result<ElfView<'a>, ElfFault>
        // Accepted exactly where there is no fault, and else refused with the first one.
        ensures accepted { OnOk result (read_fault content.now ≡ None) }
        ensures refused { IfErr result (λ fault. read_fault content.now ≡ Some fault) }

        // The view is of this file.
        ensures same { IfOk result (λ view. view ≡ content.now) }
    {
        match read_fault(content) {
            Some(fault) => Err(fault),
            None => Ok(ElfView { content }),
        }
    }

    /// The address of the first instruction.
    #[tactic(auto, using(crate::proofs::FirstFaults::views))]
    pub fn entry(&self) -> u32
        ensures value { result ≡ entry_of self.now }
        ensures accepted { read_fault self.now ≡ None }
    {
        u32_at(self.content, 24)
    }

    /// The loadable segments that have bytes in memory, in the order of their headers. The content
    /// of each is a slice
    /// of the file.
    #[tactic(auto, using(crate::proofs::FirstFaults::views))]
    pub fn segments(&self) -> Segments<'a>
        ensures { result ≡ segments_of self.now }
    {
        Segments::of(self.content, program_rows(self.content))
    }

    /// The symbols that are kept, in the order of the symbol table: those of data or code that
    /// have a section and a
    /// size above 0. A file without a symbol table has none. The name of each is a slice of the
    /// file. Refused as
    /// `BadSymbols` and `BadSymbolName`.
    #[tactic(auto, using(crate::proofs::FirstFaults::views))]
    pub fn symbols(&self) -> Result<Symbols<'a>, ElfFault>
        ensures accepted { OnOk result (symbols_fault self.now ≡ None) }
        ensures refused { IfErr result (λ fault. symbols_fault self.now ≡ Some fault) }
        ensures same { IfOk result (λ symbols. symbols ≡ symbols_of self.now) }
    {
        let Some(table) = symbol_table(self.content) else {
            return Err(ElfFault::BadSymbols);
        };
        if table.some_open_name() {
            return Err(ElfFault::BadSymbolName);
        }
        Ok(Symbols::of(table.rows, table.names))
    }
}

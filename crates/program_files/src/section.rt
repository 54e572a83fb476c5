// Section headers: of them only the first symbol table and its names are looked at.
ghost use Rattle.std.specs.Prelude.{◌≡◌, map, find, slice_get};
ghost use Rattle.std.specs.Option.{option_map, option_and_then};
ghost use Rattle.program_files.specs.Symbols.{section_header, is_symbols, is_names, is_table};
ghost use Rattle.program_files.specs.Symbols.{names_in};

use crate::fields::part_of;
use base::u32_at;

const SHT_SYMTAB: u32 = 2;

const SHT_STRTAB: u32 = 3;

const SYMBOL_SIZE: u32 = 16;

// A section header, with the fields that are looked at.
#[derive(Clone, Copy)]
pub(crate) struct SectionHeader {
    pub(crate) kind: u32,
    pub(crate) offset: u32,
    pub(crate) size: u32,
    pub(crate) link: u32,
    pub(crate) entry_size: u32,
}

impl SectionHeader {
    pub(crate) fn read(row: &[u8; 40]) -> SectionHeader
        ensures { result ≡ section_header row.now }
    {
        SectionHeader {
            kind: u32_at(row, 4),
            offset: u32_at(row, 16),
            size: u32_at(row, 20),
            link: u32_at(row, 24),
            entry_size: u32_at(row, 36),
        }
    }

    fn is_symbols(&self) -> bool
        ensures { result ≡ is_symbols self.now }
    {
        self.kind == SHT_SYMTAB
    }

    fn is_names(&self, file: &[u8]) -> bool
        ensures { result ≡ is_names file.now self.now }
    {
        self.kind == SHT_STRTAB && self.offset as usize + self.size as usize <= file.len()
    }

    pub(crate) fn is_table(&self, file: &[u8]) -> bool
        ensures { result ≡ is_table file.now self.now }
    {
        self.entry_size == SYMBOL_SIZE
            && self.size % SYMBOL_SIZE == 0
            && self.offset as usize + self.size as usize <= file.len()
    }

    fn names_in<'a>(&self, file: &'a [u8]) -> Option<&'a [u8]>
        ensures { option_map (λ names. names.now) result ≡ names_in file.now self.now }
    {
        if !self.is_names(file) {
            return None;
        }
        Some(part_of(file, self.offset as usize, self.size as usize))
    }
}

pub(crate) fn symbol_section(rows: &[[u8; 40]]) -> Option<SectionHeader>
    ensures { result ≡ find is_symbols (map section_header rows.now) }
{
    rows.iter()
        .map(SectionHeader::read)
        .find(|section| section.is_symbols())
}

// The bytes of the section of names that is linked to.
pub(crate) fn linked_names<'a>(file: &'a [u8], rows: &[[u8; 40]], link: u32) -> Option<&'a [u8]>
    ensures { option_map (λ names. names.now) result ≡ option_and_then (names_in file.now)
        (slice_get (map section_header rows.now) link) }
{
    let row = rows.get(link as usize)?;
    SectionHeader::read(row).names_in(file)
}

// The file header, and the two tables that it places.
ghost use Rattle.std.specs.Prelude.{◌≡◌, ◌^◌, ◌≤◌, ◌<◌, length, false};
ghost use Rattle.program_files.specs.Fields.{rows, program_count, program_offset, section_count};
ghost use Rattle.program_files.specs.Fields.{section_offset};
ghost use Rattle.program_files.specs.Faults.{first_fault, header_faults, table_faults};
ghost use Rattle.program_files.specs.Faults.{has_other_rows};
ghost use Rattle.program_files.specs.Faults.{is_table_outside};

use crate::fault::ElfFault;
use crate::fields::rows_at;
use base::{u16_at, u32_at};

// The bytes of the file header, and of a row of each table.
const HEADER_SIZE: usize = 52;

const PROGRAM_SIZE: usize = 32;

const SECTION_SIZE: usize = 40;

const MAGIC: [u8; 4] = [0x7f, b'E', b'L', b'F'];

const CLASS_32: u8 = 1;

const DATA_LITTLE: u8 = 1;

const VERSION: u8 = 1;

const TYPE_EXECUTABLE: u16 = 2;

const MACHINE_RISCV: u16 = 243;

fn has_other_rows(size: usize, n: u16, row_size: u16) -> bool
    ensures { result ≡ has_other_rows size n row_size }
{
    n > 0 && usize::from(row_size) != size
}

fn is_table_outside(size: usize, n: u16, place: u32, file: &[u8]) -> bool
    requires { size < 2 ^ 16 }
    ensures { result ≡ is_table_outside size n place file.now }
{
    n > 0 && place as usize + size * usize::from(n) > file.len()
}

// The first fault of the file header.
#[tactic(auto, using(std::proofs::lemmas::Bool::Decides::nat_tests))]
pub(crate) fn header_fault(content: &[u8]) -> Option<ElfFault>
    ensures { result ≡ first_fault header_faults content.now }
{
    if content.len() < HEADER_SIZE {
        Some(ElfFault::TooShort)
    } else if !content.starts_with(&MAGIC) {
        Some(ElfFault::BadMagic)
    } else if content[4] != CLASS_32 {
        Some(ElfFault::BadClass)
    } else if content[5] != DATA_LITTLE {
        Some(ElfFault::BadData)
    } else if content[6] != VERSION || u32_at(content, 20) != u32::from(VERSION) {
        Some(ElfFault::BadVersion)
    } else if u16_at(content, 16) != TYPE_EXECUTABLE {
        Some(ElfFault::BadType)
    } else if u16_at(content, 18) != MACHINE_RISCV {
        Some(ElfFault::BadMachine)
    } else if u32_at(content, 36) % 16 != 0 {
        Some(ElfFault::BadFlags)
    } else {
        None
    }
}

// The first fault of what the file header says of the two tables.
pub(crate) fn tables_fault(content: &[u8]) -> Option<ElfFault>
    requires { 52 ≤ length content.now }
    ensures { result ≡ first_fault table_faults content.now }
{
    let (programs, sections) = (u16_at(content, 44), u16_at(content, 48));
    if has_other_rows(PROGRAM_SIZE, programs, u16_at(content, 42))
        || has_other_rows(SECTION_SIZE, sections, u16_at(content, 46))
    {
        Some(ElfFault::BadHeaderSize)
    } else if is_table_outside(PROGRAM_SIZE, programs, u32_at(content, 28), content)
        || is_table_outside(SECTION_SIZE, sections, u32_at(content, 32), content)
    {
        Some(ElfFault::HeadersOutside)
    } else {
        None
    }
}

pub(crate) fn program_rows(content: &[u8]) -> &[[u8; 32]]
    requires long { 52 ≤ length content.now }
    requires inside { is_table_outside 32 (program_count content.now) (program_offset content.now)
        content.now ≡ false }
    ensures { result.now ≡ rows 32 (program_count content.now) (program_offset content.now)
        content.now }
{
    let n = u16_at(content, 44);
    if n == 0 {
        return &[];
    }
    rows_at(content, u32_at(content, 28) as usize, usize::from(n))
}

pub(crate) fn section_rows(content: &[u8]) -> &[[u8; 40]]
    requires long { 52 ≤ length content.now }
    requires inside { is_table_outside 40 (section_count content.now) (section_offset content.now)
        content.now ≡ false }
    ensures { result.now ≡ rows 40 (section_count content.now) (section_offset content.now)
        content.now }
{
    let n = u16_at(content, 48);
    if n == 0 {
        return &[];
    }
    rows_at(content, u32_at(content, 32) as usize, usize::from(n))
}

// The faults of a program file: what each is called, and what is said of it.
ghost use Rattle.std.specs.Prelude.{◌≡◌};
ghost use Rattle.command_io.specs.Faults.{elf_text};

use program_files::ElfFault;
use std::alloc::{AllocError, Global};

// What a fault of a program file is called.
pub fn elf_name(fault: ElfFault) -> &'static str
    ensures { result.now ≡ elf_text fault }
{
    match fault {
        ElfFault::TooShort => "TooShort",
        ElfFault::BadMagic => "BadMagic",
        ElfFault::BadClass => "BadClass",
        ElfFault::BadData => "BadData",
        ElfFault::BadVersion => "BadVersion",
        ElfFault::BadType => "BadType",
        ElfFault::BadMachine => "BadMachine",
        ElfFault::BadFlags => "BadFlags",
        ElfFault::BadHeaderSize => "BadHeaderSize",
        ElfFault::HeadersOutside => "HeadersOutside",
        ElfFault::Dynamic => "Dynamic",
        ElfFault::SegmentOutsideFile => "SegmentOutsideFile",
        ElfFault::SegmentSizes => "SegmentSizes",
        ElfFault::SegmentOverlap => "SegmentOverlap",
        ElfFault::SegmentOutsideMemory => "SegmentOutsideMemory",
        ElfFault::EntryMisaligned => "EntryMisaligned",
        ElfFault::EntryNotExecutable => "EntryNotExecutable",
        ElfFault::BadSymbols => "BadSymbols",
        ElfFault::BadSymbolName => "BadSymbolName",
        ElfFault::TooLong => "TooLong",
    }
}

// A number of two bytes of the beginning of an ELF file, in the file's order of bytes.
fn field(front: &[u8], first: usize, second: usize) -> Option<u16> {
    let bytes = [*front.get(first)?, *front.get(second)?];
    match front.get(5) {
        Some(&2) => Some(u16::from_be_bytes(bytes)),
        _ => Some(u16::from_le_bytes(bytes)),
    }
}

// Which machine an ELF file is for, as its beginning says, by the bits and the machine's number.
fn machine_of(front: &[u8]) -> &'static str {
    match (front.get(4), field(front, 18, 19)) {
        (Some(&2), Some(62)) => "the file is an ELF file for x86-64",
        (Some(&2), Some(243)) => "the file is an ELF file for RV64",
        (_, Some(3)) => "the file is an ELF file for x86",
        (_, Some(40)) => "the file is an ELF file for ARM",
        (_, Some(183)) => "the file is an ELF file for AArch64",
        _ => "the file is an ELF file for another machine",
    }
}

// What an ELF file is that is no executable with fixed addresses, as its beginning says.
fn type_of(front: &[u8]) -> &'static str {
    match field(front, 16, 17) {
        Some(1) => "the file is an object file, not linked yet",
        Some(3) => "the file is a shared object or a position-independent program",
        _ => "the file is not an executable with fixed addresses",
    }
}

// What is wrong with a program file that is refused, by its fault and its beginning.
fn wrong(fault: ElfFault, front: &[u8]) -> &'static str {
    match fault {
        ElfFault::TooShort | ElfFault::BadMagic => {
            if front.starts_with(b"#!") {
                "the file is a script"
            } else {
                "the file is not an ELF file"
            }
        }
        ElfFault::BadClass | ElfFault::BadData | ElfFault::BadMachine => machine_of(front),
        ElfFault::BadVersion => "the file has an unknown ELF version",
        ElfFault::BadType => type_of(front),
        ElfFault::BadFlags => {
            "the program uses compressed instructions, floating-point registers or RV32E registers"
        }
        ElfFault::BadHeaderSize => "the ELF headers have the wrong size for RV32",
        ElfFault::HeadersOutside => "the ELF headers extend past the end of the file",
        ElfFault::Dynamic => "the program is linked dynamically",
        ElfFault::SegmentOutsideFile => "a segment extends past the end of the file",
        ElfFault::SegmentSizes => {
            "a segment is larger in the file than in memory, or ends above 2^32"
        }
        ElfFault::SegmentOverlap => "two segments overlap",
        ElfFault::SegmentOutsideMemory => {
            "the segments, the stacks and a heap do not fit in memory"
        }
        ElfFault::EntryMisaligned => "the entry address is not a multiple of 4",
        ElfFault::EntryNotExecutable => "the entry address is not executable",
        ElfFault::BadSymbols => "the symbol table is damaged",
        ElfFault::BadSymbolName => "the name of a symbol has no end",
        ElfFault::TooLong => "the file is larger than 16 MiB",
    }
}

// What to do about it.
fn remedy(fault: ElfFault) -> &'static str {
    match fault {
        ElfFault::TooShort
        | ElfFault::BadMagic
        | ElfFault::BadClass
        | ElfFault::BadData
        | ElfFault::BadMachine => "build it for RV32IMA with guest/build.sh",
        ElfFault::BadFlags => "compile it for little-endian RV32 with -march=rv32ima -mabi=ilp32",
        ElfFault::BadType | ElfFault::Dynamic => {
            "link it statically at fixed addresses with -static -no-pie"
        }
        ElfFault::BadVersion
        | ElfFault::BadHeaderSize
        | ElfFault::HeadersOutside
        | ElfFault::SegmentOutsideFile =>
            "link the program again, since the file is damaged or cut off",
        ElfFault::SegmentSizes | ElfFault::SegmentOverlap => {
            "link it with guest/link.ld, or a linker script like it"
        }
        ElfFault::SegmentOutsideMemory => {
            "set a larger `memory`, fewer `harts` or a smaller `stack` in the settings"
        }
        ElfFault::EntryMisaligned | ElfFault::EntryNotExecutable => {
            "set the entry to the address of an instruction, as guest/start.S does"
        }
        ElfFault::BadSymbols | ElfFault::BadSymbolName => "remove the symbols with llvm-strip",
        ElfFault::TooLong => "make it smaller with llvm-strip --strip-debug",
    }
}

/// What is wrong with a program file that is refused, and what to do about it. `front` is the
/// beginning of the file, where it was looked at again.
pub fn elf_advice(alloc: Global, fault: ElfFault, front: &[u8]) -> Result<String, AllocError> {
    let wrong = wrong(fault, front);
    let remedy = remedy(fault);
    format!(in alloc; "{wrong}: {remedy}")
}

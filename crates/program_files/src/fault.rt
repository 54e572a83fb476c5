// The faults of a program file.

use thiserror::Error;

/// Why a program file is refused. Of several faults the first in this order is reported.
#[derive(Clone, Copy, PartialEq, Eq, Debug, Error)]
pub enum ElfFault {
    /// The file has fewer bytes than the file header, 52.
    #[error("TooShort")]
    TooShort,
    /// It does not begin with 7F and `ELF`.
    #[error("BadMagic")]
    BadMagic,
    /// It is not of 32 bits.
    #[error("BadClass")]
    BadClass,
    /// Its numbers are not little endian.
    #[error("BadData")]
    BadData,
    /// One of its two versions is not 1.
    #[error("BadVersion")]
    BadVersion,
    /// It is no executable with fixed addresses.
    #[error("BadType")]
    BadType,
    /// It is not for RISC-V.
    #[error("BadMachine")]
    BadMachine,
    /// It asks for compressed instructions, floating point registers or the small register file.
    #[error("BadFlags")]
    BadFlags,
    /// It has program headers that are not of 32 bytes, or section headers that are not of 40.
    #[error("BadHeaderSize")]
    BadHeaderSize,
    /// It has program headers or section headers that do not lie in the file.
    #[error("HeadersOutside")]
    HeadersOutside,
    /// It is linked dynamically, or asks for an interpreter.
    #[error("Dynamic")]
    Dynamic,
    /// Bytes of a loadable segment do not lie in the file.
    #[error("SegmentOutsideFile")]
    SegmentOutsideFile,
    /// A loadable segment has more bytes in the file than in memory, or ends above 2^32.
    #[error("SegmentSizes")]
    SegmentSizes,
    /// Two loadable segments have an address in common.
    #[error("SegmentOverlap")]
    SegmentOverlap,
    /// The segments, the stacks and the heap's beginning do not fit into the memory.
    #[error("SegmentOutsideMemory")]
    SegmentOutsideMemory,
    /// The entry is no multiple of 4.
    #[error("EntryMisaligned")]
    EntryMisaligned,
    /// The entry's page is not executable.
    #[error("EntryNotExecutable")]
    EntryNotExecutable,
    /// The symbol table or its names are not laid out as they must be, or do not lie in the file.
    #[error("BadSymbols")]
    BadSymbols,
    /// A symbol that is kept has a name that does not end in the names.
    #[error("BadSymbolName")]
    BadSymbolName,
    /// The file has more than 16 MiB. Who fetches the file gives it; no call here does.
    #[error("TooLong")]
    TooLong,
}

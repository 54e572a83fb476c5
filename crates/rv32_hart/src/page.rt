// The rights of a page, and the faults of an access.

use thiserror::Error;

/// The rights of a page of 4096 bytes. A mapped page may be read.
#[derive(Clone, Copy, PartialEq, Eq, Debug)]
pub struct Page {
    pub mapped: bool,
    pub writable: bool,
    pub executable: bool,
}

impl Page {
    /// A page that is not mapped.
    pub const NONE: Page = Page {
        mapped: false,
        writable: false,
        executable: false,
    };
}

/// Why an access is refused. Of several faults the first in this order is reported.
#[derive(Clone, Copy, PartialEq, Eq, Debug, Error)]
pub enum MemFault {
    /// The address is no multiple of the size, which is 4 for a fetch.
    #[error("Misaligned")]
    Misaligned,
    /// The address's page is not mapped.
    #[error("Outside")]
    Outside,
    /// The page of a store is not writable.
    #[error("ReadOnly")]
    ReadOnly,
    /// The page of a fetch is not executable.
    #[error("NotExecutable")]
    NotExecutable,
}

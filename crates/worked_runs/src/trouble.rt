// Why a case could not be played.
use std::alloc::{AllocError, AllocFailed};
use std::io;

#[derive(Debug, Drop)]
pub(crate) enum Trouble {
    /// A line of the case says nothing that a case may say.
    BadLine,
    /// A file of the case, or the case, couldn't be read, or a text not be printed.
    Outside,
    /// Memory ran out.
    NoMemory,
}

impl Trouble {
    pub(crate) fn text(&self) -> &'static str {
        match self {
            Trouble::BadLine => "a line of a case says nothing",
            Trouble::Outside => "a file couldn't be read",
            Trouble::NoMemory => "no memory",
        }
    }
}

impl From<io::Error> for Trouble {
    fn from(_: io::Error) -> Self {
        Trouble::Outside
    }
}

impl From<AllocError> for Trouble {
    fn from(_: AllocError) -> Self {
        Trouble::NoMemory
    }
}

impl<T: Drop> From<AllocFailed<T>> for Trouble {
    fn from(_: AllocFailed<T>) -> Self {
        Trouble::NoMemory
    }
}

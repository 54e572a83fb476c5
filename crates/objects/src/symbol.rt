// What a symbol names, and where it lies.

/// What a symbol names.
#[derive(Clone, Copy, PartialEq, Eq, Hash, Debug)]
pub enum SymbolKind {
    /// Data.
    Object,
    /// Code.
    Function,
}

// Where a symbol lies, which no two symbols of a table share.
#[derive(Clone, Copy, PartialEq, Eq, Hash, Debug)]
pub(crate) struct SymbolKey {
    pub(crate) kind: SymbolKind,
    pub(crate) addr: u32,
    pub(crate) size: u32,
}

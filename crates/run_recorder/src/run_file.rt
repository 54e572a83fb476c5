// The files that a run writes.

/// What a file of a run holds.
#[derive(Clone, Copy, Debug, PartialEq, Eq)]
pub enum Content {
    /// The trace of the run.
    Trace,
    /// The bytes that the guest puts out.
    Output,
}

/// A file that a run writes.
#[derive(Clone, Copy)]
pub struct RunFile<'a> {
    /// Its name.
    pub name: &'a str,
    /// What it holds.
    pub content: Content,
}

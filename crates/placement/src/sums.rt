// What a recount comes to.

/// The invalidations of a list of accesses where it is and where a plan moves it.
#[derive(Clone, Copy, PartialEq, Eq, Debug, Drop)]
pub struct Sums {
    /// Those of the list where it is.
    pub before: u64,
    /// Those of the moved list.
    pub after: u64,
    /// Of these, those on the lines of the words of many harts.
    pub many: u64,
}

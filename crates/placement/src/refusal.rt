// Why an object's words have no places.

/// Why no place is reported.
#[derive(Clone, Copy, PartialEq, Eq, Debug)]
pub enum PlaceRefusal {
    /// No object has the name.
    NoObject,
    /// It has more than 2^24 bytes.
    TooLarge,
    /// Its words don't fit between the accesses and the end of the address space.
    NoRoom,
}

// What is left of a part.
ghost use Rattle.std.specs.Prelude.{◌≡◌, ◌+◌, ◌<◌, ◌≤◌, ◌^◌, drop, length};
ghost use Rattle.base.specs.declared.faults.ResumeFault.TheVariants as faults;

use base::ResumeFault;

/// The bytes of a part from a place on.
#[derive(Clone, Copy)]
pub struct Rest<'a> {
    /// The place.
    pub place: usize,
    /// The bytes.
    pub bytes: &'a [u8],
}

/// What is left behind a unit of so many bytes.
pub fn behind(rest: Rest<'_>, size: usize) -> Rest<'_>
    requires long { size ≤ length rest.bytes.now }
    requires few { rest.place + length rest.bytes.now < 2 ^ 64 }
    ensures place { result.place ≡ rest.entry.place + size }
    ensures bytes { result.bytes.now ≡ drop size rest.entry.bytes.now }
    ensures end { result.place + length result.bytes.now
        ≡ rest.entry.place + length rest.entry.bytes.now }
{
    Rest {
        place: rest.place + size,
        bytes: rest.bytes.split_at(size).1,
    }
}

/// The fault of the unit that begins there.
pub fn fault_at(rest: Rest<'_>) -> ResumeFault
    ensures { result ≡ faults.BadState rest.entry.place }
{
    ResumeFault::BadState(rest.place as u64)
}

// Little-endian numbers at their places in a file's bytes.
ghost use Rattle.std.specs.Prelude.{◌≡◌, ◌+◌, ◌≤◌, drop, length};
ghost use Rattle.std.specs.Int.{w16, w32, w64};
ghost use Rattle.base.specs.Fields.{number_at};

use byteorder::{ByteOrder, LittleEndian};

/// The number in the 2 bytes at a place.
#[inline(always)]
#[tactic(auto, using(crate::proofs::LittleEndians::number_of_2))]
pub fn u16_at(bytes: &[u8], place: usize) -> u16
    requires { place + 2 ≤ length bytes.now }
    ensures { result ≡ number_at w16 place bytes.now }
{
    LittleEndian::read_u16(&bytes[place..])
}

/// The number in the 4 bytes at a place.
#[inline(always)]
#[tactic(auto, using(crate::proofs::LittleEndians::number_of_4))]
pub fn u32_at(bytes: &[u8], place: usize) -> u32
    requires { place + 4 ≤ length bytes.now }
    ensures { result ≡ number_at w32 place bytes.now }
{
    LittleEndian::read_u32(&bytes[place..])
}

/// The number in the 8 bytes at a place.
#[tactic(auto, using(crate::proofs::LittleEndians::number_of_8))]
pub fn u64_at(bytes: &[u8], place: usize) -> u64
    requires { place + 8 ≤ length bytes.now }
    ensures { result ≡ number_at w64 place bytes.now }
{
    LittleEndian::read_u64(&bytes[place..])
}

/// The bytes from a place on.
#[inline(always)]
pub fn behind(bytes: &[u8], place: usize) -> &[u8]
    requires { place ≤ length bytes.now }
    ensures value { result.now ≡ drop place bytes.now }
    ensures size { length result.now + place ≡ length bytes.now }
{
    bytes.split_at(place).1
}

// The numbers that say what the accesses are.
ghost use Rattle.std.specs.Prelude.{◌≡◌, ◌+◌, ◌*◌, ◌/◌, ◌%◌, ◌^◌};
ghost use Rattle.trace_files.specs.Made.{kind_of, touch_of};

use base::{Access, Hart, Kind};

// The state before the first access.
pub(crate) const FIRST_STATE: u64 = 1;

const FACTOR: u64 = 6_364_136_223_846_793_005;

const SUMMAND: u64 = 1_442_695_040_888_963_407;

// The state after a state.
#[inline]
pub(crate) fn next_state(state: u64) -> u64
    ensures { result ≡ (state * 6364136223846793005 + 1442695040888963407) % 2 ^ 64 }
{
    state.wrapping_mul(FACTOR).wrapping_add(SUMMAND)
}

#[inline]
fn kind_of(number: u32) -> Kind
    ensures { result ≡ kind_of number }
{
    if number / 1024 % 4 == 0 {
        Kind::Read
    } else {
        Kind::Write
    }
}

// The access that the high half of a state says.
#[inline]
pub(crate) fn access_at(state: u64) -> Access
    ensures { result ≡ touch_of (state / 2 ^ 32) }
{
    let number = (state >> 32) as u32;
    let line = 0x1_0000 + 64 * (number / 8 % 64);
    let word = number % 8 + 8 * (number / 512 % 2);
    let Some(hart) = Hart::new((number % 8) as u16) else {
        unreachable!();
    };
    let Some(access) = Access::new(hart, line + 4 * word, kind_of(number), 4) else {
        unreachable!();
    };
    access
}

// Numbers at their places in a unit: those that may be negative, and those that may stand for none.
ghost use Rattle.std.specs.Prelude.{◌≡◌, ◌+◌, ◌≤◌, length};
ghost use Rattle.saved_state.specs.Units.{integer_at, some_unless};

use base::u64_at;

pub(crate) fn i64_at(bytes: &[u8], place: usize) -> i64
    requires { place + 8 ≤ length bytes.now }
    ensures { result ≡ integer_at place bytes.now }
{
    u64_at(bytes, place).cast_signed()
}

// A number, unless it stands for none.
pub(crate) fn some_unless(none: u64, n: u64) -> Option<u64>
    ensures { result ≡ some_unless none n }
{
    if n == none { None } else { Some(n) }
}

// The ranges of predicted lines.
ghost use Rattle.std.specs.Prelude.{◌≡◌, ℕ, ◌||◌, ◌+◌, ◌*◌, ◌/◌, ◌%◌, ◌≤◌, IsTrue};
ghost use Rattle.std.specs.Option.{SomeIff};
ghost use Rattle.base.specs.Lines.{is_line_size};
ghost use Rattle.sharing_rules.specs.Lines as lines;
ghost use Rattle.sharing_rules.specs.Lines.{is_inside, line_at, native_line, range_of};
ghost use Rattle.sharing_rules.specs.Predicted as predicted;
ghost use Rattle.sharing_rules.specs.Predicted.{doubled_line, is_native_size};

use base::{Layout, Range};
use sharing_rules::{line_from, shifted_base};

/// The range of the shifted line for the words at two addresses in neighbouring native lines of
/// `line` bytes: of the same size, around both words. None exactly where they don't fit one line.
pub fn shifted_range(lower: u32, upper: u32, line: u32) -> Option<Range>
    requires native { IsTrue (is_native_size line) }
    requires words { (lower % 4 ≡ 0) × (upper % 4 ≡ 0) }
    requires neighbours { lower / line + 1 ≡ upper / line }
    ensures { SomeIff result (upper + 4 ≤ lower + line)
        (range_of (lines.line_from line (predicted.shifted_base line lower upper))) }
{
    let x = u64::from(lower);
    let y = u64::from(upper);
    if y + 4 > x + u64::from(line) {
        return None;
    }
    Some(line_from(line, shifted_base(line, x, y)).range())
}

/// The range of the doubled line that holds an address: two native lines of `line` bytes, from a
/// multiple of twice their size on.
pub fn doubled_range(addr: u32, line: u32) -> Range
    requires { IsTrue (is_native_size line) }
    ensures value { result ≡ range_of (line_at (record { size = 2 * line; offset = 0 }) addr) }
    // it is the doubled line of the even pair that holds the address
    ensures pair { (k : ℕ) → k % 2 ≡ 1
        → IsTrue (is_inside (native_line line k) addr || is_inside (native_line line (k + 1)) addr)
        → result ≡ range_of (doubled_line line k) }
{
    aligned_range(addr, 2 * line)
}

// The range of a line of `size` bytes from a multiple of its size on.
fn aligned_range(addr: u32, size: u32) -> Range
    requires { IsTrue (is_line_size size) }
    ensures { result ≡ range_of (line_at (record { size = size; offset = 0 }) addr) }
{
    let layout = Layout::new(size, 0).unwrap();
    layout.line_of(addr)
}

// Addresses of words, bases of shifted lines, and the lines that begin at a base.
ghost use Rattle.std.specs.Prelude.{◌≡◌, ◌≤◌, ◌<◌, ◌^◌, ◌%◌, IsTrue, pos, ◌+ℤ◌, ◌-ℤ◌, nat_abs};
ghost use Rattle.base.specs.Lines.{is_layout, line_number};
ghost use Rattle.sharing_rules.specs.Lines as lines;
ghost use Rattle.sharing_rules.specs.Predicted as predicted;

use crate::cache_line::CacheLine;
use base::Layout;

/// The address of a word of a native line, by the number of the line and the place of the word.
pub fn word_address(size: u32, number: u64, word: usize) -> u64
    requires size { size ≤ 2 ^ 10 }
    requires number { number ≤ 2 ^ 32 }
    requires word { word ≤ 2 ^ 10 }
    ensures value { result ≡ predicted.word_address size number word }
    ensures small { result ≤ 2 ^ 43 }
{
    u64::from(size) * number.saturating_sub(1) + 4 * word as u64
}

/// The base of the shifted line for the words at two addresses: half of what they leave of it goes
/// before the lower one.
pub fn shifted_base(size: u32, lower: u64, upper: u64) -> u64
    requires { upper ≤ 2 ^ 43 }
    ensures { result ≡ predicted.shifted_base size lower upper }
{
    let reach = (upper + 4).saturating_sub(lower);
    let rest = u64::from(size).saturating_sub(reach);
    lower.saturating_sub(4 * (rest / 8))
}

/// The line of a size that begins at a base.
pub fn line_from(size: u32, base: u64) -> CacheLine
    requires some { 0 < size }
    requires layout { IsTrue (is_layout size (base % size)) }
    requires number { line_number size (base % size) base ≤ 2 ^ 32 }
    requires base { base ≤ 2 ^ 43 }
    ensures { result ≡ lines.line_from size base }
{
    let bytes = u64::from(size);
    let offset = base % bytes;
    let layout = Layout::new(size, offset as u32).unwrap();
    CacheLine::numbered(layout, (base + bytes - offset) / bytes)
}

// The end of the line that begins at an address, less the offset of lines, without its sign.
#[tactic(auto, using(std::proofs::lemmas::Int::ints))]
fn end_of(layout: Layout, base: i64) -> u64
    ensures { result ≡ nat_abs (base +ℤ pos layout.size -ℤ pos layout.offset) }
{
    let up = u64::from(layout.size() - layout.offset());
    if base < 0 {
        base.unsigned_abs().abs_diff(up)
    } else {
        base.unsigned_abs() + up
    }
}

/// The number of the line in which an address lies, which may be one below 0 or past 2^32.
pub fn number_of_base(layout: Layout, base: i64) -> u64
    ensures { result ≡ lines.number_of_base layout base }
{
    end_of(layout, base) / u64::from(layout.size())
}

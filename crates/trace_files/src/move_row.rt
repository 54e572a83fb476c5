// A line of a table.
ghost use Rattle.std.specs.Prelude.{◌≡◌, ◌+◌, ◌^◌, Some, nat_le, true};
ghost use Rattle.std.specs.Option.{SomeIff, option_and_then};
ghost use Rattle.std.specs.List.{position_or_len, before_first, after_first};
ghost use Rattle.trace_files.specs.Rows.{turned};
ghost use Rattle.trace_files.specs.Tables.{is_byte, keeps_rules, kept_move_of, move_of, move_with};
ghost use Rattle.trace_files.specs.Tables.{is_of_words};

use crate::numerals::number;

// No range and no place ends above this.
const MEMORY: u64 = 1 << 32;

// The range of `size` bytes that begins at `from`, and its place: as many bytes that begin at `to`.
#[derive(Clone, Copy)]
pub(crate) struct Move {
    pub(crate) from: u32,
    pub(crate) size: u64,
    pub(crate) to: u32,
}

impl Move {
    // The way back.
    pub(crate) fn turned(&self) -> Move
        ensures { result ≡ turned self.now }
    {
        Move {
            from: self.to,
            size: self.size,
            to: self.from,
        }
    }
}

// The place of the first byte of a code in a text, or the text's length.
fn index_of_byte(text: &[u8], code: u8) -> usize
    ensures { result ≡ position_or_len (is_byte code) text.now }
{
    for (place, byte) in text.iter().enumerate() {
        if *byte == code {
            return place;
        }
    }
    text.len()
}

// What stands before the first byte of a code and what stands after it: all and nothing where there
// is none.
pub(crate) fn cut_at(text: &[u8], code: u8) -> (&[u8], &[u8])
    ensures front { result.0.now ≡ before_first (is_byte code) text.now }
    ensures back { result.1.now ≡ after_first (is_byte code) text.now }
{
    let place = index_of_byte(text, code);
    if place < text.len() {
        (&text[..place], &text[place + 1..])
    } else {
        (text, &text[text.len()..])
    }
}

fn is_of_words(number: u64) -> bool
    ensures { result ≡ is_of_words number }
{
    number % 4 == 0
}

// Whether as many bytes from there on lie in memory.
fn fits(from: u64, size: u64) -> bool
    ensures { result ≡ nat_le (from + size) (2 ^ 32) }
{
    from <= MEMORY && size <= MEMORY - from
}

// The row of three numbers, where they keep the rules of one.
fn row_with(from: u64, size: u64, to: u64) -> Option<Move>
    ensures { SomeIff result (keeps_rules (record { from = from; size = size; to = to }) ≡ true)
        (record { from = from; size = size; to = to }) }
{
    let of_words = is_of_words(from) && is_of_words(size) && is_of_words(to);
    if of_words && size >= 4 && fits(from, size) && fits(to, size) {
        Some(Move {
            from: from as u32,
            size,
            to: to as u32,
        })
    } else {
        None
    }
}

// The numbers of a line.
fn numbers(line: &[u8]) -> Option<(u64, u64, u64)>
    ensures { option_and_then (λ n. move_with (Some n.0) (Some n.1) (Some n.2)) result
        ≡ move_of line.now }
{
    let (from, rest) = cut_at(line, b' ');
    let (size, to) = cut_at(rest, b' ');
    let from = number(from)?;
    let size = number(size)?;
    let to = number(to)?;
    Some((from, size, to))
}

// The row that a line says, where it keeps the rules of one.
pub(crate) fn row_of(line: &[u8]) -> Option<Move>
    ensures { result ≡ kept_move_of line.now }
{
    let (from, size, to) = numbers(line)?;
    row_with(from, size, to)
}

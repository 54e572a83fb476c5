// A line of a schedule: a hart, and how often it runs.
ghost use Rattle.std.specs.Prelude.{◌≡◌, ◌≢◌, ◌≤◌, None, Some, IfOk, IfErr};
ghost use Rattle.std.specs.Option.{option_map};
ghost use Rattle.std.specs.Char.{is_ascii_digit};
ghost use Rattle.std.specs.List.{list_all, position_or_len, before_first, after_first};
ghost use Rattle.hart_scheduler.specs.Numbers.{is_numeral, number_of};
ghost use Rattle.hart_scheduler.specs.Texts.{is_byte, entry_with, entry_of, line_fault};

use crate::fault::ScheduleFault;
use base::Hart;
use std::marker::Model;

/// A hart that runs so many times.
#[derive(Clone, Copy, Debug)]
pub struct Entry {
    pub(crate) hart: Hart,
    pub(crate) count: u32,
}

impl Model for Entry {
    ghost use Rattle.hart_scheduler.specs.ScheduleParts.{ListEntry};

    ghost Value = { ListEntry };

    ghost view = { λ e. record { hart = e.hart; count = e.count } };

    ghost inverse = { λ e. record { hart = e.hart; count = e.count } };
}

// The place of the first byte of a code in a text, or the text's length.
fn index_of_byte(text: &[u8], code: u8) -> usize
    ensures { result ≡ position_or_len (is_byte code) text.now }
{
    for (place, byte) in text.iter().enumerate() {
        if *byte == code {
            return place;
        }
    }
    text.len()
}

// What stands before the first byte of a code and what stands after it: all and nothing where there
// is none.
pub(crate) fn cut_at(text: &[u8], code: u8) -> (&[u8], &[u8])
    ensures front { result.0.now ≡ before_first (is_byte code) text.now }
    ensures back { result.1.now ≡ after_first (is_byte code) text.now }
{
    let place = index_of_byte(text, code);
    if place < text.len() {
        (&text[..place], &text[place + 1..])
    } else {
        (text, &text[text.len()..])
    }
}

fn all_digits(text: &[u8]) -> bool
    ensures { result ≡ list_all is_ascii_digit text.now }
{
    text.iter().all(|byte| byte.is_ascii_digit())
}

// Whether a text is a number in decimal without leading zeros.
fn is_numeral(text: &[u8]) -> bool
    ensures { result ≡ is_numeral text.now }
{
    all_digits(text) && (text.len() == 1 || (text.len() > 1 && text[0] != b'0'))
}

// The number below 2^32 that a text writes.
fn number_of(text: &[u8]) -> Option<u32>
    ensures { result ≡ number_of text.now }
{
    if !is_numeral(text) {
        return None;
    }
    match str::from_utf8(text) {
        Ok(digits) => digits.parse().ok(),
        Err(_) => None,
    }
}

// The hart and the count of a line.
fn parse_line(line: &[u8]) -> Option<(u32, u32)>
    ensures { option_map (λ p. entry_with p.0 p.1) result ≡ entry_of line.now }
{
    let (hart, count) = cut_at(line, b' ');
    let hart = number_of(hart)?;
    let count = number_of(count)?;
    Some((hart, count))
}

// The entry of a numbered line, None where the line is empty, or its fault.
pub(crate) fn judge_line(
    line: &[u8],
    number: u64,
    harts: u16,
) -> Result<Option<Entry>, ScheduleFault>
    requires { harts ≤ 256 }
    ensures good { IfOk result (λ entry. (line_fault harts (number, line.now) ≡ None)
        × (entry ≡ entry_of line.now)) }
    ensures bad { IfErr result (λ fault. line_fault harts (number, line.now) ≡ Some fault) }
    ensures of_a_line { IfErr result (λ fault. fault ≢ ScheduleFault.TooLong) }
{
    if line.is_empty() {
        return Ok(None);
    }
    let Some((hart, count)) = parse_line(line) else {
        return Err(ScheduleFault::BadLine(number));
    };
    if hart >= u32::from(harts) {
        return Err(ScheduleFault::HartOutOfRange(number));
    }
    if count == 0 {
        return Err(ScheduleFault::ZeroCount(number));
    }
    Ok(Hart::new(hart as u16).map(|hart| Entry { hart, count }))
}

// The address that a word is.
ghost use Rattle.std.specs.Prelude.{◌≡◌, option_and_then};
ghost use Rattle.std.specs.Char.{is_ascii_hexdigit};
ghost use Rattle.std.specs.List.{list_all};
ghost use Rattle.command_line.specs.Demands.{text_of};
ghost use Rattle.command_line.specs.Numbers.{address_of, behind, behind_mark, hexadecimal_of};
ghost use Rattle.command_line.specs.Numbers.{is_hexadecimal, marked_address_of};

use crate::layout::number;

// Whether bytes are hexadecimal digits alone.
fn are_hexadecimal(digits: &[u8]) -> bool
    ensures { result ≡ list_all is_ascii_hexdigit digits.now }
{
    digits.iter().all(|digit| digit.is_ascii_hexdigit())
}

// Whether bytes are one to eight hexadecimal digits.
fn is_hexadecimal_number(digits: &[u8]) -> bool
    ensures { result ≡ is_hexadecimal digits.now }
{
    !digits.is_empty() && digits.len() <= 8 && are_hexadecimal(digits)
}

// The number that one to eight hexadecimal digits are.
fn hexadecimal(digits: &str) -> Option<u64>
    ensures { result ≡ hexadecimal_of digits.now }
{
    if is_hexadecimal_number(digits.as_bytes()) {
        u64::from_str_radix(digits, 16).ok()
    } else {
        None
    }
}

// What stands behind a zero.
fn behind_zero(text: &str) -> Option<&str>
    ensures { text_of result ≡ behind 48 text.now }
{
    text.strip_prefix('0')
}

// What stands behind an x.
fn behind_x(text: &str) -> Option<&str>
    ensures { text_of result ≡ behind 120 text.now }
{
    text.strip_prefix('x')
}

// What stands behind `0x`.
fn digits_behind_mark(text: &str) -> Option<&str>
    ensures { text_of result ≡ behind_mark text.now }
{
    match behind_zero(text) {
        Some(rest) => behind_x(rest),
        None => None,
    }
}

// The address that a text is: a number, or `0x` and one to eight hexadecimal digits.
pub fn address(text: &str) -> Option<u64>
    ensures { result ≡ address_of text.now }
{
    match digits_behind_mark(text) {
        Some(digits) => hexadecimal(digits),
        None => number(text),
    }
}

// The number that `0x` and one to eight hexadecimal digits are.
fn marked_number(text: &str) -> Option<u64>
    ensures { result ≡ option_and_then hexadecimal_of (behind_mark text.now) }
{
    match digits_behind_mark(text) {
        Some(digits) => hexadecimal(digits),
        None => None,
    }
}

// The address below 2^32 that a text is by `0x` and one to eight hexadecimal digits.
pub fn marked_address(text: &str) -> Option<u32>
    ensures { result ≡ marked_address_of text.now }
{
    u32::try_from(marked_number(text)?).ok()
}

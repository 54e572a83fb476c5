// The layout that two options name, the size that one names, and the numbers that they are given.
ghost use Rattle.std.specs.Prelude.{◌≡◌, IsTrue};
ghost use Rattle.std.specs.Char.{is_ascii_digit};
ghost use Rattle.std.specs.List.{list_all};
ghost use Rattle.std.specs.Option.{IfSome};
ghost use Rattle.base.specs.Lines.{is_line_size};
ghost use Rattle.command_line.specs.Numbers.{is_plain, number_of, number_or};
ghost use Rattle.command_line.specs.Demands.{text_of};
ghost use Rattle.command_line.specs.Layouts.{layout_at, named_layout};

use base::Layout;

// The size of a line in bytes, and where lines begin, where one of them alone is given.
const USUAL_SIZE: u64 = 64;

const USUAL_SHIFT: u64 = 0;

// Whether bytes are a zero, and then more.
fn has_leading_zero(digits: &[u8]) -> bool
    ensures { result ≡ Rattle.command_line.specs.Numbers.has_leading_zero digits.now }
{
    digits.len() > 1 && digits[0] == b'0'
}

// Whether bytes are decimal digits alone.
fn are_digits(digits: &[u8]) -> bool
    ensures { result ≡ list_all is_ascii_digit digits.now }
{
    digits.iter().all(|digit| digit.is_ascii_digit())
}

// Whether bytes are one decimal digit or more, without leading zeros.
fn is_plain_number(digits: &[u8]) -> bool
    ensures { result ≡ is_plain digits.now }
{
    !digits.is_empty() && !has_leading_zero(digits) && are_digits(digits)
}

// The number that a text is: decimal digits without leading zeros, below 2^64.
pub fn number(text: &str) -> Option<u64>
    ensures { result ≡ number_of text.now }
{
    if is_plain_number(text.as_bytes()) {
        text.parse::<u64>().ok()
    } else {
        None
    }
}

// The number that an option is given, or the usual one where it isn't given.
fn given_or(given: Option<&str>, usual: u64) -> Option<u64>
    ensures { result ≡ number_or usual (text_of given.entry) }
{
    match given {
        Some(text) => number(text),
        None => Some(usual),
    }
}

// The layout of a size and a shift, where it is allowed.
pub fn allowed_layout(size: u64, shift: u64) -> Option<Layout>
    ensures { result ≡ layout_at size shift }
{
    let size = u32::try_from(size).ok()?;
    let shift = u32::try_from(shift).ok()?;
    Layout::new(size, shift)
}

// The layout of a size and a shift, each the usual one where it isn't given.
pub fn given_layout(size: Option<&str>, shift: Option<&str>) -> Option<Layout>
    ensures { result ≡ Rattle.command_line.specs.Layouts.given_layout (text_of size.entry)
        (text_of shift.entry) }
{
    let size = given_or(size, USUAL_SIZE)?;
    let shift = given_or(shift, USUAL_SHIFT)?;
    allowed_layout(size, shift)
}

// Whether lines may have a size.
fn is_allowed_size(size: u32) -> bool
    ensures { result ≡ is_line_size size }
{
    Layout::new(size, 0).is_some()
}

// The size of a line, the usual one where it isn't given.
pub fn given_size(size: Option<&str>) -> Option<u32>
    ensures value { result ≡ Rattle.command_line.specs.Layouts.given_size (text_of size.entry) }
    ensures allowed { IfSome result (λ size. IsTrue (is_line_size size)) }
{
    let size = u32::try_from(given_or(size, USUAL_SIZE)?).ok()?;
    if is_allowed_size(size) {
        Some(size)
    } else {
        None
    }
}

// The layout that the options name, if they name one: None where what they name isn't allowed.
pub fn read_layout(size: Option<&str>, shift: Option<&str>) -> Option<Option<Layout>>
    ensures { result ≡ named_layout (text_of size.entry) (text_of shift.entry) }
{
    match (size, shift) {
        (None, None) => Some(None),
        (size, shift) => given_layout(size, shift).map(Some),
    }
}

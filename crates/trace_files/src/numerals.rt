// The numbers of a table.
ghost use Rattle.std.specs.Prelude.{◌≡◌};
ghost use Rattle.std.specs.Char.{is_ascii_digit, is_ascii_hexdigit};
ghost use Rattle.std.specs.List.{list_all};
ghost use Rattle.trace_files.specs.Numerals.{decimal_of, has_leading_zero, hexadecimal_of};
ghost use Rattle.trace_files.specs.Numerals.{is_decimal, is_hexadecimal, is_marked, number_of};

fn are_digits(text: &[u8]) -> bool
    ensures { result ≡ list_all is_ascii_digit text.now }
{
    text.iter().all(|digit| digit.is_ascii_digit())
}

fn are_hexadecimal(text: &[u8]) -> bool
    ensures { result ≡ list_all is_ascii_hexdigit text.now }
{
    text.iter().all(|digit| digit.is_ascii_hexdigit())
}

fn has_leading_zero(text: &[u8]) -> bool
    ensures { result ≡ has_leading_zero text.now }
{
    text.len() > 1 && text[0] == b'0'
}

fn is_decimal(text: &[u8]) -> bool
    ensures { result ≡ is_decimal text.now }
{
    !text.is_empty() && !has_leading_zero(text) && are_digits(text)
}

fn is_hexadecimal(text: &[u8]) -> bool
    ensures { result ≡ is_hexadecimal text.now }
{
    !text.is_empty() && text.len() <= 8 && are_hexadecimal(text)
}

// Whether it begins with `0x`.
fn is_marked(text: &[u8]) -> bool
    ensures { result ≡ is_marked text.now }
{
    text.len() > 1 && text[0] == b'0' && text[1] == b'x'
}

fn decimal(text: &[u8]) -> Option<u64>
    ensures { result ≡ decimal_of text.now }
{
    if !is_decimal(text) {
        return None;
    }
    match str::from_utf8(text) {
        Ok(digits) => digits.parse().ok(),
        Err(_) => None,
    }
}

fn hexadecimal(text: &[u8]) -> Option<u64>
    ensures { result ≡ hexadecimal_of text.now }
{
    if !is_hexadecimal(text) {
        return None;
    }
    match str::from_utf8(text) {
        Ok(digits) => u64::from_str_radix(digits, 16).ok(),
        Err(_) => None,
    }
}

// The number that a text is: in decimal without leading zeros, below 2^64, or `0x` and one to eight
// hexadecimal digits of either case.
pub(crate) fn number(text: &[u8]) -> Option<u64>
    ensures { result ≡ number_of text.now }
{
    if is_marked(text) {
        hexadecimal(&text[2..])
    } else {
        decimal(text)
    }
}

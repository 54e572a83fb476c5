// Names, whatever their bytes.
ghost use Rattle.std.specs.Prelude.{◌≡◌, ◌++◌, ◌<◌, IfOk, OnOk, string_bytes};
ghost use Rattle.base.specs.PrintedNames.{byte_text, digit_code, is_shown, name_text};

use std::alloc::{AllocError, Global};

// Whether a byte stands in a printed name as it is.
fn is_shown_byte(byte: u8) -> bool
    ensures { result ≡ is_shown byte }
{
    byte > b' ' && byte < 0x7f && byte != b'\\'
}

// A digit of base 16.
fn digit(value: u8) -> u8
    requires { value < 16 }
    ensures { result ≡ digit_code value }
{
    if value < 10 {
        value + b'0'
    } else {
        value + (b'a' - 10)
    }
}

// Adds a byte of a name.
fn push_byte(text: &mut String, byte: u8) -> Result<(), AllocError>
    ensures { OnOk result (string_bytes text.new ≡ string_bytes text.old ++ byte_text byte) }
{
    if is_shown_byte(byte) {
        return text.push(char::from(byte));
    }
    text.push_str("\\x")?;
    text.push(char::from(digit(byte / 16)))?;
    text.push(char::from(digit(byte % 16)))
}

/// Adds a name as it is printed: each byte from 0x21 to 0x7e other than the backslash as it is,
/// every other byte as `\x` and two hexadecimal digits, and an empty name as `?`. It takes memory
/// for the text.
pub fn push_name(text: &mut String, name: &[u8]) -> Result<(), AllocError>
    ensures { OnOk result (string_bytes text.new ≡ string_bytes text.old ++ name_text name.now) }
{
    if name.is_empty() {
        return text.push('?');
    }
    for byte in name {
        push_byte(text, *byte)?;
    }
    Ok(())
}

/// A name as it is printed. It takes memory for the text.
pub fn printed_name(alloc: Global, name: &[u8]) -> Result<String, AllocError>
    ensures { IfOk result (λ text. string_bytes text ≡ name_text name.now) }
{
    let mut text = String::new(alloc);
    push_name(&mut text, name)?;
    Ok(text)
}

// Addresses, in hexadecimal.
ghost use Rattle.std.specs.Prelude.{◌≡◌, ◌++◌, ◌<◌, ◌^◌, ◌+ℤ◌, pos, IfOk, OnOk, string_bytes};
ghost use Rattle.base.specs.Addresses.{address_text, hexadecimal as hexadecimal_of};

use std::alloc::{AllocError, Global};

// Adds at least eight hexadecimal digits.
fn push_hexadecimal(text: &mut String, n: u64) -> Result<(), AllocError>
    ensures { OnOk result (string_bytes text.new ≡ string_bytes text.old ++ hexadecimal_of n) }
{
    write!(text, "{n:08x}")
}

/// Adds the text of an address from 0 on. It takes memory for the text.
pub fn push_address(text: &mut String, at: u64) -> Result<(), AllocError>
    ensures { OnOk result (string_bytes text.new ≡ string_bytes text.old ++ address_text (pos at)) }
{
    text.push_str("0x")?;
    push_hexadecimal(text, at)
}

/// Adds the text of the address `offset` bytes past `base`, which may be below 0. It takes memory
/// for the text.
pub fn push_address_past(text: &mut String, base: i64, offset: u64) -> Result<(), AllocError>
    requires { offset < 2 ^ 63 }
    ensures { OnOk result (string_bytes text.new ≡ string_bytes text.old ++ address_text
        (base +ℤ pos offset)) }
{
    let below = base.unsigned_abs();
    if base >= 0 {
        push_address(text, below + offset)
    } else if below <= offset {
        push_address(text, offset - below)
    } else {
        text.push_str("-0x")?;
        push_hexadecimal(text, below - offset)
    }
}

/// The text of an address: `0x` and at least eight lower-case hexadecimal digits, behind a `-`
/// where it is below 0. It takes memory for the text.
pub fn address(alloc: Global, at: i64) -> Result<String, AllocError>
    ensures { IfOk result (λ text. string_bytes text ≡ address_text at) }
{
    let mut text = String::new(alloc);
    push_address_past(&mut text, at, 0)?;
    Ok(text)
}

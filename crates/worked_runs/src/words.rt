// The words of a line, and what a word of a case spells.
use std::alloc::{AllocError, Global};

// The words of a line.
pub(crate) fn words_of(alloc: Global, line: &str) -> Result<Vec<String>, AllocError> {
    let mut words = Vec::new(alloc);
    for word in line.split_whitespace() {
        words.push(String::from_str(alloc, word)?)?;
    }
    Ok(words)
}

// The number of decimal digits.
pub(crate) fn number(word: &str) -> Option<usize> {
    word.parse().ok()
}

// The same below 2^32.
pub(crate) fn short_number(word: &str) -> Option<u32> {
    word.parse().ok()
}

fn digit(letter: u8) -> Option<u32> {
    match letter {
        b'0'..=b'9' => Some(u32::from(letter - b'0')),
        b'a'..=b'f' => Some(u32::from(letter - b'a') + 10),
        _ => None,
    }
}

// The number of hexadecimal digits.
pub(crate) fn hexadecimal(word: &str) -> Option<u32> {
    let mut number = 0u32;
    for letter in word.bytes() {
        number = number.checked_mul(16)?.checked_add(digit(letter)?)?;
    }
    Some(number)
}

// The byte of two hexadecimal digits.
pub(crate) fn byte_of(word: &str) -> Option<u8> {
    u8::try_from(hexadecimal(word)?).ok()
}

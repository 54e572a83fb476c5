// The first byte of a record.
ghost use Rattle.std.specs.Prelude.{◌≡◌};
ghost use Rattle.trace_format.specs.Tags.{other_tag_of, tag_of};

use crate::record::Version;
use base::Kind;

/// What a record's first byte says: which record it is.
#[derive(Clone, Copy, PartialEq, Eq, Debug)]
pub enum Tag {
    /// An access of version 1.
    Touch(Kind),
    /// An access of version 2, of 1, 2 or 4 bytes.
    ShortTouch(Kind, u8),
    /// An access of version 3 or 4, of 1, 2 or 4 bytes.
    SitedTouch(Kind, u8),
    /// A block was made.
    Alloc,
    /// A block was given back.
    Free,
    /// A symbol.
    Symbol,
    /// The end.
    End,
}

impl Tag {
    /// The tag of a byte in a version: None exactly where the byte begins no record.
    #[inline(always)]
    pub fn read(version: Version, byte: u8) -> Option<Tag>
        ensures { result ≡ tag_of version byte }
    {
        match version {
            Version::One => match byte {
                // Both in one arm: a branch that goes as the kinds come is foretold badly.
                1 | 2 => Some(Tag::Touch(if byte == 1 { Kind::Read } else { Kind::Write })),
                _ => Tag::of_others(byte),
            },
            Version::Two => match byte {
                0x11 => Some(Tag::ShortTouch(Kind::Read, 1)),
                0x12 => Some(Tag::ShortTouch(Kind::Read, 2)),
                0x14 => Some(Tag::ShortTouch(Kind::Read, 4)),
                0x21 => Some(Tag::ShortTouch(Kind::Write, 1)),
                0x22 => Some(Tag::ShortTouch(Kind::Write, 2)),
                0x24 => Some(Tag::ShortTouch(Kind::Write, 4)),
                _ => Tag::of_others(byte),
            },
            Version::Three | Version::Four => match byte {
                0x11 => Some(Tag::SitedTouch(Kind::Read, 1)),
                0x12 => Some(Tag::SitedTouch(Kind::Read, 2)),
                0x14 => Some(Tag::SitedTouch(Kind::Read, 4)),
                0x21 => Some(Tag::SitedTouch(Kind::Write, 1)),
                0x22 => Some(Tag::SitedTouch(Kind::Write, 2)),
                0x24 => Some(Tag::SitedTouch(Kind::Write, 4)),
                _ => Tag::of_others(byte),
            },
        }
    }

    // The tag of a record that all versions spell in one way.
    #[inline(always)]
    fn of_others(byte: u8) -> Option<Tag>
        ensures { result ≡ other_tag_of byte }
    {
        match byte {
            3 => Some(Tag::Alloc),
            4 => Some(Tag::Free),
            5 => Some(Tag::Symbol),
            6 => Some(Tag::End),
            _ => None,
        }
    }
}

// Writers of whole parts.
ghost use Rattle.std.specs.Prelude.{◌≡◌, ◌++◌, OnOk, OnErr};
ghost use Rattle.std.specs.Int.{w16, w64, to_le_bytes};
ghost use Rattle.trace_format.specs.Rules.{IsGoodHeader, IsWritable};
ghost use Rattle.trace_format.specs.Spelling.{before_after, magic_of, spell_header, spell_record};

use crate::before::Before;
use crate::header_read::{MAGIC_FOUR, MAGIC_ONE, MAGIC_THREE, MAGIC_TWO};
use crate::record_write::{put_both, put_record};
use crate::{Header, TraceRecord, Version};
use base::NoMemory;
use std::marker::Model;

fn magic_of(version: Version) -> [u8; 8]
    ensures { result ≡ magic_of version }
{
    match version {
        Version::One => MAGIC_ONE,
        Version::Two => MAGIC_TWO,
        Version::Three => MAGIC_THREE,
        Version::Four => MAGIC_FOUR,
    }
}

fn field_bytes(header: Header) -> [u8; 12]
    ensures { result ≡ to_le_bytes w64 header.first ++
        (to_le_bytes w16 header.harts ++ to_le_bytes w16 header.near) }
{
    let [f0, f1, f2, f3, f4, f5, f6, f7] = header.first.to_le_bytes();
    let [h0, h1] = header.harts.to_le_bytes();
    let [n0, n1] = header.near.to_le_bytes();
    [f0, f1, f2, f3, f4, f5, f6, f7, h0, h1, n0, n1]
}

fn put_header(version: Version, header: Header, into: &mut Vec<u8>) -> Result<(), NoMemory>
    ensures ok { OnOk result (into.new.items ≡ into.old.items ++ spell_header version header) }
    ensures err { OnErr result (into.new.items ≡ into.old.items) }
{
    let (magic, fields) = (magic_of(version), field_bytes(header));
    put_both(&magic, &fields, into)
}

/// Writes a trace of any version: the header once, and then its records in order. A pc for which the
/// version has no place is left out, and in versions 3 and 4 one that is missing is written
/// as 0. In version 4 an end that doesn't say how many accesses there were before the list was
/// filtered is written as one of which none was left out.
///
/// Contracts see the version and what the next access is spelled against.
#[derive(Clone, Copy, Debug)]
pub struct TraceWriter {
    version: Version,
    before: Before,
}

impl Model for TraceWriter {
    ghost use Rattle.trace_format.specs.Writing.{Writing};

    ghost Value = { Writing };

    ghost view = { λ w. record { version = w.version; before = w.before } };

    ghost inverse = { λ w. record { version = w.version; before = w.before } };
}

impl TraceWriter {
    ghost use Rattle.trace_format.specs.Writing.{begin_writing};

    /// A writer of a version, before the header.
    pub fn new(version: Version) -> TraceWriter
        ensures { result ≡ begin_writing version }
    {
        TraceWriter {
            version,
            before: Before::nothing(),
        }
    }

    /// Appends the header. At `NoMemory` nothing is appended.
    pub fn header(&mut self, header: Header, into: &mut Vec<u8>) -> Result<(), NoMemory>
        requires { IsGoodHeader header }
        ensures ok { OnOk result
            (into.new.items ≡ into.old.items ++ spell_header self.old.version header) }
        ensures err { OnErr result (into.new.items ≡ into.old.items) }
        ensures same { self.new ≡ self.old }
    {
        put_header(self.version, header, into)
    }

    /// Appends a record. At `NoMemory` the writer and the bytes are as they were.
    pub fn item(&mut self, item: &TraceRecord, into: &mut Vec<u8>) -> Result<(), NoMemory>
        requires { IsWritable item.now }
        ensures ok { OnOk result
            (into.new.items ≡ into.old.items ++ spell_record self.old.version self.old.before
            item.now) }
        ensures next { OnOk result
            (self.new ≡ record self.old { before = before_after self.old.before item.now }) }
        ensures err { OnErr result (into.new.items ≡ into.old.items) }
        ensures stays { OnErr result (self.new ≡ self.old) }
    {
        match put_record(self.version, &self.before, item, into) {
            Ok(()) => {
                if let TraceRecord::Touch(access, pc) = item {
                    self.before.note(*access, *pc);
                }
                Ok(())
            }
            Err(fault) => Err(fault),
        }
    }
}

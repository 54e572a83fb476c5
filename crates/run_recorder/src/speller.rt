// How the records of a run's trace are spelled.
ghost use Rattle.std.specs.Prelude.{◌≡◌, OnOk};
ghost use Rattle.trace_format.specs.Rules.{IsWritable};
ghost use Rattle.trace_format.specs.Spelling.{before_after, spell_record, spell_records};
ghost use Rattle.trace_format.specs.Writing.{before_behind, begin_writing};
ghost use Rattle.run_recorder.specs.Recording.{touch_records};

use crate::step_records::touch_record;
use base::NoMemory;
use guest::Touched;
use std::alloc::Global;
use trace_format::{TraceRecord, TraceWriter, Version};

// Spells the records of a run's trace, one after the other.
#[derive(Drop)]
pub(crate) struct Speller {
    pub(crate) writer: TraceWriter,
    // the bytes of the latest that were spelled
    pub(crate) bytes: Vec<u8>,
}

impl Speller {
    // Before the first record of a trace of a version.
    pub(crate) fn new(alloc: Global, version: Version) -> Speller
        ensures { result.writer ≡ begin_writing version }
    {
        Speller {
            writer: TraceWriter::new(version),
            bytes: Vec::new(alloc),
        }
    }

    // Spells the next record.
    pub(crate) fn spell(&mut self, item: &TraceRecord) -> Result<(), NoMemory>
        requires { IsWritable item.now }
        ensures bytes { OnOk result (self.new.bytes.items
            ≡ spell_record self.old.writer.version self.old.writer.before item.now) }
        ensures next { OnOk result (self.new.writer
            ≡ record self.old.writer { before = before_after self.old.writer.before item.now }) }
    {
        self.bytes.clear();
        self.writer.item(item, &mut self.bytes)
    }

    // Spells the accesses, one behind the other.
    pub(crate) fn spell_touches(
        &mut self,
        version: Version,
        touches: &[Touched],
    ) -> Result<(), NoMemory>
        ensures bytes { OnOk result (self.new.bytes.items
            ≡ spell_records self.old.writer.version self.old.writer.before
            (touch_records version touches.now)) }
        ensures next { OnOk result (self.new.writer ≡ record self.old.writer
            { before = before_behind self.old.writer.before (touch_records version touches.now) }) }
    {
        self.bytes.clear();
        for place in 0..touches.len() {
            let touched = touches[place];
            let item = touch_record(version, touched.access, touched.pc);
            match self.writer.item(&item, &mut self.bytes) {
                Ok(()) => {}
                Err(refused) => return Err(refused),
            }
        }
        Ok(())
    }
}

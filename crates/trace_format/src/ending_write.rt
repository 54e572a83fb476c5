// The end of a trace.
ghost use Rattle.std.specs.Prelude.{◌≡◌, ◌++◌, OnOk, OnErr};
ghost use Rattle.trace_format.specs.Spelling.{cause_number, outcome_fields, spell_ending};
ghost use Rattle.trace_format.specs.Spelling.{spell_outcome, spell_run_end, spell_whole, whole_or};

use crate::access_write::put_bytes;
use crate::{TraceEnd, Version};
use base::{Cause, NoMemory, Outcome};

fn cause_number(cause: Cause) -> u8
    ensures { result ≡ cause_number cause }
{
    cause as u8
}

// The fields in which an end record states the outcome.
#[derive(Clone, Copy)]
struct OutcomeFields {
    which: u8,
    cause: u8,
    hart: u16,
    value: u32,
}

fn fields_of(outcome: Outcome) -> OutcomeFields
    ensures { spell_outcome outcome ≡ outcome_fields result.which result.cause result.hart
        result.value }
{
    let plain = |which, value| OutcomeFields {
        which,
        cause: 0,
        hart: 0,
        value,
    };
    match outcome {
        Outcome::Exit(code) => plain(0, code),
        Outcome::Budget => plain(1, 0),
        Outcome::Deadlock => plain(2, 0),
        Outcome::Trap(hart, pc, cause) => OutcomeFields {
            which: 3,
            cause: cause_number(cause),
            hart: hart.number(),
            value: pc,
        },
        Outcome::Part => plain(4, 0),
    }
}

// The bytes of an end that all versions have.
fn ending_bytes(ending: &TraceEnd) -> [u8; 25]
    ensures { result ≡ spell_run_end ending.now }
{
    let fields = fields_of(ending.outcome);
    let [h0, h1] = fields.hart.to_le_bytes();
    let [v0, v1, v2, v3] = fields.value.to_le_bytes();
    let [s0, s1, s2, s3, s4, s5, s6, s7] = ending.steps.to_le_bytes();
    let [n0, n1, n2, n3, n4, n5, n6, n7] = ending.accesses.to_le_bytes();
    [
        6,
        fields.which,
        fields.cause,
        h0,
        h1,
        v0,
        v1,
        v2,
        v3,
        s0,
        s1,
        s2,
        s3,
        s4,
        s5,
        s6,
        s7,
        n0,
        n1,
        n2,
        n3,
        n4,
        n5,
        n6,
        n7,
    ]
}

fn whole_or(accesses: u64, whole: Option<u64>) -> u64
    ensures { result ≡ whole_or accesses whole }
{
    match whole {
        Some(whole) => whole,
        None => accesses,
    }
}

// Appends how many accesses there were before the list was filtered, where the version says it.
fn put_whole(version: Version, ending: &TraceEnd, into: &mut Vec<u8>) -> Result<(), NoMemory>
    ensures ok { OnOk result (into.new.items ≡ into.old.items ++ spell_whole version ending.now) }
    ensures err { OnErr result (into.new.items ≡ into.old.items) }
{
    match version {
        Version::One | Version::Two | Version::Three => Ok(()),
        Version::Four => {
            let whole = whole_or(ending.accesses, ending.whole);
            put_bytes(&whole.to_le_bytes(), into)
        }
    }
}

// Appends an end. At `NoMemory` nothing is appended.
#[tactic(auto, unfolding(crate::specs::Spelling::spell_ending))]
pub(crate) fn put_ending(
    version: Version,
    ending: &TraceEnd,
    into: &mut Vec<u8>,
) -> Result<(), NoMemory>
    ensures ok { OnOk result (into.new.items ≡ into.old.items ++ spell_ending version ending.now) }
    ensures err { OnErr result (into.new.items ≡ into.old.items) }
{
    let start = into.len();
    put_bytes(&ending_bytes(ending), into)?;
    match put_whole(version, ending, into) {
        Ok(()) => Ok(()),
        Err(_) => {
            into.truncate(start);
            Err(NoMemory)
        }
    }
}

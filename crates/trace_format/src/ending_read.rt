// The end of a trace.
ghost use Rattle.std.specs.Prelude.{◌≡◌, ◌^◌, ◌≤◌, length};
ghost use Rattle.trace_format.specs.Judging.{cause_of, outcome_judged, plain_judged};
ghost use Rattle.trace_format.specs.Judging.{plain_outcome_of, trap_judged};

use crate::TraceFault;
use base::{Cause, Hart, Outcome, u16_at, u32_at, u64_at};

fn cause_of(number: u8) -> Option<Cause>
    ensures { result ≡ cause_of number }
{
    match number {
        1 => Some(Cause::Illegal),
        2 => Some(Cause::Breakpoint),
        3 => Some(Cause::FetchMisaligned),
        4 => Some(Cause::FetchOutside),
        5 => Some(Cause::LoadMisaligned),
        6 => Some(Cause::LoadOutside),
        7 => Some(Cause::StoreMisaligned),
        8 => Some(Cause::StoreOutside),
        _ => None,
    }
}

#[tactic(auto, using(std::proofs::lemmas::Bool::Decides::nat_tests), unfolding(crate::specs::Judging::trap_judged))]
fn trap_of(harts: u16, place: u64, cause: u8, hart: u16, value: u32) -> Result<Outcome, TraceFault>
    requires few { harts ≤ 256 }
    requires low { place ≤ 2 ^ 44 }
    ensures { result ≡ trap_judged harts place cause hart value }
{
    let Some(cause) = cause_of(cause) else {
        return Err(TraceFault::BadField(place + 2));
    };
    if hart >= harts {
        return Err(TraceFault::BadField(place + 3));
    }
    let Some(hart) = Hart::new(hart) else {
        return Err(TraceFault::BadField(place + 3));
    };
    if value % 4 != 0 {
        return Err(TraceFault::BadField(place + 5));
    }
    Ok(Outcome::Trap(hart, value, cause))
}

fn plain_outcome_of(which: u8, value: u32) -> Option<Outcome>
    ensures { result ≡ plain_outcome_of which value }
{
    match which {
        0 => Some(Outcome::Exit(value)),
        1 => Some(Outcome::Budget),
        2 => Some(Outcome::Deadlock),
        4 => Some(Outcome::Part),
        _ => None,
    }
}

#[tactic(auto, using(std::proofs::lemmas::Bool::Decides::nat_tests), unfolding(crate::specs::Judging::plain_judged))]
fn plain_of(
    place: u64,
    which: u8,
    cause: u8,
    hart: u16,
    value: u32,
    steps: u64,
) -> Result<Outcome, TraceFault>
    requires { place ≤ 2 ^ 44 }
    ensures { result ≡ plain_judged place which cause hart value steps }
{
    let Some(outcome) = plain_outcome_of(which, value) else {
        return Err(TraceFault::BadField(place + 1));
    };
    if cause > 0 {
        return Err(TraceFault::BadField(place + 2));
    }
    if hart > 0 {
        return Err(TraceFault::BadField(place + 3));
    }
    if which > 0 && value > 0 {
        return Err(TraceFault::BadField(place + 5));
    }
    if which == 4 && steps > 0 {
        return Err(TraceFault::BadField(place + 9));
    }
    Ok(outcome)
}

// The outcome in the 25 bytes of an end.
#[tactic(auto, using(std::proofs::lemmas::Bool::Decides::nat_tests), unfolding(crate::specs::Judging::outcome_judged))]
pub(crate) fn outcome_of(bytes: &[u8], harts: u16, place: u64) -> Result<Outcome, TraceFault>
    requires long { 25 ≤ length bytes.now }
    requires few { harts ≤ 256 }
    requires low { place ≤ 2 ^ 44 }
    ensures { result ≡ outcome_judged harts place bytes.now }
{
    let (hart, value) = (u16_at(bytes, 3), u32_at(bytes, 5));
    if bytes[1] == 3 {
        trap_of(harts, place, bytes[2], hart, value)
    } else {
        plain_of(place, bytes[1], bytes[2], hart, value, u64_at(bytes, 9))
    }
}

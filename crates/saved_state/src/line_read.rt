// The written line that begins some bytes, behind others.
ghost use Rattle.std.specs.Prelude.{◌≡◌, ◌<◌, ◌≤◌, ◌^◌, IsTrue, IfSome, List};
ghost use Rattle.std.specs.Prelude.{ℕ, length, Some, true};
ghost use Rattle.sharing_rules.specs.Members.{IsRising};
ghost use Rattle.saved_state.specs.Counted.{has_lower_number};
ghost use Rattle.saved_state.specs.Parts.{IsLast, header_meant, is_good_behind, line_behind};
ghost use Rattle.saved_state.specs.Units.{is_line, line_in};
ghost use Rattle.saved_state.specs.declared.state_parts.CountedLine.{CountedLine};

use crate::fields::i64_at;
use crate::state_parts::{CountedLine, StateHeader};
use crate::state_write::line_bytes;
use base::{Layout, u64_at};
use sharing_rules::number_of_base;

// Whether a line has an address.
#[tactic(auto, using(std::proofs::lemmas::Bool::Decides::nat_tests))]
fn is_line(layout: Layout, number: u64) -> bool
    ensures value { result ≡ is_line layout number }
    ensures small { IsTrue result → number ≤ 2 ^ 30 }
{
    number <= layout.number_of(u32::MAX)
        && number * u64::from(layout.size()) + u64::from(layout.offset()) > 0
}

// Whether a line keeps the rule behind one of a number, or as the first one.
#[tactic(auto, using(std::proofs::lemmas::Bool::Decides::nat_tests))]
fn is_good(header: &StateHeader, last: Option<u64>, line: CountedLine) -> bool
    ensures value { result ≡ is_good_behind (header_meant header.now) last line }
    ensures small { IsTrue result → line.number ≤ 2 ^ 30 }
{
    is_line(header.layout, line.number)
        && last.is_none_or(|number| number < line.number)
        && line.writes >= 1
        && line.writes <= header.position
}

// The line that begins some bytes, behind one of a number, or the first one.
#[tactic(auto, unfolding(crate::specs::Parts::line_behind))]
fn line_behind(header: &StateHeader, last: Option<u64>, bytes: &[u8]) -> Option<CountedLine>
    requires { 16 ≤ length bytes.now }
    ensures value { result ≡ line_behind (header_meant header.now) last bytes.now }
    ensures good { IfSome result (λ l.
        is_good_behind (header_meant header.now) last l ≡ true) }
    ensures small { IfSome result (λ l. l.number ≤ 2 ^ 30) }
{
    let line = CountedLine {
        number: number_of_base(header.layout, i64_at(bytes, 0)),
        writes: u64_at(bytes, 8),
    };
    if is_good(header, last, line) && bytes.starts_with(&line_bytes(header.layout, line)) {
        Some(line)
    } else {
        None
    }
}

/// The written line that begins some bytes, behind one of number `last`, or the first one: None
/// exactly where it is at fault.
pub fn read_line(header: &StateHeader, last: Option<u64>, bytes: &[u8]) -> Option<CountedLine>
    ensures value { (before : List CountedLine) → IsRising has_lower_number before
        → IsLast before last → result ≡ line_in (header_meant header.now) before bytes.now }
    ensures line { IfSome result (λ l. IsTrue (is_line header.now.layout l.number)) }
    ensures small { IfSome result (λ l. l.number ≤ 2 ^ 30) }
    ensures above { IfSome result (λ l. (n : ℕ) → last ≡ Some n → n < l.number) }
    ensures written { IfSome result (λ l. (1 ≤ l.writes) × (l.writes ≤ header.now.position)) }
    ensures long { IfSome result (λ l. 16 ≤ length bytes.now) }
{
    if bytes.len() < 16 {
        return None;
    }
    line_behind(header, last, bytes)
}

// The track that begins some bytes, by what it has by itself.
ghost use Rattle.std.specs.Prelude.{◌≡◌, ◌+◌, ◌*◌, ◌/◌, ◌%◌, ◌≤◌, ◌^◌, Some, None, [], ◌∷◌};
ghost use Rattle.std.specs.Prelude.{IfOk, IfSome, IsTrue, length, nat_lt};
ghost use Rattle.std.specs.Prelude.{option_map, take, slice_index, nat_le, ◌&&◌};
ghost use Rattle.std.specs.Option.{SomeIff};
ghost use Rattle.std.specs.Int.{w16, w64};
ghost use Rattle.line_tracks.specs.TrackValue.{IsBlank, IsInTime};
ghost use Rattle.line_tracks.specs.RangeWords.{blank, can_own, is_possible};
ghost use Rattle.sharing_rules.specs.Words.{accesses};
ghost use Rattle.saved_state.specs.Parts.{IsHeadSized, are_words, good_head, head_in, head_meant};
ghost use Rattle.saved_state.specs.Parts.{header_meant, kept_of, most_of, word_in};
ghost use Rattle.saved_state.specs.Spelling.{no_start};
ghost use Rattle.saved_state.specs.Units.{IsSized, are_entries, integer_at, is_owner, kind_of};
ghost use Rattle.base.specs.Fields.{number_at};
ghost use Rattle.saved_state.specs.Units.{owner_of, size_of, some_unless, track_alone, word_at};
ghost use Rattle.saved_state.specs.Units.{words_at};

use crate::fields::{i64_at, some_unless};
use crate::state_parts::{SavedTrack, StateHeader, TrackHead};
use crate::track_write::{MANY_HARTS, NO_HART, head_bytes, word_bytes};
use base::{Hart, Layout, NoMemory, Range, behind, u16_at, u64_at};
use line_tracks::{History, LineKind, Shadow};
use sharing_rules::{Owner, Word};
use std::alloc::Global;

// The kind that a number stands for.
#[tactic(auto, using(std::proofs::lemmas::Bool::Decides::nat_tests))]
fn kind_of(number: u8) -> LineKind
    ensures { result ≡ kind_of number }
{
    match number {
        0 => LineKind::Observed,
        1 => LineKind::Shifted,
        _ => LineKind::Doubled,
    }
}

// The size of a range of a kind.
#[tactic(auto, using(std::proofs::lemmas::Bool::Decides::nat_tests))]
fn size_of(layout: Layout, kind: LineKind) -> u32
    ensures value { result ≡ size_of layout kind }
    ensures small { result ≤ 2048 }
    ensures words { result % 4 ≡ 0 }
{
    match kind {
        LineKind::Observed | LineKind::Shifted => layout.size(),
        LineKind::Doubled => 2 * layout.size(),
    }
}

// A hart, where there are so many.
#[tactic(auto, using(std::proofs::lemmas::Bool::Decides::nat_tests))]
fn hart_of(number: u16, harts: u16) -> Option<Hart>
    requires { harts ≤ 256 }
    ensures { SomeIff result (IsTrue (nat_lt number harts)) number }
{
    if number < harts {
        Hart::new(number)
    } else {
        None
    }
}

// The history of two harts, where there are so many and the two differ.
#[tactic(auto, using(std::proofs::lemmas::Bool::Decides::nat_tests))]
fn two_of(first: u16, second: u16, harts: u16) -> Option<History>
    requires { harts ≤ 256 }
    ensures { SomeIff result (IsTrue (are_entries harts (first ∷ second ∷ [])))
        (first ∷ second ∷ []) }
{
    let Some(first) = hart_of(first, harts) else {
        return None;
    };
    let Some(second) = hart_of(second, harts) else {
        return None;
    };
    History::two(first, second)
}

// The history of one hart.
#[tactic(auto, using(std::proofs::lemmas::Bool::Decides::nat_tests))]
fn one_of(first: u16, harts: u16) -> Option<History>
    requires { harts ≤ 256 }
    ensures { SomeIff result (IsTrue (are_entries harts (first ∷ []))) (first ∷ []) }
{
    match hart_of(first, harts) {
        Some(first) => Some(History::one(first)),
        None => None,
    }
}

// The history of a track that has a start: None exactly where its entries break the rule.
#[tactic(auto, using(std::proofs::lemmas::Bool::Decides::nat_tests))]
fn history_at(harts: u16, bytes: &[u8]) -> Option<History>
    requires long { 32 ≤ length bytes.now }
    requires few { harts ≤ 256 }
    ensures { SomeIff result (IsTrue (are_entries harts (take (slice_index bytes.now 1)
        (number_at w16 2 bytes.now ∷ number_at w16 4 bytes.now ∷ []))))
        (take (slice_index bytes.now 1)
        (number_at w16 2 bytes.now ∷ number_at w16 4 bytes.now ∷ [])) }
{
    match bytes[1] {
        0 => None,
        1 => one_of(u16_at(bytes, 2), harts),
        _ => two_of(u16_at(bytes, 2), u16_at(bytes, 4), harts),
    }
}

// Whether a start and a count are within the accesses so far.
#[tactic(auto, using(std::proofs::lemmas::Bool::Decides::nat_tests))]
fn is_in_time(start: u64, count: u64, position: u64) -> bool
    ensures { result ≡ nat_lt (count + start) position }
{
    match count.checked_add(start) {
        Some(last) => last < position,
        None => false,
    }
}

// What a head states with a start, or with none.
fn head_with(layout: Layout, start: Option<(u64, History)>, bytes: &[u8]) -> TrackHead
    requires { 32 ≤ length bytes.now }
    ensures kind { result.kind ≡ kind_of (slice_index bytes.now 0) }
    ensures range { result.range ≡ record {
      base = integer_at 8 bytes.now;
      size = size_of layout (kind_of (slice_index bytes.now 0));
    } }
    ensures start { result.start ≡ start }
    ensures count { result.count ≡ number_at w64 24 bytes.now }
    ensures sized { IsHeadSized layout result }
{
    let kind = kind_of(bytes[0]);
    let range = Range {
        base: i64_at(bytes, 8),
        size: size_of(layout, kind),
    };
    TrackHead {
        kind,
        range,
        start,
        count: u64_at(bytes, 24),
    }
}

// A head without a start: None exactly where it breaks the rule.
#[tactic(auto, using(std::proofs::lemmas::Bool::Decides::nat_tests))]
fn waiting_at(header: &StateHeader, bytes: &[u8]) -> Option<TrackHead>
    requires { 32 ≤ length bytes.now }
    ensures value { option_map head_meant result
        ≡ good_head (header_meant header.now) None bytes.now }
    ensures sized { IfSome result (IsHeadSized header.now.layout) }
{
    if bytes[1] == 0 && u64_at(bytes, 24) == 0 {
        Some(head_with(header.layout, None, bytes))
    } else {
        None
    }
}

// A head with a start: None exactly where it breaks the rule.
#[tactic(auto, using(std::proofs::lemmas::Bool::Decides::nat_tests))]
fn started_at(header: &StateHeader, start: u64, bytes: &[u8]) -> Option<TrackHead>
    requires long { 32 ≤ length bytes.now }
    requires few { header.now.harts ≤ 256 }
    ensures value { option_map head_meant result
        ≡ good_head (header_meant header.now) (Some start) bytes.now }
    ensures sized { IfSome result (IsHeadSized header.now.layout) }
{
    let Some(history) = history_at(header.harts, bytes) else {
        return None;
    };
    if is_in_time(start, u64_at(bytes, 24), header.position) {
        Some(head_with(header.layout, Some((start, history)), bytes))
    } else {
        None
    }
}

// A head that keeps the rule: None exactly where it breaks it.
fn head_at(header: &StateHeader, bytes: &[u8]) -> Option<TrackHead>
    requires long { 32 ≤ length bytes.now }
    requires few { header.now.harts ≤ 256 }
    ensures value { option_map head_meant result ≡ good_head (header_meant header.now)
        (some_unless no_start (number_at w64 16 bytes.now)) bytes.now }
    ensures sized { IfSome result (IsHeadSized header.now.layout) }
{
    match some_unless(u64::MAX, u64_at(bytes, 16)) {
        None => waiting_at(header, bytes),
        Some(start) => started_at(header, start, bytes),
    }
}

// The head that begins some bytes: None exactly where it is at fault.
fn read_head(header: &StateHeader, bytes: &[u8]) -> Option<TrackHead>
    requires long { 32 ≤ length bytes.now }
    requires few { header.now.harts ≤ 256 }
    ensures value { option_map head_meant result ≡ head_in (header_meant header.now) bytes.now }
    ensures sized { IfSome result (IsHeadSized header.now.layout) }
{
    let Some(head) = head_at(header, bytes) else {
        return None;
    };
    if bytes.starts_with(&head_bytes(&head)) {
        Some(head)
    } else {
        None
    }
}

// The owner that a number stands for: None exactly where it's a hart that there isn't.
#[tactic(auto, using(std::proofs::lemmas::Bool::Decides::nat_tests))]
fn owner_of(number: u16, harts: u16) -> Option<Owner>
    requires { harts ≤ 256 }
    ensures { SomeIff result (IsTrue (is_owner harts (owner_of number))) (owner_of number) }
{
    match number {
        NO_HART => Some(Owner::None),
        MANY_HARTS => Some(Owner::Many),
        _ => match hart_of(number, harts) {
            Some(hart) => Some(Owner::One(hart)),
            None => None,
        },
    }
}

// Whether so many accesses can have an owner.
#[tactic(auto, using(std::proofs::lemmas::Bool::Decides::nat_tests))]
fn can_own(owner: Owner, accesses: u64) -> bool
    ensures { result ≡ can_own owner accesses }
{
    match owner {
        Owner::None => accesses == 0,
        Owner::One(_) => accesses >= 1,
        Owner::Many => accesses >= 2,
    }
}

// Whether a word has at most so many accesses, and an owner that they can have.
#[tactic(auto, using(std::proofs::lemmas::Bool::Decides::nat_tests))]
fn is_possible(word: Word, most: u64) -> bool
    ensures { result ≡ (is_possible word && nat_le (accesses word) most) }
{
    match word.reads.checked_add(word.writes) {
        Some(accesses) => accesses <= most && can_own(word.owner, accesses),
        None => false,
    }
}

// What the fields of a word say: None exactly where its hart is one that there isn't.
fn word_at(harts: u16, bytes: &[u8]) -> Option<Word>
    requires long { 20 ≤ length bytes.now }
    requires few { harts ≤ 256 }
    ensures { SomeIff result (IsTrue (is_owner harts (word_at bytes.now).owner))
        (word_at bytes.now) }
{
    match owner_of(u16_at(bytes, 16), harts) {
        Some(owner) => Some(Word {
            reads: u64_at(bytes, 0),
            writes: u64_at(bytes, 8),
            owner,
        }),
        None => None,
    }
}

// The word that begins some bytes, of at most so many accesses: None exactly where it is at fault.
#[tactic(auto, using(std::proofs::lemmas::Bool::Decides::nat_tests), unfolding(crate::specs::Parts::word_in))]
fn read_word(harts: u16, most: u64, bytes: &[u8]) -> Option<Word>
    requires long { 20 ≤ length bytes.now }
    requires few { harts ≤ 256 }
    ensures value { result ≡ word_in harts most bytes.now }
    ensures stated { IfSome result (λ w. w ≡ word_at bytes.now) }
    ensures possible { IfSome result (λ w. IsTrue (is_possible w)) }
    ensures few { IfSome result (λ w. accesses w ≤ most) }
{
    let Some(word) = word_at(harts, bytes) else {
        return None;
    };
    if is_possible(word, most) && bytes.starts_with(&word_bytes(&word)) {
        Some(word)
    } else {
        None
    }
}

// Puts the words behind a head in the place of blank ones: false exactly where they are at fault.
fn put_words(shadow: &mut Shadow, harts: u16, most: u64, bytes: &[u8]) -> bool
    requires blank { shadow.old ≡ blank shadow.old.range }
    requires whole { shadow.old.range.size % 4 ≡ 0 }
    requires few { harts ≤ 256 }
    requires low { most ≤ 2 ^ 40 }
    requires long { 32 + 5 * shadow.old.range.size ≤ length bytes.now }
    ensures passes { result ≡ are_words harts most (shadow.old.range.size / 4) bytes.now }
    ensures words { IsTrue result → shadow.new ≡ record {
      range = shadow.old.range;
      words = words_at (shadow.old.range.size / 4) bytes.now;
    } }
{
    let mut left = most;
    for i in 0..shadow.range().size / 4 {
        let Some(word) = read_word(harts, left, behind(bytes, 32 + 20 * i as usize)) else {
            return false;
        };
        left -= word.accesses();
        shadow.put(i, word);
    }
    true
}

// The words of a range behind a head: None exactly where they are at fault.
fn read_words(
    alloc: Global,
    range: Range,
    harts: u16,
    most: u64,
    bytes: &[u8],
) -> Result<Option<Shadow>, NoMemory>
    requires whole { range.size % 4 ≡ 0 }
    requires few { harts ≤ 256 }
    requires low { most ≤ 2 ^ 40 }
    requires long { 32 + 5 * range.size ≤ length bytes.now }
    ensures { IfOk result (λ r. SomeIff r (IsTrue (are_words harts most (range.size / 4) bytes.now))
        (record { range = range; words = words_at (range.size / 4) bytes.now })) }
{
    let mut shadow = match Shadow::new(alloc, range) {
        Ok(shadow) => shadow,
        Err(refused) => return Err(refused),
    };
    if put_words(&mut shadow, harts, most, bytes) {
        Ok(Some(shadow))
    } else {
        Ok(None)
    }
}

// How many accesses of its words there can be since the start of a track.
fn most_of(position: u64, start: Option<(u64, History)>) -> u64
    ensures value { result ≡ most_of position (option_map (λ s. s.0) start) }
    ensures low { result ≤ position }
{
    match start {
        None => 0,
        Some((start, _)) => position.saturating_sub(start),
    }
}

/// The track that begins some bytes, by what it has by itself: None exactly where it is at fault by
/// itself. Where it may stand is not judged here. There are at most 256 harts and 2^40 accesses.
///
/// NoMemory comes only where there is no memory for its words, which are all there.
pub fn read_track(
    alloc: Global,
    header: &StateHeader,
    bytes: &[u8],
) -> Result<Option<SavedTrack>, NoMemory>
    requires few { header.now.harts ≤ 256 }
    requires early { header.now.position ≤ 2 ^ 40 }
    ensures value { IfOk result (λ r. option_map kept_of r
        ≡ track_alone (header_meant header.now) bytes.now) }
    ensures sized { IfOk result (λ r. IfSome r (λ x. IsSized header.now.layout (kept_of x))) }
    ensures blank { IfOk result (λ r. IfSome r (λ x. x.start ≡ None → IsBlank (kept_of x))) }
    ensures in_time { IfOk result (λ r. IfSome r (λ x. IsInTime (kept_of x)
        header.now.position)) }
    ensures long { IfOk result (λ r. IfSome r (λ x. 32 + 5 * size_of header.now.layout x.kind
        ≤ length bytes.now)) }
{
    if bytes.len() < 32 {
        return Ok(None);
    }
    let Some(head) = read_head(header, bytes) else {
        return Ok(None);
    };
    if bytes.len() < 32 + 5 * head.range.size as usize {
        return Ok(None);
    }
    let most = most_of(header.position, head.start);
    match read_words(alloc, head.range, header.harts, most, bytes) {
        Ok(Some(shadow)) => Ok(Some(SavedTrack {
            kind: head.kind,
            shadow,
            start: head.start,
            count: head.count,
        })),
        Ok(None) => Ok(None),
        Err(refused) => Err(refused),
    }
}

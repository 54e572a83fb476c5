// The verdict over the words of a line.
ghost use Rattle.std.specs.Prelude.{◌≡◌, ℕ, ◌||◌, ◌==◌, ◌/◌, drop, length, IsTrue, Some};
ghost use Rattle.std.specs.List.{list_any, list_all};
ghost use Rattle.base.specs.Lines.{is_layout};
ghost use Rattle.sharing_rules.specs.AccessLists.{AccessList};
ghost use Rattle.sharing_rules.specs.Lines.{Line};
ghost use Rattle.sharing_rules.specs.Tracks.{track_of};
ghost use Rattle.sharing_rules.specs.Words.{words_since};
ghost use Rattle.sharing_rules.specs.Verdicts as verdicts;
ghost use Rattle.sharing_rules.specs.declared.line_kind.Verdict.TheVariants.{FalseSharing};
ghost use Rattle.line_tracks.specs.Quiet.{HasQuietWords};

use crate::Shadow;
use sharing_rules::{Verdict, Word, is_truly_shared};

/// The verdict over the words of a shadow, of any range.
///
/// Where it is false, no word would be taken from a hart if each word had a line of its own.
pub fn verdict(shadow: &Shadow) -> Verdict
    ensures value { result ≡ verdicts.verdict_of shadow.now.words }
    // where the words are those of a line since a position, false means that the accesses from
    // there on, as a list of their own, invalidate no word of the line
    ensures quiet { (l : Line) (s : ℕ) (t : AccessList) → IsTrue (is_layout l.size l.offset)
        → shadow.now.words ≡ words_since l s t → result ≡ FalseSharing
        → HasQuietWords l (drop s t) }
    // the same for the track of a line, from its start
    ensures tracked { (l : Line) (from s : ℕ) (t : AccessList) → IsTrue (is_layout l.size l.offset)
        → (track_of l from t).start ≡ Some s → shadow.now.words ≡ (track_of l from t).words
        → result ≡ FalseSharing → HasQuietWords l (drop s t) }
{
    if !is_any_shared(shadow) {
        Verdict::FalseSharing
    } else if is_each_written_shared(shadow) {
        Verdict::TrueSharing
    } else {
        Verdict::Mixed
    }
}

// Whether some word is truly shared.
fn is_any_shared(shadow: &Shadow) -> bool
    ensures { result ≡ list_any verdicts.is_truly_shared shadow.now.words }
{
    for i in 0..word_count(shadow) {
        if is_truly_shared(&shadow.word(i)) {
            return true;
        }
    }
    false
}

// Whether every written word is truly shared.
fn is_each_written_shared(shadow: &Shadow) -> bool
    ensures { result ≡ list_all (λ w. verdicts.is_truly_shared w || (w.writes == 0))
        shadow.now.words }
{
    for i in 0..word_count(shadow) {
        if !is_shared_if_written(&shadow.word(i)) {
            return false;
        }
    }
    true
}

// Whether a word is truly shared, or no one wrote it.
fn is_shared_if_written(word: &Word) -> bool
    ensures { result ≡ (verdicts.is_truly_shared word.now || (word.now.writes == 0)) }
{
    is_truly_shared(word) || word.writes == 0
}

// How many words a shadow has.
fn word_count(shadow: &Shadow) -> u32
    ensures value { result ≡ length shadow.now.words }
    ensures count { result ≡ shadow.now.range.size / 4 }
{
    shadow.range().size / 4
}

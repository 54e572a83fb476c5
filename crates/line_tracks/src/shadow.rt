// A range and its words.
ghost use Rattle.std.specs.Prelude.{ℕ, ◌++◌, ◌∷◌, ◌≡◌, ◌+◌, ◌*◌, ◌/◌, ◌%◌, ◌<◌, ◌≤◌, ◌^◌, IsTrue};
ghost use Rattle.std.specs.Prelude.{pos, ◌-ℤ◌, nat_abs, nat_lt};
ghost use Rattle.std.specs.Prelude.{IfOk, Some, [], length, map, sum_by, slice_get, slice_set};
ghost use Rattle.base.specs.Lines.{is_layout};
ghost use Rattle.base.specs.Ranges.{holds_address};
ghost use Rattle.sharing_rules.specs.AccessLists.{AccessList};
ghost use Rattle.sharing_rules.specs.Lines.{Line, range_of};
ghost use Rattle.sharing_rules.specs.Words.{accesses, tally, words_since};
ghost use Rattle.sharing_rules.specs.Places.{below};
ghost use Rattle.line_tracks.specs.RangeWords.{AreWords, blank, is_hot_place, is_possible};
ghost use Rattle.line_tracks.specs.RangeWords.{note_words, word_index, set_word};

use crate::cell::Cell;
use base::{Access, NoMemory, Range};
use sharing_rules::Word;
use std::alloc::Global;
use std::marker::Model;

/// The words of a range of addresses, by their places from 0, with how often they were accessed
/// together.
///
/// Contracts see the range and the list of its words.
#[derive(Drop)]
pub struct Shadow {
    range: Range,
    words: Vec<Cell>,
    total: u64,
}

impl Model for Shadow {
    ghost use Rattle.std.specs.Prelude.{◌≡◌, sum_by};
    ghost use Rattle.sharing_rules.specs.Words.{accesses};
    ghost use Rattle.line_tracks.specs.RangeWords.{RangeWords, AreWords};

    ghost Value = { RangeWords };

    ghost view = { λ s. record { range = s.range; words = s.words.items } };

    ghost invariant = { λ s. AreWords (record { range = s.range; words = s.words.items })
        × (s.total ≡ sum_by accesses s.words.items) };
}

// How far an address lies behind the first one of a range. It is below the range's size exactly
// where the range holds the address: before the range, the difference goes round.
#[inline(always)]
fn distance(range: Range, addr: u32) -> u64
    ensures held { nat_lt result range.size ≡ holds_address range addr }
    ensures value { IsTrue (holds_address range addr)
        → result ≡ nat_abs (pos addr -ℤ range.base) }
{
    u64::from(addr).wrapping_sub(range.base.cast_unsigned())
}

// Which word of a range an address is in.
#[inline(always)]
fn place_in(range: Range, addr: u32) -> usize
    requires { IsTrue (holds_address range addr) }
    ensures place { result ≡ word_index range addr }
    ensures within { 4 * result < range.size }
    ensures small { result < 2 ^ 30 }
{
    (distance(range, addr) / 4) as usize
}

// So many words that no one touched.
#[tactic(auto, using(crate::specs::Laws::Words::map_below_same))]
fn blank_words(alloc: Global, count: usize) -> Result<Vec<Cell>, NoMemory>
    ensures { IfOk result (λ words. words.items ≡ map (λ i. tally []) (below count)) }
{
    Ok(vec![in alloc; Cell::blank(); count]?)
}

impl Shadow {
    /// The words of a range that no one touched. The range's size is a multiple of 4, and so is its
    /// base.
    ///
    /// NoMemory comes only where there is no memory for the words. It keeps the allocator.
    pub fn new(alloc: Global, range: Range) -> Result<Shadow, NoMemory>
        requires { range.size % 4 ≡ 0 }
        ensures { IfOk result (λ shadow. shadow ≡ blank range) }
    {
        let words = blank_words(alloc, range.size as usize / 4)?;
        Ok(Shadow {
            range,
            words,
            total: 0,
        })
    }

    /// One access more, in the range, where there were fewer than 2^40. It takes no memory.
    #[inline(always)]
    pub fn note(&mut self, access: Access)
        requires inside { IsTrue (holds_address self.old.range access.addr) }
        requires room { sum_by accesses self.old.words < 2 ^ 40 }
        ensures exact { self.new ≡ note_words self.old access }
        ensures more { sum_by accesses self.new.words ≡ sum_by accesses self.old.words + 1 }
        // where they were the words of a line since a position, they are those of the list with the
        // access
        ensures since { (l : Line) (s : ℕ) (t : AccessList) → IsTrue (is_layout l.size l.offset)
            → s ≤ length t
            → self.old.range ≡ range_of l → self.old.words ≡ words_since l s t
            → self.new.words ≡ words_since l s (t ++ access ∷ []) }
    {
        let place = place_in(self.range, access.addr());
        let word = &mut self.words[place];
        word.note(&access);
        self.total += 1;
    }

    /// Makes word `i` another one, and leaves all others. It takes no memory.
    pub fn put(&mut self, i: u32, word: Word)
        requires within { i < self.old.range.size / 4 }
        requires possible { IsTrue (is_possible word) }
        requires few { sum_by accesses (slice_set self.old.words i word) ≤ 2 ^ 40 }
        ensures { self.new ≡ set_word self.old i word }
    {
        let place = i as usize;
        let old = self.words[place];
        self.words[place] = Cell::of(word);
        self.total = self.total - old.accesses() + word.accesses();
    }

    /// Whether its range holds an address. (Its words determine how many bytes it has, so that a
    /// note of the access that follows finds its word by the same comparison.)
    #[inline(always)]
    pub fn holds(&self, addr: u32) -> bool
        ensures { result ≡ holds_address self.now.range addr }
    {
        distance(self.range, addr) / 4 < self.words.len() as u64
    }

    /// Which of its words an address of the range is in.
    pub fn place(&self, addr: u32) -> u32
        requires { IsTrue (holds_address self.now.range addr) }
        ensures value { result ≡ word_index self.now.range addr }
        ensures within { result < self.now.range.size / 4 }
        ensures words { AreWords self.now }
    {
        place_in(self.range, addr) as u32
    }

    /// Word `i`.
    pub fn word(&self, i: u32) -> Word
        requires { i < self.now.range.size / 4 }
        ensures value { slice_get self.now.words i ≡ Some result }
        ensures possible { IsTrue (is_possible result) }
        ensures few { accesses result ≤ sum_by accesses self.now.words }
    {
        let word = self.words[i as usize];
        word.word()
    }

    /// How often its words were accessed together: at most 2^40 times.
    pub fn total(&self) -> u64
        ensures value { result ≡ sum_by accesses self.now.words }
        ensures words { AreWords self.now }
    {
        self.total
    }

    /// The range.
    pub fn range(&self) -> Range
        ensures value { result ≡ self.now.range }
        ensures words { AreWords self.now }
    {
        self.range
    }

    /// Whether word `i` is hot: it was accessed, and no less than the mean of all words.
    pub fn is_hot(&self, i: u32) -> bool
        requires { i < self.now.range.size / 4 }
        ensures { result ≡ is_hot_place self.now.words i }
    {
        let accesses = self.words[i as usize].accesses();
        let count = self.words.len() as u64;
        accesses > 0 && count.saturating_mul(accesses) >= self.total
    }
}

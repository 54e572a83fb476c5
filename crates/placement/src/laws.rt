// Laws of the definitions, for whoever reads contracts alone. Each call does nothing.
ghost use Rattle.std.specs.Prelude.{◌≡◌, ◌≢◌, ◌≤◌, ℕ, ◌+◌, ◌/◌, ◌<◌, All, IsFalse, IsTrue};
ghost use Rattle.base.specs.Lines.{is_line_size, line_number};
ghost use Rattle.base.specs.Touch.{word_of};
ghost use Rattle.sharing_rules.specs.AccessLists.{AccessList};
ghost use Rattle.sharing_rules.specs.Lines.{line_at, native_grid, native_line};
ghost use Rattle.sharing_rules.specs.Recounts.{recount};
ghost use Rattle.sharing_rules.specs.declared.word.Owner.TheVariants.{Many, One};
ghost use Rattle.placement.specs.Groups.{group_of};
ghost use Rattle.placement.specs.ObjectLines.{HasLinesToItself, is_object_line, object_total};
ghost use Rattle.placement.specs.Plans.{moved_list, place, plan_of};
ghost use Rattle.placement.specs.Recounts.{area_count, many_count, total_after, total_before};
ghost use Rattle.placement.specs.Words.{first_word, owned_of, owner_in, word_count};
ghost use Rattle.placement.specs.declared.extent.Extent.{Extent as Object};

/// The words of an object keep apart in a plan for a list of accesses.
pub fn words_keep_apart()
    // no two words share a place
    ensures places { (n : ℕ) (e : Object) (t : AccessList) (i j : ℕ) → IsTrue (is_line_size n)
        → i < word_count e → j < word_count e → i ≢ j
        → place n (owned_of e t) i ≢ place n (owned_of e t) j }
    // words on one line have the same owner: one hart, or many, or none
    ensures lines { (n : ℕ) (e : Object) (t : AccessList) (i j : ℕ) → IsTrue (is_line_size n)
        → i < word_count e → j < word_count e
        → place n (owned_of e t) i / n ≡ place n (owned_of e t) j / n
        → group_of (owner_in t (first_word e + i)) ≡ group_of (owner_in t (first_word e + j)) }
    // no place lies in a word that the list accesses, nor before one
    ensures free { (n : ℕ) (e : Object) (t : AccessList) (i : ℕ) → IsTrue (is_line_size n)
        → i < word_count e → All (λ a. word_of a.addr + 4 ≤ place n (owned_of e t) i) t }
{}

/// A line that holds the place of a word of one hart counts nothing once the accesses have moved.
pub fn a_harts_lines_count_nothing()
    // no other hart comes to it
    ensures alone { (n : ℕ) (e : Object) (t : AccessList) (i h : ℕ) → IsTrue (is_line_size n)
        → i < word_count e → h < 256 → owner_in t (first_word e + i) ≡ One h
        → All (λ a. line_number n 0 a.addr ≡ line_number n 0 (place n (owned_of e t) i)
        → a.hart ≡ h) (moved_list (plan_of n (owned_of e t)) t) }
    ensures nothing { (n : ℕ) (e : Object) (t : AccessList) (i h : ℕ) → IsTrue (is_line_size n)
        → i < word_count e → h < 256 → owner_in t (first_word e + i) ≡ One h
        → recount (line_at (native_grid n) (place n (owned_of e t) i))
        (moved_list (plan_of n (owned_of e t)) t) ≡ 0 }
{}

/// What the area counts is counted on the lines of the words of many harts.
pub fn the_area_counts_what_many_count()
    ensures { (n : ℕ) (e : Object) (t : AccessList) → IsTrue (is_line_size n)
        → All (λ a. a.hart < 256) t
        → area_count n (plan_of n (owned_of e t)) t ≡ many_count n (plan_of n (owned_of e t)) t }
{}

/// Where an object has its lines to itself, a plan saves all that they counted, but for what the
/// words of many harts go on counting.
pub fn padding_saves_all_of_the_object()
    // a line that holds no word of the object, and no place of one, counts what it did
    ensures elsewhere { (n : ℕ) (e : Object) (t : AccessList) (k : ℕ) → IsTrue (is_line_size n)
        → IsFalse (is_object_line n e k)
        → ((i : ℕ) → i < word_count e → line_number n 0 (place n (owned_of e t) i) ≢ k)
        → recount (native_line n k) (moved_list (plan_of n (owned_of e t)) t)
        ≡ recount (native_line n k) t }
    ensures saved { (n : ℕ) (e : Object) (t : AccessList) → IsTrue (is_line_size n)
        → All (λ a. a.hart < 256) t → HasLinesToItself n e t
        → total_before n t + many_count n (plan_of n (owned_of e t)) t
        ≡ total_after n (plan_of n (owned_of e t)) t + object_total n e t }
    // all of it, where no word is of many harts
    ensures all { (n : ℕ) (e : Object) (t : AccessList) → IsTrue (is_line_size n)
        → All (λ a. a.hart < 256) t → HasLinesToItself n e t
        → ((i : ℕ) → i < word_count e → owner_in t (first_word e + i) ≢ Many)
        → total_before n t ≡ total_after n (plan_of n (owned_of e t)) t + object_total n e t }
{}

// Laws of the definitions, for whoever reads contracts alone. Each call does nothing.
ghost use Rattle.std.specs.Prelude.{◌≡◌, ℕ, ◌+◌, ◌-◌, ◌≤◌, IsTrue};
ghost use Rattle.base.specs.Lines.{Grid, is_layout, line_number};
ghost use Rattle.base.specs.Touch.{Touch};
ghost use Rattle.sharing_rules.specs.AccessLists.{AccessList};
ghost use Rattle.sharing_rules.specs.Places.{count_places};
ghost use Rattle.misses.specs.MissCounts.{lines_of};
ghost use Rattle.misses.specs.Misses.{cold, is_cold, is_miss, is_needed, useful, useless};
ghost use Rattle.misses.specs.WordLines.{IsAlone};
ghost use Rattle.misses.specs.WordsApart.{came_along, misses_apart, needed_apart};

/// A line's cold misses are needed loads, and each needed load that isn't cold has a miss of its
/// own. So no difference of its numbers is cut off at 0, and the misses that aren't cold are the
/// useful ones and the useless ones.
pub fn costs_add_up()
    ensures first { (g : Grid) (r : ℕ) (t : AccessList) (a : Touch)
        → IsTrue (is_cold (lines_of g) r t a) → IsTrue (is_needed (lines_of g) r t a) }
    ensures cold { (g : Grid) (r : ℕ) (t : AccessList) → IsTrue (is_layout g.size g.offset)
        → cold (lines_of g) r t ≤ count_places (is_needed (lines_of g) r) t }
    ensures needed { (g : Grid) (r : ℕ) (t : AccessList) → IsTrue (is_layout g.size g.offset)
        → count_places (is_needed (lines_of g) r) t ≤ count_places (is_miss (lines_of g) r) t }
    ensures sum { (g : Grid) (r : ℕ) (t : AccessList) → IsTrue (is_layout g.size g.offset)
        → useful (lines_of g) r t + useless (lines_of g) r t
        ≡ count_places (is_miss (lines_of g) r) t - cold (lines_of g) r t }
    // a line that one hart alone uses has neither
    ensures alone { (g : Grid) (h r : ℕ) (t : AccessList) → IsTrue (is_layout g.size g.offset)
        → IsAlone (lines_of g) h r t
        → (useful (lines_of g) r t ≡ 0) × (useless (lines_of g) r t ≡ 0) }
{}

/// Under lines of 4 bytes nothing is useless, and each needed load of a line is a needed load of
/// its word's own line.
pub fn word_lines_waste_nothing()
    ensures useless { (r : ℕ) (t : AccessList) → useless (line_number 4 0) r t ≡ 0 }
    ensures needed { (g : Grid) (r : ℕ) (t : AccessList) (a : Touch)
        → IsTrue (is_layout g.size g.offset) → IsTrue (is_needed (lines_of g) r t a)
        → IsTrue (is_needed (line_number 4 0) (line_number 4 0 a.addr) t a) }
{}

/// What a line for each word saves: the misses of a line, less those of its words' own lines, are
/// at most its misses for nothing. They are exactly these less the words that came along, which the
/// line brought together with another word that its hart needed.
pub fn padding_saves_what_is_useless()
    // a line's needed loads, and the words that came along, are the needed loads of its words' own
    // lines
    ensures needed { (g : Grid) (r : ℕ) (t : AccessList) → IsTrue (is_layout g.size g.offset)
        → count_places (is_needed (lines_of g) r) t + came_along (lines_of g) r t
        ≡ needed_apart (lines_of g) r t }
    // which are the misses of these
    ensures missed { (g : Grid) (r : ℕ) (t : AccessList)
        → misses_apart (lines_of g) r t ≡ needed_apart (lines_of g) r t }
    ensures saved { (g : Grid) (r : ℕ) (t : AccessList) → IsTrue (is_layout g.size g.offset)
        → count_places (is_miss (lines_of g) r) t + came_along (lines_of g) r t
        ≡ useless (lines_of g) r t + misses_apart (lines_of g) r t }
    ensures bounded { (g : Grid) (r : ℕ) (t : AccessList) → IsTrue (is_layout g.size g.offset)
        → count_places (is_miss (lines_of g) r) t - misses_apart (lines_of g) r t
        ≤ useless (lines_of g) r t }
{}

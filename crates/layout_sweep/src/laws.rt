// Laws of the definitions, for whoever reads contracts alone. Each call does nothing.
ghost use Rattle.std.specs.Prelude.{◌≡◌, ℕ, ◌+◌, ◌*◌, ◌/◌, ◌<◌, ◌&&◌, nat_le, nat_lt, length};
ghost use Rattle.std.specs.Prelude.{IsTrue, Some, pos, ◌-ℤ◌, sum_by};
ghost use Rattle.base.specs.Lines.{Grid};
ghost use Rattle.sharing_rules.specs.AccessLists.{AccessList};
ghost use Rattle.sharing_rules.specs.Lines.{grid_line, is_inside, range_of};
ghost use Rattle.sharing_rules.specs.Listed.{listed};
ghost use Rattle.sharing_rules.specs.Recounts.{plain_levels};
ghost use Rattle.layout_sweep.specs.Counts.{least_of, sweep_of};
ghost use Rattle.layout_sweep.specs.Laws.Least.{IsLowest};
ghost use Rattle.layout_sweep.specs.Totals.{counted_lines, total_of};
ghost use Rattle.layout_sweep.specs.Windows.{is_swept_size, shifted_grid, window_line};
ghost use Rattle.layout_sweep.specs.declared.counts.Swept.{Swept};

/// The windows of a size, each of so many bytes from a multiple of 4 on, are the lines of its
/// shifts, and each is a line of exactly one shift.
pub fn windows_are_lines()
    // window q ends right before address 4 * q
    ensures range { (n q : ℕ) → IsTrue (is_swept_size n)
        → ((range_of (window_line n q)).size ≡ n)
        × ((range_of (window_line n q)).base ≡ (pos (4 * q) -ℤ pos n)) }
    // line k of shift 4 * i is the window k * (n / 4) + i
    ensures line { (n k i : ℕ) → IsTrue (is_swept_size n) → i < n / 4
        → window_line n (k * (n / 4) + i) ≡ grid_line (shifted_grid n i) k }
    // an address lies in the windows that end behind its word, and begin no later
    ensures holds { (n q a : ℕ) → IsTrue (is_swept_size n)
        → is_inside (window_line n q) a ≡ (nat_lt (a / 4) q && nat_le q (a / 4 + n / 4)) }
{}

/// What is counted of a shift is what is listed of the same list under its layout, with both
/// thresholds 1 and no prediction: as many lines, whose counts sum to the total.
pub fn what_is_counted_is_listed()
    ensures lines { (g : Grid) (t : AccessList)
        → length (listed g (plain_levels 1) t) ≡ counted_lines g t }
    ensures total { (g : Grid) (t : AccessList)
        → sum_by (λ f. f.count) (listed g (plain_levels 1) t) ≡ total_of g t }
{}

/// The least shift has a total that no other undercuts, and is the lowest of those with it.
pub fn none_undercuts_the_least()
    ensures { (n : ℕ) (t : AccessList) (x : Swept)
        → least_of (sweep_of n t) ≡ Some x → IsLowest n t x }
{}

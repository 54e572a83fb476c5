// Laws of the definitions, for whoever reads contracts alone. The call does nothing.
ghost use Rattle.std.specs.Prelude.{◌≡◌, ◌≤◌, ℕ, IsTrue, length};
ghost use Rattle.sharing_rules.specs.AccessLists.{AccessList};
ghost use Rattle.finite_cache.specs.Bounded.{bounded};
ghost use Rattle.finite_cache.specs.Rows.{bounded_count, evicted_count, unbounded_count};
ghost use Rattle.base.specs.Shapes.{CacheShape, is_shape};

/// A line is taken from a hart in bounded caches no more often than in unbounded ones, and as often
/// where it was never evicted.
pub fn bounded_caches_lose_no_more_than_they_evict()
    ensures below { (k : CacheShape) (t : AccessList) (r : ℕ)
        → bounded_count k t r ≤ unbounded_count k t r }
    ensures alike { (k : CacheShape) (t : AccessList) (r : ℕ) → IsTrue (is_shape k)
        → evicted_count k t r ≡ 0 → bounded_count k t r ≡ unbounded_count k t r }
    // and no list is longer than there are ways
    ensures short { (k : CacheShape) (t : AccessList) (h s : ℕ)
        → length (bounded k t h s) ≤ k.ways }
{}

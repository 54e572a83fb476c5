//! What a filtered list has in common with the list that was filtered.
//!
//! Most accesses of a program change no cache: the hart holds the line, and no other hart has come
//! near since its latest access of the same word. A filtered list lacks these accesses, and has a
//! tenth of the length. Each line of at most 2^k bytes keeps its misses and its invalidations, whatever
//! the layout, so a recorder that filters leaves a choice of layouts open. Positions don't stay,
//! nor do reads and writes of a word, and so neither do verdicts, thresholds above 1 and finite
//! caches.
//!
//! `sharing_rules/specs/Filtered.antt` says which accesses are redundant. `specs/SameCounts.antt`
//! and `specs/SameHarts.antt` list what stays, and [`filtered_lists_keep_counts`] and
//! [`filtered_lists_keep_harts`] say that it does.
//!
//! The proof goes through a list access by access (`specs/Laws/Walk.antt`). Where an access is
//! redundant its hart is settled: it holds the line with the word, and where it wrote no other hart
//! does (`specs/Laws/Settled.antt`). So the access leaves caches and copies as they are
//! (`specs/Laws/Alike.antt`), and each question is answered alike after both lists
//! (`specs/Laws/Counts.antt`).
#![tactic(auto)]

mod laws;

pub use laws::{
    filtered_lists_keep_counts, filtered_lists_keep_harts, filtering_again_changes_nothing,
    redundant_accesses_follow_from_the_last,
};

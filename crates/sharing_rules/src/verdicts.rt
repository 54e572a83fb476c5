// What a word says of its sharing.
ghost use Rattle.std.specs.Prelude.{◌≡◌};
ghost use Rattle.sharing_rules.specs.Verdicts as verdicts;

use crate::word::{Owner, Word};

/// Whether at least two harts touched a word, and one wrote it.
pub fn is_truly_shared(word: &Word) -> bool
    ensures { result ≡ verdicts.is_truly_shared word.now }
{
    matches!(word.owner, Owner::Many) && 0 < word.writes
}

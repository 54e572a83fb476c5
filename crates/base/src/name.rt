// The name of a symbol.
ghost use Rattle.std.specs.Prelude.{◌≡◌, ◌≤◌, length, IfOk};
ghost use Rattle.base.specs.Names.{longest_name, name_of};

use crate::NoMemory;
use std::alloc::Global;
use std::marker::Model;

// How many bytes of a name are kept.
const LONGEST_NAME: usize = 1024;

/// A name: at most 1024 bytes of any values. Contracts see the list of its bytes.
#[derive(Drop, Debug)]
pub struct Name {
    content: Vec<u8>,
}

impl Model for Name {
    ghost use Rattle.std.specs.Prelude.{ℕ, List, ◌≤◌, length};
    ghost use Rattle.base.specs.Names.{longest_name};

    ghost Value = { List ℕ };

    ghost view = { λ n. n.content.items };

    ghost invariant = { λ n. length n.content.items ≤ longest_name };
}

impl PartialEq for Name {
    ghost use Rattle.std.specs.Prelude.{bytes_eq};
    ghost use Rattle.std.specs.Cmp.Rules.{comparing};
    ghost use Rattle.std.proofs.Common.{rules};

    ghost eq = { bytes_eq };

    ghost laws = { Prim.search (comparing, rules) };

    fn eq(&self, other: &Name) -> bool {
        self.bytes() == other.bytes()
    }
}

impl Eq for Name {
    ghost use Rattle.std.specs.Cmp.Rules.{comparing};
    ghost use Rattle.std.proofs.Common.{rules};

    ghost laws = { Prim.search (comparing, rules) };
}

impl Name {
    /// The name of these bytes: of more than 1024, the first 1024. It takes memory for them.
    pub fn new(alloc: Global, content: &[u8]) -> Result<Name, NoMemory>
        ensures { IfOk result (λ n. n ≡ name_of content.now) }
    {
        let kept = LONGEST_NAME.min(content.len());
        let content = Vec::from_slice(alloc, &content[..kept])?;
        Ok(Name { content })
    }

    /// Its bytes, at most 1024.
    pub fn bytes(&self) -> &[u8]
        ensures value { result.now ≡ self.now }
        ensures short { length result.now ≤ longest_name }
    {
        self.content.as_slice()
    }
}

// The declared names of one kind. A text may use a name wherever it may stand, so that each look-up is by hash; and a
// name's place in the table is the number of what it declares, so that nothing else has to be kept with it.
ghost use Rattle.std.specs.Prelude.{◌≡◌, ◌<◌, ◌++◌, ◌∷◌, [], false, length, OnOk, IfOk, OnErr};
ghost use Rattle.rml_names.specs.Meanings.{place_among, is_among};
ghost use Rattle.rml_names.specs.Vocabulary.{max_names};

use base::{Mem, Row};
use indexmap::IndexSet;
use rml_command::Name;
use std::alloc::Global;
use std::marker::Model;

/// How many names a text may declare, of all kinds together.
pub const MAX_NAMES: usize = 1_000;

// A copy of these bytes.
fn owned(alloc: Global, name: &[u8]) -> Mem<Vec<u8>>
    ensures { IfOk result (λ copy. copy.items ≡ name.now) }
{
    let mut copy = Vec::with_capacity(alloc, name.len())?;
    copy.extend_from_slice(name)?;
    Ok(copy)
}

/// The names of one kind in the order of the file, at most `MAX_NAMES`, each found by its hash.
#[derive(Drop)]
pub struct NameTable {
    names: IndexSet<Vec<u8>>,
}

impl Model for NameTable {
    ghost use Rattle.std.specs.Prelude.{List, ℕ, map, ◌≤◌, length};
    ghost use Rattle.rml_names.specs.Vocabulary.{max_names};

    ghost Value = { List (List ℕ) };

    ghost view = { λ t. map (λ v. v.items) t.names.keys };

    ghost invariant = { λ t. length t.names.keys ≤ max_names };
}

impl NameTable {
    /// No names.
    pub fn new(alloc: Global) -> Self
        ensures { result ≡ [] }
    {
        NameTable {
            names: IndexSet::new(alloc),
        }
    }

    /// How many names there are.
    pub fn len(&self) -> usize
        ensures { result ≡ length self.now }
    {
        self.names.len()
    }

    /// The place of a name, the first one as 0.
    #[tactic(auto, using(crate::proofs::Tables::position_map))]
    pub fn find(&self, name: &[u8]) -> Option<u32>
        ensures { result ≡ place_among self.now name.now }
    {
        match self.names.get_index_of(name) {
            Some(place) => Some(place as u32),
            None => None,
        }
    }

    /// Whether the name is among them.
    #[tactic(auto, using(crate::proofs::Tables::any_map))]
    pub fn contains(&self, name: &[u8]) -> bool
        ensures { result ≡ is_among self.now name.now }
    {
        self.names.contains(name)
    }

    /// Adds a new name behind the others. Err: out of memory.
    #[tactic(auto, using(crate::proofs::Tables::any_map))]
    pub fn insert(&mut self, alloc: Global, name: &[u8]) -> Mem<()>
        requires new { is_among self.old name.now ≡ false }
        requires few { length self.old < max_names }
        ensures { OnOk result (self.new ≡ self.old ++ name.now ∷ []) }
    {
        self.names.insert(owned(alloc, name)?)?;
        Ok(())
    }

    /// The names as a list, in their order. Err: out of memory.
    pub fn names(&self, alloc: Global) -> Mem<Row<Name>>
        ensures { IfOk result (λ names. names ≡ self.now) }
    {
        let mut names = Row::new(alloc);
        let mut rest = self.names.as_slice();
        while let [name, after @ ..] = rest {
            names.push(Row::from_vec(owned(alloc, name)?))?;
            rest = after;
        }
        Ok(names)
    }
}

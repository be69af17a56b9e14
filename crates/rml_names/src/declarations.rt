// What the items that were read so far declare, and what a name means there.
ghost use Rattle.std.specs.Prelude.{◌≡◌, ◌≤◌, ◌+◌, length};
ghost use Rattle.fol_sig.specs.Tables.{numbers};
ghost use Rattle.rml_terms.specs.Within.{NameWithin};
ghost use Rattle.rml_names.specs.Vocabulary.{name_count};
ghost use Rattle.rml_names.specs.Meanings.{bytes_of, place_among, symbol_of, is_symbol, meaning_from};
ghost use Rattle.rml_names.specs.Meanings.{argument_sorts as sorts_of_arguments, result_sort as sort_of_result};
ghost use Rattle.rml_names.specs.Meanings.{is_writable as may_be_written};
ghost use Rattle.rml_names.specs.Scopes.{bound_names, max_bound};
ghost use Rattle.rml_names.specs.Drafts.{words_in};
ghost use Rattle.rml_names.specs.Sound.{IsSorted, IsDeclared};
ghost use Rattle.fol_sig.specs.Arguments.{max_arguments};

use crate::meaning::Meaning;
use crate::scope::Scope;
use crate::table::NameTable;
use fol_sig::{FunId, RelId, Signature, Sort, Sorts};
use rml_terms::Name;

/// The names of what is declared, those of each kind in a table.
#[derive(Drop)]
pub struct NameTables {
    /// Sorts.
    pub sorts: NameTable,
    /// Relations.
    pub relations: NameTable,
    /// Functions and variables, in one table.
    pub functions: NameTable,
    /// Axioms.
    pub axioms: NameTable,
    /// Conjectures.
    pub conjectures: NameTable,
    /// Actions.
    pub actions: NameTable,
    /// Derived relations.
    pub derived: NameTable,
}

/// What the items that were read so far declare.
#[derive(Drop)]
pub struct Declarations {
    /// The symbols.
    pub signature: Signature,
    /// The names.
    pub names: NameTables,
    /// The sorts of the parameters of each derived relation.
    pub derived: Vec<Sorts>,
}

/// The bytes of a name in the text.
pub fn bytes(text: &[u8], name: Name) -> &[u8]
    requires { NameWithin (length text.now) name }
    ensures { result.now ≡ bytes_of text.now name }
{
    &text[name.start as usize..name.end as usize]
}

impl Declarations {
    /// The number of the sort of this name, if it is declared.
    pub fn sort(&self, name: &[u8]) -> Option<u32>
        ensures { result ≡ place_among (words_in self.now).names.sorts name.now }
    {
        self.names.sorts.find(name)
    }

    /// The relation, function, variable or derived relation of this name.
    pub fn symbol(&self, name: &[u8]) -> Meaning
        requires { IsSorted (words_in self.now) }
        ensures value { result ≡ symbol_of (words_in self.now) name.now }
        ensures declared { IsDeclared (words_in self.now) result }
    {
        if let Some(place) = self.names.relations.find(name) {
            return Meaning::Relation(place);
        }
        if let Some(place) = self.names.functions.find(name) {
            return Meaning::Function(place);
        }
        match self.names.derived.find(name) {
            Some(place) => Meaning::Derived(place),
            None => Meaning::Unknown,
        }
    }

    /// Whether the name is declared as a relation, function, variable or derived relation.
    pub fn is_symbol(&self, name: &[u8]) -> bool
        requires { IsSorted (words_in self.now) }
        ensures { result ≡ is_symbol (words_in self.now) name.now }
    {
        !matches!(self.symbol(name), Meaning::Unknown)
    }

    /// The meaning of a name under these binders, the first of them with the index `depth`.
    pub fn meaning_from(&self, depth: u32, scope: &Scope, name: &[u8]) -> Meaning
        requires sound { IsSorted (words_in self.now) }
        requires few { depth + length (bound_names scope.now) ≤ max_bound }
        ensures value { result ≡ meaning_from (words_in self.now) depth (bound_names scope.now) name.now }
        ensures declared { IsDeclared (words_in self.now) result }
    {
        let mut index = depth;
        let mut around = scope;
        while let Scope::Inside(bound, outer) = around {
            if name == bound.name {
                return Meaning::Bound(index, bound.sort);
            }
            index += 1;
            around = outer;
        }
        self.symbol(name)
    }

    /// The sorts of the arguments of what is meant; a bound name has none.
    pub fn argument_sorts(&self, meaning: Meaning) -> &[Sort]
        requires { IsDeclared (words_in self.now) meaning }
        ensures value { numbers result.now ≡ sorts_of_arguments (words_in self.now) meaning }
        ensures few { length result.now ≤ max_arguments }
    {
        match meaning {
            Meaning::Relation(place) => self.signature.sorts_of(RelId(place)),
            Meaning::Function(place) => self.signature.from_of(FunId(place)),
            Meaning::Derived(place) => self.derived[place as usize].as_slice(),
            Meaning::Bound(_, _) | Meaning::Unknown => &[],
        }
    }

    /// The number of the sort of a bound name, a variable or a function's values.
    pub fn result_sort(&self, meaning: Meaning) -> Option<u32>
        requires { IsDeclared (words_in self.now) meaning }
        ensures { result ≡ sort_of_result (words_in self.now) meaning }
    {
        match meaning {
            Meaning::Bound(_, sort) => Some(sort),
            Meaning::Function(place) => Some(self.signature.into_of(FunId(place)).0),
            Meaning::Relation(_) | Meaning::Derived(_) | Meaning::Unknown => None,
        }
    }

    /// Whether commands may write what is meant: no derived relation, and no name of an element of a listed sort.
    pub fn is_writable(&self, meaning: Meaning) -> bool
        requires { IsDeclared (words_in self.now) meaning }
        ensures { result ≡ may_be_written (words_in self.now) meaning }
    {
        match meaning {
            Meaning::Function(place) => !self.signature.is_listed(FunId(place)),
            Meaning::Derived(_) => false,
            Meaning::Bound(_, _) | Meaning::Relation(_) | Meaning::Unknown => true,
        }
    }

    /// How many names are declared, of all kinds together.
    pub fn name_count(&self) -> usize
        requires { IsSorted (words_in self.now) }
        ensures { result ≡ name_count (words_in self.now) }
    {
        let names = &self.names;
        names.sorts.len()
            + names.relations.len()
            + names.functions.len()
            + names.axioms.len()
            + names.conjectures.len()
            + names.actions.len()
            + names.derived.len()
    }
}

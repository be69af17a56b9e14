// What is declared grows by one name. Each call says what it becomes, and asks that the name stands in the text and is
// new, that there is room for it, and that its sorts are known; that a text demands this is the business of the crates
// above.
ghost use Rattle.std.specs.Prelude.{◌≡◌, ◌<◌, false, length, OnOk};
ghost use Rattle.fol_sig.specs.Tables.{AreSorts};
ghost use Rattle.rml_terms.specs.Within.{NameWithin};
ghost use Rattle.rml_names.specs.Vocabulary.{max_names, name_count};
ghost use Rattle.rml_names.specs.Meanings.{bytes_of, is_among, is_symbol};
ghost use Rattle.rml_names.specs.Growth.{empty_vocabulary, with_sort, with_relation, with_function, with_element};
ghost use Rattle.rml_names.specs.Growth.{with_axiom, with_conjecture, with_action, with_definition};
ghost use Rattle.rml_names.specs.Drafts.{words_in};
ghost use Rattle.rml_names.specs.Sound.{IsSorted};

use crate::declarations::{Declarations, NameTables, bytes};
use crate::table::NameTable;
use base::Mem;
use fol_sig::{Signature, Sort, Sorts};
use rml_terms::Name;
use std::alloc::Global;

impl Declarations {
    /// Nothing.
    pub fn new(alloc: Global) -> Self
        ensures { words_in result ≡ empty_vocabulary }
    {
        Declarations {
            signature: Signature::empty(alloc),
            names: NameTables {
                sorts: NameTable::new(alloc),
                relations: NameTable::new(alloc),
                functions: NameTable::new(alloc),
                axioms: NameTable::new(alloc),
                conjectures: NameTable::new(alloc),
                actions: NameTable::new(alloc),
                derived: NameTable::new(alloc),
            },
            derived: Vec::new(alloc),
        }
    }

    /// Adds a sort. Err: out of memory.
    pub fn add_sort(&mut self, alloc: Global, text: &[u8], name: Name) -> Mem<()>
        requires sound { IsSorted (words_in self.old) }
        requires within { NameWithin (length text.now) name }
        requires new { is_among (words_in self.old).names.sorts (bytes_of text.now name) ≡ false }
        requires few { name_count (words_in self.old) < max_names }
        ensures { OnOk result (words_in self.new ≡ with_sort text.now (words_in self.old) name) }
    {
        self.names.sorts.insert(alloc, bytes(text, name))?;
        let _ = self.signature.add_sort();
        Ok(())
    }

    /// Adds a relation, with the sorts of its arguments. Err: out of memory.
    pub fn add_relation(&mut self, alloc: Global, text: &[u8], name: Name, sorts: Sorts) -> Mem<()>
        requires sound { IsSorted (words_in self.old) }
        requires within { NameWithin (length text.now) name }
        requires new { is_symbol (words_in self.old) (bytes_of text.now name) ≡ false }
        requires few { name_count (words_in self.old) < max_names }
        requires known { AreSorts (words_in self.old).signature.sorts sorts }
        ensures { OnOk result (words_in self.new ≡ with_relation text.now (words_in self.old) name sorts) }
    {
        self.names.relations.insert(alloc, bytes(text, name))?;
        let _ = self.signature.add_relation(sorts)?;
        Ok(())
    }

    /// Adds a function, or a variable, which has no arguments. Err: out of memory.
    pub fn add_function(
        &mut self,
        alloc: Global,
        text: &[u8],
        name: Name,
        from: Sorts,
        into: Sort,
    ) -> Mem<()>
        requires sound { IsSorted (words_in self.old) }
        requires within { NameWithin (length text.now) name }
        requires new { is_symbol (words_in self.old) (bytes_of text.now name) ≡ false }
        requires few { name_count (words_in self.old) < max_names }
        requires known { AreSorts (words_in self.old).signature.sorts from }
        requires into_known { into.0 < (words_in self.old).signature.sorts }
        ensures { OnOk result (words_in self.new ≡ with_function text.now (words_in self.old) name from into.0) }
    {
        self.names.functions.insert(alloc, bytes(text, name))?;
        let _ = self.signature.add_function(from, into)?;
        Ok(())
    }

    /// Adds a name of an element of a listed sort. Err: out of memory.
    pub fn add_element(&mut self, alloc: Global, text: &[u8], sort: Sort, name: Name) -> Mem<()>
        requires sound { IsSorted (words_in self.old) }
        requires within { NameWithin (length text.now) name }
        requires new { is_symbol (words_in self.old) (bytes_of text.now name) ≡ false }
        requires few { name_count (words_in self.old) < max_names }
        requires known { sort.0 < (words_in self.old).signature.sorts }
        ensures { OnOk result (words_in self.new ≡ with_element text.now (words_in self.old) sort.0 name) }
    {
        self.names.functions.insert(alloc, bytes(text, name))?;
        let _ = self.signature.add_listed_variable(alloc, sort)?;
        Ok(())
    }

    /// Adds the name of an axiom. Err: out of memory.
    pub fn add_axiom(&mut self, alloc: Global, text: &[u8], name: Name) -> Mem<()>
        requires within { NameWithin (length text.now) name }
        requires new { is_among (words_in self.old).names.axioms (bytes_of text.now name) ≡ false }
        requires few { name_count (words_in self.old) < max_names }
        ensures { OnOk result (words_in self.new ≡ with_axiom text.now (words_in self.old) name) }
    {
        self.names.axioms.insert(alloc, bytes(text, name))?;
        Ok(())
    }

    /// Adds the name of a conjecture. Err: out of memory.
    pub fn add_conjecture(&mut self, alloc: Global, text: &[u8], name: Name) -> Mem<()>
        requires within { NameWithin (length text.now) name }
        requires new { is_among (words_in self.old).names.conjectures (bytes_of text.now name) ≡ false }
        requires few { name_count (words_in self.old) < max_names }
        ensures { OnOk result (words_in self.new ≡ with_conjecture text.now (words_in self.old) name) }
    {
        self.names.conjectures.insert(alloc, bytes(text, name))?;
        Ok(())
    }

    /// Adds the name of an action. Err: out of memory.
    pub fn add_action(&mut self, alloc: Global, text: &[u8], name: Name) -> Mem<()>
        requires within { NameWithin (length text.now) name }
        requires new { is_among (words_in self.old).names.actions (bytes_of text.now name) ≡ false }
        requires few { name_count (words_in self.old) < max_names }
        ensures { OnOk result (words_in self.new ≡ with_action text.now (words_in self.old) name) }
    {
        self.names.actions.insert(alloc, bytes(text, name))?;
        Ok(())
    }

    /// Adds a derived relation, with the sorts of its parameters. Err: out of memory.
    pub fn add_definition(
        &mut self,
        alloc: Global,
        text: &[u8],
        name: Name,
        sorts: Sorts,
    ) -> Mem<()>
        requires within { NameWithin (length text.now) name }
        requires new { is_symbol (words_in self.old) (bytes_of text.now name) ≡ false }
        requires few { name_count (words_in self.old) < max_names }
        ensures { OnOk result (words_in self.new ≡ with_definition text.now (words_in self.old) name sorts) }
    {
        self.names.derived.insert(alloc, bytes(text, name))?;
        self.derived.push(sorts)?;
        Ok(())
    }
}

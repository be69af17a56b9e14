// What a signature declares.
ghost use Rattle.std.specs.Prelude.{◌≡◌, ◌<◌, ◌≤◌, ◌+◌, ◌^◌, [], ◌∷◌, ◌++◌, length, IfOk, OnOk, OnErr};
ghost use Rattle.fol_sig.specs.Tables.{IsSignature, AreSorts, numbers, function_numbers, is_listed};
ghost use Rattle.fol_sig.specs.Symbols.{symbols, AreSorted};
ghost use Rattle.fol_sig.specs.Arguments.{max_arguments};

use crate::{FunId, RelId, Sort, Sorts};
use base::Mem;
use std::alloc::Global;
use std::marker::Model;

/// The sorts, relations and functions of a model.
#[derive(Drop, Debug)]
pub struct Signature {
    sorts: u32,
    relations: Vec<Sorts>,
    functions: Vec<(Sorts, Sort)>,
    listed: Vec<FunId>,
}

impl Model for Signature {
    ghost use Rattle.fol_sig.specs.Tables.{Declared, IsSignature, function_numbers};

    ghost Value = { Declared };

    ghost view = { λ s. record {
      sorts = s.sorts;
      relations = s.relations.items;
      functions = s.functions.items;
      listed = function_numbers s.listed.items;
    } };

    ghost invariant = { λ s. IsSignature (record {
      sorts = s.sorts;
      relations = s.relations.items;
      functions = s.functions.items;
      listed = function_numbers s.listed.items;
    }) };
}

impl Signature {
    /// Each function with the sorts of its arguments and the sort of its values, and the functions that are
    /// listed.
    pub fn new(
        sorts: u32,
        relations: Vec<Sorts>,
        functions: Vec<(Sorts, Sort)>,
        listed: Vec<FunId>,
    ) -> Signature
        requires { IsSignature (record {
          sorts = sorts;
          relations = relations.items;
          functions = functions.items;
          listed = function_numbers listed.items;
        }) }
        ensures { result ≡ record {
          sorts = sorts;
          relations = relations.items;
          functions = functions.items;
          listed = function_numbers listed.items;
        } }
    {
        Signature {
            sorts,
            relations,
            functions,
            listed,
        }
    }

    /// The signature without sorts, to which `add_sort`, `add_relation`, `add_function` and
    /// `add_listed_variable` add.
    pub fn empty(alloc: Global) -> Signature
        ensures { result ≡ record { sorts = 0; relations = []; functions = []; listed = [] } }
    {
        Signature {
            sorts: 0,
            relations: Vec::new(alloc),
            functions: Vec::new(alloc),
            listed: Vec::new(alloc),
        }
    }

    /// A second signature that declares the same.
    pub fn copy(&self, alloc: Global) -> Mem<Signature>
        ensures { IfOk result (λ s. s ≡ self.now) }
    {
        let mut listed = Vec::new(alloc);
        listed.extend_from_slice(&self.listed)?;
        Ok(Signature {
            sorts: self.sorts,
            relations: copy_relations(alloc, &self.relations)?,
            functions: copy_functions(alloc, &self.functions)?,
            listed,
        })
    }

    /// Adds a sort behind the others.
    pub fn add_sort(&mut self) -> Sort
        requires { self.old.sorts + 1 < 2 ^ 32 }
        ensures sort { result.0 ≡ self.old.sorts }
        ensures added { self.new ≡ record self.old { sorts = self.old.sorts + 1 } }
    {
        let sort = Sort(self.sorts);
        self.sorts += 1;
        sort
    }

    /// Adds a relation, with the sorts of its arguments, behind the others. The signature is as before
    /// where the memory is wanting.
    pub fn add_relation(&mut self, sorts: Sorts) -> Mem<RelId>
        requires known { AreSorts self.old.sorts sorts }
        requires few { length self.old.relations + 1 < 2 ^ 32 }
        ensures id { IfOk result (λ r. r.0 ≡ length self.old.relations) }
        ensures added { OnOk result (self.new ≡ record self.old { relations = self.old.relations ++ sorts ∷ [] }) }
        ensures kept { OnErr result (self.new ≡ self.old) }
    {
        let id = RelId(self.relations.len() as u32);
        self.relations.push(sorts)?;
        Ok(id)
    }

    /// Adds a function, with the sorts of its arguments and the sort of its values, behind the others. The
    /// signature is as before where the memory is wanting.
    pub fn add_function(&mut self, from: Sorts, into: Sort) -> Mem<FunId>
        requires known { AreSorts self.old.sorts from }
        requires into_known { into.0 < self.old.sorts }
        requires few { length self.old.functions + 1 < 2 ^ 32 }
        ensures id { IfOk result (λ f. f.0 ≡ length self.old.functions) }
        ensures added { OnOk result
            (self.new ≡ record self.old { functions = self.old.functions ++ (from, into) ∷ [] }) }
        ensures kept { OnErr result (self.new ≡ self.old) }
    {
        let id = FunId(self.functions.len() as u32);
        self.functions.push((from, into))?;
        Ok(id)
    }

    /// Adds a variable behind the other functions, as a name of an element of its sort, which no command may
    /// write. The signature is as before where the memory is wanting.
    pub fn add_listed_variable(&mut self, alloc: Global, sort: Sort) -> Mem<FunId>
        requires known { sort.0 < self.old.sorts }
        requires few { length self.old.functions + 1 < 2 ^ 32 }
        ensures id { IfOk result (λ f. f.0 ≡ length self.old.functions) }
        ensures added { OnOk result (self.new ≡ record self.old {
          functions = self.old.functions ++ ([], sort) ∷ [];
          listed = self.old.listed ++ length self.old.functions ∷ [];
        }) }
        ensures kept { OnErr result (self.new ≡ self.old) }
    {
        let id = FunId(self.functions.len() as u32);
        // With room made first, only the push to the functions may fail.
        self.listed.reserve(1)?;
        self.functions.push((Sorts::new(alloc), sort))?;
        self.listed.push(id)?;
        Ok(id)
    }

    /// How many sorts there are.
    pub fn sorts(&self) -> u32
        ensures value { result ≡ self.now.sorts }
        ensures signature { IsSignature self.now }
        ensures sorted { AreSorted (symbols self.now) }
    {
        self.sorts
    }

    /// How many relations there are.
    pub fn relation_count(&self) -> u32
        ensures { result ≡ length self.now.relations }
    {
        self.relations.len() as u32
    }

    /// How many functions there are, those without arguments too.
    pub fn function_count(&self) -> u32
        ensures { result ≡ length self.now.functions }
    {
        self.functions.len() as u32
    }

    /// The sorts of a relation's arguments.
    pub fn sorts_of(&self, rel: RelId) -> &[Sort]
        requires { rel.0 < length self.now.relations }
        ensures value { numbers result.now ≡ (symbols self.now).sorts_of rel.0 }
        ensures few { length result.now ≤ max_arguments }
    {
        self.relations[rel.0 as usize].as_slice()
    }

    /// The sorts of a function's arguments.
    pub fn from_of(&self, fun: FunId) -> &[Sort]
        requires { fun.0 < length self.now.functions }
        ensures value { numbers result.now ≡ (symbols self.now).from_of fun.0 }
        ensures few { length result.now ≤ max_arguments }
    {
        self.functions[fun.0 as usize].0.as_slice()
    }

    /// The sort of a function's values.
    pub fn into_of(&self, fun: FunId) -> Sort
        requires { fun.0 < length self.now.functions }
        ensures { result.0 ≡ (symbols self.now).into_of fun.0 }
    {
        self.functions[fun.0 as usize].1
    }

    /// Whether a function is listed: a name of an element of its sort, which no command may write.
    pub fn is_listed(&self, fun: FunId) -> bool
        ensures { result ≡ is_listed self.now fun.0 }
    {
        self.listed.contains(&fun)
    }

    pub(crate) fn relations(&self) -> &[Sorts]
        ensures value { result.now ≡ self.now.relations }
        ensures signature { IsSignature self.now }
    {
        &self.relations
    }

    pub(crate) fn functions(&self) -> &[(Sorts, Sort)]
        ensures value { result.now ≡ self.now.functions }
        ensures signature { IsSignature self.now }
    {
        &self.functions
    }
}

fn copy_relations(alloc: Global, relations: &[Sorts]) -> Mem<Vec<Sorts>>
    ensures { IfOk result (λ all. all.items ≡ relations.now) }
{
    let mut all = Vec::new(alloc);
    for sorts in relations {
        all.push(sorts.copy())?;
    }
    Ok(all)
}

fn copy_functions(alloc: Global, functions: &[(Sorts, Sort)]) -> Mem<Vec<(Sorts, Sort)>>
    ensures { IfOk result (λ all. all.items ≡ functions.now) }
{
    let mut all = Vec::new(alloc);
    for (from, into) in functions {
        all.push((from.copy(), *into))?;
    }
    Ok(all)
}

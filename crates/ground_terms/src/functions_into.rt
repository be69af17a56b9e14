// The functions into each sort, so that what goes over the sorts goes over each function once.
ghost use Rattle.std.specs.Prelude.{◌≡◌, ◌<◌, [], length, map, replicate, slice_index_or, IfOk};
ghost use Rattle.fol_sig.specs.Symbols.{symbols};
ghost use Rattle.ground_terms.specs.FunctionRows.{AreFunctionRows};

use base::Mem;
use fol_sig::{FunId, Signature, Sort};
use std::alloc::Global;
use std::marker::Model;

/// For each sort the functions into it, in order.
#[derive(Drop, Debug)]
pub struct FunctionsInto {
    rows: Vec<Vec<FunId>>,
}

impl Model for FunctionsInto {
    ghost use Rattle.std.specs.Prelude.{ℕ, List, map};

    ghost Value = { List (List ℕ) };

    ghost view = { λ t. map (λ v. map (λ f. f.0) v.items) t.rows.items };
}

impl FunctionsInto {
    /// The functions of a signature. An error is want of memory.
    pub fn new(alloc: Global, signature: &Signature) -> Mem<FunctionsInto>
        ensures { IfOk result (AreFunctionRows (symbols signature.now) (length signature.now.functions)) }
    {
        let mut rows = empty_rows(alloc, signature.sorts())?;
        for f in 0..signature.function_count() {
            let into = signature.into_of(FunId(f));
            rows[into.0 as usize].push(FunId(f))?;
        }
        Ok(FunctionsInto { rows })
    }

    /// The functions into a sort.
    pub fn of_sort(&self, sort: Sort) -> &[FunId]
        requires { sort.0 < length self.now }
        ensures { map (λ f. f.0) result.now ≡ slice_index_or self.now sort.0 [] }
    {
        &self.rows[sort.0 as usize]
    }
}

// An empty row for each of so many sorts.
fn empty_rows(alloc: Global, sorts: u32) -> Mem<Vec<Vec<FunId>>>
    ensures { IfOk result (λ rows. map (λ v. map (λ f. f.0) v.items) rows.items ≡ replicate sorts []) }
{
    let mut rows = Vec::new(alloc);
    for _k in 0..sorts {
        rows.push(Vec::new(alloc))?;
    }
    Ok(rows)
}

// Rows of numbers, one for each sort.
ghost use Rattle.std.specs.Prelude.{◌≡◌, ◌<◌, [], ◌∷◌, ◌++◌, length, OnOk};
ghost use Rattle.structure_back.specs.Rows.{row_of, looked_up, with_number};

use base::Mem;
use fol_sig::Sort;
use std::alloc::Global;
use std::marker::Model;

/// A number for each term, or for each element, of each sort.
#[derive(Drop)]
pub struct PerSort {
    rows: Vec<Vec<u32>>,
}

impl Model for PerSort {
    ghost use Rattle.std.specs.Prelude.{map};
    ghost use Rattle.structure_back.specs.Rows.{Rows};

    ghost Value = { Rows };

    ghost view = { λ s. map (λ v. v.items) s.rows.items };
}

impl PerSort {
    pub fn new(alloc: Global) -> PerSort
        ensures { result ≡ [] }
    {
        PerSort {
            rows: Vec::new(alloc),
        }
    }

    /// Adds the row of the next sort.
    pub fn push(&mut self, row: Vec<u32>) -> Mem<()>
        ensures { OnOk result (self.new ≡ self.old ++ row.items ∷ []) }
    {
        self.rows.push(row)?;
        Ok(())
    }

    pub fn row(&self, sort: Sort) -> &[u32]
        requires { sort.0 < length self.now }
        ensures { result.now ≡ row_of self.now sort.0 }
    {
        &self.rows[sort.0 as usize]
    }

    pub fn get(&self, sort: Sort, place: u32) -> u32
        requires known { sort.0 < length self.now }
        requires within { place < length (row_of self.now sort.0) }
        ensures { result ≡ looked_up self.now sort.0 place }
    {
        let row = self.row(sort);
        row[place as usize]
    }

    pub fn set(&mut self, sort: Sort, place: u32, number: u32)
        requires known { sort.0 < length self.old }
        requires within { place < length (row_of self.old sort.0) }
        ensures { self.new ≡ with_number self.old sort.0 place number }
    {
        let row = &mut self.rows[sort.0 as usize];
        row[place as usize] = number;
    }
}

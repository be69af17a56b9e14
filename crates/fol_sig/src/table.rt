// The values of a symbol.
ghost use Rattle.std.specs.Prelude.{◌≡◌, ◌<◌, false, [], length, reverse, All, IfOk};
ghost use Rattle.std.specs.List.{filter};
ghost use Rattle.fol_sig.specs.Tables.{InRange, tuple_count, filled, cell_at, with_cell};
ghost use Rattle.fol_sig.specs.Tuples.{tuples};
ghost use Rattle.fol_sig.specs.Updates.{cells_from};
ghost use Rattle.fol_sig.specs.TupleSets.{has_tuple};

use crate::tuples::{number_of_tuple, table_len, tuple_of_number};
use crate::{Sorts, Tuple};
use base::Mem;
use std::alloc::Global;
use std::marker::Model;

/// A value for each tuple of elements of the argument sorts, in lexicographic order.
#[derive(Drop, Debug)]
pub struct Table<T> {
    sorts: Sorts,
    cells: Vec<T>,
}

impl<T> Model for Table<T> {
    ghost use Rattle.fol_sig.specs.Tables.{TableOf};

    ghost Value = { TableOf T };

    ghost view = { λ t. record { sorts = t.sorts; cells = t.cells.items } };
}

impl<T> Table<T> {
    /// The table with these cells, one for each tuple of elements of these sorts in lexicographic order.
    pub fn new(sorts: Sorts, cells: Vec<T>) -> Table<T>
        ensures { result ≡ record { sorts = sorts; cells = cells.items } }
    {
        Table { sorts, cells }
    }

    pub(crate) fn into_cells(self) -> Vec<T>
        ensures { result.items ≡ self.cells }
    {
        let Table { sorts: _, cells } = self;
        cells
    }
}

impl<T: Copy> Table<T> {
    /// The table that has one value everywhere.
    pub(crate) fn filled(alloc: Global, sizes: &[u32], sorts: &Sorts, value: T) -> Mem<Table<T>>
        requires { All (λ k. k < length sizes.now) sorts.now }
        ensures { IfOk result (λ t. t ≡ filled sizes.now sorts.now value) }
    {
        let mut cells = Vec::new(alloc);
        cells.resize(table_len(sizes, sorts.as_slice())?, value)?;
        Ok(Table {
            sorts: sorts.copy(),
            cells,
        })
    }

    pub(crate) fn copy(&self, alloc: Global) -> Mem<Table<T>>
        ensures { IfOk result (λ t. t ≡ self.now) }
    {
        let mut cells = Vec::new(alloc);
        cells.extend_from_slice(&self.cells)?;
        Ok(Table {
            sorts: self.sorts.copy(),
            cells,
        })
    }

    pub(crate) fn sorts(&self) -> &Sorts
        ensures { result.now ≡ self.now.sorts }
    {
        &self.sorts
    }

    pub(crate) fn cell(&self, sizes: &[u32], tuple: &[u32]) -> T
        requires sorted { All (λ k. k < length sizes.now) self.now.sorts }
        requires full { length self.now.cells ≡ tuple_count sizes.now self.now.sorts }
        requires in_range { InRange sizes.now self.now.sorts tuple.now }
        ensures { (other : T) → result ≡ cell_at sizes.now self.now tuple.now other }
    {
        self.cells[number_of_tuple(sizes, self.sorts.as_slice(), tuple)]
    }

    pub(crate) fn set_cell(&mut self, sizes: &[u32], tuple: &[u32], value: T)
        requires sorted { All (λ k. k < length sizes.now) self.old.sorts }
        requires full { length self.old.cells ≡ tuple_count sizes.now self.old.sorts }
        requires in_range { InRange sizes.now self.old.sorts tuple.now }
        ensures { self.new ≡ with_cell sizes.now self.old tuple.now value }
    {
        let at = number_of_tuple(sizes, self.sorts.as_slice(), tuple);
        self.cells[at] = value;
    }

    pub(crate) fn set_cells(&mut self, cells: Vec<T>)
        ensures { self.new ≡ record { sorts = self.old.sorts; cells = cells.items } }
    {
        self.cells = cells;
    }
}

impl Table<bool> {
    /// The table that is true of these tuples and of no others.
    pub(crate) fn of_tuples(
        alloc: Global,
        sizes: &[u32],
        sorts: &Sorts,
        tuples: &[Tuple],
    ) -> Mem<Table<bool>>
        requires sorted { All (λ k. k < length sizes.now) sorts.now }
        requires in_range { All (InRange sizes.now sorts.now) tuples.now }
        ensures full { IfOk result (λ t. length t.cells ≡ tuple_count sizes.now sorts.now) }
        ensures cells { IfOk result
            (λ t. t.cells ≡ cells_from sizes.now (λ tuple. has_tuple tuples.now (reverse tuple)) sorts.now []) }
    {
        let mut table = Table::filled(alloc, sizes, sorts, false)?;
        for tuple in tuples {
            table.set_cell(sizes, tuple.as_slice(), true);
        }
        Ok(table)
    }

    /// The tuples at which it is true, in lexicographic order.
    pub(crate) fn true_tuples(&self, alloc: Global, sizes: &[u32]) -> Mem<Vec<Tuple>>
        requires sorted { All (λ k. k < length sizes.now) self.now.sorts }
        requires full { length self.now.cells ≡ tuple_count sizes.now self.now.sorts }
        ensures { IfOk result (λ found. found.items
            ≡ filter (λ tuple. cell_at sizes.now self.now tuple false) (tuples sizes.now self.now.sorts)) }
    {
        let mut found = Vec::new(alloc);
        for number in 0..self.cells.len() {
            if !self.cells[number] {
                continue;
            }
            found.push(tuple_of_number(alloc, sizes, self.sorts.as_slice(), number))?;
        }
        Ok(found)
    }
}

// Finite structures.
ghost use Rattle.std.specs.Prelude.{◌≡◌, ◌<◌, ◌↔◌, IsTrue, length, All, IfOk, OnOk, OnErr, map};
ghost use Rattle.fol_sig.specs.Tables.{numbers, AreSorts, InRange, tuple_count, size_at, rel_at, fun_at, relation_at};
ghost use Rattle.fol_sig.specs.Tables.{function_at};
ghost use Rattle.fol_sig.specs.Tables.{blank_relation, blank_function, blank, IsStructure};
ghost use Rattle.fol_sig.specs.Symbols.{Symbols, FitsStructure, symbols};
ghost use Rattle.fol_sig.specs.SymbolTables.{HasSymbol, arguments_of};
ghost use Rattle.fol_sig.specs.Constants.{reduct};
ghost use Rattle.fol_sig.specs.Updates.{SetsRelation, SetsFunction, with_rel_at, with_fun_at};
ghost use Rattle.fol_sig.specs.Updates.{with_relation_cells, with_function_cells};
ghost use Rattle.fol_sig.specs.TupleSets.{are_in_range, with_tuples, tuples_of};

use crate::table::Table;
use crate::tuples::are_in_range;
use crate::{FunId, RelId, Signature, Sort, Sorts, Symbol, Tuple};
use base::Mem;
use std::alloc::Global;
use std::marker::Model;

/// The table of a function, whose cells are elements of one sort.
#[derive(Drop, Debug)]
pub struct Function {
    table: Table<u32>,
    into: Sort,
}

impl Model for Function {
    ghost use Rattle.fol_sig.specs.Tables.{FunctionTable};

    ghost Value = { FunctionTable };

    ghost view = { λ t. record { sorts = t.table.sorts; into = t.into.0; cells = t.table.cells } };
}

impl Function {
    /// The function with this table, whose cells are elements of this sort.
    pub fn new(table: Table<u32>, into: Sort) -> Function
        ensures { result ≡ record { sorts = table.sorts; into = into.0; cells = table.cells } }
    {
        Function { table, into }
    }
}

/// A finite structure of a signature. The elements of a sort are the numbers below its size.
#[derive(Drop, Debug)]
pub struct Structure {
    sizes: Vec<u32>,
    relations: Vec<Table<bool>>,
    functions: Vec<Function>,
}

impl Model for Structure {
    ghost use Rattle.fol_sig.specs.Tables.{Tables, IsStructure};

    ghost Value = { Tables };

    ghost view = { λ s. record {
      sizes = s.sizes.items;
      relations = s.relations.items;
      functions = s.functions.items;
    } };

    ghost invariant = { λ s. IsStructure
        (record { sizes = s.sizes.items; relations = s.relations.items; functions = s.functions.items }) };
}

impl Structure {
    /// The structure of these sizes whose relations are false and whose functions are 0 everywhere.
    pub fn new(alloc: Global, signature: &Signature, sizes: &[u32]) -> Mem<Structure>
        requires sorts { length sizes.now ≡ signature.now.sorts }
        requires positive { All (λ n. 0 < n) sizes.now }
        ensures value { IfOk result (λ s. s ≡ blank signature.now sizes.now) }
        ensures fits { IfOk result (λ s. FitsStructure (symbols signature.now) s) }
    {
        let relations = blank_relations(alloc, sizes, signature.relations())?;
        let functions = blank_functions(alloc, sizes, signature.functions())?;
        let mut own = Vec::new(alloc);
        own.extend_from_slice(sizes)?;
        Ok(Structure {
            sizes: own,
            relations,
            functions,
        })
    }

    /// A second structure with the same sizes and tables.
    pub fn copy(&self, alloc: Global) -> Mem<Structure>
        ensures { IfOk result (λ s. s ≡ self.now) }
    {
        let relations = copy_relations(alloc, &self.relations)?;
        let functions = copy_functions(alloc, &self.functions)?;
        let mut sizes = Vec::new(alloc);
        sizes.extend_from_slice(&self.sizes)?;
        Ok(Structure {
            sizes,
            relations,
            functions,
        })
    }

    /// How many elements a sort has: they are the numbers below.
    pub fn size(&self, sort: Sort) -> u32
        requires { sort.0 < length self.now.sizes }
        ensures { result ≡ size_at self.now sort.0 }
    {
        self.sizes[sort.0 as usize]
    }

    /// The truth value of a relation at a tuple, which has an element of each argument sort.
    pub fn rel(&self, rel: RelId, tuple: &[u32]) -> bool
        requires known { rel.0 < length self.now.relations }
        requires in_range { InRange self.now.sizes (relation_at self.now rel.0).sorts tuple.now }
        ensures { result ≡ rel_at self.now rel.0 tuple.now }
    {
        self.relations[rel.0 as usize].cell(&self.sizes, tuple)
    }

    /// The element that a function gives at a tuple, which has an element of each argument sort.
    pub fn fun(&self, fun: FunId, tuple: &[u32]) -> u32
        requires known { fun.0 < length self.now.functions }
        requires in_range { InRange self.now.sizes (function_at self.now fun.0).sorts tuple.now }
        ensures { result ≡ fun_at self.now fun.0 tuple.now }
    {
        self.functions[fun.0 as usize]
            .table
            .cell(&self.sizes, tuple)
    }

    /// Sets one cell of a relation's table.
    pub fn set_rel(&mut self, rel: RelId, tuple: &[u32], value: bool)
        requires known { rel.0 < length self.old.relations }
        requires in_range { InRange self.old.sizes (relation_at self.old rel.0).sorts tuple.now }
        ensures value { self.new ≡ with_rel_at self.old rel.0 tuple.now value }
        ensures set { SetsRelation self.old self.new rel.0 tuple.now value }
        ensures fits { (sig : Symbols) → FitsStructure sig self.old → FitsStructure sig self.new }
    {
        let table = &mut self.relations[rel.0 as usize];
        table.set_cell(&self.sizes, tuple, value);
    }

    /// Sets one cell of a function's table.
    pub fn set_fun(&mut self, fun: FunId, tuple: &[u32], value: u32)
        requires known { fun.0 < length self.old.functions }
        requires in_range { InRange self.old.sizes (function_at self.old fun.0).sorts tuple.now }
        requires within { value < size_at self.old (function_at self.old fun.0).into }
        ensures value { self.new ≡ with_fun_at self.old fun.0 tuple.now value }
        ensures set { SetsFunction self.old self.new fun.0 tuple.now value }
        ensures fits { (sig : Symbols) → FitsStructure sig self.old → FitsStructure sig self.new }
    {
        let function = &mut self.functions[fun.0 as usize];
        function.table.set_cell(&self.sizes, tuple, value);
    }

    /// The sorts of a relation's arguments.
    pub fn relation_sorts(&self, rel: RelId) -> &[Sort]
        requires { rel.0 < length self.now.relations }
        ensures { numbers result.now ≡ (relation_at self.now rel.0).sorts }
    {
        self.relations[rel.0 as usize].sorts().as_slice()
    }

    /// The sorts of a function's arguments.
    pub fn function_sorts(&self, fun: FunId) -> &[Sort]
        requires { fun.0 < length self.now.functions }
        ensures { numbers result.now ≡ (function_at self.now fun.0).sorts }
    {
        self.functions[fun.0 as usize].table.sorts().as_slice()
    }

    /// The sort of a function's values.
    pub fn function_into(&self, fun: FunId) -> Sort
        requires { fun.0 < length self.now.functions }
        ensures { result.0 ≡ (function_at self.now fun.0).into }
    {
        self.functions[fun.0 as usize].into
    }

    /// The sorts of a symbol's arguments.
    pub fn arguments(&self, symbol: Symbol) -> &[Sort]
        requires { HasSymbol self.now symbol }
        ensures { numbers result.now ≡ arguments_of self.now symbol }
    {
        match symbol {
            Symbol::Relation(rel) => self.relation_sorts(rel),
            Symbol::Function(fun) => self.function_sorts(fun),
        }
    }

    /// Puts other cells into a relation's table, one for each tuple in lexicographic order.
    pub fn set_relation_cells(&mut self, rel: RelId, cells: Vec<bool>)
        requires known { rel.0 < length self.old.relations }
        requires full { length cells.items ≡ tuple_count self.old.sizes (relation_at self.old rel.0).sorts }
        ensures value { self.new ≡ with_relation_cells self.old rel.0 cells.items }
        ensures fits { (sig : Symbols) → FitsStructure sig self.old → FitsStructure sig self.new }
    {
        self.relations[rel.0 as usize].set_cells(cells);
    }

    /// Whether each of these tuples has an element of each of a relation's argument sorts, and no more.
    pub fn are_in_range(&self, rel: RelId, tuples: &[Tuple]) -> bool
        requires { rel.0 < length self.now.relations }
        ensures value { result ≡ are_in_range self.now.sizes (relation_at self.now rel.0).sorts tuples.now }
        ensures decides { IsTrue result ↔ All (InRange self.now.sizes (relation_at self.now rel.0).sorts) tuples.now }
    {
        let answer = self.all_in_range(rel, tuples);
        answer
    }

    fn all_in_range(&self, rel: RelId, tuples: &[Tuple]) -> bool
        requires { rel.0 < length self.now.relations }
        ensures { result ≡ are_in_range self.now.sizes (relation_at self.now rel.0).sorts tuples.now }
    {
        are_in_range(&self.sizes, self.relation_sorts(rel), tuples)
    }

    /// Makes a relation true of these tuples and of no others. The structure is as before where the memory
    /// is wanting.
    pub fn set_tuples(&mut self, alloc: Global, rel: RelId, tuples: &[Tuple]) -> Mem<()>
        requires known { rel.0 < length self.old.relations }
        requires in_range { All (InRange self.old.sizes (relation_at self.old rel.0).sorts) tuples.now }
        ensures set { OnOk result (self.new ≡ with_tuples self.old rel.0 tuples.now) }
        ensures kept { OnErr result (self.new ≡ self.old) }
        ensures fits { (sig : Symbols) → FitsStructure sig self.old → FitsStructure sig self.new }
    {
        let sorts = self.relations[rel.0 as usize].sorts();
        let table = Table::of_tuples(alloc, &self.sizes, sorts, tuples)?;
        self.set_relation_cells(rel, table.into_cells());
        Ok(())
    }

    /// The tuples of which a relation is true, in lexicographic order.
    pub fn tuples_of(&self, alloc: Global, rel: RelId) -> Mem<Vec<Tuple>>
        requires { rel.0 < length self.now.relations }
        ensures { IfOk result (λ found. found.items ≡ tuples_of self.now rel.0) }
    {
        let found = self.relations[rel.0 as usize].true_tuples(alloc, &self.sizes)?;
        Ok(found)
    }

    /// Puts other cells into a function's table, one for each tuple in lexicographic order.
    pub fn set_function_cells(&mut self, fun: FunId, cells: Vec<u32>)
        requires known { fun.0 < length self.old.functions }
        requires full { length cells.items ≡ tuple_count self.old.sizes (function_at self.old fun.0).sorts }
        requires within { All (λ x. x < size_at self.old (function_at self.old fun.0).into) cells.items }
        ensures value { self.new ≡ with_function_cells self.old fun.0 cells.items }
        ensures fits { (sig : Symbols) → FitsStructure sig self.old → FitsStructure sig self.new }
    {
        self.functions[fun.0 as usize].table.set_cells(cells);
    }

    /// A second structure with the tables of the signature's relations and functions, and without those behind them.
    pub fn reduct(&self, alloc: Global, signature: &Signature) -> Mem<Structure>
        ensures { IfOk result (λ s. s ≡ reduct (symbols signature.now) self.now) }
    {
        let relations = self
            .relations
            .len()
            .min(signature.relation_count() as usize);
        let functions = self
            .functions
            .len()
            .min(signature.function_count() as usize);
        let relations = copy_relations(alloc, &self.relations[..relations])?;
        let functions = copy_functions(alloc, &self.functions[..functions])?;
        let mut sizes = Vec::new(alloc);
        sizes.extend_from_slice(&self.sizes)?;
        Ok(Structure {
            sizes,
            relations,
            functions,
        })
    }

    /// Drops the relations and functions behind those of the signature.
    pub fn restrict(&mut self, signature: &Signature)
        ensures { self.new ≡ reduct (symbols signature.now) self.old }
    {
        self.relations.truncate(signature.relation_count() as usize);
        self.functions.truncate(signature.function_count() as usize);
    }
}

fn blank_relations(alloc: Global, sizes: &[u32], declared: &[Sorts]) -> Mem<Vec<Table<bool>>>
    requires { All (AreSorts (length sizes.now)) declared.now }
    ensures { IfOk result (λ ts. ts.items ≡ map (blank_relation sizes.now) declared.now) }
{
    let mut all = Vec::new(alloc);
    for sorts in declared {
        all.push(Table::filled(alloc, sizes, sorts, false)?)?;
    }
    Ok(all)
}

fn blank_functions(alloc: Global, sizes: &[u32], declared: &[(Sorts, Sort)]) -> Mem<Vec<Function>>
    requires { All (λ f. AreSorts (length sizes.now) f.0 × (f.1.0 < length sizes.now)) declared.now }
    ensures { IfOk result (λ ts. ts.items ≡ map (λ f. blank_function sizes.now f.0 f.1.0) declared.now) }
{
    let mut all = Vec::new(alloc);
    for (sorts, into) in declared {
        let table = Table::filled(alloc, sizes, sorts, 0)?;
        all.push(Function { table, into: *into })?;
    }
    Ok(all)
}

fn copy_relations(alloc: Global, tables: &[Table<bool>]) -> Mem<Vec<Table<bool>>>
    ensures { IfOk result (λ ts. ts.items ≡ tables.now) }
{
    let mut all = Vec::new(alloc);
    for table in tables {
        all.push(table.copy(alloc)?)?;
    }
    Ok(all)
}

fn copy_functions(alloc: Global, functions: &[Function]) -> Mem<Vec<Function>>
    ensures { IfOk result (λ ts. ts.items ≡ functions.now) }
{
    let mut all = Vec::new(alloc);
    for function in functions {
        let table = function.table.copy(alloc)?;
        let into = function.into;
        all.push(Function { table, into })?;
    }
    Ok(all)
}

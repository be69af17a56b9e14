// A sink that writes clauses as it is called.
ghost use Rattle.std.specs.Prelude.{◌≡◌, ◌≤◌, List, [], ◌∷◌, ◌++◌, length, OnOk, OnErr, IfOk};
ghost use Rattle.ground_terms.specs.Calls.{Call, a_node, calls_of_all};
ghost use Rattle.ground_terms.specs.Trees.{Trees};
ghost use Rattle.ground_terms.specs.View.{trees};
ghost use Rattle.clause_form.specs.Clauses.{clause_form};
ghost use Rattle.clause_form.specs.Meaning.{atoms_of};
ghost use Rattle.clause_form.specs.declared.board.TheConstants.{LIMIT};

use crate::AtomMap;
use crate::atom_table::AtomTable;
use crate::board::{Board, LIMIT};
use crate::stack::Stack;
use base::{Mem, Row};
use cnf_base::{Cnf, entry_laws, opposite_laws};
use fol_sig::Signature;
use ground_terms::{Atom, AtomNumbers, Ground, GroundSink, Junction, feed_all};
use std::alloc::Global;

/// Writes the clauses of the formulas whose calls it takes. Where they have more than 2147483647 variables it goes on
/// taking calls, and writes nothing more.
#[derive(Drop)]
pub struct Clauser {
    board: Board,
    full: bool,
    ghost limit: { board.variables ≤ LIMIT },
}

impl Clauser {
    ghost use Rattle.clause_form.specs.Stands.{Stands};

    /// `counts` says how many terms each sort has. The atoms of this signature over so many terms are found fastest;
    /// any others are taken too.
    pub fn new(alloc: Global, signature: &Signature, counts: &[u32]) -> Mem<Clauser>
        requires { length counts.now ≡ signature.now.sorts }
        ensures { IfOk result (λ clauser. Stands clauser []) }
    {
        let numbers = AtomNumbers::new(alloc, signature, counts)?;
        let board = Board {
            alloc,
            variables: 0,
            atoms: AtomTable::new(alloc, numbers),
            nodes: Stack::new(alloc),
            lits: Vec::new(alloc),
            clauses: Vec::new(alloc),
        };
        Ok(Clauser { board, full: false })
    }

    fn node(&mut self, junction: Junction, parts: u64) -> Mem<()>
        ensures taken { OnOk result ((calls : List Call) → Stands self.old calls
            → Stands self.new (calls ++ a_node junction parts ∷ [])) }
        ensures refused { OnErr result ((calls : List Call) → Stands self.old calls → Stands self.new calls) }
    {
        if self.full {
            return Ok(());
        }
        self.board.settle()?;
        if self.board.variables == LIMIT {
            self.full = true;
            return Ok(());
        }
        self.board.node(junction, parts)?;
        Ok(())
    }

    /// The clauses, and the variables of the atoms.
    pub fn finish(self) -> Mem<(Cnf, AtomMap)>
        requires { (ps : Trees) × Stands self (calls_of_all ps) × ((clause_form ps).variables ≤ LIMIT) }
        ensures { IfOk result (λ made. (ps : Trees) → Stands self (calls_of_all ps) → (clause_form ps).variables ≤ LIMIT
            → (made.0 ≡ clause_form ps) × (made.1 ≡ atoms_of ps)) }
    {
        opposite_laws();
        entry_laws();
        let mut board = self.board;
        board.settle()?;
        let cnf = Cnf::new(board.variables, Row::from_vec(board.clauses));
        Ok((cnf, board.atoms.into_map()))
    }
}

impl GroundSink for Clauser {
    ghost use Rattle.clause_form.specs.Stands.{Stands};

    ghost stands = { Stands };

    fn and(&mut self, parts: u64) -> Mem<()> {
        self.node(Junction::And, parts)
    }

    fn or(&mut self, parts: u64) -> Mem<()> {
        self.node(Junction::Or, parts)
    }

    fn literal(&mut self, atom: Atom, positive: bool) -> Mem<()> {
        if self.full {
            return Ok(());
        }
        self.board.settle()?;
        if !self.board.literal(atom, positive)? {
            self.full = true;
        }
        Ok(())
    }
}

/// The clauses of formulas, and the variables of their atoms. `counts` says how many terms of the signature each sort
/// has.
pub fn clauses(
    alloc: Global,
    signature: &Signature,
    counts: &[u32],
    formulas: &[Ground],
) -> Mem<(Cnf, AtomMap)>
    requires counted { length counts.now ≡ signature.now.sorts }
    requires few { (clause_form (trees formulas.now)).variables ≤ LIMIT }
    ensures { IfOk result (λ made. (made.0 ≡ clause_form (trees formulas.now))
        × (made.1 ≡ atoms_of (trees formulas.now))) }
{
    let mut clauser = Clauser::new(alloc, signature, counts)?;
    feed_all(&mut clauser, formulas)?;
    let made = clauser.finish()?;
    Ok(made)
}

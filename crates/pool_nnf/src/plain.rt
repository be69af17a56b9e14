// Terms in which no `Ite` stands. Such a term has one leaf, which is the term itself, so an atom over such terms stays.
ghost use Rattle.std.specs.Prelude.{◌≡◌, ◌↔◌, IfOk, IsTrue};
ghost use Rattle.fol_formula.specs.Fragments.{IsIteFree, AreIteFree, IsNormalForm};
ghost use Rattle.fol_nnf.specs.Atoms.{IsAtom};
ghost use Rattle.fol_nnf.specs.Normal.{normal, leaves};
ghost use Rattle.fol_pool.specs.Trees.{IsAt, Grows, HasForm, HasTerm, HasTerms, a_form, a_term, form_at, term_at};
ghost use Rattle.fol_pool.specs.Trees.{terms_at};
ghost use Rattle.pool_nnf.specs.Leaves.{AreLeaves};

use crate::leaf::Leaf;
use crate::normals::Normals;
use base::Mem;
use fol_pool::{Node, Shape};
use std::alloc::Global;

impl Normals {
    /// Whether no `Ite` stands in a term. Err: out of memory.
    #[cycle(plain)]
    pub fn is_plain_term(&mut self, at: Node) -> Mem<bool>
        requires { HasTerm self.old at.0 }
        ensures plain { IfOk result (λ plain. IsTrue plain ↔ IsIteFree (term_at self.old at.0)) }
        ensures kept { self.new ≡ self.old }
    {
        if self.is_known_plain(at) {
            return Ok(true);
        }
        let plain = self.is_found_plain(at)?;
        if plain {
            self.note_plain(at)?;
        }
        Ok(plain)
    }

    // The same where that was not found yet.
    #[cycle(plain)]
    fn is_found_plain(&mut self, at: Node) -> Mem<bool>
        requires { HasTerm self.old at.0 }
        ensures plain { IfOk result (λ plain. IsTrue plain ↔ IsIteFree (term_at self.old at.0)) }
        ensures kept { self.new ≡ self.old }
    {
        match self.shape(at) {
            Shape::Bound(_) => Ok(true),
            Shape::App(_, args) => self.is_plain_row(args),
            Shape::Ite(_, _, _) => Ok(false),
            _ => unreachable!(),
        }
    }

    // Whether no `Ite` stands in a row of terms.
    #[cycle(plain)]
    fn is_plain_row(&mut self, row: Node) -> Mem<bool>
        requires { HasTerms self.old row.0 }
        ensures plain { IfOk result (λ plain. IsTrue plain ↔ AreIteFree (terms_at self.old row.0)) }
        ensures kept { self.new ≡ self.old }
    {
        match self.shape(row) {
            Shape::NoTerms => Ok(true),
            Shape::TermThen(first, rest) => {
                let plain = self.is_plain_term(first)?;
                if plain {
                    return self.is_plain_row(rest);
                }
                Ok(false)
            }
            _ => unreachable!(),
        }
    }

    /// Whether no `Ite` stands in an atom.
    pub fn is_plain_atom(&mut self, at: Node) -> Mem<bool>
        requires form { HasForm self.old at.0 }
        requires atom { IsAtom (form_at self.old at.0) }
        ensures plain { IfOk result (λ plain. IsTrue plain ↔ IsNormalForm (form_at self.old at.0)) }
        ensures kept { self.new ≡ self.old }
    {
        match self.shape(at) {
            Shape::Rel(_, args) => self.is_plain_row(args),
            Shape::Eq(a, b) => {
                let plain = self.is_plain_term(a)?;
                if plain {
                    return self.is_plain_term(b);
                }
                Ok(false)
            }
            _ => unreachable!(),
        }
    }

    /// The normal form of an atom without `Ite`, or of its negation.
    pub fn plain_literal(&mut self, positive: bool, atom: Node) -> Mem<Node>
        requires form { HasForm self.old atom.0 }
        requires atom { IsAtom (form_at self.old atom.0) }
        requires plain { IsNormalForm (form_at self.old atom.0) }
        ensures node { IfOk result
            (λ node. IsAt self.new node.0 (a_form (normal positive (form_at self.old atom.0)))) }
        ensures grows { Grows self.old self.new }
    {
        fol_nnf::plainness();
        let node = self.literal(positive, atom)?;
        Ok(node)
    }

    /// The one leaf of a term without `Ite`.
    pub fn plain_leaves(&mut self, alloc: Global, at: Node) -> Mem<Vec<Leaf>>
        requires term { HasTerm self.old at.0 }
        requires plain { IsIteFree (term_at self.old at.0) }
        ensures leaves { IfOk result (λ ls. AreLeaves a_term self.new ls.items (leaves (term_at self.old at.0))) }
        ensures grows { Grows self.old self.new }
    {
        fol_nnf::plainness();
        let all = self.bare(alloc, at)?;
        Ok(all)
    }
}

// One derived relation, and whether it is true of a tuple.
ghost use Rattle.std.specs.Prelude.{◌≡◌, ◌++◌, reverse};
ghost use Rattle.fol_sig.specs.Tables.{InRange, reading};
ghost use Rattle.fol_formula.specs.View.{form};
ghost use Rattle.fol_formula.specs.Truth.{truth};
ghost use Rattle.fol_formula.specs.Fits.{HasTruth};
ghost use Rattle.fol_eval.specs.Elements.{elements};
ghost use Rattle.told_derived.specs.Definitions.{CanAsk, is_true_of};

use fol_eval::{Env, holds};
use fol_formula::Formula;
use fol_sig::{Sort, Structure};
use std::marker::Model;

/// A derived relation: its name, the sorts of its parameters, and its right side, in which they are free, the last
/// one 0.
#[derive(Drop)]
pub struct Derived<'a> {
    pub name: &'a [u8],
    pub sorts: &'a [Sort],
    pub body: &'a Formula,
}

impl<'a> Model for Derived<'a> {
    ghost use Rattle.std.specs.Coded.{codes};
    ghost use Rattle.fol_sig.specs.Tables.{numbers};
    ghost use Rattle.fol_formula.specs.Code.{form_code};
    ghost use Rattle.fol_formula.specs.View.{form};
    ghost use Rattle.told_derived.specs.Definitions.{Derived};

    ghost Value = { Derived };

    ghost coded = { Prim.hlevel (codes, form_code) };

    ghost view = { λ d. record { name = d.name.now; sorts = numbers d.sorts.now; body = form d.body.now } };
}

// Whether the formula is true where the elements of the tuple stand before those of `env`, the last one first.
fn holds_at(structure: &Structure, formula: &Formula, tuple: &[u32], env: &Env) -> bool
    requires { HasTruth structure.now (form formula.now) (reverse tuple.now ++ elements env.now) }
    ensures { result ≡ truth (reading structure.now) (form formula.now) (reverse tuple.now ++ elements env.now) }
{
    match tuple.split_first() {
        None => holds(structure, formula, env),
        Some((element, rest)) => {
            let inner = Env::Bind {
                element: *element,
                outer: &*env,
            };
            holds_at(structure, formula, rest, &inner)
        }
    }
}

impl<'a> Derived<'a> {
    /// Whether it is true of a tuple.
    pub fn is_true_of(&self, structure: &Structure, tuple: &[u32]) -> bool
        requires can { CanAsk structure.now self.now }
        requires in_range { InRange structure.now.sizes self.now.sorts tuple.now }
        ensures { result ≡ is_true_of structure.now self.now tuple.now }
    {
        holds_at(structure, self.body, tuple, &Env::Empty)
    }
}

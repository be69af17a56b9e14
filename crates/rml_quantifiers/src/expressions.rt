// The quantifiers of expressions.
ghost use Rattle.std.specs.Prelude.{◌≡◌, ◌++◌, ◌∷◌, [], OnOk, true, if◌then◌else◌};
ghost use Rattle.rml_terms.specs.Tree.{expr_tree, expr_trees, exprs_of};
ghost use Rattle.rml_quantifiers.specs.Quantifiers.{quantifiers_in, quantifiers_in_each};

use base::Mem;
use rml_terms::Expr;

/// Adds the places of the quantifiers of an expression that stand inside an `ite`, or of all of them.
#[cycle(places)]
#[tactic(auto, using(std::proofs::Common::append_assoc))]
pub fn add_quantifiers(all: bool, e: &Expr, places: &mut Vec<u64>) -> Mem<()>
    ensures { OnOk result (places.new.items ≡ places.old.items ++ quantifiers_in all (expr_tree e.now)) }
{
    match e {
        Expr::True(_) | Expr::False(_) => Ok(()),
        Expr::Apply(_, args) => {
            add_quantifiers_each(all, args, places)?;
            Ok(())
        }
        Expr::Ite(_, c, a, b) => {
            add_quantifiers(true, c, places)?;
            add_quantifiers(true, a, places)?;
            add_quantifiers(true, b, places)?;
            Ok(())
        }
        Expr::Equal(_, a, b) | Expr::Implies(_, a, b) | Expr::Iff(_, a, b) => {
            add_quantifiers(all, a, places)?;
            add_quantifiers(all, b, places)?;
            Ok(())
        }
        Expr::Not(_, a) => {
            add_quantifiers(all, a, places)?;
            Ok(())
        }
        Expr::And(_, args) | Expr::Or(_, args) => {
            add_quantifiers_each(all, args, places)?;
            Ok(())
        }
        Expr::Quantified(_, at, _, a) => {
            add_quantifier(all, *at, places)?;
            add_quantifiers(all, a, places)?;
            Ok(())
        }
    }
}

// Adds this place, where all quantifiers count.
fn add_quantifier(all: bool, at: u64, places: &mut Vec<u64>) -> Mem<()>
    ensures { OnOk result (places.new.items ≡ places.old.items ++ (if all then at ∷ [] else [])) }
{
    if all {
        places.push(at)?;
    }
    Ok(())
}

/// Adds those of each expression.
#[cycle(places)]
pub fn add_quantifiers_each(all: bool, es: &[Expr], places: &mut Vec<u64>) -> Mem<()>
    ensures { OnOk result (places.new.items ≡ places.old.items
        ++ quantifiers_in_each all (exprs_of (expr_trees es.now))) }
{
    for e in es {
        add_quantifiers(all, e, places)?;
    }
    Ok(())
}

// What the elements of a structure are called. That a name of a listed sort stands for an element is told by the
// structure alone, so the names are looked up once for each structure that is told.
ghost use Rattle.std.specs.Prelude.{◌≡◌, ◌++◌, IfOk, OnOk};
ghost use Rattle.fol_sig.specs.Symbols.{FitsStructure, symbols};
ghost use Rattle.fol_sig.specs.SymbolTables.{HasSymbol};
ghost use Rattle.told_states.specs.SymbolText.{function_symbol};
ghost use Rattle.told_states.specs.Labels.{labels_at, labels_of, is_among, is_called, name_of};

use crate::label::Label;
use crate::symbols::is_variable;
use base::Mem;
use fol_sig::{FunId, Signature, Sort, Structure, Symbol};
use rml_command::{Model, Names};
use std::alloc::Global;
use std::marker;

/// The names of a model, and the elements that its listed sorts' names are in a structure.
#[derive(Drop)]
pub struct Labels<'a> {
    names: &'a Names,
    labels: Vec<Label>,
}

impl<'a> marker::Model for Labels<'a> {
    ghost use Rattle.told_states.specs.Labels.{Labels};

    ghost Value = { Labels };

    ghost view = { λ l. record { names = l.names.now; labels = l.labels.items } };
}

// The element that a variable is, where it is a name of a listed sort.
fn push_if_listed(
    labels: &mut Vec<Label>,
    signature: &Signature,
    structure: &Structure,
    fun: FunId,
) -> Mem<()>
    requires { HasSymbol structure.now (function_symbol fun.0) }
    ensures { OnOk result (labels.new.items ≡ labels.old.items ++ labels_at signature.now structure.now fun.0) }
{
    if signature.is_listed(fun) && is_variable(structure, Symbol::Function(fun)) {
        labels.push(Label {
            name: fun,
            sort: structure.function_into(fun),
            element: structure.fun(fun, &[]),
        })?;
    }
    Ok(())
}

fn is_among(labels: &[Label], fun: FunId) -> bool
    ensures { result ≡ is_among labels.now fun.0 }
{
    labels.iter().any(|label| label.name.0 == fun.0)
}

impl<'a> Labels<'a> {
    /// What the elements of a structure of the model are called.
    #[tactic(auto, using(std::proofs::Common::append_assoc))]
    pub fn of(alloc: Global, model: &'a Model, structure: &Structure) -> Mem<Labels<'a>>
        requires { FitsStructure (symbols model.now.signature) structure.now }
        ensures { IfOk result (λ labels. labels ≡ labels_of model.now structure.now) }
    {
        let signature = model.signature();
        let mut labels = Vec::new(alloc);
        for fun in 0..signature.function_count() {
            push_if_listed(&mut labels, signature, structure, FunId(fun))?;
        }
        Ok(Labels {
            names: model.names(),
            labels,
        })
    }

    /// The names of the model.
    pub fn names(&self) -> &Names
        ensures { result.now ≡ self.now.names }
    {
        self.names
    }

    /// Whether an element is called by the symbol.
    pub fn is_called(&self, symbol: Symbol) -> bool
        ensures { result ≡ is_called self.now symbol }
    {
        match symbol {
            Symbol::Relation(_) => false,
            Symbol::Function(fun) => is_among(&self.labels, fun),
        }
    }

    /// The name that stands for an element, if one does.
    pub fn name_of(&self, sort: Sort, element: u32) -> Option<FunId>
        ensures { result ≡ name_of self.now.labels sort.0 element }
    {
        let label = self
            .labels
            .iter()
            .find(|label| label.sort.0 == sort.0 && label.element == element)?;
        Some(label.name)
    }
}

// Where a model leaves the fragment. Each rule gives its own first fault, and the first of these is the model's: so no
// rule need know where the others look, and the order of the text decides between them.
ghost use Rattle.std.specs.Prelude.{◌≡◌, IfOk, IfErr, OnOk};
ghost use Rattle.base.specs.Because.{Because};
ghost use Rattle.fol_sig.specs.Symbols.{symbols};
ghost use Rattle.fol_sig.specs.Strata.{IsStrata, IsFirstCycle};
ghost use Rattle.rml_lex.specs.declared.token.Fault.{Fault as OneFault};
ghost use Rattle.rml_fragment.specs.Demands.{demand_of};
ghost use Rattle.rml_fragment.specs.First.{IsFirst, IsFirstOf, SomePlaced};
ghost use Rattle.rml_fragment.specs.Faults.{
  ClosesCycle,
  Misses,
  ConditionMisses,
  QuantifierStands,
  SentenceBreaks,
  Breaks,
};

use crate::demand::Demand;
use crate::first::{earlier, fault_unless, first_with};
use base::Refused;
use fol_formula::Sentence;
use fol_sig::{Cycle, Strata, strata, strata_laws};
use rml_command::{Condition, Model};
use rml_lex::{Fault, FaultCode};
use std::alloc::Global;

/// The strata of a model that is in the fragment, or the first fault by which it leaves it.
pub fn fragment_strata(alloc: Global, model: &Model) -> Result<Strata, Refused<Fault>>
    ensures strata { IfOk result (IsStrata (symbols model.now.signature)) }
    ensures faultless { OnOk result ((fault : OneFault) → Breaks model.now fault → ⊥) }
    ensures fault { IfErr result (Because (IsFirst (Breaks model.now))) }
{
    let sentences = sentences_fault(model);
    match strata(alloc, model.signature()) {
        Ok(strata) => match sentences {
            None => Ok(strata),
            Some(fault) => Err(Refused::For(fault)),
        },
        Err(Refused::For(cycle)) => Err(Refused::For(first_with(closing(model, cycle), sentences))),
        Err(Refused::NoMemory) => Err(Refused::NoMemory),
    }
}

// The first fault by which a sentence or a right side leaves the fragment.
fn sentences_fault(model: &Model) -> Option<Fault>
    ensures { IsFirstOf (SentenceBreaks model.now) result }
{
    let places = model.places();
    let axioms = sentence_fault(
        model.axioms(),
        places.axioms.as_slice(),
        Demand::ExistsForall,
    );
    let conjectures = sentence_fault(
        model.conjectures(),
        places.conjectures.as_slice(),
        Demand::Universal,
    );
    let conditions = condition_fault(places.conditions.as_slice());
    let quantifiers = quantifier_fault(places.quantifiers.as_slice());
    let commands = earlier(conditions, quantifiers);
    let promises = earlier(conjectures, commands);
    earlier(axioms, promises)
}

// The fault at the name of the first function that closes a cycle with those before it.
fn closing(model: &Model, cycle: Cycle) -> Fault
    requires { IsFirstCycle (symbols model.now.signature) cycle.function.0 }
    ensures { IsFirst (ClosesCycle model.now) result }
{
    strata_laws();
    let places = model.places().functions.as_slice();
    let at = places[cycle.function.0 as usize];
    Fault {
        code: FaultCode::FunctionCycle,
        at,
    }
}

// The sentences and their places stand in one order.
fn sentence_fault(sentences: &[Sentence], places: &[u64], demand: Demand) -> Option<Fault>
    ensures { IsFirstOf (SomePlaced (Misses demand) sentences.now places.now) result }
{
    let mut first = None;
    let mut rest = sentences;
    let mut left = places;
    while let [sentence, more @ ..] = rest {
        let [at, after @ ..] = left else {
            return first;
        };
        let fault = fault_unless(demand.is_met(sentence), demand.code(), *at);
        first = earlier(first, fault);
        rest = more;
        left = after;
    }
    first
}

// The fault at the word before this condition, where it is not what the word demands.
fn fault_at(condition: &Condition) -> Option<Fault>
    ensures { IsFirstOf
        (λ f. (f.at ≡ condition.now.at) × Misses (demand_of condition.now.word) condition.now.sentence f.code) result }
{
    let demand = Demand::of(condition.word);
    fault_unless(
        demand.is_met(&condition.sentence),
        demand.code(),
        condition.at,
    )
}

// The first fault of a condition.
fn condition_fault(conditions: &[Condition]) -> Option<Fault>
    ensures { IsFirstOf (ConditionMisses conditions.now) result }
{
    let mut first = None;
    for condition in conditions {
        first = earlier(first, fault_at(condition));
    }
    first
}

// The first of the quantifiers that may not stand where they do.
fn quantifier_fault(places: &[u64]) -> Option<Fault>
    ensures { IsFirstOf (QuantifierStands places.now) result }
{
    let mut first = None;
    for at in places {
        let fault = Fault {
            code: FaultCode::NotQuantifierFree,
            at: *at,
        };
        first = earlier(first, Some(fault));
    }
    first
}

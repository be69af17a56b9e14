// The hints of an addition, from the literals that are set.
ghost use Rattle.std.specs.Prelude.{◌≡◌, ℕ, false, length, IfOk};
ghost use Rattle.cnf_base.specs.LitSetValue.{set_of};
ghost use Rattle.cnf_base.specs.Clauses.{has_opposites};
ghost use Rattle.lrat_log.specs.Accepted.{all_but, all_false, effect_of_clause, effect_of_entry, outcome_of_hints};
ghost use Rattle.lrat_check.specs.Spans.{AreSorted, held_in, AreWithin};

use crate::spans::{Span, find};
use base::Mem;
use cnf_base::{Lit, LitSet, opposite_laws};
use lrat_log::{Effect, Outcome, RefusalCode};

// Whether each literal but one is false.
#[tactic(auto, using(crate::proofs::Steps::all_but_step))]
fn all_but_false(set: &LitSet, lit: Lit, clause: &[Lit]) -> bool
    ensures { result ≡ all_but (set_of set.now) lit clause.now }
{
    for x in clause {
        if x.code() != lit.code() && !set.has(x.opposite()) {
            return false;
        }
    }
    true
}

// What a clause does as a hint.
#[tactic(auto, using(crate::proofs::Steps::effect_step))]
fn effect_of(set: &LitSet, clause: &[Lit]) -> Effect
    ensures { result ≡ effect_of_clause (set_of set.now) clause.now }
{
    for (i, lit) in clause.iter().enumerate() {
        if !set.has(lit.opposite()) {
            if set.has(*lit) {
                return Effect::Useless;
            }
            if all_but_false(set, *lit, &clause[i + 1..]) {
                return Effect::Sets(*lit);
            }
            return Effect::Useless;
        }
    }
    Effect::Falsified
}

// What a hint does.
fn effect_of_hint(set: &LitSet, spans: &[Span], literals: &[Lit], hint: u32) -> Effect
    requires sorted { AreSorted spans.now }
    requires within { AreWithin spans.now (length literals.now) }
    ensures { result ≡ effect_of_entry (set_of set.now) (held_in literals.now spans.now hint) }
{
    match find(spans, hint) {
        None => Effect::Unknown,
        Some(place) => {
            let span = spans[place];
            if !span.is_held {
                Effect::Unknown
            } else if span.is_true {
                Effect::Useless
            } else {
                effect_of(set, &literals[span.start as usize..span.end as usize])
            }
        }
    }
}

/// The hints, each in turn. What they set stays in the set.
pub fn run_hints(set: &mut LitSet, spans: &[Span], literals: &[Lit], hints: &[u32]) -> Mem<Outcome>
    requires sorted { AreSorted spans.now }
    requires within { AreWithin spans.now (length literals.now) }
    ensures { IfOk result (λ r. r ≡ outcome_of_hints (held_in literals.now spans.now) hints.now (set_of set.old)) }
{
    for hint in hints {
        match effect_of_hint(set, spans, literals, *hint) {
            Effect::Unknown => return Ok(Outcome::Refused(RefusalCode::UnknownId)),
            Effect::Falsified => return Ok(Outcome::Accepted),
            Effect::Sets(l) => set.insert(l)?,
            Effect::Useless => return Ok(Outcome::Refused(RefusalCode::HintNotUnit)),
        }
    }
    Ok(Outcome::Refused(RefusalCode::NoConflict))
}

/// Puts the opposite of each literal into an empty set, until it meets the opposite of a literal behind it.
pub fn mark_false(set: &mut LitSet, clause: &[Lit]) -> Mem<bool>
    requires { (x : ℕ) → set_of set.old x ≡ false }
    ensures opposites { IfOk result (λ r. r ≡ has_opposites clause.now) }
    ensures marks { IfOk result (λ r. r ≡ false → (x : ℕ) → set_of set.new x ≡ all_false clause.now x) }
{
    opposite_laws();
    let mut i = clause.len();
    while i > 0 {
        i -= 1;
        let lit = clause[i];
        if set.has(lit) {
            return Ok(true);
        }
        set.insert(lit.opposite())?;
    }
    Ok(false)
}

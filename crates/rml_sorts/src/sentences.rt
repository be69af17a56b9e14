// Sentences, and the commands that are made of one.
ghost use Rattle.std.specs.Prelude.{◌≡◌, ◌++◌, ◌∷◌, [], None, length, OnOk, IfOk};
ghost use Rattle.fol_formula.specs.Syntax.{negation};
ghost use Rattle.rml_terms.specs.Tree.{expr_tree};
ghost use Rattle.rml_terms.specs.Within.{ExprWithin};
ghost use Rattle.rml_terms.specs.Shape.{ExprNests, max_nesting};
ghost use Rattle.rml_command.specs.View.{command as command_view, commands as commands_view};
ghost use Rattle.rml_command.specs.Trees.{assume, prim, seq, choose, command_then, no_commands};
ghost use Rattle.rml_sort_check.specs.declared.wanted.Wanted.TheVariants as wanted;
ghost use Rattle.rml_sort_check.specs.Demands.{demands, first_fault};
ghost use Rattle.rml_elaborate.specs.Formulas.{formula_of};
ghost use Rattle.rml_sorts.specs.Commands.{assertion as assertion_of, branching as branching_of};
ghost use Rattle.rml_names.specs.Drafts.{draft_in};
ghost use Rattle.rml_elaborate.specs.Sizes.{large_use_in_formula as large_use_of};
ghost use Rattle.rml_lex.specs.declared.fault_code.FaultCode.TheVariants as fault_code;
ghost use Rattle.rml_items.specs.Answering.{Answers};
ghost use Rattle.rml_sorts.specs.Sizes.{no_large_use};
ghost use Rattle.rml_sorts.specs.Sound.{IsSound};

use base::{Mem, Refused};
use fol_formula::{Formula, Sentence};
use rml_command::{Command, Condition, Primitive, Word};
use rml_elaborate::{formula_outside, large_use_in_formula};
use rml_lex::{Fault, FaultCode};
use rml_names::ModelDraft;
use rml_terms::Expr;
use std::alloc::Global;

// The fault at a use in what is too large.
pub fn too_large(at: u64) -> Refused<Fault>
    ensures { result ≡ Refused.For (record { code = fault_code.LargeDefinition; at = at }) }
{
    Refused::For(Fault {
        code: FaultCode::LargeDefinition,
        at,
    })
}

// The sentence of an expression that is not too large.
fn written_sentence(alloc: Global, text: &[u8], draft: &ModelDraft, e: &Expr) -> Mem<Sentence>
    requires nests { ExprNests max_nesting (expr_tree e.now) }
    requires within { ExprWithin (length text.now) (expr_tree e.now) }
    requires sound { IsSound (draft_in draft.now) }
    requires met { first_fault (demands text.now (draft_in draft.now).vocabulary [] wanted.Formula (expr_tree e.now))
        ≡ None }
    ensures { IfOk result
        (λ p. p ≡ formula_of text.now (draft_in draft.now).vocabulary (draft_in draft.now).bodies []
        (expr_tree e.now)) }
{
    fol_subst::instance_laws();
    fol_formula::indices();
    let p = formula_outside(alloc, text, draft, e)?;
    Ok(Sentence::of(p))
}

// The sentence that an expression stands for, unless it is too large.
pub fn sentence(
    alloc: Global,
    text: &[u8],
    draft: &ModelDraft,
    e: &Expr,
) -> Result<Sentence, Refused<Fault>>
    requires nests { ExprNests max_nesting (expr_tree e.now) }
    requires within { ExprWithin (length text.now) (expr_tree e.now) }
    requires sound { IsSound (draft_in draft.now) }
    requires met { first_fault (demands text.now (draft_in draft.now).vocabulary [] wanted.Formula (expr_tree e.now))
        ≡ None }
    ensures { Answers (λ p. p) result
        (no_large_use (large_use_of text.now (draft_in draft.now).vocabulary (draft_in draft.now).bodies []
        (expr_tree e.now)))
        (formula_of text.now (draft_in draft.now).vocabulary (draft_in draft.now).bodies [] (expr_tree e.now)) }
{
    if let Some(at) = large_use_in_formula(text, draft, e) {
        return Err(too_large(at));
    }
    let sentence = written_sentence(alloc, text, draft, e)?;
    Ok(sentence)
}

// The sentence behind a word, which is noted as a condition.
pub fn noted_sentence(
    alloc: Global,
    text: &[u8],
    draft: &ModelDraft,
    word: Word,
    at: u64,
    e: &Expr,
    conditions: &mut Vec<Condition>,
) -> Result<Sentence, Refused<Fault>>
    requires nests { ExprNests max_nesting (expr_tree e.now) }
    requires within { ExprWithin (length text.now) (expr_tree e.now) }
    requires sound { IsSound (draft_in draft.now) }
    requires met { first_fault (demands text.now (draft_in draft.now).vocabulary [] wanted.Formula (expr_tree e.now))
        ≡ None }
    ensures sentence { Answers (λ p. p) result
        (no_large_use (large_use_of text.now (draft_in draft.now).vocabulary (draft_in draft.now).bodies []
        (expr_tree e.now)))
        (formula_of text.now (draft_in draft.now).vocabulary (draft_in draft.now).bodies [] (expr_tree e.now)) }
    ensures noted { OnOk result (conditions.new.items ≡ conditions.old.items
        ++ record {
          word = word;
          at = at;
          sentence = formula_of text.now (draft_in draft.now).vocabulary
              (draft_in draft.now).bodies [] (expr_tree e.now);
        } ∷ []) }
{
    let sentence = sentence(alloc, text, draft, e)?;
    add_condition(alloc, word, at, &sentence, conditions)?;
    Ok(sentence)
}

fn add_condition(
    alloc: Global,
    word: Word,
    at: u64,
    sentence: &Sentence,
    conditions: &mut Vec<Condition>,
) -> Mem<()>
    ensures { OnOk result (conditions.new.items ≡ conditions.old.items
        ++ record { word = word; at = at; sentence = sentence.now } ∷ []) }
{
    let sentence = sentence.copy(alloc)?;
    conditions.push(Condition { word, at, sentence })?;
    Ok(())
}

fn negated(alloc: Global, sentence: Sentence) -> Mem<Sentence>
    ensures { IfOk result (λ p. p ≡ negation sentence) }
{
    let formula = Box::new(alloc, sentence.into_formula())?;
    Ok(Sentence::of(Formula::Not(formula)))
}

fn assumption(sentence: Sentence) -> Command
    ensures { command_view result ≡ prim (assume sentence) }
{
    Command::Prim(Primitive::Assume(sentence))
}

// A sequence that begins with an assumption.
fn guarded(sentence: Sentence, mut block: Vec<Command>) -> Mem<Command>
    ensures { IfOk result (λ c. command_view c
        ≡ seq (command_then (prim (assume sentence)) (commands_view block.items))) }
{
    block.insert(0, assumption(sentence))?;
    Ok(Command::Seq(block))
}

fn choice(alloc: Global, first: Command, second: Command) -> Mem<Command>
    ensures { IfOk result (λ c. command_view c
        ≡ choose (command_then (command_view first) (command_then (command_view second) no_commands))) }
{
    let branches = vec![in alloc; first, second]?;
    Ok(Command::Choose(branches))
}

// `assert p` chooses between `assume ~p; abort` and `skip`.
pub fn assertion(alloc: Global, sentence: Sentence) -> Mem<Command>
    ensures { IfOk result (λ c. command_view c ≡ assertion_of sentence) }
{
    let mut aborting = Vec::new(alloc);
    aborting.push(Command::Prim(Primitive::Abort))?;
    let sentence = negated(alloc, sentence)?;
    let fails = guarded(sentence, aborting)?;
    let command = choice(alloc, fails, Command::Seq(Vec::new(alloc)))?;
    Ok(command)
}

// A choice whose second branch begins with the assumption that the sentence is false.
fn or_otherwise(
    alloc: Global,
    first: Command,
    sentence: Sentence,
    second: Vec<Command>,
) -> Mem<Command>
    ensures { IfOk result (λ c. command_view c ≡ choose (command_then (command_view first) (command_then
        (seq (command_then (prim (assume (negation sentence))) (commands_view second.items))) no_commands))) }
{
    let sentence = negated(alloc, sentence)?;
    let second = guarded(sentence, second)?;
    let command = choice(alloc, first, second)?;
    Ok(command)
}

// `if p` chooses between its two blocks, behind `assume p` and `assume ~p`.
pub fn branching(
    alloc: Global,
    sentence: Sentence,
    first: Vec<Command>,
    second: Vec<Command>,
) -> Mem<Command>
    ensures { IfOk result (λ c. command_view c
        ≡ branching_of sentence (commands_view first.items) (commands_view second.items)) }
{
    let copy = sentence.copy(alloc)?;
    let first = guarded(copy, first)?;
    let command = or_otherwise(alloc, first, sentence, second)?;
    Ok(command)
}

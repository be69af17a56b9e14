// What is wrong with a printed execution.
ghost use Rattle.std.specs.Prelude.{◌≡◌, ◌<◌, ◌≤◌, ◌+◌, ◌^◌, ◌∷◌, [], Some, slice_get, IfOk};
ghost use Rattle.fol_sig.specs.Tables.{InRange};
ghost use Rattle.fol_sig.specs.Symbols.{FitsStructure, symbols};
ghost use Rattle.fol_formula.specs.Sentences.{satisfies};
ghost use Rattle.rml_command.specs.Goals.{leading_sorts};
ghost use Rattle.rml_report.specs.ReportText.{outcome_of};
ghost use Rattle.rml_exec.specs.Followed.{outcome_of as outcome_in};
ghost use Rattle.printed_report.specs.Executions.{IsExecution, HasEnd};
ghost use Rattle.report_replay.specs.Demands.{is_kept_before, is_broken, havoc_line, end_line};
ghost use Rattle.report_replay.specs.Demands.{end_demands, outcome_demands, execution_demands};
ghost use Rattle.report_replay.specs.Demands.{group_demands, table_count};
ghost use Rattle.fol_formula.specs.Syntax.{FormTree};
ghost use Rattle.rml_command.specs.Outcomes.{ended};
ghost use Rattle.report_replay.specs.Judgements.{first_unmet};
ghost use Rattle.report_replay.specs.Judging.{CanReplay, AreAlike, EndIsAlike};
ghost use Rattle.report_replay.specs.declared.denial.DenialCode.TheVariants as denial;

use crate::denial::DenialCode;
use crate::ends::table_fault;
use crate::judged::Fault;
use crate::truths::is_body_true;
use base::Mem;
use fol_eval::{Env, satisfies};
use fol_sig::Structure;
use printed_report::{PrintedAnswer, PrintedGroup};
use rml_command::{About, Checked, Stage};
use rml_exec::{Counterexample, Followed, follow};
use std::alloc::Global;

// The conjectures are asked for but before init.
fn is_kept_before(checked: &Checked, stage: Stage, structure: &Structure) -> bool
    requires { FitsStructure (symbols checked.now.signature) structure.now }
    ensures { result ≡ is_kept_before checked.now stage structure.now }
{
    match stage {
        Stage::Init => true,
        Stage::Action(_) | Stage::Final => satisfies(structure, checked.model().conjectures()),
    }
}

// What is wrong with the structure in which an execution begins.
fn fault_before(checked: &Checked, stage: Stage, structure: &Structure, line: u64) -> Option<Fault>
    requires { FitsStructure (symbols checked.now.signature) structure.now }
    ensures { result ≡ first_unmet (
        record { line = line; code = denial.AxiomIsFalse; met = satisfies structure.now checked.now.axioms }
        ∷ record {
          line = line;
          code = denial.ConjectureIsFalse;
          met = is_kept_before checked.now stage structure.now;
        } ∷ []) }
{
    if !satisfies(structure, checked.model().axioms()) {
        return Some(Fault {
            line,
            code: DenialCode::AxiomIsFalse,
        });
    }
    if !is_kept_before(checked, stage, structure) {
        return Some(Fault {
            line,
            code: DenialCode::ConjectureIsFalse,
        });
    }
    None
}

// Whether the conjecture's body is false at the end.
fn is_broken(checked: &Checked, conjecture: u32, end: &Structure, values: &[u32]) -> bool
    requires end { FitsStructure (symbols checked.now.signature) end.now }
    requires values { (c : FormTree) × (slice_get checked.now.conjectures conjecture ≡ Some c)
        × InRange end.now.sizes (leading_sorts c) values.now }
    ensures { result ≡ is_broken (slice_get checked.now.conjectures conjecture) end.now values.now }
{
    let sentence = &checked.model().conjectures()[conjecture as usize];
    !is_body_true(end, sentence.formula(), values, &Env::Empty)
}

// What is wrong with the end of a conjecture's path.
fn conjecture_fault(
    alloc: Global,
    checked: &Checked,
    group: &PrintedGroup,
    conjecture: u32,
    shown: &Counterexample,
    after: &Structure,
    end: &Structure,
) -> Mem<Option<Fault>>
    requires line { group.now.line ≤ 2 ^ 63 + 1 }
    requires end { AreAlike checked.now shown.now.structure end.now }
    requires after { HasEnd checked.now shown.now.structure (About.Conjecture conjecture) shown.now.values
        (Some after.now) }
    ensures { IfOk result (λ fault. fault ≡ first_unmet
        (end_demands checked.now group.now (About.Conjecture conjecture) shown.now (Some after.now)
        (Some (ended end.now)))) }
{
    let line = end_line(checked, group);
    let count = tables(checked);
    if let Some(fault) = table_fault(alloc, checked, after, end, line)? {
        return Ok(Some(fault));
    }
    if is_broken(checked, conjecture, end, shown.values.as_slice()) {
        return Ok(None);
    }
    let line = line + count;
    Ok(Some(Fault {
        line,
        code: DenialCode::NotBroken,
    }))
}

// What is wrong with an end.
fn end_fault(
    alloc: Global,
    checked: &Checked,
    group: &PrintedGroup,
    shown: &Counterexample,
    after: &Option<Structure>,
    end: &Structure,
) -> Mem<Option<Fault>>
    requires line { group.now.line ≤ 2 ^ 63 + 1 }
    requires end { AreAlike checked.now shown.now.structure end.now }
    requires after { HasEnd checked.now shown.now.structure group.now.about shown.now.values after.now }
    ensures { IfOk result (λ fault. fault ≡ first_unmet
        (end_demands checked.now group.now group.now.about shown.now after.now (Some (ended end.now)))) }
{
    let About::Conjecture(conjecture) = group.about else {
        return Ok(None);
    };
    let Some(after) = after else {
        return Ok(None);
    };
    let fault = conjecture_fault(alloc, checked, group, conjecture, shown, after, end)?;
    Ok(fault)
}

// How many lines the tables of a structure take, and how many the sorts.
pub fn tables(checked: &Checked) -> u64
    ensures count { result ≡ table_count checked.now }
    ensures few { result ≤ 1000 }
{
    let signature = checked.model().signature();
    signature.relation_count() as u64 + signature.function_count() as u64
}

pub fn sorts(checked: &Checked) -> u64
    ensures count { result ≡ checked.now.signature.sorts }
    ensures few { result ≤ 1000 }
{
    checked.model().signature().sorts() as u64
}

// The line `havoc:` of a group that fails.
fn havoc_line(checked: &Checked, group: &PrintedGroup) -> u64
    requires { group.now.line ≤ 2 ^ 63 + 1 }
    ensures value { result ≡ havoc_line checked.now group.now }
    ensures small { result ≤ 2 ^ 63 + 2005 }
{
    group.line + 3 + sorts(checked) + tables(checked) + 1
}

// The first line of its tables behind `after`.
fn end_line(checked: &Checked, group: &PrintedGroup) -> u64
    requires { group.now.line ≤ 2 ^ 63 + 1 }
    ensures value { result ≡ end_line checked.now group.now }
    ensures small { result ≤ 2 ^ 63 + 2007 }
{
    havoc_line(checked, group) + 2
}

// What is wrong behind the structure of an execution.
fn outcome_fault(
    alloc: Global,
    checked: &Checked,
    group: &PrintedGroup,
    shown: &Counterexample,
    after: &Option<Structure>,
    followed: Followed,
) -> Mem<Option<Fault>>
    requires line { group.now.line ≤ 2 ^ 63 + 1 }
    requires end { EndIsAlike checked.now shown.now.structure followed }
    requires after { HasEnd checked.now shown.now.structure group.now.about shown.now.values after.now }
    ensures { IfOk result (λ fault. fault ≡
        first_unmet (outcome_demands checked.now group.now shown.now after.now (outcome_in followed))) }
{
    match followed {
        Followed::Blocked => {
            let line = havoc_line(checked, group);
            Ok(Some(Fault {
                line,
                code: DenialCode::Blocked,
            }))
        }
        Followed::Aborted => Ok(None),
        Followed::Ended(end) => {
            let fault = end_fault(alloc, checked, group, shown, after, &end)?;
            Ok(fault)
        }
    }
}

// What is wrong with an execution.
fn execution_fault(
    alloc: Global,
    checked: &Checked,
    group: &PrintedGroup,
    paths: u32,
    shown: &Counterexample,
    after: &Option<Structure>,
) -> Mem<Option<Fault>>
    requires line { group.now.line ≤ 2 ^ 63 + 1 }
    requires execution { IsExecution checked.now (record { stage = group.now.stage; about = group.now.about })
        paths shown.now after.now }
    ensures { IfOk result (λ fault. fault ≡
        first_unmet (execution_demands checked.now group.now shown.now after.now)) }
{
    if let Some(fault) = fault_before(checked, group.stage, &shown.structure, group.line + 3) {
        return Ok(Some(fault));
    }
    let followed = follow_shown(alloc, checked, group, paths, shown, after)?;
    let fault = outcome_fault(alloc, checked, group, shown, after, followed)?;
    Ok(fault)
}

// How the shown path ends. Its end has the sizes of its start.
fn follow_shown(
    alloc: Global,
    checked: &Checked,
    group: &PrintedGroup,
    paths: u32,
    shown: &Counterexample,
    after: &Option<Structure>,
) -> Mem<Followed>
    requires { IsExecution checked.now (record { stage = group.now.stage; about = group.now.about })
        paths shown.now after.now }
    ensures outcome { IfOk result (λ f. outcome_in f ≡ outcome_of checked.now shown.now) }
    ensures end { IfOk result (EndIsAlike checked.now shown.now.structure) }
{
    let path = checked.path(&shown.goal);
    let followed = follow(alloc, checked, &path, &shown.trace, &shown.structure)?;
    Ok(followed)
}

/// The first line of a group that is wrong, and why.
pub fn group_fault(alloc: Global, checked: &Checked, group: &PrintedGroup) -> Mem<Option<Fault>>
    requires { CanReplay checked.now group.now }
    ensures { IfOk result (λ fault. fault ≡ first_unmet (group_demands checked.now group.now)) }
{
    match &group.answer {
        PrintedAnswer::Fails {
            paths,
            shown,
            after,
        } => {
            let fault = execution_fault(alloc, checked, group, *paths, shown, after)?;
            Ok(fault)
        }
        PrintedAnswer::Holds | PrintedAnswer::Undecided => Ok(None),
    }
}

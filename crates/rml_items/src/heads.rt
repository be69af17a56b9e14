// What items declare: each name is new, and there is room for it, and its sorts are known.
ghost use Rattle.std.specs.Prelude.{◌≡◌, ◌≤◌, ◌<◌, ◌++◌, ◌∷◌, [], ℕ, List, None, length, map, IfOk, OnOk};
ghost use Rattle.fol_sig.specs.Tables.{AreSorts};
ghost use Rattle.rml_terms.specs.Within.{NameWithin, NamesWithin};
ghost use Rattle.rml_syntax.specs.Within.{BindersWithin};
ghost use Rattle.rml_names.specs.Growth.{with_sort, with_relation, with_function, with_elements, with_axiom};
ghost use Rattle.rml_names.specs.Growth.{with_conjecture, with_action, with_definition};
ghost use Rattle.rml_names.specs.Meanings.{sort_number};
ghost use Rattle.rml_names.specs.Drafts.{words_in};
ghost use Rattle.rml_names.specs.Sound.{IsSorted};
ghost use Rattle.rml_sort_check.specs.Demands.{first_fault};
ghost use Rattle.rml_items.specs.Items.{declares, declares_symbol, declares_sort, declares_sentence, declares_action};
ghost use Rattle.rml_items.specs.Items.{sort_known, sort_demands, element_demands};
ghost use Rattle.rml_items.specs.Items.{parameter_sorts as sorts_of_parameters};
ghost use Rattle.rml_items.specs.Answering.{Answers};
ghost use Rattle.fol_sig.specs.Arguments.{max_arguments};

use base::Refused;
use fol_sig::{MAX_ARGUMENTS, Sort, Sorts};
use rml_lex::{Fault, FaultCode};
use rml_names::{Declarations, MAX_NAMES, bytes};
use rml_terms::{Binder, Name};
use std::alloc::Global;

// A declared name: it is new, and there is room for it.
fn declaration_fault(known: &Declarations, taken: bool, name: Name) -> Option<Fault>
    requires { IsSorted (words_in known.now) }
    ensures { result ≡ first_fault (declares (words_in known.now) taken name) }
{
    if taken {
        return Some(Fault {
            code: FaultCode::DeclaredTwice,
            at: name.start,
        });
    }
    if known.name_count() >= MAX_NAMES {
        return Some(Fault {
            code: FaultCode::TooManyNames,
            at: name.start,
        });
    }
    None
}

// The fault of a name that is declared as a symbol.
pub fn symbol_fault(text: &[u8], known: &Declarations, name: Name) -> Option<Fault>
    requires within { NameWithin (length text.now) name }
    requires sound { IsSorted (words_in known.now) }
    ensures { result ≡ first_fault (declares_symbol text.now (words_in known.now) name) }
{
    declaration_fault(known, known.is_symbol(bytes(text, name)), name)
}

fn sort_name_fault(text: &[u8], known: &Declarations, name: Name) -> Option<Fault>
    requires within { NameWithin (length text.now) name }
    requires sound { IsSorted (words_in known.now) }
    ensures { result ≡ first_fault (declares_sort text.now (words_in known.now) name) }
{
    declaration_fault(known, known.names.sorts.contains(bytes(text, name)), name)
}

// The fault of a name that is declared as that of an action.
fn action_name_fault(text: &[u8], known: &Declarations, name: Name) -> Option<Fault>
    requires within { NameWithin (length text.now) name }
    requires sound { IsSorted (words_in known.now) }
    ensures { result ≡ first_fault (declares_action text.now (words_in known.now) name) }
{
    declaration_fault(known, known.names.actions.contains(bytes(text, name)), name)
}

// The fault of a name that is declared as that of an axiom or a conjecture.
fn sentence_name_fault(text: &[u8], known: &Declarations, name: Name) -> Option<Fault>
    requires within { NameWithin (length text.now) name }
    requires sound { IsSorted (words_in known.now) }
    ensures { result ≡ first_fault (declares_sentence text.now (words_in known.now) name) }
{
    let bytes = bytes(text, name);
    let taken = known.names.axioms.contains(bytes) || known.names.conjectures.contains(bytes);
    declaration_fault(known, taken, name)
}

fn known_sort(text: &[u8], known: &Declarations, name: Name) -> Result<Sort, Refused<Fault>>
    requires within { NameWithin (length text.now) name }
    requires sound { IsSorted (words_in known.now) }
    ensures sort { Answers (λ k. k.0) result (sort_known text.now (words_in known.now) name ∷ [])
        (sort_number text.now (words_in known.now) name) }
    ensures known { IfOk result (λ k. k.0 < (words_in known.now).signature.sorts) }
{
    match known.sort(bytes(text, name)) {
        Some(place) => Ok(Sort(place)),
        None => Err(Refused::For(Fault {
            code: FaultCode::UnknownName,
            at: name.start,
        })),
    }
}

fn argument_sorts(
    alloc: Global,
    text: &[u8],
    known: &Declarations,
    names: &[Name],
) -> Result<Sorts, Refused<Fault>>
    requires within { NamesWithin (length text.now) names.now }
    requires sound { IsSorted (words_in known.now) }
    ensures sorts { Answers (λ ks. ks) result (sort_demands text.now (words_in known.now) 0 names.now)
        (map (sort_number text.now (words_in known.now)) names.now) }
    ensures known { IfOk result (AreSorts (words_in known.now).signature.sorts) }
{
    let mut sorts = Sorts::new(alloc);
    for name in names {
        let sort = known_sort(text, known, *name)?;
        if sorts.as_slice().len() >= MAX_ARGUMENTS {
            return Err(Refused::For(Fault {
                code: FaultCode::WrongArgumentCount,
                at: name.start,
            }));
        }
        sorts.push(sort);
    }
    Ok(sorts)
}

// The sorts of a function's arguments, and that of its values.
fn function_sorts(
    alloc: Global,
    text: &[u8],
    known: &Declarations,
    sorts: &[Name],
    sort: Name,
) -> Result<(Sorts, Sort), Refused<Fault>>
    requires sorts { NamesWithin (length text.now) sorts.now }
    requires sort { NameWithin (length text.now) sort }
    requires sound { IsSorted (words_in known.now) }
    ensures sorts { Answers {V = List ℕ × ℕ} (λ p. (p.0, p.1.0)) result
        (sort_demands text.now (words_in known.now) 0 sorts.now ++ (sort_known text.now (words_in known.now) sort ∷ []))
        (map (sort_number text.now (words_in known.now)) sorts.now, sort_number text.now (words_in known.now) sort) }
    ensures from_known { IfOk result (λ p. AreSorts (words_in known.now).signature.sorts p.0) }
    ensures into_known { IfOk result (λ p. p.1.0 < (words_in known.now).signature.sorts) }
{
    let from = argument_sorts(alloc, text, known, sorts)?;
    let into = known_sort(text, known, sort)?;
    Ok((from, into))
}

// The names of a listed sort's elements.
fn add_elements(
    alloc: Global,
    text: &[u8],
    known: &mut Declarations,
    sort: Sort,
    names: &[Name],
) -> Result<(), Refused<Fault>>
    requires within { NamesWithin (length text.now) names.now }
    requires sound { IsSorted (words_in known.old) }
    requires known { sort.0 < (words_in known.old).signature.sorts }
    ensures { Answers (λ _. words_in known.new) result
        (element_demands text.now (words_in known.old) sort.0 names.now)
        (with_elements text.now (words_in known.old) sort.0 names.now) }
{
    for name in names {
        if let Some(fault) = symbol_fault(text, known, *name) {
            return Err(Refused::For(fault));
        }
        known.add_element(alloc, text, sort, *name)?;
    }
    Ok(())
}

/// Declares the sort of a `sort`, and the names of its elements, where it has any. Err: the first demand of this item
/// that is not met, or out of memory.
pub fn add_sort(
    alloc: Global,
    text: &[u8],
    known: &mut Declarations,
    name: Name,
    names: &[Name],
) -> Result<(), Refused<Fault>>
    requires within { NameWithin (length text.now) name }
    requires elements { NamesWithin (length text.now) names.now }
    requires sound { IsSorted (words_in known.old) }
    ensures { Answers (λ _. words_in known.new) result
        (declares_sort text.now (words_in known.old) name
        ++ element_demands text.now (with_sort text.now (words_in known.old) name)
        (words_in known.old).signature.sorts names.now)
        (with_elements text.now (with_sort text.now (words_in known.old) name)
        (words_in known.old).signature.sorts names.now) }
{
    if let Some(fault) = sort_name_fault(text, known, name) {
        return Err(Refused::For(fault));
    }
    let sort = Sort(known.signature.sorts());
    known.add_sort(alloc, text, name)?;
    add_elements(alloc, text, known, sort, names)
}

/// Declares the relation of a `relation`. Err: the first demand that is not met, or out of memory.
pub fn add_relation(
    alloc: Global,
    text: &[u8],
    known: &mut Declarations,
    name: Name,
    sorts: &[Name],
) -> Result<(), Refused<Fault>>
    requires within { NameWithin (length text.now) name }
    requires sorts { NamesWithin (length text.now) sorts.now }
    requires sound { IsSorted (words_in known.old) }
    ensures { Answers (λ _. words_in known.new) result
        (declares_symbol text.now (words_in known.old) name ++ sort_demands text.now (words_in known.old) 0 sorts.now)
        (with_relation text.now (words_in known.old) name
        (map (sort_number text.now (words_in known.old)) sorts.now)) }
{
    if let Some(fault) = symbol_fault(text, known, name) {
        return Err(Refused::For(fault));
    }
    let sorts = argument_sorts(alloc, text, known, sorts)?;
    known.add_relation(alloc, text, name, sorts)?;
    Ok(())
}

/// Declares the function of a `function`. Err: the first demand that is not met, or out of memory.
pub fn add_function(
    alloc: Global,
    text: &[u8],
    known: &mut Declarations,
    name: Name,
    sorts: &[Name],
    sort: Name,
) -> Result<(), Refused<Fault>>
    requires within { NameWithin (length text.now) name }
    requires sorts { NamesWithin (length text.now) sorts.now }
    requires sort { NameWithin (length text.now) sort }
    requires sound { IsSorted (words_in known.old) }
    ensures { Answers (λ _. words_in known.new) result
        (declares_symbol text.now (words_in known.old) name
        ++ (sort_demands text.now (words_in known.old) 0 sorts.now
        ++ (sort_known text.now (words_in known.old) sort ∷ [])))
        (with_function text.now (words_in known.old) name
        (map (sort_number text.now (words_in known.old)) sorts.now)
        (sort_number text.now (words_in known.old) sort)) }
{
    if let Some(fault) = symbol_fault(text, known, name) {
        return Err(Refused::For(fault));
    }
    let (from, into) = function_sorts(alloc, text, known, sorts, sort)?;
    known.add_function(alloc, text, name, from, into)?;
    Ok(())
}

/// Declares the variable of a `variable`. Err: the first demand that is not met, or out of memory.
pub fn add_variable(
    alloc: Global,
    text: &[u8],
    known: &mut Declarations,
    name: Name,
    sort: Name,
) -> Result<(), Refused<Fault>>
    requires within { NameWithin (length text.now) name }
    requires sort { NameWithin (length text.now) sort }
    requires sound { IsSorted (words_in known.old) }
    ensures { Answers (λ _. words_in known.new) result
        (declares_symbol text.now (words_in known.old) name ++ (sort_known text.now (words_in known.old) sort ∷ []))
        (with_function text.now (words_in known.old) name [] (sort_number text.now (words_in known.old) sort)) }
{
    if let Some(fault) = symbol_fault(text, known, name) {
        return Err(Refused::For(fault));
    }
    let into = known_sort(text, known, sort)?;
    known.add_function(alloc, text, name, Sorts::new(alloc), into)?;
    Ok(())
}

// The sorts of a definition's parameters, at most 8. One that is not known counts as the first.
fn parameter_sorts(alloc: Global, text: &[u8], known: &Declarations, parameters: &[Binder]) -> Sorts
    requires within { BindersWithin (length text.now) parameters.now }
    requires few { length parameters.now ≤ max_arguments }
    ensures { result ≡ sorts_of_parameters text.now (words_in known.now) parameters.now }
{
    let mut sorts = Sorts::new(alloc);
    for parameter in parameters {
        let sort = known.sort(bytes(text, parameter.sort));
        sorts.push(Sort(sort.unwrap_or(0)));
    }
    sorts
}

/// Declares the name of an axiom. Err: the first demand that is not met, or out of memory.
pub fn add_axiom(
    alloc: Global,
    text: &[u8],
    known: &mut Declarations,
    name: Name,
) -> Result<(), Refused<Fault>>
    requires within { NameWithin (length text.now) name }
    requires sound { IsSorted (words_in known.old) }
    ensures { Answers (λ _. words_in known.new) result (declares_sentence text.now (words_in known.old) name)
        (with_axiom text.now (words_in known.old) name) }
{
    if let Some(fault) = sentence_name_fault(text, known, name) {
        return Err(Refused::For(fault));
    }
    known.add_axiom(alloc, text, name)?;
    Ok(())
}

/// Declares the name of a conjecture. Err: the first demand that is not met, or out of memory.
pub fn add_conjecture(
    alloc: Global,
    text: &[u8],
    known: &mut Declarations,
    name: Name,
) -> Result<(), Refused<Fault>>
    requires within { NameWithin (length text.now) name }
    requires sound { IsSorted (words_in known.old) }
    ensures { Answers (λ _. words_in known.new) result (declares_sentence text.now (words_in known.old) name)
        (with_conjecture text.now (words_in known.old) name) }
{
    if let Some(fault) = sentence_name_fault(text, known, name) {
        return Err(Refused::For(fault));
    }
    known.add_conjecture(alloc, text, name)?;
    Ok(())
}

/// Declares the name of an action. Err: the first demand that is not met, or out of memory.
pub fn add_action(
    alloc: Global,
    text: &[u8],
    known: &mut Declarations,
    name: Name,
) -> Result<(), Refused<Fault>>
    requires within { NameWithin (length text.now) name }
    requires sound { IsSorted (words_in known.old) }
    ensures { Answers (λ _. words_in known.new) result (declares_action text.now (words_in known.old) name)
        (with_action text.now (words_in known.old) name) }
{
    if let Some(fault) = action_name_fault(text, known, name) {
        return Err(Refused::For(fault));
    }
    known.add_action(alloc, text, name)?;
    Ok(())
}

/// Declares the relation of a `define`, with the sorts of its parameters; one that is not known counts as the first
/// sort. Err: the first demand on the name that is not met, or out of memory.
pub fn add_definition(
    alloc: Global,
    text: &[u8],
    known: &mut Declarations,
    name: Name,
    parameters: &[Binder],
) -> Result<(), Refused<Fault>>
    requires within { NameWithin (length text.now) name }
    requires parameters { BindersWithin (length text.now) parameters.now }
    requires few { length parameters.now ≤ max_arguments }
    requires sound { IsSorted (words_in known.old) }
    ensures { Answers (λ _. words_in known.new) result (declares_symbol text.now (words_in known.old) name)
        (with_definition text.now (words_in known.old) name
        (sorts_of_parameters text.now (words_in known.old) parameters.now)) }
{
    if let Some(fault) = symbol_fault(text, known, name) {
        return Err(Refused::For(fault));
    }
    let sorts = parameter_sorts(alloc, text, known, parameters);
    known.add_definition(alloc, text, name, sorts)?;
    Ok(())
}

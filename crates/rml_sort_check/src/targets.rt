// The first fault of the left side of an update, and of what becomes of it.
ghost use Rattle.std.specs.Prelude.{◌≡◌, ◌==◌, ◌||◌, ◌&&◌, ◌≤◌, is_some, ◌+◌, ◌++◌, ◌∷◌, [], None, Some};
ghost use Rattle.std.specs.Prelude.{length, option_map};
ghost use Rattle.fol_sig.specs.Tables.{numbers};
ghost use Rattle.rml_terms.specs.Tree.{expr_tree, expr_trees, exprs_of};
ghost use Rattle.rml_terms.specs.Shape.{ExprNests, ExprsNest, max_nesting};
ghost use Rattle.rml_syntax.specs.Shape.{SideNests};
ghost use Rattle.rml_terms.specs.Within.{NameWithin, NamesWithin, ExprWithin, ExprsWithin};
ghost use Rattle.rml_syntax.specs.Within.{ValueWithin};
ghost use Rattle.rml_sort_check.specs.declared.wanted.Wanted.TheVariants.{Formula, Term};
ghost use Rattle.rml_names.specs.Meanings.{bytes_of, symbol_of, is_among, argument_sorts as sorts_of_arguments};
ghost use Rattle.rml_names.specs.Meanings.{result_sort as sort_of_result, is_variable as means_variable};
ghost use Rattle.rml_names.specs.Meanings.{is_function_with_arguments as means_function_with_arguments};
ghost use Rattle.rml_names.specs.Meanings.{with_parameters};
ghost use Rattle.rml_sort_check.specs.Demands.{first_fault, expr_count, demands, argument_demands, tuple_demands};
ghost use Rattle.rml_sort_check.specs.Demands.{put_demands, assign_demands, parameter_demands, side_of as wanted_side};
ghost use Rattle.rml_sort_check.specs.Demands.{side_demands, may_vary as may_become_anything};
ghost use Rattle.rml_names.specs.Meanings.{is_writable as may_be_written};
ghost use Rattle.rml_names.specs.Scopes.{bound_names, names_of};
ghost use Rattle.rml_names.specs.Drafts.{words_in};
ghost use Rattle.rml_names.specs.Sound.{IsSorted, IsDeclared};
ghost use Rattle.fol_sig.specs.Arguments.{max_arguments};

use crate::faults::{arguments_fault, expression_fault, is_known, is_relation};
use crate::wanted::Wanted;
use fol_sig::Sort;
use rml_lex::{Fault, FaultCode};
use rml_names::{Declarations, Meaning, Scope, bytes};
use rml_syntax::Format;
use rml_terms::{Expr, Name};

// A fault where a name begins.
pub fn fault_at(code: FaultCode, name: Name) -> Fault
    ensures { result ≡ record { code = code; at = name.start } }
{
    Fault {
        code,
        at: name.start,
    }
}

/// The first fault of an expression that has to be a formula, under no binder.
pub fn sentence_fault(text: &[u8], known: &Declarations, e: &Expr) -> Option<Fault>
    requires nests { ExprNests max_nesting (expr_tree e.now) }
    requires within { ExprWithin (length text.now) (expr_tree e.now) }
    requires sound { IsSorted (words_in known.now) }
    ensures { result ≡ first_fault (demands text.now (words_in known.now) [] Formula (expr_tree e.now)) }
{
    outer_fault(text, known, Wanted::Formula, e)
}

// An expression under no binder.
fn outer_fault(text: &[u8], known: &Declarations, wanted: Wanted, e: &Expr) -> Option<Fault>
    requires nests { ExprNests max_nesting (expr_tree e.now) }
    requires within { ExprWithin (length text.now) (expr_tree e.now) }
    requires sound { IsSorted (words_in known.now) }
    ensures { result ≡ first_fault (demands text.now (words_in known.now) [] wanted (expr_tree e.now)) }
{
    let outside = Scope::outside();
    shallow_fault(text, known, &outside, wanted, e)
}

// An expression under no names but the parameters of one symbol.
pub fn shallow_fault(
    text: &[u8],
    known: &Declarations,
    scope: &Scope,
    wanted: Wanted,
    e: &Expr,
) -> Option<Fault>
    requires few { length (bound_names scope.now) ≤ max_arguments }
    requires nests { ExprNests max_nesting (expr_tree e.now) }
    requires within { ExprWithin (length text.now) (expr_tree e.now) }
    requires sound { IsSorted (words_in known.now) }
    ensures { result ≡ first_fault
        (demands text.now (words_in known.now) (bound_names scope.now) wanted (expr_tree e.now)) }
{
    expression_fault(text, known, scope, wanted, e)
}

// Arguments under no binder, each of its sort.
fn outer_arguments_fault(
    text: &[u8],
    known: &Declarations,
    args: &[Expr],
    sorts: &[Sort],
) -> Option<Fault>
    requires nests { ExprsNest max_nesting (exprs_of (expr_trees args.now)) }
    requires within { ExprsWithin (length text.now) (exprs_of (expr_trees args.now)) }
    requires sound { IsSorted (words_in known.now) }
    ensures { result ≡ first_fault
        (argument_demands text.now (words_in known.now) [] (exprs_of (expr_trees args.now)) (numbers sorts.now)) }
{
    let outside = Scope::outside();
    arguments_fault(text, known, &outside, args, sorts)
}

// Whether there are as many arguments as sorts.
fn is_counted(args: &[Expr], sorts: &[Sort]) -> bool
    ensures { result ≡ (expr_count (exprs_of (expr_trees args.now)) == length (numbers sorts.now)) }
{
    args.len() == sorts.len()
}

/// The first fault of a relation and its arguments, of `insert` or `remove`.
pub fn tuple_fault(text: &[u8], known: &Declarations, name: Name, args: &[Expr]) -> Option<Fault>
    requires nests { ExprsNest max_nesting (exprs_of (expr_trees args.now)) }
    requires name { NameWithin (length text.now) name }
    requires within { ExprsWithin (length text.now) (exprs_of (expr_trees args.now)) }
    requires sound { IsSorted (words_in known.now) }
    ensures { result ≡ first_fault
        (tuple_demands text.now (words_in known.now) (symbol_of (words_in known.now) (bytes_of text.now name))
        name.start (exprs_of (expr_trees args.now))) }
{
    let symbol = known.symbol(bytes(text, name));
    if !is_known(symbol) {
        return Some(fault_at(FaultCode::UnknownName, name));
    }
    if !(is_relation(symbol) && known.is_writable(symbol)) {
        return Some(fault_at(FaultCode::BadTarget, name));
    }
    let sorts = known.argument_sorts(symbol);
    if !is_counted(args, sorts) {
        return Some(fault_at(FaultCode::WrongArgumentCount, name));
    }
    outer_arguments_fault(text, known, args, sorts)
}

/// The first fault of `put`: a function with arguments, and its new value at them.
pub fn put_fault(
    text: &[u8],
    known: &Declarations,
    name: Name,
    args: &[Expr],
    value: &Expr,
) -> Option<Fault>
    requires nests { ExprsNest max_nesting (exprs_of (expr_trees args.now)) }
    requires value_nests { ExprNests max_nesting (expr_tree value.now) }
    requires name { NameWithin (length text.now) name }
    requires within { ExprsWithin (length text.now) (exprs_of (expr_trees args.now)) }
    requires value_within { ExprWithin (length text.now) (expr_tree value.now) }
    requires sound { IsSorted (words_in known.now) }
    ensures { result ≡ first_fault
        (put_demands text.now (words_in known.now) (symbol_of (words_in known.now) (bytes_of text.now name)) name.start
        (exprs_of (expr_trees args.now)) (expr_tree value.now)) }
{
    let symbol = known.symbol(bytes(text, name));
    if !is_known(symbol) {
        return Some(fault_at(FaultCode::UnknownName, name));
    }
    if !is_function_with_arguments(known, symbol) {
        return Some(fault_at(FaultCode::BadTarget, name));
    }
    if !is_counted(args, known.argument_sorts(symbol)) {
        return Some(fault_at(FaultCode::WrongArgumentCount, name));
    }
    entry_fault(text, known, symbol, args, value)
}

// The arguments of a function, and its new value there.
fn entry_fault(
    text: &[u8],
    known: &Declarations,
    symbol: Meaning,
    args: &[Expr],
    value: &Expr,
) -> Option<Fault>
    requires nests { ExprsNest max_nesting (exprs_of (expr_trees args.now)) }
    requires value_nests { ExprNests max_nesting (expr_tree value.now) }
    requires within { ExprsWithin (length text.now) (exprs_of (expr_trees args.now)) }
    requires value_within { ExprWithin (length text.now) (expr_tree value.now) }
    requires declared { IsDeclared (words_in known.now) symbol }
    requires sound { IsSorted (words_in known.now) }
    ensures { result ≡ first_fault
        (argument_demands text.now (words_in known.now) [] (exprs_of (expr_trees args.now))
        (sorts_of_arguments (words_in known.now) symbol)
        ++ demands text.now (words_in known.now) [] (Term (sort_of_result (words_in known.now) symbol))
        (expr_tree value.now)) }
{
    let sorts = known.argument_sorts(symbol);
    let arguments = outer_arguments_fault(text, known, args, sorts);
    let sort = known.result_sort(symbol);
    let entry = outer_fault(text, known, Wanted::Term(sort), value);
    arguments.or(entry)
}

fn is_variable(known: &Declarations, symbol: Meaning) -> bool
    requires { IsDeclared (words_in known.now) symbol }
    ensures { result ≡ means_variable (words_in known.now) symbol }
{
    match symbol {
        Meaning::Function(_) => known.argument_sorts(symbol).is_empty(),
        Meaning::Bound(_, _) | Meaning::Relation(_) | Meaning::Derived(_) | Meaning::Unknown =>
            false,
    }
}

fn is_function_with_arguments(known: &Declarations, symbol: Meaning) -> bool
    requires { IsDeclared (words_in known.now) symbol }
    ensures { result ≡ means_function_with_arguments (words_in known.now) symbol }
{
    match symbol {
        Meaning::Function(_) => !known.argument_sorts(symbol).is_empty(),
        Meaning::Bound(_, _) | Meaning::Relation(_) | Meaning::Derived(_) | Meaning::Unknown =>
            false,
    }
}

// Whether what is meant may become anything.
fn may_vary(known: &Declarations, format: Format, symbol: Meaning) -> bool
    requires { IsDeclared (words_in known.now) symbol }
    ensures { result ≡ may_become_anything (words_in known.now) format symbol }
{
    match format {
        Format::One => is_variable(known, symbol),
        Format::Two => is_variable(known, symbol) || is_relation(symbol),
    }
}

// Whether the name may stand at the left of `:=`; where there is no new value, any value is meant.
fn is_assignable(
    known: &Declarations,
    format: Format,
    symbol: Meaning,
    value: &Option<Expr>,
) -> bool
    requires { IsDeclared (words_in known.now) symbol }
    ensures { result ≡ (may_be_written (words_in known.now) symbol
        && (is_some (option_map expr_tree value.now) || may_become_anything (words_in known.now) format symbol)) }
{
    if !known.is_writable(symbol) {
        return false;
    }
    match value {
        Some(_) => true,
        None => may_vary(known, format, symbol),
    }
}

// Whether there are as many parameters as sorts.
fn is_named(parameters: &[Name], sorts: &[Sort]) -> bool
    ensures { result ≡ (length parameters.now == length (numbers sorts.now)) }
{
    parameters.len() == sorts.len()
}

/// The first fault of `:=`: a name, its parameters, and its new value; where there is none, any value.
pub fn assign_fault(
    text: &[u8],
    known: &Declarations,
    format: Format,
    name: Name,
    parameters: &[Name],
    value: &Option<Expr>,
) -> Option<Fault>
    requires nests { SideNests max_nesting (option_map expr_tree value.now) }
    requires name { NameWithin (length text.now) name }
    requires parameters { NamesWithin (length text.now) parameters.now }
    requires within { ValueWithin (length text.now) (option_map expr_tree value.now) }
    requires sound { IsSorted (words_in known.now) }
    ensures { result ≡ first_fault
        (assign_demands text.now (words_in known.now) format
        (symbol_of (words_in known.now) (bytes_of text.now name))
        name.start parameters.now (option_map expr_tree value.now)) }
{
    let symbol = known.symbol(bytes(text, name));
    if !is_known(symbol) {
        return Some(fault_at(FaultCode::UnknownName, name));
    }
    if !is_assignable(known, format, symbol, value) {
        return Some(fault_at(FaultCode::BadTarget, name));
    }
    let sorts = known.argument_sorts(symbol);
    if !is_named(parameters, sorts) {
        return Some(fault_at(FaultCode::WrongArgumentCount, name));
    }
    let outside = Scope::outside();
    assigned_fault(text, known, symbol, &outside, parameters, sorts, value)
}

// The parameters that are left, under those before them, and the value under them all.
fn assigned_fault(
    text: &[u8],
    known: &Declarations,
    symbol: Meaning,
    scope: &Scope,
    parameters: &[Name],
    sorts: &[Sort],
    value: &Option<Expr>,
) -> Option<Fault>
    requires as_many { length parameters.now ≡ length sorts.now }
    requires few { length (bound_names scope.now) + length parameters.now ≤ max_arguments }
    requires parameters_within { NamesWithin (length text.now) parameters.now }
    requires nests { SideNests max_nesting (option_map expr_tree value.now) }
    requires within { ValueWithin (length text.now) (option_map expr_tree value.now) }
    requires declared { IsDeclared (words_in known.now) symbol }
    requires sound { IsSorted (words_in known.now) }
    ensures { result ≡ first_fault
        (parameter_demands text.now (words_in known.now) (names_of (bound_names scope.now)) parameters.now
        ++ side_demands text.now (words_in known.now)
        (with_parameters text.now (bound_names scope.now) parameters.now (numbers sorts.now)) symbol
        (option_map expr_tree value.now)) }
{
    let [parameter, others @ ..] = parameters else {
        return side_fault(text, known, symbol, scope, value);
    };
    let [sort, behind @ ..] = sorts else {
        unreachable!()
    };
    let name = bytes(text, *parameter);
    if known.is_symbol(name) {
        return Some(fault_at(FaultCode::TakenName, *parameter));
    }
    if scope.has(name) {
        return Some(fault_at(FaultCode::DeclaredTwice, *parameter));
    }
    let inside = Scope::inside(name, sort.0, &*scope);
    assigned_fault(text, known, symbol, &inside, others, behind, value)
}

// The new value under the parameters.
fn side_fault(
    text: &[u8],
    known: &Declarations,
    symbol: Meaning,
    scope: &Scope,
    value: &Option<Expr>,
) -> Option<Fault>
    requires few { length (bound_names scope.now) ≤ max_arguments }
    requires nests { SideNests max_nesting (option_map expr_tree value.now) }
    requires within { ValueWithin (length text.now) (option_map expr_tree value.now) }
    requires declared { IsDeclared (words_in known.now) symbol }
    requires sound { IsSorted (words_in known.now) }
    ensures { result ≡ first_fault
        (side_demands text.now (words_in known.now) (bound_names scope.now) symbol (option_map expr_tree value.now)) }
{
    match value {
        Some(value) => shallow_fault(text, known, scope, side_of(text, known, symbol), value),
        None => None,
    }
}

// What the right side of an assignment has to be.
fn side_of(text: &[u8], known: &Declarations, symbol: Meaning) -> Wanted
    requires { IsDeclared (words_in known.now) symbol }
    ensures { result ≡ wanted_side text.now (words_in known.now) symbol }
{
    match symbol {
        Meaning::Relation(_) => Wanted::Formula,
        Meaning::Bound(_, _) => Wanted::Term(known.result_sort(symbol)),
        Meaning::Derived(_) => Wanted::Term(known.result_sort(symbol)),
        Meaning::Function(_) => Wanted::Term(known.result_sort(symbol)),
        Meaning::Unknown => Wanted::Term(known.result_sort(symbol)),
    }
}

// Hints for those who come from other languages: what is written here in the place of what they wrote.
//
// A fault says that something is not in the language, and not what would be. Tables say it for what newcomers are
// seen to write. At a bad byte one is looked up with the byte in front of it and then one with the bytes there; at an
// unexpected token one with the word there and the two in front of it; at an unknown name one with the name; and what
// is wrong with names, sorts and formulas has a hint by its code. Each was found by giving the program such texts. A
// further hint is a row.
ghost use Rattle.std.specs.Prelude.{◌≡◌};
ghost use Rattle.told_fault.specs.Hints.{words_of};

/// What is written in the place of what newcomers write.
#[derive(Clone, Copy)]
pub enum Hint {
    /// Unequal is written `~=`.
    NotEqual,
    /// `not` is written `~`.
    Not,
    /// `and` is written `&`.
    And,
    /// `or` is written `|`.
    Or,
    /// Implication is written `->`.
    Implies,
    /// Equivalence is written `<->`.
    Equivalent,
    /// Equality is written `=`.
    Equal,
    /// There is no order but a relation that is declared.
    Order,
    /// A comment begins with `#`.
    Comment,
    /// `else` takes a block: `else { if .. { .. } }`.
    ElseIf,
    /// Between two commands stands a `;`.
    Semicolon,
    /// A name has its sort: `forall X:s, Y:s. ..`.
    Sorts,
    /// A quantifier among other formulas stands in parentheses: `(forall X:s. ..)`.
    Parentheses,
    /// An invariant is declared as `conjecture NAME : ..`.
    Conjecture,
    /// A type is declared as `sort NAME`.
    Sort,
    /// An individual is declared as `variable NAME : s`.
    Variable,
    /// What is required is written `assume ..`.
    Assume,
    /// What is ensured is written `assert ..`.
    Assert,
    /// An update is written `x := ..`.
    Becomes,
    /// To set x to any element is written `x := *`.
    Havoc,
    /// An action has no parameters: declare `variable x : s`, and begin with `x := *`.
    Parameters,
    /// A file begins with `rml 1`, with `rml 2`, or with neither.
    Format,
    /// A quantifier names sorts, and stands before a dot.
    Quantifier,
    /// What is in a set is told by a relation: `r(x)`, `r(x, y)`.
    Member,
    /// A set is a relation, and changed by `insert` and `remove`.
    Set,
    /// There are no primes: behind `x := ..` the variable is new.
    Prime,
    /// A function is applied by parentheses, and changed by `put`.
    Apply,
    /// A conjecture is said of every state.
    Always,
    /// A file has no header.
    Header,
    /// What no command names stays as it is.
    Unchanged,
    /// A branch is written `if c { .. } else { .. }`.
    If,
    /// A constant is a variable that no command sets.
    Constant,
    /// The beginning is written `init { .. }`.
    Init,
    /// Each way to go on is an `action NAME { .. }`.
    Action,
    /// Truth is written `true` or `false`.
    Truth,
    /// Formulas are compared by `<->`, and a relation is no term.
    Formulas,
    /// A name that is bound is new.
    NewName,
    /// Functions may not lead round.
    Cycle,
    /// What exists for each element is given by a function.
    Witness,
    /// Each `if` and `choose` multiplies the paths.
    Paths,
}

impl Hint {
    /// The words of the hint.
    pub fn text(self) -> &'static str
        ensures { result.now ≡ words_of self }
    {
        match self {
            Hint::NotEqual => "unequal is written `~=`",
            Hint::Not => "`not` is written `~`",
            Hint::And =>
                "`and` is written `&`, and commands stand one behind another, with a `;` between",
            Hint::Or => "`or` is written `|`",
            Hint::Implies => "implication is written `->`",
            Hint::Equivalent => "equivalence is written `<->`",
            Hint::Equal => "equality is written `=`",
            Hint::Order => "there is no order but a relation that is declared",
            Hint::Comment => "a comment begins with `#`",
            Hint::ElseIf => "`else` takes a block: `else { if .. { .. } }`",
            Hint::Semicolon => "between two commands stands a `;`",
            Hint::Sorts => "a name has its sort: `forall X:s, Y:s. ..`",
            Hint::Parentheses =>
                "a quantifier among other formulas stands in parentheses: `(forall X:s. ..)`",
            Hint::Conjecture => "an invariant is declared as `conjecture NAME : ..`",
            Hint::Sort => "a type is declared as `sort NAME`",
            Hint::Variable => "an individual is declared as `variable NAME : s`",
            Hint::Assume => "what is required is written `assume ..`",
            Hint::Assert => "what is ensured is written `assert ..`",
            Hint::Becomes =>
                "an update is written `x := ..`, `insert r(x)`, `remove r(x)` or `put f(x) = ..`",
            Hint::Havoc => "to set x to any element is written `x := *`",
            Hint::Parameters =>
                "an action has no parameters: declare `variable x : s`, and begin with `x := *`",
            Hint::Format => "a file begins with `rml 1`, with `rml 2`, or with neither",
            Hint::Quantifier => "a quantifier is written `forall X:s. ..` or `exists X:s. ..`",
            Hint::Member => "what is in a set is told by a relation: `r(x)`, `r(x, y)`",
            Hint::Set => "a set is a relation: `insert r(x)`, `remove r(x)`, `r(X) := ..`",
            Hint::Prime => "there are no primes: behind `x := ..` the variable is new",
            Hint::Apply => "a function is applied as `f(x)`, and changed by `put f(x) = ..`",
            Hint::Always => "a conjecture is said of every state, without `[]`",
            Hint::Header =>
                "a file has no header: sorts, relations and actions stand one behind another",
            Hint::Unchanged => "what no command names stays as it is",
            Hint::If => "a branch is written `if c { .. } else { .. }`",
            Hint::Constant => "a constant is a `variable` that no command sets",
            Hint::Init => "the beginning is written `init { .. }`",
            Hint::Action => "each way to go on is an `action NAME { .. }`",
            Hint::Truth => "truth is written `true` or `false`",
            Hint::Formulas => "formulas are compared by `<->`, and a relation is no term",
            Hint::NewName =>
                "a name that is bound is new: for one element, `insert r(x)` or `put f(x) = ..`",
            Hint::Cycle =>
                "functions may not lead round: a relation in the place of one, or a sort of its own",
            Hint::Witness => "what exists for each element is given by a function: `r(N, f(N))`",
            Hint::Paths =>
                "each `if` and `choose` multiplies the paths: several actions in the place of one",
        }
    }
}

// What stands at a bad byte.
pub const BYTE_ROWS: [(&str, Hint); 20] = [
    ("!=", Hint::NotEqual),
    ("!", Hint::Not),
    ("/\\", Hint::And),
    ("\\/", Hint::Or),
    ("\\A", Hint::Quantifier),
    ("\\E", Hint::Quantifier),
    ("\\in", Hint::Member),
    ("\\notin", Hint::Member),
    ("\\*", Hint::Comment),
    ("\\", Hint::Set),
    ("//", Hint::Comment),
    ("/=", Hint::NotEqual),
    ("<=>", Hint::Equivalent),
    ("<<", Hint::Member),
    ("<", Hint::Order),
    (">", Hint::Order),
    ("'", Hint::Prime),
    ("[]", Hint::Always),
    ("[", Hint::Apply),
    ("---", Hint::Header),
];

// What stands at a bad byte and the one in front of it.
pub const PAIR_ROWS: [(&str, Hint); 1] = [("=>", Hint::Implies)];

// What stands at a name that nothing declares.
pub const NAME_ROWS: [(&str, Hint); 2] = [("TRUE", Hint::Truth), ("FALSE", Hint::Truth)];

// What stands round an unexpected token: the token before the one in front, the one in front, and the one at the fault;
// an empty one is any, or none.
pub const TOKEN_ROWS: [(&str, &str, &str, Hint); 45] = [
    ("", "else", "if", Hint::ElseIf),
    ("", "=", "=", Hint::Equal),
    ("", "&", "&", Hint::And),
    ("", "|", "|", Hint::Or),
    ("forall", "", ",", Hint::Sorts),
    ("exists", "", ",", Hint::Sorts),
    ("forall", "", ".", Hint::Sorts),
    ("exists", "", ".", Hint::Sorts),
    (",", "", ".", Hint::Sorts),
    ("", "~", "forall", Hint::Parentheses),
    ("", "&", "forall", Hint::Parentheses),
    ("", "|", "forall", Hint::Parentheses),
    ("", "->", "forall", Hint::Parentheses),
    ("", "<->", "forall", Hint::Parentheses),
    ("", "=", "forall", Hint::Parentheses),
    ("", "~=", "forall", Hint::Parentheses),
    ("", "~", "exists", Hint::Parentheses),
    ("", "&", "exists", Hint::Parentheses),
    ("", "|", "exists", Hint::Parentheses),
    ("", "->", "exists", Hint::Parentheses),
    ("", "<->", "exists", Hint::Parentheses),
    ("", "=", "exists", Hint::Parentheses),
    ("", "~=", "exists", Hint::Parentheses),
    ("", "", "and", Hint::And),
    ("", "not", "", Hint::Not),
    ("", "", "invariant", Hint::Conjecture),
    ("", "", "type", Hint::Sort),
    ("", "", "individual", Hint::Variable),
    ("", "require", "", Hint::Assume),
    ("", "ensure", "", Hint::Assert),
    ("{", "", "=", Hint::Becomes),
    (";", "", "=", Hint::Becomes),
    ("", "", "safety", Hint::Conjecture),
    ("", "havoc", "", Hint::Havoc),
    ("action", "", "(", Hint::Parameters),
    ("", "rml", "", Hint::Format),
    ("", "UNCHANGED", "", Hint::Unchanged),
    ("", "IF", "", Hint::If),
    ("", "", "VARIABLE", Hint::Variable),
    ("", "", "VARIABLES", Hint::Variable),
    ("", "", "CONSTANT", Hint::Constant),
    ("", "", "CONSTANTS", Hint::Constant),
    ("", "", "Init", Hint::Init),
    ("", "", "Next", Hint::Action),
    ("", ")", "=", Hint::Becomes),
];

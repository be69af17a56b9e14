// Literals: a variable with a sign in one number of four bytes, so that an opposite is the neighbouring number and a
// table over literals is indexed by the number.
ghost use Rattle.std.specs.Prelude.{◌≡◌, ◌<◌, ◌≤◌, ◌^◌, IsTrue, true, false};
ghost use Rattle.cnf_base.specs.Literals.{variable_of, is_positive, literal_of, opposite};

use std::marker::Model;

/// A variable or its negation. A literal is seen as its code: twice the variable's number, and one
/// more for the negation. Variables have the numbers 1 to 2147483647.
#[derive(Clone, Copy, PartialEq, Eq, Hash, Debug)]
pub struct Lit {
    code: u32,
}

impl Model for Lit {
    ghost use Rattle.std.specs.Prelude.{ℕ, ◌≤◌};

    ghost Value = { ℕ };

    ghost view = { λ l. l.code };

    ghost inverse = { λ code. record { code = code } };

    ghost invariant = { λ l. 2 ≤ l.code };
}

/// The literal of variable 1.
impl Default for Lit {
    fn default() -> Self {
        Lit { code: 2 }
    }
}

impl Lit {
    /// The literal that says that this variable is true.
    pub fn positive(variable: u32) -> Lit
        requires { (0 < variable) × (variable < 2 ^ 31) }
        ensures { result ≡ literal_of true variable }
    {
        Lit { code: 2 * variable }
    }

    /// The literal that says that this variable is false.
    pub fn negative(variable: u32) -> Lit
        requires { (0 < variable) × (variable < 2 ^ 31) }
        ensures { result ≡ literal_of false variable }
    {
        Lit {
            code: 2 * variable + 1,
        }
    }

    /// The literal that says that this variable is true, or the one that says that it is false.
    pub fn new(variable: u32, positive: bool) -> Lit
        requires { (0 < variable) × (variable < 2 ^ 31) }
        ensures { result ≡ literal_of positive variable }
    {
        if positive {
            Lit::positive(variable)
        } else {
            Lit::negative(variable)
        }
    }

    /// The number of its variable, from 1 on.
    pub fn variable(self) -> u32
        ensures variable { result ≡ variable_of self }
        ensures range { (0 < result) × (result < 2 ^ 31) }
    {
        self.code / 2
    }

    /// Whether it says that its variable is true.
    pub fn is_positive(self) -> bool
        ensures { result ≡ is_positive self }
    {
        self.code % 2 == 0
    }

    /// The literal of the same variable that says the contrary.
    #[tactic(auto, unfolding(crate::specs::Literals::opposite))]
    pub fn opposite(self) -> Lit
        ensures { result ≡ opposite self }
    {
        if self.is_positive() {
            Lit {
                code: self.code + 1,
            }
        } else {
            Lit {
                code: self.code - 1,
            }
        }
    }

    /// At most 4294967295, so it serves as an index.
    pub fn code(self) -> u32
        ensures code { result ≡ self }
        ensures range { 2 ≤ result }
    {
        self.code
    }
}

// The truth value that a variable had last.
ghost use Rattle.std.specs.Prelude.{◌≡◌, ◌⊎◌, ◌+◌, ◌*◌, ◌^◌, ◌<◌, ℕ, false, get_or, length, set, IfOk};
ghost use Rattle.cnf_base.specs.Literals.{variable_of, is_positive, literal_of};

use base::Mem;
use cnf_base::Lit;
use std::alloc::Global;
use std::marker::Model;

/// For each variable, whether it was true when it was set last. A decision sets it so again.
#[derive(Drop)]
pub struct Phases {
    were_true: Vec<bool>,
}

impl Model for Phases {
    ghost use Rattle.std.specs.Prelude.{List, Bool};

    ghost Value = { List Bool };

    ghost view = { λ p. p.were_true.items };
}

impl Phases {
    /// No variable was true so far. Variables are numbered from 1 to below `slots`.
    pub fn new(alloc: Global, slots: u32) -> Mem<Phases>
        ensures len { IfOk result (λ p. length p ≡ slots) }
        ensures none { IfOk result (λ p. (v : ℕ) → get_or p v false ≡ false) }
    {
        Ok(Phases {
            were_true: vec![in alloc; false; slots as usize]?,
        })
    }

    /// A literal was true, and is unset again.
    pub fn save(&mut self, literal: Lit)
        ensures { self.new ≡ set self.old (variable_of literal) (is_positive literal) }
    {
        let slot = literal.variable() as usize;
        if slot < self.were_true.len() {
            self.were_true[slot] = literal.is_positive();
        }
    }

    /// The literal of a variable that was true last, or its negation where none was.
    pub fn literal(&self, variable: u32) -> Lit
        requires { (0 < variable) × (variable < 2 ^ 31) }
        ensures last { result ≡ literal_of (get_or self.now variable false) variable }
        ensures either { (result ≡ 2 * variable) ⊎ (result ≡ 2 * variable + 1) }
    {
        if let Some(true) = self.were_true.get(variable as usize) {
            Lit::positive(variable)
        } else {
            Lit::negative(variable)
        }
    }
}

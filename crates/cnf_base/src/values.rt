// Truth values. Most variables that a header promises stand in no clause and are false, so what is kept are those that
// are true: memory goes by these, and a look-up is a binary search.
ghost use Rattle.std.specs.Prelude.{◌≡◌, ℕ, ◌<◌, ◌≤◌, ◌==◌, ◌||◌, false, length, OnOk, OnErr};
ghost use Rattle.std.specs.Prelude.{if◌then◌else◌};
ghost use Rattle.cnf_base.specs.Literals.{member};
ghost use Rattle.cnf_base.specs.Formulas.{value_of};
ghost use Rattle.cnf_base.specs.Rising.{AreRising};

use base::Mem;
use std::alloc::Global;
use std::marker::Model;

/// A truth value for each of the variables 1 to a number, seen as the list of these values.
#[derive(Drop)]
pub struct Values {
    variables: u32,
    trues: Vec<u32>,
}

impl Model for Values {
    ghost use Rattle.std.specs.Prelude.{List, Bool};

    ghost Value = { List Bool };

    ghost use Rattle.cnf_base.specs.ValuesView.{value_of_values, IsValues};

    ghost view = { value_of_values };

    ghost invariant = { IsValues };
}

fn has(trues: &[u32], variable: u32) -> bool
    requires { (most : ℕ) × AreRising most 0 trues.now }
    ensures { result ≡ member variable trues.now }
{
    trues.binary_search(&variable).is_ok()
}

impl Values {
    /// The values of so many variables, all false.
    pub fn all_false(alloc: Global, variables: u32) -> Values
        ensures len { length result ≡ variables }
        ensures values { (v : ℕ) → value_of result v ≡ false }
    {
        Values {
            variables,
            trues: Vec::new(alloc),
        }
    }

    /// How many values there are.
    pub fn len(&self) -> usize
        ensures { result ≡ length self.now }
    {
        self.variables as usize
    }

    /// The value of a variable; one without a value, as 0, is false.
    pub fn value(&self, variable: u32) -> bool
        ensures value { 0 < variable → result ≡ value_of self.now variable }
        ensures none { variable ≡ 0 → result ≡ false }
    {
        if variable > self.variables {
            return false;
        }
        has(self.trues.as_slice(), variable)
    }

    /// Makes a variable true, which is above those that are true so far.
    fn set_true(&mut self, variable: u32) -> Mem<()>
        requires within { (0 < variable) × (variable ≤ length self.old) }
        requires above { (v : ℕ) → variable ≤ v → value_of self.old v ≡ false }
        ensures len { length self.new ≡ length self.old }
        ensures ok { OnOk result ((v : ℕ) → 0 < v → value_of self.new v ≡ (v == variable || value_of self.old v)) }
        ensures kept { OnErr result (self.new ≡ self.old) }
    {
        self.trues.push(variable)?;
        Ok(())
    }

    /// Gives a variable a value. Those that are true so far are below it.
    pub fn set(&mut self, variable: u32, value: bool) -> Mem<()>
        requires within { (0 < variable) × (variable ≤ length self.old) }
        requires above { (v : ℕ) → variable ≤ v → value_of self.old v ≡ false }
        ensures len { length self.new ≡ length self.old }
        ensures ok { OnOk result ((v : ℕ) → 0 < v
            → value_of self.new v ≡ (if v == variable then value else value_of self.old v)) }
        ensures kept { OnErr result (self.new ≡ self.old) }
    {
        if !value {
            return Ok(());
        }
        self.set_true(variable)?;
        Ok(())
    }
}

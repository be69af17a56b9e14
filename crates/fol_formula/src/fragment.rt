// The sentences of a fragment as types: whoever holds one need not test it again, and what a call
// takes or gives says of which fragment it is. The fragments differ in their test alone, so one type
// over them all serves each.
ghost use Rattle.std.specs.Prelude.{◌≡◌, ◌↔◌, IfOk, IfErr, OnOk, OnErr, IsTrue};
ghost use Rattle.fol_formula.specs.Syntax.{FormTree};
ghost use Rattle.fol_formula.specs.View.{form};
ghost use Rattle.fol_formula.specs.Counts.{form_nodes, form_depth, saturated};
ghost use Rattle.fol_formula.specs.Fragments.{IsEa, IsAe, IsPlainUniversal, IsNormal};

use crate::{Formula, Sentence};
use base::Mem;
use std::alloc::Global;
use std::marker::{Model, PhantomData};

/// A fragment of first-order logic, with its test.
pub trait Fragment {
    ghost contains: { FormTree → Type 0 };

    /// Whether the formula lies in the fragment.
    fn contains(formula: &Formula) -> bool
        ensures { IsTrue result ↔ contains (form formula.now) };
}

/// A sentence of a fragment.
#[derive(Drop, Debug)]
pub struct SentenceIn<F: Fragment> {
    sentence: Sentence,
    fragment: PhantomData<F>,
}

impl<F: Fragment> Model for SentenceIn<F> {
    ghost use Rattle.fol_formula.specs.Syntax.{FormTree};
    ghost use Rattle.fol_formula.specs.Code.{form_code};

    ghost Value = { FormTree };

    ghost coded = { form_code };

    ghost view = { λ s. s.sentence };

    ghost invariant = { λ s. F.contains s.sentence };
}

impl<F: Fragment> SentenceIn<F> {
    /// The sentence, which lies in the fragment.
    pub fn new(sentence: Sentence) -> SentenceIn<F>
        requires { F.contains sentence }
        ensures { result ≡ sentence }
    {
        SentenceIn {
            sentence,
            fragment: PhantomData,
        }
    }

    /// Tests the sentence, and hands it back where it lies outside of the fragment.
    pub fn of(sentence: Sentence) -> Result<SentenceIn<F>, Sentence>
        ensures kept { IfOk result (λ s. s ≡ sentence) }
        ensures fragment { OnOk result (F.contains sentence) }
        ensures refused { OnErr result (¬ F.contains sentence) }
        ensures back { IfErr result (λ s. s ≡ sentence) }
    {
        if F::contains(sentence.formula()) {
            Ok(SentenceIn::new(sentence))
        } else {
            Err(sentence)
        }
    }

    pub fn sentence(&self) -> &Sentence
        ensures value { result.now ≡ self.now }
        ensures fragment { F.contains self.now }
    {
        &self.sentence
    }

    pub fn into_sentence(self) -> Sentence
        ensures value { result ≡ self }
        ensures fragment { F.contains self }
    {
        self.sentence
    }

    /// How many nodes the sentence has, or the greatest number where it has more.
    pub fn nodes(&self) -> u64
        ensures { result ≡ saturated (form_nodes self.now) }
    {
        self.sentence.nodes()
    }

    /// How deep the sentence is, or the greatest number where it is deeper.
    pub fn depth(&self) -> u64
        ensures { result ≡ saturated (form_depth self.now) }
    {
        self.sentence.depth()
    }

    /// A second sentence with the same tree.
    pub fn copy(&self, alloc: Global) -> Mem<SentenceIn<F>>
        ensures { IfOk result (λ s. s ≡ self.now) }
    {
        Ok(SentenceIn::new(self.sentence.copy(alloc)?))
    }
}

/// The normal form has no existential in the scope of a universal, and no quantifier stands inside an
/// `Ite`: the sentences that their ground instances decide.
#[derive(Drop, Debug)]
pub struct ExistsForall;

/// The negation is exists-forall, and no quantifier stands inside an `Ite`.
#[derive(Drop, Debug)]
pub struct ForallExists;

/// The normal form has no existential, and no quantifier stands inside an `Ite`.
#[derive(Drop, Debug)]
pub struct PurelyUniversal;

/// Exists-forall in positive normal form, without `Ite`: negations stand at atoms alone, and there is
/// no implication and no equivalence.
#[derive(Drop, Debug)]
pub struct NormalExistsForall;

/// An exists-forall sentence.
pub type Ea = SentenceIn<ExistsForall>;

/// A forall-exists sentence.
pub type Ae = SentenceIn<ForallExists>;

/// A universal sentence.
pub type Universal = SentenceIn<PurelyUniversal>;

/// An exists-forall sentence in normal form.
pub type Normal = SentenceIn<NormalExistsForall>;

impl Fragment for ExistsForall {
    ghost contains = { IsEa };

    fn contains(formula: &Formula) -> bool {
        formula.prefix_classes().exists_forall && formula.has_plain_terms()
    }
}

impl Fragment for ForallExists {
    ghost contains = { IsAe };

    fn contains(formula: &Formula) -> bool {
        formula.prefix_classes().forall_exists && formula.has_plain_terms()
    }
}

impl Fragment for PurelyUniversal {
    ghost contains = { IsPlainUniversal };

    fn contains(formula: &Formula) -> bool {
        formula.prefix_classes().universal && formula.has_plain_terms()
    }
}

impl Fragment for NormalExistsForall {
    ghost contains = { IsNormal };

    fn contains(formula: &Formula) -> bool {
        formula.prefix_classes().exists_forall && formula.is_normal_form()
    }
}

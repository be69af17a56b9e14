// The binders around an expression, as a chain from the nearest one outward: each lives in the call that walks the
// quantifier's body, so that a scope costs no memory and nothing has to be taken off again. A look-up goes along the
// chain, which has few binders: those of a sentence, and parameters outside them (`max_bound` of the specs).
ghost use Rattle.std.specs.Prelude.{◌≡◌, [], ◌∷◌};
ghost use Rattle.rml_names.specs.Meanings.{is_among};
ghost use Rattle.rml_names.specs.Scopes.{bound_names, names_of};

/// A bound name and the number of its sort.
#[derive(Clone, Copy)]
pub struct Bound<'a> {
    /// The bytes of the name.
    pub name: &'a [u8],
    /// The number of its sort.
    pub sort: u32,
}

/// The binders around an expression: the nearest one, and those around it.
#[derive(Clone, Copy)]
pub enum Scope<'a> {
    /// No binder.
    Outside,
    /// A binder inside others.
    Inside(Bound<'a>, &'a Scope<'a>),
}

impl<'a> Scope<'a> {
    /// No binder.
    pub fn outside() -> Scope<'a>
        ensures { bound_names result ≡ [] }
    {
        Scope::Outside
    }

    /// A binder of this name and sort inside the others.
    pub fn inside(name: &'a [u8], sort: u32, outer: &'a Scope<'a>) -> Scope<'a>
        ensures { bound_names result ≡ record { name = name.now; sort = sort } ∷ bound_names outer.now }
    {
        Scope::Inside(Bound { name, sort }, outer)
    }

    /// Whether one of the binders has this name.
    pub fn has(&self, name: &[u8]) -> bool
        ensures { result ≡ is_among (names_of (bound_names self.now)) name.now }
    {
        match self {
            Scope::Outside => false,
            Scope::Inside(bound, outer) => name == bound.name || outer.has(name),
        }
    }
}

// What the sizes mean. Each function is its contract, and does nothing.
ghost use Rattle.ground_size.specs.Laws.{InstancesAreCounted, AxiomsAreCounted};
ghost use Rattle.ground_size.specs.Existentials.{ExistentialsAreOfParts};

/// The sizes are those of the ground formulas.
pub fn size_laws()
    ensures instances { InstancesAreCounted }
    ensures axioms { AxiomsAreCounted }
{
    fol_nnf::exactness();
    skolem::exactness();
}

/// The existentials of a normal form are those of its parts.
pub fn existential_laws()
    ensures { ExistentialsAreOfParts }
{}

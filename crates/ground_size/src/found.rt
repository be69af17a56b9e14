// What is told of a sentence whose ground formulas are counted.

/// How many ground terms there are once a sentence's existentials are constants, and how large its ground formulas
/// are: the nodes of its instance, and the axioms of equality. A number that 64 bits do not hold is the greatest that
/// they hold.
#[derive(Clone, Copy)]
pub struct GroundSize {
    pub terms: u64,
    pub size: u64,
}

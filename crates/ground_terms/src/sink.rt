// What takes ground formulas in prefix order.
ghost use Rattle.std.specs.Prelude.{◌≡◌, List, [], ◌∷◌, ◌++◌, OnOk, OnErr};
ghost use Rattle.ground_terms.specs.Calls.{Call, a_node, a_literal};
ghost use Rattle.ground_terms.specs.declared.ground.Junction.TheVariants.{And, Or};

use crate::Atom;
use base::Mem;

/// Takes formulas in prefix order: a node with its number of parts, then the parts. A sink stands for a list of
/// calls. A call that is refused for want of memory leaves what it stands for.
pub trait GroundSink {
    // the sink stands for these calls
    ghost stands: { Self → List Call → Type 0 };

    fn and(&mut self, parts: u64) -> Mem<()>
        ensures taken { OnOk result ((calls : List Call) → stands self.old calls
            → stands self.new (calls ++ a_node And parts ∷ [])) }
        ensures refused { OnErr result ((calls : List Call) → stands self.old calls → stands self.new calls) };

    fn or(&mut self, parts: u64) -> Mem<()>
        ensures taken { OnOk result ((calls : List Call) → stands self.old calls
            → stands self.new (calls ++ a_node Or parts ∷ [])) }
        ensures refused { OnErr result ((calls : List Call) → stands self.old calls → stands self.new calls) };

    fn literal(&mut self, atom: Atom, positive: bool) -> Mem<()>
        ensures taken { OnOk result ((calls : List Call) → stands self.old calls
            → stands self.new (calls ++ a_literal atom positive ∷ [])) }
        ensures refused { OnErr result ((calls : List Call) → stands self.old calls → stands self.new calls) };
}

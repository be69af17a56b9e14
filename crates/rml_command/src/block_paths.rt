// The paths of a block. Their primitives stand once, in one list.
ghost use Rattle.std.specs.Prelude.{◌≡◌, ◌<◌, [], length, map, slice_get, Some};
ghost use Rattle.std.specs.List.{AllByRecursion};
ghost use Rattle.rml_command.specs.Routes.{IsRoute, path_along};

use crate::command::Primitive;
use crate::path::Path;
use crate::route::Route;
use std::alloc::Global;
use std::marker::Model;

/// The paths of a block, in order. The primitives of the block stand once, and a path is a list of spans
/// of them, one for each run of primitives behind one another: so the paths are as large as the block and
/// their spans.
#[derive(Drop)]
pub struct Paths {
    primitives: Vec<Primitive>,
    routes: Vec<Route>,
}

impl Model for Paths {
    ghost use Rattle.std.specs.Prelude.{List, map};
    ghost use Rattle.std.specs.List.{AllByRecursion};
    ghost use Rattle.rml_command.specs.Trees.{PrimitiveTree};
    ghost use Rattle.rml_command.specs.Code.{paths_code};

    ghost Value = { List (List PrimitiveTree) };

    ghost coded = { paths_code };

    ghost use Rattle.rml_command.specs.Routes.{IsRoute, path_along};

    ghost view = { λ p. map (path_along p.primitives.items) p.routes.items };

    ghost invariant = { λ p. AllByRecursion (IsRoute p.primitives.items) p.routes.items };
}

impl Paths {
    /// No path.
    pub fn none(alloc: Global) -> Paths
        ensures { result ≡ [] }
    {
        Paths {
            primitives: Vec::new(alloc),
            routes: Vec::new(alloc),
        }
    }

    // The paths that these routes take through the primitives.
    pub(crate) fn new(primitives: Vec<Primitive>, routes: Vec<Route>) -> Paths
        requires { AllByRecursion (IsRoute primitives.items) routes.items }
        ensures { result ≡ map (path_along primitives.items) routes.items }
    {
        Paths { primitives, routes }
    }

    /// How many paths there are.
    pub fn len(&self) -> usize
        ensures { result ≡ length self.now }
    {
        self.routes.len()
    }

    /// The path of this number, from 0.
    pub fn path(&self, number: usize) -> Path<'_>
        requires { number < length self.now }
        ensures { slice_get self.now number ≡ Some result }
    {
        Path::new(&self.primitives, &self.routes[number])
    }
}

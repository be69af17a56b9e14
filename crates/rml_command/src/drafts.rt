// The routes of the parts of a sequence so far. What they have in common at their ends stands once, so that a
// primitive behind many paths costs one step and not one for each of them.
ghost use Rattle.std.specs.Prelude.{◌≡◌, ◌++◌, ◌∷◌, [], false, map, OnOk, IfOk};
ghost use Rattle.std.specs.List.{AllByRecursion, flat_map};
ghost use Rattle.rml_command.specs.Spans.{no_route, longer, routes_on, Stops};

use crate::route::Route;
use base::Mem;
use std::alloc::Global;
use std::marker::Model;

// Each of the routes goes on with `tail`. Where `onward` is false none of them goes on any further.
#[derive(Drop)]
pub struct Drafts {
    routes: Vec<Route>,
    tail: Route,
    onward: bool,
}

impl Model for Drafts {
    ghost use Rattle.std.specs.Prelude.{◌≡◌, false, List, map};
    ghost use Rattle.std.specs.List.{AllByRecursion};
    ghost use Rattle.rml_command.specs.Spans.{RouteTree, longer, Stops};

    ghost Value = { List RouteTree };

    ghost view = { λ d. map (λ r. longer r d.tail) d.routes.items };

    ghost invariant = { λ d. d.onward ≡ false → AllByRecursion Stops (map (λ r. longer r d.tail) d.routes.items) };
}

impl Drafts {
    fn of(routes: Vec<Route>, tail: Route, onward: bool) -> Drafts
        requires { onward ≡ false → AllByRecursion Stops (map (λ r. longer r tail) routes.items) }
        ensures { result ≡ map (λ r. longer r tail) routes.items }
    {
        Drafts {
            routes,
            tail,
            onward,
        }
    }

    // The route of `skip`.
    pub fn new(alloc: Global) -> Mem<Drafts>
        ensures { IfOk result (λ d. d ≡ no_route ∷ []) }
    {
        Ok(Drafts {
            routes: only(alloc, Route::new(alloc))?,
            tail: Route::new(alloc),
            onward: true,
        })
    }

    pub fn goes_on(&self) -> bool
        ensures { result ≡ false → AllByRecursion Stops self.now }
    {
        self.onward
    }

    // Each route goes on with each of the next part.
    pub fn go_on(self, alloc: Global, next: Vec<Route>) -> Mem<Drafts>
        ensures { IfOk result (λ d. d ≡ flat_map (routes_on next.items) self) }
    {
        if let [one] = next.as_slice() {
            let longer = self.go_on_with(one)?;
            return Ok(longer);
        }
        let routes = go_on_each(alloc, self.into_routes(alloc)?, &next)?;
        let onward = some_goes_on(&routes);
        Ok(Drafts::of(routes, Route::new(alloc), onward))
    }

    fn go_on_with(self, one: &Route) -> Mem<Drafts>
        ensures { IfOk result (λ d. d ≡ flat_map (routes_on (one.now ∷ [])) self) }
    {
        let Drafts {
            routes,
            mut tail,
            onward,
        } = self;
        tail.go_on(one)?;
        Ok(Drafts::of(routes, tail, onward & !one.aborts()))
    }

    pub fn into_routes(self, alloc: Global) -> Mem<Vec<Route>>
        ensures { IfOk result (λ rs. rs.items ≡ self) }
    {
        let Drafts {
            routes,
            tail,
            onward: _,
        } = self;
        let all = all_longer(alloc, routes, &tail)?;
        Ok(all)
    }
}

pub fn only(alloc: Global, route: Route) -> Mem<Vec<Route>>
    ensures { IfOk result (λ rs. rs.items ≡ route ∷ []) }
{
    let mut all = Vec::new(alloc);
    all.push(route)?;
    Ok(all)
}

fn longer(mut route: Route, tail: &Route) -> Mem<Route>
    ensures { IfOk result (λ r. r ≡ longer route tail.now) }
{
    route.go_on(tail)?;
    Ok(route)
}

fn all_longer(alloc: Global, routes: Vec<Route>, tail: &Route) -> Mem<Vec<Route>>
    ensures { IfOk result (λ rs. rs.items ≡ map (λ r. longer r tail.now) routes.items) }
{
    let mut all = Vec::new(alloc);
    for route in routes {
        all.push(longer(route, tail)?)?;
    }
    Ok(all)
}

fn go_on_each(alloc: Global, routes: Vec<Route>, next: &[Route]) -> Mem<Vec<Route>>
    ensures { IfOk result (λ rs. rs.items ≡ flat_map (routes_on next.now) routes.items) }
{
    let mut all = Vec::new(alloc);
    for route in routes {
        branch(alloc, route, next, &mut all)?;
    }
    Ok(all)
}

fn branch(alloc: Global, route: Route, next: &[Route], into: &mut Vec<Route>) -> Mem<()>
    ensures { OnOk result (into.new.items ≡ into.old.items ++ routes_on next.now route) }
{
    if route.aborts() {
        into.push(route)?;
        return Ok(());
    }
    branch_open(alloc, &route, next, into)
}

fn branch_open(alloc: Global, route: &Route, next: &[Route], into: &mut Vec<Route>) -> Mem<()>
    requires { route.now.aborts ≡ false }
    ensures { OnOk result (into.new.items ≡ into.old.items ++ routes_on next.now route.now) }
{
    for one in next {
        into.push(longer(route.copy(alloc)?, one)?)?;
    }
    Ok(())
}

fn some_goes_on(routes: &[Route]) -> bool
    ensures { result ≡ false → AllByRecursion Stops routes.now }
{
    let mut rest = routes;
    while let [route, after @ ..] = rest {
        if !route.aborts() {
            return true;
        }
        rest = after;
    }
    false
}

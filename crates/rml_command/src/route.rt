// A path of a block, as spans of the list of the block's primitives. The last span stands apart, so that it
// grows where the next one begins at its end, and a path without a choice needs no memory.
ghost use Rattle.std.specs.Prelude.{◌≡◌, ◌<◌, ◌≤◌, ◌-◌, ◌++◌, ◌∷◌, [], OnOk, OnErr, IfOk, false, length};
ghost use Rattle.std.specs.List.{AllByRecursion};
ghost use Rattle.rml_command.specs.Spans.{places_in, places_of, IsFilled, RouteTree, no_route, longer};

use crate::span::Span;
use base::Mem;
use std::alloc::Global;
use std::marker::Model;

// The spans of a path, none of them empty, the last of them, which may be, and whether the path ends in
// abort.
#[derive(Drop)]
pub struct Route {
    spans: Vec<Span>,
    last: Span,
    aborts: bool,
}

impl Model for Route {
    ghost use Rattle.std.specs.Prelude.{◌++◌, ◌≤◌};
    ghost use Rattle.std.specs.List.{AllByRecursion};
    ghost use Rattle.rml_command.specs.Spans.{RouteTree, places_in, places_of, IsFilled};

    ghost Value = { RouteTree };

    ghost view = { λ r. record { places = places_of r.spans.items ++ places_in r.last; aborts = r.aborts } };

    ghost invariant = { λ r. AllByRecursion IsFilled r.spans.items × (r.last.start ≤ r.last.end) };
}

// The spans of a route apart.
#[derive(Drop)]
pub struct Pieces<'a> {
    pub spans: &'a [Span],
    pub last: Span,
}

impl Route {
    // The path of `skip`.
    pub fn new(alloc: Global) -> Route
        ensures { result ≡ no_route }
    {
        Route::of(alloc, Span { start: 0, end: 0 }, false)
    }

    pub fn of(alloc: Global, span: Span, aborts: bool) -> Route
        requires { span.start ≤ span.end }
        ensures { result ≡ record { places = places_in span; aborts = aborts } }
    {
        Route {
            spans: Vec::new(alloc),
            last: span,
            aborts,
        }
    }

    pub fn aborts(&self) -> bool
        ensures { result ≡ self.now.aborts }
    {
        self.aborts
    }

    pub fn pieces(&self) -> Pieces<'_>
        ensures places { places_of result.spans.now ++ places_in result.last ≡ self.now.places }
        ensures filled { AllByRecursion IsFilled result.spans.now }
        ensures ordered { result.last.start ≤ result.last.end }
    {
        Pieces {
            spans: &self.spans,
            last: self.last,
        }
    }

    // One more span at the end. The route is as before where the memory is wanting.
    fn push(&mut self, span: Span) -> Mem<()>
        requires { span.start ≤ span.end }
        ensures pushed { OnOk result
            (self.new ≡ record { places = self.old.places ++ places_in span; aborts = self.old.aborts }) }
        ensures kept { OnErr result (self.new ≡ self.old) }
    {
        if span.start == span.end {
            return Ok(());
        }
        if span.start == self.last.end {
            self.last.end = span.end;
            return Ok(());
        }
        if self.last.start < self.last.end {
            self.spans.push(self.last)?;
        }
        self.last = span;
        Ok(())
    }

    fn push_all(&mut self, spans: &[Span]) -> Mem<()>
        requires { AllByRecursion IsFilled spans.now }
        ensures { OnOk result
            (self.new ≡ record { places = self.old.places ++ places_of spans.now; aborts = self.old.aborts }) }
    {
        let mut rest = spans;
        while let [span, after @ ..] = rest {
            self.push(*span)?;
            rest = after;
        }
        Ok(())
    }

    fn mark(&mut self, aborts: bool)
        ensures { self.new ≡ record { places = self.old.places; aborts = aborts } }
    {
        self.aborts = aborts;
    }

    // Goes on with the other route, where this one does not end in abort.
    pub fn go_on(&mut self, other: &Route) -> Mem<()>
        ensures { OnOk result (self.new ≡ longer self.old other.now) }
    {
        if self.aborts() {
            return Ok(());
        }
        let pieces = other.pieces();
        self.push_all(pieces.spans)?;
        self.push(pieces.last)?;
        self.mark(other.aborts());
        Ok(())
    }

    pub fn copy(&self, alloc: Global) -> Mem<Route>
        ensures { IfOk result (λ r. r ≡ self.now) }
    {
        let mut spans = Vec::new(alloc);
        spans.extend_from_slice(&self.spans)?;
        Ok(Route {
            spans,
            last: self.last,
            aborts: self.aborts,
        })
    }
}

// A path of a block, and the walk along it.
ghost use Rattle.std.specs.Prelude.{◌≡◌, map};
ghost use Rattle.std.specs.Iterator.{YieldsFirstBy, YieldsLastBy, item_count};
ghost use Rattle.rml_command.specs.View.{primitive as primitive_view};
ghost use Rattle.rml_command.specs.Paths.{has_abort};
ghost use Rattle.rml_command.specs.Spans.{places_in};
ghost use Rattle.rml_command.specs.Routes.{IsRoute, IsSpanOf, path_along, primitives_at};

use crate::command::Primitive;
use crate::route::Route;
use crate::span::Span;
use std::marker::Model;

/// One path of a block. Its primitives stand in the list of the block's, which the paths of the block
/// share.
#[derive(Drop)]
pub struct Path<'a> {
    block: &'a [Primitive],
    route: &'a Route,
}

impl<'a> Model for Path<'a> {
    ghost use Rattle.std.specs.Prelude.{List};
    ghost use Rattle.rml_command.specs.Trees.{PrimitiveTree};
    ghost use Rattle.rml_command.specs.Code.{path_code};

    ghost Value = { List PrimitiveTree };

    ghost coded = { path_code };

    ghost use Rattle.rml_command.specs.Routes.{IsRoute, path_along};

    ghost view = { λ p. path_along p.block.now p.route.now };

    ghost invariant = { λ p. IsRoute p.block.now p.route.now };
}

impl<'a> Path<'a> {
    pub(crate) fn new(block: &'a [Primitive], route: &'a Route) -> Path<'a>
        requires { IsRoute block.now route.now }
        ensures { result ≡ path_along block.now route.now }
    {
        Path { block, route }
    }

    /// The primitives, in order.
    pub fn primitives(&self) -> Primitives<'a>
        ensures { result ≡ self.now }
    {
        let pieces = self.route.pieces();
        Primitives {
            block: self.block,
            front: &[],
            spans: pieces.spans,
            back: piece(self.block, pieces.last),
        }
    }

    pub fn has_abort(&self) -> bool
        ensures { result ≡ has_abort self.now }
    {
        self.route.aborts()
    }
}

// The primitives of a span.
fn piece<'a>(block: &'a [Primitive], span: Span) -> &'a [Primitive]
    requires { IsSpanOf block.now span }
    ensures { map primitive_view result.now ≡ primitives_at block.now (places_in span) }
{
    if span.start < span.end {
        &block[span.start as usize..span.end as usize]
    } else {
        &[]
    }
}

/// The primitives of a path that are left, which can be taken from both ends.
#[derive(Drop)]
pub struct Primitives<'a> {
    block: &'a [Primitive],
    front: &'a [Primitive],
    spans: &'a [Span],
    back: &'a [Primitive],
}

impl<'a> Model for Primitives<'a> {
    ghost use Rattle.std.specs.Prelude.{List, ◌++◌, map, length};
    ghost use Rattle.std.specs.List.{AllByRecursion};
    ghost use Rattle.rml_command.specs.Trees.{PrimitiveTree};
    ghost use Rattle.rml_command.specs.View.{primitive};
    ghost use Rattle.rml_command.specs.Spans.{places_of, IsFilled};
    ghost use Rattle.rml_command.specs.Routes.{IsSpanOf, primitives_at};
    ghost use Rattle.rml_command.specs.Code.{path_code};

    ghost Value = { List PrimitiveTree };

    ghost coded = { path_code };

    ghost view = { λ p. map primitive p.front.now
        ++ (primitives_at p.block.now (places_of p.spans.now) ++ map primitive p.back.now) };

    ghost invariant = { λ p. AllByRecursion IsFilled p.spans.now × AllByRecursion (IsSpanOf p.block.now) p.spans.now };
}

impl<'a> Iterator for Primitives<'a> {
    type Item = &'a Primitive;

    ghost next_gives = { YieldsFirstBy (λ q. primitive_view q.now) (λ p. p) };

    ghost remaining = { item_count (λ p. p) };

    fn next(&mut self) -> Option<&'a Primitive> {
        if let Some((first, after)) = self.front.split_first() {
            self.front = after;
            return Some(first);
        }
        if let Some((span, after)) = self.spans.split_first() {
            let piece = piece(self.block, *span);
            self.front = &piece[1..];
            self.spans = after;
            return Some(&piece[0]);
        }
        let (first, after) = self.back.split_first()?;
        self.back = after;
        Some(first)
    }
}

impl<'a> DoubleEndedIterator for Primitives<'a> {
    ghost next_back_gives = { YieldsLastBy (λ q. primitive_view q.now) (λ p. p) };

    fn next_back(&mut self) -> Option<&'a Primitive> {
        if let Some((last, before)) = self.back.split_last() {
            self.back = before;
            return Some(last);
        }
        if let Some((span, before)) = self.spans.split_last() {
            let piece = piece(self.block, *span);
            self.back = &piece[..piece.len() - 1];
            self.spans = before;
            return Some(&piece[piece.len() - 1]);
        }
        let (last, before) = self.front.split_last()?;
        self.front = before;
        Some(last)
    }
}

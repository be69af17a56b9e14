// Where the clause of an id stands. Spans lie by increasing id, since a log's ids increase.
ghost use Rattle.std.specs.Prelude.{◌≡◌, ◌≢◌, ℕ, ◌<◌, length, slice_index_or, IfSome, IfNone};
ghost use Rattle.lrat_check.specs.Spans.{AreSorted};
ghost use Rattle.lrat_check.specs.declared.spans.Span.{Span};

/// A clause: its id, and its place among the literals.
#[derive(Clone, Copy)]
pub struct Span {
    pub id: u32,
    pub start: u32,
    pub end: u32,
    pub is_true: bool,
    pub is_held: bool,
}

/// The place of an id's span: directly where no id below it is missing, else by halving.
pub fn find(spans: &[Span], id: u32) -> Option<usize>
    requires { AreSorted spans.now }
    ensures some { IfSome result (λ i. (i < length spans.now) × ((d : Span) → (slice_index_or spans.now i d).id ≡ id)) }
    ensures none { IfNone result ((k : ℕ) (d : Span) → k < length spans.now → (slice_index_or spans.now k d).id ≢ id) }
{
    let own = (id as usize).wrapping_sub(1);
    if own < spans.len() && spans[own].id == id {
        return Some(own);
    }
    let mut low = 0;
    let mut high = spans.len();
    while low < high {
        let mid = low + (high - low) / 2;
        if spans[mid].id < id {
            low = mid + 1;
        } else {
            high = mid;
        }
    }
    if low < spans.len() && spans[low].id == id {
        Some(low)
    } else {
        None
    }
}

// Small values of one shape each.
ghost use Rattle.std.specs.Prelude.{◌≡◌, IfOk};
ghost use Rattle.json_values.specs.Values.{number_data, kind_data, counted_data, numbers_data};

use crate::builder::ObjectBuilder;
use crate::list::JsonList;
use crate::value::Json;
use base::Mem;
use std::alloc::Global;

/// What something is.
#[tactic(auto, unfolding(crate::specs::Values::kind_data))]
pub fn kind(alloc: Global, kind: &str) -> Mem<Json>
    ensures { IfOk result (λ j. j ≡ kind_data kind.now) }
{
    ObjectBuilder::new(alloc)
        .with_word("kind", kind)
        .into_json()
}

/// What something is, and its number.
#[tactic(auto, unfolding(crate::specs::Values::counted_data))]
pub fn counted(alloc: Global, kind: &str, n: u64) -> Mem<Json>
    ensures { IfOk result (λ j. j ≡ counted_data kind.now n) }
{
    ObjectBuilder::new(alloc)
        .with_word("kind", kind)
        .with_number("number", n)
        .into_json()
}

/// A list of numbers.
#[tactic(auto, using(std::proofs::Common::append_assoc), unfolding(crate::specs::Values::numbers_data))]
pub fn numbers(alloc: Global, numbers: &[u32]) -> Mem<Json>
    ensures { IfOk result (λ j. j ≡ numbers_data numbers.now) }
{
    let mut list = JsonList::new(alloc);
    let mut rest = numbers;
    while let [number, after @ ..] = rest {
        list.push(Ok(Json::number(*number as u64)));
        rest = after;
    }
    list.into_json()
}

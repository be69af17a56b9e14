// A list of values, as it is built.
ghost use Rattle.std.specs.Prelude.{◌≡◌, ◌∷◌, ◌++◌, [], Some, IfOk, IfSome, IsSomeAnd, IsOkAnd};
ghost use Rattle.json_values.specs.Values.{list_data};

use crate::value::Json;
use base::Mem;
use serde_json::Value;
use std::alloc::{AllocError, Global};
use std::marker::Model;

/// Values, one behind another. Where memory was wanting for one it is none, and stays none, so what adds values need
/// not ask.
#[derive(Drop)]
pub struct JsonList {
    values: Vec<Value>,
    is_short: bool,
}

impl Model for JsonList {
    ghost use Rattle.std.specs.Prelude.{◌≡◌, List, map, false, Option};
    ghost use Rattle.std.specs.Coded.{coded_option};
    ghost use Rattle.serde_json.specs.Data.{Data};
    ghost use Rattle.serde_json.specs.View.{view as data_of, items_view};
    ghost use Rattle.serde_json.specs.Written.{items_have_float};
    ghost use Rattle.json_values.specs.Code.{values_code};
    ghost use Rattle.json_values.specs.Values.{unless_short};

    ghost Value = { Option (List Data) };

    ghost coded = { coded_option values_code };

    ghost view = { λ l. unless_short l.is_short (map data_of l.values.items) };

    ghost invariant = { λ l. items_have_float (items_view l.values.items) ≡ false };
}

impl JsonList {
    /// No value.
    pub fn new(alloc: Global) -> JsonList
        ensures { result ≡ Some [] }
    {
        JsonList {
            values: Vec::new(alloc),
            is_short: false,
        }
    }

    /// Adds a value behind those that are there.
    pub fn push(&mut self, value: Mem<Json>)
        ensures { IfSome self.new (λ new. IsSomeAnd self.old (λ old. IsOkAnd value (λ d. new ≡ old ++ d ∷ []))) }
    {
        match value {
            Err(_) => self.is_short = true,
            Ok(value) => match self.values.push(value.value) {
                Ok(()) => {}
                Err(left) => {
                    drop(left);
                    self.is_short = true;
                }
            },
        }
    }

    /// The list as a value.
    #[tactic(auto, unfolding(crate::specs::Values::list_data))]
    pub fn into_json(self) -> Mem<Json>
        ensures { IfOk result (λ j. IsSomeAnd self (λ ds. j ≡ list_data ds)) }
    {
        if self.is_short {
            drop(self.values);
            return Err(AllocError);
        }
        Ok(Json {
            value: Value::Array(self.values),
        })
    }
}

// Objects, as they are built.
ghost use Rattle.std.specs.Prelude.{◌≡◌, Some, IfOk, IfSome, IsSomeAnd, IsOkAnd};
ghost use Rattle.serde_json.specs.Data.{object, string, no_members};
ghost use Rattle.json_values.specs.Values.{with_member, number_data};

use crate::object::JsonObject;
use crate::value::Json;
use base::Mem;
use std::alloc::{AllocError, Global};
use std::marker::Model;

/// An object that is being built. Where memory was wanting it is none, and stays none, so what adds members need not
/// ask.
#[derive(Drop)]
pub struct ObjectBuilder {
    alloc: Global,
    object: JsonObject,
    is_short: bool,
}

impl Model for ObjectBuilder {
    ghost use Rattle.std.specs.Prelude.{Option};
    ghost use Rattle.std.specs.Coded.{coded_option};
    ghost use Rattle.serde_json.specs.Data.{Members};
    ghost use Rattle.json_values.specs.Code.{members_code};
    ghost use Rattle.json_values.specs.Values.{unless_short};

    ghost Value = { Option Members };

    ghost coded = { coded_option members_code };

    ghost view = { λ b. unless_short b.is_short b.object };
}

impl ObjectBuilder {
    /// No member.
    pub fn new(alloc: Global) -> ObjectBuilder
        ensures { result ≡ Some no_members }
    {
        ObjectBuilder {
            alloc,
            object: JsonObject::new(alloc),
            is_short: false,
        }
    }

    /// The members of an object.
    pub fn from_object(alloc: Global, object: JsonObject) -> ObjectBuilder
        ensures { result ≡ Some object }
    {
        ObjectBuilder {
            alloc,
            object,
            is_short: false,
        }
    }

    /// Adds a member. One of this name that was there is replaced.
    pub fn with(mut self, name: &str, value: Mem<Json>) -> ObjectBuilder
        ensures { IfSome result (λ new. IsSomeAnd self (λ old. IsOkAnd value (λ d. new ≡ with_member old name.now d))) }
    {
        match value {
            Err(_) => self.is_short = true,
            Ok(value) => {
                if self.object.set(self.alloc, name, value).is_err() {
                    self.is_short = true;
                }
            }
        }
        self
    }

    /// Adds a member that is a text.
    pub fn with_word(self, name: &str, text: &str) -> ObjectBuilder
        ensures { IfSome result (λ new. IsSomeAnd self (λ old. new ≡ with_member old name.now (string text.now))) }
    {
        let value = Json::word(self.alloc, text);
        self.with(name, value)
    }

    /// Adds a member that is a number.
    pub fn with_number(self, name: &str, n: u64) -> ObjectBuilder
        ensures { IfSome result (λ new. IsSomeAnd self (λ old. new ≡ with_member old name.now (number_data n))) }
    {
        self.with(name, Ok(Json::number(n)))
    }

    /// The object.
    pub fn build(self) -> Mem<JsonObject>
        ensures { IfOk result (λ o. IsSomeAnd self (λ ms. o ≡ ms)) }
    {
        if self.is_short {
            drop(self.object);
            return Err(AllocError);
        }
        Ok(self.object)
    }

    /// The object as a value.
    pub fn into_json(self) -> Mem<Json>
        ensures { IfOk result (λ j. IsSomeAnd self (λ ms. j ≡ object ms)) }
    {
        let object = self.build()?;
        Ok(object.into_json())
    }
}

// An object.
ghost use Rattle.std.specs.Prelude.{◌≡◌, OnOk};
ghost use Rattle.serde_json.specs.Data.{object, no_members};
ghost use Rattle.json_values.specs.Values.{with_member};

use crate::value::Json;
use base::Mem;
use serde_json::{Map, Value, put};
use std::alloc::Global;
use std::marker::Model;

/// Members, by their names.
#[derive(Drop)]
pub struct JsonObject {
    members: Map<String, Value>,
}

impl Model for JsonObject {
    ghost use Rattle.std.specs.Prelude.{◌≡◌, false};
    ghost use Rattle.serde_json.specs.Data.{Members};
    ghost use Rattle.serde_json.specs.View.{members_view};
    ghost use Rattle.serde_json.specs.Written.{members_have_float};
    ghost use Rattle.json_values.specs.Code.{members_code};

    ghost Value = { Members };

    ghost coded = { members_code };

    ghost view = { λ o. members_view o.members.entries };

    ghost invariant = { λ o. members_have_float (members_view o.members.entries) ≡ false };
}

impl JsonObject {
    // No member.
    pub(crate) fn new(alloc: Global) -> JsonObject
        ensures { result ≡ no_members }
    {
        JsonObject {
            members: Map::new(alloc),
        }
    }

    // Sets a member. One of this name that was there is replaced.
    #[tactic(auto, unfolding(crate::specs::Values::with_member))]
    pub(crate) fn set(&mut self, alloc: Global, name: &str, value: Json) -> Mem<()>
        ensures { OnOk result (self.new ≡ with_member self.old name.now value) }
    {
        put(&mut self.members, alloc, name, value.value)?;
        Ok(())
    }

    /// The object as a value.
    pub fn into_json(self) -> Json
        ensures { result ≡ object self }
    {
        Json {
            value: Value::Object(self.members),
        }
    }
}

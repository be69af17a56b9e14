// A value, and its text.
ghost use Rattle.std.specs.Prelude.{◌≡◌, IfOk};
ghost use Rattle.serde_json.specs.Data.{null, boolean, number, unsigned, string};
ghost use Rattle.serde_json.specs.View.{view};
ghost use Rattle.json_values.specs.Values.{text_data, line_text};

use base::Mem;
use serde_json::Value;
use std::alloc::Global;
use std::marker::Model;

/// A JSON value without a float.
#[derive(Drop)]
pub struct Json {
    pub(crate) value: Value,
}

impl Model for Json {
    ghost use Rattle.std.specs.Prelude.{◌≡◌, false};
    ghost use Rattle.serde_json.specs.Data.{Data};
    ghost use Rattle.serde_json.specs.View.{view as data_of};
    ghost use Rattle.serde_json.specs.Written.{has_float};
    ghost use Rattle.json_values.specs.Code.{data_code};

    ghost Value = { Data };

    ghost coded = { data_code };

    ghost view = { λ j. data_of j.value };

    ghost invariant = { λ j. has_float (data_of j.value) ≡ false };
}

impl Json {
    /// `null`.
    pub fn null() -> Json
        ensures { result ≡ null }
    {
        Json { value: Value::Null }
    }

    /// `true` or `false`.
    pub fn truth(value: bool) -> Json
        ensures { result ≡ boolean value }
    {
        Json {
            value: Value::Bool(value),
        }
    }

    /// A number.
    pub fn number(n: u64) -> Json
        ensures { result ≡ number (unsigned n) }
    {
        Json {
            value: Value::from(n),
        }
    }

    /// A text.
    pub fn word(alloc: Global, text: &str) -> Mem<Json>
        ensures { IfOk result (λ j. j ≡ string text.now) }
    {
        let value = Value::try_from_str(alloc, text)?;
        Ok(Json { value })
    }

    /// The text whose characters have these numbers. For the bytes of a name, which are ASCII, it is the name.
    #[tactic(auto, using(std::proofs::Common::append_assoc), unfolding(crate::specs::Values::text_data))]
    pub fn text(alloc: Global, bytes: &[u8]) -> Mem<Json>
        ensures { IfOk result (λ j. j ≡ text_data bytes.now) }
    {
        let mut text = String::new(alloc);
        let mut rest = bytes;
        while let [byte, after @ ..] = rest {
            text.push(char::from(*byte))?;
            rest = after;
        }
        Ok(Json {
            value: Value::String(text),
        })
    }

    /// The value, for `serde_json`.
    pub fn value(&self) -> &Value
        ensures { view result.now ≡ self.now }
    {
        &self.value
    }

    /// A copy.
    pub fn copy(&self) -> Mem<Json>
        ensures { IfOk result (λ j. j ≡ self.now) }
    {
        let value = self.value.clone()?;
        Ok(Json { value })
    }
}

/// The value as one line, without blanks.
#[tactic(auto, unfolding(crate::specs::Values::line_text))]
pub fn line(alloc: Global, value: &Json) -> Mem<Vec<u8>>
    ensures { IfOk result (λ text. text.items ≡ line_text value.now) }
{
    let mut text = value.value.to_vec(alloc)?;
    text.push(b'\n')?;
    Ok(text)
}

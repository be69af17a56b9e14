//! JSON values that have no float, as programs build them: texts, numbers, lists and objects. Contracts see a value as
//! the plain data that it stands for, so what stands on this crate speaks of data alone; and as no value has a float,
//! the text of each is known byte for byte.
#![tactic(auto)]

mod builder;
mod list;
mod object;
mod shapes;
mod value;

pub use builder::ObjectBuilder;
pub use list::JsonList;
pub use object::JsonObject;
pub use shapes::{counted, kind, numbers};
pub use value::{Json, line};

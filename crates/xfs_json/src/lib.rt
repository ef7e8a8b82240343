//! JSON: a text's value, a value's compact text, and the readers of an object's members.
#![tactic(auto)]

mod members;
mod texts;

pub use members::{Shape, object, truth, whole, words};
pub use serde_json::Value;
pub use texts::{JsonFault, parse, text};

/// The members of an object, in the order of their names' bytes.
pub type Map = serde_json::Map<String, Value>;

// Fields of FIX messages: a tag, "=", a value and the byte 1.
#![tactic(auto)]

// the kinds of fields that messages here have, each with its value
mod field;
// numbers as digits
mod digits;
// a reader that walks over fields, and its steps
mod reader;

pub use digits::numeral;
pub use field::{Field, Placed, WrongField};
pub use reader::Reader;
pub use reader::steps::every_spelling_is_read_back;

#[cfg(test)]
mod tests;

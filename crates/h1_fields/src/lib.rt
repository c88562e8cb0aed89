//! The field lines of a message, and what the lists in them mean.
//!
//! `Fields` keeps the lines as they came: names in their spelling, in their order. Names are
//! compared in any case of ASCII's letters. The lists of Content-Length, Transfer-Encoding and
//! Connection are read over all lines of the name.
#![tactic(auto)]

mod block;
mod content_length;
mod fields;
mod gone;
mod head;
mod held;
mod iter;
mod kinds;
mod laws;
mod lists;
mod lone;
mod meaning;
mod name;
mod short;
mod span;
mod text;
mod white_space;

pub use content_length::{ContentLength, number_of};
pub use fields::Fields;
pub use iter::{FieldsIter, ValuesIter};
pub use laws::{chunked_last_is, content_length_is, insertion_and_removal, names_ignore_case};
pub use lists::PartsIter;
pub use lone::Lone;
pub use name::is_same_name;
pub use white_space::{is_ows, trim_ows, trim_ows_end, trim_ows_start};

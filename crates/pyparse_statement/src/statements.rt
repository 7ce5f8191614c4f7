//! The simple statements of a logical line, and what headers share with them.
//!
//! Python language reference, 7 "Simple statements" and 8.10 "Type parameter lists".

mod aliases;
mod assignments;
mod found;
mod imports;
mod names;
mod optional;
mod simple;
mod statements;
mod type_names;
mod types;
mod values;

pub use crate::statements::found::{ReadAs, ReadStatements, ReadTypeParams};
pub use crate::statements::names::read_as;
pub use crate::statements::optional::{after_sign, after_word, starts_expression};
pub use crate::statements::statements::read_statements;
pub use crate::statements::types::read_type_params;

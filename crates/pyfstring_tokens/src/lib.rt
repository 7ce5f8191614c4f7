//! The tokens of the expression in a formatted string literal's replacement field.
//!
//! Python language reference, 2.4.3 "Formatted string literals": expressions there are treated
//! like regular Python expressions surrounded by parentheses.
#![tactic(auto)]

mod faults;
mod field_tokens;

pub use faults::FieldFault;
pub use field_tokens::FieldTokens;
pub use pylex_lexeme::lexeme::Class;

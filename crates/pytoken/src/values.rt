//! What the text of a token stands for, and what may be wrong with it by itself.
//!
//! Python language reference, 2.3 "Identifiers and keywords" and 2.4 "Literals".

mod bodies;
mod characters;
mod clear_bytes;
mod elements;
mod escapes;
mod faults;
mod formatted;
mod literal_text;
mod literals;
mod names;
mod nested;
mod number_text;
mod numbers;
mod outer;
mod strings;
mod terminals;
mod text_pieces;
mod tokens;

pub use crate::values::bodies::{after_opening, body};
pub use crate::values::formatted::is_fstring;
pub use crate::values::literal_text::LiteralText;
pub use crate::values::literals::{Literal, string_value};
pub use crate::values::names::{identifier_value, name_fault, name_value};
pub use crate::values::number_text::NumberText;
pub use crate::values::numbers::number_value;
pub use crate::values::strings::{is_raw, string_fault};
pub use crate::values::terminals::{Terminal, TerminalFault, terminal_of};
pub use crate::values::text_pieces::TextPiece;
pub use crate::values::tokens::{push_terminals, token_fault};

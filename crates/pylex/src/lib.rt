//! The tokens of a Python source: its lexemes, and the listing of their entries.
//!
//! Python library reference, `tokenize`; language reference, 2 "Lexical analysis".
//!
//! A [`Lister`] lists a source that is held whole. A [`LineLister`] reads it line by line, from a
//! reader that is lent to each call, and a [`StreamLister`] from a reader of its own. All three
//! give the same steps of a source, and a [`Cursor`] of one resumes another. From a [`Spot`] of a
//! `Lister` the lexemes of a line can be had without their entries, up to another where it goes on.
#![tactic(auto)]

mod cursor;
mod ends;
mod entries;
mod held_lines;
mod leading_char;
mod line_lister;
mod line_state;
mod lines;
mod lister;
mod machine;
mod measures;
mod peeked;
mod spots;
mod stream_lister;

pub use cursor::{Cursor, CursorFault};
pub use entries::text;
pub use line_lister::{LineLister, ResumeFault};
pub use lines::{line_text, push_line};
pub use lister::Lister;
pub use measures::widths;
pub use pylex_lexeme::lexeme::{Class, begins_significant, cut};
pub use pylex_lexeme::operators::exact_of;
pub use pylex_lexeme::string::{OpenLiteral, is_open_string, open_literal, opens_string};
pub use pylex_listing::{Entry, Exact, Kind, ListingError, ListingFault, Step, Widths};
pub use spots::Spot;
pub use stream_lister::StreamLister;

//! The text of a dump: its styles, words, fields, lines and leaves, and which nodes stand on one
//! line.
//!
//! Python library reference, `ast`: `ast.dump`. `specs/Shows` says what each class shows,
//! `specs/Layout` how that is laid out, `specs/Slots` what each field of a node shows.
#![tactic(auto)]

mod blocks;
mod fields;
mod leaves;
mod lines;
mod parts;
mod patterns;
mod shortness;
mod styles;
mod words;

pub use blocks::{
    is_short_case, is_short_handler, is_short_match, is_short_module, is_short_test, is_short_with,
};
pub use fields::Field;
pub use leaves::{push_name_and_context, show_constant, show_name};
pub use lines::{Told, after_left_out, close, is_flat, open, push_before, push_lead};
pub use parts::{Part, arg_part, boxed_part, field_of, is_absent, name_part, option_part};
pub use patterns::{is_short_as, is_short_mapping, is_short_patterns};
pub use shortness::{is_short_four, is_short_one, is_short_three, is_short_two};
pub use styles::Style;
pub use words::{
    bool_word, comparison_word, context_word, conversion_word, operator_word, push_number,
    push_value, unary_word,
};

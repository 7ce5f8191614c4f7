//! What stands at a place of a list of terminals, why nothing is read there, and nodes of
//! expressions from their parts, for the readers of expressions and of lines.
//!
//! `looks` and `boundaries` have the tests on the terminal at a place, `operators` the operators by their
//! ranks, `stop` why no expression was read, and `height` which nodes are too high.
//!
//! `found` has what was read. `makers` and `list_makers` make a node where it is not too high, of
//! parts that lists with room for them hold (`room`). `literals` joins neighbouring literals, `joined`
//! gathers the values of f-strings, `parameters` and `actual` the parameters of a signature and the
//! arguments of a call. `targets`, `single_targets` and `deletions` change contexts in place, and
//! `turns` an expression that was read.
//!
//! No function here reads an expression: the crate `pyparse_expr` does.
#![tactic(auto)]

mod actual;
mod boundaries;
mod deletions;
mod found;
mod height;
mod joined;
mod list_makers;
mod literals;
mod looks;
mod makers;
mod operators;
mod parameters;
mod room;
mod single_targets;
mod stop;
mod targets;
mod turns;

pub use actual::{Actual, ArgumentForm};
pub use boundaries::{Boundary, FormattedPart, is_boundary, part_at};
pub use found::{ForClause, ForClauses, Items, JoinedValues, Optional, Pair, Pairs, Read};
pub use height::above;
pub use joined::{joined_text, make_field, make_joined, moved, with_field, with_text};
pub use list_makers::{
    make_call, make_dict, make_dict_comp, make_generator, make_lambda, make_list, make_list_comp,
    make_set, make_set_comp, make_slice, make_tuple, make_yield,
};
pub use literals::{LiteralRun, literal_text, make_literal, string_run};
pub use looks::{
    is_op, is_word, lead_at, literal_at, name_at, name_with, stands_alone, starts_comp, terminal_at,
};
pub use makers::{
    identifier_of, make_attribute, make_await, make_binary, make_chain, make_compare,
    make_constant, make_if, make_name, make_named, make_number, make_starred, make_subscript,
    make_unary, make_whole, make_yield_from, starred,
};
pub use operators::{Infix, Prefix, comparison_at, infix_at, prefix_at};
pub use parameters::{Formal, Parameter, Stage, arranged};
pub use room::{append, put, put_keyword, put_option};
pub use stop::Stop;
pub use targets::store;
pub use turns::{deleted, single_stored, stored};

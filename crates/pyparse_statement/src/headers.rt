//! The headers of compound statements, up to their colons, but those of a `match` and its cases.
//!
//! Python language reference, 8 "Compound statements".

mod clauses;
mod conditions;
mod definitions;
mod found;
mod headers;
mod item_targets;
mod items;
mod loops;
mod words;

pub use crate::headers::found::ReadHeader;
pub use crate::headers::headers::read_header;

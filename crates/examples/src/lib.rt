//! Examples of how the libraries are used from another crate.
//!
//! `docs/LIBRARY.md` quotes them word for word. [`count_names`] lists a source that is held whole,
//! [`first_comment`] one that is read line by line; with [`kept`] a listing stops, and with
//! [`resumed`] it is resumed. [`dumped`] and [`rewritten`] write what a source's tree is, and
//! [`assignment_text`] one that is made by hand. [`tree_of_bytes`] takes the fault of each layer,
//! and [`described`] reports it. [`spans_around`] finds the nodes around a byte, and [`first_text`]
//! the text of the first of them. [`functions`] walks over a tree.
#![tactic(auto)]

mod assignments;
mod cursors;
mod faults;
mod listings;
mod places;
mod streams;
mod trees;
mod walks;

pub use assignments::{assignment, assignment_text};
pub use cursors::{kept, resumed};
pub use faults::{described, tree_of_bytes};
pub use listings::count_names;
pub use places::{first_text, spans_around};
pub use streams::first_comment;
pub use trees::{INDENTED, dumped, rewritten};
pub use walks::functions;

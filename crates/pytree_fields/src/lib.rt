//! What each node of a tree is: its class, and what its fields hold, in order, lent from the tree.
//!
//! Python library reference, `ast`: "Abstract grammar". `specs/Things` says what each class holds,
//! `specs/Classes` the names of classes and fields.
#![tactic(auto)]

mod children;
mod classes;
mod expressions;
mod held;
mod leaves;
mod members;
mod nodes;
mod patterns;
mod rows;
mod statements;

pub use children::Child;
pub use classes::Class;
pub use held::Held;
pub use leaves::Leaf;
pub use members::module_node;
pub use nodes::Node;
pub use rows::Row;

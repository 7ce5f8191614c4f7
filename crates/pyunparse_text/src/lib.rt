//! What a tree is written in: its definitions and laws, and the code that writes single tokens.
//!
//! Python language reference, 6 "Expressions" to 8 "Compound statements".
//!
//! `Written` says in which tokens an expression is written at a level of the grammar, whatever is
//! made of a token; `Terminals` makes what the grammar reads, `Pieces` tokens with their texts and
//! spacing. `Statements` and `Modules` are the lines. `Laws` says that an expression comes back
//! from its terminals, and that no list of terminals for it is shorter; that no more brackets are
//! open at once than it is high; that its pieces are read as its terminals; that a module comes
//! back from its lines; and that its text is a source that is accepted as the module, and as no
//! other.
//!
//! The code is what the walk of a tree, in `pyunparse`, is made of: at which levels parts stand
//! (`levels`), which parts have brackets (`line_brackets`), single tokens (`tokens`), and what they
//! are written into, a text or a list (`writers`).
#![tactic(auto)]

pub mod edges;
pub mod levels;
pub mod line_brackets;
mod literal_texts;
pub mod marks;
pub mod piece_writer;
pub mod pieces;
pub mod signs;
pub mod sorts;
pub mod text_writer;
pub mod tokens;
pub mod writers;

//! Tests of the libraries: what only a caller of them sees, as rows of texts. Each public call is
//! shown once where all goes well and, if it can refuse, once where it does; and so are readers
//! that fail, levels of the grammar, cursors that a source doesn't have, and trees that no source
//! gives. What the built program shows stands in `conformance/tables`. What is expected was taken
//! from Python 3.11 and 3.12 or worked by hand from its documentation, and never from the
//! libraries.
//!
//! There is one test, so that few functions are proved. A row says what is shown, of what, and what
//! has to come out (`rows.rt`): the checker sees one text, whatever the rows are.
#![tactic(auto)]

#[cfg(test)]
mod expressions;
#[cfg(test)]
mod fstrings;
#[cfg(test)]
mod lexemes;
#[cfg(test)]
mod listings;
#[cfg(test)]
mod modules;
#[cfg(test)]
mod numbers;
#[cfg(test)]
mod quoted;
#[cfg(test)]
mod rows;
#[cfg(test)]
mod shapes;
#[cfg(test)]
mod shown;
#[cfg(test)]
mod sources;
#[cfg(test)]
mod tokens;
#[cfg(test)]
mod words;

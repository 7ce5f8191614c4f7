//! Names, the name after an `as`, and lists of names.

ghost use Rattle.std.specs.Prelude.{◌+◌, ◌≤◌, length};
ghost use Rattle.pygrammar.specs.LineReader as line;
ghost use Rattle.pyparse_nodes.specs.Answers.{PartAnswered};
ghost use Rattle.pyparse_nodes.specs.Views.{seen};

use crate::statements::found::{ReadAs, ReadName, ReadNames};
use pylex_listing::Exact;
use pyparse_nodes::{Stop, identifier_of, is_op, is_word, name_at};
use pytoken::{Keyword, Terminal};
use std::alloc::Global;

/// A name.
#[tactic(auto, using(crate::proofs::statements::NameSteps::name_found, crate::proofs::statements::NameSteps::name_missing))]
pub(crate) fn read_name(alloc: Global, tokens: &[Terminal], at: usize) -> Result<ReadName, Stop>
    ensures { PartAnswered tokens.now (at + 1) (line.read_name (seen tokens.now at)) (λ r. r.name)
        (λ r. r.next) result }
{
    match name_at(tokens, at) {
        Some(name) => {
            let name = identifier_of(alloc, name)?;
            Ok(ReadName { name, next: at + 1 })
        }
        None => Err(Stop::NoForm),
    }
}

/// An `as` and a name, if there is an `as`.
#[tactic(auto, using(crate::proofs::statements::NameSteps::as_found, crate::proofs::statements::NameSteps::as_missing, crate::proofs::statements::NameSteps::as_absent))]
pub fn read_as(alloc: Global, tokens: &[Terminal], at: usize) -> Result<ReadAs, Stop>
    requires { at ≤ length tokens.now }
    ensures { PartAnswered tokens.now at (line.read_as (seen tokens.now at)) (λ r. r.name)
        (λ r. r.next) result }
{
    if !is_word(tokens, at, Keyword::As) {
        return Ok(ReadAs {
            name: None,
            next: at,
        });
    }
    match name_at(tokens, at + 1) {
        Some(name) => {
            let name = identifier_of(alloc, name)?;
            Ok(ReadAs {
                name: Some(name),
                next: at + 2,
            })
        }
        None => Err(Stop::NoForm),
    }
}

/// Names with commas between them.
pub(crate) fn read_names(alloc: Global, tokens: &[Terminal], at: usize) -> Result<ReadNames, Stop>
    requires { at ≤ length tokens.now }
    ensures { PartAnswered tokens.now at
        (line.commas_of line.read_name line.always (seen tokens.now at)) (λ r. r.names.items)
        (λ r. r.next) result }
{
    let mut names = Vec::new(alloc);
    let mut next = at;
    'more: loop {
        let one = read_name(alloc, tokens, next)?;
        names.push(one.name)?;
        if !is_op(tokens, one.next, Exact::Comma) {
            return Ok(ReadNames {
                names,
                next: one.next,
            });
        }
        next = one.next + 1;
    }
}

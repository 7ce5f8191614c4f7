//! The names of imports.
//!
//! Python language reference, 7.11 "The `import` statement".

ghost use Rattle.std.specs.Prelude.{◌≡◌, ◌+◌, ◌++◌, ◌≤◌, MatchResult, length, map, string_bytes};
ghost use Rattle.std.specs.Str.{chars, encode_utf8_all};
ghost use Rattle.unicode_normalization.specs.Forms.{nfkc};
ghost use Rattle.pytree_node.specs.TreeOf.{alias_of};
ghost use Rattle.pygrammar.specs.LineReader as line;
ghost use Rattle.pyparse_nodes.specs.Answers.{PartAnswered};
ghost use Rattle.pyparse_nodes.specs.Views.{seen};
ghost use Rattle.pyparse_statement.specs.Inner.Imports.{more_names};
ghost use Rattle.std.specs.Prelude.{IfOk};
ghost use Rattle.pyparse_statement.specs.PlacedParts.{AliasesPlaced, DottedPlaced};

use crate::statements::found::{ReadAlias, ReadAliases, ReadName};
use crate::statements::names::{read_as, read_name};
use pylex_listing::Exact;
use pyparse_nodes::{Stop, is_op, name_at};
use pyplaces::Recorder;
use pytoken::{Terminal, name_value};
use pytree_node::{Alias, Identifier};
use std::alloc::Global;

/// Appends the name that a NAME of this text stands for.
fn put_name(alloc: Global, text: &mut String, name: &str) -> Result<(), Stop>
    ensures { MatchResult result
        (λ _. string_bytes text.new
        ≡ string_bytes text.old ++ encode_utf8_all (nfkc (chars name.now)))
        (λ s. s ≡ Stop.Memory) }
{
    let name = name_value(alloc, name)?;
    text.push_str(name.as_str())?;
    Ok(())
}

/// Names with dots between them, as one name.
pub(crate) fn read_dotted(alloc: Global, tokens: &[Terminal], at: usize) -> Result<ReadName, Stop>
    requires { at ≤ length tokens.now }
    ensures { PartAnswered tokens.now at (line.read_dotted (seen tokens.now at)) (λ r. r.name)
        (λ r. r.next) result }
{
    let mut text = String::new(alloc);
    let mut next = at;
    'more: loop {
        let Some(name) = name_at(tokens, next) else {
            return Err(Stop::NoForm);
        };
        put_name(alloc, &mut text, name)?;
        if !is_op(tokens, next + 1, Exact::Dot) {
            let name = Identifier::new(alloc, text.as_str())?;
            return Ok(ReadName {
                name,
                next: next + 1,
            });
        }
        text.push('.')?;
        next += 2;
    }
}

/// A name with dots, and the name after its `as`.
fn dotted_alias(alloc: Global, tokens: &[Terminal], at: usize) -> Result<ReadAlias, Stop>
    requires { at ≤ length tokens.now }
    ensures { PartAnswered tokens.now at (line.dotted_alias (seen tokens.now at))
        (λ r. alias_of r.alias) (λ r. r.next) result }
{
    let name = read_dotted(alloc, tokens, at)?;
    let asname = read_as(alloc, tokens, name.next)?;
    Ok(ReadAlias {
        alias: Alias {
            name: name.name,
            asname: asname.name,
        },
        next: asname.next,
    })
}

/// A name, and the name after its `as`.
#[tactic(auto, using(crate::proofs::statements::ImportSteps::alias_is))]
fn name_alias(alloc: Global, tokens: &[Terminal], at: usize) -> Result<ReadAlias, Stop>
    ensures { PartAnswered tokens.now at (line.name_alias (seen tokens.now at))
        (λ r. alias_of r.alias) (λ r. r.next) result }
{
    let name = read_name(alloc, tokens, at)?;
    let asname = read_as(alloc, tokens, name.next)?;
    Ok(ReadAlias {
        alias: Alias {
            name: name.name,
            asname: asname.name,
        },
        next: asname.next,
    })
}

/// Names with dots, with commas between them.
pub(crate) fn dotted_aliases<R: Recorder>(
    alloc: Global,
    tokens: &[Terminal],
    at: usize,
    recorder: &mut R,
) -> Result<ReadAliases, Stop>
    requires { at ≤ length tokens.now }
    ensures answered { PartAnswered tokens.now at
        (line.commas_of line.dotted_alias line.always (seen tokens.now at))
        (λ r. map alias_of r.aliases.items) (λ r. r.next) result }
    ensures placed { IfOk result (DottedPlaced R.after tokens.now at recorder.old recorder.new) }
{
    let mut aliases = Vec::new(alloc);
    let mut next = at;
    'more: loop {
        let one = dotted_alias(alloc, tokens, next)?;
        recorder.node(next, one.next)?;
        aliases.push(one.alias)?;
        if !is_op(tokens, one.next, Exact::Comma) {
            return Ok(ReadAliases {
                aliases,
                next: one.next,
            });
        }
        next = one.next + 1;
    }
}

/// Whether another name follows a comma: in brackets it may be left out.
fn more_names(tokens: &[Terminal], at: usize, bracketed: bool) -> bool
    ensures { result ≡ more_names bracketed (seen tokens.now at) }
{
    if bracketed {
        name_at(tokens, at).is_some()
    } else {
        true
    }
}

/// Names with commas between them, in brackets or not.
pub(crate) fn name_aliases<R: Recorder>(
    alloc: Global,
    tokens: &[Terminal],
    at: usize,
    bracketed: bool,
    recorder: &mut R,
) -> Result<ReadAliases, Stop>
    requires { at ≤ length tokens.now }
    ensures answered { PartAnswered tokens.now at
        (line.commas_of line.name_alias (more_names bracketed) (seen tokens.now at))
        (λ r. map alias_of r.aliases.items) (λ r. r.next) result }
    ensures placed { IfOk result (AliasesPlaced R.after bracketed tokens.now at recorder.old
        recorder.new) }
{
    let mut aliases = Vec::new(alloc);
    let mut next = at;
    'more: loop {
        let one = name_alias(alloc, tokens, next)?;
        recorder.node(next, one.next)?;
        aliases.push(one.alias)?;
        if !is_op(tokens, one.next, Exact::Comma) {
            return Ok(ReadAliases {
                aliases,
                next: one.next,
            });
        }
        next = one.next + 1;
        if !more_names(tokens, next, bracketed) {
            return Ok(ReadAliases { aliases, next });
        }
    }
}

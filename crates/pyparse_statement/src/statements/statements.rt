//! Simple statements with semicolons between them.
//!
//! Python language reference, 7 "Simple statements".

ghost use Rattle.std.specs.Prelude.{◌≡◌, ◌+◌, ◌≤◌, IfOk, MatchResult, OnOk, length, map, suc};
ghost use Rattle.pytree_node.specs.TreeOf.{stmt_of};
ghost use Rattle.pytree_node.specs.Trees.{stmts};
ghost use Rattle.pytree_height.specs.Heights.{highest_in_all};
ghost use Rattle.pytoken.specs.Terminals as terminals;
ghost use Rattle.pygrammar.specs.LineReader as line;
ghost use Rattle.pyparse_nodes.specs.Answers.{Failed, PartAnswered};
ghost use Rattle.pyparse_reads.specs.Readings.{reads};
ghost use Rattle.pyparse_nodes.specs.Views.{Stands, seen};
ghost use Rattle.pyparse_statement.specs.Inner.Simple.{begun};
ghost use Rattle.pyparse_statement.specs.PlacedStatements.{FieldsPlaced, SimplesPlaced, StatementTaken};

use crate::statements::found::{ReadStatement, ReadStatements};
use crate::statements::imports::{import, import_from};
use crate::statements::simple::{
    assert, break_at, continue_at, delete, global, nonlocal, pass_at, raise, return_value,
};
use crate::statements::type_names::type_name_at;
use crate::statements::types::type_alias;
use crate::statements::values::value_statement;
use pylex_listing::Exact;
use pyparse_nodes::{Stop, append, is_op, terminal_at};
use pyparse_reads::{Depth, ReadsExpressions};
use pyplaces::Recorder;
use pytoken::{Keyword, Terminal};
use pytree_node::{Profile, Stmt};
use std::alloc::Global;

/// A statement with no keyword in front: a `type`, or one that begins with a value.
#[tactic(auto, using(crate::proofs::statements::StatementSteps::named_type, crate::proofs::statements::StatementSteps::no_type))]
fn plain_statement<E: ReadsExpressions, R: Recorder>(
    alloc: Global,
    tokens: &[Terminal],
    at: usize,
    profile: Profile,
    depth: Depth,
    recorder: &mut R,
) -> Result<ReadStatement, Stop>
    requires { at ≤ length tokens.now }
    ensures answered { PartAnswered tokens.now (at + 1) (begun profile (reads depth) (seen
        tokens.now at))
        (λ r. stmt_of r.statement) (λ r. r.next) result }
    ensures placed { IfOk result (FieldsPlaced R.after profile tokens.now at recorder.old
        recorder.new) }
{
    match type_name_at(tokens, at, profile) {
        Some(name) => {
            recorder.node(at + 1, at + 2)?;
            type_alias::<E, R>(alloc, tokens, name, at + 2, profile, depth, recorder)
        }
        None => value_statement::<E, R>(alloc, tokens, at, depth, recorder),
    }
}

/// A statement with this keyword in front.
fn word_statement<E: ReadsExpressions, R: Recorder>(
    alloc: Global,
    tokens: &[Terminal],
    word: Keyword,
    at: usize,
    profile: Profile,
    depth: Depth,
    recorder: &mut R,
) -> Result<ReadStatement, Stop>
    requires { Stands (terminals.Word word) tokens.now at }
    ensures answered { PartAnswered tokens.now (at + 1)
        (line.statement profile (reads depth) (seen tokens.now at)) (λ r. stmt_of r.statement)
        (λ r. r.next) result }
    ensures placed { IfOk result (FieldsPlaced R.after profile tokens.now at recorder.old
        recorder.new) }
{
    match word {
        Keyword::Return => return_value::<E, R>(alloc, tokens, at + 1, depth, recorder),
        Keyword::Raise => raise::<E, R>(alloc, tokens, at + 1, depth, recorder),
        Keyword::Assert => assert::<E, R>(alloc, tokens, at + 1, depth, recorder),
        Keyword::Del => delete::<E, R>(alloc, tokens, at + 1, depth, recorder),
        Keyword::Global => global(alloc, tokens, at + 1),
        Keyword::Nonlocal => nonlocal(alloc, tokens, at + 1),
        Keyword::Pass => Ok(pass_at(at + 1)),
        Keyword::Break => Ok(break_at(at + 1)),
        Keyword::Continue => Ok(continue_at(at + 1)),
        Keyword::Import => import(alloc, tokens, at + 1, recorder),
        Keyword::From => import_from(alloc, tokens, at + 1, recorder),
        _ => plain_statement::<E, R>(alloc, tokens, at, profile, depth, recorder),
    }
}

/// A statement.
fn read_statement<E: ReadsExpressions, R: Recorder>(
    alloc: Global,
    tokens: &[Terminal],
    at: usize,
    profile: Profile,
    depth: Depth,
    recorder: &mut R,
) -> Result<ReadStatement, Stop>
    requires { at ≤ length tokens.now }
    ensures answered { PartAnswered tokens.now (at + 1)
        (line.statement profile (reads depth) (seen tokens.now at)) (λ r. stmt_of r.statement)
        (λ r. r.next) result }
    ensures placed { IfOk result (FieldsPlaced R.after profile tokens.now at recorder.old
        recorder.new) }
{
    match terminal_at(tokens, at) {
        Some(t) => match t {
            Terminal::Word(word) => word_statement::<E, R>(
                alloc, tokens, word, at, profile, depth, recorder,
            ),
            _ => plain_statement::<E, R>(alloc, tokens, at, profile, depth, recorder),
        },
        None => Err(Stop::NoForm),
    }
}

/// Takes one statement more, and answers the place after it. Where it stands is recorded.
fn take_statement<E: ReadsExpressions, R: Recorder>(
    alloc: Global,
    tokens: &[Terminal],
    at: usize,
    profile: Profile,
    depth: Depth,
    recorder: &mut R,
    statements: &mut Vec<Stmt>,
    height: &mut usize,
) -> Result<usize, Stop>
    requires { at ≤ length tokens.now }
    ensures taken { MatchResult result
        (StatementTaken R.after profile (reads depth) tokens.now at recorder.old recorder.new
        (map stmt_of statements.old.items) (map stmt_of statements.new.items))
        (λ s. Failed s (line.statement profile (reads depth) (seen tokens.now at))) }
    ensures ahead { IfOk result (λ next. at + 1 ≤ next) }
    ensures height { OnOk result
        (height.old ≡ highest_in_all (stmts (map stmt_of statements.old.items))
        → height.new ≡ highest_in_all (stmts (map stmt_of statements.new.items))) }
{
    match read_statement::<E, R>(alloc, tokens, at, profile, depth, recorder) {
        Ok(one) => {
            let next = one.next;
            *height = (*height).max(one.height);
            append(statements, one.statement)?;
            recorder.node(at, next)?;
            Ok(next)
        }
        Err(stop) => Err(stop),
    }
}

/// Lets statements go that aren't answered. It is never inlined, since a function pays at entry for
/// the locals of what it may drop.
#[cold]
#[inline(never)]
fn let_go(statements: Vec<Stmt>) {
    drop(statements);
}

/// Simple statements with semicolons between them. One may stand after the last statement where
/// nothing follows it.
///
/// # Errors
///
/// [`Stop::NoForm`]: no statement stands there. [`Stop::TooDeep`]: an expression is too high.
/// [`Stop::Memory`].
pub fn read_statements<E: ReadsExpressions, R: Recorder>(
    alloc: Global,
    tokens: &[Terminal],
    at: usize,
    profile: Profile,
    depth: Depth,
    recorder: &mut R,
) -> Result<ReadStatements, Stop>
    requires { at ≤ length tokens.now }
    ensures answered { PartAnswered tokens.now (at + 1)
        (line.statements profile (reads depth) (suc (length (seen tokens.now at)))
        (seen tokens.now at)) (λ r. map stmt_of r.statements.items) (λ r. r.next) result }
    ensures placed { IfOk result (SimplesPlaced R.after profile tokens.now at recorder.old
        recorder.new) }
{
    let mut statements = Vec::new(alloc);
    let mut height = 0;
    let mut next = at;
    'more: loop {
        let after = match take_statement::<E, R>(
            alloc,
            tokens,
            next,
            profile,
            depth,
            recorder,
            &mut statements,
            &mut height,
        ) {
            Ok(after) => after,
            Err(stop) => {
                let_go(statements);
                return Err(stop);
            }
        };
        if !is_op(tokens, after, Exact::Semi) {
            return Ok(ReadStatements {
                statements,
                height,
                next: after,
            });
        }
        next = after + 1;
        if next == tokens.len() {
            return Ok(ReadStatements {
                statements,
                height,
                next,
            });
        }
    }
}

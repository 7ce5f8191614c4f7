//! The form at the front of a line.
//!
//! Python language reference, 7 "Simple statements" and 8 "Compound statements".

ghost use Rattle.std.specs.Prelude.{◌≡◌, ◌+◌, ◌≤◌, length};
ghost use Rattle.pygrammar.specs.FormOf.{form_of, header_of, suite_of};
ghost use Rattle.pygrammar.specs.Lines as lines;
ghost use Rattle.pyparse_nodes.specs.Answers.{PartAnswered};
ghost use Rattle.pyparse_reads.specs.Readings.{reads};
ghost use Rattle.pyparse_nodes.specs.Views.{seen};
ghost use Rattle.pyparse_pattern.specs.Answers as patterns;
ghost use Rattle.pyparse_line.specs.Inner.Answers.{FormAnswered};
ghost use Rattle.pyparse_line.specs.Inner.Fronts.{cased, colon, decorator, front, headed, simple};
ghost use Rattle.pyparse_line.specs.Inner.Fronts.{suite};
ghost use Rattle.std.specs.Prelude.{IfOk, ◌∷◌, true};
ghost use Rattle.pygrammar.specs.Forms.{case_word, is_whole};
ghost use Rattle.pytree_node.specs.Trees.{Identifier};
ghost use Rattle.pytoken.specs.Terminals as terminals;
ghost use Rattle.pyparse_line.specs.Inner.Placed.{ColonPlaced, FormPlaced, LinePlaced};
ghost use Rattle.pyparse_line.specs.Inner.Placed.{SuitePlaced};

use crate::cases::case_rest;
use crate::found::{ReadForm, ReadSuite};
use crate::matches::match_rest;
use crate::openings::{Opening, opening_of};
use pygrammar::{Form, Level};
use pylex_listing::Exact;
use pyparse_nodes::{Stop, is_op, terminal_at};
use pyparse_reads::{Depth, ReadsExpressions};
use pyparse_statement::{ReadHeader, read_header, read_statements};
use pyplaces::Recorder;
use pytoken::Terminal;
use pytree_node::Profile;
use std::alloc::Global;

/// A decorator, after its `@`: 8.7 "Function definitions".
#[inline(never)]
fn read_decorator<E: ReadsExpressions, R: Recorder>(
    alloc: Global,
    tokens: &[Terminal],
    depth: Depth,
    recorder: &mut R,
) -> Result<ReadForm, Stop>
    requires { 1 ≤ length tokens.now }
    ensures answered { FormAnswered tokens.now 1 (decorator (reads depth) (seen tokens.now 1))
        result }
    ensures placed { (profile : Profile) → seen tokens.now 0 ≡ terminals.Op Exact.At ∷ seen
        tokens.now 1
        → IfOk result (LinePlaced R.after R.recorded_count profile tokens.now recorder.old
        recorder.new) }
{
    let e = E::read_at(alloc, tokens, Level::Named, 1, depth, recorder)?;
    let recorded = recorder.recorded();
    Ok(ReadForm {
        height: e.height,
        next: e.next,
        before: recorded,
        following: recorded,
        form: Form::Decorator { value: e.expr },
    })
}

/// What stands after a header's colon: 8 "Compound statements" (`suite`).
fn read_suite<E: ReadsExpressions, R: Recorder>(
    alloc: Global,
    tokens: &[Terminal],
    at: usize,
    profile: Profile,
    depth: Depth,
    recorder: &mut R,
) -> Result<ReadSuite, Stop>
    requires { at ≤ length tokens.now }
    ensures answered { PartAnswered tokens.now at (suite profile (reads depth) (seen tokens.now at))
        (λ r. suite_of r.statements) (λ r. r.next) result }
    ensures placed { IfOk result (SuitePlaced R.after profile tokens.now at recorder.old
        recorder.new) }
{
    if at == tokens.len() {
        return Ok(ReadSuite {
            statements: None,
            height: 0,
            next: at,
        });
    }
    let read = read_statements::<E, R>(alloc, tokens, at, profile, depth, recorder)?;
    Ok(ReadSuite {
        statements: Some(read.statements),
        height: read.height,
        next: read.next,
    })
}

/// A header's colon, and what stands after it.
fn read_colon<E: ReadsExpressions, R: Recorder>(
    alloc: Global,
    tokens: &[Terminal],
    at: usize,
    profile: Profile,
    depth: Depth,
    recorder: &mut R,
) -> Result<ReadSuite, Stop>
    requires { at ≤ length tokens.now }
    ensures answered { PartAnswered tokens.now at (colon profile (reads depth) (seen tokens.now at))
        (λ r. suite_of r.statements) (λ r. r.next) result }
    ensures placed { IfOk result (ColonPlaced R.after profile tokens.now at recorder.old
        recorder.new) }
{
    if !is_op(tokens, at, Exact::Colon) {
        return Err(Stop::NoForm);
    }
    read_suite::<E, R>(alloc, tokens, at + 1, profile, depth, recorder)
}

/// A line of a header, of its parts.
fn headed_form(header: ReadHeader, suite: ReadSuite, following: usize) -> ReadForm
    ensures form { form_of result.form
        ≡ lines.header_form (header_of header.header) (suite_of suite.statements) }
    ensures next { result.next ≡ suite.next }
    ensures before { result.before ≡ header.before }
    ensures following { result.following ≡ following }
{
    ReadForm {
        height: header.height.max(suite.height),
        next: suite.next,
        before: header.before,
        following,
        form: Form::Headed {
            header: header.header,
            suite: suite.statements,
        },
    }
}

/// A header, its colon, and what stands after it. It is never inlined, since a function pays at entry
/// for the locals of what it may drop, and most lines have no header.
#[inline(never)]
fn read_headed<E: ReadsExpressions, R: Recorder + Drop>(
    alloc: Global,
    tokens: &[Terminal],
    profile: Profile,
    depth: Depth,
    recorder: &mut R,
) -> Result<ReadForm, Stop>
    ensures answered { FormAnswered tokens.now 0 (headed profile (reads depth) (seen tokens.now 0))
        result }
    ensures placed { IfOk result (LinePlaced R.after R.recorded_count profile tokens.now recorder.old
        recorder.new) }
{
    let header = read_header::<E, R>(alloc, tokens, 0, profile, depth, recorder)?;
    let following = recorder.recorded();
    let suite = read_colon::<E, R>(alloc, tokens, header.next, profile, depth, recorder)?;
    Ok(headed_form(header, suite, following))
}

/// Simple statements, with `;` between them.
fn read_simple<E: ReadsExpressions, R: Recorder>(
    alloc: Global,
    tokens: &[Terminal],
    profile: Profile,
    depth: Depth,
    recorder: &mut R,
) -> Result<ReadForm, Stop>
    ensures answered { FormAnswered tokens.now 1 (simple profile (reads depth) (seen tokens.now 0))
        result }
    ensures placed { IfOk result (LinePlaced R.after R.recorded_count profile tokens.now
        recorder.old recorder.new) }
{
    let recorded = recorder.recorded();
    let read = read_statements::<E, R>(alloc, tokens, 0, profile, depth, recorder)?;
    Ok(ReadForm {
        height: read.height,
        next: read.next,
        before: recorded,
        following: recorded,
        form: Form::Simple {
            statements: read.statements,
        },
    })
}

/// The header of a case, from after its word on: its colon, and what stands after it.
#[inline(never)]
fn read_case<E: ReadsExpressions, R: Recorder>(
    alloc: Global,
    tokens: &[Terminal],
    at: usize,
    profile: Profile,
    depth: Depth,
    recorder: &mut R,
) -> Result<ReadForm, Stop>
    requires { at ≤ length tokens.now }
    ensures answered { FormAnswered tokens.now at
        (cased profile (reads depth) (patterns.reads depth) (seen tokens.now at)) result }
    ensures placed { (form : Identifier) → is_whole profile.extent ≡ true → at ≡ 1
        → seen tokens.now 0 ≡ case_word form ∷ seen tokens.now at
        → IfOk result (FormPlaced R.after R.recorded_count profile true tokens.now recorder.old
        recorder.new) }
{
    let header = case_rest::<E, R>(alloc, tokens, at, depth, recorder)?;
    let following = recorder.recorded();
    let suite = read_colon::<E, R>(alloc, tokens, header.next, profile, depth, recorder)?;
    Ok(headed_form(header, suite, following))
}

/// The form at the front of a line at its place, by what begins it.
pub(crate) fn read_front<E: ReadsExpressions, R: Recorder + Drop>(
    alloc: Global,
    tokens: &[Terminal],
    profile: Profile,
    inside: bool,
    depth: Depth,
    recorder: &mut R,
) -> Result<ReadForm, Stop>
    ensures answered { FormAnswered tokens.now 0
        (front profile (reads depth) (patterns.reads depth) inside (seen tokens.now 0)) result }
    ensures placed { IfOk result (FormPlaced R.after R.recorded_count profile inside tokens.now recorder.old
        recorder.new) }
{
    let first = match terminal_at(tokens, 0) {
        Some(first) => first,
        None => return Err(Stop::NoForm),
    };
    match opening_of(tokens, first, profile, inside) {
        Opening::Decorates => read_decorator::<E, R>(alloc, tokens, depth, recorder),
        Opening::Heads => read_headed::<E, R>(alloc, tokens, profile, depth, recorder),
        Opening::Matches => match_rest::<E, R>(alloc, tokens, 1, depth, recorder),
        Opening::Cases => read_case::<E, R>(alloc, tokens, 1, profile, depth, recorder),
        Opening::States => read_simple::<E, R>(alloc, tokens, profile, depth, recorder),
    }
}

//! The parameters of a function, and `lambda`.

ghost use Rattle.std.specs.Prelude.{◌≡◌, ◌+◌, ◌≤◌, ◌<◌, ◌++◌, ◌∷◌, ℕ, MatchResult, IfOk, List, OnOk, [], cond};
ghost use Rattle.std.specs.Prelude.{false, length, max, true};
ghost use Rattle.std.specs.Str.{chars};
ghost use Rattle.unicode_normalization.specs.Forms.{nfkc};
ghost use Rattle.pytree_node.specs.TreeOf.{arg_of, boxed_of, tree_of};
ghost use Rattle.pytree_node.specs.Trees as plain;
ghost use Rattle.pytoken.specs.TerminalOf.{terminal};
ghost use Rattle.pytoken.specs.Terminals as terminals;
ghost use Rattle.pygrammar.specs.Capped.{cap};
ghost use Rattle.pygrammar.specs.Entries as entries;
ghost use Rattle.pygrammar.specs.Looks.{name_in};
ghost use Rattle.pygrammar.specs.Precedence as precedence;
ghost use Rattle.pygrammar.specs.Reader as reader;
ghost use Rattle.pyparse_nodes.specs.Answers.{Answered, Failed};
ghost use Rattle.pyparse_nodes.specs.FormalStates.{entry_of, state_of};
ghost use Rattle.pyparse_nodes.specs.Formals as formals;
ghost use Rattle.pyparse_expr.specs.Inner.Found.{OptionalAt};
ghost use Rattle.pyparse_expr.specs.Inner.PlacedSignatures.{DefaultsBack, ParameterPlaced};
ghost use Rattle.pyparse_expr.specs.Inner.PlacedSignatures.{SignaturePlaced, defaults_after};
ghost use Rattle.pyparse_expr.specs.Inner.Readings.{inner_reads};
ghost use Rattle.pyparse_reads.specs.Readings.{IsOpen};
ghost use Rattle.pyparse_expr.specs.Inner.Signatures.{IsTall, MakesLambda, ParameterAnswered, SignatureAt};
ghost use Rattle.pyparse_expr.specs.Inner.Signatures.{body_reads, collected_reads, gathered_reads, plain_reads};
ghost use Rattle.pyparse_nodes.specs.Views.{Stands, first_is, seen};
ghost use Rattle.pyplaces.specs.EntryPlaces as E;
ghost use Rattle.pyplaces.specs.Placed.{Placed, PlacedPiece, PlacedSuffix};
ghost use Rattle.pyplaces.specs.Recording.{Records};
ghost use Rattle.pyplaces.specs.Rests.{StarSuffix};
ghost use Rattle.pyplaces.specs.Stretches.{Stretch, stretch};

use crate::climbing::climb;
use crate::levels::read_expression;
use pygrammar::Level;
use pylex_listing::Exact;
use pyparse_nodes::{
    Formal, Optional, Parameter, Read, Stage, Stop, arranged, identifier_of, is_op, make_lambda,
    make_starred, name_at, terminal_at,
};
use pyparse_reads::Depth;
use pyplaces::Recorder;
use pytoken::{Keyword, Terminal};
use pytree_node::{Arg, Expr};
use std::alloc::Global;

/// A parameter that was read, the height of the highest expression in it, and the place after it.
#[derive(Drop)]
pub(crate) struct ReadParameter {
    pub parameter: Parameter,
    pub height: usize,
    pub next: usize,
}

/// Parameters that were read, the height of the highest expression in them, and the place after.
#[derive(Drop)]
pub(crate) struct Signature {
    pub formal: Formal,
    pub height: usize,
    pub next: usize,
}

/// Whether a parameter begins with a terminal.
fn begins_parameter(t: Terminal) -> bool
    ensures { result ≡ precedence.begins (entries.Parameter true) (terminal t.entry) }
{
    match t {
        Terminal::Op(sign) => match sign {
            Exact::Star => true,
            Exact::DoubleStar => true,
            Exact::Slash => true,
            _ => false,
        },
        Terminal::Ident(_) => true,
        _ => false,
    }
}

/// Whether a parameter begins at the place.
fn starts_parameter(tokens: &[Terminal], at: usize) -> bool
    ensures is { result ≡ precedence.starts (entries.Parameter true) (seen tokens.now at) }
    ensures within { result ≡ true → at < length tokens.now }
{
    match terminal_at(tokens, at) {
        Some(t) => begins_parameter(t),
        None => false,
    }
}

/// A parameter's name, and its annotation if it has one.
#[tactic(auto, using(pytree_node::proofs::Callers::ExprShapes::expr_shapes))]
fn make_arg(alloc: Global, name: &str, annotation: Option<Box<Expr>>) -> Result<Arg, Stop>
    ensures { MatchResult result
        (λ a. arg_of a ≡ plain.arg (nfkc (chars name.now)) (plain.optional (boxed_of annotation)))
        (λ s. s ≡ Stop.Memory) }
{
    let arg = identifier_of(alloc, name)?;
    Ok(Arg { arg, annotation })
}

/// No parameters yet, at a place.
fn no_parameters(alloc: Global, at: usize) -> Signature
    ensures formal { state_of result.formal ≡ formals.start }
    ensures height { result.height ≡ 0 }
    ensures next { result.next ≡ at }
{
    Signature {
        formal: Formal::new(alloc),
        height: 0,
        next: at,
    }
}

/// One parameter more.
#[inline(never)]
fn put_parameter(signature: &mut Signature, one: ReadParameter) -> Result<(), Stop>
    ensures formal { MatchResult result
        (λ _. state_of signature.new.formal
        ≡ formals.step (state_of signature.old.formal) (entry_of one.parameter))
        (λ s. s ≡ Stop.Memory) }
    ensures height { OnOk result (signature.new.height ≡ max signature.old.height one.height) }
    ensures next { OnOk result (signature.new.next ≡ one.next) }
{
    signature.formal.add(one.parameter)?;
    signature.height = signature.height.max(one.height);
    signature.next = one.next;
    Ok(())
}

/// The sign in front of an annotation, where there may be one.
fn annotation_sign(annotated: bool) -> Option<Exact>
    ensures { result ≡ cond annotated (Some Exact.Colon) None }
{
    if annotated { Some(Exact::Colon) } else { None }
}

/// An Expression after a sign, if there is a sign and it stands here.
#[cycle(reading)]
pub(crate) fn suffixed<R: Recorder>(
    alloc: Global,
    tokens: &[Terminal],
    sign: Option<Exact>,
    at: usize,
    depth: Depth,
    recorder: &mut R,
) -> Result<Optional, Stop>
    requires within { at ≤ length tokens.now }
    requires open { IsOpen depth }
    ensures answered { MatchResult result
        (λ r. OptionalAt tokens.now depth.room at
        (reader.suffixed (inner_reads depth) sign (seen tokens.now at)) r)
        (λ s. Failed s (reader.suffixed (inner_reads depth) sign (seen tokens.now at))) }
    ensures placed { IfOk result (λ r. (ps : List Stretch) ×
        PlacedSuffix sign (seen tokens.now at) at (plain.optional (boxed_of r.expr))
        (seen tokens.now r.next) r.next ps ×
        Records R.after recorder.old ps recorder.new) }
{
    match sign {
        Some(sign) => if is_op(tokens, at, sign) {
            let e = read_expression(alloc, tokens, at + 1, depth.inner(), recorder)?;
            Ok(one_read(e))
        } else {
            Ok(none_read(at))
        },
        None => Ok(none_read(at)),
    }
}

/// No expression, at a place.
fn none_read(at: usize) -> Optional
    ensures expr { boxed_of result.expr ≡ None }
    ensures height { result.height ≡ 0 }
    ensures next { result.next ≡ at }
{
    Optional {
        expr: None,
        height: 0,
        next: at,
    }
}

/// An expression.
fn one_read(e: Read) -> Optional
    ensures expr { boxed_of result.expr ≡ Some (tree_of e.expr.value) }
    ensures height { result.height ≡ e.height }
    ensures next { result.next ≡ e.next }
{
    Optional {
        expr: Some(e.expr),
        height: e.height,
        next: e.next,
    }
}

/// The annotation after `*` and a name, where there may be one.
#[cycle(reading)]
fn star_annotation<R: Recorder>(
    alloc: Global,
    tokens: &[Terminal],
    annotated: bool,
    at: usize,
    depth: Depth,
    recorder: &mut R,
) -> Result<Optional, Stop>
    requires within { at ≤ length tokens.now }
    requires open { IsOpen depth }
    ensures answered { MatchResult result
        (λ r. OptionalAt tokens.now depth.room at
        (reader.star_annotated (inner_reads depth) annotated (seen tokens.now at)) r)
        (λ s. Failed s (reader.star_annotated (inner_reads depth) annotated (seen tokens.now at))) }
    ensures placed { IfOk result (λ r. (ps : List Stretch) ×
        StarSuffix annotated (seen tokens.now at) at (plain.optional (boxed_of r.expr))
        (seen tokens.now r.next) r.next ps ×
        Records R.after recorder.old ps recorder.new) }
{
    if !annotated {
        return Ok(none_read(at));
    }
    if !is_op(tokens, at, Exact::Colon) {
        return Ok(none_read(at));
    }
    if is_op(tokens, at + 1, Exact::Star) {
        let e = climb(alloc, tokens, Level::BitOr, at + 2, depth.inner(), recorder)?;
        recorder.node(at + 1, e.next)?;
        let starred = make_starred(alloc, e, depth.room)?;
        return Ok(one_read(starred));
    }
    let e = read_expression(alloc, tokens, at + 1, depth.inner(), recorder)?;
    Ok(one_read(e))
}

/// A parameter with no star, after its name. Its default is set aside.
#[cycle(reading)]
fn plain_parameter<R: Recorder>(
    alloc: Global,
    tokens: &[Terminal],
    annotated: bool,
    name: &str,
    from: usize,
    at: usize,
    depth: Depth,
    recorder: &mut R,
) -> Result<ReadParameter, Stop>
    requires within { at ≤ length tokens.now }
    requires open { IsOpen depth }
    ensures answered { ParameterAnswered tokens.now depth.room at
        (plain_reads depth annotated (nfkc (chars name.now)) (seen tokens.now at)) result }
    ensures placed { at ≡ from + 1
        → Some (nfkc (chars name.now)) ≡ first_is name_in (seen tokens.now from)
        → (count : ℕ) → IfOk result
        (λ r. ParameterPlaced R.after R.beside R.aside_count tokens.now annotated from count r
        recorder.old recorder.new) }
{
    let annotation = suffixed(
        alloc,
        tokens,
        annotation_sign(annotated),
        at,
        depth,
        recorder,
    )?;
    recorder.node(from, annotation.next)?;
    let recorded = recorder.recorded();
    let default = suffixed(
        alloc,
        tokens,
        Some(Exact::Equal),
        annotation.next,
        depth,
        recorder,
    )?;
    recorder.set_aside(recorded)?;
    let arg = make_arg(alloc, name, annotation.expr)?;
    Ok(ReadParameter {
        parameter: Parameter::Plain(arg, default.expr),
        height: annotation.height.max(default.height),
        next: default.next,
    })
}

/// A parameter after `*` and its name.
#[cycle(reading)]
fn gathered_parameter<R: Recorder>(
    alloc: Global,
    tokens: &[Terminal],
    annotated: bool,
    name: &str,
    from: usize,
    at: usize,
    depth: Depth,
    recorder: &mut R,
) -> Result<ReadParameter, Stop>
    requires within { at ≤ length tokens.now }
    requires open { IsOpen depth }
    ensures answered { ParameterAnswered tokens.now depth.room at
        (gathered_reads depth annotated (nfkc (chars name.now)) (seen tokens.now at)) result }
    ensures placed { at ≡ from + 1
        → Some (nfkc (chars name.now)) ≡ first_is name_in (seen tokens.now from)
        → (star : ℕ) → from ≡ star + 1 → Stands (terminals.Op Exact.Star) tokens.now star
        → (count : ℕ) → IfOk result
        (λ r. ParameterPlaced R.after R.beside R.aside_count tokens.now annotated star count r
        recorder.old recorder.new) }
{
    let annotation = star_annotation(alloc, tokens, annotated, at, depth, recorder)?;
    recorder.node(from, annotation.next)?;
    let arg = make_arg(alloc, name, annotation.expr)?;
    Ok(ReadParameter {
        parameter: Parameter::Gathered(arg),
        height: annotation.height,
        next: annotation.next,
    })
}

/// A parameter after `**` and its name.
#[cycle(reading)]
fn collected_parameter<R: Recorder>(
    alloc: Global,
    tokens: &[Terminal],
    annotated: bool,
    name: &str,
    from: usize,
    at: usize,
    depth: Depth,
    recorder: &mut R,
) -> Result<ReadParameter, Stop>
    requires within { at ≤ length tokens.now }
    requires open { IsOpen depth }
    ensures answered { ParameterAnswered tokens.now depth.room at
        (collected_reads depth annotated (nfkc (chars name.now)) (seen tokens.now at)) result }
    ensures placed { at ≡ from + 1
        → Some (nfkc (chars name.now)) ≡ first_is name_in (seen tokens.now from)
        → (star : ℕ) → from ≡ star + 1 → Stands (terminals.Op Exact.DoubleStar) tokens.now star
        → IfOk result (λ r. (ps : List Stretch) ×
        PlacedPiece (entries.Parameter annotated) (seen tokens.now star) star
        (entry_of r.parameter) (seen tokens.now r.next) r.next (E.Collected ps) ×
        Records R.after recorder.old ps recorder.new) }
{
    let annotation = suffixed(
        alloc,
        tokens,
        annotation_sign(annotated),
        at,
        depth,
        recorder,
    )?;
    recorder.node(from, annotation.next)?;
    let arg = make_arg(alloc, name, annotation.expr)?;
    Ok(ReadParameter {
        parameter: Parameter::Collected(arg),
        height: annotation.height,
        next: annotation.next,
    })
}

/// A parameter, or a sign between parameters. In front of a `**` the defaults are taken back that are
/// set aside after `count` other nodes: those of keyword-only parameters.
#[cycle(reading)]
#[inline(never)]
fn read_parameter<R: Recorder>(
    alloc: Global,
    tokens: &[Terminal],
    annotated: bool,
    at: usize,
    count: usize,
    depth: Depth,
    recorder: &mut R,
) -> Result<ReadParameter, Stop>
    requires within { at < length tokens.now }
    requires open { IsOpen depth }
    ensures answered { ParameterAnswered tokens.now depth.room (at + 1)
        (reader.read_parameter (inner_reads depth) annotated (seen tokens.now at)) result }
    ensures placed { IfOk result
        (λ r. ParameterPlaced R.after R.beside R.aside_count tokens.now annotated at count r
        recorder.old recorder.new) }
{
    if let Some(name) = name_at(tokens, at) {
        return plain_parameter(alloc, tokens, annotated, name, at, at + 1, depth, recorder);
    }
    if is_op(tokens, at, Exact::Star) {
        return match name_at(tokens, at + 1) {
            Some(name) => gathered_parameter(
                alloc,
                tokens,
                annotated,
                name,
                at + 1,
                at + 2,
                depth,
                recorder,
            ),
            None => Ok(ReadParameter {
                parameter: Parameter::Bare,
                height: 0,
                next: at + 1,
            }),
        };
    }
    if is_op(tokens, at, Exact::DoubleStar) {
        return match name_at(tokens, at + 1) {
            Some(name) => {
                recorder.take_back(count)?;
                collected_parameter(
                    alloc,
                    tokens,
                    annotated,
                    name,
                    at + 1,
                    at + 2,
                    depth,
                    recorder,
                )
            }
            None => Err(Stop::NoForm),
        };
    }
    if is_op(tokens, at, Exact::Slash) {
        return Ok(ReadParameter {
            parameter: Parameter::Slashed,
            height: 0,
            next: at + 1,
        });
    }
    Err(Stop::NoForm)
}

/// How many nodes are set aside up to the last default in front of a star, after a parameter more.
#[inline(always)]
fn count_defaults<R: Recorder>(stage: Stage, count: usize, recorder: &R) -> usize
    ensures { result ≡ defaults_after stage count (R.aside_count recorder.now) }
{
    match stage {
        Stage::Open => recorder.aside(),
        Stage::Closed => recorder.aside(),
        _ => count,
    }
}

/// Takes the defaults of keyword-only parameters back, which are set aside after `count` nodes, and
/// then those in front of the star, which are after `aside`.
#[inline(always)]
fn take_defaults_back<R: Recorder>(count: usize, aside: usize, recorder: &mut R) -> Result<(), Stop>
    ensures { MatchResult result
        (λ _. DefaultsBack R.after R.beside R.aside_count count aside recorder.old recorder.new)
        (λ s. s ≡ Stop.Memory) }
{
    recorder.take_back(count)?;
    recorder.take_back(aside)?;
    Ok(())
}

/// Parameters with commas between them, with annotations or without.
#[cycle(reading)]
#[inline(never)]
pub(crate) fn parameters<R: Recorder>(
    alloc: Global,
    tokens: &[Terminal],
    annotated: bool,
    at: usize,
    depth: Depth,
    recorder: &mut R,
) -> Result<Signature, Stop>
    requires within { at ≤ length tokens.now }
    requires open { IsOpen depth }
    ensures answered { MatchResult result
        (λ r. SignatureAt tokens.now depth.room at
        (reader.listing_of (inner_reads depth) (entries.Parameter annotated) []
        (seen tokens.now at)) r)
        (λ s. Failed s
        (reader.listing_of (inner_reads depth) (entries.Parameter annotated) []
        (seen tokens.now at))) }
    ensures placed { IfOk result
        (λ r. SignaturePlaced R.after tokens.now annotated at r recorder.old recorder.new) }
{
    let aside = recorder.aside();
    let mut count = aside;
    let mut signature = no_parameters(alloc, at);
    'more: while starts_parameter(tokens, signature.next) {
        let one = read_parameter(
            alloc,
            tokens,
            annotated,
            signature.next,
            count,
            depth,
            recorder,
        )?;
        put_parameter(&mut signature, one)?;
        count = count_defaults(signature.formal.stage, count, recorder);
        if !is_op(tokens, signature.next, Exact::Comma) {
            take_defaults_back(count, aside, recorder)?;
            return Ok(signature);
        }
        signature.next += 1;
    }
    take_defaults_back(count, aside, recorder)?;
    Ok(signature)
}

/// After a `lambda`.
#[cycle(reading)]
#[inline(never)]
pub(crate) fn lambda_step<R: Recorder>(
    alloc: Global,
    tokens: &[Terminal],
    from: usize,
    at: usize,
    depth: Depth,
    recorder: &mut R,
) -> Result<Read, Stop>
    requires within { at ≤ length tokens.now }
    requires open { IsOpen depth }
    ensures answered { Answered tokens.now depth.room (at + 1)
        (cap depth.room (reader.lambda_step (inner_reads depth) (seen tokens.now at))) result }
    ensures placed { at ≡ from + 1 → IfOk result (λ r. (ps : List Stretch) ×
        Placed Level.Expression (terminals.Word Keyword.Lambda ∷ seen tokens.now at) from
        (tree_of r.expr.value) (seen tokens.now r.next) r.next ps ×
        Records R.after recorder.old ps recorder.new) }
{
    let signature = parameters(alloc, tokens, false, at, depth, recorder)?;
    lambda_body(alloc, tokens, signature, from, depth, recorder)
}

/// What follows the parameters of a lambda that begins at a place.
#[cycle(reading)]
#[inline(never)]
fn lambda_body<R: Recorder>(
    alloc: Global,
    tokens: &[Terminal],
    signature: Signature,
    from: usize,
    depth: Depth,
    recorder: &mut R,
) -> Result<Read, Stop>
    requires within { signature.next ≤ length tokens.now }
    requires open { IsOpen depth }
    requires tall { IsTall signature }
    ensures answered { Answered tokens.now depth.room (signature.next + 1)
        (cap depth.room
        (body_reads depth (formals.outcome (state_of signature.formal)) (seen tokens.now signature.next))) result }
    ensures placed { (at : ℕ) → at ≡ from + 1 → (w : R)
        → SignaturePlaced R.after tokens.now false at signature w recorder.old
        → IfOk result (λ r. (ps : List Stretch) ×
        Placed Level.Expression (terminals.Word Keyword.Lambda ∷ seen tokens.now at) from
        (tree_of r.expr.value) (seen tokens.now r.next) r.next ps ×
        Records R.after w ps recorder.new) }
{
    if !is_op(tokens, signature.next, Exact::Colon) {
        return Err(Stop::NoForm);
    }
    let body = read_expression(alloc, tokens, signature.next + 1, depth.inner(), recorder)?;
    finish_lambda(alloc, signature, from, body, depth.room, recorder)
}

/// A lambda that begins at a place, of what was read.
#[inline(never)]
fn finish_lambda<R: Recorder>(
    alloc: Global,
    signature: Signature,
    from: usize,
    body: Read,
    room: usize,
    recorder: &mut R,
) -> Result<Read, Stop>
    requires { IsTall signature }
    ensures made { MakesLambda room (state_of signature.formal) (tree_of body.expr.value) body.next result }
    ensures placed { OnOk result (recorder.new ≡ R.after recorder.old (stretch from body.next)) }
{
    recorder.node(from, body.next)?;
    let args = arranged(signature.formal)?;
    make_lambda(alloc, args, signature.height, body, room)
}

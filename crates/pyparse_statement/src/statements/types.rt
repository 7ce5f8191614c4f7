//! Type parameters, and the statement `type`, of Python 3.12.
//!
//! Python language reference, 7.14 "The `type` statement" and 8.10 "Type parameter lists".

ghost use Rattle.std.specs.Prelude.{◌≡◌, ◌+◌, ◌++◌, ◌<◌, ◌≤◌, ◌∷◌, [], MatchResult, length, map};
ghost use Rattle.std.specs.Prelude.{max, true};
ghost use Rattle.std.specs.Str.{chars};
ghost use Rattle.unicode_normalization.specs.Forms.{nfkc};
ghost use Rattle.pytree_node.specs.TreeOf.{boxed_of, stmt_of, tree_of, type_param_of};
ghost use Rattle.pytree_node.specs.Trees as plain;
ghost use Rattle.pytoken.specs.TerminalOf.{terminal};
ghost use Rattle.pygrammar.specs.LineReader as line;
ghost use Rattle.pyparse_nodes.specs.Answers.{PartAnswered};
ghost use Rattle.pyparse_reads.specs.Readings.{reads};
ghost use Rattle.pyparse_nodes.specs.Views.{seen};
ghost use Rattle.pyparse_statement.specs.Inner.Types.{begins_type_param, type_var};
ghost use Rattle.std.specs.Prelude.{IfOk, ℕ};
ghost use Rattle.pytoken.specs.Terminals.{Ident, Spelled};
ghost use Rattle.pytree_node.specs.Profiles.{has_types};
ghost use Rattle.pyparse_statement.specs.PlacedParts.{ParamsPlaced, TypeParamPlaced};
ghost use Rattle.pyparse_statement.specs.PlacedParts.{TypeParamsPlaced};
ghost use Rattle.pyparse_statement.specs.PlacedStatements.{AliasPlaced};

use crate::statements::found::{ReadStatement, ReadTypeParam, ReadTypeParams};
use crate::statements::optional::{after_sign, unboxed};
use pygrammar::Level;
use pylex_listing::Exact;
use pyparse_nodes::{
    Optional, Read, Stop, append, identifier_of, is_op, make_name, name_at, terminal_at,
};
use pyparse_reads::{Depth, ReadsExpressions};
use pyplaces::Recorder;
use pytoken::Terminal;
use pytree_node::{Context, Profile, Stmt, TypeParam, Version};
use std::alloc::Global;

/// A parameter with a bound, by its parts.
fn type_var_of(alloc: Global, name: &str, bound: Optional) -> Result<ReadTypeParam, Stop>
    ensures param { MatchResult result
        (λ r. type_param_of r.param ≡ plain.TypeVar (nfkc (chars name.now)) (boxed_of bound.expr))
        (λ s. s ≡ Stop.Memory) }
    ensures next { MatchResult result (λ r. r.next ≡ bound.next) (λ s. s ≡ Stop.Memory) }
{
    let name = identifier_of(alloc, name)?;
    Ok(ReadTypeParam {
        param: TypeParam::TypeVar {
            name,
            bound: unboxed(bound.expr),
        },
        height: bound.height,
        next: bound.next,
    })
}

/// A parameter with no star, after its name.
fn type_var<E: ReadsExpressions, R: Recorder>(
    alloc: Global,
    tokens: &[Terminal],
    name: &str,
    at: usize,
    depth: Depth,
    recorder: &mut R,
) -> Result<ReadTypeParam, Stop>
    requires { at ≤ length tokens.now }
    ensures answered { PartAnswered tokens.now at
        (type_var (reads depth) (nfkc (chars name.now)) (seen tokens.now at))
        (λ r. type_param_of r.param) (λ r. r.next) result }
    ensures placed { (from : ℕ) (x : Spelled) → at ≡ from + 1
        → seen tokens.now from ≡ Ident x ∷ seen tokens.now at → x.form ≡ nfkc (chars name.now)
        → IfOk result (TypeParamPlaced R.after tokens.now from recorder.old recorder.new) }
{
    let bound = after_sign::<E, R>(
        alloc,
        tokens,
        Exact::Colon,
        Level::Expression,
        at,
        depth,
        recorder,
    )?;
    type_var_of(alloc, name, bound)
}

/// A parameter after a `*`.
fn type_var_tuple(alloc: Global, name: &str, next: usize) -> Result<ReadTypeParam, Stop>
    ensures param { MatchResult result
        (λ r. type_param_of r.param ≡ plain.TypeVarTuple (nfkc (chars name.now)))
        (λ s. s ≡ Stop.Memory) }
    ensures next { MatchResult result (λ r. r.next ≡ next) (λ s. s ≡ Stop.Memory) }
{
    let name = identifier_of(alloc, name)?;
    Ok(ReadTypeParam {
        param: TypeParam::TypeVarTuple { name },
        height: 0,
        next,
    })
}

/// A parameter after a `**`.
fn param_spec(alloc: Global, name: &str, next: usize) -> Result<ReadTypeParam, Stop>
    ensures param { MatchResult result
        (λ r. type_param_of r.param ≡ plain.ParamSpec (nfkc (chars name.now)))
        (λ s. s ≡ Stop.Memory) }
    ensures next { MatchResult result (λ r. r.next ≡ next) (λ s. s ≡ Stop.Memory) }
{
    let name = identifier_of(alloc, name)?;
    Ok(ReadTypeParam {
        param: TypeParam::ParamSpec { name },
        height: 0,
        next,
    })
}

/// A type parameter.
#[tactic(auto, using(crate::proofs::statements::TypeSteps::by_name, crate::proofs::statements::TypeSteps::by_star, crate::proofs::statements::TypeSteps::by_stars))]
fn read_type_param<E: ReadsExpressions, R: Recorder>(
    alloc: Global,
    tokens: &[Terminal],
    at: usize,
    depth: Depth,
    recorder: &mut R,
) -> Result<ReadTypeParam, Stop>
    ensures answered { PartAnswered tokens.now (at + 1)
        (line.read_type_param (reads depth) (seen tokens.now at)) (λ r. type_param_of r.param)
        (λ r. r.next) result }
    ensures placed { IfOk result (TypeParamPlaced R.after tokens.now at recorder.old recorder.new) }
{
    if let Some(name) = name_at(tokens, at) {
        return type_var::<E, R>(alloc, tokens, name, at + 1, depth, recorder);
    }
    if is_op(tokens, at, Exact::Star) {
        return match name_at(tokens, at + 1) {
            Some(name) => type_var_tuple(alloc, name, at + 2),
            None => Err(Stop::NoForm),
        };
    }
    if is_op(tokens, at, Exact::DoubleStar) {
        return match name_at(tokens, at + 1) {
            Some(name) => param_spec(alloc, name, at + 2),
            None => Err(Stop::NoForm),
        };
    }
    Err(Stop::NoForm)
}

/// Whether a type parameter begins with a terminal.
fn begins_type_param(t: Terminal) -> bool
    ensures { result ≡ begins_type_param (terminal t.entry) }
{
    match t {
        Terminal::Op(sign) => match sign {
            Exact::Star => true,
            Exact::DoubleStar => true,
            _ => false,
        },
        Terminal::Ident(_) => true,
        _ => false,
    }
}

/// Whether a type parameter begins at the place.
#[tactic(auto, using(crate::proofs::statements::TypeSteps::starts_here, crate::proofs::statements::TypeSteps::starts_not))]
fn starts_type_param(tokens: &[Terminal], at: usize) -> bool
    ensures { result ≡ line.starts_type_param (seen tokens.now at) }
{
    match terminal_at(tokens, at) {
        Some(t) => begins_type_param(t),
        None => false,
    }
}

/// No parameters, at a place.
fn no_params(alloc: Global, next: usize) -> ReadTypeParams
    ensures params { map type_param_of result.params.items ≡ [] }
    ensures next { result.next ≡ next }
{
    ReadTypeParams {
        params: Vec::new(alloc),
        height: 0,
        next,
    }
}

/// Parameters with one more.
#[tactic(auto, using(crate::proofs::statements::TypeSteps::param_pushed, crate::proofs::statements::TypeSteps::param_height))]
fn with_param(before: ReadTypeParams, one: ReadTypeParam) -> Result<ReadTypeParams, Stop>
    ensures params { MatchResult result
        (λ r. map type_param_of r.params.items
        ≡ map type_param_of before.params.items ++ (type_param_of one.param ∷ []))
        (λ s. s ≡ Stop.Memory) }
    ensures next { MatchResult result (λ r. r.next ≡ one.next) (λ s. s ≡ Stop.Memory) }
{
    let ReadTypeParams {
        params,
        height,
        next: _,
    } = before;
    let mut params = params;
    append(&mut params, one.param)?;
    Ok(ReadTypeParams {
        params,
        height: height.max(one.height),
        next: one.next,
    })
}

/// The same parameters, with another place after them.
fn placed(params: ReadTypeParams, next: usize) -> ReadTypeParams
    ensures params { map type_param_of result.params.items ≡ map type_param_of params.params.items }
    ensures next { result.next ≡ next }
{
    ReadTypeParams {
        params: params.params,
        height: params.height,
        next,
    }
}

/// Type parameters with commas between them.
fn type_params<E: ReadsExpressions, R: Recorder>(
    alloc: Global,
    tokens: &[Terminal],
    at: usize,
    depth: Depth,
    recorder: &mut R,
) -> Result<ReadTypeParams, Stop>
    requires { at ≤ length tokens.now }
    ensures answered { PartAnswered tokens.now at
        (line.commas_of (line.read_type_param (reads depth)) line.starts_type_param
        (seen tokens.now at)) (λ r. map type_param_of r.params.items) (λ r. r.next) result }
    ensures placed { IfOk result (ParamsPlaced R.after tokens.now at recorder.old recorder.new) }
{
    let mut params = no_params(alloc, at);
    'more: loop {
        let one = read_type_param::<E, R>(alloc, tokens, params.next, depth, recorder)?;
        recorder.node(params.next, one.next)?;
        let grown = with_param(params, one)?;
        if !is_op(tokens, grown.next, Exact::Comma) {
            return Ok(grown);
        }
        let next = grown.next + 1;
        params = placed(grown, next);
        if !starts_type_param(tokens, next) {
            return Ok(params);
        }
    }
}

/// Type parameters in square brackets, if one stands at the place.
fn bracketed_type_params<E: ReadsExpressions, R: Recorder>(
    alloc: Global,
    tokens: &[Terminal],
    at: usize,
    depth: Depth,
    recorder: &mut R,
) -> Result<ReadTypeParams, Stop>
    requires { at ≤ length tokens.now }
    ensures answered { PartAnswered tokens.now at
        (line.bracketed_type_params (reads depth) (seen tokens.now at))
        (λ r. map type_param_of r.params.items) (λ r. r.next) result }
    ensures placed { (profile : Profile) → has_types profile ≡ true
        → IfOk result (TypeParamsPlaced R.after profile tokens.now at recorder.old recorder.new) }
{
    if !is_op(tokens, at, Exact::LSqb) {
        return Ok(no_params(alloc, at));
    }
    let params = type_params::<E, R>(alloc, tokens, at + 1, depth, recorder)?;
    if !is_op(tokens, params.next, Exact::RSqb) {
        return Err(Stop::NoForm);
    }
    let next = params.next + 1;
    Ok(placed(params, next))
}

/// Type parameters in square brackets, if one stands at the place in a version that has them.
///
/// # Errors
///
/// [`Stop::NoForm`]: what stands in the bracket are none. [`Stop::TooDeep`]: a bound is too high.
/// [`Stop::Memory`].
pub fn read_type_params<E: ReadsExpressions, R: Recorder>(
    alloc: Global,
    tokens: &[Terminal],
    at: usize,
    profile: Profile,
    depth: Depth,
    recorder: &mut R,
) -> Result<ReadTypeParams, Stop>
    requires { at ≤ length tokens.now }
    ensures answered { PartAnswered tokens.now at
        (line.read_type_params profile (reads depth) (seen tokens.now at))
        (λ r. map type_param_of r.params.items) (λ r. r.next) result }
    ensures placed { IfOk result (TypeParamsPlaced R.after profile tokens.now at recorder.old
        recorder.new) }
{
    match profile.version {
        Version::Py311 => Ok(no_params(alloc, at)),
        Version::Py312 => bracketed_type_params::<E, R>(alloc, tokens, at, depth, recorder),
    }
}

/// The statement `type` of these parts.
#[tactic(auto, using(pytree_node::proofs::Callers::StmtShapes::type_alias_tree))]
fn alias_of(name: Read, params: ReadTypeParams, value: Read) -> ReadStatement
    ensures statement { stmt_of result.statement
        ≡ plain.TypeAlias (tree_of name.expr.value) (map type_param_of params.params.items)
        (tree_of value.expr.value) }
    ensures next { result.next ≡ value.next }
{
    ReadStatement {
        height: name.height.max(params.height.max(value.height)),
        next: value.next,
        statement: Stmt::TypeAlias {
            name: name.expr,
            type_params: params.params,
            value: value.expr,
        },
    }
}

/// After `type` and a name.
pub(crate) fn type_alias<E: ReadsExpressions, R: Recorder>(
    alloc: Global,
    tokens: &[Terminal],
    name: &str,
    at: usize,
    profile: Profile,
    depth: Depth,
    recorder: &mut R,
) -> Result<ReadStatement, Stop>
    requires { at ≤ length tokens.now }
    ensures answered { PartAnswered tokens.now at
        (line.alias_rest profile (reads depth) (nfkc (chars name.now)) (seen tokens.now at))
        (λ r. stmt_of r.statement) (λ r. r.next) result }
    ensures placed { AliasPlaced R.after profile tokens.now (nfkc (chars name.now)) at recorder.old
        recorder.new result }
{
    let params = read_type_params::<E, R>(alloc, tokens, at, profile, depth, recorder)?;
    if !is_op(tokens, params.next, Exact::Equal) {
        return Err(Stop::NoForm);
    }
    let value = E::read_at(
        alloc,
        tokens,
        Level::Expression,
        params.next + 1,
        depth,
        recorder,
    )?;
    let name = make_name(alloc, name, Context::Store, at)?;
    Ok(alias_of(name, params, value))
}

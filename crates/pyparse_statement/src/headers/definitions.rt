//! The headers of `def`, `async def` and `class`.
//!
//! Python language reference, 8.7 "Function definitions", 8.8 "Class definitions" and 8.9
//! "Coroutines".

ghost use Rattle.std.specs.Prelude.{◌≡◌, ◌+◌, ◌<◌, ◌≤◌, MatchResult, [], length, map};
ghost use Rattle.pytree_node.specs.TreeOf.{arguments_of, boxed_of, keyword_of, tree_of};
ghost use Rattle.pytree_node.specs.TreeOf.{type_param_of};
ghost use Rattle.pytree_node.specs.Trees as plain;
ghost use Rattle.pygrammar.specs.LineReader as line_reader;
ghost use Rattle.pygrammar.specs.Lines as lines;
ghost use Rattle.pygrammar.specs.FormOf.{header_of};
ghost use Rattle.pyparse_statement.specs.Answers.{HeaderAnswered};
ghost use Rattle.pyparse_reads.specs.Readings.{reads};
ghost use Rattle.pyparse_nodes.specs.Views.{seen};
ghost use Rattle.pyparse_statement.specs.Inner.Definitions.{class_from, function_from};
ghost use Rattle.std.specs.Prelude.{IfOk, ℕ};
ghost use Rattle.pytoken.specs.Terminals as terminals;
ghost use Rattle.pygrammar.specs.Forms as forms;
ghost use Rattle.pyparse_nodes.specs.Views.{Stands};
ghost use Rattle.pyplaces.specs.PlacedForms.{Bare};
ghost use Rattle.pyparse_statement.specs.PlacedHeaders.{ClassPlaced, FunctionPlaced, HeaderPlaced};

use crate::headers::found::ReadHeader;
use crate::statements::{ReadTypeParams, after_sign, read_type_params};
use pygrammar::{DefHead, Header, Level};
use pylex_listing::Exact;
use pyparse_nodes::{Optional, Stop, identifier_of, is_op, name_at};
use pyparse_reads::{Depth, ReadArguments, ReadParameters, ReadsExpressions};
use pyplaces::Recorder;
use pytoken::{Keyword, Terminal};
use pytree_node::{Identifier, Profile};
use std::alloc::Global;

/// The header of a `def`, of its parts.
fn function_header(
    alloc: Global,
    is_async: bool,
    name: Identifier,
    types: ReadTypeParams,
    parameters: ReadParameters,
    returns: Optional,
    before: usize,
) -> Result<ReadHeader, Stop>
    ensures header { MatchResult result
        (λ r. header_of r.header
        ≡ lines.def_header (lines.function_head is_async name (map type_param_of types.params.items)
        (arguments_of parameters.arguments) (boxed_of returns.expr)))
        (λ s. s ≡ Stop.Memory) }
    ensures next { MatchResult result (λ r. r.next ≡ returns.next) (λ s. s ≡ Stop.Memory) }
    ensures before { MatchResult result (λ r. r.before ≡ before) (λ s. s ≡ Stop.Memory) }
{
    let height = types.height.max(parameters.height.max(returns.height));
    let args = Box::new(alloc, parameters.arguments)?;
    Ok(ReadHeader {
        height,
        next: returns.next,
        before,
        header: Header::Def {
            head: DefHead::Function {
                is_async,
                name,
                type_params: types.params,
                args,
                returns: returns.expr,
            },
        },
    })
}

/// The header of a `def`, from its parameters on. The nodes set aside after the first `aside` are
/// those of the type parameters.
fn function_at<E: ReadsExpressions, R: Recorder>(
    alloc: Global,
    tokens: &[Terminal],
    is_async: bool,
    name: Identifier,
    types: ReadTypeParams,
    aside: usize,
    at: usize,
    depth: Depth,
    recorder: &mut R,
) -> Result<ReadHeader, Stop>
    requires { at ≤ length tokens.now }
    ensures answered { HeaderAnswered tokens.now at
        (function_from depth is_async name (map type_param_of types.params.items)
        (seen tokens.now at)) result }
    ensures placed { at ≡ types.next + 1 → Stands (terminals.Op Exact.LPar) tokens.now types.next
        → FunctionPlaced R.after R.beside R.recorded_count R.aside_count is_async tokens.now name
        types aside
        recorder.old recorder.new result }
{
    let parameters = E::parameters_at(alloc, tokens, at, depth, recorder)?;
    if !is_op(tokens, parameters.next, Exact::RPar) {
        return Err(Stop::NoForm);
    }
    let before = recorder.recorded();
    let at = parameters.next + 1;
    let returns = after_sign::<E, R>(
        alloc,
        tokens,
        Exact::RArrow,
        Level::Expression,
        at,
        depth,
        recorder,
    )?;
    recorder.take_back(aside)?;
    function_header(alloc, is_async, name, types, parameters, returns, before)
}

/// After a `def`, its name and the type parameters.
fn function_rest<E: ReadsExpressions, R: Recorder>(
    alloc: Global,
    tokens: &[Terminal],
    is_async: bool,
    name: Identifier,
    types: ReadTypeParams,
    aside: usize,
    depth: Depth,
    recorder: &mut R,
) -> Result<ReadHeader, Stop>
    requires { types.next ≤ length tokens.now }
    ensures answered { HeaderAnswered tokens.now types.next
        (line_reader.function_rest (reads depth) is_async name
        (map type_param_of types.params.items) (seen tokens.now types.next)) result }
    ensures placed { FunctionPlaced R.after R.beside R.recorded_count R.aside_count is_async
        tokens.now name types aside
        recorder.old recorder.new result }
{
    if !is_op(tokens, types.next, Exact::LPar) {
        return Err(Stop::NoForm);
    }
    let at = types.next + 1;
    function_at::<E, R>(
        alloc, tokens, is_async, name, types, aside, at, depth, recorder,
    )
}

/// After a `def`.
pub(crate) fn def_rest<E: ReadsExpressions, R: Recorder>(
    alloc: Global,
    tokens: &[Terminal],
    is_async: bool,
    at: usize,
    profile: Profile,
    depth: Depth,
    recorder: &mut R,
) -> Result<ReadHeader, Stop>
    requires { at ≤ length tokens.now }
    ensures answered { HeaderAnswered tokens.now at
        (line_reader.def_rest profile (reads depth) is_async (seen tokens.now at)) result }
    ensures placed { (from middle : ℕ)
        → Bare (λ us. forms.Async us is_async) (seen tokens.now from) from (seen tokens.now middle)
        middle
        → at ≡ middle + 1 → Stands (terminals.Word Keyword.Def) tokens.now middle
        → IfOk result (HeaderPlaced R.after R.recorded_count profile tokens.now from recorder.old
        recorder.new) }
{
    let name = match name_at(tokens, at) {
        Some(name) => name,
        None => return Err(Stop::NoForm),
    };
    let aside = recorder.aside();
    let recorded = recorder.recorded();
    let types = read_type_params::<E, R>(alloc, tokens, at + 1, profile, depth, recorder)?;
    recorder.set_aside(recorded)?;
    let name = identifier_of(alloc, name)?;
    function_rest::<E, R>(alloc, tokens, is_async, name, types, aside, depth, recorder)
}

/// The header of a `class` with no brackets.
fn bare_class(alloc: Global, name: Identifier, types: ReadTypeParams, before: usize) -> ReadHeader
    ensures header { header_of result.header
        ≡ lines.def_header
        (lines.class_head name (map type_param_of types.params.items) [] plain.no_keyword) }
    ensures next { result.next ≡ types.next }
    ensures before { result.before ≡ before }
{
    ReadHeader {
        height: types.height,
        next: types.next,
        before,
        header: Header::Def {
            head: DefHead::Class {
                name,
                type_params: types.params,
                bases: Vec::new(alloc),
                keywords: Vec::new(alloc),
            },
        },
    }
}

/// The header of a `class` with arguments in brackets.
fn class_of(
    name: Identifier,
    types: ReadTypeParams,
    arguments: ReadArguments,
    next: usize,
    before: usize,
) -> ReadHeader
    ensures header { header_of result.header
        ≡ lines.def_header (lines.class_head name (map type_param_of types.params.items)
        (map tree_of arguments.args.items)
        (plain.keywords (map keyword_of arguments.keywords.items))) }
    ensures next { result.next ≡ next }
    ensures before { result.before ≡ before }
{
    ReadHeader {
        height: types.height.max(arguments.height),
        next,
        before,
        header: Header::Def {
            head: DefHead::Class {
                name,
                type_params: types.params,
                bases: arguments.args,
                keywords: arguments.keywords,
            },
        },
    }
}

/// The header of a `class`, from its arguments on. The nodes set aside after the first `aside` are
/// those of the type parameters.
fn class_at<E: ReadsExpressions, R: Recorder>(
    alloc: Global,
    tokens: &[Terminal],
    name: Identifier,
    types: ReadTypeParams,
    aside: usize,
    at: usize,
    depth: Depth,
    recorder: &mut R,
) -> Result<ReadHeader, Stop>
    requires { at ≤ length tokens.now }
    ensures answered { HeaderAnswered tokens.now at
        (class_from depth name (map type_param_of types.params.items) (seen tokens.now at)) result }
    ensures placed { at ≡ types.next + 1 → Stands (terminals.Op Exact.LPar) tokens.now types.next
        → ClassPlaced R.after R.beside R.recorded_count R.aside_count tokens.now name types aside
        recorder.old recorder.new result }
{
    let arguments = E::arguments_at(alloc, tokens, at, depth, recorder)?;
    if !is_op(tokens, arguments.next, Exact::RPar) {
        return Err(Stop::NoForm);
    }
    let before = recorder.recorded();
    recorder.take_back(aside)?;
    let next = arguments.next + 1;
    Ok(class_of(name, types, arguments, next, before))
}

/// After a `class`, its name and the type parameters.
fn bases_rest<E: ReadsExpressions, R: Recorder>(
    alloc: Global,
    tokens: &[Terminal],
    name: Identifier,
    types: ReadTypeParams,
    aside: usize,
    depth: Depth,
    recorder: &mut R,
) -> Result<ReadHeader, Stop>
    requires { types.next ≤ length tokens.now }
    ensures answered { HeaderAnswered tokens.now types.next
        (line_reader.bases_rest (reads depth) name (map type_param_of types.params.items)
        (seen tokens.now types.next)) result }
    ensures placed { ClassPlaced R.after R.beside R.recorded_count R.aside_count tokens.now name
        types aside
        recorder.old recorder.new result }
{
    if !is_op(tokens, types.next, Exact::LPar) {
        let before = recorder.recorded();
        recorder.take_back(aside)?;
        return Ok(bare_class(alloc, name, types, before));
    }
    let at = types.next + 1;
    class_at::<E, R>(alloc, tokens, name, types, aside, at, depth, recorder)
}

/// After a `class`.
pub(crate) fn class_rest<E: ReadsExpressions, R: Recorder>(
    alloc: Global,
    tokens: &[Terminal],
    at: usize,
    profile: Profile,
    depth: Depth,
    recorder: &mut R,
) -> Result<ReadHeader, Stop>
    requires { at ≤ length tokens.now }
    ensures answered { HeaderAnswered tokens.now at
        (line_reader.class_rest profile (reads depth) (seen tokens.now at)) result }
    ensures placed { (from : ℕ) → at ≡ from + 1 → Stands (terminals.Word Keyword.Class) tokens.now
        from
        → IfOk result (HeaderPlaced R.after R.recorded_count profile tokens.now from recorder.old
        recorder.new) }
{
    let name = match name_at(tokens, at) {
        Some(name) => name,
        None => return Err(Stop::NoForm),
    };
    let aside = recorder.aside();
    let recorded = recorder.recorded();
    let types = read_type_params::<E, R>(alloc, tokens, at + 1, profile, depth, recorder)?;
    recorder.set_aside(recorded)?;
    let name = identifier_of(alloc, name)?;
    bases_rest::<E, R>(alloc, tokens, name, types, aside, depth, recorder)
}

//! The arguments of a call.

ghost use Rattle.std.specs.Prelude.{◌≡◌, ◌+◌, ◌-◌, ◌++◌, ◌<◌, ◌≤◌, ◌∷◌, MatchResult, [], length};
ghost use Rattle.std.specs.Prelude.{IfOk, List, map, max, option_map, true};
ghost use Rattle.std.specs.Str.{chars};
ghost use Rattle.unicode_normalization.specs.Forms.{nfkc};
ghost use Rattle.pytree_node.specs.TreeOf.{keyword_of, tree_of};
ghost use Rattle.pygrammar.specs.Capped.{cap};
ghost use Rattle.pygrammar.specs.Entries as entries;
ghost use Rattle.pygrammar.specs.Precedence as precedence;
ghost use Rattle.pytoken.specs.Terminals as terminals;
ghost use Rattle.pygrammar.specs.Reader as reader;
ghost use Rattle.pyparse_nodes.specs.Answers.{Answered, Failed};
ghost use Rattle.pyparse_expr.specs.Inner.Arguments as arguments;
ghost use Rattle.pyparse_expr.specs.Inner.Arguments.{ActualAt, AddedAt, IsKindAt, arguments_of, entry_of};
ghost use Rattle.pyparse_expr.specs.Inner.Arguments.{level_of, place_of, state_of};
ghost use Rattle.pyparse_expr.specs.Inner.PlacedCalls.{ArgumentPlaced, ArgumentsKept};
ghost use Rattle.pyparse_expr.specs.Inner.PlacedCalls.{ArgumentsPlaced, places_of};
ghost use Rattle.pyparse_expr.specs.Inner.Readings.{inner_reads};
ghost use Rattle.pyparse_reads.specs.Readings.{IsOpen};
ghost use Rattle.pyparse_nodes.specs.Views.{Stands, seen};
ghost use Rattle.pyplaces.specs.EntryPlaces as E;
ghost use Rattle.pyplaces.specs.Recording.{Kept, Records};
ghost use Rattle.pyplaces.specs.Placed.{Placed};
ghost use Rattle.pyplaces.specs.Stretches.{Stretch, stretch};

use crate::comprehensions::comps;
use crate::levels::{read_expression, read_named};
use crate::listings::first_items;
use pygrammar::Level;
use pylex_listing::Exact;
use pyparse_nodes::{
    Actual, ArgumentForm, Read, Stop, is_op, lead_at, make_call, make_generator, make_starred,
    name_with, put, put_keyword, starts_comp,
};
use pyparse_reads::Depth;
use pyplaces::Recorder;
use pytoken::Terminal;
use std::alloc::Global;

/// No arguments, at a place.
fn none_at(alloc: Global, at: usize) -> Actual
    ensures state { state_of result ≡ arguments.start }
    ensures next { result.next ≡ at }
    ensures height { result.height ≡ 0 }
{
    Actual {
        args: Vec::new(alloc),
        keywords: Vec::new(alloc),
        keyed: false,
        doubled: false,
        wrong: false,
        height: 0,
        next: at,
    }
}

/// The same arguments, from another place on.
fn moved(actual: Actual, next: usize) -> Actual
    ensures state { state_of result ≡ state_of actual }
    ensures next { result.next ≡ next }
    ensures height { result.height ≡ actual.height }
{
    let mut actual = actual;
    actual.next = next;
    actual
}

/// Appends an argument without a name.
#[tactic(auto, using(pyparse_nodes::proofs::Callers::Pushes::pushed, crate::proofs::Calls::ArgumentSteps::args_height))]
#[inline(always)]
fn add_plain(actual: Actual, e: Read, wrong: bool) -> Result<Actual, Stop>
    ensures state { MatchResult result
        (λ r. state_of r ≡ arguments.state actual.keyed actual.doubled wrong
        (map tree_of actual.args.items ++ (tree_of e.expr.value ∷ []))
        (map keyword_of actual.keywords.items))
        (λ s. s ≡ Stop.Memory) }
    ensures next { MatchResult result (λ r. r.next ≡ e.next) (λ s. s ≡ Stop.Memory) }
    ensures height { MatchResult result (λ r. r.height ≡ max actual.height e.height)
        (λ s. s ≡ Stop.Memory) }
{
    let Actual {
        args,
        keywords,
        keyed,
        doubled,
        wrong: _,
        height,
        next: _,
    } = actual;
    let mut args = args;
    put(&mut args, e.expr)?;
    Ok(Actual {
        args,
        keywords,
        keyed,
        doubled,
        wrong,
        height: height.max(e.height),
        next: e.next,
    })
}

/// Appends an argument of this name, or one of `**`.
#[tactic(auto, using(crate::proofs::Calls::ArgumentSteps::keywords_height))]
#[inline(never)]
fn add_keyword(
    alloc: Global,
    actual: Actual,
    name: Option<&str>,
    e: Read,
    doubled: bool,
) -> Result<Actual, Stop>
    ensures state { MatchResult result
        (λ r. state_of r ≡ arguments.state true doubled actual.wrong (map tree_of actual.args.items)
        (map keyword_of actual.keywords.items ++
        (record {
          arg = option_map (λ x. nfkc (chars x.now)) name.entry;
          value = tree_of e.expr.value;
        } ∷ [])))
        (λ s. s ≡ Stop.Memory) }
    ensures next { MatchResult result (λ r. r.next ≡ e.next) (λ s. s ≡ Stop.Memory) }
    ensures height { MatchResult result (λ r. r.height ≡ max actual.height e.height)
        (λ s. s ≡ Stop.Memory) }
{
    let Actual {
        args,
        keywords,
        keyed: _,
        doubled: _,
        wrong,
        height,
        next: _,
    } = actual;
    let mut keywords = keywords;
    put_keyword(alloc, &mut keywords, name, e.expr)?;
    Ok(Actual {
        args,
        keywords,
        keyed: true,
        doubled,
        wrong,
        height: height.max(e.height),
        next: e.next,
    })
}

/// Appends an argument of this kind.
#[inline(always)]
fn add(
    alloc: Global,
    actual: Actual,
    kind: ArgumentForm,
    e: Read,
    room: usize,
) -> Result<Actual, Stop>
    requires low { e.height < room }
    requires held { actual.height ≤ room }
    ensures state { MatchResult result
        (λ r. state_of r ≡ arguments.step (state_of actual)
        (entry_of kind.entry (tree_of e.expr.value)))
        (λ s. s ≡ Stop.Memory) }
    ensures next { MatchResult result (λ r. r.next ≡ e.next) (λ s. s ≡ Stop.Memory) }
    ensures low { MatchResult result (λ r. r.height ≤ room) (λ s. s ≡ Stop.Memory) }
{
    match kind {
        ArgumentForm::Single => {
            let wrong = actual.wrong || actual.keyed;
            add_plain(actual, e, wrong)
        }
        ArgumentForm::Spread => {
            let wrong = actual.wrong || actual.doubled;
            let starred = make_starred(alloc, e, room)?;
            add_plain(actual, starred, wrong)
        }
        ArgumentForm::Doubled => add_keyword(alloc, actual, None, e, true),
        ArgumentForm::Keyed(name) => {
            let doubled = actual.doubled;
            add_keyword(alloc, actual, Some(name), e, doubled)
        }
    }
}

/// Whether an argument begins at the place.
#[tactic(auto, using(crate::proofs::Calls::ArgumentSteps::begins_high, crate::proofs::Calls::ArgumentSteps::begins_double, crate::proofs::Calls::ArgumentSteps::begins_not))]
fn begins_argument(tokens: &[Terminal], at: usize) -> bool
    ensures is { result ≡ precedence.starts entries.Argument (seen tokens.now at) }
    ensures within { result ≡ true → at < length tokens.now }
{
    if lead_at(tokens, at) >= Level::Elem.rank() {
        return true;
    }
    is_op(tokens, at, Exact::DoubleStar)
}

/// How an argument at the place begins, if one does.
#[tactic(auto, using(crate::proofs::Calls::ArgumentSteps::spread_kind, crate::proofs::Calls::ArgumentSteps::doubled_kind, crate::proofs::Calls::ArgumentSteps::keyed_kind, crate::proofs::Calls::ArgumentSteps::single_kind))]
fn kind_at<'a>(tokens: &[Terminal<'a>], at: usize) -> ArgumentForm<'a>
    requires { at ≤ length tokens.now }
    ensures { IsKindAt result tokens.now at }
{
    if is_op(tokens, at, Exact::Star) {
        return ArgumentForm::Spread;
    }
    if is_op(tokens, at, Exact::DoubleStar) {
        return ArgumentForm::Doubled;
    }
    match name_with(tokens, at, Exact::Equal) {
        Some(name) => ArgumentForm::Keyed(name),
        None => ArgumentForm::Single,
    }
}

/// Records an argument with a name, or of `**`, after the nodes in it, which stand after `from`
/// others, and sets all of it aside.
fn record_keyword<R: Recorder>(
    at: usize,
    next: usize,
    from: usize,
    recorder: &mut R,
) -> Result<(), Stop>
    ensures { MatchResult result
        (λ _. (w : R) → (ps : List Stretch) → Records R.after w ps recorder.old
        → from ≡ R.recorded_count w
        → Kept R.after R.beside w [] (ps ++ (stretch at next ∷ [])) recorder.new)
        (λ s. s ≡ Stop.Memory) }
{
    recorder.node(at, next)?;
    recorder.set_aside(from)?;
    Ok(())
}

/// Records an argument that stands at the terminals from `at` up to `next`, after the nodes in it,
/// which stand after `from` others. One with a name is set aside.
#[inline(always)]
fn record_argument<R: Recorder>(
    kind: ArgumentForm,
    at: usize,
    next: usize,
    from: usize,
    recorder: &mut R,
) -> Result<(), Stop>
    ensures { MatchResult result
        (λ _. (w : R) → (ps : List Stretch) → Records R.after w ps recorder.old
        → from ≡ R.recorded_count w
        → Kept R.after R.beside w
        (E.positional (places_of kind.entry ps (stretch at next) ∷ []))
        (E.keywords (places_of kind.entry ps (stretch at next) ∷ [])) recorder.new)
        (λ s. s ≡ Stop.Memory) }
{
    match kind {
        ArgumentForm::Single => Ok(()),
        ArgumentForm::Spread => {
            recorder.node(at, next)?;
            Ok(())
        }
        ArgumentForm::Doubled => record_keyword(at, next, from, recorder),
        ArgumentForm::Keyed(_) => record_keyword(at, next, from, recorder),
    }
}

/// The expression of an argument of this kind.
#[cycle(reading)]
#[inline(always)]
fn read_argument<R: Recorder>(
    alloc: Global,
    tokens: &[Terminal],
    kind: ArgumentForm,
    at: usize,
    depth: Depth,
    recorder: &mut R,
) -> Result<Read, Stop>
    requires within { place_of kind at ≤ length tokens.now }
    requires open { IsOpen depth }
    ensures answered { Answered tokens.now (depth.room - 1) (at + 1)
        (inner_reads depth (level_of kind.entry)
        (seen tokens.now (place_of kind.entry at))) result }
    ensures placed { IfOk result (λ r. (ps : List Stretch) ×
        Placed (level_of kind.entry) (seen tokens.now (place_of kind.entry at))
        (place_of kind.entry at) (tree_of r.expr.value) (seen tokens.now r.next) r.next ps ×
        Records R.after recorder.old ps recorder.new) }
{
    match kind {
        ArgumentForm::Single => read_named(alloc, tokens, at, depth.inner(), recorder),
        ArgumentForm::Spread => read_expression(alloc, tokens, at + 1, depth.inner(), recorder),
        ArgumentForm::Doubled => read_expression(alloc, tokens, at + 1, depth.inner(), recorder),
        ArgumentForm::Keyed(_) => read_expression(alloc, tokens, at + 2, depth.inner(), recorder),
    }
}

/// One more argument.
#[cycle(reading)]
fn one_more<R: Recorder>(
    alloc: Global,
    tokens: &[Terminal],
    actual: Actual,
    depth: Depth,
    recorder: &mut R,
) -> Result<Actual, Stop>
    requires within { actual.next ≤ length tokens.now }
    requires open { IsOpen depth }
    requires low { actual.height ≤ depth.room }
    ensures answered { MatchResult result
        (λ r. AddedAt tokens.now depth.room (actual.next + 1) (state_of actual)
        (reader.read_argument (inner_reads depth) (seen tokens.now actual.next)) r)
        (λ s. Failed s (reader.read_argument (inner_reads depth) (seen tokens.now actual.next))) }
    ensures placed { IfOk result
        (λ r. ArgumentPlaced R.after R.beside tokens.now actual.next (state_of actual) r
        recorder.old recorder.new) }
{
    let kind = kind_at(tokens, actual.next);
    let from = recorder.recorded();
    let e = read_argument(alloc, tokens, kind, actual.next, depth, recorder)?;
    record_argument(kind, actual.next, e.next, from, recorder)?;
    add(alloc, actual, kind, e, depth.room)
}

/// Arguments with commas between them, after some that were read. Those with a name stay set aside.
#[cycle(reading)]
#[inline(never)]
pub(crate) fn more_arguments<R: Recorder>(
    alloc: Global,
    tokens: &[Terminal],
    actual: Actual,
    depth: Depth,
    recorder: &mut R,
) -> Result<Actual, Stop>
    requires within { actual.next ≤ length tokens.now }
    requires open { IsOpen depth }
    requires low { actual.height ≤ depth.room }
    ensures answered { MatchResult result
        (λ r. ActualAt tokens.now depth.room actual.next (state_of actual)
        (arguments_of depth [] (seen tokens.now actual.next)) r)
        (λ s. Failed s (arguments_of depth [] (seen tokens.now actual.next))) }
    ensures placed { IfOk result
        (λ r. ArgumentsKept R.after R.beside tokens.now actual.next (state_of actual) r
        recorder.old recorder.new) }
{
    let mut actual = actual;
    'more: loop {
        if !begins_argument(tokens, actual.next) {
            return Ok(actual);
        }
        let grown = one_more(alloc, tokens, actual, depth, recorder)?;
        if !is_op(tokens, grown.next, Exact::Comma) {
            return Ok(grown);
        }
        let next = grown.next + 1;
        actual = moved(grown, next);
    }
}

/// The arguments from a place on.
pub(crate) fn arguments<R: Recorder>(
    alloc: Global,
    tokens: &[Terminal],
    at: usize,
    depth: Depth,
    recorder: &mut R,
) -> Result<Actual, Stop>
    requires within { at ≤ length tokens.now }
    requires open { IsOpen depth }
    ensures answered { MatchResult result
        (λ r. ActualAt tokens.now depth.room at arguments.start
        (arguments_of depth [] (seen tokens.now at)) r)
        (λ s. Failed s (arguments_of depth [] (seen tokens.now at))) }
    ensures placed { IfOk result
        (λ r. ArgumentsPlaced R.after tokens.now at r recorder.old recorder.new) }
{
    let aside = recorder.aside();
    let actual = more_arguments(alloc, tokens, none_at(alloc, at), depth, recorder)?;
    recorder.take_back(aside)?;
    Ok(actual)
}

/// The call of these arguments, after which its bracket has to stand. Those with a name are set
/// aside, after `aside` other nodes.
#[inline(always)]
fn finish<R: Recorder>(
    alloc: Global,
    tokens: &[Terminal],
    func: Read,
    actual: Actual,
    at: usize,
    aside: usize,
    room: usize,
    recorder: &mut R,
) -> Result<Read, Stop>
    requires { actual.next ≤ length tokens.now }
    ensures answered { Answered tokens.now room actual.next
        (cap room (arguments.finished (tree_of func.expr.value) (state_of actual)
        (seen tokens.now actual.next))) result }
    ensures placed { Stands (terminals.Op Exact.LPar) tokens.now func.next
        → (ps : List Stretch)
        → Placed Level.Primary (seen tokens.now at) at (tree_of func.expr.value)
        (seen tokens.now func.next) func.next ps
        → (w : R) → aside ≡ R.aside_count w
        → ArgumentsKept R.after R.beside tokens.now (func.next + 1) arguments.start actual w
        recorder.old
        → IfOk result (λ r. (qs : List Stretch) ×
        Placed Level.Primary (seen tokens.now at) at (tree_of r.expr.value)
        (seen tokens.now r.next) r.next (ps ++ qs) ×
        Records R.after w qs recorder.new) }
{
    if !is_op(tokens, actual.next, Exact::RPar) {
        return Err(Stop::NoForm);
    }
    if actual.wrong {
        return Err(Stop::NoForm);
    }
    let next = actual.next + 1;
    recorder.take_back(aside)?;
    recorder.node(at, next)?;
    make_call(
        alloc,
        func.expr,
        actual.args,
        actual.keywords,
        func.height.max(actual.height),
        next,
        room,
    )
}

/// A call with a first argument.
#[cycle(reading)]
fn call_from<R: Recorder>(
    alloc: Global,
    tokens: &[Terminal],
    func: Read,
    first: Actual,
    at: usize,
    aside: usize,
    depth: Depth,
    recorder: &mut R,
) -> Result<Read, Stop>
    requires within { first.next ≤ length tokens.now }
    requires open { IsOpen depth }
    requires low { first.height ≤ depth.room }
    ensures answered { Answered tokens.now depth.room first.next
        (cap depth.room
        (arguments.called_from depth (tree_of func.expr.value) (state_of first)
        (seen tokens.now first.next))) result }
    ensures placed { Stands (terminals.Op Exact.LPar) tokens.now func.next
        → (ps : List Stretch)
        → Placed Level.Primary (seen tokens.now at) at (tree_of func.expr.value)
        (seen tokens.now func.next) func.next ps
        → (w : R) → aside ≡ R.aside_count w
        → ArgumentPlaced R.after R.beside tokens.now (func.next + 1) arguments.start first w
        recorder.old
        → IfOk result (λ r. (qs : List Stretch) ×
        Placed Level.Primary (seen tokens.now at) at (tree_of r.expr.value)
        (seen tokens.now r.next) r.next (ps ++ qs) ×
        Records R.after w qs recorder.new) }
{
    if !is_op(tokens, first.next, Exact::Comma) {
        return finish(alloc, tokens, func, first, at, aside, depth.room, recorder);
    }
    let next = first.next + 1;
    let actual = more_arguments(alloc, tokens, moved(first, next), depth, recorder)?;
    finish(alloc, tokens, func, actual, at, aside, depth.room, recorder)
}

/// A call with a generator expression as its only argument, after the element.
#[cycle(reading)]
#[inline(never)]
fn generator_call<R: Recorder>(
    alloc: Global,
    tokens: &[Terminal],
    func: Read,
    elt: Read,
    at: usize,
    depth: Depth,
    recorder: &mut R,
) -> Result<Read, Stop>
    requires within { elt.next ≤ length tokens.now }
    requires open { IsOpen depth }
    ensures answered { Answered tokens.now depth.room elt.next
        (cap depth.room (reader.generator_call (inner_reads depth) (tree_of func.expr.value)
        (entries.Single (tree_of elt.expr.value)) (seen tokens.now elt.next))) result }
    ensures placed { Stands (terminals.Op Exact.LPar) tokens.now func.next
        → precedence.starts_comp (seen tokens.now elt.next) ≡ true
        → (ps : List Stretch)
        → Placed Level.Primary (seen tokens.now at) at (tree_of func.expr.value)
        (seen tokens.now func.next) func.next ps
        → (es : List Stretch)
        → Placed Level.Named (seen tokens.now (func.next + 1)) (func.next + 1)
        (tree_of elt.expr.value) (seen tokens.now elt.next) elt.next es
        → (w : R) → Records R.after w es recorder.old
        → IfOk result (λ r. (qs : List Stretch) ×
        Placed Level.Primary (seen tokens.now at) at (tree_of r.expr.value)
        (seen tokens.now r.next) r.next (ps ++ qs) ×
        Records R.after w qs recorder.new) }
{
    let comps = comps(alloc, tokens, elt.next, depth, recorder)?;
    if !is_op(tokens, comps.next, Exact::RPar) {
        return Err(Stop::NoForm);
    }
    let next = comps.next + 1;
    let height = elt.height.max(comps.height);
    let e = make_generator(alloc, elt.expr, comps.generators, height, next, depth.room)?;
    let items = first_items(alloc, e)?;
    recorder.node(func.next, next)?;
    recorder.node(at, next)?;
    make_call(
        alloc,
        func.expr,
        items.exprs,
        Vec::new(alloc),
        func.height.max(items.height),
        next,
        depth.room,
    )
}

/// A call, from its bracket on.
#[cycle(reading)]
#[inline(never)]
pub(crate) fn call_step<R: Recorder>(
    alloc: Global,
    tokens: &[Terminal],
    func: Read,
    at: usize,
    depth: Depth,
    recorder: &mut R,
) -> Result<Read, Stop>
    requires within { func.next < length tokens.now }
    requires open { IsOpen depth }
    ensures answered { Answered tokens.now depth.room (func.next + 1)
        (cap depth.room
        (reader.call_step (inner_reads depth) (tree_of func.expr.value)
        (seen tokens.now (func.next + 1)))) result }
    ensures placed { Stands (terminals.Op Exact.LPar) tokens.now func.next
        → (ps : List Stretch)
        → Placed Level.Primary (seen tokens.now at) at (tree_of func.expr.value)
        (seen tokens.now func.next) func.next ps
        → IfOk result (λ r. (qs : List Stretch) ×
        Placed Level.Primary (seen tokens.now at) at (tree_of r.expr.value)
        (seen tokens.now r.next) r.next (ps ++ qs) ×
        Records R.after recorder.old qs recorder.new) }
{
    let begin = func.next + 1;
    let aside = recorder.aside();
    let none = none_at(alloc, begin);
    if !begins_argument(tokens, begin) {
        return finish(alloc, tokens, func, none, at, aside, depth.room, recorder);
    }
    let kind = kind_at(tokens, begin);
    let from = recorder.recorded();
    let e = read_argument(alloc, tokens, kind, begin, depth, recorder)?;
    if starts_comp(tokens, e.next) {
        return match kind {
            ArgumentForm::Single => generator_call(alloc, tokens, func, e, at, depth, recorder),
            _ => Err(Stop::NoForm),
        };
    }
    record_argument(kind, begin, e.next, from, recorder)?;
    let first = add(alloc, none, kind, e, depth.room)?;
    call_from(alloc, tokens, func, first, at, aside, depth, recorder)
}

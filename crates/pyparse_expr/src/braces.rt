//! Sets and dictionaries.

ghost use Rattle.std.specs.Prelude.{◌≡◌, ◌+◌, ◌++◌, ◌<◌, ◌≤◌, ◌∷◌, [], List, IfOk, MatchResult};
ghost use Rattle.std.specs.Prelude.{cond, length, max, true};
ghost use Rattle.pytree_node.specs.TreeOf.{tree_of};
ghost use Rattle.pytree_node.specs.Trees as plain;
ghost use Rattle.pygrammar.specs.Capped.{cap};
ghost use Rattle.pygrammar.specs.Entries as entries;
ghost use Rattle.pygrammar.specs.Precedence as precedence;
ghost use Rattle.pygrammar.specs.Reader as reader;
ghost use Rattle.pyparse_nodes.specs.Answers.{Answered, Failed};
ghost use Rattle.pyparse_expr.specs.Inner.Pairs.{PairAt, PairsAt, more_pairs_at, pair_of, pairs_of};
ghost use Rattle.pyparse_expr.specs.Inner.PlacedLists.{PairPlaced, PairsPlaced};
ghost use Rattle.pyparse_expr.specs.Inner.Readings.{inner_reads};
ghost use Rattle.pyparse_reads.specs.Readings.{IsOpen};
ghost use Rattle.pyparse_nodes.specs.Views.{Stands, seen};
ghost use Rattle.pyplaces.specs.EntryPlaces as places;
ghost use Rattle.pyplaces.specs.EntryPlaces.{EntryPlaces};
ghost use Rattle.pyplaces.specs.Placed.{Placed, PlacedPiece};
ghost use Rattle.pyplaces.specs.Recording.{Records, Kept};
ghost use Rattle.pyplaces.specs.Stretches.{Stretch};
ghost use Rattle.pytoken.specs.Terminals as terminals;

use crate::climbing::climb;
use crate::comprehensions::comps;
use crate::levels::{read_elem, read_expression};
use crate::listings::{Item, others};
use pygrammar::Level;
use pylex_listing::Exact;
use pyparse_nodes::{
    Pair, Pairs, Read, Stop, is_op, lead_at, make_dict, make_dict_comp, make_set, make_set_comp,
    name_with, put, put_option, starts_comp,
};
use pyparse_reads::Depth;
use pyplaces::Recorder;
use pytoken::Terminal;
use std::alloc::Global;

/// After a `{`, which stands at `from`.
#[cycle(reading)]
pub(crate) fn curly<R: Recorder>(
    alloc: Global,
    tokens: &[Terminal],
    from: usize,
    at: usize,
    depth: Depth,
    recorder: &mut R,
) -> Result<Read, Stop>
    requires within { at ≤ length tokens.now }
    requires open { IsOpen depth }
    ensures answered { Answered tokens.now depth.room (at + 1)
        (cap depth.room (reader.curly (inner_reads depth) (seen tokens.now at))) result }
    ensures placed { at ≡ from + 1 → IfOk result (λ r. (ps : List Stretch) ×
        Placed Level.Atom (terminals.Op Exact.LBrace ∷ seen tokens.now at) from
        (tree_of r.expr.value) (seen tokens.now r.next) r.next ps ×
        Records R.after recorder.old ps recorder.new) }
{
    if is_op(tokens, at, Exact::RBrace) {
        let next = at + 1;
        recorder.node(from, next)?;
        return make_dict(alloc, Vec::new(alloc), Vec::new(alloc), 0, next, depth.room);
    }
    if is_op(tokens, at, Exact::DoubleStar) {
        let kept = recorder.aside();
        let before = recorder.recorded();
        let value = climb(alloc, tokens, Level::BitOr, at + 1, depth.inner(), recorder)?;
        recorder.set_aside(before)?;
        return dict_from(alloc, tokens, doubled(value), from, kept, depth, recorder);
    }
    let first = read_elem(alloc, tokens, at, depth.inner(), recorder)?;
    if is_op(tokens, first.next, Exact::Colon) {
        if is_op(tokens, at, Exact::Star) {
            return Err(Stop::NoForm);
        }
        return match name_with(tokens, at, Exact::ColonEqual) {
            Some(_) => Err(Stop::NoForm),
            None => keyed(alloc, tokens, first, from, depth, recorder),
        };
    }
    if starts_comp(tokens, first.next) {
        return if is_op(tokens, at, Exact::Star) {
            Err(Stop::NoForm)
        } else {
            set_comp(alloc, tokens, first, from, depth, recorder)
        };
    }
    set_from(alloc, tokens, first, from, depth, recorder)
}

/// A set, after its first element.
#[cycle(reading)]
fn set_from<R: Recorder>(
    alloc: Global,
    tokens: &[Terminal],
    first: Read,
    from: usize,
    depth: Depth,
    recorder: &mut R,
) -> Result<Read, Stop>
    requires within { first.next ≤ length tokens.now }
    requires open { IsOpen depth }
    requires low { first.height ≤ depth.room }
    ensures answered { Answered tokens.now depth.room first.next
        (cap depth.room
        (reader.and_then (reader.others_of (inner_reads depth) (entries.Of Level.Elem)
        (entries.Single (tree_of first.expr.value)) (seen tokens.now first.next))
        (λ es r. reader.closed Exact.RBrace r (plain.Set (entries.singles es))))) result }
    ensures placed { (i : List terminals.Terminal) (ps : List Stretch)
        → Placed Level.Elem i (from + 1) (tree_of first.expr.value) (seen tokens.now first.next)
        first.next ps
        → IfOk result (λ r. (qs : List Stretch) ×
        Placed Level.Atom (terminals.Op Exact.LBrace ∷ i) from (tree_of r.expr.value)
        (seen tokens.now r.next) r.next (ps ++ qs) × Records R.after recorder.old qs recorder.new) }
{
    let items = others(alloc, tokens, Item::Elem, first, depth, recorder)?;
    if !is_op(tokens, items.next, Exact::RBrace) {
        return Err(Stop::NoForm);
    }
    let next = items.next + 1;
    recorder.node(from, next)?;
    make_set(alloc, items.exprs, items.height, next, depth.room)
}

/// A set comprehension, after its element.
#[cycle(reading)]
fn set_comp<R: Recorder>(
    alloc: Global,
    tokens: &[Terminal],
    first: Read,
    from: usize,
    depth: Depth,
    recorder: &mut R,
) -> Result<Read, Stop>
    requires within { first.next ≤ length tokens.now }
    requires open { IsOpen depth }
    ensures answered { Answered tokens.now depth.room first.next
        (cap depth.room
        (reader.comps_closed (inner_reads depth) Exact.RBrace (seen tokens.now first.next)
        (λ gs. plain.SetComp (tree_of first.expr.value) (plain.comprehensions gs)))) result }
    ensures placed { (i : List terminals.Terminal) (ps : List Stretch)
        → true ≡ precedence.starts_comp (seen tokens.now first.next)
        → Placed Level.Named i (from + 1) (tree_of first.expr.value) (seen tokens.now first.next)
        first.next ps
        → IfOk result (λ r. (qs : List Stretch) ×
        Placed Level.Atom (terminals.Op Exact.LBrace ∷ i) from (tree_of r.expr.value)
        (seen tokens.now r.next) r.next (ps ++ qs) × Records R.after recorder.old qs recorder.new) }
{
    let comps = comps(alloc, tokens, first.next, depth, recorder)?;
    if !is_op(tokens, comps.next, Exact::RBrace) {
        return Err(Stop::NoForm);
    }
    let next = comps.next + 1;
    recorder.node(from, next)?;
    make_set_comp(
        alloc,
        first.expr,
        comps.generators,
        first.height.max(comps.height),
        next,
        depth.room,
    )
}

/// A dictionary or its comprehension, from the colon after the first key on.
#[cycle(reading)]
fn keyed<R: Recorder>(
    alloc: Global,
    tokens: &[Terminal],
    key: Read,
    from: usize,
    depth: Depth,
    recorder: &mut R,
) -> Result<Read, Stop>
    requires within { key.next < length tokens.now }
    requires open { IsOpen depth }
    requires low { key.height ≤ depth.room }
    ensures answered { Answered tokens.now depth.room key.next
        (cap depth.room
        (reader.and_then (inner_reads depth Level.Expression (seen tokens.now (key.next + 1)))
        (λ v r. cond (precedence.starts_comp r)
        (reader.comps_closed (inner_reads depth) Exact.RBrace r
        (λ gs. plain.DictComp (tree_of key.expr.value) v (plain.comprehensions gs)))
        (reader.dict_from (inner_reads depth)
        (entries.Paired (tree_of key.expr.value) v) r)))) result }
    ensures placed { (i : List terminals.Terminal) (ps : List Stretch)
        → Placed Level.Expression i (from + 1) (tree_of key.expr.value) (seen tokens.now key.next)
        key.next ps
        → Stands (terminals.Op Exact.Colon) tokens.now key.next
        → IfOk result (λ r. (qs : List Stretch) ×
        Placed Level.Atom (terminals.Op Exact.LBrace ∷ i) from (tree_of r.expr.value)
        (seen tokens.now r.next) r.next (ps ++ qs) × Records R.after recorder.old qs recorder.new) }
{
    let kept = recorder.aside();
    let before = recorder.recorded();
    let value = read_expression(alloc, tokens, key.next + 1, depth.inner(), recorder)?;
    if starts_comp(tokens, value.next) {
        dict_comp(alloc, tokens, key, value, from, depth, recorder)
    } else {
        recorder.set_aside(before)?;
        dict_from(
            alloc,
            tokens,
            paired(key, value),
            from,
            kept,
            depth,
            recorder,
        )
    }
}

/// A dictionary's comprehension, after its value.
#[cycle(reading)]
fn dict_comp<R: Recorder>(
    alloc: Global,
    tokens: &[Terminal],
    key: Read,
    value: Read,
    from: usize,
    depth: Depth,
    recorder: &mut R,
) -> Result<Read, Stop>
    requires within { value.next ≤ length tokens.now }
    requires open { IsOpen depth }
    ensures answered { Answered tokens.now depth.room value.next
        (cap depth.room
        (reader.comps_closed (inner_reads depth) Exact.RBrace (seen tokens.now value.next)
        (λ gs. plain.DictComp (tree_of key.expr.value) (tree_of value.expr.value)
        (plain.comprehensions gs)))) result }
    ensures placed { (i : List terminals.Terminal) (ps vs : List Stretch)
        → true ≡ precedence.starts_comp (seen tokens.now value.next)
        → Placed Level.Expression i (from + 1) (tree_of key.expr.value) (seen tokens.now key.next)
        key.next ps
        → Stands (terminals.Op Exact.Colon) tokens.now key.next
        → Placed Level.Expression (seen tokens.now (key.next + 1)) (key.next + 1)
        (tree_of value.expr.value) (seen tokens.now value.next) value.next vs
        → IfOk result (λ r. (qs : List Stretch) ×
        Placed Level.Atom (terminals.Op Exact.LBrace ∷ i) from (tree_of r.expr.value)
        (seen tokens.now r.next) r.next (ps ++ (vs ++ qs)) ×
        Records R.after recorder.old qs recorder.new) }
{
    let comps = comps(alloc, tokens, value.next, depth, recorder)?;
    if !is_op(tokens, comps.next, Exact::RBrace) {
        return Err(Stop::NoForm);
    }
    let next = comps.next + 1;
    recorder.node(from, next)?;
    make_dict_comp(
        alloc,
        key.expr,
        value.expr,
        comps.generators,
        key.height.max(value.height.max(comps.height)),
        next,
        depth.room,
    )
}

/// A dictionary, after its first pair, whose value is set aside: the values come after all keys.
/// `kept` others were set aside before it.
#[cycle(reading)]
fn dict_from<R: Recorder>(
    alloc: Global,
    tokens: &[Terminal],
    first: Pair,
    from: usize,
    kept: usize,
    depth: Depth,
    recorder: &mut R,
) -> Result<Read, Stop>
    requires within { first.next ≤ length tokens.now }
    requires open { IsOpen depth }
    requires low { first.height ≤ depth.room }
    ensures answered { Answered tokens.now depth.room first.next
        (cap depth.room
        (reader.dict_from (inner_reads depth) (pair_of first)
        (seen tokens.now first.next))) result }
    ensures placed { (i : List terminals.Terminal) (w : R) (p : EntryPlaces)
        → PlacedPiece entries.Pair i (from + 1) (pair_of first) (seen tokens.now first.next)
        first.next p
        → kept ≡ R.aside_count w → Kept R.after R.beside w [] (places.values (p ∷ [])) recorder.old
        → IfOk result (λ r. (qs : List Stretch) ×
        Placed Level.Atom (terminals.Op Exact.LBrace ∷ i) from (tree_of r.expr.value)
        (seen tokens.now r.next) r.next (places.keys (p ∷ []) ++ qs) ×
        Records R.after w qs recorder.new) }
{
    let one = first_pairs(alloc, first)?;
    let pairs = more_pairs(alloc, tokens, one, depth, recorder)?;
    if !is_op(tokens, pairs.next, Exact::RBrace) {
        return Err(Stop::NoForm);
    }
    let next = pairs.next + 1;
    recorder.take_back(kept)?;
    recorder.node(from, next)?;
    make_dict(
        alloc,
        pairs.keys,
        pairs.values,
        pairs.height,
        next,
        depth.room,
    )
}

/// Some pairs, with those after a comma, if one stands there. Their values are set aside.
#[cycle(reading)]
fn more_pairs<R: Recorder>(
    alloc: Global,
    tokens: &[Terminal],
    pairs: Pairs,
    depth: Depth,
    recorder: &mut R,
) -> Result<Pairs, Stop>
    requires within { pairs.next ≤ length tokens.now }
    requires open { IsOpen depth }
    requires low { pairs.height ≤ depth.room }
    ensures answered { MatchResult result
        (λ r. PairsAt tokens.now depth.room pairs.next
        (more_pairs_at depth (pairs_of pairs) (seen tokens.now pairs.next)) r)
        (λ s. Failed s (more_pairs_at depth (pairs_of pairs) (seen tokens.now pairs.next))) }
    ensures placed { IfOk result (λ r. PairsPlaced R.after R.beside tokens.now pairs r recorder.old
        recorder.new) }
{
    let mut pairs = pairs;
    'more: loop {
        if !is_op(tokens, pairs.next, Exact::Comma) {
            return Ok(pairs);
        }
        let at = pairs.next + 1;
        if !starts_pair(tokens, at) {
            return Ok(Pairs {
                keys: pairs.keys,
                values: pairs.values,
                height: pairs.height,
                next: at,
            });
        }
        let pair = read_pair(alloc, tokens, at, depth, recorder)?;
        pairs = put_pair(pairs, pair)?;
    }
}

/// A pair, or `**` and a value. The value is set aside.
#[cycle(reading)]
fn read_pair<R: Recorder>(
    alloc: Global,
    tokens: &[Terminal],
    at: usize,
    depth: Depth,
    recorder: &mut R,
) -> Result<Pair, Stop>
    requires within { at ≤ length tokens.now }
    requires open { IsOpen depth }
    ensures answered { MatchResult result
        (λ r. PairAt tokens.now depth.room (at + 1)
        (reader.read_pair (inner_reads depth) (seen tokens.now at)) r)
        (λ s. Failed s (reader.read_pair (inner_reads depth) (seen tokens.now at))) }
    ensures placed { IfOk result (λ r. PairPlaced R.after R.beside tokens.now at r recorder.old
        recorder.new) }
{
    if is_op(tokens, at, Exact::DoubleStar) {
        let before = recorder.recorded();
        let value = climb(alloc, tokens, Level::BitOr, at + 1, depth.inner(), recorder)?;
        recorder.set_aside(before)?;
        return Ok(doubled(value));
    }
    let key = read_expression(alloc, tokens, at, depth.inner(), recorder)?;
    if !is_op(tokens, key.next, Exact::Colon) {
        return Err(Stop::NoForm);
    }
    let before = recorder.recorded();
    let value = read_expression(alloc, tokens, key.next + 1, depth.inner(), recorder)?;
    recorder.set_aside(before)?;
    Ok(paired(key, value))
}

/// A value after `**`.
fn doubled(value: Read) -> Pair
    ensures entry { pair_of result ≡ entries.Doubled (tree_of value.expr.value) }
    ensures next { result.next ≡ value.next }
    ensures height { result.height ≡ value.height }
{
    Pair {
        key: None,
        value: value.expr,
        height: value.height,
        next: value.next,
    }
}

/// A key and its value.
fn paired(key: Read, value: Read) -> Pair
    ensures entry { pair_of result ≡ entries.Paired (tree_of key.expr.value)
        (tree_of value.expr.value) }
    ensures next { result.next ≡ value.next }
    ensures height { result.height ≡ max key.height value.height }
{
    Pair {
        key: Some(key.expr),
        value: value.expr,
        height: key.height.max(value.height),
        next: value.next,
    }
}

/// Whether a pair begins at the place.
#[tactic(auto, using(crate::proofs::Lists::PairSteps::stars_start, crate::proofs::Lists::PairSteps::lead_starts))]
fn starts_pair(tokens: &[Terminal], at: usize) -> bool
    ensures is { result ≡ precedence.starts entries.Pair (seen tokens.now at) }
    ensures within { result ≡ true → at < length tokens.now }
{
    if is_op(tokens, at, Exact::DoubleStar) {
        true
    } else {
        lead_at(tokens, at) >= Level::Expression.rank()
    }
}

/// Some pairs and one more.
fn put_pair(pairs: Pairs, pair: Pair) -> Result<Pairs, Stop>
    ensures entries { MatchResult result (λ r. pairs_of r ≡ pairs_of pairs ++ (pair_of pair ∷ []))
        (λ s. s ≡ Stop.Memory) }
    ensures next { MatchResult result (λ r. r.next ≡ pair.next) (λ s. s ≡ Stop.Memory) }
    ensures height { MatchResult result (λ r. r.height ≡ max pairs.height pair.height)
        (λ s. s ≡ Stop.Memory) }
{
    let Pairs {
        keys,
        values,
        height,
        next: _,
    } = pairs;
    let mut keys = keys;
    let mut values = values;
    put_option(&mut keys, pair.key)?;
    put(&mut values, pair.value)?;
    Ok(Pairs {
        keys,
        values,
        height: height.max(pair.height),
        next: pair.next,
    })
}

/// A list of one pair.
fn first_pairs(alloc: Global, pair: Pair) -> Result<Pairs, Stop>
    ensures entries { MatchResult result (λ r. pairs_of r ≡ pair_of pair ∷ [])
        (λ s. s ≡ Stop.Memory) }
    ensures next { MatchResult result (λ r. r.next ≡ pair.next) (λ s. s ≡ Stop.Memory) }
    ensures height { MatchResult result (λ r. r.height ≡ pair.height) (λ s. s ≡ Stop.Memory) }
{
    let none = Pairs {
        keys: Vec::new(alloc),
        values: Vec::new(alloc),
        height: 0,
        next: pair.next,
    };
    put_pair(none, pair)
}

//! The keys of mappings, and the constants that are words.
//!
//! Python language reference, 8.6.4.9 "Mapping Patterns".

ghost use Rattle.std.specs.Prelude.{◌≡◌, ◌+◌, ◌-◌, ◌≤◌, ◌∷◌, IfOk, List, MatchResult, Some, length};
ghost use Rattle.std.specs.Str.{chars};
ghost use Rattle.unicode_normalization.specs.Forms.{nfkc};
ghost use Rattle.pytree_node.specs.TreeOf.{constant_of, tree_of};
ghost use Rattle.pytoken.specs.Terminals as terminals;
ghost use Rattle.pygrammar.specs.PatternOperators.{singleton_word};
ghost use Rattle.pygrammar.specs.PatternReader as reader;
ghost use Rattle.pygrammar.specs.Reader.{and_then};
ghost use Rattle.pyparse_nodes.specs.Answers.{Answered};
ghost use Rattle.pyparse_nodes.specs.Views.{seen};
ghost use Rattle.pyparse_reads.specs.Readings.{IsOpen};
ghost use Rattle.pyparse_pattern.specs.Inner.Readings.{field_reads};
ghost use Rattle.pyparse_pattern.specs.Inner.Values.{IsNoSingleton, keys};
ghost use Rattle.pyplaces.specs.PlacedPatterns.{PlacedKey};
ghost use Rattle.pyplaces.specs.Recording.{Records};
ghost use Rattle.pyplaces.specs.Stretches.{Stretch};

use crate::dotted::dotted;
use crate::literals::read_literal;
use pylex_listing::Exact;
use pyparse_nodes::{Read, Stop, is_op, make_constant, terminal_at};
use pyparse_reads::{Depth, ReadsExpressions};
use pyplaces::Recorder;
use pytoken::{Keyword, Terminal};
use pytree_node::Constant;
use std::alloc::Global;

/// The constant that a word is: `None`, `True` or `False`.
pub(crate) fn singleton(word: Keyword) -> Result<Constant, Stop>
    ensures { MatchResult result
        (λ v. singleton_word (terminals.Word word) ≡ Some (constant_of v))
        (λ s. IsNoSingleton s word) }
{
    match word {
        Keyword::None => Ok(Constant::None),
        Keyword::True => Ok(Constant::Bool(true)),
        Keyword::False => Ok(Constant::Bool(false)),
        _ => Err(Stop::NoForm),
    }
}

/// A name with a point after it at least, from after the name.
fn dotted_key<R: Recorder>(
    alloc: Global,
    tokens: &[Terminal],
    first: &str,
    from: usize,
    at: usize,
    room: usize,
    recorder: &mut R,
) -> Result<Read, Stop>
    requires { at ≤ length tokens.now }
    ensures answered { Answered tokens.now (room + 1) at
        (and_then (reader.dotted_from room (nfkc (chars first.now)) (seen tokens.now at))
        reader.named_key) result }
    ensures placed { at ≡ from + 1 → (x : terminals.Spelled) → x.form ≡ nfkc (chars first.now)
        → IfOk result (λ r. (ps : List Stretch) × PlacedKey
        (terminals.Ident x ∷ seen tokens.now at) from (tree_of r.expr.value)
        (seen tokens.now r.next) r.next ps × Records R.after recorder.old ps recorder.new) }
{
    if !is_op(tokens, at, Exact::Dot) {
        return Err(Stop::NoForm);
    }
    dotted(alloc, tokens, first, from, at, room, recorder)
}

/// The key at a place, one higher at most than it may be.
fn any_key<E: ReadsExpressions, R: Recorder>(
    alloc: Global,
    tokens: &[Terminal],
    at: usize,
    depth: Depth,
    recorder: &mut R,
) -> Result<Read, Stop>
    requires { IsOpen depth }
    ensures answered { Answered tokens.now depth.room (at + 1)
        (reader.cap_value depth.room (keys depth (seen tokens.now at))) result }
    ensures placed { IfOk result (λ r. (ps : List Stretch) ×
        PlacedKey (seen tokens.now at) at (tree_of r.expr.value)
        (seen tokens.now r.next) r.next ps × Records R.after recorder.old ps recorder.new) }
{
    match terminal_at(tokens, at) {
        Some(Terminal::Ident(first)) => {
            dotted_key(
                alloc,
                tokens,
                first,
                at,
                at + 1,
                depth.inner().room,
                recorder,
            )
        }
        Some(Terminal::Word(word)) => {
            let value = singleton(word)?;
            recorder.node(at, at + 1)?;
            make_constant(alloc, value, at + 1)
        }
        _ => read_literal::<E, R>(alloc, tokens, at, depth, recorder),
    }
}

/// The key at a place, up to the height of the parts.
pub(crate) fn read_key<E: ReadsExpressions, R: Recorder>(
    alloc: Global,
    tokens: &[Terminal],
    at: usize,
    depth: Depth,
    recorder: &mut R,
) -> Result<Read, Stop>
    requires { IsOpen depth }
    ensures answered { Answered tokens.now (depth.room - 1) (at + 1)
        (reader.read_key (depth.room - 1) (field_reads depth) (seen tokens.now at)) result }
    ensures placed { IfOk result (λ r. (ps : List Stretch) ×
        PlacedKey (seen tokens.now at) at (tree_of r.expr.value)
        (seen tokens.now r.next) r.next ps × Records R.after recorder.old ps recorder.new) }
{
    let key = any_key::<E, R>(alloc, tokens, at, depth, recorder)?;
    if key.height >= depth.room {
        return Err(Stop::TooDeep);
    }
    Ok(key)
}

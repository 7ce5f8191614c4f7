//! Patterns.

ghost use Rattle.std.specs.Prelude.{◌≡◌, ◌≤◌, ◌∷◌, [], IfOk, List, OnOk, if◌then◌else◌, map, true};
ghost use Rattle.std.specs.List.{list_all};
ghost use Rattle.pylex_lexeme.specs.declared.kinds.Exact.TheVariants.{Comma, VBar};
ghost use Rattle.pytree_node.specs.declared.profiles.Extent.{Extent};
ghost use Rattle.pytree_node.specs.TreeOf.{boxed_pattern_of, pattern_of, tree_of};
ghost use Rattle.pytree_node.specs.Trees as plain;
ghost use Rattle.pytree_node.specs.Trees.{optional_pattern, patterns};
ghost use Rattle.pytoken.specs.Terminals.{Op, Terminal};
ghost use Rattle.pytree_height.specs.Heights.{pattern_height};
ghost use Rattle.pygrammar.specs.FormattedStrings.{has_formatted};
ghost use Rattle.pygrammar.specs.PatternGrammar.{DerivesPattern};
ghost use Rattle.pygrammar.specs.declared.pattern_levels.PatternLevel.TheVariants as PatternLevel;
ghost use Rattle.pyunparse.specs.Inner.Members.{members};
ghost use Rattle.pyunparse.specs.Inner.PatternParts.{is_bare, key_pattern, named_pattern};
ghost use Rattle.pyunparse_text.specs.Folds.{puts};
ghost use Rattle.pyunparse_text.specs.Laws.{AreOfTokens, AreRead, Shortest, may_be_token};
ghost use Rattle.pyunparse_text.specs.Pieces.{outside, piece};
ghost use Rattle.pyunparse_text.specs.Terminals.{terminal};
ghost use Rattle.pyunparse_text.specs.Told.{in_bytes, told};
ghost use Rattle.pyunparse_text.specs.Written.{free, listed, trailing};
ghost use Rattle.pyunparse_text.specs.WrittenPatterns as written;
ghost use Rattle.pyunparse_text.specs.WrittenPatterns.{written_pattern};

use crate::constants::put_constant;
use crate::expressions::write_expr;
use crate::tuples::put_last;
use pygrammar::{Level, PatternLevel};
use pylex_listing::Exact;
use pytoken::Keyword;
use pytree_node::{Expr, Identifier, Pattern};
use pyunparse_text::levels::pattern_reaches;
use pyunparse_text::marks::{Between, Role};
use pyunparse_text::piece_writer::PieceWriter;
use pyunparse_text::pieces::Piece;
use pyunparse_text::tokens::{close, open, put_between, put_name, put_sign, put_text, put_word};
use pyunparse_text::writers::Writer;
use std::alloc::{AllocError, Global};

/// Writes a pattern at a level of the grammar.
#[cycle(patterns)]
#[tactic(auto, using(pytree_node::proofs::Callers::PatternShapes::pattern_shapes))]
pub(crate) fn write_pattern<W: Writer>(
    out: &mut W,
    level: PatternLevel,
    p: &Pattern,
) -> Result<(), AllocError>
    ensures { OnOk result
        (out.new ≡ puts W.after out.old (written_pattern piece level (pattern_of p.now))) }
{
    match p {
        Pattern::MatchValue { value } => write_expr(out, Level::Sum, value),
        Pattern::MatchSingleton { value } => put_constant(out, value),
        Pattern::MatchSequence { patterns } => write_sequence(out, level, patterns),
        Pattern::MatchMapping {
            keys,
            patterns,
            rest,
        } => write_mapping(out, level, keys, patterns, rest),
        Pattern::MatchClass {
            cls,
            patterns,
            kwd_attrs,
            kwd_patterns,
        } => write_class_pattern(out, level, cls, patterns, kwd_attrs, kwd_patterns),
        Pattern::MatchStar { name } => {
            put_sign(out, Exact::Star, Role::Leading)?;
            put_target(out, name)
        }
        Pattern::MatchAs { pattern, name } => write_as_pattern(out, level, pattern, name),
        Pattern::MatchOr { patterns } => write_or_pattern(out, level, patterns),
    }
}

/// Writes the name that a pattern binds, or `_` where it binds none.
fn put_target<W: Writer>(out: &mut W, name: &Option<Identifier>) -> Result<(), AllocError>
    ensures { OnOk result (out.new ≡ puts W.after out.old (written.target piece name.now ∷ [])) }
{
    match name {
        None => put_text(out, "_", false),
        Some(name) => put_name(out, name),
    }
}

/// Writes patterns with commas between.
#[cycle(patterns)]
fn write_patterns<W: Writer>(
    out: &mut W,
    level: PatternLevel,
    inner: &[Pattern],
) -> Result<(), AllocError>
    ensures { OnOk result
        (out.new ≡ puts W.after out.old
        (listed piece (written.each_pattern piece level (patterns (map pattern_of inner.now))))) }
{
    let mut first = true;
    for p in inner {
        put_between(out, first, Between::Comma)?;
        write_pattern(out, level, p)?;
        first = false;
    }
    Ok(())
}

/// Whether a sequence needs no brackets at a level.
fn is_bare(level: PatternLevel, inner: &[Pattern]) -> bool
    ensures { result ≡ is_bare level (patterns (map pattern_of inner.now)) }
{
    match level {
        PatternLevel::Patterns => !inner.is_empty(),
        _ => false,
    }
}

/// Writes a sequence: without brackets where its place asks for none, and there with a comma after
/// a pattern that stands alone.
#[cycle(patterns)]
fn write_sequence<W: Writer>(
    out: &mut W,
    level: PatternLevel,
    inner: &[Pattern],
) -> Result<(), AllocError>
    ensures { OnOk result
        (out.new ≡ puts W.after out.old
        (written_pattern piece level (plain.MatchSequence (patterns (map pattern_of inner.now))))) }
{
    if is_bare(level, inner) {
        write_patterns(out, PatternLevel::StarPattern, inner)?;
        let count = inner.len();
        return put_last(out, count == 1);
    }
    put_sign(out, Exact::LSqb, Role::Leading)?;
    write_patterns(out, PatternLevel::StarPattern, inner)?;
    put_sign(out, Exact::RSqb, Role::Trailing)
}

/// Writes a mapping.
#[cycle(patterns)]
fn write_mapping<W: Writer>(
    out: &mut W,
    level: PatternLevel,
    keys: &[Expr],
    inner: &[Pattern],
    rest: &Option<Identifier>,
) -> Result<(), AllocError>
    ensures { OnOk result
        (out.new ≡ puts W.after out.old
        (written_pattern piece level
        (plain.MatchMapping (map tree_of keys.now) (patterns (map pattern_of inner.now))
        rest.now))) }
{
    put_sign(out, Exact::LBrace, Role::Leading)?;
    write_key_patterns(out, keys, inner)?;
    put_rest(out, keys.is_empty() | inner.is_empty(), rest)?;
    put_sign(out, Exact::RBrace, Role::Trailing)
}

/// Writes keys with their patterns.
#[cycle(patterns)]
fn write_key_patterns<W: Writer>(
    out: &mut W,
    keys: &[Expr],
    inner: &[Pattern],
) -> Result<(), AllocError>
    ensures { OnOk result
        (out.new ≡ puts W.after out.old
        (listed piece
        (written.key_patterns piece (map tree_of keys.now)
        (patterns (map pattern_of inner.now))))) }
{
    let mut first = true;
    for i in 0..keys.len().min(inner.len()) {
        put_between(out, first, Between::Comma)?;
        write_key_pattern(out, &keys[i], &inner[i])?;
        first = false;
    }
    Ok(())
}

/// Writes a key and its pattern.
#[cycle(patterns)]
fn write_key_pattern<W: Writer>(out: &mut W, key: &Expr, p: &Pattern) -> Result<(), AllocError>
    ensures { OnOk result
        (out.new ≡ puts W.after out.old (key_pattern (tree_of key.now) (pattern_of p.now))) }
{
    write_expr(out, Level::Sum, key)?;
    put_sign(out, Exact::Colon, Role::Trailing)?;
    write_pattern(out, PatternLevel::AsPattern, p)
}

/// Writes the name that takes the rest of a mapping, if there is one.
fn put_rest<W: Writer>(
    out: &mut W,
    is_first: bool,
    rest: &Option<Identifier>,
) -> Result<(), AllocError>
    ensures { OnOk result
        (out.new ≡ puts W.after out.old
        (members is_first (trailing piece Comma) (written.rest_name piece rest.now))) }
{
    match rest {
        None => Ok(()),
        Some(name) => {
            put_between(out, is_first, Between::Comma)?;
            put_sign(out, Exact::DoubleStar, Role::Leading)?;
            put_name(out, name)
        }
    }
}

/// Writes the pattern of a class.
#[cycle(patterns)]
fn write_class_pattern<W: Writer>(
    out: &mut W,
    level: PatternLevel,
    class: &Expr,
    inner: &[Pattern],
    names: &[Identifier],
    named: &[Pattern],
) -> Result<(), AllocError>
    ensures { OnOk result
        (out.new ≡ puts W.after out.old
        (written_pattern piece level
        (plain.MatchClass (tree_of class.now) (patterns (map pattern_of inner.now)) names.now
        (patterns (map pattern_of named.now))))) }
{
    write_expr(out, Level::Primary, class)?;
    put_sign(out, Exact::LPar, Role::Tight)?;
    write_patterns(out, PatternLevel::AsPattern, inner)?;
    write_named_patterns(out, inner.is_empty(), names, named)?;
    put_sign(out, Exact::RPar, Role::Trailing)
}

/// Writes patterns by name, after others or not.
#[cycle(patterns)]
fn write_named_patterns<W: Writer>(
    out: &mut W,
    is_first: bool,
    names: &[Identifier],
    named: &[Pattern],
) -> Result<(), AllocError>
    ensures { OnOk result
        (out.new ≡ puts W.after out.old
        (members is_first (trailing piece Comma)
        (written.named_patterns piece names.now (patterns (map pattern_of named.now))))) }
{
    let mut first = is_first;
    for i in 0..names.len().min(named.len()) {
        put_between(out, first, Between::Comma)?;
        write_named_pattern(out, &names[i], &named[i])?;
        first = false;
    }
    Ok(())
}

/// Writes a pattern by name.
#[cycle(patterns)]
fn write_named_pattern<W: Writer>(
    out: &mut W,
    name: &Identifier,
    p: &Pattern,
) -> Result<(), AllocError>
    ensures { OnOk result
        (out.new ≡ puts W.after out.old (named_pattern name.now (pattern_of p.now))) }
{
    put_name(out, name)?;
    put_sign(out, Exact::Equal, Role::Tight)?;
    write_pattern(out, PatternLevel::AsPattern, p)
}

/// Writes a name, or a pattern with the name that it is given.
#[cycle(patterns)]
fn write_as_pattern<W: Writer>(
    out: &mut W,
    level: PatternLevel,
    p: &Option<Box<Pattern>>,
    name: &Option<Identifier>,
) -> Result<(), AllocError>
    ensures { OnOk result
        (out.new ≡ puts W.after out.old
        (written_pattern piece level
        (plain.MatchAs (optional_pattern (boxed_pattern_of p.now)) name.now))) }
{
    match p {
        None => put_target(out, name),
        Some(p) => {
            let bare = pattern_reaches(level, PatternLevel::AsPattern);
            open(out, bare)?;
            write_pattern(out, PatternLevel::OrPattern, p)?;
            put_word(out, Keyword::As)?;
            put_target(out, name)?;
            close(out, bare)
        }
    }
}

/// Writes the `|` before an alternative, unless it is the first one.
fn put_bar<W: Writer>(out: &mut W, first: bool) -> Result<(), AllocError>
    ensures { OnOk result
        (out.new ≡ puts W.after out.old (if first then [] else free piece (Op VBar) ∷ [])) }
{
    if first {
        return Ok(());
    }
    put_sign(out, Exact::VBar, Role::Free)
}

/// Writes alternatives with `|` between.
#[cycle(patterns)]
fn write_alternatives<W: Writer>(out: &mut W, inner: &[Pattern]) -> Result<(), AllocError>
    ensures { OnOk result
        (out.new ≡ puts W.after out.old
        (members true (free piece (Op VBar))
        (written.each_pattern piece PatternLevel.ClosedPattern
        (patterns (map pattern_of inner.now))))) }
{
    let mut first = true;
    for p in inner {
        put_bar(out, first)?;
        write_pattern(out, PatternLevel::ClosedPattern, p)?;
        first = false;
    }
    Ok(())
}

/// Writes a pattern of alternatives.
#[cycle(patterns)]
fn write_or_pattern<W: Writer>(
    out: &mut W,
    level: PatternLevel,
    inner: &[Pattern],
) -> Result<(), AllocError>
    ensures { OnOk result
        (out.new ≡ puts W.after out.old
        (written_pattern piece level (plain.MatchOr (patterns (map pattern_of inner.now))))) }
{
    let bare = pattern_reaches(level, PatternLevel::OrPattern);
    open(out, bare)?;
    write_alternatives(out, inner)?;
    close(out, bare)
}

/// The tokens that a pattern is written in at a level of the grammar.
///
/// Each has its type and its text. The only error is of memory.
pub fn pattern_tokens(
    alloc: Global,
    pattern: &Pattern,
    level: PatternLevel,
) -> Result<Vec<Piece>, AllocError>
    ensures tokens { IfOk result
        (λ tokens. map told tokens.items
        ≡ map in_bytes (outside (written_pattern piece level (pattern_of pattern.now)))) }
    ensures fewest { (ts : List Terminal) → list_all may_be_token ts ≡ true
        → DerivesPattern level ts (pattern_of pattern.now)
        → Shortest (DerivesPattern level) (written_pattern terminal level (pattern_of pattern.now))
        (pattern_of pattern.now) }
    ensures read { (extent : Extent) (ts : List Terminal) → AreOfTokens extent ts
        → DerivesPattern level ts (pattern_of pattern.now)
        → (has_formatted (written_pattern terminal level (pattern_of pattern.now)) ≡ true
        → pattern_height (pattern_of pattern.now) ≤ 500)
        → AreRead extent (outside (written_pattern piece level (pattern_of pattern.now)))
        (written_pattern terminal level (pattern_of pattern.now)) }
{
    let mut out = PieceWriter::new(alloc);
    write_pattern(&mut out, level, pattern)?;
    Ok(out.into_pieces())
}

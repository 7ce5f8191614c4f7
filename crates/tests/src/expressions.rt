//! Expressions and patterns at the levels of the grammar: what they are read as, the tokens that
//! they are written in, and whether they are well formed.

use crate::rows::{push, push_shown, source_of};
use crate::words::{level_of, pattern_level_of, style_of};
use pygrammar::{Level, PatternLevel};
use pyparse::{ParseFault, Token, parse_expression, parse_pattern, tokens_of};
use pysource::Source;
use pytree::{Expr, Extent, Pattern, dump_expr, well_formed_at, well_formed_pattern_at};
use pyunparse::{Piece, expression_tokens, pattern_tokens};
use std::alloc::Global;
use std::process::Abort;

/// The rows.
pub(crate) const ROWS: &str = "
? read Stars => a, b => Tuple([Name('a', Load()), Name('b', Load())], Load())
? read Expression => a, b => Grammar(Syntax, Place { row: 1, column: 0 })
? read Value => yield a => Yield(Name('a', Load()))
? read Stars => yield a => Grammar(Syntax, Place { row: 1, column: 0 })
? read StarItem => *a => Starred(Name('a', Load()), Load())
? read Named => *a => Grammar(Syntax, Place { row: 1, column: 0 })
? read Named => a := b => NamedExpr(Name('a', Store()), Name('b', Load()))
? read Expression => a := b => Grammar(Syntax, Place { row: 1, column: 0 })
? read Expression => a if b else c \
  => IfExp(Name('b', Load()), Name('a', Load()), Name('c', Load()))
? read Or => a if b else c => Grammar(Syntax, Place { row: 1, column: 0 })
? read Factor => -a => UnaryOp(USub(), Name('a', Load()))
? read Power => -a => Grammar(Syntax, Place { row: 1, column: 0 })
? read Primary => a.b => Attribute(Name('a', Load()), 'b', Load())
? read Atom => a.b => Grammar(Syntax, Place { row: 1, column: 0 })
? read Slices => *a, b:c \
  => Tuple([Starred(Name('a', Load()), Load()), Slice(Name('b', Load()), Name('c', Load()))], Load())
? read Slice => a:b => Slice(Name('a', Load()), Name('b', Load()))
? read Elem => a:b => Grammar(Syntax, Place { row: 1, column: 0 })
? read Atom => f'{x!r:>{w}}' \
  => JoinedStr([FormattedValue(Name('x', Load()), 114, JoinedStr([Constant('>'), FormattedValue(Name('w', Load()), -1)]))])
? read Value =>  => Grammar(Syntax, Place { row: 1, column: 0 })
? read Value => a = b => Grammar(Syntax, Place { row: 1, column: 0 })
? read Value => # a\n\nx y => Grammar(Syntax, Place { row: 3, column: 0 })
? write Stars => a, b => true true a , b
? write Expression => a, b => true true ( a , b )
? write Stars => (a := 1), (b := 2) => true true ( a := 1 , b := 2 )
? write Named => (x := 1) => true true x := 1
? write Value => (x := 1) => true true ( x := 1 )
? write Value => (yield x) => true true yield x
? write Stars => (yield x) => true true ( yield x )
? write Atom => f'{x}' => false true f'{x}'
? write Or => lambda: x => true true ( lambda : x )
? write Expression => a if b else c => true true a if b else c
? write Await => a ** b => true true ( a ** b )
? write Value => u'a' f'{(a)+b:{(c)}}' => false true u'a' f'{a + b:{c}}'
? write Value => not (a in b) => true true not a in b
? pattern Patterns => a, b => true a , b
? pattern StarPattern => a, b => Grammar(Syntax, Place { row: 1, column: 0 })
? pattern Patterns => *a => Grammar(Syntax, Place { row: 1, column: 0 })
? pattern StarPattern => *a => true * a
? pattern AsPattern => *a => Grammar(Syntax, Place { row: 1, column: 0 })
? pattern AsPattern => a as b => true a as b
? pattern OrPattern => a as b => Grammar(Syntax, Place { row: 1, column: 0 })
? pattern OrPattern => a | b => true a | b
? pattern ClosedPattern => a | b => Grammar(Syntax, Place { row: 1, column: 0 })
? pattern ClosedPattern => a => true a
? pattern Patterns => (a.B(-1, c={**d}) | (e)) as f \
  => true a . B ( - 1 , c = { ** d } ) | e as f
? pattern Patterns =>  => Grammar(Syntax, Place { row: 1, column: 0 })
? expression bare => f(a, b=1) \
  => Call(Name('f', Load()), [Name('a', Load())], [keyword('b', Constant(1))])
? expression names 2 => f(a, b=1) \
  => Call(\n  func=Name(id='f', ctx=Load()),\n  args=[\n    Name(id='a', ctx=Load())],\n  keywords=[\n    keyword(\n      arg='b',\n      value=Constant(value=1))])
? expression names 2 => lambda a, /, b=1, *c, d, e=2, **f: a \
  => Lambda(\n  args=arguments(\n    posonlyargs=[\n      arg(arg='a')],\n    args=[\n      arg(arg='b')],\n    vararg=arg(arg='c'),\n    kwonlyargs=[\n      arg(arg='d'),\n      arg(arg='e')],\n    kw_defaults=[\n      None,\n      Constant(value=2)],\n    kwarg=arg(arg='f'),\n    defaults=[\n      Constant(value=1)]),\n  body=Name(id='a', ctx=Load()))
? expression names 2 => f'' => JoinedStr(values=[])
? expression names 2 => u'a' f'{x}' \
  => JoinedStr(\n  values=[\n    Constant(value='a', kind='u'),\n    FormattedValue(\n      value=Name(id='x', ctx=Load()),\n      conversion=-1)])
? expression names 2 => f'{x!a}' \
  => JoinedStr(\n  values=[\n    FormattedValue(\n      value=Name(id='x', ctx=Load()),\n      conversion=97)])
? expression names 2 => f'{x:}' \
  => JoinedStr(\n  values=[\n    FormattedValue(\n      value=Name(id='x', ctx=Load()),\n      conversion=-1,\n      format_spec=JoinedStr(values=[]))])
? expression names 2 => f'{x!r:{x:5}}' \
  => JoinedStr(\n  values=[\n    FormattedValue(\n      value=Name(id='x', ctx=Load()),\n      conversion=114,\n      format_spec=JoinedStr(\n        values=[\n          FormattedValue(\n            value=Name(id='x', ctx=Load()),\n            conversion=-1,\n            format_spec=JoinedStr(\n              values=[\n                Constant(value='5')]))]))])";

/// The tokens of a line, without its NEWLINE and ENDMARKER.
fn tokens_of_line<'a>(rt: &impl Abort, alloc: Global, source: &'a Source) -> Vec<Token<'a>> {
    let mut tokens = tokens_of(alloc, source, Extent::Whole).expect(rt, "tokens");
    let _ = tokens.pop();
    let _ = tokens.pop();
    tokens
}

/// The expression of a level that a line is, or what the grammar says against it.
pub(crate) fn expression(
    rt: &impl Abort,
    alloc: Global,
    level: Level,
    text: &str,
) -> Result<Expr, ParseFault> {
    let source = source_of(rt, alloc, text);
    let tokens = tokens_of_line(rt, alloc, &source);
    parse_expression(alloc, tokens.as_slice(), level)
}

/// The dump of the expression of a level that a line is, in a style, or what the grammar says
/// against it.
pub(crate) fn read(
    rt: &impl Abort,
    alloc: Global,
    out: &mut String,
    level: &str,
    text: &str,
    style: &str,
) {
    match expression(rt, alloc, level_of(rt, alloc, level), text) {
        Ok(tree) => {
            let text = dump_expr(alloc, &tree, style_of(style)).expect(rt, "memory");
            drop(tree);
            push(rt, out, text.as_str());
        }
        Err(fault) => push_shown(rt, out, &fault),
    }
}

/// In which extents of the language an expression is well formed at a level.
pub(crate) fn extents(rt: &impl Abort, alloc: Global, out: &mut String, tree: &Expr, level: Level) {
    let plain = well_formed_at(alloc, tree, level, Extent::Plain).expect(rt, "memory");
    let whole = well_formed_at(alloc, tree, level, Extent::Whole).expect(rt, "memory");
    push_shown(rt, out, &plain);
    push_shown(rt, out, &whole);
}

/// Appends tokens, with a blank before each.
fn push_pieces(rt: &impl Abort, out: &mut String, pieces: &[Piece]) {
    for piece in pieces {
        push(rt, out, " ");
        push(rt, out, piece.text.as_str());
    }
}

/// In which extents of the language the expression that a line is is well formed at a level, and
/// the tokens that it is written in there.
pub(crate) fn write(rt: &impl Abort, alloc: Global, out: &mut String, level: &str, text: &str) {
    let tree = expression(rt, alloc, Level::Value, text).expect(rt, "a tree");
    let level = level_of(rt, alloc, level);
    extents(rt, alloc, out, &tree, level);
    let pieces = expression_tokens(alloc, &tree, level).expect(rt, "memory");
    drop(tree);
    push_pieces(rt, out, pieces.as_slice());
}

/// Whether a pattern is well formed at a level, and the tokens that it is written in there. It is
/// dropped.
fn push_pattern(
    rt: &impl Abort,
    alloc: Global,
    out: &mut String,
    tree: Pattern,
    level: PatternLevel,
) {
    let fits = well_formed_pattern_at(alloc, &tree, level).expect(rt, "memory");
    let pieces = pattern_tokens(alloc, &tree, level).expect(rt, "memory");
    drop(tree);
    push_shown(rt, out, &fits);
    push_pieces(rt, out, pieces.as_slice());
}

/// The same of the pattern of a level that a line is, or what the grammar says against it.
pub(crate) fn pattern(rt: &impl Abort, alloc: Global, out: &mut String, level: &str, text: &str) {
    let source = source_of(rt, alloc, text);
    let tokens = tokens_of_line(rt, alloc, &source);
    let level = pattern_level_of(rt, alloc, level);
    match parse_pattern(alloc, tokens.as_slice(), level) {
        Ok(tree) => push_pattern(rt, alloc, out, tree, level),
        Err(fault) => push_shown(rt, out, &fault),
    }
}

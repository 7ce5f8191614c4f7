//! Modules: what they are dumped and written as, how high they are, whether two are the same, and
//! in which versions of Python they are well formed.

use crate::rows::{number, parts, push, push_shown, source_of};
use crate::words::style_of;
use pyparse::{parse, parse_placed};
use pytree::{
    Extent, Module, Pieces, PlacedPieces, Profile, Shown, Version, copy, dump, dump_placed, height,
    marked, same, well_formed,
};
use pytree_dump::{ListedPlaces, PlaceSource};
use pyunparse::unparse;
use std::alloc::Global;
use std::process::Abort;

/// The rows.
pub(crate) const ROWS: &str = "
? dump names =>  => Module(body=[], type_ignores=[])
? dump names 0 => pass; break; pass \
  => Module(\nbody=[\nPass(),\nBreak(),\nPass()],\ntype_ignores=[])
? dump bare 3.12 => x: int \
  => Module([AnnAssign(Name('x', Store()), Name('int', Load()), simple=1)], [])
? dump names 3.12 => def f(): pass \
  => Module(body=[FunctionDef(name='f', args=arguments(posonlyargs=[], args=[], kwonlyargs=[], kw_defaults=[], defaults=[]), body=[Pass()], decorator_list=[], type_params=[])], type_ignores=[])
? refused => type x = y => Some(Grammar(Syntax, Place { row: 1, column: 0 }))
? refused => if x:\ny => Some(Grammar(ExpectedIndent, Place { row: 2, column: 0 }))
? refused => match x:\n case y: pass \
  => Some(Grammar(MatchStatement, Place { row: 1, column: 0 }))
? unparse =>  => true
? unparse => x = (a := 1), b => x = (a := 1, b)\n true
? unparse => type X[T: int, *Ts, **P] = list[T] => type X[T: int, *Ts, **P] = list[T]\n true
? unparse => try: a\nexcept* (b) as c: d\nelse: e\nfinally: f\n \
  => try:\n    a\nexcept *b as c:\n    d\nelse:\n    e\nfinally:\n    f\n true
? unparse => match (x):\n case {'a': [b, *_]} if 1.5: f'{c}'\n \
  => match x:\n    case {'a': [b, *_]} if 1.5:\n        f'{c}'\n true
? heights =>  => Heights { expression: 0, statement: 0 } [true, true] 0
? heights => pass => Heights { expression: 0, statement: 1 } [true, true] 1
? heights => if x: pass => Heights { expression: 1, statement: 2 } [true, true] 3
? heights => if x: pass\nelif not y: pass\n \
  => Heights { expression: 2, statement: 3 } [true, true] 7
? heights => f(a=not not x) => Heights { expression: 4, statement: 1 } [true, true] 7
? heights => class C[T: not x]: pass => Heights { expression: 2, statement: 2 } [false, true] 5
? heights => f'' => Heights { expression: 1, statement: 1 } [false, false] 2
? heights => f'a' => Heights { expression: 2, statement: 1 } [false, false] 3
? heights => f'{x}' => Heights { expression: 3, statement: 1 } [false, false] 4
? heights => f'a{x}b' => Heights { expression: 3, statement: 1 } [false, false] 6
? heights => f'{x:}' => Heights { expression: 3, statement: 1 } [false, false] 5
? heights => f'{x:5}' => Heights { expression: 4, statement: 1 } [false, false] 6
? heights => f'{x!r:{x:5}}' => Heights { expression: 6, statement: 1 } [false, false] 9
? heights => f'{x:{x:5}}' => Heights { expression: 6, statement: 1 } [false, false] 9
? heights => f'{f\"{x}\"}' => Heights { expression: 5, statement: 1 } [false, false] 6
? heights => type b = a => Heights { expression: 1, statement: 1 } [false, true] 3
? heights => b = a => Heights { expression: 1, statement: 1 } [true, true] 3
? heights => x = 1.5 => Heights { expression: 1, statement: 1 } [false, false] 3
? same => x[not y]: z = 'a'|x[not y]: z = u'a' => true [false, false]
? same => x[not y]: z = u'a'|x[not y]: z = 'a' => true [false, false]
? same => pass; break|pass; break => true [true, true]
? same => pass; break|pass; continue => true [false, false]
? same => pass; break|pass => true [false, false]
? same => pass|pass; break => true [false, false]
? same => pass; global x|pass; nonlocal x => true [false, false]
? same => f''|f'{x}' => true [false, false]
? same => f'a'|f'b' => true [false, false]
? same => f'a'|u'a' f'' => true [false, false]
? same => f'{x}'|f'{x}{x}' => true [false, false]
? same => f'{x}'|f'{y}' => true [false, false]
? same => f'{x}'|f'{x!s}' => true [false, false]
? same => f'{x}'|f'{x:}' => true [false, false]
? same => f'{x:}'|f'{x:5}' => true [false, false]
? same => 1e16|1e22 => true [false, false]
? same => 1e16|1e16j => true [false, false]
? same => 1e16|10000000000000000000000000000000000000000 => true [false, false]
? placed names; 1 0 1 1, 1 2 1 3, 1 0 1 4, 1 0 1 4 => f(a)\n \
  => Module(body=[Expr(value=Call(func=Name(id='f', ctx=Load(), lineno=1, col_offset=0, end_lineno=1, end_col_offset=1), args=[Name(id='a', ctx=Load(), lineno=1, col_offset=2, end_lineno=1, end_col_offset=3)], keywords=[], lineno=1, col_offset=0, end_lineno=1, end_col_offset=4), lineno=1, col_offset=0, end_lineno=1, end_col_offset=4)], type_ignores=[]) true
? placed names; 1 0 1 1, 1 2 1 3 => f(a)\n \
  => Module(body=[Expr(value=Call(func=Name(id='f', ctx=Load(), lineno=1, col_offset=0, end_lineno=1, end_col_offset=1), args=[Name(id='a', ctx=Load(), lineno=1, col_offset=2, end_lineno=1, end_col_offset=3)], keywords=[]))], type_ignores=[]) true
? placed names 2; 1 0 1 1 => f(a)\n \
  => Module(\n  body=[\n    Expr(\n      value=Call(\n        func=Name(\n          id='f',\n          ctx=Load(),\n          lineno=1,\n          col_offset=0,\n          end_lineno=1,\n          end_col_offset=1),\n        args=[\n          Name(id='a', ctx=Load())],\n        keywords=[]))],\n  type_ignores=[]) true
? placed names 2; 1 0 1 1, 1 3 1 6, 1 14 1 19 => x: int = not (yield)\n \
  => Module(\n  body=[\n    AnnAssign(\n      target=Name(\n        id='x',\n        ctx=Store(),\n        lineno=1,\n        col_offset=0,\n        end_lineno=1,\n        end_col_offset=1),\n      annotation=Name(\n        id='int',\n        ctx=Load(),\n        lineno=1,\n        col_offset=3,\n        end_lineno=1,\n        end_col_offset=6),\n      value=UnaryOp(\n        op=Not(),\n        operand=Yield(\n          lineno=1,\n          col_offset=14,\n          end_lineno=1,\n          end_col_offset=19)),\n      simple=1)],\n  type_ignores=[]) true
? placed names 2; 1 0 1 1, 1 3 1 6 => x: int = not (yield)\n \
  => Module(\n  body=[\n    AnnAssign(\n      target=Name(\n        id='x',\n        ctx=Store(),\n        lineno=1,\n        col_offset=0,\n        end_lineno=1,\n        end_col_offset=1),\n      annotation=Name(\n        id='int',\n        ctx=Load(),\n        lineno=1,\n        col_offset=3,\n        end_lineno=1,\n        end_col_offset=6),\n      value=UnaryOp(op=Not(), operand=Yield()),\n      simple=1)],\n  type_ignores=[]) true
? placed names 2;  => with (yield): x = u'a'\n \
  => Module(\n  body=[\n    With(\n      items=[\n        withitem(context_expr=Yield())],\n      body=[\n        Assign(\n          targets=[\n            Name(id='x', ctx=Store())],\n          value=Constant(value='a', kind='u'))])],\n  type_ignores=[]) true
? placed names 2; 1 6 1 7, 2 7 2 8 => match x:\n  case A(c, d=_): pass\n \
  => Module(\n  body=[\n    Match(\n      subject=Name(\n        id='x',\n        ctx=Load(),\n        lineno=1,\n        col_offset=6,\n        end_lineno=1,\n        end_col_offset=7),\n      cases=[\n        match_case(\n          pattern=MatchClass(\n            cls=Name(\n              id='A',\n              ctx=Load(),\n              lineno=2,\n              col_offset=7,\n              end_lineno=2,\n              end_col_offset=8),\n            patterns=[\n              MatchAs(name='c')],\n            kwd_attrs=[\n              'd'],\n            kwd_patterns=[\n              MatchAs()]),\n          body=[\n            Pass()])])],\n  type_ignores=[]) true
? spans => f(a)\n \
  => Span { from: 0, to: 1 } Shown { line: 1, byte: 0, end_line: 1, end_byte: 1 } Span { from: 2, to: 3 } Shown { line: 1, byte: 2, end_line: 1, end_byte: 3 } Span { from: 0, to: 4 } Shown { line: 1, byte: 0, end_line: 1, end_byte: 4 } Span { from: 0, to: 4 } Shown { line: 1, byte: 0, end_line: 1, end_byte: 4 }";

/// The whole language of Python 3.12.
const WHOLE: Profile = Profile {
    version: Version::Py312,
    extent: Extent::Whole,
};

/// The module that a text is in the whole language of Python 3.12.
pub(crate) fn module(rt: &impl Abort, alloc: Global, text: &str) -> Module {
    let source = source_of(rt, alloc, text);
    parse(alloc, &source, WHOLE).expect(rt, "a module")
}

/// The dump of a module in a style, which is that of its pieces.
pub(crate) fn dumped(rt: &impl Abort, alloc: Global, out: &mut String, style: &str, text: &str) {
    let tree = module(rt, alloc, text);
    let mut pieces = Pieces::new(alloc, &tree, style_of(style)).expect(rt, "memory");
    for _ in 0..100u64 {
        if !pieces.push_next(out).expect(rt, "memory") {
            break;
        }
    }
    let whole = dump(alloc, &tree, style_of(style)).expect(rt, "memory");
    assert!(rt; whole.as_str() == out.as_str());
}

/// What is said against a source of the plain language of Python 3.11.
pub(crate) fn refused(rt: &impl Abort, alloc: Global, out: &mut String, text: &str) {
    let source = source_of(rt, alloc, text);
    push_shown(rt, out, &parse(alloc, &source, Profile::PLAIN_311).err());
}

/// What is written of a module, and whether that is read as the same module.
pub(crate) fn written(rt: &impl Abort, alloc: Global, out: &mut String, text: &str) {
    let tree = module(rt, alloc, text);
    let written = unparse(alloc, &tree).expect(rt, "memory");
    push(rt, out, written.as_str());
    let again = module(rt, alloc, written.as_str());
    push_shown(rt, out, &same(&tree, &again));
}

/// The heights of a module, in which versions it is well formed in the plain language, and how many
/// nodes have a place.
pub(crate) fn measured(rt: &impl Abort, alloc: Global, out: &mut String, text: &str) {
    let tree = module(rt, alloc, text);
    push_shown(rt, out, &height(&tree));
    let old = well_formed(alloc, &tree, Profile::PLAIN_311).expect(rt, "memory");
    let new = well_formed(alloc, &tree, Profile::PLAIN_312).expect(rt, "memory");
    push_shown(rt, out, &[old, new]);
    push_shown(rt, out, &marked(&tree, WHOLE));
}

/// Whether the modules of two texts, with `|` between them, are the same. One of them is a copy,
/// which stands by itself once the tree that it was made of is dropped.
pub(crate) fn compared(rt: &impl Abort, alloc: Global, out: &mut String, text: &str) {
    let (text, other) = parts(rt, text, "|");
    let tree = module(rt, alloc, text);
    let made = copy(alloc, &tree).expect(rt, "memory");
    push_shown(rt, out, &same(&tree, &made));
    drop(tree);
    let others = module(rt, alloc, other);
    push_shown(rt, out, &[same(&made, &others), same(&others, &made)]);
}

/// The place that four numbers tell.
fn place_of(rt: &impl Abort, told: &str) -> Shown {
    let (line, rest) = parts(rt, told, " ");
    let (byte, rest) = parts(rt, rest, " ");
    let (end_line, end_byte) = parts(rt, rest, " ");
    Shown {
        line: number(rt, line),
        byte: number(rt, byte),
        end_line: number(rt, end_line),
        end_byte: number(rt, end_byte),
    }
}

/// The places of four numbers each that are told.
fn places_of(rt: &impl Abort, alloc: Global, told: &str) -> Vec<Shown> {
    let mut places = Vec::new(alloc);
    for words in told.split_terminator(", ") {
        places.push(place_of(rt, words)).expect(rt, "memory");
    }
    places
}

/// The dump of a module with these places of its first nodes, which is that of its pieces; and
/// whether all of them are taken.
pub(crate) fn placed(rt: &impl Abort, alloc: Global, out: &mut String, words: &str, text: &str) {
    let (style, told) = parts(rt, words, "; ");
    let tree = module(rt, alloc, text);
    let places = places_of(rt, alloc, told);
    let mut left = ListedPlaces {
        left: places.as_slice(),
    };
    let whole = dump_placed(alloc, &tree, style_of(style), &mut left).expect(rt, "memory");
    let listed = ListedPlaces {
        left: places.as_slice(),
    };
    let mut pieces = PlacedPieces::new(alloc, &tree, style_of(style), listed).expect(rt, "memory");
    for _ in 0..100u64 {
        if !pieces.push_next(out).expect(rt, "memory") {
            break;
        }
    }
    assert!(rt; whole.as_str() == out.as_str());
    push_shown(rt, out, &left.is_done());
}

/// The spans of a module's nodes, and where they are shown.
pub(crate) fn spans(rt: &impl Abort, alloc: Global, out: &mut String, text: &str) {
    let source = source_of(rt, alloc, text);
    let placed = parse_placed(alloc, &source, WHOLE).expect(rt, "a module");
    let places = placed.places();
    for i in 0..places.len() {
        push_shown(rt, out, &places.span(i));
        push_shown(rt, out, &places.shown(i));
    }
}

//! What tokens are to the grammar and stand for, and the tokens and logical lines of sources: the
//! calls of `pytoken` and `pyparse_tokens`.

use crate::rows::{parts, push, push_shown, source_of};
use crate::words::{extent_of, kind_of, style_of};
use pylex::Kind;
use pyparse::{
    Literal, LiteralText, LogicalLines, NumberText, Terminal, identifier_value, name_fault,
    name_value, number_value, push_terminals, string_fault, string_value, terminal_of, token_fault,
    tokens_of,
};
use pyparse_tokens::Marks;
use pysource::{push_repr_points, repr_bytes, repr_text};
use pytree::{Constant, Expr, Extent, dump_expr, is_identifier, is_keyword, is_name};
use std::alloc::Global;
use std::process::Abort;

/// The rows.
pub(crate) const ROWS: &str = "
? terminal Plain Name => if => Ok(Word(If)) None
? terminal Whole Name => if => Ok(Word(If)) None
? terminal Plain Name => match => Ok(Ident(\"match\")) None
? terminal Whole Name => match => Ok(Ident(\"match\")) None
? terminal Plain Name => é_1 => Ok(Ident(\"é_1\")) None
? terminal Whole Name => é_1 => Ok(Ident(\"é_1\")) None
? terminal Plain Number => 31 => Ok(Whole(31)) None
? terminal Whole Number => 31 => Ok(Whole(31)) None
? terminal Plain Number => 0x_1f => Ok(Number(NumberText { text: \"0x_1f\" })) None
? terminal Whole Number => 0x_1f => Ok(Number(NumberText { text: \"0x_1f\" })) None
? terminal Plain Op => **= => Ok(Op(DoubleStarEqual)) None
? terminal Whole Op => **= => Ok(Op(DoubleStarEqual)) None
? terminal Plain Newline => \n => Ok(Layout) None
? terminal Whole Newline => \n => Ok(Layout) None
? terminal Plain Comment => # c => Ok(Layout) None
? terminal Whole Comment => # c => Ok(Layout) None
? terminal Whole Number => 1.5 => Ok(Number(NumberText { text: \"1.5\" })) None
? terminal Whole Number => 1j => Ok(Number(NumberText { text: \"1j\" })) None
? terminal Whole Number => 340282366920938463463374607431768211456 \
  => Ok(Number(NumberText { text: \"340282366920938463463374607431768211456\" })) None
? terminal Plain Name => ｉｆ => Err(Token(NameForm)) Some(NameForm)
? terminal Plain Number => 1j => Err(Token(Complex)) Some(Complex)
? terminal Plain String => f'' => Err(Token(FString)) Some(FString)
? terminal Plain String => '\\x4' => Err(Token(BadEscape)) Some(BadEscape)
? terminal Plain Comment => # \0 => Err(Token(Nul)) Some(Nul)
? terminals => f'' => Ok(()) None FormattedBegin '' FormattedEnd
? terminals => f'a' => Ok(()) None FormattedBegin 'a' FormattedEnd
? terminals => f'{a}' \
  => Ok(()) None FormattedBegin '' FieldBegin(None) Op(LPar) Ident(\"a\") Op(RPar) FieldEnd '' FormattedEnd
? terminals => f'a{{\\n}}' => Ok(()) None FormattedBegin 'a{\\n}' FormattedEnd
? terminals => rf'a\\n' => Ok(()) None FormattedBegin 'a\\\\n' FormattedEnd
? terminals => f'a{b}c' \
  => Ok(()) None FormattedBegin 'a' FieldBegin(None) Op(LPar) Ident(\"b\") Op(RPar) FieldEnd 'c' FormattedEnd
? terminals => f'{a!r}{b!s}{c!a}' \
  => Ok(()) None FormattedBegin '' FieldBegin(Repr) Op(LPar) Ident(\"a\") Op(RPar) FieldEnd '' FieldBegin(Str) Op(LPar) Ident(\"b\") Op(RPar) FieldEnd '' FieldBegin(Ascii) Op(LPar) Ident(\"c\") Op(RPar) FieldEnd '' FormattedEnd
? terminals => f'{a:}' \
  => Ok(()) None FormattedBegin '' FieldBegin(None) Op(LPar) Ident(\"a\") Op(RPar) SpecBegin '' FieldEnd '' FormattedEnd
? terminals => f'{a:b{c!r:d}\\x7b}e' \
  => Ok(()) None FormattedBegin '' FieldBegin(None) Op(LPar) Ident(\"a\") Op(RPar) SpecBegin 'b' FieldBegin(Repr) Op(LPar) Ident(\"c\") Op(RPar) SpecBegin 'd' FieldEnd '{' FieldEnd 'e' FormattedEnd
? terminals => f'{ a = }' \
  => Ok(()) None FormattedBegin '' ' a = ' FieldBegin(Repr) Op(LPar) Ident(\"a\") Op(RPar) FieldEnd '' FormattedEnd
? terminals => f'{a=:b}' \
  => Ok(()) None FormattedBegin '' 'a=' FieldBegin(None) Op(LPar) Ident(\"a\") Op(RPar) SpecBegin 'b' FieldEnd '' FormattedEnd
? terminals => f'{(a)}' \
  => Ok(()) None FormattedBegin '' FieldBegin(None) Op(LPar) Op(LPar) Ident(\"a\") Op(RPar) Op(RPar) FieldEnd '' FormattedEnd
? terminals => f'{f\"a{b}\"}' \
  => Ok(()) None FormattedBegin '' FieldBegin(None) Op(LPar) FormattedBegin 'a' FieldBegin(None) Op(LPar) Ident(\"b\") Op(RPar) FieldEnd '' FormattedEnd Op(RPar) FieldEnd '' FormattedEnd
? terminals => f'{a+1}' \
  => Ok(()) None FormattedBegin '' FieldBegin(None) Op(LPar) Ident(\"a\") Op(Plus) Whole(1) Op(RPar) FieldEnd '' FormattedEnd
? terminals => f'}' => Err(Token(FString)) Some(FString)
? terminals => f'\\x4' => Err(Token(BadEscape)) Some(BadEscape)
? terminals => f'a{b!r:{c}}' \
  => Ok(()) None FormattedBegin 'a' FieldBegin(Repr) Op(LPar) Ident(\"b\") Op(RPar) SpecBegin '' FieldBegin(None) Op(LPar) Ident(\"c\") Op(RPar) FieldEnd '' FieldEnd '' FormattedEnd
? terminals => f'{a b}' \
  => Ok(()) None FormattedBegin '' FieldBegin(None) Op(LPar) Ident(\"a\") Ident(\"b\") Op(RPar) FieldEnd '' FormattedEnd
? terminals => f'{f\"}\"}' => Err(Token(FString)) Some(FString)
? terminals => f'\\N{DASH}\\x4' => Err(Token(NamedEscape)) Some(NamedEscape)
? terminals => f'{x:\\x4}' => Err(Token(BadEscape)) Some(BadEscape)
? terminals => f'{x}\0' => Err(Token(Nul)) Some(Nul)
? number Plain => 0x_1f \
  => Ok(NumberText { text: \"0x_1f\" }) Constant(31) \"0x_1f\" Constant(31)
? number Plain => 1.5 => Err(Token(Float)) Token(Float)
? number Whole => 1.5 => Ok(NumberText { text: \"1.5\" }) Constant(1.5) \"1.5\" Constant(1.5)
? number Plain => 1j => Err(Token(Complex)) Token(Complex)
? number Whole => 1e400j \
  => Ok(NumberText { text: \"1e400j\" }) Constant(infj) \"1e400j\" Constant(infj)
? number Plain => 340282366920938463463374607431768211456 \
  => Err(Token(IntegerTooLarge)) Token(IntegerTooLarge)
? number Whole => 340282366920938463463374607431768211456 \
  => Ok(NumberText { text: \"340282366920938463463374607431768211456\" }) Constant(340282366920938463463374607431768211456) \"340282366920938463463374607431768211456\" Constant(340282366920938463463374607431768211456)
? literal => '\\ud800\\U0010ffff' \
  => None false \"'\\\\ud800\\\\U0010ffff'\" '\\ud800\\U0010ffff' false '\\ud800\\U0010ffff' false
? literal => u'a' => None false \"u'a'\" 'a' true 'a' true
? literal => Rb'\\x' => None true \"Rb'\\\\x'\" b'\\\\x' b'\\\\x'
? literal => '\\x4' => Some(BadEscape) BadEscape
? literal => b'é' => Some(NonAsciiBytes) NonAsciiBytes
? literal => f'' => Some(FString) FString
? literal => '\\x41' => None false \"'\\\\x41'\" 'A' false 'A' false
? literal => '\\x4\\N{a}' => Some(NamedEscape) NamedEscape
? name => False => [true, true, false] \"False\" \"False\" true None
? name => await => [true, true, false] \"await\" \"await\" true None
? name => else => [true, true, false] \"else\" \"else\" true None
? name => import => [true, true, false] \"import\" \"import\" true None
? name => pass => [true, true, false] \"pass\" \"pass\" true None
? name => None => [true, true, false] \"None\" \"None\" true None
? name => break => [true, true, false] \"break\" \"break\" true None
? name => except => [true, true, false] \"except\" \"except\" true None
? name => in => [true, true, false] \"in\" \"in\" true None
? name => raise => [true, true, false] \"raise\" \"raise\" true None
? name => True => [true, true, false] \"True\" \"True\" true None
? name => class => [true, true, false] \"class\" \"class\" true None
? name => finally => [true, true, false] \"finally\" \"finally\" true None
? name => is => [true, true, false] \"is\" \"is\" true None
? name => return => [true, true, false] \"return\" \"return\" true None
? name => and => [true, true, false] \"and\" \"and\" true None
? name => continue => [true, true, false] \"continue\" \"continue\" true None
? name => for => [true, true, false] \"for\" \"for\" true None
? name => lambda => [true, true, false] \"lambda\" \"lambda\" true None
? name => try => [true, true, false] \"try\" \"try\" true None
? name => as => [true, true, false] \"as\" \"as\" true None
? name => def => [true, true, false] \"def\" \"def\" true None
? name => from => [true, true, false] \"from\" \"from\" true None
? name => nonlocal => [true, true, false] \"nonlocal\" \"nonlocal\" true None
? name => while => [true, true, false] \"while\" \"while\" true None
? name => assert => [true, true, false] \"assert\" \"assert\" true None
? name => del => [true, true, false] \"del\" \"del\" true None
? name => global => [true, true, false] \"global\" \"global\" true None
? name => not => [true, true, false] \"not\" \"not\" true None
? name => with => [true, true, false] \"with\" \"with\" true None
? name => async => [true, true, false] \"async\" \"async\" true None
? name => elif => [true, true, false] \"elif\" \"elif\" true None
? name => if => [true, true, false] \"if\" \"if\" true None
? name => or => [true, true, false] \"or\" \"or\" true None
? name => yield => [true, true, false] \"yield\" \"yield\" true None
? name =>  => [false, false, false] \"\" \"\" true None
? name => Match => [false, true, true] \"Match\" \"Match\" true None
? name => none => [false, true, true] \"none\" \"none\" true None
? name => NONE => [false, true, true] \"NONE\" \"NONE\" true None
? name => true => [false, true, true] \"true\" \"true\" true None
? name => IF => [false, true, true] \"IF\" \"IF\" true None
? name => match => [false, true, true] \"match\" \"match\" true None
? name => case => [false, true, true] \"case\" \"case\" true None
? name => type => [false, true, true] \"type\" \"type\" true None
? name => _ => [false, true, true] \"_\" \"_\" true None
? name => print => [false, true, true] \"print\" \"print\" true None
? name => exec => [false, true, true] \"exec\" \"exec\" true None
? name => i => [false, true, true] \"i\" \"i\" true None
? name => cont => [false, true, true] \"cont\" \"cont\" true None
? name => iff => [false, true, true] \"iff\" \"iff\" true None
? name => nonlocals => [false, true, true] \"nonlocals\" \"nonlocals\" true None
? name => if  => [false, false, false] \"if \" \"if \" true None
? name =>  if => [false, false, false] \" if\" \" if\" true None
? name => elseif => [false, true, true] \"elseif\" \"elseif\" true None
? name => ﬁnally => [false, true, false] \"finally\" \"finally\" true Some(NameForm)
? name => x1 => [false, true, true] \"x1\" \"x1\" true None
? name => __init__ => [false, true, true] \"__init__\" \"__init__\" true None
? name => é => [false, true, true] \"é\" \"é\" true None
? name => ﬁ => [false, true, false] \"fi\" \"fi\" true None
? name => 变量 => [false, true, true] \"变量\" \"变量\" true None
? name => x· => [false, true, true] \"x·\" \"x·\" true None
? name => 1x => [false, false, false] \"1x\" \"1x\" true None
? name => a b => [false, false, false] \"a b\" \"a b\" true None
? name => a-b => [false, false, false] \"a-b\" \"a-b\" true None
? name => a.b => [false, false, false] \"a.b\" \"a.b\" true None
? name => a  => [false, false, false] \"a \" \"a \" true None
? name => ² => [false, false, false] \"2\" \"2\" true Some(NameForm)
? name => x² => [false, false, false] \"x2\" \"x2\" true None
? name => ·x => [false, false, false] \"·x\" \"·x\" true None
? name => $x => [false, false, false] \"$x\" \"$x\" true None
? name => fi => [false, true, true] \"fi\" \"fi\" true None
? name => ª => [false, true, false] \"a\" \"a\" true None
? name => e\u{301} => [false, true, false] \"é\" \"é\" true None
? name => plain => [false, true, true] \"plain\" \"plain\" true None
? name => ｉｆ => [false, true, false] \"if\" \"if\" true Some(NameForm)
? name => x => [false, true, true] \"x\" \"x\" true None
? name => été => [false, true, true] \"été\" \"été\" true None
? name => fourteen_bytes => [false, true, true] \"fourteen_bytes\" \"fourteen_bytes\" true None
? name => fifteen_bytes_x \
  => [false, true, true] \"fifteen_bytes_x\" \"fifteen_bytes_x\" true None
? name => a_name_of_thirty_bytes_exactly \
  => [false, true, true] \"a_name_of_thirty_bytes_exactly\" \"a_name_of_thirty_bytes_exactly\" true None
? name => a_name_of_thirty_one_bytes_that \
  => [false, true, true] \"a_name_of_thirty_one_bytes_that\" \"a_name_of_thirty_one_bytes_that\" true None
? name => os.path.a.b.c.d.e.f.g.h.i.j.k.l.m.n.o.p.q.r.s.t.u.v.w.x.y.z \
  => [false, false, false] \"os.path.a.b.c.d.e.f.g.h.i.j.k.l.m.n.o.p.q.r.s.t.u.v.w.x.y.z\" \"os.path.a.b.c.d.e.f.g.h.i.j.k.l.m.n.o.p.q.r.s.t.u.v.w.x.y.z\" true None
? tokens Plain => # c\n\nx # d\n \
  => Ok([Token { kind: Name, start: Place { row: 3, column: 0 }, text: \"x\" }, Token { kind: Newline, start: Place { row: 3, column: 5 }, text: \"\\n\" }, Token { kind: EndMarker, start: Place { row: 4, column: 0 }, text: \"\" }])
? tokens Plain => \\\n\nx\n \
  => Ok([Token { kind: Name, start: Place { row: 3, column: 0 }, text: \"x\" }, Token { kind: Newline, start: Place { row: 3, column: 1 }, text: \"\\n\" }, Token { kind: EndMarker, start: Place { row: 4, column: 0 }, text: \"\" }])
? tokens Plain => if x:\n  '''\n# ''' \
  => Ok([Token { kind: Name, start: Place { row: 1, column: 0 }, text: \"if\" }, Token { kind: Name, start: Place { row: 1, column: 3 }, text: \"x\" }, Token { kind: Op, start: Place { row: 1, column: 4 }, text: \":\" }, Token { kind: Newline, start: Place { row: 1, column: 5 }, text: \"\\n\" }, Token { kind: Indent, start: Place { row: 2, column: 0 }, text: \"  \" }, Token { kind: String, start: Place { row: 2, column: 2 }, text: \"'''\\n# '''\" }, Token { kind: Newline, start: Place { row: 3, column: 5 }, text: \"\" }, Token { kind: Dedent, start: Place { row: 4, column: 0 }, text: \"\" }, Token { kind: EndMarker, start: Place { row: 4, column: 0 }, text: \"\" }])
? tokens Plain => ﬁ = 1\r\n \
  => Ok([Token { kind: Name, start: Place { row: 1, column: 0 }, text: \"ﬁ\" }, Token { kind: Op, start: Place { row: 1, column: 2 }, text: \"=\" }, Token { kind: Number, start: Place { row: 1, column: 4 }, text: \"1\" }, Token { kind: Newline, start: Place { row: 1, column: 5 }, text: \"\\r\\n\" }, Token { kind: EndMarker, start: Place { row: 2, column: 0 }, text: \"\" }])
? tokens Whole => f'{a b}'\n \
  => Ok([Token { kind: String, start: Place { row: 1, column: 0 }, text: \"f'{a b}'\" }, Token { kind: Newline, start: Place { row: 1, column: 8 }, text: \"\\n\" }, Token { kind: EndMarker, start: Place { row: 2, column: 0 }, text: \"\" }])
? tokens Whole => match 1.5:\n \
  => Ok([Token { kind: Name, start: Place { row: 1, column: 0 }, text: \"match\" }, Token { kind: Number, start: Place { row: 1, column: 6 }, text: \"1.5\" }, Token { kind: Op, start: Place { row: 1, column: 9 }, text: \":\" }, Token { kind: Newline, start: Place { row: 1, column: 10 }, text: \"\\n\" }, Token { kind: EndMarker, start: Place { row: 2, column: 0 }, text: \"\" }])
? tokens Plain => match 1.5:\n => Err(Refused(Token(Float, Place { row: 1, column: 6 })))
? tokens Whole => f'' f'\\x4'\n => Err(Refused(Token(BadEscape, Place { row: 1, column: 4 })))
? tokens Plain => if x:\n \ty\n\t z\n => Err(Refused(MixedTabs(Place { row: 3, column: 2 })))
? tokens Plain => x = 1.5\n)\n \
  => Err(Refused(Listing(ListingFault { place: Place { row: 2, column: 0 }, code: UnmatchedCloser })))
? logical Plain =>  => Ok(false) Ok(false)
? logical Plain => \n# c\n  # d\n => Ok(false) Ok(false)
? logical Plain => \\\n\n => Ok(false) Ok(false)
? logical Plain => if a:\n  if b:\n    c\n\n  # c\n  d\ne\n \
  => 0 Place { row: 1, column: 0 } false [Word(If), Ident(\"a\"), Op(Colon)] [Span { from: 0, to: 2 }, Span { from: 3, to: 4 }, Span { from: 4, to: 5 }]; 1 Place { row: 2, column: 2 } false [Word(If), Ident(\"b\"), Op(Colon)] [Span { from: 8, to: 10 }, Span { from: 11, to: 12 }, Span { from: 12, to: 13 }]; 2 Place { row: 3, column: 4 } false [Ident(\"c\")] [Span { from: 18, to: 19 }]; 1 Place { row: 6, column: 2 } false [Ident(\"d\")] [Span { from: 29, to: 30 }]; 0 Place { row: 7, column: 0 } false [Ident(\"e\")] [Span { from: 31, to: 32 }]; Ok(false) Ok(false)
? logical Plain => x = [1,\n 2] # c\n\na + \\\n  b'c'\n \
  => 0 Place { row: 1, column: 0 } false [Ident(\"x\"), Op(Equal), Op(LSqb), Whole(1), Op(Comma), Whole(2), Op(RSqb)] [Span { from: 0, to: 1 }, Span { from: 2, to: 3 }, Span { from: 4, to: 5 }, Span { from: 5, to: 6 }, Span { from: 6, to: 7 }, Span { from: 9, to: 10 }, Span { from: 10, to: 11 }]; 0 Place { row: 4, column: 0 } false [Ident(\"a\"), Op(Plus), Literal(LiteralText { text: \"b'c'\" })] [Span { from: 17, to: 18 }, Span { from: 19, to: 20 }, Span { from: 25, to: 29 }]; Ok(false) Ok(false)
? logical Plain => if x:\n  pass \
  => 0 Place { row: 1, column: 0 } false [Word(If), Ident(\"x\"), Op(Colon)] [Span { from: 0, to: 2 }, Span { from: 3, to: 4 }, Span { from: 4, to: 5 }]; 1 Place { row: 2, column: 2 } false [Word(Pass)] [Span { from: 8, to: 12 }]; Ok(false) Ok(false)
? logical Plain => x\ny = 1.5\nz\n \
  => 0 Place { row: 1, column: 0 } false [Ident(\"x\")] [Span { from: 0, to: 1 }]; Err(Refused(Token(Float, Place { row: 2, column: 4 }))) Err(Refused(Token(Float, Place { row: 2, column: 4 })))
? logical Plain => x\ny = 1.5\nz\n)\n \
  => 0 Place { row: 1, column: 0 } false [Ident(\"x\")] [Span { from: 0, to: 1 }]; Err(Refused(Listing(ListingFault { place: Place { row: 4, column: 0 }, code: UnmatchedCloser }))) Err(Refused(Listing(ListingFault { place: Place { row: 4, column: 0 }, code: UnmatchedCloser })))
? logical Plain => if x:\n  y\n\tz\n \
  => 0 Place { row: 1, column: 0 } false [Word(If), Ident(\"x\"), Op(Colon)] [Span { from: 0, to: 2 }, Span { from: 3, to: 4 }, Span { from: 4, to: 5 }]; Err(Refused(MixedTabs(Place { row: 3, column: 1 }))) Err(Refused(MixedTabs(Place { row: 3, column: 1 })))
? logical Plain => x\n# \0\n \
  => 0 Place { row: 1, column: 0 } false [Ident(\"x\")] [Span { from: 0, to: 1 }]; Err(Refused(Token(Nul, Place { row: 2, column: 0 }))) Err(Refused(Token(Nul, Place { row: 2, column: 0 })))
? logical Whole => x\ny + 1.5 - 2j\n \
  => 0 Place { row: 1, column: 0 } false [Ident(\"x\")] [Span { from: 0, to: 1 }]; 0 Place { row: 2, column: 0 } false [Ident(\"y\"), Op(Plus), Number(NumberText { text: \"1.5\" }), Op(Minus), Number(NumberText { text: \"2j\" })] [Span { from: 2, to: 3 }, Span { from: 4, to: 5 }, Span { from: 6, to: 9 }, Span { from: 10, to: 11 }, Span { from: 12, to: 14 }]; Ok(false) Ok(false)
? logical Whole => '\\x4'\n \
  => Err(Refused(Token(BadEscape, Place { row: 1, column: 0 }))) Err(Refused(Token(BadEscape, Place { row: 1, column: 0 })))
? logical Whole => \u{FEFF}é = f'ü{x}' # c\nif a:\n    b = 'c' \\\n 'd'\n \
  => 0 Place { row: 1, column: 0 } false [Ident(\"é\"), Op(Equal), FormattedBegin, FormattedText(TextPiece { text: \"ü\", is_raw: false, has_pairs: true }), FieldBegin(None), Op(LPar), Ident(\"x\"), Op(RPar), FieldEnd, FormattedText(TextPiece { text: \"\", is_raw: false, has_pairs: true }), FormattedEnd] [Span { from: 0, to: 2 }, Span { from: 3, to: 4 }, Span { from: 5, to: 13 }, Span { from: 5, to: 13 }, Span { from: 5, to: 13 }, Span { from: 9, to: 10 }, Span { from: 10, to: 11 }, Span { from: 11, to: 12 }, Span { from: 5, to: 13 }, Span { from: 5, to: 13 }, Span { from: 5, to: 13 }]; 0 Place { row: 2, column: 0 } false [Word(If), Ident(\"a\"), Op(Colon)] [Span { from: 18, to: 20 }, Span { from: 21, to: 22 }, Span { from: 22, to: 23 }]; 1 Place { row: 3, column: 4 } false [Ident(\"b\"), Op(Equal), Literal(LiteralText { text: \"'c'\" }), Literal(LiteralText { text: \"'d'\" })] [Span { from: 28, to: 29 }, Span { from: 30, to: 31 }, Span { from: 32, to: 35 }, Span { from: 39, to: 42 }]; Ok(false) Ok(false)
? logical Whole => match x:\n \
  => 0 Place { row: 1, column: 0 } true [Ident(\"match\"), Ident(\"x\"), Op(Colon)] [Span { from: 0, to: 5 }, Span { from: 6, to: 7 }, Span { from: 7, to: 8 }]; Ok(false) Ok(false)";

/// What a token of a type is to the grammar in an extent of the language, or why it is nothing; and
/// the fault that it has by itself.
pub(crate) fn terminal(rt: &impl Abort, alloc: Global, out: &mut String, words: &str, text: &str) {
    let (extent, kind) = parts(rt, words, " ");
    let (extent, kind) = (extent_of(extent), kind_of(rt, alloc, kind));
    push_shown(rt, out, &terminal_of(alloc, extent, kind, text));
    let fault = token_fault(alloc, extent, kind, text).expect(rt, "memory");
    push_shown(rt, out, &fault);
}

/// Appends what a terminal is shown as: a text of an f-string by its repr.
fn push_terminal(rt: &impl Abort, alloc: Global, out: &mut String, terminal: &Terminal<'_>) {
    if let Terminal::FormattedText(piece) = terminal {
        let points = piece.value(alloc).expect(rt, "memory");
        push(rt, out, " ");
        push_repr_points(out, points.as_slice()).expect(rt, "memory");
    } else {
        push_shown(rt, out, terminal);
    }
}

/// What an f-string is to the grammar, or why it is nothing; and the fault that it has by itself.
pub(crate) fn terminals(rt: &impl Abort, alloc: Global, out: &mut String, text: &str) {
    let mut terminals = Vec::new(alloc);
    let pushed = push_terminals(alloc, Extent::Whole, Kind::String, text, &mut terminals);
    push_shown(rt, out, &pushed);
    let fault = token_fault(alloc, Extent::Whole, Kind::String, text).expect(rt, "memory");
    push_shown(rt, out, &fault);
    if pushed.is_ok() {
        for terminal in &terminals {
            push_terminal(rt, alloc, out, terminal);
        }
    }
}

/// The dump of a constant, which is dropped.
fn push_constant(rt: &impl Abort, alloc: Global, out: &mut String, value: Constant) {
    let tree = Expr::Constant { value };
    let text = dump_expr(alloc, &tree, style_of("bare")).expect(rt, "memory");
    drop(tree);
    push(rt, out, " ");
    push(rt, out, text.as_str());
}

/// What a number stands for in an extent of the language, or its fault; and what is kept of it.
pub(crate) fn number(rt: &impl Abort, alloc: Global, out: &mut String, words: &str, text: &str) {
    let kept = NumberText::new(alloc, extent_of(words), text);
    push_shown(rt, out, &kept);
    match number_value(alloc, extent_of(words), text) {
        Ok(value) => push_constant(rt, alloc, out, value),
        Err(fault) => push_shown(rt, out, &fault),
    }
    if let Ok(kept) = kept {
        push_shown(rt, out, &kept.as_str());
        push_constant(rt, alloc, out, kept.value(alloc).expect(rt, "memory"));
    }
}

/// The repr of what a literal stands for, and of a text whether it has the kind `u`.
fn push_literal(rt: &impl Abort, alloc: Global, out: &mut String, literal: &Literal) {
    push(rt, out, " ");
    match literal {
        Literal::Text { points, unicode } => {
            let repr = repr_text(alloc, points.as_slice()).expect(rt, "memory");
            push(rt, out, repr.as_str());
            push_shown(rt, out, unicode);
        }
        Literal::Bytes(bytes) => {
            let repr = repr_bytes(alloc, bytes.as_slice()).expect(rt, "memory");
            push(rt, out, repr.as_str());
        }
    }
}

/// What a string stands for, and whether it is one of bytes; or its fault.
pub(crate) fn string(rt: &impl Abort, alloc: Global, out: &mut String, text: &str) {
    push_shown(rt, out, &string_fault(text));
    match LiteralText::new(text) {
        Ok(literal) => {
            push_shown(rt, out, &literal.is_bytes());
            push_shown(rt, out, &literal.as_str());
            push_literal(rt, alloc, out, &literal.value(alloc).expect(rt, "memory"));
            push_literal(
                rt,
                alloc,
                out,
                &string_value(alloc, text).expect(rt, "memory"),
            );
        }
        Err(error) => push_shown(rt, out, &error),
    }
}

/// Whether a text is a keyword, an identifier and a name; the form in which it is read as a name;
/// and the fault of that.
pub(crate) fn name(rt: &impl Abort, alloc: Global, out: &mut String, text: &str) {
    let is_name = is_name(alloc, text).expect(rt, "memory");
    push_shown(rt, out, &[is_keyword(text), is_identifier(text), is_name]);
    let form = name_value(alloc, text).expect(rt, "memory");
    push_shown(rt, out, &form.as_str());
    let identifier = identifier_value(alloc, text).expect(rt, "memory");
    let copy = identifier.clone().expect(rt, "memory");
    push_shown(rt, out, &identifier);
    push_shown(rt, out, &(copy == identifier));
    let fault = name_fault(alloc, text).expect(rt, "memory");
    push_shown(rt, out, &fault);
}

/// The tokens of a source in an extent of the language, or what is said against it.
pub(crate) fn tokens(rt: &impl Abort, alloc: Global, out: &mut String, extent: &str, text: &str) {
    let source = source_of(rt, alloc, text);
    push_shown(rt, out, &tokens_of(alloc, &source, extent_of(extent)));
}

/// Appends a logical line: its level, its place, whether it looks like a `match` statement, its
/// terminals, and where these stand.
fn push_line(rt: &impl Abort, out: &mut String, lines: &LogicalLines<'_>, marks: &Marks) {
    push_shown(rt, out, &lines.level());
    push_shown(rt, out, &lines.start());
    push_shown(rt, out, &lines.is_match());
    push_shown(rt, out, &lines.terminals());
    push_shown(rt, out, &marks.as_slice());
    push(rt, out, ";");
}

/// The logical lines of a source, and what comes after the last of them, twice. Another listing of
/// them goes on beside this one, and keeps where their terminals stand.
pub(crate) fn logical(rt: &impl Abort, alloc: Global, out: &mut String, extent: &str, text: &str) {
    let source = source_of(rt, alloc, text);
    let mut lines = LogicalLines::new(alloc, &source, extent_of(extent)).expect(rt, "memory");
    let mut marked = LogicalLines::new(alloc, &source, extent_of(extent)).expect(rt, "memory");
    let mut marks = Marks::new(alloc);
    for _ in 0..20u64 {
        let (told, other) = (lines.next(), marked.next_marked(&mut marks));
        assert!(rt; told == other);
        if told != Ok(true) {
            push_shown(rt, out, &told);
            return push_shown(rt, out, &lines.next());
        }
        push_line(rt, out, &lines, &marks);
    }
}

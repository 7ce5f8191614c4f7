//! Trees that no source gives, and the sizes of nodes.

use crate::expressions::{expression, extents};
use crate::rows::push_shown;
use crate::words::level_of;
use pytree::{
    Alias, Arg, BoolOperator, Comprehension, Constant, Context, Conversion, Expr, Handler,
    Identifier, Integer, Item, Keyword, Level, Points, Stmt, TypeParam,
};
use std::alloc::Global;
use std::mem;
use std::process::Abort;

/// The rows.
pub(crate) const ROWS: &str = "
? sizes =>  => [40, 72, 16, 16, 24, 32, 32, 64, 112, 96, 88, 40, 72]
? fits Expression => $fi => true true
? fits Expression => =fi => false false
? fits Expression => $if => false false
? fits Expression => $ﬁ => false false
? fits Stars => *a => true true
? fits Expression => *a => false false
? fits Expression => a a and => true true
? fits Expression => a and => false false
? fits Expression => lambda*,b:a => true true
? fits Expression => 1e16 => false true
? fits Expression => 1e-5 => false true
? fits Expression => 1e400 => false true
? fits Expression => 0.1 => false true
? fits Expression => 1_0. => false true
? fits Expression => 12345678901234567.0 => false true
? fits Expression => 2.5j => false true
? fits Expression => 0j => false true
? fits Expression => 1e16j => false true
? fits Expression => 1e400j => false true
? fits Expression => 0 => true true
? fits Expression => 18446744073709551615 => true true
? fits Expression => 18446744073709551616 => true true
? fits Expression => 340282366920938463463374607431768211455 => true true
? fits Expression => 340282366920938463463374607431768211456 => false true
? fits Expression => 10000000000000000000000000000000000000000 => false true
? fits Atom => f => false true
? fits Atom => 'a' f => false true
? fits Atom => '{\\'\\\\\\n\\0' f => false true
? fits Atom => '\\ud800' f => false true
? fits Atom => x {} f => false true
? fits Atom => 'a' x {} x {!s} 'b' f => false true
? fits Atom => '' f => false false
? fits Atom => 'a' 'b' f => false false
? fits Atom => x {} '' f => false false
? fits Atom => b'a' f => false false
? fits Atom => None f => false false
? fits Atom => x f => false false
? fits Atom => f'' f => false false
? fits Atom => *x f => false false
? fits Atom => f'' x {:} f => false true
? fits Atom => f'{{' x {:} f => false true
? fits Atom => f'\\'\\\\\\n' x {:} f => false true
? fits Atom => f'{x}' x {:} f => false true
? fits Atom => f'{x:5}' x {:} f => false true
? fits Atom => f'{x:{x:5}}' x {:} f => false false
? fits Atom => '' f x {:} f => false false
? fits Atom => 'a' 'b' f x {:} f => false false
? fits Atom => x x {:} f => false false
? fits Atom => '5' x {:} f => false false
? fits Atom => x {} x {:} f => false false
? fits Atom => u'a' f => false true
? fits Atom => u'a' x {} u'b' f => false true
? fits Atom => u'a' x {} 'b' f => false false
? fits Atom => 'a' x {} u'b' f => false false
? fits Atom => u'a' f'5' x {:} f => false true
? fits Atom => u'a' f x {:} f => false false
? fits Atom => u'a' x {} 'b' f x {:} f => false true
? fits Atom => x {} f => false true
? fits Atom => None {} f => false true
? fits Atom => *x {} f => false false
? fits Atom => x {} {} f => false false
? fits Atom => '' {} f => false true
? fits Atom => 'a{#\\t' {} f => false true
? fits Atom => u'a' {} f => false true
? fits Atom => '\\'' {} f => false false
? fits Atom => '\"' {} f => false false
? fits Atom => '\\\\' {} f => false false
? fits Atom => '\\n' {} f => false false
? fits Atom => '\\r' {} f => false false
? fits Atom => '\\0' {} f => false false
? fits Atom => '\\xe9' {} f => false true
? fits Atom => '\\ud7ff' {} f => false true
? fits Atom => '\\ud800' {} f => false false
? fits Atom => '\\udfff' {} f => false false
? fits Atom => '\\ue000' {} f => false true
? fits Atom => b'a' {} f => false true
? fits Atom => b'\\x7f' {} f => false true
? fits Atom => b'\\x80' {} f => false false
? fits Atom => b'\\n' {} f => false false
? fits Atom => f'' {} f => false true
? fits Atom => f'{{' {} f => false true
? fits Atom => f'\\'\\\\\\n' {} f => false false
? fits Atom => f'{x}' {} f => false true
? fits Atom => f'{x:5}' {} f => false true
? fits Atom => f'{x:\\x7b}' {} f => false false
? fits Atom => f'{\"a\"}' {} f => false false
? fits Atom => f'{f\"\"}' {} f => false false
? fits Stars => x {} => false false
? fits Expression => x {} => false false
? fits Atom => x {} => false false";

/// How many bytes values of the tree take.
pub(crate) fn sizes(rt: &impl Abort, out: &mut String) {
    let sizes = [
        size_of::<Expr>(),
        size_of::<Stmt>(),
        size_of::<Identifier>(),
        size_of::<Integer>(),
        size_of::<Points>(),
        size_of::<Constant>(),
        size_of::<Arg>(),
        size_of::<Keyword>(),
        size_of::<Comprehension>(),
        size_of::<Handler>(),
        size_of::<Item>(),
        size_of::<Alias>(),
        size_of::<TypeParam>(),
    ];
    push_shown(rt, out, &sizes);
}

/// The last of some expressions, which is taken from them.
fn last(rt: &impl Abort, alloc: Global, made: &mut Vec<Expr>) -> Box<Expr> {
    let taken = made.pop().expect(rt, "an expression");
    Box::new(alloc, taken).expect(rt, "memory")
}

/// The expression of a word: `$x` is a name that is read, `=x` one that is stored to, and another
/// word is its source.
fn of_word(rt: &impl Abort, alloc: Global, word: &str) -> Expr {
    let (ctx, text) = match (word.strip_prefix('$'), word.strip_prefix('=')) {
        (Some(text), _) => (Context::Load, text),
        (_, Some(text)) => (Context::Store, text),
        _ => return expression(rt, alloc, Level::Value, word).expect(rt, "a tree"),
    };
    let id = Identifier::new(alloc, text).expect(rt, "memory");
    Expr::Name { id, ctx }
}

/// The expression that a word makes of those that were made before it: `{}` and `{!s}` are fields of
/// the last, `{:}` one of the last with the one before it as its format spec, and `f` is the
/// f-string and `and` the operation of all.
fn next(rt: &impl Abort, alloc: Global, made: &mut Vec<Expr>, word: &str) -> Expr {
    let conversion = match word {
        "f" => {
            let values = mem::replace(made, Vec::new(alloc));
            return Expr::JoinedStr { values };
        }
        "and" => {
            let op = BoolOperator::And;
            let values = mem::replace(made, Vec::new(alloc));
            return Expr::BoolOp { op, values };
        }
        "{}" | "{:}" => Conversion::None,
        "{!s}" => Conversion::Str,
        _ => return of_word(rt, alloc, word),
    };
    let value = last(rt, alloc, made);
    let has_spec = word == "{:}";
    let format_spec = if has_spec {
        Some(last(rt, alloc, made))
    } else {
        None
    };
    Expr::FormattedValue {
        value,
        conversion,
        format_spec,
    }
}

/// In which extents of the language the expression that words make is well formed at a level.
pub(crate) fn fits(rt: &impl Abort, alloc: Global, out: &mut String, level: &str, words: &str) {
    let mut made = Vec::new(alloc);
    for word in words.split(' ') {
        let tree = next(rt, alloc, &mut made, word);
        made.push(tree).expect(rt, "memory");
    }
    let tree = made.pop().expect(rt, "an expression");
    extents(rt, alloc, out, &tree, level_of(rt, alloc, level));
    drop(tree);
}

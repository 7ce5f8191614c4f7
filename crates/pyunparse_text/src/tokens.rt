//! Single tokens.

ghost use Rattle.std.specs.Prelude.{◌≡◌, Bool, false, true, [], ◌∷◌, OnOk, map, not, if◌then◌else◌};
ghost use Rattle.std.specs.Str.{chars};
ghost use Rattle.pytree_node.specs.declared.operators.Comparison.{Comparison};
ghost use Rattle.pytoken.specs.Terminals.{in_form, Op, Word};
ghost use Rattle.pyunparse_text.specs.Folds.{closed, opened, puts};
ghost use Rattle.pyunparse_text.specs.Marks.{in_role, mark};
ghost use Rattle.pyunparse_text.specs.Levels.{comparison_signs};
ghost use Rattle.pyunparse_text.specs.Pieces.{piece, sited};
ghost use Rattle.pyunparse_text.specs.Written as written;

use crate::marks::{Between, Role};
use crate::writers::Writer;
use pylex_listing::{Exact, Kind};
use pytoken::Keyword;
use pytree_node::{Comparison, Identifier, UnaryOperator};
use std::alloc::AllocError;

/// Writes an operator or delimiter by its role.
pub fn put_sign<W: Writer>(out: &mut W, sign: Exact, role: Role) -> Result<(), AllocError>
    ensures { OnOk result (out.new ≡ puts W.after out.old (in_role role sign ∷ [])) }
{
    out.put(Kind::Op, sign.text(), role)
}

/// Writes an operator, which may keep close to what stands before it.
pub fn put_operator<W: Writer>(out: &mut W, sign: Exact, close: bool) -> Result<(), AllocError>
    ensures { OnOk result (out.new ≡ puts W.after out.old (sited (Op sign) close false ∷ [])) }
{
    if close {
        return put_sign(out, sign, Role::Trailing);
    }
    put_sign(out, sign, Role::Free)
}

/// Writes a keyword.
pub fn put_word<W: Writer>(out: &mut W, word: Keyword) -> Result<(), AllocError>
    ensures { OnOk result (out.new ≡ puts W.after out.old (written.word piece word ∷ [])) }
{
    out.put(Kind::Name, word.spelling(), Role::Free)
}

/// Writes a name, which may keep close to what stands before it.
pub fn put_text<W: Writer>(out: &mut W, name: &str, before: bool) -> Result<(), AllocError>
    ensures { OnOk result
        (out.new ≡ puts W.after out.old (sited (in_form (chars name.now)) before false ∷ [])) }
{
    if before {
        return out.put(Kind::Name, name, Role::Trailing);
    }
    out.put(Kind::Name, name, Role::Free)
}

/// Writes a name.
pub fn put_name<W: Writer>(out: &mut W, name: &Identifier) -> Result<(), AllocError>
    ensures { OnOk result
        (out.new ≡ puts W.after out.old (written.free piece (in_form name.now) ∷ [])) }
{
    out.put(Kind::Name, name.as_str(), Role::Free)
}

/// Writes a bracket before an expression, unless it is bare.
pub fn open<W: Writer>(out: &mut W, bare: bool) -> Result<(), AllocError>
    ensures { OnOk result (out.new ≡ puts W.after out.old (opened bare)) }
{
    if bare {
        return Ok(());
    }
    put_sign(out, Exact::LPar, Role::Leading)
}

/// Writes a bracket after an expression, unless it is bare.
pub fn close<W: Writer>(out: &mut W, bare: bool) -> Result<(), AllocError>
    ensures { OnOk result (out.new ≡ puts W.after out.old (closed bare)) }
{
    if bare {
        return Ok(());
    }
    put_sign(out, Exact::RPar, Role::Trailing)
}

/// Writes what stands before a member of a list, unless it is the first one.
pub fn put_between<W: Writer>(out: &mut W, first: bool, between: Between) -> Result<(), AllocError>
    ensures { OnOk result
        (out.new ≡ puts W.after out.old (if first then [] else mark between ∷ [])) }
{
    if first {
        return Ok(());
    }
    match between {
        Between::Comma => put_sign(out, Exact::Comma, Role::Trailing),
        Between::And => put_word(out, Keyword::And),
        Between::Or => put_word(out, Keyword::Or),
    }
}

/// Writes an operator before its operand: a word, or a prefix.
pub fn put_unary<W: Writer>(out: &mut W, op: UnaryOperator) -> Result<(), AllocError>
    ensures { OnOk result (out.new ≡ puts W.after out.old (written.unary piece op ∷ [])) }
{
    match op {
        UnaryOperator::Not => put_word(out, Keyword::Not),
        UnaryOperator::Invert => put_sign(out, Exact::Tilde, Role::Leading),
        UnaryOperator::UAdd => put_sign(out, Exact::Plus, Role::Leading),
        UnaryOperator::USub => put_sign(out, Exact::Minus, Role::Leading),
    }
}

/// Writes a comparison, of one or two tokens.
pub fn put_comparison<W: Writer>(out: &mut W, op: Comparison) -> Result<(), AllocError>
    ensures { OnOk result
        (out.new ≡ puts W.after out.old (map (written.free piece) (comparison_signs op))) }
{
    match op {
        Comparison::Eq => put_sign(out, Exact::EqEqual, Role::Free),
        Comparison::NotEq => put_sign(out, Exact::NotEqual, Role::Free),
        Comparison::Lt => put_sign(out, Exact::Less, Role::Free),
        Comparison::LtE => put_sign(out, Exact::LessEqual, Role::Free),
        Comparison::Gt => put_sign(out, Exact::Greater, Role::Free),
        Comparison::GtE => put_sign(out, Exact::GreaterEqual, Role::Free),
        Comparison::Is => put_word(out, Keyword::Is),
        Comparison::IsNot => {
            put_word(out, Keyword::Is)?;
            put_word(out, Keyword::Not)
        }
        Comparison::Within => put_word(out, Keyword::In),
        Comparison::NotIn => {
            put_word(out, Keyword::Not)?;
            put_word(out, Keyword::In)
        }
    }
}

//! Constants.

ghost use Rattle.std.specs.Prelude.{◌≡◌, [], ◌∷◌, OnOk};
ghost use Rattle.pytree_node.specs.TreeOf.{constant_of};
ghost use Rattle.pytree_node.specs.Values.{Float, Imaginary, Int};
ghost use Rattle.pytoken.specs.Terminals.{Number};
ghost use Rattle.pyunparse_text.specs.Folds.{puts};
ghost use Rattle.pyunparse_text.specs.Pieces.{piece};
ghost use Rattle.pyunparse_text.specs.Written.{constant_terminal, free};

use itoa::Buffer;
use pylex_listing::{Exact, Kind};
use pynumber::Double;
use pytoken::Keyword;
use pytree_node::{Constant, Integer};
use pyunparse_text::marks::Role;
use pyunparse_text::tokens::{put_sign, put_word};
use pyunparse_text::writers::Writer;
use std::alloc::AllocError;

/// Writes a whole number. One below 2 to the 128 takes no memory of its own.
fn put_integer<W: Writer>(out: &mut W, number: &Integer) -> Result<(), AllocError>
    ensures { OnOk result
        (out.new ≡ puts W.after out.old (free piece (Number (Int number.now)) ∷ [])) }
{
    if let Some(small) = number.to_u128() {
        let mut buffer = Buffer::new();
        return out.put(Kind::Number, buffer.format(small), Role::Free);
    }
    let mut text = String::new(out.alloc());
    number.push_decimal(&mut text)?;
    out.put(Kind::Number, text.as_str(), Role::Free)
}

/// Writes a float.
fn put_float<W: Writer>(out: &mut W, float: Double) -> Result<(), AllocError>
    ensures { OnOk result
        (out.new ≡ puts W.after out.old (free piece (Number (Float float)) ∷ [])) }
{
    let alloc = out.alloc();
    let mut text = String::new(alloc);
    float.push_source(&mut text, alloc)?;
    out.put(Kind::Number, text.as_str(), Role::Free)
}

/// Writes an imaginary number.
fn put_imaginary<W: Writer>(out: &mut W, float: Double) -> Result<(), AllocError>
    ensures { OnOk result
        (out.new ≡ puts W.after out.old (free piece (Number (Imaginary float)) ∷ [])) }
{
    let alloc = out.alloc();
    let mut text = String::new(alloc);
    float.push_imaginary_source(&mut text, alloc)?;
    out.put(Kind::Number, text.as_str(), Role::Free)
}

/// Writes a constant.
pub(crate) fn put_constant<W: Writer>(out: &mut W, value: &Constant) -> Result<(), AllocError>
    ensures { OnOk result
        (out.new ≡ puts W.after out.old
        (free piece (constant_terminal (constant_of value.now)) ∷ [])) }
{
    match value {
        Constant::None => put_word(out, Keyword::None),
        Constant::Ellipsis => put_sign(out, Exact::Ellipsis, Role::Free),
        Constant::Bool(truth) => {
            put_word(
                out,
                if *truth {
                    Keyword::True
                } else {
                    Keyword::False
                },
            )
        }
        Constant::Int(number) => put_integer(out, number),
        Constant::Float(float) => put_float(out, *float),
        Constant::Imaginary(float) => put_imaginary(out, *float),
        Constant::Str(points) => out.put_str(points.as_slice(), false),
        Constant::UnicodeStr(points) => out.put_str(points.as_slice(), true),
        Constant::Bytes(bytes) => out.put_bytes(bytes),
    }
}

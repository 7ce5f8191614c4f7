//! The classes of operators and contexts with their brackets, conversions, and the values of
//! constants.

ghost use Rattle.std.specs.Prelude.{◌≡◌, ◌++◌, OnOk, codes, decimal};
ghost use Rattle.std.specs.String.{string_bytes};
ghost use Rattle.pytree_dump_text.specs.Shows.{bool_name, comparison_name, context_name};
ghost use Rattle.pytree_dump_text.specs.Shows.{conversion_number, operator_name, unary_name};
ghost use Rattle.pytree_dump_text.specs.Shows.{value_text};
ghost use Rattle.pytree_node.specs.TreeOf.{constant_of};
ghost use Rattle.pynumber.specs.FloatTexts.{float_repr, imaginary_repr};

use itoa::Buffer;
use pynumber::Double;
use pysource::{push_repr_bytes, push_repr_points};
use pytree_node::{
    BoolOperator, Comparison, Constant, Context, Conversion, Operator, UnaryOperator,
};
use std::alloc::AllocError;

/// How an operator between two operands is shown.
pub fn operator_word(op: Operator) -> &'static str
    ensures { result.now ≡ operator_name op ++ codes "()" }
{
    match op {
        Operator::Add => "Add()",
        Operator::Sub => "Sub()",
        Operator::Mult => "Mult()",
        Operator::MatMult => "MatMult()",
        Operator::Div => "Div()",
        Operator::Mod => "Mod()",
        Operator::Pow => "Pow()",
        Operator::LShift => "LShift()",
        Operator::RShift => "RShift()",
        Operator::BitOr => "BitOr()",
        Operator::BitXor => "BitXor()",
        Operator::BitAnd => "BitAnd()",
        Operator::FloorDiv => "FloorDiv()",
    }
}

/// How a context is shown.
pub fn context_word(ctx: Context) -> &'static str
    ensures { result.now ≡ context_name ctx ++ codes "()" }
{
    match ctx {
        Context::Load => "Load()",
        Context::Store => "Store()",
        Context::Del => "Del()",
    }
}

/// How a conversion is shown.
pub fn conversion_word(conversion: Conversion) -> &'static str
    ensures { result.now ≡ conversion_number conversion }
{
    match conversion {
        Conversion::None => "-1",
        Conversion::Str => "115",
        Conversion::Repr => "114",
        Conversion::Ascii => "97",
    }
}

/// How `and` and `or` are shown.
pub fn bool_word(op: BoolOperator) -> &'static str
    ensures { result.now ≡ bool_name op ++ codes "()" }
{
    match op {
        BoolOperator::And => "And()",
        BoolOperator::Or => "Or()",
    }
}

/// How an operator before its operand is shown.
pub fn unary_word(op: UnaryOperator) -> &'static str
    ensures { result.now ≡ unary_name op ++ codes "()" }
{
    match op {
        UnaryOperator::Invert => "Invert()",
        UnaryOperator::Not => "Not()",
        UnaryOperator::UAdd => "UAdd()",
        UnaryOperator::USub => "USub()",
    }
}

/// How a comparison is shown.
pub fn comparison_word(op: Comparison) -> &'static str
    ensures { result.now ≡ comparison_name op ++ codes "()" }
{
    match op {
        Comparison::Eq => "Eq()",
        Comparison::NotEq => "NotEq()",
        Comparison::Lt => "Lt()",
        Comparison::LtE => "LtE()",
        Comparison::Gt => "Gt()",
        Comparison::GtE => "GtE()",
        Comparison::Is => "Is()",
        Comparison::IsNot => "IsNot()",
        Comparison::Within => "In()",
        Comparison::NotIn => "NotIn()",
    }
}

/// Appends a number in decimal.
pub fn push_number(out: &mut String, number: u64) -> Result<(), AllocError>
    ensures { OnOk result (string_bytes out.new ≡ string_bytes out.old ++ decimal number) }
{
    let mut buffer = Buffer::new();
    out.push_str(buffer.format(number))
}

/// Appends the `repr` of a float.
#[inline(never)]
fn push_float(out: &mut String, value: Double) -> Result<(), AllocError>
    ensures { OnOk result (string_bytes out.new ≡ string_bytes out.old ++ float_repr value) }
{
    let alloc = *out.allocator();
    value.push_repr(out, alloc)
}

/// Appends the `repr` of an imaginary number, given by its imaginary part.
#[inline(never)]
fn push_imaginary(out: &mut String, value: Double) -> Result<(), AllocError>
    ensures { OnOk result (string_bytes out.new ≡ string_bytes out.old ++ imaginary_repr value) }
{
    let alloc = *out.allocator();
    value.push_imaginary_repr(out, alloc)
}

/// Appends the value of a constant.
#[inline(always)]
pub fn push_value(out: &mut String, value: &Constant) -> Result<(), AllocError>
    ensures { OnOk result
        (string_bytes out.new ≡ string_bytes out.old ++ value_text (constant_of value.now)) }
{
    match value {
        Constant::None => out.push_str("None"),
        Constant::Ellipsis => out.push_str("Ellipsis"),
        Constant::Bool(truth) => out.push_str(if *truth { "True" } else { "False" }),
        Constant::Int(number) => number.push_decimal(out),
        Constant::Float(value) => push_float(out, *value),
        Constant::Imaginary(value) => push_imaginary(out, *value),
        Constant::Str(points) => push_repr_points(out, points.as_slice()),
        Constant::UnicodeStr(points) => push_repr_points(out, points.as_slice()),
        Constant::Bytes(bytes) => push_repr_bytes(out, bytes.as_slice()),
    }
}

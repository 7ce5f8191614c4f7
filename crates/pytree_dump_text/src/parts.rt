//! The fields of expressions, lent from the tree.

ghost use Rattle.std.specs.Prelude.{◌≡◌, false};
ghost use Rattle.pytree_dump_text.specs.Names.{field_name};
ghost use Rattle.pytree_dump_text.specs.Slots.{is_missing, slot_name, slot_of, with_slot};
ghost use Rattle.pytree_dump_text.specs.Shows.{Fields, arg_field, expr_field, name_field};
ghost use Rattle.pytree_dump_text.specs.Shows.{optional_field};
ghost use Rattle.pytree_node.specs.TreeOf.{arg_option_of, boxed_of, option_of};
ghost use Rattle.pytree_node.specs.Trees.{optional, optional_arg};

use crate::fields::Field;
use pytree_node::{
    Alias, Arg, Arguments, BoolOperator, Comparison, Comprehension, Constant, Context, Conversion,
    Expr, Identifier, Item, Keyword, Operator, TypeParam, UnaryOperator,
};

/// A field of a node, with its name, or a field that is left out.
#[derive(Clone, Copy)]
pub enum Part<'a> {
    Expr(Field, &'a Expr),
    Exprs(Field, &'a [Expr]),
    Options(Field, &'a [Option<Expr>]),
    Comprehensions(Field, &'a [Comprehension]),
    Keywords(Field, &'a [Keyword]),
    Args(Field, &'a [Arg]),
    Arg(Field, &'a Arg),
    Arguments(Field, &'a Arguments),
    Comparisons(Field, &'a [Comparison]),
    Names(Field, &'a [Identifier]),
    Aliases(Field, &'a [Alias]),
    Items(Field, &'a [Item]),
    TypeParams(Field, &'a [TypeParam]),
    Operator(Operator),
    Unary(UnaryOperator),
    Bool(BoolOperator),
    /// The conversion of a field of an f-string.
    Conversion(Conversion),
    Context(Context),
    Name(Field, &'a Identifier),
    Value(Field, &'a Constant),
    Number(Field, u64),
    /// A truth value, which is shown as a number.
    Flag(Field, bool),
    /// The kind of a text.
    Kind,
    LeftOut,
}

/// The field of an expression that may be absent.
pub fn boxed_part<'a>(field: Field, e: &'a Option<Box<Expr>>) -> Part<'a>
    ensures { (rest : Fields)
        → with_slot (slot_of result) rest
        ≡ optional_field (field_name field) (optional (boxed_of e.now)) rest }
{
    match e {
        None => Part::LeftOut,
        Some(e) => Part::Expr(field, e),
    }
}

/// The field of an expression that may be absent, where it stands in no box.
pub fn option_part<'a>(field: Field, e: &'a Option<Expr>) -> Part<'a>
    ensures { (rest : Fields)
        → with_slot (slot_of result) rest ≡ expr_field (field_name field) (option_of e.now) rest }
{
    match e {
        None => Part::LeftOut,
        Some(e) => Part::Expr(field, e),
    }
}

/// The field of a parameter that may be absent.
pub fn arg_part<'a>(field: Field, a: &'a Option<Arg>) -> Part<'a>
    ensures { (rest : Fields)
        → with_slot (slot_of result) rest
        ≡ arg_field (field_name field) (optional_arg (arg_option_of a.now)) rest }
{
    match a {
        None => Part::LeftOut,
        Some(a) => Part::Arg(field, a),
    }
}

/// The field of a name that may be absent.
pub fn name_part<'a>(field: Field, id: &'a Option<Identifier>) -> Part<'a>
    ensures { (rest : Fields)
        → with_slot (slot_of result) rest ≡ name_field (field_name field) id.now rest }
{
    match id {
        None => Part::LeftOut,
        Some(id) => Part::Name(field, id),
    }
}

/// Whether a field is left out.
pub fn is_absent(part: Part<'_>) -> bool
    ensures { result ≡ is_missing (slot_of part.entry) }
{
    matches!(part, Part::LeftOut)
}

/// Which field a part is, where it isn't left out.
pub fn field_of(part: Part<'_>) -> Field
    requires { is_missing (slot_of part) ≡ false }
    ensures { field_name result ≡ slot_name (slot_of part.entry) }
{
    match part {
        Part::Expr(field, _) => field,
        Part::Exprs(field, _) => field,
        Part::Options(field, _) => field,
        Part::Comprehensions(field, _) => field,
        Part::Keywords(field, _) => field,
        Part::Args(field, _) => field,
        Part::Arg(field, _) => field,
        Part::Arguments(field, _) => field,
        Part::Comparisons(field, _) => field,
        Part::Names(field, _) => field,
        Part::Aliases(field, _) => field,
        Part::Items(field, _) => field,
        Part::TypeParams(field, _) => field,
        Part::Name(field, _) => field,
        Part::Value(field, _) => field,
        Part::Number(field, _) => field,
        Part::Flag(field, _) => field,
        Part::Operator(_) => Field::Op,
        Part::Unary(_) => Field::Op,
        Part::Bool(_) => Field::Op,
        Part::Conversion(_) => Field::Conversion,
        Part::Context(_) => Field::Ctx,
        Part::Kind => Field::Kind,
        // Not asked for.
        Part::LeftOut => Field::Kind,
    }
}

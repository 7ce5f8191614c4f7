//! What is neither a node nor a list.

use pyfstring::Conversion;
use pytree_node::{
    BoolOperator, Comparison, Constant, Context, Identifier, Operator, UnaryOperator,
};

/// What is neither a node nor a list.
#[derive(Clone, Copy)]
pub enum Leaf<'a> {
    /// An operator between two operands: a node without fields.
    Operator(Operator),
    /// An operator before its operand: a node without fields.
    Unary(UnaryOperator),
    /// `and` or `or`: a node without fields.
    Bool(BoolOperator),
    /// A comparison: a node without fields.
    Comparison(Comparison),
    /// A context: a node without fields.
    Context(Context),
    /// The conversion of a field of an f-string.
    Conversion(Conversion),
    Name(&'a Identifier),
    /// The value of a Constant, without its kind.
    Value(&'a Constant),
    /// The value of a MatchSingleton.
    Singleton(&'a Constant),
    Number(u64),
    /// A truth value, which is shown as a number.
    Flag(bool),
    /// The kind of a text, which is `'u'`.
    Kind,
    /// The None in a list.
    None,
}

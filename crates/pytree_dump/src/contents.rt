//! What the fields of a node show.

ghost use Rattle.std.specs.Prelude.{◌≡◌, codes, false, if◌then◌else◌};
ghost use Rattle.pytree_dump_text.specs.Names.{field_name};
ghost use Rattle.pytree_dump_text.specs.Slots.{is_missing, slot_name, slot_of, slot_shown};
ghost use Rattle.pytree_dump.specs.Inner.Nodes.{ContentOf, any_slot};

use crate::elements::{Element, Elements};
use crate::nodes::AnyPart;
use pytree_dump_text::{
    Field, Part, bool_word, context_word, conversion_word, field_of, operator_word, unary_word,
};
use pytree_node::{Arg, Arguments, Comparison, Constant, Expr, Identifier};

/// What a field shows.
#[derive(Clone, Copy)]
pub(crate) enum Content<'a> {
    Expr(&'a Expr),
    Element(Element<'a>),
    Exprs(&'a [Expr]),
    Elements(Elements<'a>),
    Arg(&'a Arg),
    Args(&'a [Arg]),
    Arguments(&'a Arguments),
    Comparisons(&'a [Comparison]),
    Names(&'a [Identifier]),
    /// A text as it stands.
    Word(&'static str),
    Name(&'a Identifier),
    Constant(&'a Constant),
    Number(u64),
}

/// How a truth value is shown, as a number.
#[inline(always)]
fn flag_word(flag: bool) -> &'static str
    ensures { result.now ≡ (if flag then codes "1" else codes "0") }
{
    if flag { "1" } else { "0" }
}

/// What a part of an expression shows.
#[inline(always)]
fn part_content<'a>(part: Part<'a>) -> Content<'a>
    ensures { ContentOf result (slot_shown (slot_of part.entry)) }
{
    match part {
        Part::Expr(_, e) => Content::Expr(e),
        Part::Exprs(_, es) => Content::Exprs(es),
        Part::Options(_, es) => Content::Elements(Elements::Options(es)),
        Part::Comprehensions(_, cs) => Content::Elements(Elements::Comprehensions(cs)),
        Part::Keywords(_, ks) => Content::Elements(Elements::Keywords(ks)),
        Part::Args(_, all) => Content::Args(all),
        Part::Arg(_, a) => Content::Arg(a),
        Part::Arguments(_, a) => Content::Arguments(a),
        Part::Comparisons(_, cs) => Content::Comparisons(cs),
        Part::Names(_, names) => Content::Names(names),
        Part::Aliases(_, names) => Content::Elements(Elements::Aliases(names)),
        Part::Items(_, items) => Content::Elements(Elements::Items(items)),
        Part::TypeParams(_, all) => Content::Elements(Elements::TypeParams(all)),
        Part::Operator(op) => Content::Word(operator_word(op)),
        Part::Unary(op) => Content::Word(unary_word(op)),
        Part::Bool(op) => Content::Word(bool_word(op)),
        Part::Conversion(conversion) => Content::Word(conversion_word(conversion)),
        Part::Context(ctx) => Content::Word(context_word(ctx)),
        Part::Name(_, id) => Content::Name(id),
        Part::Value(_, value) => Content::Constant(value),
        Part::Number(_, number) => Content::Number(number),
        Part::Flag(_, flag) => Content::Word(flag_word(flag)),
        Part::Kind => Content::Word("'u'"),
        Part::LeftOut => Content::Word(""),
    }
}

impl<'a> AnyPart<'a> {
    /// Which field it is, where it isn't left out.
    #[inline(always)]
    pub fn field(self) -> Field
        requires { is_missing (any_slot self) ≡ false }
        ensures { field_name result ≡ slot_name (any_slot self.entry) }
    {
        match self {
            AnyPart::Part(part) => field_of(part),
            AnyPart::Pattern(field, _) => field,
            AnyPart::Patterns(field, _) => field,
        }
    }

    /// What it shows, where it isn't left out.
    #[inline(always)]
    pub fn content(self) -> Content<'a>
        ensures { ContentOf result (slot_shown (any_slot self.entry)) }
    {
        match self {
            AnyPart::Part(part) => part_content(part),
            AnyPart::Pattern(_, p) => Content::Element(Element::Pattern(p)),
            AnyPart::Patterns(_, patterns) => Content::Elements(Elements::Patterns(patterns)),
        }
    }
}

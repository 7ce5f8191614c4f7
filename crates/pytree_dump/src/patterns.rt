//! The nodes of patterns.

ghost use Rattle.std.specs.Prelude.{◌≡◌, codes, true};
ghost use Rattle.pytree_dump_text.specs.Blocks.{listed, shown_pattern_row};
ghost use Rattle.pytree_dump_text.specs.Shows.{Fields, a_field, name_field, no_field, shown, pattern_field};
ghost use Rattle.pytree_dump_text.specs.Shows.{shown_name, shown_pattern};
ghost use Rattle.pytree_dump_text.specs.Slots.{with_slot};
ghost use Rattle.pytree_node.specs.TreeOf.{boxed_pattern_of, pattern_of, tree_of};
ghost use Rattle.pytree_node.specs.Trees.{optional_pattern};
ghost use Rattle.pytree_dump.specs.Inner.Nodes.{Describes, DescribesShown, any_slot};

use crate::nodes::{AnyPart, Node};
use pytree_dump_text::{
    Field, Part, Style, is_flat, is_short_as, is_short_mapping, is_short_patterns, name_part,
};
use pytree_node::{Expr, Identifier, Pattern};

/// The node of a pattern.
pub(crate) fn pattern_node<'a>(style: Style, p: &'a Pattern) -> Node<'a>
    ensures { DescribesShown style result (shown_pattern (pattern_of p.now)) }
{
    match p {
        Pattern::MatchValue { value } => {
            Node::one(style, "MatchValue(", Part::Expr(Field::Value, value))
        }
        Pattern::MatchSingleton { value } => {
            Node::one(style, "MatchSingleton(", Part::Value(Field::Value, value))
        }
        Pattern::MatchSequence { patterns } => patterns_node(style, "MatchSequence(", patterns),
        Pattern::MatchMapping {
            keys,
            patterns,
            rest,
        } => mapping_node(style, keys, patterns, rest),
        Pattern::MatchClass {
            cls,
            patterns,
            kwd_attrs,
            kwd_patterns,
        } => instance_node(style, cls, patterns, kwd_attrs, kwd_patterns),
        Pattern::MatchStar { name } => Node::one(style, "MatchStar(", name_part(Field::Name, name)),
        Pattern::MatchAs { pattern, name } => as_node(style, pattern, name),
        Pattern::MatchOr { patterns } => patterns_node(style, "MatchOr(", patterns),
    }
}

/// A pattern that is a list of patterns: a sequence, or alternatives.
fn patterns_node<'a>(style: Style, class: &'static str, patterns: &'a [Pattern]) -> Node<'a>
    ensures { Describes true style result (class.now) (a_field (codes "patterns") (shown_pattern_row patterns.now) no_field) }
{
    Node {
        class,
        parts: [
            AnyPart::Patterns(Field::Patterns, patterns),
            AnyPart::Part(Part::LeftOut),
            AnyPart::Part(Part::LeftOut),
            AnyPart::Part(Part::LeftOut),
        ],
        len: 1,
        is_short: is_short_patterns(style, patterns),
        is_marked: true,
    }
}

/// A pattern of keys and patterns, perhaps with a name for the rest.
fn mapping_node<'a>(
    style: Style,
    keys: &'a [Expr],
    patterns: &'a [Pattern],
    rest: &'a Option<Identifier>,
) -> Node<'a>
    ensures { Describes true style result (codes "MatchMapping(")
        (a_field (codes "keys") (listed (λ e. shown (tree_of e)) keys.now)
        (a_field (codes "patterns") (shown_pattern_row patterns.now)
        (name_field (codes "rest") rest.now no_field))) }
{
    Node {
        class: "MatchMapping(",
        parts: [
            AnyPart::Part(Part::Exprs(Field::Keys, keys)),
            AnyPart::Patterns(Field::Patterns, patterns),
            AnyPart::Part(name_part(Field::Rest, rest)),
            AnyPart::Part(Part::LeftOut),
        ],
        len: 3,
        is_short: is_short_mapping(style, keys, patterns),
        is_marked: true,
    }
}

/// A pattern of a class, which shows four fields.
fn instance_node<'a>(
    style: Style,
    cls: &'a Expr,
    patterns: &'a [Pattern],
    kwd_attrs: &'a [Identifier],
    kwd_patterns: &'a [Pattern],
) -> Node<'a>
    ensures { Describes true style result (codes "MatchClass(")
        (a_field (codes "cls") (shown (tree_of cls.now))
        (a_field (codes "patterns") (shown_pattern_row patterns.now)
        (a_field (codes "kwd_attrs") (listed (λ name. shown_name name) kwd_attrs.now)
        (a_field (codes "kwd_patterns") (shown_pattern_row kwd_patterns.now) no_field)))) }
{
    Node {
        class: "MatchClass(",
        parts: [
            AnyPart::Part(Part::Expr(Field::Cls, cls)),
            AnyPart::Patterns(Field::Patterns, patterns),
            AnyPart::Part(Part::Names(Field::KwdAttrs, kwd_attrs)),
            AnyPart::Patterns(Field::KwdPatterns, kwd_patterns),
        ],
        len: 4,
        is_short: is_flat(style),
        is_marked: true,
    }
}

/// The field of a pattern that may be absent.
fn pattern_part<'a>(pattern: &'a Option<Box<Pattern>>) -> AnyPart<'a>
    ensures { (rest : Fields)
        → with_slot (any_slot result) rest
        ≡ pattern_field (codes "pattern") (optional_pattern (boxed_pattern_of pattern.now)) rest }
{
    match pattern {
        None => AnyPart::Part(Part::LeftOut),
        Some(p) => AnyPart::Pattern(Field::Pattern, p),
    }
}

/// A pattern with a name for what it matches. Either may be absent.
fn as_node<'a>(
    style: Style,
    pattern: &'a Option<Box<Pattern>>,
    name: &'a Option<Identifier>,
) -> Node<'a>
    ensures { Describes true style result (codes "MatchAs(")
        (pattern_field (codes "pattern") (optional_pattern (boxed_pattern_of pattern.now))
        (name_field (codes "name") name.now no_field)) }
{
    Node {
        class: "MatchAs(",
        parts: [
            pattern_part(pattern),
            AnyPart::Part(name_part(Field::Name, name)),
            AnyPart::Part(Part::LeftOut),
            AnyPart::Part(Part::LeftOut),
        ],
        len: 2,
        is_short: is_short_as(style, pattern),
        is_marked: true,
    }
}

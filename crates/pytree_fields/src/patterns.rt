//! The nodes of patterns.

ghost use Rattle.std.specs.Prelude.{◌≡◌, ◌≤◌};
ghost use Rattle.pytree_node.specs.declared.profiles.Version.{Version as AnyVersion};
ghost use Rattle.pytree_node.specs.Trees.{optional_pattern};
ghost use Rattle.pytree_node.specs.TreeOf.{boxed_pattern_of, pattern_of};
ghost use Rattle.pytree_fields.specs.Classes.{field_count};
ghost use Rattle.pytree_fields.specs.LentThings.{node_thing, with_held};
ghost use Rattle.pytree_fields.specs.Things.{Things, pattern_field, pattern_thing};

use crate::classes::Class;
use crate::held::Held;
use crate::leaves::Leaf;
use crate::members::name_held;
use crate::nodes::Node;
use crate::rows::Row;
use pytree_node::Pattern;

/// The node of a pattern.
#[tactic(auto, using(pytree_node::proofs::Callers::PatternShapes::pattern_shapes))]
pub(crate) fn pattern_node<'a>(p: &'a Pattern) -> Node<'a>
    ensures thing { (version : AnyVersion) → node_thing version result ≡ pattern_thing (pattern_of p.now) }
    ensures len { result.len ≡ field_count result.class }
    ensures room { result.len ≤ 7 }
{
    match p {
        Pattern::MatchValue { value } => Node::one(Class::MatchValue, Held::Expr(value)),
        Pattern::MatchSingleton { value } => Node::one(
            Class::MatchSingleton,
            Held::Leaf(Leaf::Singleton(value)),
        ),
        Pattern::MatchSequence { patterns } => Node::one(
            Class::MatchSequence,
            Held::Row(Row::Patterns(patterns)),
        ),
        Pattern::MatchMapping {
            keys,
            patterns,
            rest,
        } => Node::three(
            Class::MatchMapping,
            Held::Row(Row::Exprs(keys)),
            Held::Row(Row::Patterns(patterns)),
            name_held(rest),
        ),
        Pattern::MatchClass {
            cls,
            patterns,
            kwd_attrs,
            kwd_patterns,
        } => Node::four(
            Class::MatchClass,
            Held::Expr(cls),
            Held::Row(Row::Patterns(patterns)),
            Held::Row(Row::Names(kwd_attrs)),
            Held::Row(Row::Patterns(kwd_patterns)),
        ),
        Pattern::MatchStar { name } => Node::one(Class::MatchStar, name_held(name)),
        Pattern::MatchAs { pattern, name } => Node::two(
            Class::MatchAs,
            pattern_held(pattern),
            name_held(name),
        ),
        Pattern::MatchOr { patterns } => Node::one(
            Class::MatchOr,
            Held::Row(Row::Patterns(patterns)),
        ),
    }
}

/// The field of a pattern that may be absent.
fn pattern_held<'a>(p: &'a Option<Box<Pattern>>) -> Held<'a>
    ensures { (version : AnyVersion) → (rest : Things)
        → with_held version result rest ≡ pattern_field (optional_pattern (boxed_pattern_of p.now)) rest }
{
    match p {
        None => Held::LeftOut,
        Some(p) => Held::Pattern(p),
    }
}

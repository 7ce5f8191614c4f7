//! A node as a dump shows it: what begins it, and its fields.

ghost use Rattle.std.specs.Prelude.{◌≡◌, true};
ghost use Rattle.pytree_dump_text.specs.Slots.{is_missing, slot_of, with_slot};
ghost use Rattle.pytree_dump_text.specs.Shows.{no_field};
ghost use Rattle.pytree_dump.specs.Inner.Nodes.{Describes, any_slot};

use pytree_dump_text::{Field, Part, Style, is_absent, is_short_one, is_short_three, is_short_two};
use pytree_node::Pattern;

/// A field of a node of any class, with its name, or a field that is left out.
#[derive(Clone, Copy)]
pub(crate) enum AnyPart<'a> {
    /// One that an expression may have.
    Part(Part<'a>),
    Pattern(Field, &'a Pattern),
    Patterns(Field, &'a [Pattern]),
}

impl<'a> AnyPart<'a> {
    /// Whether a field is left out.
    #[inline(always)]
    pub fn is_absent(self) -> bool
        ensures { result ≡ is_missing (any_slot self.entry) }
    {
        match self {
            AnyPart::Part(part) => is_absent(part),
            _ => false,
        }
    }
}

/// A node: what begins it, its class and the bracket, and its fields.
#[derive(Clone, Copy)]
pub(crate) struct Node<'a> {
    pub class: &'static str,
    /// Its fields, which come first, and others that don't count.
    pub parts: [AnyPart<'a>; 4],
    /// How many fields it has.
    pub len: usize,
    /// Whether it stands on one line where no node has a place.
    pub is_short: bool,
    /// Whether it may have a place.
    pub is_marked: bool,
}

impl<'a> Node<'a> {
    /// A node of one field.
    #[inline(always)]
    pub fn one(style: Style, class: &'static str, a: Part<'a>) -> Node<'a>
        ensures { Describes true style result class.now (with_slot (slot_of a.entry) no_field) }
    {
        Node {
            class,
            parts: [
                AnyPart::Part(a),
                AnyPart::Part(Part::LeftOut),
                AnyPart::Part(Part::LeftOut),
                AnyPart::Part(Part::LeftOut),
            ],
            len: 1,
            is_short: is_short_one(style, a),
            is_marked: true,
        }
    }

    /// A node of two fields.
    #[inline(always)]
    pub fn two(style: Style, class: &'static str, a: Part<'a>, b: Part<'a>) -> Node<'a>
        ensures { Describes true style result class.now
            (with_slot (slot_of a.entry) (with_slot (slot_of b.entry) no_field)) }
    {
        Node {
            class,
            parts: [
                AnyPart::Part(a),
                AnyPart::Part(b),
                AnyPart::Part(Part::LeftOut),
                AnyPart::Part(Part::LeftOut),
            ],
            len: 2,
            is_short: is_short_two(style, a, b),
            is_marked: true,
        }
    }

    /// A node of three fields.
    #[inline(always)]
    pub fn three(
        style: Style,
        class: &'static str,
        a: Part<'a>,
        b: Part<'a>,
        c: Part<'a>,
    ) -> Node<'a>
        ensures { Describes true style result class.now
            (with_slot (slot_of a.entry)
            (with_slot (slot_of b.entry) (with_slot (slot_of c.entry) no_field))) }
    {
        Node {
            class,
            parts: [
                AnyPart::Part(a),
                AnyPart::Part(b),
                AnyPart::Part(c),
                AnyPart::Part(Part::LeftOut),
            ],
            len: 3,
            is_short: is_short_three(style, a, b, c),
            is_marked: true,
        }
    }
}

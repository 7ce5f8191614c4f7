//! A node: its class and what its fields hold.

ghost use Rattle.std.specs.Prelude.{◌≡◌, ◌≤◌};
ghost use Rattle.pytree_node.specs.declared.profiles.Version.{Version};
ghost use Rattle.pytree_fields.specs.LentThings.{node_thing, with_held};
ghost use Rattle.pytree_fields.specs.Things.{Node as NodeThing, no_thing};

use crate::classes::Class;
use crate::held::Held;

/// A node: its class and what its fields hold.
#[derive(Clone, Copy)]
pub struct Node<'a> {
    pub class: Class,
    /// What its fields hold, which come first, and others that don't count.
    pub held: [Held<'a>; 7],
    /// How many fields it has.
    pub len: usize,
}

impl<'a> Node<'a> {
    /// A node of no field.
    #[inline(always)]
    pub(crate) fn none(class: Class) -> Node<'a>
        ensures thing { (version : Version) → node_thing version result ≡ NodeThing class no_thing }
        ensures class { result.class ≡ class }
        ensures len { result.len ≡ 0 }
    {
        Node {
            class,
            held: [
                Held::LeftOut,
                Held::LeftOut,
                Held::LeftOut,
                Held::LeftOut,
                Held::LeftOut,
                Held::LeftOut,
                Held::LeftOut,
            ],
            len: 0,
        }
    }

    /// A node of one field.
    #[inline(always)]
    pub(crate) fn one(class: Class, a: Held<'a>) -> Node<'a>
        ensures thing { (version : Version) → node_thing version result ≡ NodeThing class (with_held version a.entry no_thing) }
        ensures class { result.class ≡ class }
        ensures len { result.len ≡ 1 }
    {
        Node {
            class,
            held: [
                a,
                Held::LeftOut,
                Held::LeftOut,
                Held::LeftOut,
                Held::LeftOut,
                Held::LeftOut,
                Held::LeftOut,
            ],
            len: 1,
        }
    }

    /// A node of two fields.
    #[inline(always)]
    pub(crate) fn two(class: Class, a: Held<'a>, b: Held<'a>) -> Node<'a>
        ensures thing { (version : Version) → node_thing version result ≡ NodeThing class (with_held version a.entry (with_held version b.entry no_thing)) }
        ensures class { result.class ≡ class }
        ensures len { result.len ≡ 2 }
    {
        Node {
            class,
            held: [
                a,
                b,
                Held::LeftOut,
                Held::LeftOut,
                Held::LeftOut,
                Held::LeftOut,
                Held::LeftOut,
            ],
            len: 2,
        }
    }

    /// A node of three fields.
    #[inline(always)]
    pub(crate) fn three(class: Class, a: Held<'a>, b: Held<'a>, c: Held<'a>) -> Node<'a>
        ensures thing { (version : Version) → node_thing version result ≡ NodeThing class (with_held version a.entry (with_held version b.entry (with_held version c.entry no_thing))) }
        ensures class { result.class ≡ class }
        ensures len { result.len ≡ 3 }
    {
        Node {
            class,
            held: [
                a,
                b,
                c,
                Held::LeftOut,
                Held::LeftOut,
                Held::LeftOut,
                Held::LeftOut,
            ],
            len: 3,
        }
    }

    /// A node of four fields.
    #[inline(always)]
    pub(crate) fn four(class: Class, a: Held<'a>, b: Held<'a>, c: Held<'a>, d: Held<'a>) -> Node<'a>
        ensures thing { (version : Version) → node_thing version result ≡ NodeThing class (with_held version a.entry (with_held version b.entry (with_held version c.entry (with_held version d.entry no_thing)))) }
        ensures class { result.class ≡ class }
        ensures len { result.len ≡ 4 }
    {
        Node {
            class,
            held: [a, b, c, d, Held::LeftOut, Held::LeftOut, Held::LeftOut],
            len: 4,
        }
    }

    /// A node of five fields.
    #[inline(always)]
    pub(crate) fn five(
        class: Class,
        a: Held<'a>,
        b: Held<'a>,
        c: Held<'a>,
        d: Held<'a>,
        e: Held<'a>,
    ) -> Node<'a>
        ensures thing { (version : Version) → node_thing version result ≡ NodeThing class (with_held version a.entry (with_held version b.entry (with_held version c.entry (with_held version d.entry (with_held version e.entry no_thing))))) }
        ensures class { result.class ≡ class }
        ensures len { result.len ≡ 5 }
    {
        Node {
            class,
            held: [a, b, c, d, e, Held::LeftOut, Held::LeftOut],
            len: 5,
        }
    }

    /// A node of six fields.
    #[inline(always)]
    pub(crate) fn six(
        class: Class,
        a: Held<'a>,
        b: Held<'a>,
        c: Held<'a>,
        d: Held<'a>,
        e: Held<'a>,
        f: Held<'a>,
    ) -> Node<'a>
        ensures thing { (version : Version) → node_thing version result ≡ NodeThing class (with_held version a.entry (with_held version b.entry (with_held version c.entry (with_held version d.entry (with_held version e.entry (with_held version f.entry no_thing)))))) }
        ensures class { result.class ≡ class }
        ensures len { result.len ≡ 6 }
    {
        Node {
            class,
            held: [a, b, c, d, e, f, Held::LeftOut],
            len: 6,
        }
    }

    /// A node of seven fields.
    #[inline(always)]
    pub(crate) fn seven(
        class: Class,
        a: Held<'a>,
        b: Held<'a>,
        c: Held<'a>,
        d: Held<'a>,
        e: Held<'a>,
        f: Held<'a>,
        g: Held<'a>,
    ) -> Node<'a>
        ensures thing { (version : Version) → node_thing version result ≡ NodeThing class (with_held version a.entry (with_held version b.entry (with_held version c.entry (with_held version d.entry (with_held version e.entry (with_held version f.entry (with_held version g.entry no_thing))))))) }
        ensures class { result.class ≡ class }
        ensures len { result.len ≡ 7 }
    {
        Node {
            class,
            held: [a, b, c, d, e, f, g],
            len: 7,
        }
    }
}

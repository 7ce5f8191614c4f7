//! The nodes of statements, and the lists that stand in them: what they have more than those of
//! expressions.

ghost use Rattle.std.specs.Prelude.{◌≡◌, ◌+◌, ◌<◌, ◌∷◌, drop, true};
ghost use Rattle.pytree_node.specs.declared.profiles.Profile.{Profile};
ghost use Rattle.pytree_dump_text.specs.declared.styles.Style.{Style};
ghost use Rattle.pytree_dump_text.specs.Shows.{no_field};
ghost use Rattle.pytree_dump_text.specs.Slots.{slot_of, with_slot};
ghost use Rattle.pytree_dump.specs.Inner.Branches.{BranchShows, DescribesBranch, branch_shown, branches_len, branches_shown};

use crate::compounds::{case_node, handler_node};
use crate::nodes::AnyPart;
use crate::statements::stmt_node;
use pytree_dump_text::{
    Field, Part, Style, is_short_four, is_short_one, is_short_three, is_short_two,
};
use pytree_node::{Case, Handler, Stmt};

/// A part of a tree that is a statement or has statements below it.
#[derive(Clone, Copy)]
pub(crate) enum Branch<'a> {
    Stmt(&'a Stmt),
    Handler(&'a Handler),
    Case(&'a Case),
}

/// A list of such parts.
#[derive(Clone, Copy)]
pub(crate) enum Branches<'a> {
    Stmts(&'a [Stmt]),
    Handlers(&'a [Handler]),
    Cases(&'a [Case]),
}

/// A field of a node with such lists, with its name, or a field that is left out.
#[derive(Clone, Copy)]
pub(crate) enum BranchPart<'a> {
    Any(AnyPart<'a>),
    Branches(Field, Branches<'a>),
}

/// A field that is left out.
pub(crate) const LEFT_OUT: BranchPart<'static> = BranchPart::Any(AnyPart::Part(Part::LeftOut));

/// A node with such lists: what begins it, its class and the bracket, and its fields.
#[derive(Clone, Copy)]
pub(crate) struct BranchNode<'a> {
    pub class: &'static str,
    /// Its fields, which come first, and others that don't count.
    pub parts: [BranchPart<'a>; 7],
    /// How many fields it has.
    pub len: usize,
    /// Whether it stands on one line where no node has a place.
    pub is_short: bool,
    /// Whether it may have a place.
    pub is_marked: bool,
}

impl<'a> BranchNode<'a> {
    /// A node without fields.
    #[inline(always)]
    pub fn none(class: &'static str) -> BranchNode<'a>
        ensures { (style : Style) → DescribesBranch true style result class.now no_field }
    {
        BranchNode {
            class,
            parts: [
                LEFT_OUT, LEFT_OUT, LEFT_OUT, LEFT_OUT, LEFT_OUT, LEFT_OUT, LEFT_OUT,
            ],
            len: 0,
            is_short: true,
            is_marked: true,
        }
    }

    /// A node of one field, without lists as above.
    #[inline(always)]
    pub fn one(style: Style, class: &'static str, a: Part<'a>) -> BranchNode<'a>
        ensures { DescribesBranch true style result class.now (with_slot (slot_of a.entry) no_field) }
    {
        BranchNode {
            class,
            parts: [
                BranchPart::Any(AnyPart::Part(a)),
                LEFT_OUT,
                LEFT_OUT,
                LEFT_OUT,
                LEFT_OUT,
                LEFT_OUT,
                LEFT_OUT,
            ],
            len: 1,
            is_short: is_short_one(style, a),
            is_marked: true,
        }
    }

    /// A node of two fields, without lists as above.
    #[inline(always)]
    pub fn two(style: Style, class: &'static str, a: Part<'a>, b: Part<'a>) -> BranchNode<'a>
        ensures { DescribesBranch true style result class.now
            (with_slot (slot_of a.entry) (with_slot (slot_of b.entry) no_field)) }
    {
        BranchNode {
            class,
            parts: [
                BranchPart::Any(AnyPart::Part(a)),
                BranchPart::Any(AnyPart::Part(b)),
                LEFT_OUT,
                LEFT_OUT,
                LEFT_OUT,
                LEFT_OUT,
                LEFT_OUT,
            ],
            len: 2,
            is_short: is_short_two(style, a, b),
            is_marked: true,
        }
    }

    /// A node of three fields, without lists as above.
    #[inline(always)]
    pub fn three(
        style: Style,
        class: &'static str,
        a: Part<'a>,
        b: Part<'a>,
        c: Part<'a>,
    ) -> BranchNode<'a>
        ensures { DescribesBranch true style result class.now
            (with_slot (slot_of a.entry)
            (with_slot (slot_of b.entry) (with_slot (slot_of c.entry) no_field))) }
    {
        BranchNode {
            class,
            parts: [
                BranchPart::Any(AnyPart::Part(a)),
                BranchPart::Any(AnyPart::Part(b)),
                BranchPart::Any(AnyPart::Part(c)),
                LEFT_OUT,
                LEFT_OUT,
                LEFT_OUT,
                LEFT_OUT,
            ],
            len: 3,
            is_short: is_short_three(style, a, b, c),
            is_marked: true,
        }
    }

    /// A node of four fields, without lists as above.
    #[inline(always)]
    pub fn four(
        style: Style,
        class: &'static str,
        a: Part<'a>,
        b: Part<'a>,
        c: Part<'a>,
        d: Part<'a>,
    ) -> BranchNode<'a>
        ensures { DescribesBranch true style result class.now
            (with_slot (slot_of a.entry)
            (with_slot (slot_of b.entry)
            (with_slot (slot_of c.entry) (with_slot (slot_of d.entry) no_field)))) }
    {
        BranchNode {
            class,
            parts: [
                BranchPart::Any(AnyPart::Part(a)),
                BranchPart::Any(AnyPart::Part(b)),
                BranchPart::Any(AnyPart::Part(c)),
                BranchPart::Any(AnyPart::Part(d)),
                LEFT_OUT,
                LEFT_OUT,
                LEFT_OUT,
            ],
            len: 4,
            is_short: is_short_four(style, a, b, c, d),
            is_marked: true,
        }
    }
}

impl<'a> Branch<'a> {
    /// The node.
    #[inline(always)]
    pub fn node(self, style: Style) -> BranchNode<'a>
        ensures { BranchShows style result (branch_shown style.profile self.entry) }
    {
        match self {
            Branch::Stmt(s) => stmt_node(style, s),
            Branch::Handler(h) => handler_node(style, h),
            Branch::Case(c) => case_node(style, c),
        }
    }
}

impl<'a> Branches<'a> {
    /// How many there are.
    #[inline(always)]
    pub fn len(self) -> usize
        ensures { result ≡ branches_len self.entry }
    {
        match self {
            Branches::Stmts(all) => all.len(),
            Branches::Handlers(all) => all.len(),
            Branches::Cases(all) => all.len(),
        }
    }

    /// One of them.
    #[inline(always)]
    pub fn at(self, i: usize) -> Branch<'a>
        requires { i < branches_len self }
        ensures { (p : Profile) → drop i (branches_shown p self.entry)
            ≡ branch_shown p result ∷ drop (i + 1) (branches_shown p self.entry) }
    {
        match self {
            Branches::Stmts(all) => Branch::Stmt(&all[i]),
            Branches::Handlers(all) => Branch::Handler(&all[i]),
            Branches::Cases(all) => Branch::Case(&all[i]),
        }
    }
}

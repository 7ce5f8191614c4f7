//! The dump of a module, in pieces.

ghost use Rattle.std.specs.Prelude.{◌≡◌, ◌+◌, ◌++◌, ◌<◌, ◌∷◌, [], ℕ, List, true, false, length};
ghost use Rattle.std.specs.Prelude.{IfOk, OnOk};
ghost use Rattle.std.specs.List.{concat};
ghost use Rattle.std.specs.String.{string_bytes};
ghost use Rattle.pytree_dump_text.specs.Layout.{dump_text};
ghost use Rattle.pytree_dump_text.specs.Shows.{shown_module};
ghost use Rattle.pytree_node.specs.TreeOf.{module_of};
ghost use Rattle.pytree_marked.specs.MarkedNodes.{with_places};

use crate::blocks::show_stmt;
use crate::nodes::AnyPart;
use crate::showing::show_any_field;
use pytree_dump_text::{
    Field, Part, Style, Told, is_flat, is_short_module, open, push_before, push_lead,
};
use pytree_marked::{NoPlaces, PlaceSource};
use pytree_node::{Module, Stmt};
use std::alloc::{AllocError, Global};
use std::marker::Model;

/// Where the pieces of a dump stand.
#[derive(Clone, Copy)]
enum PieceState {
    /// Before all of them.
    Begin,
    /// At a statement, the first of the module or a later one, or after the last.
    Statements { first: bool },
    /// After all of them.
    Done,
}

/// The dump text of a module with the places of its nodes, in pieces that are still to come: what
/// begins it, each statement, what ends it.
///
/// So the text need not be held whole. A piece is made when it is asked for.
#[derive(Drop)]
pub struct PlacedPieces<'a, P: PlaceSource> {
    style: Style,
    stage: PieceState,
    /// The statements that are still to come.
    body: &'a [Stmt],
    /// What begins the text.
    begin: String,
    /// What ends it.
    end: String,
    /// The indentation of a statement's line.
    indentation: String,
    /// The places that are left.
    places: P,
}

impl<'a, P: PlaceSource> Model for PlacedPieces<'a, P> {
    ghost use Rattle.std.specs.Prelude.{ℕ, List};
    ghost use Rattle.std.specs.String.{string_bytes};

    ghost Value = { List (List ℕ) };

    ghost use Rattle.pytree_dump.specs.Inner.Pieces.{staged_pieces};

    ghost view = { λ p. staged_pieces p.style (string_bytes p.indentation) (string_bytes p.begin)
        (string_bytes p.end) p.body.now p.stage (P.left p.places) };
}

impl<'a, P: PlaceSource> PlacedPieces<'a, P> {
    /// All pieces of a module's dump text, with places that are taken as
    /// [`dump_placed`](crate::dump_placed) takes them.
    pub fn new(
        alloc: Global,
        tree: &'a Module,
        style: Style,
        places: P,
    ) -> Result<PlacedPieces<'a, P>, AllocError>
    where
        P: Drop,
        ensures text { IfOk result (λ pieces. concat pieces ≡ dump_text style
            (with_places (P.left places) (shown_module style.profile (module_of tree.now))).shown) }
        ensures count { IfOk result (λ pieces. length pieces ≡ length tree.now.body.items + 2) }
    {
        let body: &[Stmt] = &tree.body;
        let one_line = is_short_module(style, body);
        let named = style.names;
        let mut begin = String::new(alloc);
        let mut end = String::new(alloc);
        let mut indentation = String::from_str(alloc, "\n")?;
        let _ = open(&mut begin, &mut indentation, style, "Module(")?;
        let told = Told {
            one_line,
            named,
            first: true,
        };
        push_lead(&mut begin, indentation.as_str(), told, Field::Body)?;
        end.push_str("]")?;
        let told = Told {
            one_line,
            named,
            first: false,
        };
        show_any_field(
            &mut end,
            &mut indentation,
            style,
            told,
            AnyPart::Part(Part::Names(Field::TypeIgnores, &[])),
            &mut NoPlaces,
        )?;
        end.push_str(")")?;
        let _ = open(&mut begin, &mut indentation, style, "[")?;
        Ok(PlacedPieces {
            style,
            stage: PieceState::Begin,
            body,
            begin,
            end,
            indentation,
            places,
        })
    }

    /// Appends the next piece, and tells whether there was one. After an error nothing is said of
    /// the text.
    #[inline(always)]
    pub fn push_next(&mut self, out: &mut String) -> Result<bool, AllocError>
        ensures text { OnOk result
            (string_bytes out.new ++ concat self.new ≡ string_bytes out.old ++ concat self.old) }
        ensures fewer { IfOk result (λ more. more ≡ true → length self.new < length self.old) }
        ensures end { IfOk result (λ more. more ≡ false → self.new ≡ []) }
        ensures none { IfOk result (λ more. more ≡ false → self.old ≡ []) }
        ensures next { IfOk result (λ more. more ≡ true → (piece : List ℕ)
            × (self.old ≡ piece ∷ self.new)
            × (string_bytes out.new ≡ string_bytes out.old ++ piece)) }
    {
        match self.stage {
            PieceState::Begin => {
                out.push_str(self.begin.as_str())?;
                self.stage = PieceState::Statements { first: true };
                Ok(true)
            }
            PieceState::Statements { first } => {
                match self.body.split_first() {
                    Some((s, rest)) => {
                        push_before(out, self.indentation.as_str(), is_flat(self.style), first)?;
                        show_stmt(out, &mut self.indentation, self.style, s, &mut self.places)?;
                        self.body = rest;
                        self.stage = PieceState::Statements { first: false };
                    }
                    None => {
                        out.push_str(self.end.as_str())?;
                        self.stage = PieceState::Done;
                    }
                }
                Ok(true)
            }
            PieceState::Done => Ok(false),
        }
    }
}

/// The dump text of a module, in pieces that are still to come: what begins it, each statement,
/// what ends it.
///
/// So the text need not be held whole. A piece is made when it is asked for.
#[derive(Drop)]
pub struct Pieces<'a> {
    bare: PlacedPieces<'a, NoPlaces>,
}

impl<'a> Model for Pieces<'a> {
    ghost use Rattle.std.specs.Prelude.{ℕ, List};

    ghost Value = { List (List ℕ) };

    ghost view = { λ p. p.bare };
}

impl<'a> Pieces<'a> {
    /// All pieces of a module's dump text.
    pub fn new(alloc: Global, tree: &'a Module, style: Style) -> Result<Pieces<'a>, AllocError>
        ensures text { IfOk result
            (λ pieces. concat pieces
            ≡ dump_text style (shown_module style.profile (module_of tree.now))) }
        ensures count { IfOk result (λ pieces. length pieces ≡ length tree.now.body.items + 2) }
    {
        let bare = PlacedPieces::new(alloc, tree, style, NoPlaces)?;
        Ok(Pieces { bare })
    }

    /// Appends the next piece, and tells whether there was one. After an error nothing is said of
    /// the text.
    pub fn push_next(&mut self, out: &mut String) -> Result<bool, AllocError>
        ensures text { OnOk result
            (string_bytes out.new ++ concat self.new ≡ string_bytes out.old ++ concat self.old) }
        ensures fewer { IfOk result (λ more. more ≡ true → length self.new < length self.old) }
        ensures end { IfOk result (λ more. more ≡ false → self.new ≡ []) }
        ensures none { IfOk result (λ more. more ≡ false → self.old ≡ []) }
        ensures next { IfOk result (λ more. more ≡ true → (piece : List ℕ)
            × (self.old ≡ piece ∷ self.new)
            × (string_bytes out.new ≡ string_bytes out.old ++ piece)) }
    {
        self.bare.push_next(out)
    }
}

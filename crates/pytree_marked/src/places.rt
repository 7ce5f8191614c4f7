//! Places that are taken one after the other.

ghost use Rattle.std.specs.Prelude.{◌≡◌, List, [], map, true};
ghost use Rattle.std.specs.Option.{option_map};
ghost use Rattle.pytree_marked.specs.MarkedNodes.{Attributes, following};
ghost use Rattle.pytree_marked.specs.Taking.{attributes, first_left, is_none_left};

use crate::shown::Shown;

/// The places of a tree's nodes, which a dump takes one after the other, or none.
pub trait PlaceSource {
    // Those that are still to come.
    ghost left: { Self → List Attributes };

    /// Whether none is left.
    fn is_done(&self) -> bool
        ensures { result ≡ is_none_left (left self.now) };

    /// Takes the next place, where one is left.
    fn next(&mut self) -> Option<Shown>
        ensures place { option_map attributes result ≡ first_left (left self.old) }
        ensures left { left self.new ≡ following true (left self.old) };
}

/// No places.
#[derive(Drop)]
pub struct NoPlaces;

impl PlaceSource for NoPlaces {
    ghost left = { λ _. [] };

    #[inline(always)]
    fn is_done(&self) -> bool {
        true
    }

    #[inline(always)]
    fn next(&mut self) -> Option<Shown> {
        None
    }
}

/// Places that are listed.
#[derive(Drop)]
pub struct ListedPlaces<'a> {
    /// Those that are still to come.
    pub left: &'a [Shown],
}

impl<'a> PlaceSource for ListedPlaces<'a> {
    ghost left = { λ places. map attributes places.left.now };

    fn is_done(&self) -> bool {
        self.left.is_empty()
    }

    fn next(&mut self) -> Option<Shown> {
        match self.left.split_first() {
            Some((place, rest)) => {
                let place = *place;
                self.left = rest;
                Some(place)
            }
            None => None,
        }
    }
}

//! The laws of the places of a source. No function here does anything: that it can be called says
//! that its law holds.

ghost use Rattle.pyplaces.specs.Order.{SourcePlacesAreLawful};
ghost use Rattle.pyplaces.specs.Unique.{PlacesAreUnique};

/// The places of an accepted source stand in order, and a statement's holds those of what is in it.
#[tactic(auto, using(crate::proofs::Order::Law::source_places_are_lawful))]
pub fn places_are_in_order()
    ensures lawful { SourcePlacesAreLawful }
{}

/// The places of a source belong to its terminals, and not to how these were derived.
#[tactic(auto, using(crate::proofs::Unique::Law::places_are_unique))]
pub fn places_are_unique()
    ensures lawful { PlacesAreUnique }
{}

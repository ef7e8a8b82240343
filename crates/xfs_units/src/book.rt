ghost use Rattle.std.specs.Prelude.{◌≡◌, ℕ, [], ◌∷◌, ◌↔◌, IsTrue};
ghost use Rattle.xfs_base.specs.Counts.{LiesIn};
ghost use Rattle.xfs_mech.specs.declared.motion.Motion.TheVariants.{Moved, Taken, Loaded};
ghost use Rattle.xfs_mech.specs.Mechanism.{PlacesFit, CanLoad};
ghost use Rattle.xfs_mech.specs.Motions.{PlacesOf};
ghost use Rattle.xfs_mech.specs.Sums.{Adds};
ghost use Rattle.xfs_units.specs.Books.{LieThere};

use std::marker::Model;
use xfs_base::{Kind, Places, UnitTable};
use xfs_mech::{Outcome, after_loading, after_order, after_taking, can_load};

/// The six places of notes. Each move gives the places that its one entry of the mechanism's list
/// leads to. None takes memory.
#[derive(Debug, Drop)]
pub struct Book {
    units: UnitTable,
    places: Places,
}

impl Model for Book {
    ghost use Rattle.xfs_units.specs.Books.{Holding, IsKept};

    ghost Value = { Holding };

    ghost view = { λ b. record { units = b.units; places = b.places } };

    ghost invariant = { λ b. IsKept b.units b.places };
}

impl Book {
    /// Over these units, with these notes in their places.
    pub fn new(units: UnitTable, places: Places) -> Book
        requires { PlacesFit units places }
        ensures units { result.units ≡ units }
        ensures places { result.places ≡ places }
    {
        prove!(units.len() <= 8);
        Book { units, places }
    }

    /// An order was carried out, in full or in part.
    pub fn apply(&mut self, kind: Kind, outcome: &Outcome)
        requires lie { LieThere kind outcome.now.moved outcome.now.diverted self.old.places }
        ensures moved { (number : ℕ) → PlacesOf self.old.places (Moved number kind outcome.now.moved outcome.now.diverted ∷ []) self.new.places }
        ensures adds { (number : ℕ) → Adds self.old.places (Moved number kind outcome.now.moved outcome.now.diverted ∷ []) self.new.places }
        ensures units { self.new.units ≡ self.old.units }
    {
        self.places = after_order(&self.places, kind, &outcome.moved, &outcome.diverted);
    }

    /// The customer took notes from the outlet.
    pub fn take(&mut self, outcome: &Outcome)
        requires lie { LiesIn outcome.now.moved self.old.places.outlet }
        ensures moved { PlacesOf self.old.places (Taken outcome.now.moved ∷ []) self.new.places }
        ensures adds { Adds self.old.places (Taken outcome.now.moved ∷ []) self.new.places }
        ensures units { self.new.units ≡ self.old.units }
    {
        self.places = after_taking(&self.places, &outcome.moved);
    }

    /// The operator added so many notes to a unit, which counts from 1.
    pub fn load(&mut self, unit: u8, count: u32)
        requires room { CanLoad self.old.units self.old.places unit count }
        ensures moved { PlacesOf self.old.places (Loaded unit count ∷ []) self.new.places }
        ensures adds { Adds self.old.places (Loaded unit count ∷ []) self.new.places }
        ensures units { self.new.units ≡ self.old.units }
    {
        self.places = after_loading(&self.places, unit, count);
    }

    /// Where the notes lie.
    pub fn places(&self) -> Places
        ensures places { result ≡ self.now.places }
        ensures fit { PlacesFit self.now.units self.now.places }
    {
        self.places
    }

    /// Whether the unit is in the table, and the limits hold once so many notes were added to it:
    /// at most 10,000 notes in a unit, and 4,000,000,000 of it over the six places.
    pub fn room(&self, unit: u8, count: u32) -> bool
        ensures { IsTrue result ↔ CanLoad self.now.units self.now.places unit count }
    {
        can_load(&self.units, &self.places, unit, count)
    }
}

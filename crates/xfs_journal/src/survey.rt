ghost use Rattle.std.specs.Prelude.{◌≡◌, IfOk};

use std::alloc::{AllocError, Global};
use std::marker::Model;
use xfs_base::Places;

/// Where the notes lay, in a box, so that a record of another kind takes no memory for it. Contracts see the places.
#[derive(Debug, Drop)]
pub struct Survey {
    places: Box<Places>,
}

impl Model for Survey {
    ghost use Rattle.xfs_base.specs.declared.counts.Places.{Places};

    ghost Value = { Places };

    ghost view = { λ s. s.places.value };
}

impl Survey {
    /// Puts places into a box.
    pub fn new(alloc: Global, places: Places) -> Result<Survey, AllocError>
        ensures { IfOk result (λ s. s ≡ places) }
    {
        Ok(Survey {
            places: Box::new(alloc, places)?,
        })
    }

    /// The places.
    pub fn places(&self) -> &Places
        ensures { result.now ≡ self.now }
    {
        &self.places
    }

    /// Puts other places in their stead. It takes no memory.
    pub fn set(&mut self, places: Places)
        ensures { self.new ≡ places }
    {
        *self.places = places;
    }
}

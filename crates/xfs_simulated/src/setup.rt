ghost use Rattle.std.specs.Prelude.{◌≡◌, IfOk};
ghost use Rattle.xfs_simulated.specs.Setups.{fixed_setup, quiet_setup, setup_of};

use crate::news::{card_news, key_news};
use std::alloc::Global;
use xfs_base::Memory;
use xfs_mech::{Fault, Touch};

/// What a bench is set up with.
#[derive(Drop)]
pub struct Setup {
    /// The first of its four ports; the standard's where there is none.
    pub first_port: Option<u16>,
    /// What befalls the card slot.
    pub cards: Vec<Touch>,
    /// What befalls the key pad.
    pub keys: Vec<Touch>,
    /// The mechanism's faults to come.
    pub faults: Vec<Fault>,
    /// The places, from 1, of the calls of the disk in memory that fail.
    pub failing: Vec<u64>,
}

impl Setup {
    /// Nobody comes, and nothing fails.
    pub fn quiet(alloc: Global) -> Setup
        ensures { setup_of result ≡ quiet_setup }
    {
        Setup {
            first_port: None,
            cards: Vec::new(alloc),
            keys: Vec::new(alloc),
            faults: Vec::new(alloc),
            failing: Vec::new(alloc),
        }
    }

    /// 100 cards and 100 entries come, and nothing fails.
    pub fn fixed(alloc: Global) -> Result<Setup, Memory>
        ensures { IfOk result (λ setup. setup_of setup ≡ fixed_setup) }
    {
        Ok(Setup {
            first_port: None,
            cards: card_news(alloc)?,
            keys: key_news(alloc)?,
            faults: Vec::new(alloc),
            failing: Vec::new(alloc),
        })
    }
}

//! What befalls the card slot and the key pad of the simulated machine: fixed lists.

ghost use Rattle.std.specs.Prelude.{◌≡◌, IfOk};
ghost use Rattle.xfs_simulated.specs.News.{card, entries, visits};

use std::alloc::Global;
use xfs_base::Memory;
use xfs_mech::{KeyName, Touch, Tracks};

// How many cards are put in.
const VISITS: u32 = 100;

// How many entries are typed.
const ENTRIES: u32 = 100;

// The second track of every card.
const TRACK: &[u8] = b";1234";

/// 100 cards are put in, one after the other, and each is taken again: the slot is empty at the end.
pub fn card_news(alloc: Global) -> Result<Vec<Touch>, Memory>
    ensures { IfOk result (λ touches. touches.items ≡ visits 100) }
{
    let mut touches = Vec::new(alloc);
    for _ in 0..VISITS {
        touches.push(Touch::CardIn(card(alloc)?))?;
        touches.push(Touch::CardTaken)?;
    }
    Ok(touches)
}

/// 100 times the keys one, two, three and four, and enter at the end.
pub fn key_news(alloc: Global) -> Result<Vec<Touch>, Memory>
    ensures { IfOk result (λ touches. touches.items ≡ entries 100) }
{
    let mut touches = Vec::new(alloc);
    for _ in 0..ENTRIES {
        touches.push(Touch::Key(KeyName::One))?;
        touches.push(Touch::Key(KeyName::Two))?;
        touches.push(Touch::Key(KeyName::Three))?;
        touches.push(Touch::Key(KeyName::Four))?;
        touches.push(Touch::Key(KeyName::Enter))?;
    }
    Ok(touches)
}

// A card with its second track alone.
fn card(alloc: Global) -> Result<Tracks, Memory>
    ensures { IfOk result (λ tracks. tracks ≡ card) }
{
    let track = Vec::from_slice(alloc, TRACK)?;
    Tracks::new(None, Some(track), None).ok_or(Memory)
}

//! The frames of events and announcements.

ghost use Rattle.std.specs.Prelude.{◌≡◌, Some, codes, IfOk};
ghost use Rattle.serde_json.specs.Data.{string};
ghost use Rattle.xfs_common.specs.Payloads.{nothing, only};
ghost use Rattle.xfs_traffic.specs.Jobs.{how_ended};
ghost use Rattle.xfs_mech.specs.Keys.{name_of};
ghost use Rattle.xfs_model.specs.Frames.{Announces, IsEvent, IsRemoval, ending_text};

use crate::job::Ending;
use serde_json::json;
use std::alloc::Global;
use xfs_base::{Bytes, Memory};
use xfs_common::nothing;
use xfs_envelope::{event, unsolicited};
use xfs_mech::KeyName;

/// A live nonce ended so.
pub fn nonce_ended(alloc: Global, ending: Ending) -> Result<Bytes, Memory>
    ensures { IfOk result (λ f. Announces (Some (how_ended ending)) (Some f)) }
{
    let reason = ending_text(ending);
    let payload = json!(in alloc; {"reasonDescription": reason})?;
    Ok(Bytes::new(unsolicited(alloc, "Common.NonceClearedEvent", &payload)?))
}

fn ending_text(ending: Ending) -> &'static str
    ensures { result.now ≡ ending_text (how_ended ending) }
{
    match ending {
        Ending::Cleared => "cleared",
        Ending::Reset => "reset",
        Ending::Expired => "expired",
    }
}

/// A card was taken from the exit.
pub(crate) fn card_removed(alloc: Global) -> Result<Bytes, Memory>
    ensures { IfOk result IsRemoval }
{
    Ok(Bytes::new(unsolicited(alloc, "CardReader.MediaRemovedEvent", &nothing(alloc))?))
}

/// A Read waits for a card.
pub fn insert_card(alloc: Global, id: u64) -> Result<Bytes, Memory>
    ensures { IfOk result (λ f. IsEvent id (codes "CardReader.InsertCardEvent") nothing f) }
{
    Ok(Bytes::new(event(alloc, "CardReader.InsertCardEvent", id, &nothing(alloc))?))
}

/// The card that a Read waited for was put in.
pub(crate) fn card_inserted(alloc: Global, id: u64) -> Result<Bytes, Memory>
    ensures { IfOk result (λ f. IsEvent id (codes "CardReader.MediaInsertedEvent") nothing f) }
{
    Ok(Bytes::new(event(alloc, "CardReader.MediaInsertedEvent", id, &nothing(alloc))?))
}

/// A key was pressed that has an effect.
pub(crate) fn key_pressed(alloc: Global, id: u64, key: KeyName) -> Result<Bytes, Memory>
    ensures { IfOk result (λ f. IsEvent id (codes "Keyboard.KeyEvent") (only (codes "digit") (string (name_of key))) f) }
{
    let name = key.name();
    let payload = json!(in alloc; {"digit": name})?;
    Ok(Bytes::new(event(alloc, "Keyboard.KeyEvent", id, &payload)?))
}

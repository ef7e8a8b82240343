ghost use Rattle.std.specs.Prelude.{◌≡◌};
ghost use Rattle.serde_json.specs.View.{view};
ghost use Rattle.xfs_card.specs.Asks.{ask_of, read_ask, asked_in};

use crate::CardCommand;
use xfs_json::{Shape, Value, truth};

/// What a command asks of the card reader.
#[derive(Clone, Copy, Debug, PartialEq, Eq)]
pub enum CardAsk {
    /// The data of tracks 1, 2 and 3, of those that are asked for.
    Read { tracks: [bool; 3] },
    /// The card is moved to the exit.
    Move,
    /// The card, where there is one inside, is moved to the exit.
    Reset,
}

/// Reads the payload of a command. It is refused where it is a read's whose `track1`, `track2` and
/// `track3` aren't truth values, at least one true. It takes no memory.
pub fn read_card(command: CardCommand, payload: &Value) -> Result<CardAsk, Shape>
    ensures { result ≡ ask_of command (view payload.now) }
{
    match command {
        CardCommand::ReadRawData => read_ask(payload),
        CardCommand::Move => Ok(CardAsk::Move),
        CardCommand::Reset => Ok(CardAsk::Reset),
    }
}

fn read_ask(payload: &Value) -> Result<CardAsk, Shape>
    ensures { result ≡ read_ask (view payload.now) }
{
    let (Some(one), Some(two), Some(three)) = (
        flag_in(payload, "track1"),
        flag_in(payload, "track2"),
        flag_in(payload, "track3"),
    ) else {
        return Err(Shape);
    };
    if one || two || three {
        Ok(CardAsk::Read {
            tracks: [one, two, three],
        })
    } else {
        Err(Shape)
    }
}

fn flag_in(payload: &Value, name: &str) -> Option<bool>
    ensures { result ≡ asked_in name.now (view payload.now) }
{
    match truth(payload, name) {
        Ok(asked) => Some(asked.unwrap_or(false)),
        Err(_) => None,
    }
}

ghost use Rattle.std.specs.Prelude.{◌≡◌, ◌↔◌, IsSome, IfSome, IsTrue};
ghost use Rattle.std.specs.Option.{option_map};
ghost use Rattle.xfs_mech.specs.Tracks.{IsTrack, bytes_in, track_of};

use std::marker::Model;

/// The three tracks of a card's magnetic stripe, as their bytes. A card need not have each.
#[derive(Debug, Drop)]
pub struct Tracks {
    one: Option<Vec<u8>>,
    two: Option<Vec<u8>>,
    three: Option<Vec<u8>>,
}

impl Model for Tracks {
    ghost use Rattle.xfs_mech.specs.Tracks.{CardTracks, bytes_in};

    ghost Value = { CardTracks };

    ghost view = { λ t. record { one = bytes_in t.one; two = bytes_in t.two; three = bytes_in t.three } };
}

impl Tracks {
    /// None exactly where a list that is there hasn't 1 to 255 bytes. It takes no memory.
    pub fn new(one: Option<Vec<u8>>, two: Option<Vec<u8>>, three: Option<Vec<u8>>) -> Option<Tracks>
        ensures one { IfSome result (λ t. t.one ≡ bytes_in one) }
        ensures two { IfSome result (λ t. t.two ≡ bytes_in two) }
        ensures three { IfSome result (λ t. t.three ≡ bytes_in three) }
        ensures valid { IsSome result ↔ (IsTrack (bytes_in one) × IsTrack (bytes_in two) × IsTrack (bytes_in three)) }
    {
        if is_track(&one) && is_track(&two) && is_track(&three) {
            Some(Tracks { one, two, three })
        } else {
            None
        }
    }

    /// One track's bytes. None exactly where the card hasn't it or the number isn't 1 to 3.
    pub fn track(&self, number: u8) -> Option<&[u8]>
        ensures { option_map (λ bytes. bytes.now) result ≡ track_of self.now number }
    {
        let track = match number {
            1 => &self.one,
            2 => &self.two,
            3 => &self.three,
            _ => return None,
        };
        track.as_deref()
    }
}

fn is_track(track: &Option<Vec<u8>>) -> bool
    ensures { IsTrue result ↔ IsTrack (bytes_in track.now) }
{
    match track {
        Some(bytes) => !bytes.is_empty() && bytes.len() <= 255,
        None => true,
    }
}

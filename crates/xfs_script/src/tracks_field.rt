ghost use Rattle.std.specs.Prelude.{◌≡◌, ◌∷◌, ◌++◌, List, [], ℕ, codes, IfSome, IfNone, IfOk, Err};
ghost use Rattle.std.specs.Option.{option_map};
ghost use Rattle.std.specs.declared.option.Option.{Option};
ghost use Rattle.xfs_mech.specs.Tracks.{CardTracks};
ghost use Rattle.xfs_script.specs.Fields.{fields};
ghost use Rattle.xfs_script.specs.ReplayLines.{HasTrackFields, IsTrackField, SpellsTracks};
ghost use Rattle.xfs_script.specs.declared.guard_line.ScriptFault.TheVariants as ScriptFault;

use crate::guard_line::ScriptFault;
use crate::hex_field::bytes_of_digits;
use crate::word::{field_of, is_word, three_fields};
use std::alloc::Global;
use xfs_mech::Tracks;

// The fields of a `card in` line.
pub(crate) fn card_fields(text: &[u8]) -> Option<(&[u8], &[u8], &[u8])>
    ensures found { IfSome result (λ f. HasTrackFields text.now f.0.now f.1.now f.2.now) }
    ensures none { IfNone result ((one two three : List ℕ) → ¬ HasTrackFields text.now one two three) }
{
    let behind = field_of(text, b"card in ")?;
    three_fields(behind)
}

pub(crate) fn read_tracks(
    alloc: Global,
    one: &[u8],
    two: &[u8],
    three: &[u8],
) -> Result<Tracks, ScriptFault>
    ensures ok { IfOk result (SpellsTracks one.now two.now three.now) }
    ensures not_a_line { result ≡ Err ScriptFault.NotALine → (tracks : CardTracks) → ¬ SpellsTracks one.now two.now three.now tracks }
{
    let one = read_track(alloc, one)?;
    let two = read_track(alloc, two)?;
    let three = read_track(alloc, three)?;
    match Tracks::new(one, two, three) {
        Some(tracks) => Ok(tracks),
        None => Err(ScriptFault::NotALine),
    }
}

fn read_track(alloc: Global, field: &[u8]) -> Result<Option<Vec<u8>>, ScriptFault>
    ensures ok { IfOk result (λ track. IsTrackField field.now (option_map (λ v. v.items) track)) }
    ensures not_a_line { result ≡ Err ScriptFault.NotALine → (track : Option (List ℕ)) → ¬ IsTrackField field.now track }
{
    if is_word(field, b"-") {
        return Ok(None);
    }
    match bytes_of_digits(alloc, field) {
        Ok(Some(bytes)) => Ok(Some(bytes)),
        Ok(None) => Err(ScriptFault::NotALine),
        Err(_) => Err(ScriptFault::Memory),
    }
}

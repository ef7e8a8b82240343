ghost use Rattle.std.specs.Prelude.{◌≡◌, Some, OnOk, IfOk, option_copied};
ghost use Rattle.serde_json.specs.View.{view, members_view};
ghost use Rattle.xfs_card.specs.Tracks.{track_data, put_track, tracks_payload};

use base64::engine::general_purpose::STANDARD;
use serde_json::{Value, json, put};
use std::alloc::{AllocError, Global};
use xfs_json::Map;
use xfs_mech::Tracks;

/// The payload of a ReadRawData that asked for these tracks of the card.
pub(crate) fn tracks_payload(
    alloc: Global,
    asked: [bool; 3],
    card: &Tracks,
) -> Result<Value, AllocError>
    ensures { IfOk result (λ v. view v ≡ tracks_payload asked card.now) }
{
    let mut members = Map::new(alloc);
    put_track(&mut members, alloc, "track1", asked[0], card.track(1))?;
    put_track(&mut members, alloc, "track2", asked[1], card.track(2))?;
    put_track(&mut members, alloc, "track3", asked[2], card.track(3))?;
    Ok(Value::Object(members))
}

fn put_track(
    members: &mut Map,
    alloc: Global,
    name: &str,
    asked: bool,
    track: Option<&[u8]>,
) -> Result<(), AllocError>
    ensures { OnOk result (members_view members.new.entries ≡ put_track name.now asked (option_copied track.entry) (members_view members.old.entries)) }
{
    if asked {
        put(members, alloc, name, track_data(alloc, track)?)?;
    }
    Ok(())
}

fn track_data(alloc: Global, track: Option<&[u8]>) -> Result<Value, AllocError>
    ensures { IfOk result (λ v. view v ≡ track_data (option_copied track.entry)) }
{
    match track {
        Some(bytes) => ok_data(alloc, bytes),
        None => json!(in alloc; {"status": "dataMissing"}),
    }
}

fn ok_data(alloc: Global, bytes: &[u8]) -> Result<Value, AllocError>
    ensures { IfOk result (λ v. view v ≡ track_data (Some bytes.now)) }
{
    let data = STANDARD.encode(alloc, bytes)?;
    let mut members = Map::new(alloc);
    put(&mut members, alloc, "data", Value::String(data))?;
    put(
        &mut members,
        alloc,
        "status",
        Value::try_from_str(alloc, "ok")?,
    )?;
    Ok(Value::Object(members))
}

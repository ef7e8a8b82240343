ghost use Rattle.std.specs.Prelude.{◌≡◌, List, ℕ, IfSome, IfNone, IfOk, Err};
ghost use Rattle.xfs_script.specs.ReplayLines.{IsReplayLine, IsReplayWord, IsReplayFields};
ghost use Rattle.xfs_script.specs.declared.guard_line.ScriptFault.TheVariants as ScriptFault;
ghost use Rattle.xfs_script.specs.declared.replay_line.ReplayLine.{ReplayLine};

use crate::guard_line::{ScriptFault, read_mint};
use crate::replay_fields::{read_join, read_key, read_leave, read_moment, read_say, read_work};
use crate::token_line::bytes_of;
use crate::tracks_field::{card_fields, read_tracks};
use crate::word::{is_skipped, is_word};
use std::alloc::Global;
use xfs_base::{Bytes, Moment, Service};
use xfs_mech::{KeyName, Tracks};
use xfs_token::Amounts;

/// A line of the command `replay`: its verb with its fields. Clients have the numbers that the
/// script gives them, from 1 to 999.
#[derive(Drop)]
pub enum ReplayLine {
    /// An empty line or a comment. It has no answer.
    Skip,
    Join { client: u32, service: Service },
    Leave { client: u32 },
    /// A client says these bytes, in which each `@` stands for the last minted token.
    Say { client: u32, text: Bytes },
    /// The line `moment`: the calls that follow are made at this one.
    At(Moment),
    /// A service that isn't the publisher.
    Work(Service),
    Rest,
    CardIn(Tracks),
    CardTaken,
    CardFault,
    Key(KeyName),
    KeyFault,
    Take,
    Mint(Amounts),
    Restart,
    Show,
}

/// Reads a line of `replay`, given without its end. The allocator is for the bytes that a line holds.
pub fn read_replay(alloc: Global, text: &[u8]) -> Result<ReplayLine, ScriptFault>
    ensures ok { IfOk result (IsReplayLine text.now) }
    ensures not_a_line { result ≡ Err ScriptFault.NotALine → (line : ReplayLine) → ¬ IsReplayLine text.now line }
{
    if let Some((client, message)) = read_say(text) {
        let text = bytes_of(alloc, message)?;
        return Ok(ReplayLine::Say { client, text });
    }
    if let Some(line) = word_of(text) {
        return Ok(line);
    }
    if let Some(line) = fields_of(text) {
        return Ok(line);
    }
    let Some((one, two, three)) = card_fields(text) else {
        return Err(ScriptFault::NotALine);
    };
    let tracks = read_tracks(alloc, one, two, three)?;
    Ok(ReplayLine::CardIn(tracks))
}

// The lines that have no fields.
fn word_of(text: &[u8]) -> Option<ReplayLine>
    ensures found { IfSome result (IsReplayLine text.now) }
    ensures none { IfNone result ((line : ReplayLine) → ¬ IsReplayWord text.now line) }
{
    if is_skipped(text) {
        return Some(ReplayLine::Skip);
    }
    if is_word(text, b"rest") {
        return Some(ReplayLine::Rest);
    }
    if is_word(text, b"card taken") {
        return Some(ReplayLine::CardTaken);
    }
    if is_word(text, b"card fault") {
        return Some(ReplayLine::CardFault);
    }
    if is_word(text, b"key fault") {
        return Some(ReplayLine::KeyFault);
    }
    if is_word(text, b"take") {
        return Some(ReplayLine::Take);
    }
    if is_word(text, b"restart") {
        return Some(ReplayLine::Restart);
    }
    if is_word(text, b"show") {
        return Some(ReplayLine::Show);
    }
    None
}

// The lines whose fields are numbers, names and amounts.
fn fields_of(text: &[u8]) -> Option<ReplayLine>
    ensures found { IfSome result (IsReplayLine text.now) }
    ensures none { IfNone result ((line : ReplayLine) → ¬ IsReplayFields text.now line) }
{
    if let Some((client, service)) = read_join(text) {
        return Some(ReplayLine::Join { client, service });
    }
    if let Some(client) = read_leave(text) {
        return Some(ReplayLine::Leave { client });
    }
    if let Some(moment) = read_moment(text) {
        return Some(ReplayLine::At(moment));
    }
    if let Some(service) = read_work(text) {
        return Some(ReplayLine::Work(service));
    }
    if let Some(key) = read_key(text) {
        return Some(ReplayLine::Key(key));
    }
    if let Some(amounts) = read_mint(text) {
        return Some(ReplayLine::Mint(amounts));
    }
    None
}

//! What a client hears of a lawful conversation: the calls of a desk and of a withdrawal, as they go on with what
//! was asked and heard.

ghost use Rattle.std.specs.Prelude.{◌≡◌, ◌≢◌, ◌↔◌, ◌+◌, ◌++◌, ◌∷◌, [], IsSome, IfOk, IfErr, OnErr, Ok, Err, OnOk};
ghost use Rattle.serde_json.specs.Find.{as_object};
ghost use Rattle.serde_json.specs.View.{view};
ghost use Rattle.xfs_client.specs.Commands.{IsAskable, IsCommand};
ghost use Rattle.xfs_client.specs.Desks.{GrowsBy, OfKept};
ghost use Rattle.xfs_client.specs.History.{told, told_in};
ghost use Rattle.xfs_client.specs.Hearings.{AsksOn, ComesNext, HearsOn};
ghost use Rattle.xfs_client.specs.Withdrawals.{HasHeard, KeepsTerms, OfHeard, MovesOn, RefusesFor};
ghost use Rattle.xfs_client.specs.Withdraws.{LacksOnlyNonce, WithdrawsBy};
ghost use Rattle.xfs_client.specs.History as history;
ghost use Rattle.xfs_client.specs.declared.desk.AskFault.TheVariants as AskFault;
ghost use Rattle.xfs_client.specs.declared.heard.HearFault.TheVariants as HearFault;

use crate::{AskFault, Desk, HearFault, Heard, Move, Withdrawal};
use xfs_json::Value;

/// Asks a command whose payload is an object. It is the desk's next ask, also for a service that
/// finds its text too long.
pub fn ask(desk: &mut Desk, name: &str, payload: &Value) -> Result<Vec<u8>, AskFault>
    requires command { IsAskable name.now (view payload.now) }
    requires object { IsSome (as_object (view payload.now)) }
    ensures written { IfOk result (λ t. IsCommand name.now (desk.old.asked + 1) (view payload.now) t.items) }
    ensures ids { (result ≡ Err AskFault.Ids) ↔ (desk.old.asked ≡ 2147483647) }
    ensures goes_on { IfOk result (λ t. AsksOn t.items desk.old desk.new) }
    ensures same { OnErr result (desk.new ≡ desk.old) }
{
    desk.ask(name, payload)
}

/// Hears a frame. Where it is the next frame of a lawful conversation whose texts are the first of
/// those that the desk asked, only want of memory keeps it from being heard.
pub fn hear(desk: &mut Desk, frame: &[u8]) -> Result<Heard, HearFault>
    ensures ok { IfOk result (λ a. OfKept desk.old (λ h. told_in h frame.now ≡ Ok (told a))) }
    ensures refused { IfErr result (λ e. e ≢ HearFault.Memory → OfKept desk.old (λ h. told_in h frame.now ≡ Err e)) }
    ensures known { IfErr result (λ e. OfKept desk.old (λ h. ComesNext h frame.now → e ≡ HearFault.Memory)) }
    ensures keeps { IfOk result (λ a. GrowsBy (history.heard (told a)) desk.old desk.new) }
    ensures hearing { IfOk result (λ a. HearsOn (told a) frame.now desk.old) }
    ensures same { OnErr result (desk.new ≡ desk.old) }
{
    desk.hear(frame)
}

/// Hears a frame, and says what follows. Of the next frame of a lawful conversation, whose texts are
/// the first of those that the withdrawal asked, it is refused only for want of memory and for a success of
/// GetCommandNonce that gives no nonce.
pub fn next(withdrawal: &mut Withdrawal, frame: &[u8]) -> Result<Move, HearFault>
    ensures moved { IfOk result (MovesOn withdrawal.old frame.now) }
    ensures refused { IfErr result (λ e. e ≢ HearFault.Memory → RefusesFor withdrawal.old frame.now e) }
    ensures known { IfErr result (λ e. e ≢ HearFault.Memory → LacksOnlyNonce withdrawal.old frame.now) }
    ensures heard { OnOk result (OfHeard withdrawal.old (λ before. HasHeard withdrawal.new (before ++ frame.now ∷ []))) }
    ensures withdraws { IfOk result (WithdrawsBy withdrawal.old withdrawal.new frame.now) }
    ensures keeps { KeepsTerms result withdrawal.old withdrawal.new }
{
    withdrawal.next(frame)
}

ghost use Rattle.std.specs.Prelude.{◌≡◌, ◌≢◌, ◌≤◌, ◌++◌, ◌∷◌, [], codes, None, MatchOption, IfOk, IfErr, OnOk, Err};
ghost use Rattle.std.specs.Str.{IsUtf8};
ghost use Rattle.serde_json.specs.View.{view};
ghost use Rattle.xfs_envelope.specs.Fields.{empty};
ghost use Rattle.xfs_client.specs.Commands.{ReadsAs, command_text};
ghost use Rattle.xfs_client.specs.Desks.{Recalls, GrowsBy};
ghost use Rattle.xfs_client.specs.History as history;
ghost use Rattle.xfs_client.specs.History.{told};
ghost use Rattle.xfs_client.specs.Withdrawals.{HasHeard, IsDispense, IsMove, IsPresent, KeepsTerms, after_completion, after_success, dispense_payload, is_success, nonce_of, step_of, EndsThen, HearsThen, OfHeard, MovesOn, RefusesFor};
ghost use Rattle.xfs_client.specs.declared.heard.HearFault.TheVariants as HearFault;

use crate::dispense::{payload_for, token_for};
use crate::{Desk, HearFault, Heard};
use std::alloc::Global;
use std::marker::Model;
use xfs_base::{Bytes, Currency, Memory};
use xfs_envelope::{Code, Status};
use xfs_json::{Map, Value, words};

/// What a withdrawal does next.
#[derive(Drop)]
pub enum Move {
    /// This text is to be sent.
    Ask(Bytes),
    /// Nothing, until more is heard.
    Wait,
    /// The notes were presented.
    Done,
    /// A command ended with this code, which is not `success`; the withdrawal is over.
    Ended(Code),
    /// A command was refused; the withdrawal is over.
    Refused(Status),
}

/// One withdrawal of an amount, in whole units of a currency: a nonce is asked for, then notes are
/// dispensed by a token for that nonce under the device's key, then they are presented.
#[derive(Drop)]
pub struct Withdrawal {
    desk: Desk,
    currency: Currency,
    amount: u32,
    key: [u8; 32],
    alloc: Global,
}

impl Model for Withdrawal {
    ghost use Rattle.std.specs.Prelude.{◌≤◌};
    ghost use Rattle.xfs_client.specs.Withdrawals.{Withdrawing};

    ghost Value = { Withdrawing };

    ghost view = { λ w. record { terms = record { currency = w.currency; amount = w.amount; key = w.key }; desk = w.desk } };

    ghost invariant = { λ w. w.amount ≤ 1000000 };
}

impl Withdrawal {
    /// A withdrawal that is to be started.
    pub fn new(alloc: Global, currency: Currency, amount: u32, key: [u8; 32]) -> Withdrawal
        requires low { 1 ≤ amount }
        requires high { amount ≤ 1000000 }
        ensures terms { result.terms ≡ record { currency = currency; amount = amount; key = key } }
        ensures fresh { Recalls result.desk [] }
    {
        Withdrawal {
            desk: Desk::new(alloc),
            currency,
            amount,
            key,
            alloc,
        }
    }

    /// The text that is to be sent first: it asks for a nonce. Where memory runs out it may be
    /// tried again.
    pub fn start(&mut self) -> Result<Vec<u8>, Memory>
        requires fresh { Recalls self.old.desk [] }
        ensures text { IfOk result (λ t. t.items ≡ command_text (codes "Common.GetCommandNonce") 1 empty) }
        ensures reads_back { IfOk result (λ t. ReadsAs t.items (codes "Common.GetCommandNonce") 1 empty) }
        ensures heard { OnOk result (HasHeard self.new []) }
        ensures keeps { KeepsTerms result self.old self.new }
    {
        let payload = Value::Object(Map::new(self.alloc));
        self.desk.ask_next("Common.GetCommandNonce", &payload)
    }

    /// Takes a message of the service, and says what follows. A nonce that is no nonce of a token's
    /// grammar is `Shape`.
    pub fn next(&mut self, bytes: &[u8]) -> Result<Move, HearFault>
        ensures moved { IfOk result (MovesOn self.old bytes.now) }
        ensures refused { IfErr result (λ e. e ≢ HearFault.Memory → RefusesFor self.old bytes.now e) }
        ensures heard { OnOk result (OfHeard self.old (λ texts. HasHeard self.new (texts ++ bytes.now ∷ []))) }
        ensures keeps { KeepsTerms result self.old self.new }
    {
        let heard = self.desk.listen(bytes)?;
        self.answer(&heard)
    }

    fn answer(&mut self, heard: &Heard) -> Result<Move, HearFault>
        ensures moved { IfOk result (IsMove self.old.terms (step_of self.old.desk.asked (told heard.now))) }
        ensures refused { IfErr result (λ e. e ≢ HearFault.Memory → step_of self.old.desk.asked (told heard.now) ≡ Err e) }
        ensures grown { OnOk result (HearsThen (told heard.now) (step_of self.old.desk.asked (told heard.now)) self.old.desk self.new.desk) }
        ensures keeps { KeepsTerms result self.old self.new }
    {
        match heard {
            Heard::Completed { id, code, payload } => self.after_completion(*id, *code, payload),
            Heard::Refused { id, status } => {
                self.desk.close(*id);
                Ok(Move::Refused(*status))
            }
            other => {
                self.desk.note(other)?;
                Ok(Move::Wait)
            }
        }
    }

    fn after_completion(&mut self, id: u64, code: Code, payload: &Value) -> Result<Move, HearFault>
        ensures moved { IfOk result (IsMove self.old.terms (after_completion self.old.desk.asked code (view payload.now))) }
        ensures refused { IfErr result (λ e. e ≢ HearFault.Memory → after_completion self.old.desk.asked code (view payload.now) ≡ Err e) }
        ensures grown { OnOk result (EndsThen id (after_completion self.old.desk.asked code (view payload.now)) self.old.desk self.new.desk) }
        ensures keeps { KeepsTerms result self.old self.new }
    {
        if is_success(code) {
            self.after_success(id, payload)
        } else {
            self.desk.close(id);
            Ok(Move::Ended(code))
        }
    }

    // The ask that follows is made before the one that succeeded is over, since it may want memory.
    fn after_success(&mut self, id: u64, payload: &Value) -> Result<Move, HearFault>
        ensures moved { IfOk result (IsMove self.old.terms (after_success self.old.desk.asked (view payload.now))) }
        ensures refused { IfErr result (λ e. e ≢ HearFault.Memory → after_success self.old.desk.asked (view payload.now) ≡ Err e) }
        ensures grown { OnOk result (EndsThen id (after_success self.old.desk.asked (view payload.now)) self.old.desk self.new.desk) }
        ensures keeps { KeepsTerms result self.old self.new }
    {
        let asked = self.desk.asks();
        let next = if asked == 1 {
            Move::Ask(Bytes::new(self.ask_dispense(payload)?))
        } else if asked == 2 {
            Move::Ask(Bytes::new(self.ask_present()?))
        } else {
            Move::Done
        };
        self.desk.close(id);
        Ok(next)
    }

    fn ask_dispense(&mut self, payload: &Value) -> Result<Vec<u8>, HearFault>
        requires { self.old.desk.asked ≡ 1 }
        ensures text { IfOk result (λ t. MatchOption (nonce_of (view payload.now)) ⊥ (λ nonce. IsDispense self.old.terms nonce t.items)) }
        ensures refused { IfErr result (λ e. e ≢ HearFault.Memory → (e ≡ HearFault.Shape) × (nonce_of (view payload.now) ≡ None)) }
        ensures grown { OnOk result (GrowsBy history.ask self.old.desk self.new.desk) }
        ensures keeps { KeepsTerms result self.old self.new }
    {
        let Ok(Some(nonce)) = words(payload, "commandNonce") else {
            return Err(HearFault::Shape);
        };
        let token = token_for(
            self.alloc,
            &self.key,
            nonce.as_bytes(),
            self.currency,
            self.amount,
        )?;
        let payload = self.payload(&token)?;
        Ok(self.desk.ask_next("CashDispenser.Dispense", &payload)?)
    }

    fn payload(&self, token: &[u8]) -> Result<Value, Memory>
        requires { IsUtf8 token.now }
        ensures { IfOk result (λ v. view v ≡ dispense_payload self.now.terms.currency self.now.terms.amount token.now) }
    {
        payload_for(self.alloc, self.currency, self.amount, token)
    }

    fn ask_present(&mut self) -> Result<Vec<u8>, Memory>
        requires { self.old.desk.asked ≡ 2 }
        ensures text { IfOk result (λ t. IsPresent t.items) }
        ensures grown { OnOk result (GrowsBy history.ask self.old.desk self.new.desk) }
        ensures keeps { KeepsTerms result self.old self.new }
    {
        let payload = Value::Object(Map::new(self.alloc));
        self.desk.ask_next("CashDispenser.Present", &payload)
    }
}

fn is_success(code: Code) -> bool
    ensures { result ≡ is_success code }
{
    matches!(code, Code::Success)
}

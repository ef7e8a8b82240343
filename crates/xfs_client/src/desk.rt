ghost use Rattle.std.specs.Prelude.{◌≡◌, ◌≢◌, ◌↔◌, ◌<◌, ◌≤◌, ◌+◌, ◌++◌, ◌∷◌, [], List, true, IfOk, IfErr, OnOk, OnErr, Ok, Err};
ghost use Rattle.serde_json.specs.View.{view};
ghost use Rattle.xfs_envelope.specs.Replies as replies;
ghost use Rattle.xfs_client.specs.Commands.{IsAskable, IsCommand};
ghost use Rattle.xfs_client.specs.History as history;
ghost use Rattle.xfs_client.specs.History.{Entry, Told, addressee, first_unacknowledged, is_open, of_ask, open_ask, told, told_by, told_in, with_status, completion_in};
ghost use Rattle.xfs_client.specs.Desks.{GrowsBy, IsEndOf, Recalls, OfKept, HearsOpen};
ghost use Rattle.xfs_client.specs.declared.desk.AskFault.TheVariants as AskFault;
ghost use Rattle.xfs_client.specs.declared.heard.HearFault.TheVariants as HearFault;

use crate::command::command;
use crate::{HearFault, Heard};
use std::alloc::Global;
use std::collections::BTreeSet;
use std::marker::Model;
use xfs_base::Memory;
use xfs_envelope::{Answer, Code, Status, read_answer};
use xfs_json::Value;

/// The last request id that a command can have.
pub const LAST_ID: u64 = 2_147_483_647;

/// Numbers what a client asks over one connection, and sorts what it hears by the ask that it is
/// for. What is over is forgotten, so a desk is as large as what waits for an answer.
#[derive(Drop)]
pub struct Desk {
    asked: u64,
    unacknowledged: BTreeSet<u64>,
    acknowledged: BTreeSet<u64>,
    alloc: Global,
}

/// Why nothing was asked.
#[derive(Clone, Copy, Debug, PartialEq, Eq)]
pub enum AskFault {
    /// The id 2147483647 was used; a new connection begins with a new desk.
    Ids,
    Memory,
}

impl From<Memory> for AskFault {
    ghost use Rattle.xfs_client.specs.declared.desk.AskFault.TheVariants as AskFault;

    ghost from_gives = { λ _ e. e ≡ AskFault.Memory };

    fn from(_: Memory) -> Self {
        AskFault::Memory
    }
}

impl From<Memory> for HearFault {
    ghost use Rattle.xfs_client.specs.declared.heard.HearFault.TheVariants as HearFault;

    ghost from_gives = { λ _ e. e ≡ HearFault.Memory };

    fn from(_: Memory) -> Self {
        HearFault::Memory
    }
}

impl Model for Desk {
    ghost use Rattle.std.specs.Prelude.{◌≤◌};
    ghost use Rattle.xfs_client.specs.Desks.{Remembered};

    ghost Value = { Remembered };

    ghost view = { λ d. record { asked = d.asked; unacknowledged = d.unacknowledged.keys; acknowledged = d.acknowledged.keys } };

    ghost invariant = { λ d. d.asked ≤ 2147483647 };
}

impl Desk {
    /// A desk that asked and heard nothing.
    pub fn new(alloc: Global) -> Desk
        ensures { Recalls result [] }
    {
        Desk {
            asked: 0,
            unacknowledged: BTreeSet::new(alloc),
            acknowledged: BTreeSet::new(alloc),
            alloc,
        }
    }

    /// The text of the next command, to be sent as it is. The asks of a desk have the ids 1, 2, 3
    /// and so on.
    pub fn ask(&mut self, name: &str, payload: &Value) -> Result<Vec<u8>, AskFault>
        requires command { IsAskable name.now (view payload.now) }
        ensures written { IfOk result (λ t. IsCommand name.now (self.old.asked + 1) (view payload.now) t.items) }
        ensures grown { OnOk result (GrowsBy history.ask self.old self.new) }
        ensures ids { (result ≡ Err AskFault.Ids) ↔ (self.old.asked ≡ 2147483647) }
        ensures same { OnErr result (self.new ≡ self.old) }
    {
        if self.asked >= LAST_ID {
            return Err(AskFault::Ids);
        }
        Ok(self.ask_next(name, payload)?)
    }

    /// Takes a message of the service.
    pub fn hear(&mut self, bytes: &[u8]) -> Result<Heard, HearFault>
        ensures ok { IfOk result (λ a. OfKept self.old (λ h. told_in h bytes.now ≡ Ok (told a))) }
        ensures refused { IfErr result (λ e. e ≢ HearFault.Memory
            → OfKept self.old (λ h. told_in h bytes.now ≡ Err e)) }
        ensures grown { IfOk result (λ a. GrowsBy (history.heard (told a)) self.old self.new) }
        ensures same { OnErr result (self.new ≡ self.old) }
    {
        let heard = self.listen(bytes)?;
        self.note(&heard)?;
        Ok(heard)
    }

    /// How many asks there are.
    pub(crate) fn asks(&self) -> u64
        ensures { result ≡ self.now.asked }
    {
        self.asked
    }

    pub(crate) fn ask_next(&mut self, name: &str, payload: &Value) -> Result<Vec<u8>, Memory>
        requires room { self.old.asked < 2147483647 }
        requires command { IsAskable name.now (view payload.now) }
        ensures written { IfOk result (λ t. IsCommand name.now (self.old.asked + 1) (view payload.now) t.items) }
        ensures grown { OnOk result (GrowsBy history.ask self.old self.new) }
        ensures same { OnErr result (self.new ≡ self.old) }
    {
        let id = self.asked + 1;
        let text = command(self.alloc, name, id, payload)?;
        self.unacknowledged.insert(id)?;
        self.asked = id;
        Ok(text)
    }

    /// What a message tells. Nothing is noted of it.
    pub(crate) fn listen(&self, bytes: &[u8]) -> Result<Heard, HearFault>
        ensures ok { IfOk result (λ a. OfKept self.now (λ h. told_in h bytes.now ≡ Ok (told a))) }
        ensures refused { IfErr result (λ e. e ≢ HearFault.Memory
            → OfKept self.now (λ h. told_in h bytes.now ≡ Err e)) }
    {
        let answer = read_answer(self.alloc, bytes)?;
        self.hear_answer(answer)
    }

    fn hear_answer(&self, answer: Answer) -> Result<Heard, HearFault>
        ensures ok { IfOk result (λ a. OfKept self.now (λ h. told_by h (replies.told answer) ≡ Ok (told a))) }
        ensures err { IfErr result (λ e. OfKept self.now (λ h. told_by h (replies.told answer) ≡ Err e)) }
    {
        match answer {
            Answer::Acknowledge { id, status, .. } => self.acknowledge_of(id, status),
            Answer::Event { id, .. } => self.event_of(id),
            Answer::Completion {
                id,
                code,
                payload,
                ..
            } => self.completion_of(id, code, payload),
            Answer::Unsolicited { .. } => Ok(Heard::Unsolicited),
        }
    }

    fn acknowledge_of(&self, id: Option<u64>, status: Option<Status>) -> Result<Heard, HearFault>
        ensures ok { IfOk result (λ a. OfKept self.now (λ h. of_ask (addressee h id) (with_status status) ≡ Ok (told a))) }
        ensures err { IfErr result (λ e. OfKept self.now (λ h. of_ask (addressee h id) (with_status status) ≡ Err e)) }
    {
        let Some(id) = self.addressee(id) else {
            return Err(HearFault::Stranger);
        };
        match status {
            None => Ok(Heard::Acknowledged { id }),
            Some(status) => Ok(Heard::Refused { id, status }),
        }
    }

    fn event_of(&self, id: u64) -> Result<Heard, HearFault>
        ensures ok { IfOk result (λ a. OfKept self.now (λ h. of_ask (open_ask h id) history.event ≡ Ok (told a))) }
        ensures err { IfErr result (λ e. OfKept self.now (λ h. of_ask (open_ask h id) history.event ≡ Err e)) }
    {
        if !self.is_open(id) {
            return Err(HearFault::Stranger);
        }
        Ok(Heard::Event { id })
    }

    fn completion_of(&self, id: u64, code: Code, payload: Value) -> Result<Heard, HearFault>
        ensures ok { IfOk result (λ a. OfKept self.now (λ h. completion_in h id code (view payload) ≡ Ok (told a))) }
        ensures err { IfErr result (λ e. OfKept self.now (λ h. completion_in h id code (view payload) ≡ Err e)) }
    {
        if !self.is_open(id) {
            return Err(HearFault::Stranger);
        }
        Ok(Heard::Completed { id, code, payload })
    }

    fn addressee(&self, id: Option<u64>) -> Option<u64>
        ensures { OfKept self.now (λ h. result ≡ addressee h id) }
    {
        match id {
            None => self.first_unacknowledged(),
            Some(id) => { if self.is_open(id) { Some(id) } else { None } }
        }
    }

    fn first_unacknowledged(&self) -> Option<u64>
        ensures { OfKept self.now (λ h. result ≡ first_unacknowledged h) }
    {
        match self.unacknowledged.first() {
            Some(id) => Some(*id),
            None => None,
        }
    }

    fn is_open(&self, id: u64) -> bool
        ensures { OfKept self.now (λ h. result ≡ is_open h id) }
    {
        self.unacknowledged.contains(&id) || self.acknowledged.contains(&id)
    }

    pub(crate) fn note(&mut self, heard: &Heard) -> Result<(), Memory>
        ensures grown { OnOk result (HearsOpen (told heard.now) self.old self.new) }
        ensures same { OnErr result (self.new ≡ self.old) }
    {
        match heard {
            Heard::Acknowledged { id } => self.acknowledge(*id)?,
            Heard::Refused { id, .. } => self.close(*id),
            Heard::Completed { id, .. } => self.close(*id),
            Heard::Event { .. } => {}
            Heard::Unsolicited => {}
        }
        Ok(())
    }

    fn acknowledge(&mut self, id: u64) -> Result<(), Memory>
        ensures grown { OnOk result (HearsOpen (history.acknowledged id) self.old self.new) }
        ensures same { OnErr result (self.new ≡ self.old) }
    {
        self.acknowledged.insert(id)?;
        self.unacknowledged.remove(&id);
        Ok(())
    }

    /// The ask is over; no memory is taken.
    pub(crate) fn close(&mut self, id: u64)
        ensures { (h : List Entry) (t : Told) → Recalls self.old h → is_open h id ≡ true → IsEndOf id t
            → Recalls self.new (h ++ history.heard t ∷ []) }
    {
        self.unacknowledged.remove(&id);
        self.acknowledged.remove(&id);
    }
}

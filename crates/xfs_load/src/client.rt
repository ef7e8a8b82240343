//! The generator's client.

ghost use Rattle.std.specs.Prelude.{◌≡◌, ◌≤◌, ◌<◌, ◌+◌, ◌-◌, ◌*◌, ◌^◌, ◌++◌, ◌∷◌, [], ℕ, codes, IfOk, OnOk, OnErr, Some};
ghost use Rattle.serde_json.specs.View.{view};
ghost use Rattle.xfs_client.specs.Withdrawals.{is_success};
ghost use Rattle.xfs_envelope.specs.Replies.{told};
ghost use Rattle.xfs_guard.specs.Keeps.{Proceeds};
ghost use Rattle.xfs_load.specs.Dues.{IsDueTo};
ghost use Rattle.xfs_load.specs.Generator.{KeepsCounts, amount_of, asking, completed, after_round, hears, hears_all, hears_reply, is_for_nonce, newcomer, nonce_told, refill, refill_behind, round_of, say, take, withdrawal_of};
ghost use Rattle.xfs_load.specs.Plays.{DoesDeed, DoesInPart, Plays, PlaysInPart};
ghost use Rattle.xfs_load.specs.Texts.{GoesWith, IsText};
ghost use Rattle.xfs_load.specs.declared.ask.Ask.TheVariants as asks;
ghost use Rattle.xfs_machine.specs.MachineView.{guard_of};

use crate::ask::Ask;
use crate::due::Due;
use crate::presented::euro;
use crate::resting::rest;
use crate::text::text_of;
use std::alloc::{AllocError, Global};
use std::marker::Model;
use xfs_base::{Bytes, Memory, Milli, Moment};
use xfs_disk::Disk;
use xfs_envelope::{Answer, AnswerFault, Code, read_answer};
use xfs_json::{Value, words};
use xfs_machine::{Frames, Machine, Pass, Tally};
use xfs_mech::{Mechanism, Touch};
use xfs_token::{Amounts, MakeFault, TokenKey};

// Every call that takes a moment is given the first.
const AT_START: Moment = Moment(0);

/// What plays the rounds: the key of its tokens, its pass, and what it keeps of what comes back.
#[derive(Drop)]
pub(crate) struct Client {
    alloc: Global,
    key: TokenKey,
    pass: Pass,
    tally: Tally,
    asked: u64,
    nonce: Option<Bytes>,
    failed: bool,
    refused: u32,
}

impl Model for Client {
    ghost use Rattle.xfs_load.specs.Generator.{Client as ClientView};

    ghost Value = { ClientView };

    ghost view = { λ c. record { key = c.key; pass = c.pass; asked = c.asked; nonce = c.nonce; failed = c.failed; refused = c.refused } };
}

impl Client {
    /// A client that asked nothing yet.
    pub fn new(alloc: Global, key: [u8; 32], pass: Pass) -> Client
        ensures { result ≡ newcomer key pass }
    {
        Client {
            alloc,
            key: TokenKey::new(key),
            pass,
            tally: Tally::new(),
            asked: 0,
            nonce: None,
            failed: false,
            refused: 0,
        }
    }

    /// How many rounds were refused.
    pub fn refusals(&self) -> u32
        ensures { result ≡ self.now.refused }
    {
        self.refused
    }

    /// One round, which counts from 0, and what follows it.
    pub fn round<M: Mechanism, D: Disk>(
        &mut self,
        machine: &mut Machine<M, D>,
        i: u32,
    ) -> Result<(), Memory>
        requires early { i < 2 ^ 32 - 1 }
        requires asked { self.old.asked ≤ 6 * i }
        requires refused { self.old.refused ≤ i }
        ensures plays { OnOk result (Plays (round_of i ++ refill_behind i) self.old machine.old.state self.new machine.new.state) }
        ensures memory { OnErr result (PlaysInPart (round_of i ++ refill_behind i) self.old machine.old.state machine.new.state) }
        ensures asked { self.new.asked ≤ self.old.asked + 6 }
        ensures refused { self.new.refused ≤ self.old.refused + 1 }
        ensures proceeds { Proceeds D.Disk (guard_of machine.old) (guard_of machine.new) }
    {
        self.withdraw(machine, amount_of(i))?;
        if (i + 1) % 8 != 0 {
            return Ok(());
        }
        self.refill(machine)
    }

    // One withdrawal: a nonce, the notes for an amount, their presentation; and the customer takes them.
    fn withdraw<M: Mechanism, D: Disk>(
        &mut self,
        machine: &mut Machine<M, D>,
        amount: u32,
    ) -> Result<(), Memory>
        requires amount { amount ≤ 80 }
        requires asked { self.old.asked < 2 ^ 40 }
        requires refused { self.old.refused < 2 ^ 32 - 1 }
        ensures plays { OnOk result (Plays (withdrawal_of amount) self.old machine.old.state self.new machine.new.state) }
        ensures memory { OnErr result (PlaysInPart (withdrawal_of amount) self.old machine.old.state machine.new.state) }
        ensures asked { self.new.asked ≤ self.old.asked + 3 }
        ensures refused { self.new.refused ≤ self.old.refused + 1 }
        ensures proceeds { Proceeds D.Disk (guard_of machine.old) (guard_of machine.new) }
    {
        self.say(machine, Ask::Nonce)?;
        self.say(machine, Ask::Dispense(amount))?;
        self.say(machine, Ask::Present)?;
        self.take(machine)?;
        self.count();
        Ok(())
    }

    // The units get back what eight rounds paid out.
    fn refill<M: Mechanism, D: Disk>(&mut self, machine: &mut Machine<M, D>) -> Result<(), Memory>
        requires asked { self.old.asked < 2 ^ 40 }
        ensures plays { OnOk result (Plays refill self.old machine.old.state self.new machine.new.state) }
        ensures memory { OnErr result (PlaysInPart refill self.old machine.old.state machine.new.state) }
        ensures asked { self.new.asked ≤ self.old.asked + 3 }
        ensures refused { self.new.refused ≡ self.old.refused }
        ensures proceeds { Proceeds D.Disk (guard_of machine.old) (guard_of machine.new) }
    {
        self.say(machine, Ask::StartExchange)?;
        self.say(machine, Ask::Refill)?;
        self.say(machine, Ask::EndExchange)
    }

    // Asks something, lets the machine rest, and hears what came back.
    fn say<M: Mechanism, D: Disk>(
        &mut self,
        machine: &mut Machine<M, D>,
        ask: Ask,
    ) -> Result<(), Memory>
        requires amount { (amount : ℕ) → ask ≡ asks.Dispense amount → amount ≤ 80 }
        requires asked { self.old.asked < 2 ^ 50 }
        ensures does { OnOk result (DoesDeed (say ask) self.old machine.old.state self.new machine.new.state) }
        ensures memory { OnErr result (DoesInPart (say ask) self.old machine.old.state machine.new.state) }
        ensures asked { self.new.asked ≤ self.old.asked + 1 }
        ensures refused { self.new.refused ≡ self.old.refused }
        ensures proceeds { Proceeds D.Disk (guard_of machine.old) (guard_of machine.new) }
    {
        let text = self.text(ask)?;
        machine.post(&self.pass, &text, AT_START, &mut self.tally)?;
        rest(machine, AT_START, &mut self.tally)?;
        let frames = machine.outbox(&self.pass, &mut self.tally);
        self.begin(ask);
        self.hear_all(ask, frames)
    }

    // The text of what is asked next.
    fn text(&self, ask: Ask) -> Result<Vec<u8>, Memory>
        requires amount { (amount : ℕ) → ask ≡ asks.Dispense amount → amount ≤ 80 }
        requires asked { self.now.asked < 2 ^ 50 }
        ensures { IfOk result (λ text. IsText self.now.key self.now.nonce ask (self.now.asked + 1) text.items) }
    {
        let token = match ask {
            Ask::Dispense(amount) => self.token(amount)?,
            _ => None,
        };
        let text = text_of(self.alloc, ask, self.asked + 1, &token)?;
        Ok(text)
    }

    // A token for the nonce that came back, where one did.
    fn token(&self, amount: u32) -> Result<Option<Bytes>, Memory>
        requires { amount ≤ 80 }
        ensures { IfOk result (λ token. GoesWith self.now.key self.now.nonce (asks.Dispense amount) token) }
    {
        let Some(nonce) = &self.nonce else {
            return Ok(None);
        };
        match self.key.make(self.alloc, nonce.list(), &amounts(amount)) {
            Ok(token) => Ok(Some(Bytes::new(token))),
            Err(MakeFault::BadNonce) => Ok(None),
            Err(MakeFault::Memory) => Err(Memory),
        }
    }

    // What is asked next; a nonce is asked for first of a round.
    fn begin(&mut self, ask: Ask)
        requires { self.old.asked < 2 ^ 50 }
        ensures { self.new ≡ asking ask self.old }
    {
        self.asked += 1;
        if is_for_nonce(ask) {
            self.nonce = None;
            self.failed = false;
        }
    }

    // Hears the frames, in order.
    fn hear_all(&mut self, ask: Ask, frames: Frames) -> Result<(), Memory>
        ensures heard { OnOk result (self.new ≡ hears_all ask self.old frames) }
        ensures counts { KeepsCounts self.old self.new }
    {
        let due = Due::new(self.alloc, ask, self.asked)?;
        let list = frames.into_list();
        for frame in &list {
            self.hear(ask, &due, frame.list())?;
        }
        Ok(())
    }

    // Hears a frame. What is due is known by its text, and what is no answer tells nothing.
    fn hear(&mut self, ask: Ask, due: &Due, frame: &[u8]) -> Result<(), Memory>
        requires { IsDueTo ask due.now }
        ensures heard { OnOk result (self.new ≡ hears ask self.old frame.now) }
        ensures counts { KeepsCounts self.old self.new }
    {
        if due.has(frame) {
            return Ok(());
        }
        match read_answer(self.alloc, frame) {
            Ok(answer) => self.hear_answer(ask, answer),
            Err(AnswerFault::Shape) => Ok(()),
            Err(AnswerFault::Memory) => Err(Memory),
        }
    }

    // Hears an answer. What is no completion tells nothing.
    fn hear_answer(&mut self, ask: Ask, answer: Answer) -> Result<(), Memory>
        ensures heard { OnOk result (self.new ≡ hears_reply ask self.old (Some (told answer))) }
        ensures counts { KeepsCounts self.old self.new }
    {
        match answer {
            Answer::Completion {
                id,
                code,
                payload,
                ..
            } => self.hear_completion(ask, id, code, &payload),
            Answer::Acknowledge { .. } => Ok(()),
            Answer::Event { .. } => Ok(()),
            Answer::Unsolicited { .. } => Ok(()),
        }
    }

    fn hear_completion(
        &mut self,
        ask: Ask,
        id: u64,
        code: Code,
        payload: &Value,
    ) -> Result<(), Memory>
        ensures heard { OnOk result (self.new ≡ completed ask id code (view payload.now) self.old) }
        ensures counts { KeepsCounts self.old self.new }
    {
        if !is_success(code) {
            self.failed = true;
        } else if is_for_nonce(ask) && id == self.asked {
            self.nonce = nonce_told(self.alloc, payload)?;
        }
        Ok(())
    }

    // The customer takes the notes.
    fn take<M: Mechanism, D: Disk>(&mut self, machine: &mut Machine<M, D>) -> Result<(), Memory>
        ensures does { OnOk result (DoesDeed take self.old machine.old.state self.new machine.new.state) }
        ensures memory { OnErr result (DoesInPart take self.old machine.old.state machine.new.state) }
        ensures same { self.new ≡ self.old }
        ensures proceeds { Proceeds D.Disk (guard_of machine.old) (guard_of machine.new) }
    {
        machine.touch(Touch::NotesTaken, &mut self.tally)?;
        Ok(())
    }

    // The round is counted.
    fn count(&mut self)
        requires { self.old.refused < 2 ^ 32 - 1 }
        ensures { self.new ≡ after_round self.old }
    {
        if self.failed {
            self.refused += 1;
        }
    }
}

fn is_success(code: Code) -> bool
    ensures { result ≡ is_success code }
{
    matches!(code, Code::Success)
}

fn is_for_nonce(ask: Ask) -> bool
    ensures { result ≡ is_for_nonce ask }
{
    matches!(ask, Ask::Nonce)
}

// The amount of a round, which counts from 0, in whole EUR.
fn amount_of(i: u32) -> u32
    ensures amount { result ≡ amount_of i }
    ensures high { result ≤ 80 }
{
    10 * (1 + (7 * u64::from(i) % 8) as u32)
}

// So many whole EUR, as a token tells them.
fn amounts(amount: u32) -> Amounts
    requires { amount ≤ 80 }
    ensures { result ≡ (codes "EUR", 1000 * amount) ∷ [] }
{
    match Amounts::one(euro(), Milli(1000 * u64::from(amount))) {
        Some(amounts) => amounts,
        None => unreachable!(),
    }
}

// The nonce that the payload of a GetCommandNonce's completion tells, where it does.
fn nonce_told(alloc: Global, payload: &Value) -> Result<Option<Bytes>, AllocError>
    ensures { IfOk result (λ nonce. nonce ≡ nonce_told (view payload.now)) }
{
    match words(payload, "commandNonce") {
        Ok(Some(nonce)) => Ok(Some(Bytes::new(Vec::from_slice(alloc, nonce.as_bytes())?))),
        _ => Ok(None),
    }
}

//! What a pending command asks and what comes of it.

ghost use Rattle.std.specs.Prelude.{◌≡◌, ◌||◌, Some, None, false, if◌then◌else◌};
ghost use Rattle.serde_json.specs.View.{view};
ghost use Rattle.xfs_envelope.specs.Messages.{IsPayload};
ghost use Rattle.xfs_traffic.specs.Jobs.{ask_seen, ending_seen};
ghost use Rattle.xfs_model.specs.Results.{closing};

use crate::running_plan::RunningPlan;
use std::marker::Model;
use xfs_card::CardAsk;
use xfs_dispenser::CashAsk;
use xfs_envelope::{Code, Name};
use xfs_json::Value;
use xfs_keyboard::EntryAsk;

/// What a pending command asks: a nonce, that the nonce ends, something of a device; or its members
/// are bad.
#[derive(Drop)]
pub enum Ask {
    Issue,
    Clear,
    Cash(CashAsk),
    Card(CardAsk),
    Entry(EntryAsk),
    Bad,
}

/// How a live nonce ended, where that is announced.
#[derive(Clone, Copy)]
pub enum Ending {
    Cleared,
    Reset,
    Expired,
}

/// A result: the completion code and payload, and how a nonce ended with it. A completion can always be
/// made of it.
#[derive(Drop)]
pub struct Outcome {
    pub(crate) code: Code,
    pub(crate) payload: Value,
    pub(crate) ending: Option<Ending>,
}

impl Model for Outcome {
    ghost use Rattle.serde_json.specs.View.{view as data_of};
    ghost use Rattle.xfs_envelope.specs.Messages.{IsPayload};
    ghost use Rattle.xfs_traffic.specs.Jobs.{ending_seen};
    ghost use Rattle.xfs_model.specs.State.{Outcome as OutcomeView};
    ghost use Rattle.std.specs.Coded.{codes};
    ghost use Rattle.xfs_traffic.specs.DataCodes.{data_code};

    ghost Value = { OutcomeView };

    ghost coded = { Prim.hlevel (codes, data_code) };

    ghost view = { λ o. record { code = o.code; payload = data_of o.payload; ending = ending_seen o.ending } };

    ghost invariant = { λ o. IsPayload (data_of o.payload) };
}

/// What a pending command is about: its name, what it asks, and by its stage the plan that runs or the
/// result.
#[derive(Drop)]
pub struct Job {
    pub(crate) name: Name,
    pub(crate) ask: Ask,
    pub(crate) plan: Option<RunningPlan>,
    pub(crate) ended_nonce: bool,
    pub(crate) outcome: Option<Outcome>,
}

impl Model for Job {
    ghost use Rattle.xfs_traffic.specs.Jobs.{ask_seen};
    ghost use Rattle.xfs_model.specs.State.{Job as JobView};
    ghost use Rattle.std.specs.Coded.{codes};
    ghost use Rattle.xfs_traffic.specs.DataCodes.{data_code};

    ghost Value = { JobView };

    ghost coded = { Prim.hlevel (codes, data_code) };

    ghost view = { λ j. record { name = j.name; ask = ask_seen j.ask; plan = j.plan; ended_nonce = j.ended_nonce; outcome = j.outcome } };
}

impl Job {
    /// A command as it is accepted.
    pub fn new(name: Name, ask: Ask) -> Job
        ensures { result ≡ record { name = name; ask = ask_seen ask; plan = None; ended_nonce = false; outcome = None } }
    {
        Job {
            name,
            ask,
            plan: None,
            ended_nonce: false,
            outcome: None,
        }
    }

    /// What it asks.
    pub fn ask(&self) -> &Ask
        ensures { ask_seen result.now ≡ self.now.ask }
    {
        &self.ask
    }

    // It has its result; where its restore ended a live nonce, that is announced with it.
    pub(crate) fn finish(&mut self, outcome: Outcome)
        ensures { self.new ≡ record self.old { outcome = Some (closing self.old outcome) } }
    {
        let ending = if self.ended_nonce {
            Some(Ending::Reset)
        } else {
            outcome.ending
        };
        self.outcome = Some(Outcome {
            code: outcome.code,
            payload: outcome.payload,
            ending,
        });
    }

    /// Its plan runs on.
    pub fn go_on(&mut self, plan: RunningPlan, ended_nonce: bool)
        ensures { self.new ≡ record self.old { plan = Some plan; ended_nonce = ended_nonce } }
    {
        self.plan = Some(plan);
        self.ended_nonce = ended_nonce;
    }

    /// Its plan, which it has no longer.
    pub fn take_plan(&mut self) -> Option<RunningPlan>
        ensures had { result ≡ self.old.plan }
        ensures left { self.new ≡ record self.old { plan = None } }
    {
        self.plan.take()
    }

    /// The plan that it had.
    pub fn put_plan(&mut self, plan: RunningPlan)
        ensures { self.new ≡ record self.old { plan = Some plan } }
    {
        self.plan = Some(plan);
    }

    /// Its plan behind a step; a live nonce that ended in an earlier step stays told.
    pub fn step_to(&mut self, plan: RunningPlan, ended: bool)
        ensures { self.new ≡ record self.old { plan = Some plan; ended_nonce = self.old.ended_nonce || ended } }
    {
        self.plan = Some(plan);
        self.ended_nonce |= ended;
    }
}

impl Outcome {
    /// A result that no nonce ended with.
    pub fn new(code: Code, payload: Value) -> Outcome
        requires { IsPayload (view payload) }
        ensures { result ≡ record { code = code; payload = view payload; ending = None } }
    {
        Outcome {
            code,
            payload,
            ending: None,
        }
    }

    /// A result with which a nonce may have ended.
    pub fn with_ending(code: Code, payload: Value, ending: Option<Ending>) -> Outcome
        requires { IsPayload (view payload) }
        ensures { result ≡ record { code = code; payload = view payload; ending = ending_seen ending } }
    {
        Outcome {
            code,
            payload,
            ending,
        }
    }

    /// The code of the completion.
    pub fn code(&self) -> Code
        ensures { result ≡ self.now.code }
    {
        self.code
    }

    /// The payload of the completion.
    pub fn payload(&self) -> &Value
        ensures value { view result.now ≡ self.now.payload }
        ensures payload { IsPayload (view result.now) }
    {
        &self.payload
    }
}

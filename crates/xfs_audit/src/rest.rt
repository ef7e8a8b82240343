//! The rest of a conversation, from some frame on.

ghost use Rattle.std.specs.Prelude.{◌≡◌, ◌≢◌, ◌↔◌, ℕ, [], List, IsTrue, IfOk, OnOk, Ok, Err, Some};
ghost use Rattle.std.specs.declared.option.Option.{Option as Maybe};
ghost use Rattle.xfs_conversation.specs.Answers.{is_invalid_message};
ghost use Rattle.xfs_envelope.specs.declared.command.Why.TheVariants as Why;
ghost use Rattle.xfs_envelope.specs.Commands.{Command, command_in, said};
ghost use Rattle.xfs_envelope.specs.Replies.{acknowledge, reply_in, told};
ghost use Rattle.xfs_audit.specs.Ways.{AnswersText, Extends, HasOver, IsLastText, IsRest, IsWhole, LeadsBack};

use crate::way::{Asked, Step, Way};
use std::alloc::Global;
use xfs_base::{Bytes, Memory};
use xfs_envelope::{Answer, AnswerFault, Envelope, Refuse, Status, Why, read, read_answer};

/// How many texts have their acknowledge before the rest, and the ways to split the commands that may be pending there.
#[derive(Drop)]
pub struct Rest {
    pub left: usize,
    pub ways: Vec<Way>,
}

impl Rest {
    /// Behind the last frame: every text is acknowledged, and the commands with these ids stay pending.
    pub fn end(alloc: Global, texts: &[Bytes], ids: &[u64]) -> Result<Rest, Memory>
        ensures { IfOk result (IsRest ids.now texts.now []) }
    {
        let mut ways = Vec::new(alloc);
        ways.push(Way {
            stays: ids.len(),
            due: Vec::new(alloc),
        })?;
        Ok(Rest {
            left: texts.len(),
            ways,
        })
    }

    /// Reads the frame before the rest.
    pub fn read(
        &mut self,
        alloc: Global,
        texts: &[Bytes],
        ids: &[u64],
        frame: &[u8],
    ) -> Result<(), Memory>
        ensures { OnOk result (Extends ids.now texts.now (reply_in frame.now) self.old self.new) }
    {
        match read_answer(alloc, frame) {
            Ok(answer) => self.hear(alloc, texts, ids, answer),
            Err(AnswerFault::Shape) => {
                self.ways.clear();
                Ok(())
            }
            Err(AnswerFault::Memory) => Err(Memory),
        }
    }

    /// Whether nothing comes before the rest.
    pub fn is_whole(&self) -> bool
        ensures { IsTrue result ↔ IsWhole self.now }
    {
        self.left == 0 && has_over(&self.ways)
    }

    fn hear(
        &mut self,
        alloc: Global,
        texts: &[Bytes],
        ids: &[u64],
        answer: Answer,
    ) -> Result<(), Memory>
        ensures { OnOk result (Extends ids.now texts.now (Some (told answer)) self.old self.new) }
    {
        match answer {
            Answer::Acknowledge { status, .. } => self.acknowledge(alloc, texts, ids, status),
            Answer::Event { id, .. } => self.step(alloc, ids, &Step::Told(id)),
            Answer::Completion { id, name, .. } => {
                self.step(alloc, ids, &Step::Completed(Asked { id, name }))
            }
            Answer::Unsolicited { .. } => Ok(()),
        }
    }

    // The text before the rest is acknowledged.
    fn acknowledge(
        &mut self,
        alloc: Global,
        texts: &[Bytes],
        ids: &[u64],
        status: Option<Status>,
    ) -> Result<(), Memory>
        ensures { OnOk result ((id : Maybe ℕ) (name : Maybe (List ℕ)) → Extends ids.now texts.now (Some (acknowledge id name status)) self.old self.new) }
    {
        let Some(text) = last_text(texts, self.left) else {
            self.ways.clear();
            return Ok(());
        };
        self.left -= 1;
        self.answer(alloc, ids, text, status)
    }

    // This text is answered by this status, or accepted by none.
    fn answer(
        &mut self,
        alloc: Global,
        ids: &[u64],
        text: &[u8],
        status: Option<Status>,
    ) -> Result<(), Memory>
        ensures left { self.new.left ≡ self.old.left }
        ensures ways { OnOk result (AnswersText ids.now (command_in text.now) status self.old.ways.items self.new.ways.items) }
    {
        match read(alloc, text) {
            Ok(envelope) => self.answer_command(alloc, ids, envelope, status),
            Err(refuse) => self.answer_refused(refuse, status),
        }
    }

    fn answer_command(
        &mut self,
        alloc: Global,
        ids: &[u64],
        envelope: Envelope,
        status: Option<Status>,
    ) -> Result<(), Memory>
        ensures left { self.new.left ≡ self.old.left }
        ensures ways { OnOk result (AnswersText ids.now (Ok (said envelope)) status self.old.ways.items self.new.ways.items) }
    {
        let Envelope { id, name, .. } = envelope;
        match status {
            None => self.step(alloc, ids, &Step::Accepted(Asked { id, name })),
            Some(status) => {
                self.refuse_command(status);
                Ok(())
            }
        }
    }

    // A command is refused by this status.
    fn refuse_command(&mut self, status: Status)
        ensures left { self.new.left ≡ self.old.left }
        ensures ways { (ids : List ℕ) (c : Command) → AnswersText ids (Ok c) (Some status) self.old.ways.items self.new.ways.items }
    {
        match status {
            Status::InvalidMessage => self.ways.clear(),
            Status::InvalidRequestId | Status::TooManyRequests => {}
        }
    }

    fn answer_refused(&mut self, refuse: Refuse, status: Option<Status>) -> Result<(), Memory>
        ensures left { self.new.left ≡ self.old.left }
        ensures known { OnOk result (refuse.why ≢ Why.Memory) }
        ensures ways { OnOk result ((ids : List ℕ) → AnswersText ids (Err refuse) status self.old.ways.items self.new.ways.items) }
    {
        if let Why::Memory = refuse.why {
            return Err(Memory);
        }
        if !is_invalid_message(status) {
            self.ways.clear();
        }
        Ok(())
    }

    // The ways before a step.
    fn step(&mut self, alloc: Global, ids: &[u64], step: &Step) -> Result<(), Memory>
        ensures left { self.new.left ≡ self.old.left }
        ensures ways { OnOk result (LeadsBack ids.now step.now self.old.ways.items self.new.ways.items) }
    {
        let mut before = Vec::new(alloc);
        while let Some(way) = self.ways.pop() {
            way.back(alloc, step, ids, &mut before)?;
        }
        self.ways = before;
        Ok(())
    }
}

// Whether in one of the ways no command is pending.
fn has_over(ways: &[Way]) -> bool
    ensures { IsTrue result ↔ HasOver ways.now }
{
    for way in ways {
        if way.is_over() {
            return true;
        }
    }
    false
}

fn is_invalid_message(status: Option<Status>) -> bool
    ensures { result ≡ is_invalid_message status }
{
    matches!(status, Some(Status::InvalidMessage))
}

// The last of so many texts.
fn last_text(texts: &[Bytes], count: usize) -> Option<&[u8]>
    ensures { IsLastText texts.now count result }
{
    Some(texts.get(count.checked_sub(1)?)?.list())
}

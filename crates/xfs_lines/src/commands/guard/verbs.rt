//! What the guard answers to a verb.

ghost use Rattle.std.specs.Prelude.{◌≡◌, ◌≢◌, ◌≤◌, ◌⊎◌, Err, OnErr, IfOk, IfErr, Some, None};
ghost use Rattle.std.specs.Option.{option_map};
ghost use Rattle.xfs_guard.specs.Keeps.{Proceeds};
ghost use Rattle.xfs_mech.specs.Mechanism.{CanLoad};
ghost use Rattle.xfs_guard.specs.Fits.{unfit};
ghost use Rattle.xfs_guard.specs.Refusals.{IsAsk};
ghost use Rattle.xfs_guard.specs.declared.deny.Deny.TheVariants as Deny;
ghost use Rattle.xfs_script.specs.Answered.{IsAnswerText};
ghost use Rattle.xfs_lines.specs.Guard.Begun.{FailsRestart, LeavesOfLoad, LeavesOfVerb, MovesOrNot, WholeOrNone};
ghost use Rattle.xfs_lines.specs.Guard.Texts.{show_bytes};
ghost use Rattle.xfs_lines.specs.Guard.States.{state_in};
ghost use Rattle.xfs_lines.specs.Guard.Moves.{Moves};
ghost use Rattle.xfs_lines.specs.Guard.Dispenses.{DispensesFor, IfRemembered, IsAllowedFor, named};
ghost use Rattle.xfs_lines.specs.Guard.Verbs.{AreGuardAnswer, IsGuardAnswer, IsLoaded};
ghost use Rattle.xfs_lines.specs.Guard.Lined.{IsLined};
ghost use Rattle.xfs_lines.specs.Guard.Restarts.{IfUnbooted, RestartFails, Restarts};
ghost use Rattle.xfs_script.specs.declared.guard_line.GuardLine.TheVariants.{Issue, Clear, Mint, Dispense, Fill, Take, Restart};
ghost use Rattle.xfs_lines.specs.declared.commands.guard.player.NoAnswer.TheVariants as NoAnswer;
ghost use Rattle.xfs_dispenser.specs.declared.refusal.Refusal.TheVariants.{Deny as Denied};

use crate::commands::guard::player::{GuardPlayer, NoAnswer};
use crate::output::refused::refusal_text;
use crate::output::text::{join_parts, outcome_text, show_text, with_line_feed};
use xfs_base::{Bytes, Counts, Memory};
use xfs_common::ErrorCode;
use xfs_disk::Disk;
use xfs_dispenser::{Grant, Named, Notes, Refusal, carry_out, grant_to_stack, stack_all};
use xfs_guard::Ask;
use xfs_mech::Mechanism;
use xfs_script::{Given, GuardLine};
use xfs_token::Amounts;

impl<M: Mechanism, D: Disk> GuardPlayer<M, D> {
    /// What a verb is answered: the lines of the answer, a line feed behind each.
    pub fn answer_verb(&mut self, verb: &GuardLine) -> Result<Vec<u8>, NoAnswer>
        ensures answer { IfOk result (λ text. IsAnswerText (AreGuardAnswer (state_in self.old) verb.now) text.items (state_in self.new)) }
        ensures memory { result ≡ Err NoAnswer.Memory → LeavesOfVerb (state_in self.old) verb.now (state_in self.new) }
        ensures unbooted { IfUnbooted result (λ why. FailsRestart (state_in self.old) verb.now why (state_in self.new)) }
        ensures proceeds { Proceeds D.Disk self.old.guard self.new.guard }
    {
        match verb {
            GuardLine::Skip => Ok(Vec::new(self.alloc)),
            GuardLine::Issue => as_line(self.issue()),
            GuardLine::Clear => as_line(self.clear()),
            GuardLine::Mint(amounts) => as_line(self.mint(amounts)),
            GuardLine::Dispense { token, counts } => as_line(self.dispense(token, counts)),
            GuardLine::Present => as_line(self.move_all(Ask::Present)),
            GuardLine::Reject => as_line(self.move_all(Ask::Reject)),
            GuardLine::Retract => as_line(self.move_all(Ask::Retract)),
            GuardLine::Take => as_line(self.take()),
            GuardLine::Fill { unit, count } => as_line(self.fill(*unit, *count)),
            GuardLine::Show => Ok(self.show()?),
            GuardLine::Restart => Ok(with_line_feed(self.restart()?)?),
        }
    }

    fn issue(&mut self) -> Result<Vec<u8>, Memory>
        ensures answer { IfOk result (λ text. IsGuardAnswer (state_in self.old) Issue text.items (state_in self.new)) }
        ensures memory { OnErr result (WholeOrNone (state_in self.old) Issue (state_in self.new)) }
        ensures proceeds { Proceeds D.Disk self.old.guard self.new.guard }
    {
        match self.guard.issue() {
            Ok(nonce) => join_parts(self.alloc, b"nonce ", &nonce.text),
            Err(deny) => refusal_text(self.alloc, &Refusal::Deny(deny)),
        }
    }

    fn clear(&mut self) -> Result<Vec<u8>, Memory>
        ensures answer { IfOk result (λ text. IsGuardAnswer (state_in self.old) Clear text.items (state_in self.new)) }
        ensures memory { OnErr result (WholeOrNone (state_in self.old) Clear (state_in self.new)) }
        ensures proceeds { Proceeds D.Disk self.old.guard self.new.guard }
    {
        match self.guard.clear() {
            Ok(true) => join_parts(self.alloc, b"cleared", b""),
            Ok(false) => join_parts(self.alloc, b"nothing to clear", b""),
            Err(deny) => refusal_text(self.alloc, &Refusal::Deny(deny)),
        }
    }

    // A genuine token for the live nonce, which is then the last one.
    fn mint(&mut self, amounts: &Amounts) -> Result<Vec<u8>, Memory>
        ensures answer { IfOk result (λ text. IsGuardAnswer (state_in self.old) (Mint amounts.now) text.items (state_in self.new)) }
        ensures memory { OnErr result (WholeOrNone (state_in self.old) (Mint amounts.now) (state_in self.new)) }
        ensures same { self.new.guard ≡ self.old.guard }
    {
        let Some(nonce) = self.guard.live() else {
            self.last = None;
            return join_parts(self.alloc, b"token ", b"none");
        };
        // A live nonce is of the grammar, so what remains is want of memory.
        let Ok(token) = self.key.make(self.alloc, &nonce.text, amounts) else {
            return Err(Memory);
        };
        let text = join_parts(self.alloc, b"token ", &token);
        self.last = Some(Bytes::new(token));
        text
    }

    // The customer takes what lies in the outlet.
    fn take(&mut self) -> Result<Vec<u8>, Memory>
        ensures answer { IfOk result (λ text. IsGuardAnswer (state_in self.old) Take text.items (state_in self.new)) }
        ensures memory { OnErr result (WholeOrNone (state_in self.old) Take (state_in self.new)) }
        ensures proceeds { Proceeds D.Disk self.old.guard self.new.guard }
    {
        match self.guard.taken() {
            Ok(outcome) => outcome_text(self.alloc, b"taken", &outcome),
            Err(_) => Err(Memory),
        }
    }

    // The operator adds notes to a unit, and it is written down.
    fn fill(&mut self, unit: u8, count: u32) -> Result<Vec<u8>, Memory>
        ensures answer { IfOk result (λ text. IsGuardAnswer (state_in self.old) (Fill unit count) text.items (state_in self.new)) }
        ensures memory { OnErr result (LeavesOfVerb (state_in self.old) (Fill unit count) (state_in self.new)) }
        ensures proceeds { Proceeds D.Disk self.old.guard self.new.guard }
    {
        if unit == 0 || unit > self.guard.units().len() {
            return refusal_text(self.alloc, &Refusal::Error(ErrorCode::InvalidUnit));
        }
        if !self.guard.room(unit, count) {
            return refusal_text(self.alloc, &Refusal::Error(ErrorCode::StorageFull));
        }
        if let Some(deny) = self.guard.unfit() {
            return refusal_text(self.alloc, &Refusal::Deny(deny));
        }
        self.load(unit, count)
    }

    // Loads notes, and writes it down where the mechanism didn't fail.
    fn load(&mut self, unit: u8, count: u32) -> Result<Vec<u8>, Memory>
        requires fits { CanLoad self.old.guard.state.units self.old.guard.state.places unit count }
        requires fit { unfit self.old.guard.state ≡ None }
        ensures answer { IfOk result (λ text. IsLoaded (state_in self.old) unit count text.items (state_in self.new)) }
        ensures memory { OnErr result (LeavesOfLoad (state_in self.old) unit count (state_in self.new)) }
        ensures proceeds { Proceeds D.Disk self.old.guard self.new.guard }
    {
        let outcome = self.guard.load(unit, count)?;
        if outcome.failed {
            return join_parts(self.alloc, b"fault", b"");
        }
        match self.guard.note_load(unit, count) {
            Ok(()) => join_parts(self.alloc, b"filled", b""),
            Err(deny) => refusal_text(self.alloc, &Refusal::Deny(deny)),
        }
    }

    // Starts the guard anew. The token that was minted last stays.
    fn restart(&mut self) -> Result<Vec<u8>, NoAnswer>
        ensures answer { IfOk result (λ text. Restarts (state_in self.old) text.items (state_in self.new)) }
        ensures memory { result ≡ Err NoAnswer.Memory → WholeOrNone (state_in self.old) Restart (state_in self.new) }
        ensures unbooted { IfUnbooted result (λ why. RestartFails (state_in self.old) why (state_in self.new)) }
        ensures proceeds { Proceeds D.Disk self.old.guard self.new.guard }
    {
        self.guard.reboot()?;
        Ok(join_parts(self.alloc, b"restarted", b"")?)
    }

    fn show(&mut self) -> Result<Vec<u8>, Memory>
        ensures answer { IfOk result (λ text. text.items ≡ show_bytes self.old.guard.state) }
        ensures same { self.new ≡ self.old }
    {
        show_text(self.alloc, self.guard.units().len(), &self.guard.places())
    }

    // An order of all the notes of a place.
    fn move_all(&mut self, ask: Ask) -> Result<Vec<u8>, Memory>
        requires asked { IsAsk self.old.guard.state ask }
        ensures answer { IfOk result (λ text. Moves (state_in self.old) ask text.items (state_in self.new)) }
        ensures memory { OnErr result (MovesOrNot (state_in self.old) ask (state_in self.new)) }
        ensures proceeds { Proceeds D.Disk self.old.guard self.new.guard }
    {
        match carry_out(&mut self.guard, ask) {
            Ok(outcome) => outcome_text(self.alloc, b"moved", &outcome),
            Err(deny) => refusal_text(self.alloc, &Refusal::Deny(deny)),
        }
    }

    fn dispense(&mut self, token: &Given, counts: &Counts) -> Result<Vec<u8>, Memory>
        ensures answer { IfOk result (λ text. DispensesFor (state_in self.old) token.now counts.now text.items (state_in self.new)) }
        ensures memory { OnErr result (LeavesOfVerb (state_in self.old) (Dispense token.now counts.now) (state_in self.new)) }
        ensures proceeds { Proceeds D.Disk self.old.guard self.new.guard }
    {
        let grant = match self.allow(token, counts) {
            Ok(grant) => grant,
            Err(refusal) => return refusal_text(self.alloc, &refusal),
        };
        match stack_all(&mut self.guard, grant.issue, &grant.counts) {
            Ok(outcome) => outcome_text(self.alloc, b"moved", &outcome),
            Err(deny) => refusal_text(self.alloc, &Refusal::Deny(deny)),
        }
    }

    // The grant to stack these notes on the token that the line names.
    fn allow(&mut self, token: &Given, counts: &Counts) -> Result<Grant, Refusal>
        ensures allowed { IfRemembered result (IsAllowedFor (state_in self.old) token.now counts.now result (state_in self.new)) }
        ensures same { IfErr result (λ r. r ≢ Denied Deny.Disk → self.new.guard ≡ self.old.guard) }
        ensures proceeds { Proceeds D.Disk self.old.guard self.new.guard }
        ensures last { self.new.last ≡ self.old.last }
    {
        let notes = Notes::Individual(Named::These(*counts));
        grant_to_stack(
            self.alloc,
            &mut self.guard,
            &notes,
            token_named(&self.last, token),
        )
    }
}

// The answer with its line feed, where there is one.
fn as_line(text: Result<Vec<u8>, Memory>) -> Result<Vec<u8>, NoAnswer>
    ensures { IsLined text result (λ t. t.items) }
{
    Ok(with_line_feed(text?)?)
}

// The text of the token that a line names, where there is one.
fn token_named<'a>(last: &'a Option<Bytes>, token: &'a Given) -> Option<&'a [u8]>
    ensures { option_map (λ t. t.now) result ≡ named last.now token.now }
{
    match token {
        Given::Text(text) => Some(text.list()),
        Given::Last => match last {
            Some(text) => Some(text.list()),
            None => None,
        },
    }
}

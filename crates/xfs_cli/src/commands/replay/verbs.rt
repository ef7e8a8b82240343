//! What the machine answers to a line of `replay`.

ghost use Rattle.std.specs.Prelude.{◌≡◌, ◌≤◌, ◌∷◌, ◌++◌, [], codes, Err, IfOk, OnErr, OnOk};
ghost use Rattle.xfs_base.specs.declared.moment.Moment.{Moment};
ghost use Rattle.xfs_base.specs.declared.moment.TheConstants.{LAST_MOMENT};
ghost use Rattle.xfs_guard.specs.Keeps.{Proceeds};
ghost use Rattle.xfs_guard.specs.declared.fail.BootFault.{BootFault};
ghost use Rattle.xfs_machine.specs.MachineView.{guard_of};
ghost use Rattle.xfs_model.specs.Events.{touch as touched_by};
ghost use Rattle.xfs_script.specs.Answered.{IsAnswerText, lines_text};
ghost use Rattle.xfs_script.specs.declared.replay_line.ReplayLine.TheVariants as verbs;
ghost use Rattle.xfs_cli.specs.Replay.Events.{AnswersVerb, IsTouched, with_token, token_bytes};
ghost use Rattle.xfs_load.specs.Steps.{HappensInPart};
ghost use Rattle.xfs_cli.specs.Replay.Command.{IsPartDone, IsRestartRefused};
ghost use Rattle.xfs_cli.specs.Replay.States.{played};

use crate::commands::replay::player::Player;
use itoa::Buffer;
use memchr::memchr;
use std::alloc::Global;
use xfs_base::{Bytes, Memory, Service};
use xfs_disk::Disk;
use xfs_lines::{NoAnswer, line, show_text};
use xfs_machine::{JoinFault, Touched, Work};
use xfs_mech::{Mechanism, Touch};
use xfs_script::{ReplayLine, counts_text};
use xfs_token::Amounts;

impl<M: Mechanism, D: Disk> Player<M, D> {
    /// What a verb is answered: the lines of the answer, a line feed behind each.
    pub fn answer_verb(&mut self, verb: ReplayLine) -> Result<Vec<u8>, NoAnswer>
        requires { (m : Moment) → verb ≡ verbs.At m → m.0 ≤ LAST_MOMENT }
        ensures answer { IfOk result (λ text. IsAnswerText (AnswersVerb (played self.old) verb) text.items (played self.new)) }
        ensures memory { result ≡ Err NoAnswer.Memory → IsPartDone (played self.old) verb (played self.new) }
        ensures restart { (f : BootFault) → result ≡ Err (NoAnswer.Unbooted f) → verb ≡ verbs.Restart }
        ensures unbooted { (f : BootFault) → result ≡ Err (NoAnswer.Unbooted f) → IsRestartRefused self.old f self.new }
        ensures proceeds { Proceeds D.Disk (guard_of self.old.machine) (guard_of self.new.machine) }
    {
        match verb {
            ReplayLine::Skip => Ok(Vec::new(self.alloc)),
            ReplayLine::Join { client, service } => Ok(self.join(client, service)?),
            ReplayLine::Leave { client } => Ok(self.leave(client)?),
            ReplayLine::Say { client, text } => Ok(self.say(client, text.list())?),
            ReplayLine::At(moment) => {
                self.now = moment;
                Ok(Vec::new(self.alloc))
            }
            ReplayLine::Work(service) => Ok(self.work(service)?),
            ReplayLine::Rest => Ok(self.rest()?),
            ReplayLine::CardIn(tracks) => Ok(self.touch(Touch::CardIn(tracks))?),
            ReplayLine::CardTaken => Ok(self.touch(Touch::CardTaken)?),
            ReplayLine::CardFault => Ok(self.touch(Touch::CardFault)?),
            ReplayLine::Key(key) => Ok(self.touch(Touch::Key(key))?),
            ReplayLine::KeyFault => Ok(self.touch(Touch::KeyFault)?),
            ReplayLine::Take => Ok(self.touch(Touch::NotesTaken)?),
            ReplayLine::Mint(amounts) => Ok(self.mint(&amounts)?),
            ReplayLine::Restart => self.restart(),
            ReplayLine::Show => Ok(self.show()?),
        }
    }

    fn join(&mut self, number: u32, service: Service) -> Result<Vec<u8>, Memory>
        ensures answer { IfOk result (λ text. IsAnswerText (AnswersVerb (played self.old) (verbs.Join number service)) text.items (played self.new)) }
        ensures memory { OnErr result (IsPartDone (played self.old) (verbs.Join number service) (played self.new)) }
        ensures proceeds { Proceeds D.Disk (guard_of self.old.machine) (guard_of self.new.machine) }
    {
        if self.clients.pass(number).is_some() {
            return no_client(self.alloc);
        }
        match self.machine.join(service) {
            Ok(pass) => {
                self.clients.add(number, pass)?;
                let mut digits = Buffer::new();
                line(self.alloc, b"joined ", digits.format(number).as_bytes())
            }
            Err(JoinFault::Full) => line(self.alloc, b"full", b""),
            Err(JoinFault::Memory) => Err(Memory),
        }
    }

    fn leave(&mut self, number: u32) -> Result<Vec<u8>, Memory>
        ensures answer { IfOk result (λ text. IsAnswerText (AnswersVerb (played self.old) (verbs.Leave number)) text.items (played self.new)) }
        ensures memory { OnErr result (IsPartDone (played self.old) (verbs.Leave number) (played self.new)) }
        ensures proceeds { Proceeds D.Disk (guard_of self.old.machine) (guard_of self.new.machine) }
    {
        match self.clients.take(number) {
            Some(pass) => {
                self.machine.leave(pass);
                Ok(Vec::new(self.alloc))
            }
            None => no_client(self.alloc),
        }
    }

    // A client says a message, in which each `@` is replaced.
    fn say(&mut self, number: u32, message: &[u8]) -> Result<Vec<u8>, Memory>
        ensures answer { IfOk result (λ text. IsAnswerText (AnswersVerb (played self.old) (verbs.Say number message.now)) text.items (played self.new)) }
        ensures memory { OnErr result (IsPartDone (played self.old) (verbs.Say number message.now) (played self.new)) }
        ensures proceeds { Proceeds D.Disk (guard_of self.old.machine) (guard_of self.new.machine) }
    {
        let Some(pass) = self.clients.pass(number) else {
            return no_client(self.alloc);
        };
        let mut kept = Vec::new(self.alloc);
        let message = message_with(self.alloc, message, token_bytes(&self.last), &mut kept)?;
        self.machine.post(pass, message, self.now, &mut self.tally)?;
        Ok(Vec::new(self.alloc))
    }

    fn work(&mut self, service: Service) -> Result<Vec<u8>, Memory>
        ensures answer { IfOk result (λ text. IsAnswerText (AnswersVerb (played self.old) (verbs.Work service)) text.items (played self.new)) }
        ensures memory { OnErr result (IsPartDone (played self.old) (verbs.Work service) (played self.new)) }
        ensures proceeds { Proceeds D.Disk (guard_of self.old.machine) (guard_of self.new.machine) }
    {
        match self.machine.work(service, self.now, &mut self.tally)? {
            Work::Did => line(self.alloc, b"did", b""),
            Work::Idle => line(self.alloc, b"idle", b""),
        }
    }

    fn touch(&mut self, touch: Touch) -> Result<Vec<u8>, Memory>
        ensures answer { IfOk result (λ text. IsAnswerText (IsTouched (played self.old) touch) text.items (played self.new)) }
        ensures memory { OnErr result (HappensInPart (touched_by touch ∷ []) self.old.machine.state self.new.machine.state) }
        ensures proceeds { Proceeds D.Disk (guard_of self.old.machine) (guard_of self.new.machine) }
    {
        match self.machine.touch(touch, &mut self.tally)? {
            Touched::Taken(counts) => {
                let counts = counts_text(self.alloc, &counts)?;
                line(self.alloc, b"taken ", &counts)
            }
            Touched::Fault => line(self.alloc, b"fault taken none", b""),
            Touched::Closed => line(self.alloc, b"shutter closed", b""),
            Touched::Other => Ok(Vec::new(self.alloc)),
        }
    }

    // A genuine token for the live nonce, which is then the last one.
    fn mint(&mut self, amounts: &Amounts) -> Result<Vec<u8>, Memory>
        ensures answer { IfOk result (λ text. IsAnswerText (AnswersVerb (played self.old) (verbs.Mint amounts.now)) text.items (played self.new)) }
        ensures same { self.new.machine ≡ self.old.machine }
    {
        let Some(nonce) = self.machine.live() else {
            self.last = None;
            return line(self.alloc, b"token none", b"");
        };
        // A live nonce is of the grammar, so what remains is want of memory.
        let Ok(token) = self.key.make(self.alloc, &nonce.text, amounts) else {
            return Err(Memory);
        };
        let text = line(self.alloc, b"token ", &token);
        self.last = Some(Bytes::new(token));
        text
    }

    // boot records again on the same mechanism and disk. The moment and the last token stay.
    fn restart(&mut self) -> Result<Vec<u8>, NoAnswer>
        ensures answer { IfOk result (λ text. IsAnswerText (AnswersVerb (played self.old) verbs.Restart) text.items (played self.new)) }
        ensures memory { result ≡ Err NoAnswer.Memory → IsPartDone (played self.old) verbs.Restart (played self.new) }
        ensures unbooted { (f : BootFault) → result ≡ Err (NoAnswer.Unbooted f) → IsRestartRefused self.old f self.new }
        ensures proceeds { Proceeds D.Disk (guard_of self.old.machine) (guard_of self.new.machine) }
    {
        self.machine.reboot()?;
        self.clients.clear();
        Ok(line(self.alloc, b"restarted", b"")?)
    }

    fn show(&mut self) -> Result<Vec<u8>, Memory>
        ensures answer { IfOk result (λ text. IsAnswerText (AnswersVerb (played self.old) verbs.Show) text.items (played self.new)) }
        ensures same { self.new ≡ self.old }
    {
        show_text(
            self.alloc,
            self.machine.units().len(),
            &self.machine.places(),
        )
    }
}

// The answer to a number that isn't joined, or to a join of one that is.
fn no_client(alloc: Global) -> Result<Vec<u8>, Memory>
    ensures { IfOk result (λ text. text.items ≡ lines_text (codes "no client" ∷ [])) }
{
    line(alloc, b"no client", b"")
}

// The bytes of the last minted token, or none.
fn token_bytes(last: &Option<Bytes>) -> &[u8]
    ensures { result.now ≡ token_bytes last.now }
{
    match last {
        Some(token) => token.list(),
        None => b"",
    }
}

// The message with the token in place of each `@`. Only where it has one it is copied, into memory that is kept.
fn message_with<'a>(
    alloc: Global,
    message: &'a [u8],
    token: &[u8],
    kept: &'a mut Vec<u8>,
) -> Result<&'a [u8], Memory>
    ensures { IfOk result (λ text. text.now ≡ with_token token.now message.now) }
{
    match memchr(b'@', message) {
        None => Ok(message),
        Some(_) => {
            *kept = with_token(alloc, message, token)?;
            Ok(kept)
        }
    }
}

// The message with the token in place of each `@`. It is copied by runs, and mostly has one `@` at most.
fn with_token(alloc: Global, message: &[u8], token: &[u8]) -> Result<Vec<u8>, Memory>
    ensures { IfOk result (λ text. text.items ≡ with_token token.now message.now) }
{
    let mut text = Vec::with_capacity(alloc, message.len().saturating_add(token.len()))?;
    let mut rest = message;
    while let Some(place) = memchr(b'@', rest) {
        text.extend_from_slice(&rest[..place])?;
        text.extend_from_slice(token)?;
        rest = &rest[place + 1..];
    }
    text.extend_from_slice(rest)?;
    Ok(text)
}

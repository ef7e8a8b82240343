//! The answers of the command `host`.

ghost use Rattle.std.specs.Prelude.{◌≡◌, ◌≤◌, IfOk, OnErr};
ghost use Rattle.xfs_script.specs.Answered.{IsAnswerText};
ghost use Rattle.xfs_lines.specs.Host.Verbs.{AnswersAsk, AnswersOpen, AreHostAnswer, IsSmall, LeavesOfVerb, TellsLine, WholeOrNone};

use crate::commands::host::text::{reply_text, show_text};
use crate::output::text::with_line_feed;
use std::alloc::Global;
use xfs_base::{Currency, Memory, Milli};
use xfs_guard::BootFault;
use xfs_host::{Ask, Host, HostFault, OpenFault};
use xfs_script::{Answerer, HostLine, ScriptFault, Unanswered, read_host};

/// The bank's side that answers.
#[derive(Drop)]
pub struct Bank {
    pub alloc: Global,
    pub host: Host,
}

impl Answerer for Bank {
    ghost use Rattle.std.specs.Prelude.{⊤};
    ghost use Rattle.std.proofs.Common.{inl, refl};
    ghost use Rattle.xfs_host.specs.Host.{State};
    ghost use Rattle.xfs_lines.specs.Host.Verbs.{host_lines, is-line};

    type End = BootFault;

    ghost State = { State };

    ghost state = { λ b. b.host };

    ghost command = { host_lines };

    ghost Keeps = { λ old new. ⊤ };

    fn answer(&mut self, line: &[u8]) -> Result<Vec<u8>, Unanswered<BootFault>> {
        let verb = match read_host(self.alloc, line) {
            Ok(verb) => verb,
            Err(ScriptFault::NotALine) => return Err(Unanswered::NotALine),
            Err(ScriptFault::Memory) => return Err(Unanswered::Memory),
        };
        match verb_text(self.alloc, &mut self.host, &verb) {
            Ok(text) => Ok(text),
            Err(_) => Err(Unanswered::Memory),
        }
    }

    ghost keeps_same = { λ b. tt };

    ghost keeps_then = { λ a b c first then. tt };

    ghost leaves_same = { λ s line. inl refl };

    ghost is_short = { λ line is. is.short };

    ghost is_line = { is-line };
}

// The lines that answer a verb, a line feed behind each.
fn verb_text(alloc: Global, host: &mut Host, verb: &HostLine) -> Result<Vec<u8>, Memory>
    requires { IsSmall verb.now }
    ensures answer { IfOk result (λ text. IsAnswerText (AreHostAnswer host.old verb.now) text.items host.new) }
    ensures leaves { OnErr result (LeavesOfVerb host.old verb.now host.new) }
{
    match verb {
        HostLine::Skip => Ok(Vec::new(alloc)),
        HostLine::Account {
            account,
            currency,
            balance,
        } => open_line(alloc, host, *account, *currency, *balance),
        HostLine::Ask {
            tx,
            account,
            nonce,
            currency,
            amount,
        } => {
            // A line's nonce and amount are of the grammar, so what remains is want of memory.
            let Ok(ask) = Ask::new(alloc, *tx, *account, nonce.list(), *currency, *amount) else {
                return Err(Memory);
            };
            ask_line(alloc, host, &ask)
        }
        HostLine::Show => show_text(alloc, host),
    }
}

fn open_line(
    alloc: Global,
    host: &mut Host,
    account: u64,
    currency: Currency,
    balance: Milli,
) -> Result<Vec<u8>, Memory>
    requires { balance.0 ≤ 999999999999 }
    ensures answer { IfOk result (λ line. TellsLine (AnswersOpen host.old account currency balance.0) line.items host.new) }
    ensures leaves { OnErr result (WholeOrNone (AnswersOpen host.old account currency balance.0) host.old host.new) }
{
    with_line_feed(open_answer(alloc, host, account, currency, balance)?)
}

fn open_answer(
    alloc: Global,
    host: &mut Host,
    account: u64,
    currency: Currency,
    balance: Milli,
) -> Result<Vec<u8>, Memory>
    requires { balance.0 ≤ 999999999999 }
    ensures answer { IfOk result (λ text. AnswersOpen host.old account currency balance.0 text.items host.new) }
    ensures leaves { OnErr result (WholeOrNone (AnswersOpen host.old account currency balance.0) host.old host.new) }
{
    let word = open_word(host, account, currency, balance)?;
    Ok(Vec::from_slice(alloc, word)?)
}

fn open_word(
    host: &mut Host,
    account: u64,
    currency: Currency,
    balance: Milli,
) -> Result<&'static [u8], Memory>
    requires { balance.0 ≤ 999999999999 }
    ensures answer { IfOk result (λ word. AnswersOpen host.old account currency balance.0 word.now host.new) }
    ensures leaves { OnErr result (host.new ≡ host.old) }
{
    match host.open_account(account, currency, balance) {
        Ok(()) => Ok(b"opened"),
        Err(OpenFault::Known) => Ok(b"known"),
        Err(OpenFault::Limit) => Ok(b"full"),
        Err(OpenFault::Memory) => Err(Memory),
    }
}

fn ask_line(alloc: Global, host: &mut Host, ask: &Ask) -> Result<Vec<u8>, Memory>
    ensures answer { IfOk result (λ line. TellsLine (AnswersAsk host.old ask.now) line.items host.new) }
    ensures leaves { OnErr result (WholeOrNone (AnswersAsk host.old ask.now) host.old host.new) }
{
    with_line_feed(ask_answer(alloc, host, ask)?)
}

fn ask_answer(alloc: Global, host: &mut Host, ask: &Ask) -> Result<Vec<u8>, Memory>
    ensures answer { IfOk result (λ text. AnswersAsk host.old ask.now text.items host.new) }
    ensures leaves { OnErr result (WholeOrNone (AnswersAsk host.old ask.now) host.old host.new) }
{
    match host.authorise(ask) {
        Ok(reply) => reply_text(alloc, &reply),
        Err(HostFault::Limit) => Ok(Vec::from_slice(alloc, b"full")?),
        Err(HostFault::Memory) => Err(Memory),
    }
}

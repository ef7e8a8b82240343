ghost use Rattle.std.specs.Prelude.{◌≡◌, ◌≢◌, Ok, Err, IfOk, IfErr};
ghost use Rattle.xfs_envelope.specs.Commands.{command_in, said};
ghost use Rattle.xfs_envelope.specs.declared.command.Why.TheVariants.{Memory};

use std::alloc::Global;
use std::marker::Model;
use xfs_envelope::{Envelope, Refuse, read};

/// A text of a client that is read as a command already. It needs nothing of the machine, so whoever shares one
/// reads a text before the turn is taken. Contracts see the text.
#[derive(Drop)]
pub struct Reading<'a> {
    text: &'a [u8],
    outcome: Result<Envelope, Refuse>,
}

impl<'a> Model for Reading<'a> {
    ghost use Rattle.std.specs.Prelude.{ℕ, List};
    ghost use Rattle.xfs_traffic.specs.Readings.{IsOutcome};

    ghost Value = { List ℕ };

    ghost view = { λ r. r.text.now };

    ghost invariant = { λ r. IsOutcome r.text.now r.outcome };
}

impl<'a> Reading<'a> {
    /// Reads a text. Where memory runs out, the machine's call answers so.
    pub fn of(alloc: Global, text: &'a [u8]) -> Reading<'a>
        ensures { result ≡ text.now }
    {
        Reading {
            text,
            outcome: read(alloc, text),
        }
    }

    /// The command, or why it is none.
    pub fn outcome(self) -> Result<Envelope, Refuse>
        ensures ok { IfOk result (λ e. command_in self.entry ≡ Ok (said e)) }
        ensures refused { IfErr result (λ r. r.why ≢ Memory → command_in self.entry ≡ Err r) }
    {
        self.outcome
    }
}

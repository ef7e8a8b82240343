//! What plays the lines of `guard`, and why a line of it has no answer.

ghost use Rattle.std.specs.Prelude.{◌≡◌};
ghost use Rattle.xfs_guard.specs.declared.open.Open.TheVariants.{No};

use std::alloc::Global;
use xfs_base::{Bytes, Memory};
use xfs_disk::Disk;
use xfs_guard::{BootFault, Guard};
use xfs_mech::Mechanism;
use xfs_token::TokenKey;

/// Why a verb has no answer.
#[derive(Clone, Copy)]
pub enum NoAnswer {
    /// The line is `restart`, and that was refused for this.
    Unbooted(BootFault),
    Memory,
}

impl From<BootFault> for NoAnswer {
    ghost use Rattle.std.specs.Prelude.{◌≡◌};
    ghost use Rattle.xfs_lines.specs.declared.commands.guard.player.NoAnswer.TheVariants.{Unbooted};

    ghost from_gives = { λ fault e. e ≡ Unbooted fault };

    fn from(fault: BootFault) -> Self {
        NoAnswer::Unbooted(fault)
    }
}

impl From<Memory> for NoAnswer {
    ghost use Rattle.std.specs.Prelude.{◌≡◌};
    ghost use Rattle.xfs_lines.specs.declared.commands.guard.player.NoAnswer.TheVariants.{Memory as AnswerMemory};

    ghost from_gives = { λ _ e. e ≡ AnswerMemory };

    fn from(_: Memory) -> Self {
        NoAnswer::Memory
    }
}

/// The guard that answers, with no order open between two lines, the key of its tokens, and the token that was minted
/// last.
#[derive(Drop)]
pub struct GuardPlayer<M: Mechanism, D: Disk> {
    pub alloc: Global,
    pub guard: Guard<M, D>,
    pub key: TokenKey,
    pub last: Option<Bytes>,
    ghost none: { guard.state.open_order ≡ No },
    ghost keyed: { key ≡ guard.state.key },
}

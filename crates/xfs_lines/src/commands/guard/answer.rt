//! A line of `guard` and its answer.

use crate::commands::guard::player::{GuardPlayer, NoAnswer};
use xfs_disk::Disk;
use xfs_guard::BootFault;
use xfs_mech::Mechanism;
use xfs_script::{Answerer, ScriptFault, Unanswered, read_guard};

impl<M: Mechanism, D: Disk> Answerer for GuardPlayer<M, D> {
    ghost use Rattle.xfs_guard.proofs.KeepsLaws.{Proceeds-same, Proceeds-trans};
    ghost use Rattle.xfs_guard.specs.Keeps.{Proceeds};
    ghost use Rattle.xfs_lines.specs.Guard.Command.{guard_lines, leaves-nothing, is-line};
    ghost use Rattle.xfs_lines.specs.Guard.States.{GuardState, guard_state};

    type End = BootFault;

    ghost State = { GuardState };

    ghost state = { λ s. guard_state D.faults s.guard s.last };

    ghost command = { guard_lines };

    ghost Keeps = { λ old new. Proceeds D.Disk old.guard new.guard };

    fn answer(&mut self, line: &[u8]) -> Result<Vec<u8>, Unanswered<BootFault>> {
        let verb = match read_guard(self.alloc, line) {
            Ok(verb) => verb,
            Err(ScriptFault::NotALine) => return Err(Unanswered::NotALine),
            Err(ScriptFault::Memory) => return Err(Unanswered::Memory),
        };
        match self.answer_verb(&verb) {
            Ok(text) => Ok(text),
            Err(NoAnswer::Unbooted(fault)) => Err(Unanswered::Ends(fault)),
            Err(NoAnswer::Memory) => Err(Unanswered::Memory),
        }
    }

    ghost keeps_same = { λ s. Proceeds-same D.Disk.own s.guard D.only_now };

    ghost keeps_then = { λ a b c first then. Proceeds-trans D.Disk.own a.guard b.guard c.guard D.counts_now first then };

    ghost leaves_same = { leaves-nothing };

    ghost is_short = { λ line is. is.short };

    ghost is_line = { is-line };
}

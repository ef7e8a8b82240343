//! A line of `replay` and its answer.

use crate::commands::replay::player::Player;
use xfs_disk::Disk;
use xfs_guard::BootFault;
use xfs_lines::NoAnswer;
use xfs_mech::Mechanism;
use xfs_script::{Answerer, ScriptFault, Unanswered, read_replay};

impl<M: Mechanism, D: Disk> Answerer for Player<M, D> {
    ghost use Rattle.xfs_cli.specs.Replay.Command.{Progresses, replay_lines, leaves-none, is-replay-line, progress-same, progress-then};
    ghost use Rattle.xfs_cli.specs.Replay.States.{Played, played};

    type End = BootFault;

    ghost State = { Played };

    ghost state = { λ p. played p };

    ghost command = { replay_lines };

    ghost Keeps = { λ old new. Progresses D.Disk old.machine new.machine };

    fn answer(&mut self, line: &[u8]) -> Result<Vec<u8>, Unanswered<BootFault>> {
        let verb = match read_replay(self.alloc, line) {
            Ok(verb) => verb,
            Err(ScriptFault::NotALine) => return Err(Unanswered::NotALine),
            Err(ScriptFault::Memory) => return Err(Unanswered::Memory),
        };
        let text = match self.answer_verb(verb) {
            Ok(text) => text,
            Err(NoAnswer::Unbooted(fault)) => return Err(Unanswered::Ends(fault)),
            Err(NoAnswer::Memory) => return Err(Unanswered::Memory),
        };
        match self.mail(text) {
            Ok(text) => Ok(text),
            Err(_) => Err(Unanswered::Memory),
        }
    }

    ghost keeps_same = { λ p. progress-same D.Disk.own p.machine D.only_now };

    ghost keeps_then = { λ a b c first then. progress-then D.Disk.own _ _ _ D.counts_now first then };

    ghost leaves_same = { leaves-none };

    ghost is_short = { λ line is. is.short };

    ghost is_line = { is-replay-line };
}

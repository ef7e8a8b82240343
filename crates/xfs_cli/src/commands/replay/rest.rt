//! The line `rest`.

ghost use Rattle.std.specs.Prelude.{◌≡◌, ◌++◌, ◌∷◌, [], codes, decimal, IfOk, OnErr};
ghost use Rattle.xfs_guard.specs.Keeps.{Proceeds};
ghost use Rattle.xfs_machine.specs.MachineView.{guard_of};
ghost use Rattle.xfs_script.specs.Answered.{IsAnswerText, lines_text};
ghost use Rattle.xfs_script.specs.declared.replay_line.ReplayLine.TheVariants as verbs;
ghost use Rattle.xfs_cli.specs.Replay.Events.{AnswersVerb};
ghost use Rattle.xfs_cli.specs.Replay.Command.{IsPartDone};
ghost use Rattle.xfs_cli.specs.Replay.States.{played};

use crate::commands::replay::player::Player;
use itoa::Buffer;
use std::alloc::Global;
use xfs_base::Memory;
use xfs_disk::Disk;
use xfs_load::rest;
use xfs_mech::Mechanism;

// So many bytes the frames of a few completions have.
const FRAMES: usize = 512;

impl<M: Mechanism, D: Disk> Player<M, D> {
    pub fn rest(&mut self) -> Result<Vec<u8>, Memory>
        ensures answer { IfOk result (λ text. IsAnswerText (AnswersVerb (played self.old) verbs.Rest) text.items (played self.new)) }
        ensures memory { OnErr result (IsPartDone (played self.old) verbs.Rest (played self.new)) }
        ensures proceeds { Proceeds D.Disk (guard_of self.old.machine) (guard_of self.new.machine) }
    {
        let count = rest(&mut self.machine, self.now, &mut self.tally)?;
        rest_line(self.alloc, count)
    }
}

// The line with the count, in memory for the frames that mostly come behind it.
fn rest_line(alloc: Global, count: u32) -> Result<Vec<u8>, Memory>
    ensures { IfOk result (λ text. text.items ≡ lines_text ((codes "rested " ++ decimal count) ∷ [])) }
{
    let mut text = Vec::with_capacity(alloc, FRAMES)?;
    text.extend_from_slice(b"rested ")?;
    text.extend_from_slice(Buffer::new().format(count).as_bytes())?;
    text.push(b'\n')?;
    Ok(text)
}

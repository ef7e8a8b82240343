//! The frames that wait for the clients of a script.

ghost use Rattle.std.specs.Prelude.{◌≡◌, ◌∷◌, ◌++◌, [], map, IfOk, OnErr, OnOk};
ghost use Rattle.xfs_guard.specs.Keeps.{Proceeds};
ghost use Rattle.xfs_machine.specs.MachineView.{guard_of};
ghost use Rattle.xfs_script.specs.Answered.{lines_text};
ghost use Rattle.xfs_cli.specs.Replay.Events.{HasMail, frame_line};
ghost use Rattle.xfs_cli.specs.Replay.Command.{IsPartMailed};
ghost use Rattle.xfs_cli.specs.Replay.States.{played};

use crate::commands::replay::clients::Client;
use crate::commands::replay::player::Player;
use itoa::Buffer;
use xfs_base::Memory;
use xfs_disk::Disk;
use xfs_machine::{Frames, Machine, Tally};
use xfs_mech::Mechanism;

impl<M: Mechanism, D: Disk> Player<M, D> {
    /// Adds the frames that wait, each behind its client's number, client by client.
    pub fn mail(&mut self, mut text: Vec<u8>) -> Result<Vec<u8>, Memory>
        ensures ok { IfOk result (λ all. HasMail self.old.clients self.old.machine.state text.items all.items self.new.machine.state) }
        ensures memory { OnErr result (IsPartMailed self.old.clients self.old.machine.state self.new.machine.state) }
        ensures same { played self.new ≡ record (played self.old) { machine = self.new.machine.state } }
        ensures guard { guard_of self.new.machine ≡ guard_of self.old.machine }
    {
        hand_over(
            &mut self.machine,
            self.clients.list(),
            &mut self.tally,
            &mut text,
        )?;
        Ok(text)
    }
}

// Hands each client its frames, and adds them to the text.
fn hand_over<M: Mechanism, D: Disk>(
    machine: &mut Machine<M, D>,
    clients: &[Client],
    tally: &mut Tally,
    text: &mut Vec<u8>,
) -> Result<(), Memory>
    ensures ok { OnOk result (HasMail clients.now machine.old.state text.old.items text.new.items machine.new.state) }
    ensures memory { OnErr result (IsPartMailed clients.now machine.old.state machine.new.state) }
    ensures guard { guard_of machine.new ≡ guard_of machine.old }
{
    for client in clients {
        let frames = machine.outbox(&client.pass, tally);
        push_frames(text, client.number, frames)?;
    }
    Ok(())
}

// Adds a client's frames, a line each.
fn push_frames(text: &mut Vec<u8>, number: u32, frames: Frames) -> Result<(), Memory>
    ensures { OnOk result (text.new.items ≡ text.old.items ++ lines_text (map (frame_line number) frames)) }
{
    let list = frames.into_list();
    for frame in &list {
        push_frame(text, number, frame.list())?;
    }
    Ok(())
}

// Adds a frame behind its client's number.
fn push_frame(text: &mut Vec<u8>, number: u32, frame: &[u8]) -> Result<(), Memory>
    ensures { OnOk result (text.new.items ≡ text.old.items ++ lines_text (frame_line number frame.now ∷ [])) }
{
    // A number has at most ten digits, and a space and a line feed stand beside the frame.
    text.reserve(frame.len().saturating_add(12))?;
    text.extend_from_slice(Buffer::new().format(number).as_bytes())?;
    text.push(b' ')?;
    text.extend_from_slice(frame)?;
    text.push(b'\n')?;
    Ok(())
}

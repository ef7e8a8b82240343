//! A load played on a machine.

ghost use Rattle.std.specs.Prelude.{◌≡◌, ◌≤◌, ◌-◌, drop, length, IfOk, OnErr};
ghost use Rattle.xfs_guard.specs.Keeps.{Proceeds};
ghost use Rattle.xfs_load.specs.Plays.{PlaysRounds, RoundsInPart};
ghost use Rattle.xfs_load.specs.Summaries.{IsSummary};
ghost use Rattle.xfs_machine.specs.MachineView.{guard_of};
ghost use Rattle.xfs_model.specs.State.{bare};

use crate::client::Client;
use crate::summary::Summary;
use std::alloc::Global;
use xfs_base::{Memory, Service};
use xfs_disk::Disk;
use xfs_journal::Rec;
use xfs_machine::{JoinFault, Machine};
use xfs_mech::Mechanism;

/// Plays so many rounds of the generator on a machine that has just booted: a client joins the cash dispenser and
/// withdraws, with tokens under this key. What came of it is summed up of the completions that the client heard, and of
/// the records from the boot record on. Want of memory leaves a front of the calls made.
pub fn play<M: Mechanism, D: Disk>(
    alloc: Global,
    machine: &mut Machine<M, D>,
    key: [u8; 32],
    rounds: u32,
) -> Result<Summary, Memory>
    requires booted { machine.old.state ≡ bare machine.old.state.seen machine.old.state.life (length machine.old.state.seen.guard.records) }
    ensures plays { IfOk result (IsSummary key rounds machine.old.state machine.new.state) }
    ensures memory { OnErr result (RoundsInPart key rounds machine.old.state machine.new.state) }
    ensures proceeds { Proceeds D.Disk (guard_of machine.old) (guard_of machine.new) }
{
    let before = older(machine);
    let pass = match machine.join(Service::Cash) {
        Ok(pass) => pass,
        Err(JoinFault::Memory) => return Err(Memory),
        Err(JoinFault::Full) => unreachable!(),
    };
    let mut client = Client::new(alloc, key, pass);
    for i in 0..rounds {
        client.round(machine, i)?;
    }
    Ok(Summary::of(
        rounds,
        client.refusals(),
        machine.units(),
        behind(machine, before),
    ))
}

// How many records there are in front of the newest: memory may not have the first of them.
fn older<M: Mechanism, D: Disk>(machine: &Machine<M, D>) -> u64
    ensures count { result ≡ length machine.now.state.seen.guard.records - 1 }
    ensures kept { machine.now.state.seen.guard.base ≤ result }
{
    let _base = machine.base();
    machine.newest().saturating_sub(1)
}

// The records of a machine's journal behind so many of them.
fn behind<M: Mechanism, D: Disk>(machine: &Machine<M, D>, many: u64) -> &[Rec]
    requires kept { machine.now.state.seen.guard.base ≤ many }
    requires within { many ≤ length machine.now.state.seen.guard.records }
    ensures { result.now ≡ drop many machine.now.state.seen.guard.records }
{
    &machine.records()[(many - machine.base()) as usize..]
}

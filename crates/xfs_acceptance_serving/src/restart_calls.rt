//! A machine that starts anew, and the passes of its earlier boots.

use crate::bench::machine;
use std::test::Fail;
use xfs_base::Service;
use xfs_disk::Disk;
use xfs_machine::{Machine, Pass};
use xfs_mech::Mechanism;

fn join<M: Mechanism, D: Disk>(machine: &mut Machine<M, D>) -> Result<Pass, Fail> {
    Ok(machine.join(Service::Cash).ok().ok_or("no room to join")?)
}

fn reboot<M: Mechanism, D: Disk>(machine: &mut Machine<M, D>) -> Result<(), Fail> {
    Ok(machine.reboot()?)
}

// The pass of the first connection behind another boot.
fn next_pass<M: Mechanism, D: Disk>(machine: &mut Machine<M, D>) -> Result<Pass, Fail> {
    reboot(machine)?;
    join(machine)
}

fn opens_the_other<M: Mechanism, D: Disk>(
    machine: &Machine<M, D>,
    one: &Pass,
    other: &Pass,
) -> bool {
    !machine.is_open(one) && machine.is_open(other)
}

fn has_one_record<M: Mechanism, D: Disk>(machine: &Machine<M, D>) -> bool {
    machine.base() == 2 && machine.records().len() == 1
}

// Whether each of three boots opens its own pass alone, gives its first connection the same number, and the last has one
// record in memory.
fn opens_its_own<M: Mechanism, D: Disk>(machine: &mut Machine<M, D>) -> Result<bool, Fail> {
    let first = join(machine)?;
    let second = next_pass(machine)?;
    let is_second = opens_the_other(machine, &first, &second);
    let third = next_pass(machine)?;
    let is_third = opens_the_other(machine, &first, &third)
        && opens_the_other(machine, &second, &third);
    let are_same = first.client() == second.client() && second.client() == third.client();
    Ok(is_second && is_third && are_same && has_one_record(machine))
}

#[test]
fn a_pass_of_an_older_boot_stays_closed(rt: HostRuntime) -> Result<(), Fail> {
    let mut machine = machine(rt.alloc())?;
    assert!(rt; opens_its_own(&mut machine)?);
    Ok(())
}

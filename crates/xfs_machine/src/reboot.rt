//! A guard's restart, and the end of its open order.

ghost use Rattle.std.specs.Prelude.{◌≡◌, Err, IfErr, OnOk, is_ok};
ghost use Rattle.xfs_base.specs.Causes.{Rose};
ghost use Rattle.xfs_dispenser.specs.Seen.{seen};
ghost use Rattle.xfs_guard.specs.Keeps.{Keeps, NoEntry, Proceeds};
ghost use Rattle.xfs_guard.specs.Orders.{IsActed};
ghost use Rattle.xfs_guard.specs.declared.fail.BootFault.TheVariants.{Disk as BootDisk};
ghost use Rattle.xfs_machine.specs.Endings.{ClosesThrough, RefusesAs};
ghost use Rattle.xfs_model.specs.Guards.{Closes, Reboots, SettlesOn};

use xfs_disk::Disk;
use xfs_guard::{BootFault, Deny, Guard};
use xfs_mech::Mechanism;

/// Reads the journal again, which then gets a boot record, the one record that stays in memory. After a refusal but for
/// `Memory` no order is open.
pub(crate) fn reboot<M: Mechanism, D: Disk>(guard: &mut Guard<M, D>) -> Result<(), BootFault>
    ensures ok { OnOk result (Reboots (seen D.Disk guard.old) (seen D.Disk guard.new)) }
    ensures cause { IfErr result (λ f. RefusesAs f (seen D.Disk guard.old) (seen D.Disk guard.new)) }
    ensures disk { result ≡ Err BootDisk → Rose (D.faults guard.old.disk) (D.faults guard.new.disk) }
    ensures keeps { Keeps D.Disk NoEntry guard.old guard.new }
{
    guard.reboot()
}

/// Carries out the order that is open, where it is written alone, and settles it. Its one refusal is `Disk`.
pub(crate) fn close<M: Mechanism, D: Disk>(guard: &mut Guard<M, D>) -> Result<(), Deny>
    ensures closes { Closes guard.old.state.open_order (seen D.Disk guard.old) (is_ok result) (seen D.Disk guard.new) }
    ensures err { IfErr result (λ e. e ≡ Deny.Disk) }
    ensures through { ClosesThrough D.Disk guard.old.state.open_order guard.old guard.new }
    ensures proceeds { Proceeds D.Disk guard.old guard.new }
{
    match guard.unacted() {
        Some(_) => {
            guard.act();
            settle(guard)
        }
        None if guard.ordering() => settle(guard),
        None => Ok(()),
    }
}

fn settle<M: Mechanism, D: Disk>(guard: &mut Guard<M, D>) -> Result<(), Deny>
    requires { IsActed guard.old.state.open_order }
    ensures settles { SettlesOn (seen D.Disk guard.old) (is_ok result) (seen D.Disk guard.new) }
    ensures err { IfErr result (λ e. e ≡ Deny.Disk) }
    ensures keeps { Keeps D.Disk NoEntry guard.old guard.new }
{
    guard.settle()
}

//! An event of the world.

ghost use Rattle.std.specs.Prelude.{◌≡◌, ◌≢◌, IfOk, OnErr, OnOk};
ghost use Rattle.xfs_base.specs.Causes.{next_count};
ghost use Rattle.xfs_guard.specs.Keeps.{Proceeds};
ghost use Rattle.xfs_machine.specs.Answers.{touched_as};
ghost use Rattle.xfs_machine.specs.Changes.{DevicesAreTouched, KeepsTouched};
ghost use Rattle.xfs_machine.specs.Laws.{IsLawful};
ghost use Rattle.xfs_machine.specs.MachineView.{guard_of};
ghost use Rattle.xfs_machine.specs.declared.answer.Touched.TheVariants as Touched;
ghost use Rattle.xfs_mech.specs.declared.touch.Touch.TheVariants as Touch;
ghost use Rattle.xfs_model.specs.Events.{touch as touches};
ghost use Rattle.xfs_model.specs.Step.{Step};

use crate::answer::Touched;
use crate::machine::Machine;
use crate::notes_taken::take_notes;
use crate::tally::Tally;
use std::alloc::Global;
use xfs_base::Memory;
use xfs_disk::Disk;
use xfs_mech::{Mechanism, Touch};
use xfs_traffic::{Devices, Traffic, fail_card, fail_keys, press_key, put_card, take_card};

impl<M: Mechanism, D: Disk> Machine<M, D> {
    /// Takes one event of the world: of the card slot, of the key pad, or that the customer takes the notes
    /// from the outlet. Only the last calls the mechanism.
    pub fn touch(&mut self, touch: Touch, tally: &mut Tally) -> Result<Touched, Memory>
        ensures step { Step self.old.state (touches touch) (touched_as result) self.new.state }
        ensures laws { IsLawful self.old.state (touches touch) (touched_as result) self.new.state }
        ensures keeps { IfOk result (λ t. KeepsTouched D.Disk touch t (guard_of self.old) (guard_of self.new)) }
        ensures closed { result ≡ Ok Touched.Closed → guard_of self.new ≡ guard_of self.old }
        ensures other { touch ≢ Touch.NotesTaken → guard_of self.new ≡ guard_of self.old }
        ensures memory { OnErr result (guard_of self.new ≡ guard_of self.old) }
        ensures proceeds { Proceeds D.Disk (guard_of self.old) (guard_of self.new) }
        ensures tally { tally.new ≡ record tally.old { touches = next_count tally.old.touches } }
    {
        tally.count_touch();
        if let Touch::NotesTaken = touch {
            return take_notes(&mut self.dispenser.guard);
        }
        touch_device(self.alloc, &mut self.devices, &mut self.traffic, touch)?;
        Ok(Touched::Other)
    }
}

// An event of the card slot or of the key pad.
fn touch_device(
    alloc: Global,
    devices: &mut Devices,
    traffic: &mut Traffic,
    touch: Touch,
) -> Result<(), Memory>
    requires { touch ≢ Touch.NotesTaken }
    ensures touches { OnOk result (DevicesAreTouched touch devices.old devices.new traffic.old traffic.new) }
    ensures memory { OnErr result ((devices.new ≡ devices.old) × (traffic.new ≡ traffic.old)) }
{
    match touch {
        Touch::CardIn(card) => put_card(alloc, &mut devices.slot, traffic, card),
        Touch::CardTaken => take_card(alloc, &mut devices.slot, traffic),
        Touch::CardFault => fail_card(alloc, &mut devices.slot, &mut traffic.queues),
        Touch::Key(key) => press_key(alloc, &mut devices.keypad, traffic, key),
        Touch::KeyFault => fail_keys(alloc, &mut devices.keypad, &mut traffic.queues),
        Touch::NotesTaken => unreachable!(),
    }
}

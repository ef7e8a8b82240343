//! Laws of whole withdrawals at the machine: what a token covers is paid out.
#![tactic(auto)]

ghost use Rattle.std.specs.Prelude.{◌≤◌, ℕ, List};
ghost use Rattle.xfs_dispenser.specs.declared.ask.CashAsk.{CashAsk};
ghost use Rattle.xfs_dispenser.specs.declared.notes.Notes.{Notes};
ghost use Rattle.xfs_model.specs.State.{State};
ghost use Rattle.xfs_withdrawals.specs.Posted.{IsPosted, IsAccepted};
ghost use Rattle.xfs_withdrawals.specs.Turning.{IsIdle, Turning};
ghost use Rattle.xfs_withdrawals.specs.Withdrawals.{IsDispensable, IsPaidOut, IsPresentable, IsPutOut, IsWholeWithdrawal, Withdrawal};

use xfs_dispenser::dispenses_are_complete;

/// A Dispense that its token covers completes with success by two turns and three for each unit
/// that gives notes, where each turn is in time and no count of faults rises; a Present against
/// which nothing stands does so by five. Of a Present that is posted behind a Dispense, while the
/// outlet is empty, nothing more is asked. Turns that want memory are not counted.
pub fn withdrawals_are_complete()
    ensures dispense { (t : Turning) (notes : Notes) (token : List ℕ) → IsDispensable t notes token → IsPaidOut t notes }
    ensures present { (t : Turning) → IsPresentable t → 5 ≤ t.turns → IsPutOut t }
    ensures both { (w : Withdrawal) (notes : Notes) (token : List ℕ) → IsDispensable w.dispense notes token → IsWholeWithdrawal w notes }
{
    dispenses_are_complete();
}

/// A command that a client posts to an idle dispenser is accepted, and is next: so the laws of a
/// withdrawal are of every Dispense and Present that is posted so.
pub fn commands_to_an_idle_dispenser_are_next()
    ensures { (ask : CashAsk) (s new : State) → IsIdle s → (posted : IsPosted ask s new) → IsAccepted ask s new posted }
{}

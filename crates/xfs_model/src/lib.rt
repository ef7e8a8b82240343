//! The machine as definitions: what it is between two calls, what may happen to it, and what each of these changes;
//! with the laws of these definitions.
#![tactic(auto)]

ghost use Rattle.std.specs.Prelude.{◌≡◌, ℕ, List};
ghost use Rattle.xfs_base.specs.declared.moment.ClientId.{ClientId};
ghost use Rattle.xfs_dispenser.specs.Seen.{Seen};
ghost use Rattle.xfs_guard.specs.declared.open.Open.TheVariants.{No};
ghost use Rattle.xfs_queue.specs.declared.command.Ticket.{Ticket};
ghost use Rattle.xfs_model.specs.Advances.{Advances};
ghost use Rattle.xfs_model.specs.Causes.{HasCauses, MarksHaveCauses};
ghost use Rattle.xfs_model.specs.Conversations.{CompletesOnce, IsTalk, Keeps};
ghost use Rattle.xfs_model.specs.Events.{Answer, Event};
ghost use Rattle.xfs_model.specs.Faults.{FaultsHaveCauses, RefusalsHaveCauses};
ghost use Rattle.xfs_model.specs.GuardCalls.{AtMostOneCall, IsPlain};
ghost use Rattle.xfs_model.specs.Kept.{IsMachine};
ghost use Rattle.xfs_model.specs.Moved.{RunsSince, SucceedsInFull};
ghost use Rattle.xfs_model.specs.Laws.{EachFirmRun, EachHanding, EachStep};
ghost use Rattle.xfs_model.specs.Runs.{IsReached};
ghost use Rattle.xfs_model.specs.Sound.{IsSound};
ghost use Rattle.xfs_model.specs.State.{State, bare};
ghost use Rattle.xfs_model.specs.Step.{Step};
ghost use Rattle.xfs_model.specs.Successes.{OrdersFollow, SuccessesHaveCauses};
ghost use Rattle.xfs_model.specs.Told.{AllTell, HasToldTruly, IsTold, KeepsTold};

mod known;

pub use known::Known;

/// Each step keeps the conversation of every connection, and begins that of a connection that joins.
pub fn steps_keep_conversations()
    ensures { (old new : State) (event : Event) (answer : Answer) → IsMachine old → Step old event answer new → Keeps old event answer new }
{}

/// Each step keeps that at most 64 connections are open, that their client numbers rise, that the
/// ids of a client differ while they are pending, and that at most one command of a service runs.
pub fn steps_keep_the_machine()
    ensures { EachStep (λ old _. IsMachine old) (λ _ _ new. IsMachine new) }
{}

/// From a boot on, what a client posted since its join and what it was handed, with what waits for it
/// and is pending, is a conversation, as long as it is connected.
pub fn runs_are_conversations()
    ensures { (mine : ClientId) (now : State) (texts frames : List (List ℕ)) → IsReached mine now texts frames → IsTalk now mine texts frames }
{}

/// From a boot of a guard with no order open, every machine that is reached is sound. All that a client
/// was handed since its join, and all that waits, tells what stands in the journal's list now.
pub fn runs_are_sound()
    ensures sound { EachFirmRun (λ now _. IsSound now) }
    ensures told { EachFirmRun HasToldTruly }
{}

/// From a boot on, each text of a connected client has one acknowledge, and each command that was
/// accepted at most one completion. A later state of the run is such a state too, with more frames:
/// no step adds a second completion.
pub fn commands_complete_once()
    ensures { (mine : ClientId) (now : State) (texts frames : List (List ℕ)) → IsReached mine now texts frames → CompletesOnce now mine texts frames }
{}

/// A step that is no restart and no finish makes at most one call of the guard, so that what each of
/// these calls keeps is kept.
pub fn steps_call_the_guard_once()
    ensures { EachStep (λ _ event. IsPlain event) (λ old _ new. AtMostOneCall old.seen new.seen) }
{}

/// Each step keeps that a ready command has its result, that one with the result `canceled` is marked, and that one with the result
/// `timeOut` has a timeout whose deadline has come.
pub fn results_have_their_causes()
    ensures { EachStep (λ old _. IsMachine old) (λ old _ new. HasCauses old → HasCauses new) }
{}

/// A command that is marked behind a step was marked before it, or it was pending and the step is a
/// Cancel that names it, posted by its own client over its open connection, or its client leaves. So a
/// result `canceled` that a client hears comes of a Cancel of its own.
pub fn marks_have_their_causes()
    ensures { (old new : State) (event : Event) (answer : Answer) → Step old event answer new → MarksHaveCauses old event new }
{}

/// Each step keeps the machine sound: what its type keeps from call to call.
pub fn steps_keep_the_machine_sound()
    ensures { EachStep (λ old _. IsSound old) (λ _ _ new. IsSound new) }
{}

/// A machine with no connection and no command is sound, where no order is open.
pub fn bare_machines_are_sound()
    ensures { (seen : Seen) (life boot : ℕ) → seen.guard.open_order ≡ No → IsSound (bare seen life boot) }
{}

/// No step takes back what the guard has: the journal's list only grows, no count of faults falls, and
/// key, seed, units and limits stay. The journal's base stays too, but in a restart. A restart, an end and a
/// finish are such steps too.
pub fn steps_advance_the_guard()
    ensures { (old new : State) (event : Event) (answer : Answer) → Step old event answer new → Advances event old.seen new.seen }
{}

/// Each step keeps what was told of the journal: each frame that waits, and each result, names only
/// Issues and marks of its list. So does each frame that a client is handed. The guard's list has a mark
/// from its first boot record on.
pub fn steps_keep_what_was_told()
    ensures kept { EachStep (λ old _. IsSound old) (λ old _ new. KeepsTold old new) }
    ensures handed { EachHanding (λ old frames. IsTold old → AllTell old frames) }
    ensures bare { (seen : Seen) (life boot : ℕ) → IsTold (bare seen life boot) }
{}

/// A command that has the result hardwareError behind a step had it before, or ran in that step: at the
/// dispenser while the mechanism's count of faults rose, at the card reader or keyboard while its device
/// had a fault. So it is of the mark that an order's failure leaves in its plan until it is settled.
pub fn faults_have_their_causes()
    ensures { EachStep (λ old _. IsSound old) FaultsHaveCauses }
{}

/// A command that has the result deviceNotReady behind a step had it before, or it is of the dispenser,
/// and in that step the journal took no more records, or its disk failed, or the journal wasn't read again.
pub fn refusals_have_their_causes()
    ensures { EachStep (λ old _. IsSound old) (λ old _ new. RefusalsHaveCauses old new) }
{}

/// A command that has the result success behind a step had it before, or is one that is done at once, or
/// was done by its device, or no part of its plan is left and its last order was carried out in full. So
/// a Dispense or a Present has it only with a plan that was done.
pub fn successes_have_their_causes()
    ensures { EachStep (λ old _. IsSound old) (λ old _ new. SuccessesHaveCauses old new) }
{}

/// A Dispense or a Present has the result success only where all of its notes were moved since the step
/// that began it: notes that were asked for, and that its result tells, went from the units to the
/// transport; the whole transport went to the outlet. No other notes went anywhere, but that the
/// customer may take what lies in the outlet.
pub fn successes_move_all_notes()
    ensures { (start : State) (t : Ticket) → IsSound start → EachStep (λ s _. RunsSince start t s) (λ _ _ new. SucceedsInFull start new t) }
{}

/// An order that is open behind a step that is no restart and no finish was open before, or it was written
/// in it, of all the notes of its place, or it was written before and is carried out in it: in full
/// where the mechanism didn't fail.
pub fn orders_follow_each_other()
    ensures { EachStep (λ _ event. IsPlain event) (λ old _ new. OrdersFollow old new) }
{}

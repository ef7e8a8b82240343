ghost use Rattle.xfs_dispenser.specs.Complete.{IsComplete};

/// A law about the definitions: a dispense that its token covers is begun with a plan, three steps
/// for each of its units do it in full, and a present behind it is done in full by three, where no
/// count of faults rises. The call does nothing.
pub fn dispenses_are_complete()
    ensures { IsComplete }
{}

//! The plans of commands.

ghost use Rattle.std.specs.Prelude.{◌≡◌, ◌≤◌, ◌<◌, ◌+◌, ◌==◌, ◌++◌, None, [], ◌∷◌, if◌then◌else◌};
ghost use Rattle.arrayvec.specs.ArrayVec.{array_vec_len};
ghost use Rattle.xfs_guard.specs.declared.ask.Ask.TheVariants.{Stack};
ghost use Rattle.xfs_dispenser.specs.Plans.{dispense_plan, emptying, loads, order_plan, plan_of, reset_plan, stacks, storage_plan};
ghost use Rattle.xfs_dispenser.specs.declared.part.Part.TheVariants as Part;

use crate::part::Part;
use arrayvec::ArrayVec;
use xfs_base::{Counts, Places};
use xfs_guard::Ask;

/// What is left to be done of a command that has begun. It takes no memory.
#[derive(Debug, Drop)]
pub struct Plan {
    /// The notes of a Dispense, which its answer tells. None for every other command.
    pub notes: Option<Counts>,
    /// The parts that are left, in their order.
    pub parts: ArrayVec<Part, 16>,
    /// Whether the mechanism failed at the order that was carried out last.
    pub failed: bool,
}

impl Plan {
    // The units' orders of a dispense.
    pub(crate) fn dispense(issue: u64, counts: &Counts) -> Plan
        ensures { result ≡ dispense_plan issue counts.now }
    {
        Plan {
            notes: Some(*counts),
            parts: stacks(issue, &counts.0),
            failed: false,
        }
    }

    // The order of all the notes of a place.
    pub(crate) fn order(ask: Ask) -> Plan
        ensures { result ≡ order_plan ask }
    {
        Plan::of(Part::Order(ask))
    }

    // A Reset, of which the parts behind the restore are not known yet.
    pub(crate) fn reset() -> Plan
        ensures { result ≡ reset_plan }
    {
        Plan::of(Part::Restore)
    }

    fn of(part: Part) -> Plan
        ensures { result ≡ plan_of None (part ∷ []) }
    {
        let mut parts = ArrayVec::new();
        parts.push(part);
        Plan {
            notes: None,
            parts,
            failed: false,
        }
    }

    // The loadings and their records.
    pub(crate) fn storage(added: &Counts) -> Plan
        ensures { result ≡ storage_plan added.now }
    {
        Plan {
            notes: None,
            parts: loads(&added.0),
            failed: false,
        }
    }
}

fn stacks(issue: u64, counts: &[u32; 8]) -> ArrayVec<Part, 16>
    ensures { result.items ≡ stacks issue counts.now }
{
    let mut parts = ArrayVec::new();
    for at in 0..8u8 {
        push_stack(&mut parts, issue, at + 1, counts[usize::from(at)]);
    }
    parts
}

// The order of a unit, where there are notes of it.
fn push_stack(parts: &mut ArrayVec<Part, 16>, issue: u64, unit: u8, count: u32)
    requires { array_vec_len parts.old < 16 }
    ensures items { parts.new.items ≡ parts.old.items ++ (if count == 0 then [] else Part.Order (Stack issue unit count) ∷ []) }
    ensures len { array_vec_len parts.new ≤ array_vec_len parts.old + 1 }
{
    if count != 0 {
        parts.push(Part::Order(Ask::Stack { issue, unit, count }));
    }
}

fn loads(counts: &[u32; 8]) -> ArrayVec<Part, 16>
    ensures { result.items ≡ loads counts.now }
{
    let mut parts = ArrayVec::new();
    for at in 0..8u8 {
        push_load(&mut parts, at + 1, counts[usize::from(at)]);
    }
    parts
}

// The loading of a unit and its record, where notes are added to it.
fn push_load(parts: &mut ArrayVec<Part, 16>, unit: u8, count: u32)
    requires { array_vec_len parts.old + 1 < 16 }
    ensures items { parts.new.items ≡ parts.old.items ++ (if count == 0 then [] else Part.Load unit count ∷ Part.Note unit count ∷ []) }
    ensures len { array_vec_len parts.new ≤ array_vec_len parts.old + 2 }
{
    if count != 0 {
        parts.push(Part::Load { unit, count });
        parts.push(Part::Note { unit, count });
    }
}

// The orders that empty transport and outlet.
pub(crate) fn emptying(places: &Places) -> ArrayVec<Part, 16>
    ensures { result.items ≡ emptying places.now }
{
    let mut parts = ArrayVec::new();
    if places.transport.notes() != 0 {
        parts.push(Part::Order(Ask::Reject));
    }
    if places.outlet.notes() != 0 {
        parts.push(Part::Order(Ask::Retract));
    }
    parts
}

//! A way to split the commands that are pending at some frame of a conversation.

ghost use Rattle.std.specs.Prelude.{◌≡◌, ◌≤◌, ◌-◌, ◌↔◌, ℕ, List, length, take, Contains, IsTrue, IfOk, OnOk};
ghost use Rattle.xfs_audit.specs.declared.way.Step.TheVariants.{Accepted, Completed, Told};
ghost use Rattle.xfs_audit.specs.Ways.{is_same, Adds, AddsWithout, CanStay, HasId, HasIdOf, IsKnown, IsMore, IsOver, IsPlaceOf};

use std::alloc::Global;
use std::marker::Model;
use xfs_base::Memory;
use xfs_envelope::{Name, NameFault};

/// A command that was asked for.
#[derive(Drop)]
pub struct Asked {
    pub id: u64,
    pub name: Name,
}

impl Model for Asked {
    ghost use Rattle.xfs_conversation.specs.Pending.{Pending};

    ghost Value = { Pending };

    ghost view = { λ a. record { id = a.id; name = a.name } };
}

impl Asked {
    // Whether two commands have one id and name.
    fn is_same(&self, other: &Asked) -> bool
        ensures { result ≡ is_same self.now other.now }
    {
        self.id == other.id && self.name.as_str().as_bytes() == other.name.as_str().as_bytes()
    }

    fn copy(&self, alloc: Global) -> Result<Asked, Memory>
        ensures { IfOk result (λ a. a ≡ self.now) }
    {
        match Name::new(alloc, self.name.as_str().as_bytes()) {
            Ok(name) => Ok(Asked { id: self.id, name }),
            Err(NameFault::Form) => unreachable!(),
            Err(NameFault::Memory) => Err(Memory),
        }
    }
}

/// What a frame does to the commands that are pending.
#[derive(Drop)]
pub enum Step {
    Accepted(Asked),
    Completed(Asked),
    /// An event told of the command with this id.
    Told(u64),
}

/// So many of the ids at the end are those of pending commands, which stay so; the other pending commands are due: they
/// are completed later.
#[derive(Drop)]
pub struct Way {
    pub stays: usize,
    pub due: Vec<Asked>,
}

impl Way {
    /// Adds the ways that this step leads into this one from.
    pub fn back(
        self,
        alloc: Global,
        step: &Step,
        ids: &[u64],
        ways: &mut Vec<Way>,
    ) -> Result<(), Memory>
        ensures { OnOk result (Adds ids.now step.now self ways.old.items ways.new.items) }
    {
        match step {
            Step::Accepted(asked) => self.before_accepted(alloc, asked, ids, ways),
            Step::Completed(asked) => self.before_completed(alloc, asked, ways),
            Step::Told(id) => self.before_told(*id, ids, ways),
        }
    }

    /// Whether no command is pending.
    pub fn is_over(&self) -> bool
        ensures { IsTrue result ↔ IsOver self.now }
    {
        self.stays == 0 && self.due.is_empty()
    }

    // The command that is accepted is the last of those that stay, or it is due.
    fn before_accepted(
        self,
        alloc: Global,
        asked: &Asked,
        ids: &[u64],
        ways: &mut Vec<Way>,
    ) -> Result<(), Memory>
        ensures { OnOk result (Adds ids.now (Accepted asked.now) self ways.old.items ways.new.items) }
    {
        if self.can_stay(ids, asked.id) {
            add(ways, self.with_one_less(alloc)?)?;
        }
        self.add_without(asked, ways)
    }

    // Adds this way without a command like this one, where such a one is due.
    fn add_without(mut self, asked: &Asked, ways: &mut Vec<Way>) -> Result<(), Memory>
        ensures { OnOk result (AddsWithout asked.now self ways.old.items ways.new.items) }
    {
        match self.place_of(asked) {
            Some(place) => {
                self.due.remove(place);
                add(ways, self)
            }
            None => Ok(()),
        }
    }

    fn before_completed(
        mut self,
        alloc: Global,
        asked: &Asked,
        ways: &mut Vec<Way>,
    ) -> Result<(), Memory>
        ensures { OnOk result ((ids : List ℕ) → Adds ids (Completed asked.now) self ways.old.items ways.new.items) }
    {
        self.due.push(asked.copy(alloc)?)?;
        add(ways, self)
    }

    fn before_told(self, id: u64, ids: &[u64], ways: &mut Vec<Way>) -> Result<(), Memory>
        ensures { OnOk result (Adds ids.now (Told id) self ways.old.items ways.new.items) }
    {
        if self.has_id(ids, id) {
            add(ways, self)?;
        }
        Ok(())
    }

    // Whether the last of those that stay has this id.
    fn can_stay(&self, ids: &[u64], id: u64) -> bool
        ensures { IsTrue result ↔ CanStay ids.now self.now.stays id }
    {
        match self.stays.checked_sub(1) {
            Some(last) => ids.get(last) == Some(&id),
            None => false,
        }
    }

    // This way, with one less that stays.
    fn with_one_less(&self, alloc: Global) -> Result<Way, Memory>
        ensures stays { IfOk result (λ way. way.stays ≡ self.now.stays - 1) }
        ensures due { IfOk result (λ way. way.due.items ≡ self.now.due.items) }
    {
        let mut due = Vec::with_capacity(alloc, self.due.len())?;
        for asked in &self.due {
            due.push(asked.copy(alloc)?)?;
        }
        Ok(Way {
            stays: self.stays.saturating_sub(1),
            due,
        })
    }

    // The first place of a command like this among those that are due.
    fn place_of(&self, asked: &Asked) -> Option<usize>
        ensures { IsPlaceOf asked.now self.now.due.items result }
    {
        for i in 0..self.due.len() {
            if asked.is_same(&self.due[i]) {
                return Some(i);
            }
        }
        None
    }

    // Whether a pending command has this id.
    fn has_id(&self, ids: &[u64], id: u64) -> bool
        ensures { self.now.stays ≤ length ids.now → (IsTrue result ↔ HasIdOf id self.now.due.items (take self.now.stays ids.now)) }
    {
        self.is_due(id) || self.is_staying(ids, id)
    }

    fn is_due(&self, id: u64) -> bool
        ensures { IsTrue result ↔ HasId id self.now.due.items }
    {
        for asked in &self.due {
            if asked.id == id {
                return true;
            }
        }
        false
    }

    fn is_staying(&self, ids: &[u64], id: u64) -> bool
        ensures { self.now.stays ≤ length ids.now → (IsTrue result ↔ Contains (take self.now.stays ids.now) id) }
    {
        match ids.get(..self.stays) {
            Some(ids) => ids.contains(&id),
            None => false,
        }
    }
}

// Adds a way to those that are known, where it isn't there.
fn add(ways: &mut Vec<Way>, way: Way) -> Result<(), Memory>
    ensures { OnOk result (IsMore way ways.old.items ways.new.items) }
{
    if !is_known(ways, &way) {
        ways.push(way)?;
    }
    Ok(())
}

fn is_known(ways: &[Way], way: &Way) -> bool
    ensures { IsTrue result → IsKnown ways.now way.now }
{
    for known in ways {
        if known.stays == way.stays && are_same(&known.due, &way.due) {
            return true;
        }
    }
    false
}

fn are_same(one: &[Asked], other: &[Asked]) -> bool
    ensures { IsTrue result → one.now ≡ other.now }
{
    if one.len() != other.len() {
        return false;
    }
    for i in 0..one.len() {
        if !one[i].is_same(&other[i]) {
            return false;
        }
    }
    true
}

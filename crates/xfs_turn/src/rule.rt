//! The rule of the lock over its two words and its slot, and what each step tells the seat that makes it.

ghost use Rattle.atomic_table.specs.Table.{State};
ghost use Rattle.xfs_turn.specs.Turns.{IsKept, HasParts};
ghost use Rattle.xfs_turn.specs.Steps.{CanTake, CanCount, CanGive, CanSplit, CanJoin, CanLearn};

use crate::chronicle::Chronicle;
use atomic_table::{Join, Play, Split, TableRule};
use std::collections::LinkedList;
use std::marker::PhantomData;
use std::snapshot::Snapshot;

/// The slot's content: the value, or that a seat has it.
#[derive(Drop)]
pub enum Cell<T> {
    Home(T),
    Out,
}

/// What a seat knows: the list that it has seen, whether it holds the turn, and from which list on.
/// `first` and `second` are what a join has put together, until the load behind it. No value is made.
pub struct Knowledge<E> {
    pub seen: LinkedList<E>,
    pub holds: bool,
    pub base: LinkedList<E>,
    pub first: LinkedList<E>,
    pub second: LinkedList<E>,
}

/// The rule. Word 0 is 1 while a seat has the turn, and word 1 is the length of the list.
pub struct TurnRule<T> {
    marker: PhantomData<T>,
}

impl<T: Chronicle> TableRule<Cell<T>, Knowledge<T::Entry>, Snapshot<T>> for TurnRule<T> {
    ghost use Rattle.xfs_turn.specs.Turns.{IsKept, knows};

    ghost holds = { λ _. IsKept T.list };

    ghost first = { λ start. knows (T.list start.value) };
}

/// Takes the turn and the value, or finds that another seat has it.
pub struct Take<T> {
    marker: PhantomData<T>,
}

impl<T: Chronicle> Play<Cell<T>, Knowledge<T::Entry>> for Take<T> {
    ghost use Rattle.xfs_turn.specs.Turns.{Took};

    ghost then = { Took T.list };
}

/// Stores the length of the list of the value in hand.
pub struct Count<T> {
    marker: PhantomData<T>,
}

impl<T: Chronicle> Play<Cell<T>, Knowledge<T::Entry>> for Count<T> {
    ghost use Rattle.xfs_turn.specs.Turns.{Counted};

    ghost then = { Counted T.list };
}

/// Gives the value and the turn back.
pub struct Give<T> {
    marker: PhantomData<T>,
}

impl<T: Chronicle> Play<Cell<T>, Knowledge<T::Entry>> for Give<T> {
    ghost use Rattle.xfs_turn.specs.Turns.{Gave};

    ghost then = { Gave T.list };
}

/// Learns that both lists that a join has put together begin the longer one.
pub struct Learn<T> {
    marker: PhantomData<T>,
}

impl<T: Chronicle> Play<Cell<T>, Knowledge<T::Entry>> for Learn<T> {
    ghost use Rattle.xfs_turn.specs.Turns.{Learned};

    ghost then = { Learned T.list };
}

/// A seat is split into two that know the same.
pub struct Alike;

impl<E> Split<Knowledge<E>> for Alike {
    ghost left = { λ v. v };

    ghost right = { λ v. v };
}

/// Two seats are joined into one that knows what either knew.
pub struct Both;

impl<E> Join<Knowledge<E>> for Both {
    ghost use Rattle.std.specs.Prelude.{[]};
    ghost use Rattle.xfs_turn.specs.Turns.{joined, knows};

    ghost both = { joined };

    ghost spent = { knows [] };
}

/// A law, which does nothing: what the rule says of every state between two steps, and that each kind
/// of step keeps it, with what the step tells the seat that makes it. Every call of a `Turn` goes by these steps.
pub fn rule_of_turns<T: Chronicle>()
    ensures parts { (s : State (Cell T) (Knowledge T.Entry)) → IsKept T.list s → HasParts T.list s }
    ensures take { CanTake T.list }
    ensures count { CanCount T.list }
    ensures give { CanGive T.list }
    ensures split { CanSplit T.list }
    ensures join { CanJoin T.list }
    ensures learn { CanLearn T.list }
{}

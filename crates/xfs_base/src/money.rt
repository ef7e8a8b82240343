ghost use Rattle.std.specs.Prelude.{◌≡◌, ◌+◌, ◌-◌, ◌<◌, ◌≤◌, ◌^◌, ◌↔◌, length, All, IsSome, IfSome, slice_get};
ghost use Rattle.xfs_base.specs.Money.{value_from, kind_of};
ghost use Rattle.xfs_base.specs.Values.{IsNoteValue};

use crate::Currency;
use std::marker::Model;

/// An amount in thousandths of a currency's unit.
#[derive(Clone, Copy, Debug, PartialEq, Eq, PartialOrd, Ord)]
pub struct Milli(pub u64);

/// The notes of one cash unit: their currency, and the value of one in whole units of it.
#[derive(Clone, Copy, Debug, PartialEq, Eq)]
pub struct NoteKind {
    pub currency: Currency,
    pub value: u32,
}

/// The kinds of notes of the cash units `unit1` to `unit8`, which count from 1.
#[derive(Debug, Drop)]
pub struct UnitTable {
    kinds: [NoteKind; 8],
    len: u8,
}

impl Model for UnitTable {
    ghost use Rattle.std.specs.Prelude.{◌≤◌, List, take, All};
    ghost use Rattle.xfs_base.specs.declared.money.NoteKind.{NoteKind};
    ghost use Rattle.xfs_base.specs.Values.{IsNoteValue};

    ghost Value = { List NoteKind };

    ghost view = { λ t. take t.len t.kinds };

    ghost invariant = { λ t. (1 ≤ t.len) × (t.len ≤ 8) × All (λ k. IsNoteValue k.value) (take t.len t.kinds) };
}

impl UnitTable {
    /// None exactly where there are none or more than 8 kinds, or a value is outside 1 to 1,000,000.
    pub fn new(kinds: &[NoteKind]) -> Option<UnitTable>
        ensures found { IfSome result (λ t. t ≡ kinds.now) }
        ensures valid { IsSome result ↔ ((1 ≤ length kinds.now) × (length kinds.now ≤ 8) × All (λ k. IsNoteValue k.value) kinds.now) }
    {
        if kinds.is_empty()
            || kinds.len() > 8
            || !kinds.iter().all(|k| k.value >= 1 && k.value <= 1_000_000)
        {
            return None;
        }
        Some(table_of(kinds))
    }

    /// The same table once more.
    pub fn copied(&self) -> UnitTable
        ensures { result ≡ self.now }
    {
        table_of(self.kinds())
    }

    /// How many units there are.
    pub fn len(&self) -> u8
        ensures len { result ≡ length self.now }
        ensures low { 1 ≤ length self.now }
        ensures high { length self.now ≤ 8 }
    {
        self.kinds().len() as u8
    }

    /// The kind of a unit, which counts from 1. None exactly where the unit isn't 1 to `len`.
    pub fn kind(&self, unit: u8) -> Option<NoteKind>
        ensures { result ≡ kind_of self.now unit }
    {
        if unit == 0 {
            return None;
        }
        self.kinds().get(usize::from(unit) - 1).copied()
    }

    /// The kinds in the order of the units.
    pub fn kinds(&self) -> &[NoteKind]
        ensures now { result.now ≡ self.now }
        ensures low { 1 ≤ length self.now }
        ensures high { length self.now ≤ 8 }
        ensures values { All (λ k. IsNoteValue k.value) self.now }
    {
        &self.kinds[..self.len as usize]
    }
}

fn table_of(kinds: &[NoteKind]) -> UnitTable
    requires low { 1 ≤ length kinds.now }
    requires high { length kinds.now ≤ 8 }
    requires values { All (λ k. IsNoteValue k.value) kinds.now }
    ensures { result ≡ kinds.now }
{
    let mut all = [kinds[0]; 8];
    all[..kinds.len()].copy_from_slice(kinds);
    UnitTable {
        kinds: all,
        len: kinds.len() as u8,
    }
}

pub(crate) fn value_of(kinds: &[NoteKind], counts: &[u32; 8], currency: Currency) -> u128
    requires few { length kinds.now ≤ 8 }
    requires values { All (λ k. IsNoteValue k.value) kinds.now }
    ensures value { result ≡ value_from kinds.now 0 counts.now currency }
    ensures small { result < 2 ^ 65 }
{
    let mut total = 0u128;
    for (i, k) in kinds.iter().enumerate() {
        if k.currency == currency {
            total += 1000 * u128::from(k.value) * u128::from(counts[i]);
        }
    }
    total
}

//! What a machine tells once all connections have come.

use std::fmt::Write;
use std::test::Fail;
use xfs_base::Counts;
use xfs_disk::Disk;
use xfs_journal::Rec;
use xfs_machine::Machine;
use xfs_mech::Mechanism;

/// Tells how many connections are open, the number of the live nonce, the journal's records, and how many notes of the
/// third unit were taken and lie in the outlet. 0 is no nonce; a record is a `K` for a Start, its number for an Issue, a
/// `T` for a token, an `O` for an order and a `D` for what was done of it.
pub fn tell_machine<M: Mechanism, D: Disk>(
    told: &mut String,
    machine: &Machine<M, D>,
) -> Result<(), Fail> {
    let live = match machine.live() {
        Some(nonce) => nonce.number,
        None => 0,
    };
    let open = machine.open_count();
    write!(told, "{open} {live} ")?;
    for rec in machine.records() {
        told.push(letter_of(rec))?;
    }
    let places = machine.places();
    let (taken, outlet) = (third_of(&places.taken), third_of(&places.outlet));
    write!(told, " {taken} {outlet}\n")?;
    Ok(())
}

// How many notes of the third unit there are, where there are no others.
fn third_of(counts: &Counts) -> u32 {
    let third = counts.0[2];
    if *counts == Counts([0, 0, third, 0, 0, 0, 0, 0]) {
        third
    } else {
        u32::MAX
    }
}

fn letter_of(rec: &Rec) -> char {
    match rec {
        Rec::Start {
            issues: _,
            places: _,
        } => 'K',
        Rec::Issue { number, word: _ } if *number < 10 => char::from(b'0' + *number as u8),
        Rec::Bind { token: _ } => 'T',
        Rec::Order { kind: _, counts: _ } => 'O',
        Rec::Done {
            moved: _,
            diverted: _,
        } => 'D',
        _ => '?',
    }
}

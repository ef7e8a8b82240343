//! Each caller, called once.

use crate::{
    Denial, Visits, admit, answer, append_clear, notes_for, signature, take_next, timeout_in, visit,
};
use std::test::Fail;
use xfs_base::{ClientId, Counts, Currency, Moment, NoteKind, UnitTable};
use xfs_disk::MemDisk;
use xfs_journal::{Journal, Limits, Rec};
use xfs_queue::{Line, Queue};
use xfs_turn::Turn;

#[test]
fn a_genuine_token_is_admitted(rt: HostRuntime) -> Result<(), Fail> {
    let text =
        b"NONCE=E56A5D4028BD86530000000000000001,TOKENFORMAT=1,TOKENLENGTH=0164,DISPENSE1=50.00EUR,HMACSHA256=3D5C9E3C4712EA6A5C3803CA4CB0E54958CB4C8778ACBBB26FEA1F6935956AC2";
    let admitted = admit(rt.alloc(), &[0x0B; 32], text);
    assert!(rt;
        admitted.is_ok_and(|token| token.nonce() == b"E56A5D4028BD86530000000000000001".as_slice())
    );
    assert_eq!(rt;
        admit(rt.alloc(), &[0x0C; 32], text).err(),
        Some(Denial::Forged)
    );
    assert_eq!(rt;
        admit(rt.alloc(), &[0x0B; 32], b"NONCE=").err(),
        Some(Denial::NoToken)
    );
    Ok(())
}

#[test]
fn a_clear_is_the_second_record(rt: HostRuntime) -> Result<(), Fail> {
    let limits = Limits {
        records: 10,
        bytes: 4096,
    };
    let disk = MemDisk::new(rt.alloc(), Vec::new(rt.alloc()));
    let Ok(mut journal) = Journal::mount(rt.alloc(), disk, limits) else {
        return Err("the disk is not mounted")?;
    };
    assert!(rt; append_clear(&mut journal) == Ok(1));
    assert!(rt; append_clear(&mut journal) == Ok(2));
    assert!(rt; matches!(journal.records(), [Rec::Clear, Rec::Clear]));
    Ok(())
}

// RFC 4231, test case 2.
#[test]
fn a_hook_is_signed(rt: HostRuntime) {
    let signed = signature(b"Jefe", b"what do ya want for nothing?");
    assert!(rt; &signed == b"5BDCC146BF60754E6A042426089575C75A003F089D2739839DEC58B964EC3843");
}

#[test]
fn the_first_that_waits_is_taken_out(rt: HostRuntime) -> Result<(), Fail> {
    let mut queue = Queue::new(rt.alloc());
    for id in 1..=2 {
        let offered = queue.offer(ClientId(1), id, Line::Device, 0, Moment(0), id);
        assert!(rt; offered.is_ok());
    }
    assert_eq!(rt; take_next(&mut queue).map(|taken| taken.id), Some(1));
    assert_eq!(rt; take_next(&mut queue).map(|taken| taken.id), Some(2));
    assert!(rt; take_next(&mut queue).is_none());
    Ok(())
}

#[test]
fn seventy_euros_are_two_notes(rt: HostRuntime) -> Result<(), Fail> {
    let currency = Currency::new(b"EUR").ok_or("letters")?;
    let kinds = [10, 20, 50].map(|value| NoteKind { currency, value });
    let units = UnitTable::new(&kinds).ok_or("a table")?;
    let have = Counts([100, 100, 100, 0, 0, 0, 0, 0]);
    let due = Counts([0, 1, 1, 0, 0, 0, 0, 0]);
    assert!(rt; notes_for(rt.alloc(), &units, &have, currency, 70) == Ok(Some(due)));
    assert!(rt; notes_for(rt.alloc(), &units, &have, currency, 75) == Ok(None));
    Ok(())
}

#[test]
fn a_text_is_answered_at_once(rt: HostRuntime) -> Result<(), Fail> {
    let text = br#"{"header":{"name":"Common.Status","requestId":7,"type":"command"}}"#;
    let due =
        br#"{"header":{"name":"Common.Status","requestId":7,"type":"acknowledge","version":"2.0"}}"#;
    assert!(rt; answer(rt.alloc(), text)?.as_slice() == due.as_slice());
    let due = br#"{"header":{"status":"invalidMessage","type":"acknowledge","version":"2.0"}}"#;
    assert!(rt; answer(rt.alloc(), b"{")?.as_slice() == due.as_slice());
    Ok(())
}

#[test]
fn a_timeout_is_found(rt: HostRuntime) {
    assert!(rt; timeout_in(rt.alloc(), br#"{"timeout":5000}"#) == Ok(Some(5000)));
    assert!(rt; timeout_in(rt.alloc(), br#"{"timeout":"5000"}"#) == Ok(None));
    assert!(rt; timeout_in(rt.alloc(), b"{") == Ok(None));
}

#[test]
fn a_visit_is_seen(rt: HostRuntime) -> Result<(), Fail> {
    let visits = Visits {
        names: Vec::new(rt.alloc()),
    };
    let (turn, seat) = Turn::new(rt.alloc(), visits).map_err(|(_, memory)| memory)?;
    let (seat, written) = visit(&rt, &turn, seat, 5);
    assert!(rt; written);
    assert_eq!(rt; seat.seen(), 1);
    Ok(())
}

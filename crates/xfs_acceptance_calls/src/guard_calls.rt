//! The guard's calls, and what a line of the command doesn't tell of them: the ends of a nonce's life, orders that no
//! dispense makes, the fields of a refusal, and restores over disks that fail.

ghost use Rattle.std.specs.Prelude.{◌≡◌};
ghost use Rattle.xfs_base.specs.Causes.{IfTold};
ghost use Rattle.std.specs.Prelude.{[]};

use crate::guard_bench::{guard_over, sim, units};
use crate::teller::{Teller, numbers};
use std::alloc::Global;
use std::process::Abort;
use std::test::Fail;
use xfs_base::UnitTable;
use xfs_journal::Limits;
use xfs_mech::{Mechanism, SilentMech};
use xfs_simulated::LIMITS;

// A nonce whose life ended; a journal with an Expire is read again.
const EXPIRED: &str = "expire => none
issue => done
token NONCE=E56A5D4028BD86530000000000000001,TOKENFORMAT=1,TOKENLENGTH=0164,DISPENSE1=50.00EUR,HMACSHA256=3D5C9E3C4712EA6A5C3803CA4CB0E54958CB4C8778ACBBB26FEA1F6935956AC2 => done
expire => done
live => none
dispense 1 1 => NoNonce { since: 3 }
clear => false
records => 3
restore => done
dispense 1 1 => NoNonce { since: 4 }
issue => done
dispense 1 1 => WrongNonce { since: 5 }
token NONCE=B819D2BD1AED8DA00000000000000002,TOKENFORMAT=1,TOKENLENGTH=0164,DISPENSE1=50.00EUR,HMACSHA256=21BA94BF8140CE915AE13EDF41206BDF04FD4251C66D8E45E87A5D30D99184B4 => done
dispense 1 1 => moved unit1:1";

// Tokens that don't serve the nonce, one of which is of another last digit than is due. The HMACs are those of Python's
// hmac and hashlib.
const REFUSED_TOKENS: &str =
    "token NONCE=E56A5D4028BD86530000000000000001,TOKENFORMAT=1,TOKENLENGTH=0164,DISPENSE1=50.00EUR,HMACSHA256=3D5C9E3C4712EA6A5C3803CA4CB0E54958CB4C8778ACBBB26FEA1F6935956AC2 => done
dispense 1 1 => NoNonce { since: 1 }
issue => done
token NONCE=B819D2BD1AED8DA00000000000000002,TOKENFORMAT=1,TOKENLENGTH=0164,DISPENSE1=50.00EUR,HMACSHA256=21BA94BF8140CE915AE13EDF41206BDF04FD4251C66D8E45E87A5D30D99184B4 => done
dispense 1 1 => WrongNonce { since: 2 }
token NONCE=E56A5D4028BD86530000000000000001,TOKENFORMAT=1,TOKENLENGTH=0164,DISPENSE1=50.00EUR,HMACSHA256=3D5C9E3C4712EA6A5C3803CA4CB0E54958CB4C8778ACBBB26FEA1F6935956AC3 => done
dispense 1 1 => WrongMac { due: [61, 92, 158, 60, 71, 18, 234, 106, 92, 56, 3, 202, 76, 176, 229, 73, 88, 203, 76, 135, 120, 172, 187, 178, 111, 234, 31, 105, 53, 149, 106, 194] }
token NONCE=E56A5D4028BD86530000000000000001,TOKENFORMAT=1,TOKENLENGTH=0145,HMACSHA256=DA8032B3FE48E55880C97C8AE22E1674E434B8DF56F2206B6FF195343D6D8DCF => done
dispense 1 1 => NoAmounts
token NONCE= => done
dispense 1 1 => KeyNoValue { at: 6 }
token nonce => done
dispense 1 1 => Format { at: 0 }
token NONCE=E56A5D4028BD86530000000000000001,TOKENFORMAT=1,TOKENLENGTH=0164,DISPENSE1=50.00EUR,HMACSHA256=3D5C9E3C4712EA6A5C3803CA4CB0E54958CB4C8778ACBBB26FEA1F6935956AC2 => done
dispense 1 1 => moved unit1:1
token NONCE=E56A5D4028BD86530000000000000001,TOKENFORMAT=1,TOKENLENGTH=0164,DISPENSE1=60.00EUR,HMACSHA256=7324E3C7DFD3E3849E88BE1E85C29559210163F182DAD766937E13471486268C => done
dispense 1 1 => OtherBound { since: 3 }
issue => done
token NONCE=E56A5D4028BD86530000000000000001,TOKENFORMAT=1,TOKENLENGTH=0164,DISPENSE1=50.00EUR,HMACSHA256=3D5C9E3C4712EA6A5C3803CA4CB0E54958CB4C8778ACBBB26FEA1F6935956AC2 => done
dispense 1 1 => WrongNonce { since: 6 }
token NONCE=B819D2BD1AED8DA00000000000000002,TOKENFORMAT=1,TOKENLENGTH=0164,DISPENSE1=50.00EUR,HMACSHA256=21BA94BF8140CE915AE13EDF41206BDF04FD4251C66D8E45E87A5D30D99184B4 => done
dispense 1 1 => NotEmpty { notes: 1 }";

// What lies in the way of an order. The token is of EUR 5,000.
const REFUSED_ORDERS: &str = "stack 1 1 1 => NoNonce { since: 1 }
present => NoNonce { since: 1 }
issue => done
stack 2 1 1 => WrongNonce { since: 2 }
stack 1 1 1 => Unbound { since: 2 }
present => Unbound { since: 2 }
token NONCE=E56A5D4028BD86530000000000000001,TOKENFORMAT=1,TOKENLENGTH=0166,DISPENSE1=5000.00EUR,HMACSHA256=5C447B8B01836DDD0E297E537F17941125C810ECA838F04D370D711DC3E41AF2 => done
dispense 1 101 => Short { unit: 1 }
present => Nothing
reject => Nothing
retract => Nothing
stack 1 1 1 => moved unit1:1
present => moved unit1:1
stack 1 2 2 => moved unit2:2
present => OutletFull { notes: 1 }
reject => moved unit2:2
retract => moved unit1:1";

// The call of the disk that fails, of those of the Issue's append, and how many Issues are read again.
const IN_DOUBT: &str = "9
issue => Disk
fit => Shut
issue => Shut
records => 1
restore => done
fit => Ready
records => 2
live => none
issue => done
live => 1

10
issue => Disk
fit => Shut
issue => Shut
records => 1
restore => done
fit => Ready
records => 2
live => none
issue => done
live => 1

11
issue => Disk
fit => Shut
issue => Shut
records => 1
restore => done
fit => Ready
records => 2
live => none
issue => done
live => 1

12
issue => Disk
fit => Shut
issue => Shut
records => 1
restore => done
fit => Ready
records => 3
live => none
issue => done
live => 2";

// The calls that fail, of the Issue and of the first restore; the nonce that lives then, and the records before and after
// the second one: the Start, the Issue in doubt, the first restore's Start where its gate was opened, and a Start.
const RESTORES: &str = "12 13
issue => Disk
restore => Disk
fit => Shut
records => 1
live => none
restore => done
fit => Ready
records => 3
live => none
issue => done
live => 2

12 14
issue => Disk
restore => Disk
fit => Shut
records => 1
live => none
restore => done
fit => Ready
records => 3
live => none
issue => done
live => 2

12 15
issue => Disk
restore => Disk
fit => Shut
records => 1
live => none
restore => done
fit => Ready
records => 3
live => none
issue => done
live => 2

12 16
issue => Disk
restore => Disk
fit => Shut
records => 2
live => 1
restore => done
fit => Ready
records => 3
live => none
issue => done
live => 2

12 17
issue => Disk
restore => Disk
fit => Shut
records => 2
live => 1
restore => done
fit => Ready
records => 3
live => none
issue => done
live => 2

12 18
issue => Disk
restore => Disk
fit => Shut
records => 2
live => 1
restore => done
fit => Ready
records => 3
live => none
issue => done
live => 2

12 19
issue => Disk
restore => Disk
fit => Shut
records => 2
live => 1
restore => done
fit => Ready
records => 4
live => none
issue => done
live => 2";

// Four records are the Start, the Issue, and the Starts of two restores; the gate of the last was opened.
const NO_ROOM: &str = "26
issue => done
restore => done
restore => Disk
records => 3
restore => Full
fit => Full
records => 4
live => none
issue => Full
restore => Full
records => 4";

// No order is open, and a nonce that is cleared dies once.
const CLEARED: &str = "live => none
ordering => false
fit => Ready
issue => done
live => 1
clear => true
clear => false
restore => done
live => none
base => 0
records => 4";

// Four records are Starts: the list is then five, of which the last is in memory.
const FILLED: &str = "0
restore => done
restore => done
restore => done
restore => Full
base => 0
records => 4
fit => Full
reboot => done
base => 4
records => 1
fit => Ready";

// A reboot behind an Issue keeps its Start alone.
const REBOOTED: &str = "0
issue => done
live => 1
reboot => done
base => 2
live => none
ordering => false
records => 1
start => 1
issue => done
live => 2";

// The bytes are those of two Starts.
const NO_THIRD: &str = "0
restore => done
base => 0
reboot => Full
fit => Full
base => 1
records => 1
reboot => Full
fit => Full
base => 1
records => 1";

// What fails is the remount of the first reboot, the append of the second, and nothing of the third.
const MADE_AGAIN: &str = "16 20
restore => done
reboot => Disk
fit => Shut
base => 0
records => 2
reboot => Disk
fit => Shut
base => 1
records => 1
reboot => done
fit => Ready
base => 2
records => 1";

// A guard answers each line in turn.
fn answers<M: Mechanism>(
    rt: &impl Abort,
    alloc: Global,
    mech: M,
    units: UnitTable,
    rows: &str,
) -> Result<(), Fail>
    requires fresh { IfTold (M.motions mech) (λ motions. motions ≡ []) }
    requires units { M.units mech ≡ units }
{
    let guard = guard_over(alloc, mech, units, LIMITS, &[])?;
    Teller::new(alloc, guard).plays(rt, rows)
}

// The same, over a mechanism that tells its list and over one that doesn't.
fn both_answer(rt: &impl Abort, alloc: Global, rows: &str) -> Result<(), Fail> {
    let units = units()?;
    let silent = SilentMech::new(sim(alloc, &units)?);
    answers(rt, alloc, sim(alloc, &units)?, units.copied(), rows)?;
    answers(rt, alloc, silent, units, rows)
}

// A guard over a disk answers what stands under the numbers of its calls that fail. The boot of an empty disk makes 8
// calls, an append 4 (write, sync, open the gate, sync), and a remount of one page 3 (sync, length, read).
fn answers_over(rt: &impl Abort, alloc: Global, limits: Limits, rows: &str) -> Result<(), Fail> {
    let (failing, rows) = rows.split_once("\n").ok_or("rows")?;
    let units = units()?;
    let mech = sim(alloc, &units)?;
    let failing = numbers(alloc, failing).ok_or("numbers")?;
    let guard = guard_over(alloc, mech, units, limits, failing.as_slice())?;
    Teller::new(alloc, guard).plays(rt, rows)
}

#[test]
fn nonces_expire_and_orders_are_refused(rt: HostRuntime) -> Result<(), Fail> {
    for rows in [EXPIRED, CLEARED, REFUSED_TOKENS, REFUSED_ORDERS] {
        both_answer(&rt, rt.alloc(), rows)?;
    }
    Ok(())
}

#[test]
fn an_issue_in_doubt_is_found_and_a_restore_that_failed_is_made_again(
    rt: HostRuntime,
) -> Result<(), Fail> {
    for rows in IN_DOUBT.split("\n\n").chain(RESTORES.split("\n\n")) {
        answers_over(&rt, rt.alloc(), LIMITS, rows)?;
    }
    Ok(())
}

#[test]
fn a_restore_without_room_for_its_boot_reads_the_list_and_writes_nothing(
    rt: HostRuntime,
) -> Result<(), Fail> {
    let limits = Limits {
        records: 4,
        bytes: 1_000_000,
    };
    answers_over(&rt, rt.alloc(), limits, NO_ROOM)
}

#[test]
fn a_reboot_frees_a_journal_that_restores_have_filled(rt: HostRuntime) -> Result<(), Fail> {
    let limits = Limits {
        records: 4,
        bytes: 1_000_000,
    };
    answers_over(&rt, rt.alloc(), limits, FILLED)
}

#[test]
fn a_reboot_keeps_its_start_alone_and_is_made_again_where_it_failed(
    rt: HostRuntime,
) -> Result<(), Fail> {
    for rows in [REBOOTED, MADE_AGAIN] {
        answers_over(&rt, rt.alloc(), LIMITS, rows)?;
    }
    Ok(())
}

#[test]
fn a_reboot_without_room_keeps_what_it_read(rt: HostRuntime) -> Result<(), Fail> {
    let limits = Limits {
        records: 100,
        bytes: 417,
    };
    answers_over(&rt, rt.alloc(), limits, NO_THIRD)
}

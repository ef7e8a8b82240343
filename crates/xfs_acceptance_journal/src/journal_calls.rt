ghost use Rattle.std.specs.Prelude.{IfOk};
ghost use Rattle.xfs_journal.specs.Image.{HasUnit};

use crate::files::opened;
use crate::short_files::{old_file, short_file, start_file};
use std::alloc::Global;
use std::fs;
use std::test::Fail;
use xfs_base::{Counts, Kind, Places};
use xfs_disk::{Disk, FileDisk, MemDisk};
use xfs_journal::{
    AppendFault, BodyFault, Journal, Limits, MountFault, Rec, Survey, Text, read_body,
};

pub const LIMITS: Limits = Limits {
    records: 1_000_000,
    bytes: 17_179_869_184,
};

const NONE: Counts = Counts([0; 8]);

fn disk(alloc: Global, bytes: &[u8]) -> Result<MemDisk, Fail> {
    Ok(MemDisk::new(alloc, bytes.to_vec(alloc)?))
}

pub fn mounted<D: Disk>(alloc: Global, disk: D) -> Result<Journal<D>, Fail> {
    match Journal::mount(alloc, disk, LIMITS) {
        Ok(journal) => Ok(journal),
        Err(_) => Err("the disk is not mounted")?,
    }
}

/// Appends a record, and says nothing of what that leaves.
pub fn append<D: Disk>(journal: &mut Journal<D>, rec: Rec) -> Result<u64, AppendFault>
    requires { HasUnit rec }
{
    journal.append(rec)
}

/// Reads the list again, and says nothing of what that leaves.
pub fn remount<D: Disk>(journal: &mut Journal<D>) -> Result<(), MountFault> {
    journal.remount()
}

// 100 notes in each of four units, and none elsewhere.
fn start(alloc: Global) -> Result<Rec, Fail>
    ensures { IfOk result HasUnit }
{
    let places = Places {
        units: Counts([100, 100, 100, 100, 0, 0, 0, 0]),
        transport: NONE,
        outlet: NONE,
        taken: NONE,
        retracted: NONE,
        rejected: NONE,
    };
    let places = Survey::new(alloc, places)?;
    Ok(Rec::Start { issues: 0, places })
}

fn issue() -> Rec
    ensures { HasUnit result }
{
    Rec::Issue {
        number: 1,
        word: 0xE56A_5D40_28BD_8653,
    }
}

#[test]
fn a_start_and_an_issue_are_213_and_233_bytes(rt: HostRuntime) -> Result<(), Fail> {
    let alloc = rt.alloc();
    let mut journal = mounted(alloc, disk(alloc, &[])?)?;
    assert!(rt; takes_a_start(&mut journal, start(alloc)?));
    let file = journal.end();
    assert!(rt; file.bytes() == start_file(alloc)?.as_slice());
    let mut again = mounted(alloc, file)?;
    assert!(rt; takes_an_issue(&mut again));
    assert!(rt; again.end().bytes() == short_file(alloc)?.as_slice());
    Ok(())
}

fn takes_a_start<D: Disk>(journal: &mut Journal<D>, start: Rec) -> bool
    requires { HasUnit start }
{
    let left = Limits {
        records: 999_999,
        bytes: 17_179_868_971,
    };
    let (has_room, number) = (reserves_two(journal), append(journal, start));
    has_room && number == Ok(1) && journal.left() == left
}

fn reserves_two<D: Disk>(journal: &mut Journal<D>) -> bool {
    journal.reserve(2).is_ok()
}

fn takes_an_issue<D: Disk>(journal: &mut Journal<D>) -> bool {
    append(journal, issue()) == Ok(2) && !journal.shut() && journal.records().len() == 2
}

// How many records of a file a mount lets go, and how many it keeps; or the place from which it is no journal.
fn count_in(alloc: Global, bytes: &[u8]) -> Result<Result<(u64, usize), u64>, Fail> {
    match Journal::mount(alloc, disk(alloc, bytes)?, LIMITS) {
        Ok(journal) => Ok(Ok((journal.base(), journal.records().len()))),
        Err(refused) => match refused.why {
            MountFault::NotJournal { at } => {
                let same = refused.disk.bytes() == bytes;
                if same {
                    Ok(Err(at))
                } else {
                    Err("a refused file was written")?
                }
            }
            _ => Err("the disk failed")?,
        },
    }
}

#[test]
fn a_file_that_is_cut_is_refused_at_the_record_that_is_not_whole(
    rt: HostRuntime,
) -> Result<(), Fail> {
    let alloc = rt.alloc();
    let file = short_file(alloc)?;
    for (from, to, answer) in [
        (0, 10, Ok((0, 0))),
        (10, 212, Err(8)),
        (212, 232, Err(212)),
        (232, 233, Err(232)),
        (233, 234, Ok((0, 2))),
    ] {
        for len in from..to {
            let prefix = file.get(..len).ok_or("shorter")?;
            assert!(rt; count_in(alloc, prefix)? == answer, "cut to {len}");
        }
    }
    assert!(rt; count_in(alloc, &[0xFF; 9])? == Ok((0, 0)));
    assert!(rt; count_in(alloc, &[0xFF; 10])? == Err(0));
    Ok(())
}

// A Boot and an Issue, and a Start and an Issue behind them, which a mount keeps.
#[test]
fn boots_and_starts_stand_in_one_file(rt: HostRuntime) -> Result<(), Fail> {
    let alloc = rt.alloc();
    let mut bytes = old_file(alloc)?;
    assert!(rt; count_in(alloc, &bytes)? == Ok((0, 2)));
    bytes.pop();
    append_short(alloc, &mut bytes)?;
    assert!(rt; count_in(alloc, &bytes)? == Ok((2, 2)));
    Ok(())
}

#[test]
fn a_body_of_another_form_is_refused(rt: HostRuntime) -> Result<(), Fail> {
    let alloc = rt.alloc();
    let rows: [(&[u8], bool); 10] = [
        (b"C", true),
        (b"C\0", false),
        (b"", false),
        (b"I\0\0\0\0\0\0\0\x01\0\0\0\0\0\0\0\x02", true),
        (b"I\0\0\0\0\0\0\0\x01\0\0\0\0\0\0\0", false),
        (b"L\x08\0\0\0\x05", true),
        (b"L\0\0\0\0\x05", false),
        (b"L\x09\0\0\0\x05", false),
        (b"Ttoken", true),
        (b"T", false),
    ];
    for (body, is_one) in rows {
        match read_body(alloc, body) {
            Ok(_) => assert!(rt; is_one),
            Err(fault) => assert!(rt; fault == BodyFault::Form && !is_one),
        }
    }
    assert!(rt;
        Text::new(b"token".to_vec(alloc)?).is_some_and(|text| text.bytes() == b"token".as_slice())
    );
    Ok(())
}

// What the front of so many bytes of a Start behind two nonces is.
fn front_of_start(alloc: Global, len: usize) -> Result<&'static str, Fail> {
    let mut body = [0; 202];
    body[..9].copy_from_slice(b"K\0\0\0\0\0\0\0\x02");
    let front = body.get(..len).ok_or("longer")?;
    Ok(match read_body(alloc, front) {
        Ok(Rec::Start { issues: 2, .. }) => "a start",
        Err(BodyFault::Form) => "of another form",
        _ => "another",
    })
}

// A Start's places begin behind eight bytes: 201 bytes with its letter.
#[test]
fn a_start_has_201_bytes(rt: HostRuntime) -> Result<(), Fail> {
    let rows = [
        (200, "of another form"),
        (201, "a start"),
        (202, "of another form"),
    ];
    for (len, due) in rows {
        assert!(rt; front_of_start(rt.alloc(), len)? == due, "{len}");
    }
    Ok(())
}

// The record of an order of so many notes of the first unit: 37 bytes.
fn order_bytes(count: u32) -> [u8; 37] {
    let mut bytes = [0; 37];
    bytes[..5].copy_from_slice(&[1, 0, 34, 0x4F, 2]);
    bytes[5..9].copy_from_slice(&count.to_be_bytes());
    bytes
}

// So many orders, each of another count; a record begins at every offset of a page.
fn orders_file(alloc: Global, count: u32) -> Result<Vec<u8>, Fail> {
    let mut bytes = b"XFSJRNL2".to_vec(alloc)?;
    for number in 0..count {
        bytes.extend_from_slice(&order_bytes(number))?;
    }
    bytes.push(0)?;
    Ok(bytes)
}

fn first_count(rec: &Rec) -> Option<u32> {
    match rec {
        Rec::Order {
            kind: Kind::Present,
            counts,
        } => Some(counts.0[0]),
        _ => None,
    }
}

#[test]
fn records_cross_pages_at_every_offset_and_each_page_is_read_once(
    rt: HostRuntime,
) -> Result<(), Fail> {
    let alloc = rt.alloc();
    for (orders, reads) in [(0, 1), (120, 2), (4096, 38)] {
        let journal = mounted(alloc, disk(alloc, &orders_file(alloc, orders)?)?)?;
        assert!(rt; journal.records().len() == orders as usize);
        let mut number = 0;
        for rec in journal.records() {
            assert!(rt; first_count(rec) == Some(number));
            number = number.wrapping_add(1);
        }
        let file = journal.end();
        assert!(rt; file.reads() == reads, "of {orders} orders");
        assert!(rt; file.widest() == 4096);
    }
    Ok(())
}

// The body behind an open gate byte, and what follows it.
fn split_block(block: &[u8]) -> Option<(&[u8], &[u8])> {
    let ([_, high, low], behind) = block.split_first_chunk::<3>()?;
    behind.split_at_checked(usize::from(u16::from_be_bytes([*high, *low])))
}

// A plain reader: the whole file is one slice. It shows the records from the last boot record on, or the place from which
// they are none.
fn plain(alloc: Global, bytes: &[u8]) -> Result<Result<String, u64>, Fail> {
    let Some([_, behind @ ..]) = bytes.strip_prefix(b"XFSJRNL".as_slice()) else {
        return Ok(Err(0));
    };
    let mut rest = behind;
    let mut records = Vec::new(alloc);
    for _ in 0..bytes.len() {
        let at = bytes.len().saturating_sub(rest.len()) as u64;
        match rest.first() {
            Some(1) => {}
            Some(_) => return Ok(Ok(format!(in alloc; "{:?}", records.as_slice())?)),
            None => return Ok(Err(at)),
        }
        let Some((body, behind)) = split_block(rest) else {
            return Ok(Err(at));
        };
        match read_body(alloc, body) {
            Ok(rec) => {
                if matches!(rec, Rec::Boot { .. } | Rec::Start { .. }) {
                    records.clear();
                }
                records.push(rec)?;
            }
            Err(_) => return Ok(Err(at)),
        }
        rest = behind;
    }
    Err("the file has no end")?
}

fn paged(alloc: Global, bytes: &[u8]) -> Result<Result<String, u64>, Fail> {
    match Journal::mount(alloc, disk(alloc, bytes)?, LIMITS) {
        Ok(journal) => Ok(Ok(format!(in alloc; "{:?}", journal.records())?)),
        Err(refused) => match refused.why {
            MountFault::NotJournal { at } => Ok(Err(at)),
            _ => Err("the disk failed")?,
        },
    }
}

// A Clear, a token, a load and a done of one note each, and a Start and an Issue behind them.
const MIXED: &[u8] = b"\x01\0\x01C\x01\0\x06Ttoken\x01\0\x06L\x08\0\0\0\x05\x01\0\x41D";

// Records of every kind, across the end of the first page.
fn mixed_file(alloc: Global) -> Result<Vec<u8>, Fail> {
    let mut bytes = orders_file(alloc, 110)?;
    bytes.truncate(4078);
    bytes.extend_from_slice(MIXED)?;
    bytes.extend_from_slice(&[1; 64])?;
    append_short(alloc, &mut bytes)?;
    Ok(bytes)
}

fn append_short(alloc: Global, bytes: &mut Vec<u8>) -> Result<(), Fail> {
    let booted = short_file(alloc)?;
    bytes.extend_from_slice(booted.get(8..).ok_or("shorter")?)?;
    Ok(())
}

// One byte is another in each of 200 files, and every fourth of them ends behind it.
#[test]
fn the_paged_reader_finds_what_a_plain_one_finds(rt: HostRuntime) -> Result<(), Fail> {
    let alloc = rt.alloc();
    for number in 0..200 {
        let mut file = mixed_file(alloc)?;
        let place = 4075 + number;
        if number % 4 == 3 {
            file.truncate(place + 1);
        }
        *file.get_mut(place).ok_or("shorter")? = [0, 1, 2, 64, 255][number % 5];
        assert!(rt;
            paged(alloc, &file)? == plain(alloc, &file)?,
            "file {number}"
        );
    }
    Ok(())
}

// What others left in a file, the length of the front that stays and what stands behind it, and where it is refused.
const OTHERS: [(usize, &[u8], u64); 5] = [
    (212, b"\0", 212),
    (212, b"\x01\0\x01C\0", 212),
    (232, b"\x01\0\x01C\0", 232),
    (8, b"\x01\0", 8),
    (0, b"nothing", 8),
];

// The front of a file, and these bytes behind it.
fn cut(alloc: Global, file: &[u8], len: usize, behind: &[u8]) -> Result<Vec<u8>, Fail> {
    let mut bytes = file.get(..len).ok_or("shorter")?.to_vec(alloc)?;
    bytes.extend_from_slice(behind)?;
    Ok(bytes)
}

// Whether a remount of what others left is refused at this place, shuts the journal and writes nothing.
fn is_refused<D: Disk>(
    rt: &HostRuntime,
    journal: &mut Journal<D>,
    other: &[u8],
    at: u64,
) -> Result<bool, Fail> {
    fs::write(rt, "xfs_journal.test", other)?;
    let is_told = remount(journal) == Err(MountFault::NotJournal { at }) && journal.shut();
    Ok(is_told && holds(rt, other)?)
}

fn holds(rt: &HostRuntime, bytes: &[u8]) -> Result<bool, Fail> {
    Ok(fs::read(rt, "xfs_journal.test")?.as_slice() == bytes)
}

// Whether a remount of the file as it was opens the journal, which takes a record then.
fn goes_on<D: Disk>(rt: &HostRuntime, journal: &mut Journal<D>, kept: &[u8]) -> Result<bool, Fail> {
    fs::write(rt, "xfs_journal.test", kept)?;
    let is_open = remount(journal) == Ok(()) && !journal.shut();
    Ok(is_open && append(journal, Rec::Clear) == Ok(3))
}

// Both of a journal over a file.
fn is_told_apart(
    rt: &HostRuntime,
    kept: &[u8],
    (len, behind, at): (usize, &[u8], u64),
) -> Result<bool, Fail> {
    let other = cut(rt.alloc(), kept, len, behind)?;
    fs::write(rt, "xfs_journal.test", kept)?;
    let disk = FileDisk::new(opened(rt, "xfs_journal.test")?);
    let mut journal = mounted(rt.alloc(), disk)?;
    Ok(is_refused(rt, &mut journal, &other, at)? && goes_on(rt, &mut journal, kept)?)
}

// A file holds what others write into it, and tells nothing of it.
#[test]
fn a_file_with_another_list_is_refused_where_it_differs(rt: HostRuntime) -> Result<(), Fail> {
    let kept = short_file(rt.alloc())?;
    for row in OTHERS {
        assert!(rt; is_told_apart(&rt, &kept, row)?, "{row:?}");
    }
    fs::remove_file(&rt, "xfs_journal.test")?;
    Ok(())
}

#[test]
fn at_most_9_bytes_are_made_an_empty_journal_again(rt: HostRuntime) -> Result<(), Fail> {
    fs::write(&rt, "xfs_journal_short.test", b"")?;
    assert!(rt; begun_again(&rt, "xfs_journal_short.test", b"short")? == 1);
    let bytes = fs::read(&rt, "xfs_journal_short.test")?;
    assert!(rt; bytes.as_slice() == start_file(rt.alloc())?.as_slice());
    fs::remove_file(&rt, "xfs_journal_short.test")?;
    Ok(())
}

// Appends a Start to the journal of a file that others wrote this into, read again: its number.
fn begun_again(rt: &HostRuntime, path: &str, found: &[u8]) -> Result<u64, Fail> {
    let mut journal = mounted(rt.alloc(), FileDisk::new(opened(rt, path)?))?;
    start_over(rt, path, found, &mut journal)
}

fn start_over<D: Disk>(
    rt: &HostRuntime,
    path: &str,
    found: &[u8],
    journal: &mut Journal<D>,
) -> Result<u64, Fail> {
    fs::write(rt, path, found)?;
    remount(journal)?;
    let start = start(rt.alloc())?;
    Ok(append(journal, start)?)
}

// Appends a record to the journal of a file: its number.
fn append_to(rt: &HostRuntime, path: &str, rec: Rec) -> Result<u64, Fail>
    requires { HasUnit rec }
{
    let mut journal = mounted(rt.alloc(), FileDisk::new(opened(rt, path)?))?;
    Ok(append(&mut journal, rec)?)
}

#[test]
fn a_file_that_is_opened_twice_has_the_records_of_both(rt: HostRuntime) -> Result<(), Fail> {
    let alloc = rt.alloc();
    fs::write(&rt, "xfs_journal_twice.test", b"")?;
    assert!(rt; append_to(&rt, "xfs_journal_twice.test", start(alloc)?)? == 1);
    assert!(rt; append_to(&rt, "xfs_journal_twice.test", issue())? == 2);
    let bytes = fs::read(&rt, "xfs_journal_twice.test")?;
    assert!(rt; bytes.as_slice() == short_file(alloc)?.as_slice());
    fs::remove_file(&rt, "xfs_journal_twice.test")?;
    Ok(())
}

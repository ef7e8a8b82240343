use std::alloc::Global;
use std::sync::atomic::{AtomicU64, Ordering};
use std::test::Fail;
use xfs_base::{Bytes, Clock, Currency, FixedClock, MemSink, Memory, Moment};
use xfs_server::{MemDoors, MemLink};
use xfs_withdraw::withdraw;

/// A clock that counts its pauses.
#[derive(Drop)]
struct CountingClock {
    pauses: AtomicU64,
}

impl Clock for CountingClock {
    ghost use Rattle.std.specs.Prelude.{◌≡◌};

    ghost tells = { λ _ moment. moment.0 ≡ 0 };

    fn now(&self) -> Moment {
        Moment(0)
    }

    fn pause(&self) {
        self.pauses.fetch_add(1, Ordering::SeqCst);
    }
}

const A_NONCE: &str =
    "{\"header\":{\"name\":\"Common.GetCommandNonce\",\"requestId\":1,\"type\":\"acknowledge\",\"version\":\"2.0\"}}";

const P_NONCE: &str =
    "{\"header\":{\"completionCode\":\"success\",\"name\":\"Common.GetCommandNonce\",\"requestId\":1,\"type\":\"completion\",\"version\":\"2.0\"},\"payload\":{\"commandNonce\":\"E56A5D4028BD86530000000000000001\"}}";

const A_DISPENSE: &str =
    "{\"header\":{\"name\":\"CashDispenser.Dispense\",\"requestId\":2,\"type\":\"acknowledge\",\"version\":\"2.0\"}}";

const P_DISPENSE: &str =
    "{\"header\":{\"completionCode\":\"success\",\"name\":\"CashDispenser.Dispense\",\"requestId\":2,\"type\":\"completion\",\"version\":\"2.0\"},\"payload\":{\"denomination\":{\"currencies\":{\"EUR\":70},\"values\":{\"unit2\":1,\"unit3\":1}}}}";

const A_PRESENT: &str =
    "{\"header\":{\"name\":\"CashDispenser.Present\",\"requestId\":3,\"type\":\"acknowledge\",\"version\":\"2.0\"}}";

const P_PRESENT: &str =
    "{\"header\":{\"completionCode\":\"success\",\"name\":\"CashDispenser.Present\",\"requestId\":3,\"type\":\"completion\",\"version\":\"2.0\"},\"payload\":{}}";

const REFUSED: &str =
    "{\"header\":{\"name\":\"CashDispenser.Dispense\",\"requestId\":2,\"status\":\"tooManyRequests\",\"type\":\"acknowledge\",\"version\":\"2.0\"}}";

const NO_TOKEN: &str =
    "{\"header\":{\"completionCode\":\"invalidTokenNonce\",\"name\":\"CashDispenser.Dispense\",\"requestId\":2,\"type\":\"completion\",\"version\":\"2.0\"},\"payload\":{\"journalRecord\":3}}";

const EVENT_9: &str =
    "{\"header\":{\"name\":\"Common.NonceClearedEvent\",\"requestId\":9,\"type\":\"event\",\"version\":\"2.0\"},\"payload\":{}}";

const UNSOLICITED: &str =
    "{\"header\":{\"name\":\"Common.NonceClearedEvent\",\"type\":\"unsolicited\",\"version\":\"2.0\"},\"payload\":{\"reasonDescription\":\"cleared\"}}";

const ASK_NONCE: &str =
    "{\"header\":{\"name\":\"Common.GetCommandNonce\",\"requestId\":1,\"type\":\"command\"},\"payload\":{}}";
// The HMAC is that of a stock tool.
const ASK_DISPENSE: &str =
    "{\"header\":{\"name\":\"CashDispenser.Dispense\",\"requestId\":2,\"type\":\"command\"},\"payload\":{\"denomination\":{\"currencies\":{\"EUR\":70}},\"mix\":\"minimum\",\"token\":\"NONCE=E56A5D4028BD86530000000000000001,TOKENFORMAT=1,TOKENLENGTH=0164,DISPENSE1=70.00EUR,HMACSHA256=211E369BECF0691A56765361CF51D65B001972FD38701AF983846CC1406B26DD\"}}";

const ASK_PRESENT: &str =
    "{\"header\":{\"name\":\"CashDispenser.Present\",\"requestId\":3,\"type\":\"command\"},\"payload\":{}}";

const NO_ASK: &[&str] = &[];

const TO_NONCE: &[&str] = &[ASK_NONCE];

const TO_DISPENSE: &[&str] = &[ASK_NONCE, ASK_DISPENSE];

const TO_PRESENT: &[&str] = &[ASK_NONCE, ASK_DISPENSE, ASK_PRESENT];

/// What a link hands over and whether it closes then, the places of its calls that fail, and what a
/// withdrawal of EUR 70 under a key of 32 bytes 0x0b makes of it: its status and line, the asks that it
/// sends, and how often it pauses.
#[derive(Clone, Copy)]
struct Case {
    texts: &'static [&'static str],
    closes: bool,
    failing_takes: &'static [u64],
    failing_gives: &'static [u64],
    status: u8,
    line: &'static str,
    asks: &'static [&'static str],
    pauses: u64,
}

// A link that closes behind these texts.
fn closing(
    texts: &'static [&'static str],
    status: u8,
    line: &'static str,
    asks: &'static [&'static str],
) -> Case {
    Case {
        texts,
        closes: true,
        failing_takes: &[],
        failing_gives: &[],
        status,
        line,
        asks,
        pauses: 0,
    }
}

// A link that stays quiet behind these texts.
fn quiet(texts: &'static [&'static str], asks: &'static [&'static str]) -> Case {
    Case {
        texts,
        closes: false,
        failing_takes: &[],
        failing_gives: &[],
        status: 11,
        line: "withdrawal ended: quiet\n",
        asks,
        pauses: 99_999,
    }
}

// A link with these texts to come that fails at one call.
fn failing(
    texts: &'static [&'static str],
    failing_takes: &'static [u64],
    failing_gives: &'static [u64],
    asks: &'static [&'static str],
) -> Case {
    Case {
        texts,
        closes: true,
        failing_takes,
        failing_gives,
        status: 9,
        line: "",
        asks,
        pauses: 0,
    }
}

const WHOLE: &[&str] = &[
    A_NONCE, P_NONCE, A_DISPENSE, P_DISPENSE, A_PRESENT, P_PRESENT,
];

fn cases() -> [Case; 17] {
    [
        closing(WHOLE, 0, "withdrawal done\n", TO_PRESENT),
        closing(&[], 0, "withdrawal ended: closed\n", TO_NONCE),
        closing(&WHOLE[..3], 0, "withdrawal ended: closed\n", TO_DISPENSE),
        closing(&WHOLE[..5], 0, "withdrawal ended: closed\n", TO_PRESENT),
        closing(&[EVENT_9], 0, "withdrawal ended: bad answer\n", TO_NONCE),
        closing(&["{"], 0, "withdrawal ended: bad answer\n", TO_NONCE),
        closing(
            &[P_NONCE, P_NONCE],
            0,
            "withdrawal ended: bad answer\n",
            TO_DISPENSE,
        ),
        closing(&[UNSOLICITED], 0, "withdrawal ended: closed\n", TO_NONCE),
        closing(
            &[P_NONCE, REFUSED, A_DISPENSE],
            0,
            "withdrawal refused: tooManyRequests\n",
            TO_DISPENSE,
        ),
        closing(
            &[P_NONCE, A_DISPENSE, NO_TOKEN],
            0,
            "withdrawal ended: invalidTokenNonce\n",
            TO_DISPENSE,
        ),
        quiet(&[], TO_NONCE),
        quiet(&[A_NONCE, P_NONCE], TO_DISPENSE),
        failing(WHOLE, &[], &[1], NO_ASK),
        failing(WHOLE, &[], &[3], TO_DISPENSE),
        failing(WHOLE, &[1], &[], TO_NONCE),
        failing(WHOLE, &[4], &[], TO_DISPENSE),
        failing(WHOLE, &[6], &[], TO_PRESENT),
    ]
}

fn texts(alloc: Global, list: &[&str]) -> Result<Vec<Bytes>, Memory> {
    let mut texts = Vec::new(alloc);
    for text in list {
        texts.push(Bytes::new(Vec::from_slice(alloc, text.as_bytes())?))?;
    }
    Ok(texts)
}

fn are(texts: &[Bytes], expected: &[&str]) -> bool {
    texts.len() == expected.len()
        && texts
            .iter()
            .zip(expected.iter())
            .all(|(text, bytes)| text.list() == bytes.as_bytes())
}

#[test]
fn a_withdrawal_over_each_link(rt: HostRuntime) -> Result<(), Fail> {
    let alloc = rt.alloc();
    let euro = Currency::new(b"EUR").ok_or("letters")?;
    for case in cases() {
        let link = MemLink::new(
            alloc,
            texts(alloc, case.texts)?,
            case.closes,
            Vec::from_slice(alloc, case.failing_takes)?,
            Vec::from_slice(alloc, case.failing_gives)?,
        );
        let mut doors = MemDoors::new(Vec::new(alloc), Some(link), Vec::new(alloc));
        let clock = CountingClock {
            pauses: AtomicU64::new(0),
        };
        let mut sink = MemSink::new(alloc, Vec::new(alloc));
        let withdrawn = withdraw(
            &rt, alloc, euro, 70, [0x0b; 32], &mut doors, &clock, &mut sink,
        );
        assert!(rt; withdrawn.ending.status() == case.status);
        assert!(rt; sink.bytes() == case.line.as_bytes());
        match &withdrawn.link {
            Some(link) => assert!(rt; are(link.sent(), case.asks)),
            None => assert!(rt; false),
        }
        assert!(rt; clock.pauses.load(Ordering::SeqCst) == case.pauses);
    }
    Ok(())
}

#[test]
fn doors_that_fail_and_a_sink_that_fails(rt: HostRuntime) -> Result<(), Fail> {
    let alloc = rt.alloc();
    let euro = Currency::new(b"EUR").ok_or("letters")?;
    for (failing_dials, failing_writes, status, written, dialled) in [
        (&[1][..], &[][..], 9, "", false),
        (&[], &[], 0, "withdrawal ended: invalidTokenNonce\n", true),
        (&[], &[1], 0, "", true),
        (&[], &[2], 0, "withdrawal ended: ", true),
        (&[], &[3], 0, "withdrawal ended: invalidTokenNonce", true),
    ] {
        let link = MemLink::new(
            alloc,
            texts(alloc, &[P_NONCE, NO_TOKEN])?,
            true,
            Vec::new(alloc),
            Vec::new(alloc),
        );
        let mut doors = MemDoors::new(
            Vec::new(alloc),
            Some(link),
            Vec::from_slice(alloc, failing_dials)?,
        );
        let mut sink = MemSink::new(alloc, Vec::from_slice(alloc, failing_writes)?);
        let withdrawn = withdraw(
            &rt,
            alloc,
            euro,
            70,
            [0x0b; 32],
            &mut doors,
            &FixedClock(0),
            &mut sink,
        );
        assert!(rt; withdrawn.ending.status() == status);
        assert!(rt; sink.bytes() == written.as_bytes());
        assert!(rt; withdrawn.link.is_some() == dialled);
    }
    Ok(())
}

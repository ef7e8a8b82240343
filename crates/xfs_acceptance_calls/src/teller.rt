//! A guard that answers lines, and the token of its customer.

ghost use Rattle.std.specs.Prelude.{◌≡◌};
ghost use Rattle.xfs_guard.specs.declared.open.Open.TheVariants.{No};

use std::alloc::{AllocError, Global};
use std::process::Abort;
use std::test::Fail;
use xfs_base::Counts;
use xfs_disk::Disk;
use xfs_evidence::{evidence, is_nonce};
use xfs_guard::{Ask, BootFault, Deny, Guard};
use xfs_journal::Rec;
use xfs_mech::{Mechanism, Outcome};
use xfs_script::counts_text;

#[derive(Drop)]
pub struct Teller<M: Mechanism, D: Disk> {
    alloc: Global,
    guard: Guard<M, D>,
    token: String,
    ghost none: { guard.state.open_order ≡ No },
}

impl<M: Mechanism, D: Disk> Teller<M, D> {
    pub fn new(alloc: Global, guard: Guard<M, D>) -> Teller<M, D>
        requires { guard.state.open_order ≡ No }
    {
        Teller {
            alloc,
            guard,
            token: String::new(alloc),
        }
    }

    pub fn into_guard(self) -> Guard<M, D> {
        let Teller {
            alloc: _,
            guard,
            token: _,
        } = self;
        guard
    }

    /// Plays rows: a line, and what it is answered.
    pub fn plays(&mut self, rt: &impl Abort, rows: &str) -> Result<(), Fail> {
        for row in rows.lines() {
            assert!(rt; self.plays_one(rt, row)?, "{row}");
        }
        Ok(())
    }

    // Whether the line of a row is answered as the row says.
    fn plays_one(&mut self, rt: &impl Abort, row: &str) -> Result<bool, Fail> {
        let (line, due) = row.split_once(" => ").ok_or("an arrow")?;
        Ok(self.answer(rt, line)?.as_str() == due)
    }

    fn answer(&mut self, rt: &impl Abort, line: &str) -> Result<String, Fail> {
        let (verb, rest) = line.split_once(" ").unwrap_or((line, ""));
        match verb {
            "token" => self.hold(rest),
            "dispense" | "stack" => self.stack(rt, verb, rest),
            "present" => carried(self.alloc, self.carry(rt, Ask::Present)),
            "reject" => carried(self.alloc, self.carry(rt, Ask::Reject)),
            "retract" => carried(self.alloc, self.carry(rt, Ask::Retract)),
            "issue" | "clear" | "expire" => self.record(verb),
            "restore" => again(self.alloc, self.guard.restore()),
            "reboot" => again(self.alloc, self.guard.reboot()),
            "evidence" => self.tell(rt, rest),
            _ => self.look(verb),
        }
    }

    // This text is the token from now on.
    fn hold(&mut self, text: &str) -> Result<String, Fail> {
        self.token = String::from_str(self.alloc, text)?;
        Ok(String::from_str(self.alloc, "done")?)
    }

    // Looks at the token, allows the notes on it, and stacks them; or stacks them for the issue of a number.
    fn stack(&mut self, rt: &impl Abort, verb: &str, fields: &str) -> Result<String, Fail> {
        let (issue, unit, count) = stack_of(self.alloc, verb, fields).ok_or("a unit and a count")?;
        let told = match issue {
            Some(issue) => self.carry(rt, Ask::Stack { issue, unit, count }),
            None => self.dispense(rt, unit, count),
        };
        carried(self.alloc, told)
    }

    fn dispense(&mut self, rt: &impl Abort, unit: u8, count: u32) -> Result<Outcome, Deny> {
        let claim = self.guard.check(self.token.as_bytes())?;
        let permit = self.guard.allow(claim, &notes(rt, unit, count))?;
        let issue = permit.issue;
        self.carry(rt, Ask::Stack { issue, unit, count })
    }

    // Carries out an order, and settles it.
    fn carry(&mut self, rt: &impl Abort, ask: Ask) -> Result<Outcome, Deny> {
        if let Ask::Stack { unit, count, .. } = ask {
            assert!(rt; 1 <= unit && unit <= self.guard.units().len() && 0 < count);
        }
        self.guard.order(ask)?;
        let outcome = self.guard.act();
        self.guard.settle()?;
        Ok(outcome)
    }

    // A record is appended.
    fn record(&mut self, verb: &str) -> Result<String, Fail> {
        let told = match verb {
            "issue" => denied(self.alloc, self.guard.issue().err()),
            "clear" => cleared(self.alloc, self.guard.clear()),
            _ => self.expire(),
        };
        Ok(told?)
    }

    // Ends the live nonce, where one lives.
    fn expire(&mut self) -> Result<String, AllocError> {
        if self.guard.live().is_none() {
            return String::from_str(self.alloc, "none");
        }
        denied(self.alloc, self.guard.expire().err())
    }

    // The evidence with this nonce, under the key of the simulated machine.
    fn tell(&self, rt: &impl Abort, nonce: &str) -> Result<String, Fail> {
        let nonce = nonce.as_bytes();
        assert!(rt; is_nonce(nonce));
        let (base, records) = (self.guard.base(), self.guard.records());
        match evidence(
            self.alloc,
            &[0x0b; 32],
            self.guard.units(),
            base,
            records,
            nonce,
        ) {
            Ok(text) => Ok(String::from_str(self.alloc, str::from_utf8(&text).unwrap_or(""))?),
            Err(fault) => Ok(format!(in self.alloc; "{fault:?}")?),
        }
    }

    // Whether the journal takes more records, whether an order is open, or a number.
    fn look(&self, verb: &str) -> Result<String, Fail> {
        Ok(match verb {
            "fit" => format!(in self.alloc; "{:?}", self.guard.fit())?,
            "ordering" => format!(in self.alloc; "{}", self.guard.ordering())?,
            "records" | "base" | "live" | "start" => numbered(self.alloc, self.number(verb))?,
            _ => return Err("a line of none".into()),
        })
    }

    // How many records memory has, and how many stand in front of them; the number of the nonce that lives; and how many
    // nonces the first of these records counts, where it is a Start.
    fn number(&self, verb: &str) -> Option<u64> {
        match verb {
            "records" => Some(self.guard.records().len() as u64),
            "base" => Some(self.guard.base()),
            "live" => Some(self.guard.live()?.number),
            _ => counted_by(self.guard.records().first()?),
        }
    }
}

// The number of an issue, where notes aren't dispensed on the token; the unit, and the count.
fn stack_of(alloc: Global, verb: &str, fields: &str) -> Option<(Option<u64>, u8, u32)> {
    let fields = numbers(alloc, fields)?;
    let (issue, unit, count) = match fields.as_slice() {
        [unit, count] if verb == "dispense" => (None, *unit, *count),
        [issue, unit, count] => (Some(*issue), *unit, *count),
        _ => return None,
    };
    Some((issue, u8::try_from(unit).ok()?, u32::try_from(count).ok()?))
}

fn counted_by(record: &Rec) -> Option<u64> {
    match record {
        Rec::Start { issues, .. } => Some(*issues),
        _ => None,
    }
}

fn numbered(alloc: Global, number: Option<u64>) -> Result<String, AllocError> {
    match number {
        Some(number) => format!(in alloc; "{number}"),
        None => String::from_str(alloc, "none"),
    }
}

// How a journal that is read again ends.
fn again(alloc: Global, told: Result<(), BootFault>) -> Result<String, Fail> {
    Ok(match told {
        Ok(()) => String::from_str(alloc, "done")?,
        Err(fault) => format!(in alloc; "{fault:?}")?,
    })
}

// Whether a nonce lived that was cleared.
fn cleared(alloc: Global, told: Result<bool, Deny>) -> Result<String, AllocError> {
    match told {
        Ok(lived) => format!(in alloc; "{lived}"),
        Err(deny) => format!(in alloc; "{deny:?}"),
    }
}

fn denied(alloc: Global, deny: Option<Deny>) -> Result<String, AllocError> {
    match deny {
        Some(deny) => format!(in alloc; "{deny:?}"),
        None => String::from_str(alloc, "done"),
    }
}

fn carried(alloc: Global, told: Result<Outcome, Deny>) -> Result<String, Fail> {
    let outcome = match told {
        Ok(outcome) => outcome,
        Err(deny) => return Ok(format!(in alloc; "{deny:?}")?),
    };
    if outcome.failed {
        return Err("the mechanism failed".into());
    }
    let counts = counts_text(alloc, &outcome.moved)?;
    let counts = str::from_utf8(&counts).unwrap_or("");
    Ok(format!(in alloc; "moved {counts}")?)
}

// So many notes of one unit.
fn notes(rt: &impl Abort, unit: u8, count: u32) -> Counts {
    assert!(rt; 1 <= unit && unit <= 8);
    let mut counts = [0; 8];
    counts[usize::from(unit) - 1] = count;
    Counts(counts)
}

/// The whole numbers of a text, with blanks between them. None where a word is none, and where memory runs out.
pub fn numbers(alloc: Global, text: &str) -> Option<Vec<u64>> {
    let mut numbers = Vec::new(alloc);
    for word in text.split_whitespace() {
        numbers.push(word.parse::<u64>().ok()?).ok()?;
    }
    Some(numbers)
}

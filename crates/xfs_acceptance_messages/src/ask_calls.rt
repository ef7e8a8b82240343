//! How the commands of the cash dispenser are read: each by its name, notes by their mix, and what an operator added.

use crate::tables::halves;
use std::alloc::Global;
use std::fmt::Write;
use std::test::Fail;
use xfs_base::Bytes;
use xfs_dispenser::{CashAsk, CashCommand, CashFail, Named, Notes, read_ask};
use xfs_json::parse;

// A command and its payload, and what is read: the notes of a mix are an amount, or a count for each of eight units.
const ASKS: &str = "CashDispenser.Present {\"mix\":7,\"storage\":null} => present
CashDispenser.Reject {\"mix\":7,\"storage\":null} => reject
CashManagement.Reset {\"mix\":7,\"storage\":null} => reset
CashManagement.Retract {\"mix\":7,\"storage\":null} => retract
Storage.StartExchange {\"mix\":7,\"storage\":null} => exchange begins
Storage.EndExchange {\"mix\":7,\"storage\":null} => exchange ends
CashDispenser.present {\"mix\":7,\"storage\":null} => unknown
CashDispenser.Reset {\"mix\":7,\"storage\":null} => unknown
CashManagement.Present {\"mix\":7,\"storage\":null} => unknown
Storage.GetStorage {\"mix\":7,\"storage\":null} => unknown
Common.Status {\"mix\":7,\"storage\":null} => unknown
 {\"mix\":7,\"storage\":null} => unknown
CashDispenser.Present {} => present
CashDispenser.Reject {} => reject
CashManagement.Reset {} => reset
CashManagement.Retract {} => retract
Storage.StartExchange {} => exchange begins
Storage.EndExchange {} => exchange ends
CashDispenser.Denominate {\"mix\":\"minimum\",\"denomination\":{\"currencies\":{\"EUR\":70},\"values\":7}} => denominate EUR 70
CashDispenser.Dispense {\"mix\":\"minimum\",\"denomination\":{\"currencies\":{\"EUR\":70},\"values\":7}} => dispense EUR 70
CashDispenser.Denominate {\"mix\":\"minimum\",\"denomination\":{\"currencies\":{\"EUR\":1},\"values\":7}} => denominate EUR 1
CashDispenser.Dispense {\"mix\":\"minimum\",\"denomination\":{\"currencies\":{\"EUR\":1},\"values\":7}} => dispense EUR 1
CashDispenser.Denominate {\"mix\":\"minimum\",\"denomination\":{\"currencies\":{\"EUR\":1000000},\"values\":7}} => denominate EUR 1000000
CashDispenser.Dispense {\"mix\":\"minimum\",\"denomination\":{\"currencies\":{\"EUR\":1000000},\"values\":7}} => dispense EUR 1000000
CashDispenser.Denominate {\"mix\":\"minimum\",\"denomination\":{\"currencies\":{\"EUR\":5,\"EUR\":10},\"values\":7}} => denominate EUR 10
CashDispenser.Dispense {\"mix\":\"minimum\",\"denomination\":{\"currencies\":{\"EUR\":5,\"EUR\":10},\"values\":7}} => dispense EUR 10
CashDispenser.Denominate {\"mix\":\"minimum\",\"denomination\":{\"currencies\":{\"EUR\":50.5},\"values\":7}} => bad
CashDispenser.Dispense {\"mix\":\"minimum\",\"denomination\":{\"currencies\":{\"EUR\":50.5},\"values\":7}} => bad
CashDispenser.Denominate {\"mix\":\"minimum\",\"denomination\":{\"currencies\":{\"EUR\":1000001},\"values\":7}} => bad
CashDispenser.Dispense {\"mix\":\"minimum\",\"denomination\":{\"currencies\":{\"EUR\":1000001},\"values\":7}} => bad
CashDispenser.Denominate {\"mix\":\"minimum\",\"denomination\":{\"currencies\":{\"EUR\":1e1},\"values\":7}} => bad
CashDispenser.Dispense {\"mix\":\"minimum\",\"denomination\":{\"currencies\":{\"EUR\":1e1},\"values\":7}} => bad
CashDispenser.Denominate {\"mix\":\"minimum\",\"denomination\":{\"currencies\":{\"EUR\":10.0},\"values\":7}} => bad
CashDispenser.Dispense {\"mix\":\"minimum\",\"denomination\":{\"currencies\":{\"EUR\":10.0},\"values\":7}} => bad
CashDispenser.Denominate {\"mix\":\"minimum\",\"denomination\":{\"currencies\":{\"EUR\":0},\"values\":7}} => bad
CashDispenser.Dispense {\"mix\":\"minimum\",\"denomination\":{\"currencies\":{\"EUR\":0},\"values\":7}} => bad
CashDispenser.Denominate {\"mix\":\"minimum\",\"denomination\":{\"currencies\":{\"EUR\":-0},\"values\":7}} => bad
CashDispenser.Dispense {\"mix\":\"minimum\",\"denomination\":{\"currencies\":{\"EUR\":-0},\"values\":7}} => bad
CashDispenser.Denominate {\"mix\":\"minimum\",\"denomination\":{\"currencies\":{\"EUR\":-10},\"values\":7}} => bad
CashDispenser.Dispense {\"mix\":\"minimum\",\"denomination\":{\"currencies\":{\"EUR\":-10},\"values\":7}} => bad
CashDispenser.Denominate {\"mix\":\"minimum\",\"denomination\":{\"currencies\":{\"EUR\":\"10\"},\"values\":7}} => bad
CashDispenser.Dispense {\"mix\":\"minimum\",\"denomination\":{\"currencies\":{\"EUR\":\"10\"},\"values\":7}} => bad
CashDispenser.Denominate {\"mix\":\"minimum\",\"denomination\":{\"currencies\":{\"EUR\":null},\"values\":7}} => bad
CashDispenser.Dispense {\"mix\":\"minimum\",\"denomination\":{\"currencies\":{\"EUR\":null},\"values\":7}} => bad
CashDispenser.Denominate {\"mix\":\"minimum\",\"denomination\":{\"currencies\":{\"EUR\":10,\"USD\":10},\"values\":7}} => bad
CashDispenser.Dispense {\"mix\":\"minimum\",\"denomination\":{\"currencies\":{\"EUR\":10,\"USD\":10},\"values\":7}} => bad
CashDispenser.Denominate {\"mix\":\"minimum\",\"denomination\":{\"currencies\":{\"eur\":10},\"values\":7}} => bad
CashDispenser.Dispense {\"mix\":\"minimum\",\"denomination\":{\"currencies\":{\"eur\":10},\"values\":7}} => bad
CashDispenser.Denominate {\"mix\":\"minimum\",\"denomination\":{\"currencies\":{\"EU\":10},\"values\":7}} => bad
CashDispenser.Dispense {\"mix\":\"minimum\",\"denomination\":{\"currencies\":{\"EU\":10},\"values\":7}} => bad
CashDispenser.Denominate {\"mix\":\"minimum\",\"denomination\":{\"currencies\":{\"EURO\":10},\"values\":7}} => bad
CashDispenser.Dispense {\"mix\":\"minimum\",\"denomination\":{\"currencies\":{\"EURO\":10},\"values\":7}} => bad
CashDispenser.Denominate {\"mix\":\"minimum\",\"denomination\":{\"currencies\":{},\"values\":7}} => bad
CashDispenser.Dispense {\"mix\":\"minimum\",\"denomination\":{\"currencies\":{},\"values\":7}} => bad
CashDispenser.Denominate {\"mix\":\"minimum\",\"denomination\":{\"currencies\":null,\"values\":7}} => bad
CashDispenser.Dispense {\"mix\":\"minimum\",\"denomination\":{\"currencies\":null,\"values\":7}} => bad
CashDispenser.Denominate {\"mix\":\"minimum\",\"denomination\":{\"currencies\":[],\"values\":7}} => bad
CashDispenser.Dispense {\"mix\":\"minimum\",\"denomination\":{\"currencies\":[],\"values\":7}} => bad
CashDispenser.Denominate {\"mix\":\"minimum\",\"denomination\":{\"currencies\":70,\"values\":7}} => bad
CashDispenser.Dispense {\"mix\":\"minimum\",\"denomination\":{\"currencies\":70,\"values\":7}} => bad
CashDispenser.Denominate {\"mix\":\"individual\",\"denomination\":{\"currencies\":7,\"values\":{\"unit1\":61}}} => denominate 61 0 0 0 0 0 0 0
CashDispenser.Dispense {\"mix\":\"individual\",\"denomination\":{\"currencies\":7,\"values\":{\"unit1\":61}}} => dispense 61 0 0 0 0 0 0 0
CashDispenser.Denominate {\"mix\":\"individual\",\"denomination\":{\"currencies\":7,\"values\":{\"unit8\":1000000,\"unit2\":1,\"unit3\":0}}} => denominate 0 1 0 0 0 0 0 1000000
CashDispenser.Dispense {\"mix\":\"individual\",\"denomination\":{\"currencies\":7,\"values\":{\"unit8\":1000000,\"unit2\":1,\"unit3\":0}}} => dispense 0 1 0 0 0 0 0 1000000
CashDispenser.Denominate {\"mix\":\"individual\",\"denomination\":{\"currencies\":7,\"values\":{}}} => denominate 0 0 0 0 0 0 0 0
CashDispenser.Dispense {\"mix\":\"individual\",\"denomination\":{\"currencies\":7,\"values\":{}}} => dispense 0 0 0 0 0 0 0 0
CashDispenser.Denominate {\"mix\":\"individual\",\"denomination\":{\"currencies\":7,\"values\":null}} => denominate 0 0 0 0 0 0 0 0
CashDispenser.Dispense {\"mix\":\"individual\",\"denomination\":{\"currencies\":7,\"values\":null}} => dispense 0 0 0 0 0 0 0 0
CashDispenser.Denominate {\"mix\":\"individual\",\"denomination\":{\"currencies\":7,\"values\":{\"unit9\":0,\"unit1\":1}}} => denominate other name
CashDispenser.Dispense {\"mix\":\"individual\",\"denomination\":{\"currencies\":7,\"values\":{\"unit9\":0,\"unit1\":1}}} => dispense other name
CashDispenser.Denominate {\"mix\":\"individual\",\"denomination\":{\"currencies\":7,\"values\":{\"unit0\":1}}} => denominate other name
CashDispenser.Dispense {\"mix\":\"individual\",\"denomination\":{\"currencies\":7,\"values\":{\"unit0\":1}}} => dispense other name
CashDispenser.Denominate {\"mix\":\"individual\",\"denomination\":{\"currencies\":7,\"values\":{\"unit01\":1}}} => denominate other name
CashDispenser.Dispense {\"mix\":\"individual\",\"denomination\":{\"currencies\":7,\"values\":{\"unit01\":1}}} => dispense other name
CashDispenser.Denominate {\"mix\":\"individual\",\"denomination\":{\"currencies\":7,\"values\":{\"Unit1\":1}}} => denominate other name
CashDispenser.Dispense {\"mix\":\"individual\",\"denomination\":{\"currencies\":7,\"values\":{\"Unit1\":1}}} => dispense other name
CashDispenser.Denominate {\"mix\":\"individual\",\"denomination\":{\"currencies\":7,\"values\":{\"\":1}}} => denominate other name
CashDispenser.Dispense {\"mix\":\"individual\",\"denomination\":{\"currencies\":7,\"values\":{\"\":1}}} => dispense other name
CashDispenser.Denominate {\"mix\":\"individual\",\"denomination\":{\"currencies\":7,\"values\":{\"unit1\":1000001}}} => bad
CashDispenser.Dispense {\"mix\":\"individual\",\"denomination\":{\"currencies\":7,\"values\":{\"unit1\":1000001}}} => bad
CashDispenser.Denominate {\"mix\":\"individual\",\"denomination\":{\"currencies\":7,\"values\":{\"unit1\":null}}} => bad
CashDispenser.Dispense {\"mix\":\"individual\",\"denomination\":{\"currencies\":7,\"values\":{\"unit1\":null}}} => bad
CashDispenser.Denominate {\"mix\":\"individual\",\"denomination\":{\"currencies\":7,\"values\":{\"unit1\":1.0}}} => bad
CashDispenser.Dispense {\"mix\":\"individual\",\"denomination\":{\"currencies\":7,\"values\":{\"unit1\":1.0}}} => bad
CashDispenser.Denominate {\"mix\":\"individual\",\"denomination\":{\"currencies\":7,\"values\":{\"unit1\":-1}}} => bad
CashDispenser.Dispense {\"mix\":\"individual\",\"denomination\":{\"currencies\":7,\"values\":{\"unit1\":-1}}} => bad
CashDispenser.Denominate {\"mix\":\"individual\",\"denomination\":{\"currencies\":7,\"values\":{\"other\":0,\"unit1\":[]}}} => bad
CashDispenser.Dispense {\"mix\":\"individual\",\"denomination\":{\"currencies\":7,\"values\":{\"other\":0,\"unit1\":[]}}} => bad
CashDispenser.Denominate {\"mix\":\"individual\",\"denomination\":{\"currencies\":7,\"values\":[]}} => bad
CashDispenser.Dispense {\"mix\":\"individual\",\"denomination\":{\"currencies\":7,\"values\":[]}} => bad
CashDispenser.Denominate {\"mix\":\"individual\",\"denomination\":{\"currencies\":7,\"values\":0}} => bad
CashDispenser.Dispense {\"mix\":\"individual\",\"denomination\":{\"currencies\":7,\"values\":0}} => bad
CashDispenser.Denominate {\"mix\":\"individual\",\"denomination\":{}} => denominate 0 0 0 0 0 0 0 0
CashDispenser.Dispense {\"mix\":\"individual\",\"denomination\":{}} => dispense 0 0 0 0 0 0 0 0
CashDispenser.Denominate {\"mix\":\"minimum\",\"denomination\":{}} => bad
CashDispenser.Dispense {\"mix\":\"minimum\",\"denomination\":{}} => bad
CashDispenser.Denominate {\"mix\":\"Individual\",\"denomination\":{}} => bad
CashDispenser.Dispense {\"mix\":\"Individual\",\"denomination\":{}} => bad
CashDispenser.Denominate {\"mix\":null,\"denomination\":{}} => bad
CashDispenser.Dispense {\"mix\":null,\"denomination\":{}} => bad
CashDispenser.Denominate {\"mix\":1,\"denomination\":{}} => bad
CashDispenser.Dispense {\"mix\":1,\"denomination\":{}} => bad
CashDispenser.Denominate {\"denomination\":{}} => bad
CashDispenser.Dispense {\"denomination\":{}} => bad
CashDispenser.Denominate {\"mix\":\"individual\",\"denomination\":null} => bad
CashDispenser.Dispense {\"mix\":\"individual\",\"denomination\":null} => bad
CashDispenser.Denominate {\"mix\":\"individual\",\"denomination\":[]} => bad
CashDispenser.Dispense {\"mix\":\"individual\",\"denomination\":[]} => bad
CashDispenser.Denominate {\"mix\":\"individual\"} => bad
CashDispenser.Dispense {\"mix\":\"individual\"} => bad
CashDispenser.Denominate {} => bad
CashDispenser.Dispense {} => bad
CashDispenser.Denominate {\"mix\":\"individual\",\"denomination\":{},\"token\":\"NONCE=1\"} => denominate 0 0 0 0 0 0 0 0
CashDispenser.Dispense {\"mix\":\"individual\",\"denomination\":{},\"token\":\"NONCE=1\"} => dispense 0 0 0 0 0 0 0 0 by NONCE=1
CashDispenser.Denominate {\"mix\":\"individual\",\"denomination\":{},\"token\":\"\"} => denominate 0 0 0 0 0 0 0 0
CashDispenser.Dispense {\"mix\":\"individual\",\"denomination\":{},\"token\":\"\"} => dispense 0 0 0 0 0 0 0 0 by 
CashDispenser.Denominate {\"mix\":\"individual\",\"denomination\":{},\"token\":\"\\u00e9\"} => denominate 0 0 0 0 0 0 0 0
CashDispenser.Dispense {\"mix\":\"individual\",\"denomination\":{},\"token\":\"\\u00e9\"} => dispense 0 0 0 0 0 0 0 0 by é
CashDispenser.Denominate {\"mix\":\"individual\",\"denomination\":{},\"token\":null} => denominate 0 0 0 0 0 0 0 0
CashDispenser.Dispense {\"mix\":\"individual\",\"denomination\":{},\"token\":null} => dispense 0 0 0 0 0 0 0 0
CashDispenser.Denominate {\"mix\":\"individual\",\"denomination\":{},\"token\":7} => denominate 0 0 0 0 0 0 0 0
CashDispenser.Dispense {\"mix\":\"individual\",\"denomination\":{},\"token\":7} => bad
CashDispenser.Denominate {\"mix\":\"individual\",\"denomination\":{},\"token\":{}} => denominate 0 0 0 0 0 0 0 0
CashDispenser.Dispense {\"mix\":\"individual\",\"denomination\":{},\"token\":{}} => bad
CashDispenser.Denominate {\"mix\":\"individual\",\"denomination\":{},\"token\":false} => denominate 0 0 0 0 0 0 0 0
CashDispenser.Dispense {\"mix\":\"individual\",\"denomination\":{},\"token\":false} => bad
Storage.SetStorage {\"storage\":{\"unit3\":{\"added\":10000},\"unit1\":{\"added\":1}}} => added 1 0 10000 0 0 0 0 0
Storage.SetStorage {\"storage\":{\"unit9\":{\"added\":1}}} => added other name
Storage.SetStorage {\"storage\":{\"unit9\":{\"added\":1},\"unit1\":{}}} => bad
Storage.SetStorage {\"storage\":{\"unit1\":{\"added\":0}}} => bad
Storage.SetStorage {\"storage\":{}} => bad
Storage.SetStorage {\"storage\":null} => bad
Storage.SetStorage {} => bad";

fn tell_counts(told: &mut String, counts: &Named) -> Result<(), Fail> {
    match counts {
        Named::These(counts) => {
            for count in counts.0 {
                write!(told, " {count}")?;
            }
        }
        Named::OtherName => told.push_str(" other name")?,
    }
    Ok(())
}

fn tell_notes(told: &mut String, notes: &Notes) -> Result<(), Fail> {
    match notes {
        Notes::Least { currency, amount } => {
            let letters = currency.letters();
            let letters = std::str::from_utf8(&letters).unwrap_or("?");
            Ok(write!(told, " {letters} {amount}")?)
        }
        Notes::Individual(counts) => tell_counts(told, counts),
    }
}

fn tell_token(told: &mut String, token: &Option<Bytes>) -> Result<(), Fail> {
    if let Some(token) = token {
        let token = std::str::from_utf8(token.list()).unwrap_or("?");
        write!(told, " by {token}")?;
    }
    Ok(())
}

fn word_of(ask: &CashAsk) -> &'static str {
    match ask {
        CashAsk::Denominate { .. } => "denominate",
        CashAsk::Dispense { .. } => "dispense",
        CashAsk::SetStorage { .. } => "added",
        CashAsk::Present => "present",
        CashAsk::Reject => "reject",
        CashAsk::Reset => "reset",
        CashAsk::Retract => "retract",
        CashAsk::StartExchange => "exchange begins",
        CashAsk::EndExchange => "exchange ends",
    }
}

// Tells a command that was read.
fn tell(told: &mut String, ask: &CashAsk) -> Result<(), Fail> {
    told.push_str(word_of(ask))?;
    match ask {
        CashAsk::Denominate { notes } => tell_notes(told, notes),
        CashAsk::Dispense { notes, token } => {
            tell_notes(told, notes)?;
            tell_token(told, token)
        }
        CashAsk::SetStorage { added } => tell_counts(told, added),
        _ => Ok(()),
    }
}

fn tell_read(told: &mut String, read: &Result<CashAsk, CashFail>) -> Result<(), Fail> {
    match read {
        Ok(ask) => tell(told, ask),
        Err(CashFail::Shape) => Ok(told.push_str("bad")?),
        Err(CashFail::Memory) => Err("memory".into()),
    }
}

fn told(alloc: Global, name: &str, text: &str) -> Result<String, Fail> {
    let mut told = String::new(alloc);
    match CashCommand::named(name) {
        Some(command) => tell_of(alloc, &mut told, command, text)?,
        None => told.push_str("unknown")?,
    }
    Ok(told)
}

fn tell_of(alloc: Global, told: &mut String, command: CashCommand, text: &str) -> Result<(), Fail> {
    let payload = parse(alloc, text.as_bytes()).ok().ok_or("JSON")?;
    let read = read_ask(alloc, command, &payload);
    tell_read(told, &read)
}

#[test]
fn commands_are_read_by_their_names_and_members(rt: HostRuntime) -> Result<(), Fail> {
    for row in ASKS.lines() {
        assert!(rt; is_read(rt.alloc(), row)?, "{row}");
    }
    Ok(())
}

// Whether a row's command is read as the row says.
fn is_read(alloc: Global, row: &str) -> Result<bool, Fail> {
    let (asked, due) = halves(row);
    let (name, payload) = asked.split_once(" ").ok_or("a payload")?;
    Ok(told(alloc, name, payload)?.as_str() == due)
}

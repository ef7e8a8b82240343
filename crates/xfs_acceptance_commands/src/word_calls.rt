use crate::tables::halves;
use std::alloc::{AllocError, Global};
use std::test::Fail;
use xfs_words::{name_command, read};

// Words with strokes between them, and the command that they name; the letters are those of EUR.
const WORDS: &str = "guard => Guard
token => Token
replay => Replay
host => Host
audit => Audit
load/1 => Load(1)
load/8 => Load(8)
load/08 => Load(8)
load/+8 => Load(8)
load/+008 => Load(8)
load/10000 => Load(10000)
load/000000000000000000000000000010000 => Load(10000)
serve/1 => Serve(1)
serve/10001 => Serve(10001)
serve/1000000 => Serve(1000000)
serve/+0000016 => Serve(16)
client/EUR/70 => Client(Currency { letters: [69, 85, 82] }, 70)
client/EUR/1 => Client(Currency { letters: [69, 85, 82] }, 1)
client/EUR/+0070 => Client(Currency { letters: [69, 85, 82] }, 70)
client/EUR/10001 => Client(Currency { letters: [69, 85, 82] }, 10001)
client/EUR/1000000 => Client(Currency { letters: [69, 85, 82] }, 1000000)
 => none
/8 => none
  => none
guards => none
guar => none
Guard => none
GUARD => none
guard  => none
guard/ => none
guard/guard => none
token/8 => none
replay/8 => none
replay/token => none
host/ => none
audit/audit => none
audit/1 => none
Audit => none
audits => none
help => none
help/load => none
load/help => none
guard/help => none
version => none
-h => none
--help => none
--version => none
-V => none
- => none
-- => none
--/guard => none
guard/-- => none
guard/-h => none
guard/--help => none
load/--help => none
load/--/8 => none
load/-8 => none
load/-1 => none
load => none
load/ => none
load/0 => none
load/+0 => none
load/10001 => none
load/8/8 => none
load/8/ => none
load/8  => none
load/+ => none
load/++8 => none
load/0x8 => none
load/8.0 => none
load/1e3 => none
load/\u{0668} => none
load/\u{ff18} => none
load/18446744073709551617 => none
LOAD/8 => none
serve/0 => none
serve/1000001 => none
client/EUR => none
client/70/EUR => none
client/EUR/1000001 => none
client/EUR/70/70 => none
client//70 => none
client/EU/70 => none
client/EURO/70 => none
client/eur/70 => none
client/EuR/70 => none
client/E R/70 => none
client/-EUR/70 => none
client/E\u{c4}/70 => none
client/\u{394}\u{395}/70 => none";

fn words_in(alloc: Global, text: &str) -> Result<Vec<String>, AllocError> {
    let mut words = Vec::new(alloc);
    for word in text.split('/') {
        words.push(String::from_str(alloc, word)?)?;
    }
    Ok(words)
}

// Whether both readings of the words make this of them.
fn name(alloc: Global, words: &[String], due: &str) -> Result<bool, AllocError> {
    let command = read(alloc, words).ok();
    if name_command(words) != command {
        return Ok(false);
    }
    match command {
        Some(command) => Ok(format!(in alloc; "{command:?}")?.as_str() == due),
        None => Ok(due == "none"),
    }
}

// Whether the words of a row name what stands behind them.
fn is_named(alloc: Global, row: &str) -> Result<bool, AllocError> {
    let (words, due) = halves(row);
    name(alloc, &words_in(alloc, words)?, due)
}

#[test]
fn words_name_a_command_or_none(rt: HostRuntime) -> Result<(), Fail> {
    assert!(rt; name(rt.alloc(), &[], "none")?);
    for row in WORDS.lines() {
        assert!(rt; is_named(rt.alloc(), row)?, "{row}");
    }
    Ok(())
}

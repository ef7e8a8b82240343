//! The words of the command line, read: the first word and hyphens by the program itself, the rest by `clap`.

ghost use Rattle.std.specs.Prelude.{◌≡◌, ◌↔◌, ◌<◌, ◌^◌, [], ℕ, IfErr, IfOk, IsTrue, List, Ok, Some, codes};
ghost use Rattle.clap.specs.Words.{fault_of, first_of, found_of, rows_of, subcommand_of, subcommand_rows_of};
ghost use Rattle.xfs_words.specs.Table.{HasName, HasNumber, IsMadeOf, IsName, MakesWithdrawal, begins_with_hyphen, is_plain, table};
ghost use Rattle.xfs_words.specs.Words.{Names, texts};
ghost use Rattle.xfs_words.specs.declared.command.Command.{Command};
ghost use Rattle.xfs_words.specs.declared.command.WordsFault.TheVariants.{Usage};

use crate::command::{Command, WordsFault};
use crate::table::table;
use clap::ArgMatches;
use clap::error::ErrorKind;
use std::alloc::Global;
use xfs_base::Currency;

/// The command that the words name, the program's own name left out. Letters are looked at as they stand; a number is
/// decimal digits, where leading zeros and one leading `+` are allowed.
///
/// # Errors
///
/// `Usage` exactly where the words name no command, want of memory aside; `Memory` for want of memory.
pub fn read(alloc: Global, words: &[String]) -> Result<Command, WordsFault>
    ensures ok { IfOk result (λ command. Names command (texts words.now)) }
    ensures only { IfOk result (λ command. (other : Command) → Names other (texts words.now) → other ≡ command) }
    ensures usage { IfErr result (λ fault. fault ≡ Usage → (command : Command) → ¬ (Names command (texts words.now))) }
{
    if !is_plain(words) || !has_name(words) {
        return Err(WordsFault::Usage);
    }
    let matches = parse_words(alloc, words)?;
    match matches.subcommand() {
        Some((name, found)) => command(name, found),
        None => Err(WordsFault::Usage),
    }
}

fn is_plain(words: &[String]) -> bool
    ensures { result ≡ is_plain words.now }
{
    words.iter().all(|word| !begins_with_hyphen(word.as_str()))
}

fn begins_with_hyphen(word: &str) -> bool
    ensures { result ≡ begins_with_hyphen word.now }
{
    word.as_bytes().first() == Some(&b'-')
}

fn has_name(words: &[String]) -> bool
    ensures { IsTrue result ↔ HasName (texts words.now) }
{
    match words.first() {
        Some(word) => is_name(word.as_str()),
        None => false,
    }
}

fn is_name(word: &str) -> bool
    ensures { IsTrue result ↔ IsName word.now }
{
    matches!(
        word,
        "guard" | "token" | "replay" | "load" | "serve" | "client" | "host" | "audit" | "fleet"
    )
}

fn parse_words<'a>(alloc: Global, words: &'a [String]) -> Result<ArgMatches<'a>, WordsFault>
    ensures ok { IfOk result (λ _. fault_of table (texts words.entry.now) ≡ []) }
    ensures rows { IfOk result (λ matches. subcommand_rows_of matches ≡ subcommand_of table (texts words.entry.now)) }
    ensures usage { IfErr result (λ fault. fault ≡ Usage → ¬ (fault_of table (texts words.entry.now) ≡ [])) }
{
    match table(alloc)?.try_get_matches_from(words) {
        Ok(matches) => Ok(matches),
        Err(error) if error.kind() == ErrorKind::OutOfMemory => Err(WordsFault::Memory),
        Err(_) => Err(WordsFault::Usage),
    }
}

// The command of a name of the table, with what was found behind it.
fn command(name: &str, found: &ArgMatches<'_>) -> Result<Command, WordsFault>
    ensures { IsMadeOf name.now (rows_of (found_of found.now)) result }
{
    match name {
        "guard" => Ok(Command::Guard),
        "token" => Ok(Command::Token),
        "replay" => Ok(Command::Replay),
        "load" => Ok(Command::Load(number(found)?)),
        "serve" => Ok(Command::Serve(number(found)?)),
        "client" => client(found),
        "host" => Ok(Command::Host),
        "audit" => Ok(Command::Audit),
        "fleet" => Ok(Command::Fleet),
        _ => Err(WordsFault::Usage),
    }
}

fn client(found: &ArgMatches<'_>) -> Result<Command, WordsFault>
    ensures { MakesWithdrawal (rows_of (found_of found.now)) result }
{
    let Some(letters) = found.get_str("currency") else {
        return Err(WordsFault::Usage);
    };
    match Currency::new(letters.as_bytes()) {
        Some(currency) => Ok(Command::Client(currency, number(found)?)),
        None => Err(WordsFault::Usage),
    }
}

fn number(found: &ArgMatches<'_>) -> Result<u64, WordsFault>
    ensures { (most n : ℕ) → most < 2 ^ 64 → HasNumber most (rows_of (found_of found.now)) n → result ≡ Ok n }
{
    found.get_one::<u64>("number").ok_or(WordsFault::Usage)
}

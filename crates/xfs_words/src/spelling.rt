//! The words of the command line, compared as they stand.

ghost use Rattle.std.specs.Prelude.{◌≡◌, ◌∷◌, ◌^◌, ◌<◌, [], ℕ, IfNone, IfSome};
ghost use Rattle.xfs_words.specs.Words.{IsNumber, Names, texts};
ghost use Rattle.xfs_words.specs.declared.command.Command.{Command};

use crate::command::Command;
use xfs_base::Currency;

// The most rounds of `load`, connections of `serve`, and whole units of a currency of `client`.
const MOST_ROUNDS: u64 = 10_000;

const MOST_CONNECTIONS: u64 = 1_000_000;

const MOST_AMOUNT: u64 = 1_000_000;

/// The command that the words name, as `read` gives it, compared as they stand. It takes no memory, so it serves where
/// `read` found none.
pub fn name_command(words: &[String]) -> Option<Command>
    ensures named { IfSome result (λ command. Names command (texts words.now)) }
    ensures none { IfNone result ((command : Command) → ¬ (Names command (texts words.now))) }
{
    match words {
        [name] => bare(name.as_str()),
        [name, number] => number_command(name.as_str(), number.as_str()),
        [name, letters, number] => withdrawal(name.as_str(), letters.as_str(), number.as_str()),
        _ => None,
    }
}

fn bare(name: &str) -> Option<Command>
    ensures named { IfSome result (λ command. Names command (name.now ∷ [])) }
    ensures none { IfNone result ((command : Command) → ¬ (Names command (name.now ∷ []))) }
{
    match name {
        "guard" => Some(Command::Guard),
        "token" => Some(Command::Token),
        "replay" => Some(Command::Replay),
        "host" => Some(Command::Host),
        "audit" => Some(Command::Audit),
        "fleet" => Some(Command::Fleet),
        _ => None,
    }
}

fn number_command(name: &str, number: &str) -> Option<Command>
    ensures named { IfSome result (λ command. Names command (name.now ∷ number.now ∷ [])) }
    ensures none { IfNone result ((command : Command) → ¬ (Names command (name.now ∷ number.now ∷ []))) }
{
    match name {
        "load" => Some(Command::Load(number_in(number, MOST_ROUNDS)?)),
        "serve" => Some(Command::Serve(number_in(number, MOST_CONNECTIONS)?)),
        _ => None,
    }
}

fn withdrawal(name: &str, letters: &str, number: &str) -> Option<Command>
    ensures named { IfSome result (λ command. Names command (name.now ∷ letters.now ∷ number.now ∷ [])) }
    ensures none { IfNone result ((command : Command) → ¬ (Names command (name.now ∷ letters.now ∷ number.now ∷ []))) }
{
    match name {
        "client" => {
            let currency = Currency::new(letters.as_bytes())?;
            Some(Command::Client(currency, number_in(number, MOST_AMOUNT)?))
        }
        _ => None,
    }
}

// The number that a word writes, from 1 to the most.
fn number_in(word: &str, most: u64) -> Option<u64>
    ensures number { IfSome result (λ number. IsNumber most word.now number) }
    ensures none { IfNone result ((number : ℕ) → ¬ (IsNumber most word.now number)) }
{
    match word.parse::<u64>() {
        Ok(number) if number >= 1 && number <= most => Some(number),
        _ => None,
    }
}

//! The table of the commands as `clap` reads it: one command with one level of subcommands.

ghost use Rattle.std.specs.Prelude.{◌≡◌, ◌∷◌, [], IfOk, false, codes};
ghost use Rattle.clap.specs.Words.{app_of, rule_of};
ghost use Rattle.xfs_words.specs.Table.{IsSubcommand, currency_rule, number_rule, number_rule_of, table};

use clap::builder::ValueParser;
use clap::{Arg, ArgAction, Command, value_parser};
use std::alloc::{AllocError, Global};

/// The commands; no word for help or for the version is among them.
pub(crate) fn table<'a>(alloc: Global) -> Result<Command<'a>, AllocError>
    ensures { IfOk result (λ command. app_of command ≡ table) }
{
    Command::new(alloc, "xfs")
        .no_binary_name(true)
        .disable_help_flag(true)
        .disable_help_subcommand(true)
        .disable_version_flag(true)
        .subcommand_required(true)
        .subcommand(Command::new(alloc, "guard"))?
        .subcommand(Command::new(alloc, "token"))?
        .subcommand(Command::new(alloc, "replay"))?
        .subcommand(load(alloc)?)?
        .subcommand(serve(alloc)?)?
        .subcommand(client(alloc)?)?
        .subcommand(Command::new(alloc, "host"))?
        .subcommand(Command::new(alloc, "audit"))?
        .subcommand(Command::new(alloc, "fleet"))
}

fn load<'a>(alloc: Global) -> Result<Command<'a>, AllocError>
    ensures { IfOk result (IsSubcommand (codes "load") (number_rule 10000 ∷ [])) }
{
    let rounds = number(alloc, value_parser!(u64).range(1..=10_000));
    Command::new(alloc, "load").arg(rounds)
}

fn serve<'a>(alloc: Global) -> Result<Command<'a>, AllocError>
    ensures { IfOk result (IsSubcommand (codes "serve") (number_rule 1000000 ∷ [])) }
{
    let connections = number(alloc, value_parser!(u64).range(1..=1_000_000));
    Command::new(alloc, "serve").arg(connections)
}

fn client<'a>(alloc: Global) -> Result<Command<'a>, AllocError>
    ensures { IfOk result (IsSubcommand (codes "client") (currency_rule ∷ number_rule 1000000 ∷ [])) }
{
    let currency = Arg::new(alloc, "currency")
        .required(true)
        .action(ArgAction::Set);
    let amount = number(alloc, value_parser!(u64).range(1..=1_000_000));
    Command::new(alloc, "client").arg(currency)?.arg(amount)
}

// A needed number that the parser takes.
fn number<'a>(alloc: Global, parser: ValueParser<'a>) -> Arg<'a>
    ensures rule { rule_of result ≡ number_rule_of parser.entry }
    ensures global { result.global ≡ false }
{
    Arg::new(alloc, "number")
        .required(true)
        .action(ArgAction::Set)
        .value_parser(parser)
}

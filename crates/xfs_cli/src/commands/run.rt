//! The top call.

ghost use Rattle.std.specs.Prelude.{◌≡◌};
ghost use Rattle.xfs_guard.specs.Starts.{Starts};
ghost use Rattle.xfs_lines.specs.Audit.Runs.{RunsAuditOf};
ghost use Rattle.xfs_cli.specs.ClientRuns.{IsUndialled, RunsClientOf};
ghost use Rattle.xfs_cli.specs.FleetRuns.{RunsFleetOf};
ghost use Rattle.xfs_lines.specs.Guard.Runs.{RunsGuardOf};
ghost use Rattle.xfs_lines.specs.Host.Runs.{RunsHostOf};
ghost use Rattle.xfs_cli.specs.LoadRuns.{RunsLoadOf};
ghost use Rattle.xfs_lines.specs.Moments.{WasOnTheWayAll};
ghost use Rattle.xfs_cli.specs.Replay.Runs.{RunsReplayOf};
ghost use Rattle.xfs_lines.specs.Returns.{back, second_back, ComesBack};
ghost use Rattle.xfs_lines.specs.Run.{IsClient, IsCommand, IsFleet, IsUnread};
ghost use Rattle.xfs_cli.specs.ServeRuns.{RunsServeOf};
ghost use Rattle.xfs_lines.specs.Output.Statuses.{IsCaused, IsStatusOf};
ghost use Rattle.xfs_script.specs.Streams.{io_of, output};
ghost use Rattle.xfs_lines.specs.Token.Runs.{RunsTokenOf};
ghost use Rattle.xfs_lines.specs.Upholds.{Accounts, UpholdsAll};
ghost use Rattle.xfs_lines.specs.Output.Usages.{TellsUsage};
ghost use Rattle.xfs_cli.specs.CommandRuns.{IsNamed, AtDoors, HasRun, without_link};
ghost use Rattle.xfs_words.specs.declared.command.Command.TheVariants.{Fleet};

use crate::commands::client::client;
use crate::commands::fleet::fleet;
use crate::commands::load::load;
use crate::commands::replay::command::replay;
use crate::commands::serve::serve;
use crate::words::command_of;
use std::alloc::Global;
use std::sync::Wait;
use std::thread::Threads;
use xfs_base::{Clock, Sink, Source};
use xfs_disk::Disk;
use xfs_guard::Bench;
use xfs_lines::{Ended, audit, guard, host, tell_usage, token};
use xfs_mech::{Mechanism, Watch};
use xfs_server::{Doors, Gate};
use xfs_words::Command;

/// The program: the words of the command line, its input and output, what it works on, and where connections come in
/// and are dialled. The sessions of `serve` pass the gate.
pub fn run<
    R: Threads + Wait + Sync,
    S: Source,
    K: Sink,
    M: Mechanism + Send,
    D: Disk + Send,
    P: Watch + Send,
    Q: Watch + Send,
    C: Clock + Sync,
    O: Doors,
    G: Gate + Sync,
>(
    rt: &R,
    alloc: Global,
    words: &[String],
    source: &mut S,
    sink: &mut K,
    bench: Bench<M, D, P, Q>,
    clock: &C,
    doors: &mut O,
    gate: &G,
) -> Ended<M, D, O::Link>
    requires starts { Starts M.Mechanism D.Disk bench.core }
    requires second { IsFleet words.now → Starts M.Mechanism D.Disk bench.second }

    // The headline: what was put out is within the tokens, whatever a crash leaves of the disk, and it follows what was
    // there at entry. A crash at any moment of the run leaves a list that begins with the records at entry, and is a
    // prefix of those at the end but for its last record, whose number then no motion has.
    ensures upholds { UpholdsAll M.Mechanism D.Disk bench.core (back result) }
    ensures any_moment { WasOnTheWayAll M.Mechanism D.Disk bench.core (back result) }

    // What each command does.
    ensures guard { RunsGuardOf words.now M.Mechanism D.Disk bench.core result (io_of S.Source K.Sink source.old source.new sink.old sink.new) }
    ensures replay { RunsReplayOf words.now M.Mechanism D.Disk bench.core result (io_of S.Source K.Sink source.old source.new sink.old sink.new) }
    ensures load { RunsLoadOf words.now M.Mechanism D.Disk bench.core result (io_of S.Source K.Sink source.old source.new sink.old sink.new) }
    ensures token { RunsTokenOf words.now bench.core result (io_of S.Source K.Sink source.old source.new sink.old sink.new) }
    ensures host { RunsHostOf words.now bench.core result (io_of S.Source K.Sink source.old source.new sink.old sink.new) }
    ensures audit { RunsAuditOf words.now bench.core result (io_of S.Source K.Sink source.old source.new sink.old sink.new) }
    ensures fleet { RunsFleetOf words.now M.Mechanism D.Disk bench result (io_of S.Source K.Sink source.old source.new sink.old sink.new) }
    ensures serve { RunsServeOf words.now M.Mechanism D.Disk bench.core result (O.log doors.old) (O.log doors.new) (output K.Sink sink.old sink.new) }
    ensures client { RunsClientOf words.now O.Link.log bench.core result (O.log doors.old) (O.log doors.new) (output K.Sink sink.old sink.new) }

    // Words that are no command are told those that are; nothing is read, and mechanism and disk are as they were. Nor do
    // `load`, `serve` and `client` read.
    ensures usage { TellsUsage (IsCommand words.now) bench result source.old source.new (io_of S.Source K.Sink source.old source.new sink.old sink.new) }
    ensures unread { IsUnread words.now → source.new ≡ source.old }

    // The statuses that there are, and the cause of each of those that the input and the output have.
    ensures statuses { IsStatusOf words.now result.status }
    ensures causes { ¬ (IsUnread words.now) → IsCaused result.status (io_of S.Source K.Sink source.old source.new sink.old sink.new) }

    // What comes back: the mechanism's notes add up, its table of units is the one that was handed in, and what told
    // its list or its bytes still does. Only `client` dials, and its link comes back. Only `fleet` touches the second.
    ensures accounts { Accounts M.Mechanism D.Disk bench.core (back result) }
    ensures second { ¬ (IsFleet words.now) → ComesBack bench.second (second_back result) }
    ensures undialled { ¬ (IsClient words.now) → IsUndialled result.link (O.log doors.old) (O.log doors.new) }
{
    match command_of(alloc, words) {
        Some(command) => run_command(rt, alloc, command, source, sink, bench, clock, doors, gate),
        None => tell_usage(sink, bench),
    }
}

// Runs the command that some words name.
fn run_command<
    R: Threads + Wait + Sync,
    S: Source,
    K: Sink,
    M: Mechanism + Send,
    D: Disk + Send,
    P: Watch + Send,
    Q: Watch + Send,
    C: Clock + Sync,
    O: Doors,
    G: Gate + Sync,
>(
    rt: &R,
    alloc: Global,
    command: Command,
    source: &mut S,
    sink: &mut K,
    bench: Bench<M, D, P, Q>,
    clock: &C,
    doors: &mut O,
    gate: &G,
) -> Ended<M, D, O::Link>
    requires named { IsNamed command }
    requires starts { Starts M.Mechanism D.Disk bench.core }
    requires second { command ≡ Fleet → Starts M.Mechanism D.Disk bench.second }
    ensures runs { HasRun command M.Mechanism D.Disk bench result source.old source.new (io_of S.Source K.Sink source.old source.new sink.old sink.new) }
    ensures doors { AtDoors command M.Mechanism D.Disk O.Link.log bench result (O.log doors.old) (O.log doors.new) (output K.Sink sink.old sink.new) }
{
    match command {
        Command::Guard => linkless(guard(alloc, source, sink, bench)),
        Command::Token => linkless(token(alloc, source, sink, bench)),
        Command::Replay => linkless(replay(alloc, source, sink, bench)),
        Command::Load(rounds) => linkless(load(alloc, rounds as u32, source, sink, bench)),
        Command::Serve(connections) => {
            serve(
                rt,
                alloc,
                connections as u32,
                sink,
                bench,
                clock,
                doors,
                gate,
            )
        }
        Command::Client(currency, amount) => {
            client(
                rt,
                alloc,
                currency,
                amount as u32,
                sink,
                bench,
                clock,
                doors,
            )
        }
        Command::Host => linkless(host(alloc, source, sink, bench)),
        Command::Audit => linkless(audit(alloc, source, sink, bench)),
        Command::Fleet => linkless(fleet(alloc, source, sink, bench)),
    }
}

// What a command gives back that dials nothing, where a link could be.
fn linkless<M: Mechanism, D: Disk, L>(ended: Ended<M, D, ()>) -> Ended<M, D, L>
    ensures { result ≡ without_link ended }
{
    Ended {
        status: ended.status,
        mech: ended.mech,
        disk: ended.disk,
        link: None,
        second: ended.second,
    }
}

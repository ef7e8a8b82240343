//! The command `serve`.

ghost use Rattle.std.specs.Prelude.{◌≡◌};
ghost use Rattle.xfs_guard.specs.Starts.{Starts};
ghost use Rattle.xfs_lines.specs.Returns.{back, second_back, ComesBack};
ghost use Rattle.xfs_cli.specs.ServeRuns.{RunsServe, served_line, served_status};
ghost use Rattle.xfs_script.specs.Streams.{output};
ghost use Rattle.xfs_script.specs.LastLines.{WritesLast};
ghost use Rattle.xfs_lines.specs.Headlines.{EndsWell};

use std::alloc::Global;
use std::sync::Wait;
use std::thread::Threads;
use xfs_base::{Clock, Sink};
use xfs_board::{Served, serve_connections};
use xfs_disk::Disk;
use xfs_guard::{Bench, BootFault, Deny};
use xfs_lines::status::{LINK_FAILED, NO_MEMORY, READ_TO_END};
use xfs_lines::{Ended, finish_unbooted, give_back, give_back_unbooted};
use xfs_machine::Machine;
use xfs_mech::{Mechanism, Watch};
use xfs_server::{Doors, Gate};
use xfs_serving::{CardWatch, Ending, KeyWatch};

/// Boots a machine, takes so many connections at the doors and serves them at once, each in a session of its own, and
/// carries an open order out at the end. It reads no input.
pub fn serve<
    R: Threads + Wait + Sync,
    K: Sink,
    M: Mechanism + Send,
    D: Disk + Send,
    P: Watch + Send,
    Q: Watch + Send,
    C: Clock + Sync,
    O: Doors,
    G: Gate + Sync,
>(
    rt: &R,
    alloc: Global,
    count: u32,
    sink: &mut K,
    bench: Bench<M, D, P, Q>,
    clock: &C,
    doors: &mut O,
    gate: &G,
) -> Ended<M, D, O::Link>
    requires starts { Starts M.Mechanism D.Disk bench.core }
    ensures ends { EndsWell M.Mechanism D.Disk bench.core (back result) }
    ensures runs { RunsServe M.Mechanism D.Disk bench.core count (back result) (O.log doors.old) (O.log doors.new) (output K.Sink sink.old sink.new) }
    ensures undialled { result.link ≡ None }
    ensures second { ComesBack bench.second (second_back result) }
{
    let Bench {
        core,
        cards,
        keys,
        second,
    } = bench;
    match Machine::boot(alloc, core) {
        Ok(machine) => {
            let Served { ending, machine } = serve_connections::<R, M, D, O, C, G, P, Q>(
                rt,
                alloc,
                count,
                machine,
                doors,
                clock,
                gate,
                CardWatch(cards),
                KeyWatch(keys),
            );
            let (settled, mech, disk) = machine.finish();
            give_back(settle(sink, ending, settled), mech, disk, second)
        }
        Err(fail) => give_back_unbooted(sink, fail, second),
    }
}

// The status of a server, once the line was written that the disk failed at the end, if it did.
fn settle<K: Sink>(sink: &mut K, ending: Ending, settled: Result<(), Deny>) -> u8
    ensures status { result ≡ served_status ending settled }
    ensures line { WritesLast (served_line settled) (output K.Sink sink.old sink.new) }
{
    match (settled, ending) {
        (Err(_), _) => finish_unbooted(sink, BootFault::Disk),
        (Ok(()), Ending::Served) => READ_TO_END,
        (Ok(()), Ending::Failed) => LINK_FAILED,
        (Ok(()), Ending::Memory) => NO_MEMORY,
    }
}

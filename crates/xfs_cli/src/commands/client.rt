//! The command `client`.

ghost use Rattle.std.specs.Prelude.{◌≤◌, ◌≢◌};
ghost use Rattle.xfs_cli.specs.ClientRuns.{RunsClientFor};
ghost use Rattle.xfs_lines.specs.Returns.{second_back, ComesBack};
ghost use Rattle.xfs_script.specs.Streams.{output};

use std::alloc::Global;
use std::sync::Wait;
use xfs_base::{Clock, Currency, Sink};
use xfs_disk::Disk;
use xfs_guard::Bench;
use xfs_lines::status::USAGE;
use xfs_lines::{Ended, give_back_untouched};
use xfs_mech::{Mechanism, Watch};
use xfs_server::Doors;
use xfs_withdraw::withdraw;

/// Withdraws an amount over a link that is dialled for it, with a token under the core's key. It boots nothing and reads
/// no input.
pub fn client<R: Wait, K: Sink, M: Mechanism, D: Disk, P: Watch, Q: Watch, C: Clock, O: Doors>(
    rt: &R,
    alloc: Global,
    currency: Currency,
    amount: u32,
    sink: &mut K,
    bench: Bench<M, D, P, Q>,
    clock: &C,
    doors: &mut O,
) -> Ended<M, D, O::Link>
    requires low { 1 ≤ amount }
    requires high { amount ≤ 1000000 }
    ensures runs { RunsClientFor O.Link.log currency amount bench.core result (O.log doors.old) (O.log doors.new) (output K.Sink sink.old sink.new) }
    ensures usage { result.status ≢ USAGE }
    ensures second { ComesBack bench.second (second_back result) }
{
    let key = bench.core.key;
    let withdrawn = withdraw(rt, alloc, currency, amount, key, doors, clock, sink);
    give_back_untouched(bench, withdrawn.ending.status(), withdrawn.link)
}

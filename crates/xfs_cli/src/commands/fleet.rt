//! The command `fleet`.

ghost use Rattle.std.specs.Prelude.{◌≡◌, ◌≢◌};
ghost use Rattle.xfs_guard.specs.Starts.{Starts};
ghost use Rattle.xfs_cli.specs.FleetRuns.{RunsBoth};
ghost use Rattle.xfs_lines.specs.Returns.{back, second_back};
ghost use Rattle.xfs_lines.specs.Output.Statuses.{IsCaused, IsStatus};
ghost use Rattle.xfs_script.specs.Streams.{io_of};

use crate::commands::replay::player::Player;
use std::alloc::Global;
use xfs_base::{Sink, Source};
use xfs_disk::Disk;
use xfs_fleet::{Fleet, FleetFail, Pair};
use xfs_guard::Bench;
use xfs_lines::status::USAGE;
use xfs_lines::{Ended, Second, answer_input, cores_of, finish_unbooted};
use xfs_mech::{Mechanism, Watch};
use xfs_sides::TwoSides;

/// Reads lines of `replay` behind the letter of a machine, and answers each from that machine, before the next line is
/// read. The machines share nothing but the input and the output.
pub fn fleet<S: Source, K: Sink, M: Mechanism, D: Disk, P: Watch, Q: Watch>(
    alloc: Global,
    source: &mut S,
    sink: &mut K,
    bench: Bench<M, D, P, Q>,
) -> Ended<M, D, ()>
    requires starts { Starts M.Mechanism D.Disk bench.core }
    requires second { Starts M.Mechanism D.Disk bench.second }
    ensures runs { RunsBoth M.Mechanism D.Disk bench result (io_of S.Source K.Sink source.old source.new sink.old sink.new) }
    ensures usage { result.status ≢ USAGE }
    ensures statuses { IsStatus result.status }
    ensures causes { IsCaused result.status (io_of S.Source K.Sink source.old source.new sink.old sink.new) }
{
    let (core, second) = cores_of(bench);
    let (key, second_key) = (core.key, second.key);
    match Fleet::boot(alloc, core, second) {
        Ok(fleet) => {
            let (a, b) = fleet.into_machines();
            let mut two = TwoSides {
                alloc,
                a: Player::new(alloc, a, key),
                b: Player::new(alloc, b, second_key),
            };
            let status = answer_input(alloc, &mut two, source, sink);
            let TwoSides { alloc: _, a, b } = two;
            let first = Pair::of(a.machine);
            give_back_both(status, first, Pair::of(b.machine))
        }
        Err(
            FleetFail {
                side: _,
                why,
                a: first,
                b: second,
            },
        ) => give_back_both(finish_unbooted(sink, why), first, second),
    }
}

// Gives back what the two machines leave, with this status.
fn give_back_both<M: Mechanism, D: Disk>(
    status: u8,
    first: Pair<M, D>,
    second: Pair<M, D>,
) -> Ended<M, D, ()>
    ensures status { result.status ≡ status }
    ensures back { back result ≡ record { status = status; mech = first.mech; disk = first.disk } }
    ensures second { second_back result ≡ record { status = status; mech = second.mech; disk = second.disk } }
{
    Ended {
        status,
        mech: first.mech,
        disk: first.disk,
        link: None,
        second: Second {
            mech: second.mech,
            disk: second.disk,
        },
    }
}

//! The command `host`.

ghost use Rattle.xfs_lines.specs.Host.Runs.{RunsHost};
ghost use Rattle.xfs_lines.specs.Ends.{EndsLines};
ghost use Rattle.xfs_lines.specs.Returns.{back};
ghost use Rattle.xfs_script.specs.Streams.{io_of};

use crate::commands::host::answer::Bank;
use crate::ended::{Ended, give_back_untouched};
use crate::input::answer_input;
use std::alloc::Global;
use xfs_base::{Sink, Source};
use xfs_disk::Disk;
use xfs_guard::Bench;
use xfs_host::Host;
use xfs_mech::{Mechanism, Watch};

/// The bank's side: reads lines of accounts and of what is asked of them, and answers each before the next line is read. Its
/// tokens are genuine under the core's key.
pub fn host<S: Source, K: Sink, M: Mechanism, D: Disk, P: Watch, Q: Watch>(
    alloc: Global,
    source: &mut S,
    sink: &mut K,
    bench: Bench<M, D, P, Q>,
) -> Ended<M, D, ()>
    ensures runs { RunsHost bench.core (back result) (io_of S.Source K.Sink source.old source.new sink.old sink.new) }
    ensures ends_lines { EndsLines bench.second result (io_of S.Source K.Sink source.old source.new sink.old sink.new) }
{
    let mut bank = Bank {
        alloc,
        host: Host::new(alloc, bench.core.key),
    };
    let status = answer_input(alloc, &mut bank, source, sink);
    give_back_untouched(bench, status, None)
}

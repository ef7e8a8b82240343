//! The command `token`.

ghost use Rattle.xfs_lines.specs.Ends.{EndsLines};
ghost use Rattle.xfs_lines.specs.Returns.{back};
ghost use Rattle.xfs_script.specs.Streams.{io_of};
ghost use Rattle.xfs_lines.specs.Token.Runs.{RunsToken};

use crate::commands::token::answer::Tokens;
use crate::ended::{Ended, give_back_untouched};
use crate::input::answer_input;
use std::alloc::Global;
use xfs_base::{Sink, Source};
use xfs_disk::Disk;
use xfs_guard::Bench;
use xfs_mech::{Mechanism, Watch};
use xfs_token::TokenKey;

/// Reads token lines and answers each of them under the core's key, before the next line is read.
pub fn token<S: Source, K: Sink, M: Mechanism, D: Disk, P: Watch, Q: Watch>(
    alloc: Global,
    source: &mut S,
    sink: &mut K,
    bench: Bench<M, D, P, Q>,
) -> Ended<M, D, ()>
    ensures runs { RunsToken bench.core (back result) (io_of S.Source K.Sink source.old source.new sink.old sink.new) }
    ensures ends_lines { EndsLines bench.second result (io_of S.Source K.Sink source.old source.new sink.old sink.new) }
{
    let mut tokens = Tokens {
        alloc,
        key: TokenKey::new(bench.core.key),
    };
    let status = answer_input(alloc, &mut tokens, source, sink);
    give_back_untouched(bench, status, None)
}

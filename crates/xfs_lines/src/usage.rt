//! Words that name no command.

ghost use Rattle.std.specs.Prelude.{◌≡◌, ◌∷◌, [], None};
ghost use Rattle.xfs_lines.specs.Output.InputEnds.{usage_line};
ghost use Rattle.xfs_lines.specs.Returns.{untouched};
ghost use Rattle.xfs_script.specs.LastLines.{WritesLast};
ghost use Rattle.xfs_script.specs.Streams.{output};

use crate::ended::{Ended, give_back_untouched};
use crate::output::last_line::write_usage;
use crate::output::status::USAGE;
use xfs_base::Sink;
use xfs_disk::Disk;
use xfs_guard::Bench;
use xfs_mech::{Mechanism, Watch};

/// Tells the commands that there are, and gives both machines back as they were.
pub fn tell_usage<K: Sink, M: Mechanism, D: Disk, P: Watch, Q: Watch, L>(
    sink: &mut K,
    bench: Bench<M, D, P, Q>,
) -> Ended<M, D, L>
    ensures ended { result ≡ untouched bench USAGE None }
    ensures written { WritesLast (usage_line ∷ []) (output K.Sink sink.old sink.new) }
{
    write_usage(sink);
    give_back_untouched(bench, USAGE, None)
}

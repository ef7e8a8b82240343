//! A caller of xfs_queue.

ghost use Rattle.std.specs.Prelude.{◌≡◌, IfSome, None, find};
ghost use Rattle.xfs_callers.specs.Next.{TakesFirst};
ghost use Rattle.xfs_queue.specs.Commands.{waits_on};
ghost use Rattle.xfs_queue.specs.declared.command.Line.TheVariants.{Device};

use xfs_queue::{Line, Pending, Queue};

/// Takes out the first command that waits for the device. None where none waits.
pub fn take_next<J>(queue: &mut Queue<J>) -> Option<Pending<J>>
    ensures taken { IfSome result (TakesFirst Device queue.old queue.new) }
    ensures none { result ≡ None → (find (waits_on Device) queue.old ≡ None) × (queue.new ≡ queue.old) }
{
    let ticket = queue.next(Line::Device)?;
    Some(queue.remove(ticket))
}

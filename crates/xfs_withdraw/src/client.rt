ghost use Rattle.std.specs.Prelude.{◌≤◌, IfSome, option_map};
ghost use Rattle.xfs_script.specs.LastLines.{WritesLast};
ghost use Rattle.xfs_script.specs.Streams.{output};
ghost use Rattle.xfs_withdraw.specs.Doors.{HasDialled, HasLinkCause};
ghost use Rattle.xfs_withdraw.specs.Endings.{withdrawal_line};
ghost use Rattle.xfs_withdraw.specs.Talks.{Withdraws, terms_of};

use crate::Ending;
use crate::last_line::finish;
use crate::talk::talk;
use std::alloc::Global;
use std::sync::Wait;
use xfs_base::{Clock, Currency, Service, Sink};
use xfs_client::Withdrawal;
use xfs_server::{Doors, Link};

/// How a withdrawal ended, and the link that was dialled for it. There is none where the doors refused
/// the dial.
#[derive(Drop)]
pub struct Withdrawn<L: Link> {
    pub ending: Ending,
    pub link: Option<L>,
}

/// Withdraws an amount, in whole units of the currency, from the dispenser that the doors reach, with a
/// token under this key. It dials once, sends what the withdrawal asks, hears what the link hands over, and
/// writes at most one line, which says how it ended. Where the link is quiet it has the clock pause.
pub fn withdraw<R: Wait, O: Doors, C: Clock, K: Sink>(
    rt: &R,
    alloc: Global,
    currency: Currency,
    amount: u32,
    key: [u8; 32],
    doors: &mut O,
    clock: &C,
    sink: &mut K,
) -> Withdrawn<O::Link>
    requires low { 1 ≤ amount }
    requires high { amount ≤ 1000000 }

    // The texts that the link sent are the withdrawal's asks after those that it handed over, and so it ended.
    ensures withdraws { IfSome result.link (λ link. Withdraws (terms_of currency amount key) result.ending (O.Link.log link)) }
    // The cash dispenser was dialled once, and there is no link exactly where the doors refused it.
    ensures dialled { HasDialled result.link result.ending (O.log doors.old) (O.log doors.new) }

    // The last line is that of the ending: whole, or a prefix of it where the sink failed.
    ensures line { WritesLast (withdrawal_line result.ending) (output K.Sink sink.old sink.new) }
    ensures later { K.faults sink.old ≤ K.faults sink.new }

    // The causes of closed, quiet and failed.
    ensures causes { HasLinkCause result.ending (option_map O.Link.log result.link) (O.log doors.old) (O.log doors.new) }
{
    let withdrawn = over_a_link(rt, alloc, currency, amount, key, doors, clock);
    finish(sink, withdrawn.ending);
    withdrawn
}

// The withdrawal without its line.
fn over_a_link<R: Wait, O: Doors, C: Clock>(
    rt: &R,
    alloc: Global,
    currency: Currency,
    amount: u32,
    key: [u8; 32],
    doors: &mut O,
    clock: &C,
) -> Withdrawn<O::Link>
    requires low { 1 ≤ amount }
    requires high { amount ≤ 1000000 }
    ensures withdraws { IfSome result.link (λ link. Withdraws (terms_of currency amount key) result.ending (O.Link.log link)) }
    ensures dialled { HasDialled result.link result.ending (O.log doors.old) (O.log doors.new) }
{
    let mut link = match doors.dial(Service::Cash) {
        Ok(link) => link,
        Err(fault) => {
            return Withdrawn {
                ending: fault.into(),
                link: None,
            };
        }
    };
    let mut withdrawal = Withdrawal::new(alloc, currency, amount, key);
    let ending = talk(rt, &mut withdrawal, &mut link, clock);
    Withdrawn {
        ending,
        link: Some(link),
    }
}

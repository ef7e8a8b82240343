//! The works of one thread.

use crate::macs::{KeyedMac, TokenMac};
use crate::messages::Dispense;
use crate::mixes::{Filled, MixSearch};
use crate::mounting::{appended, booted, mounted};
use crate::records::Between;
use crate::tokens::TokenCheck;
use crate::work::right_rounds;
use std::alloc::Global;

pub const WORKS: [&str; 12] = [
    "tokens",
    "macs",
    "keyed_macs",
    "messages",
    "mixes",
    "worst_mixes",
    "denominate",
    "mount",
    "mount_boots",
    "mount_all",
    "append",
    "append_all",
];

/// How often a work's answer was right. None for a name of no work, and where memory ran out before the first round.
pub fn right(alloc: Global, work: &str, count: u64) -> Option<u64> {
    match work {
        "tokens" => Some(right_rounds(alloc, &TokenCheck::new(alloc)?, count)),
        "macs" => Some(right_rounds(alloc, &TokenMac, count)),
        "keyed_macs" => Some(right_rounds(alloc, &KeyedMac::new(), count)),
        "messages" => Some(right_rounds(alloc, &Dispense, count)),
        "mixes" => Some(right_rounds(alloc, &MixSearch::of_main()?, count)),
        "worst_mixes" => Some(right_rounds(alloc, &MixSearch::of_eight()?, count)),
        "denominate" => Some(right_rounds(alloc, &Filled::new()?, count)),
        "mount" => mounted(alloc, count),
        "mount_boots" => booted(alloc, count, Between::Nonces),
        "mount_all" => booted(alloc, count, Between::Withdrawals),
        "append" => appended(alloc, count, Between::Nonces),
        "append_all" => appended(alloc, count, Between::Withdrawals),
        _ => None,
    }
}

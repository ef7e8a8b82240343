//! How a line of `xfs.bench` is read.

ghost use Rattle.std.specs.Prelude.{◌≡◌, ℕ, List, false, Err, IfNone, IfOk, IfSome};
ghost use Rattle.xfs_script.specs.ReplayLines.{IsReplayLine};
ghost use Rattle.xfs_script.specs.declared.replay_line.ReplayLine as logic;
ghost use Rattle.xfs_start.specs.BenchLines.{IsBenchLine, IsNoLine, is_news};
ghost use Rattle.xfs_start.specs.declared.bench_line.BenchLine as lines;
ghost use Rattle.xfs_start.specs.declared.bench_line.BenchFault.TheVariants as BenchFault;

use crate::number_line::read_numbers;
use std::alloc::{AllocError, Global};
use xfs_mech::{Fault, Touch};
use xfs_script::{ReplayLine, ScriptFault, read_replay};

/// A line of the file.
#[derive(Drop)]
pub(crate) enum BenchLine {
    /// An empty line or a comment.
    Skip,
    /// The first of four ports.
    Ports(u16),
    /// What befalls the card slot.
    Card(Touch),
    /// What befalls the key pad.
    Key(Touch),
    /// A fault of the mechanism.
    Fault(Fault),
    /// Calls of the disk in memory that fail.
    Failing(Vec<u64>),
}

/// Why a text sets up no bench.
#[derive(Clone, Copy, Debug, PartialEq, Eq)]
pub enum BenchFault {
    /// A line is of no form, or says again what another said.
    Bad,
    /// Want of memory.
    Memory,
}

impl From<AllocError> for BenchFault {
    ghost use Rattle.std.specs.Prelude.{◌≡◌};
    ghost use Rattle.xfs_start.specs.declared.bench_line.BenchFault.TheVariants as BenchFault;

    ghost from_gives = { λ _ fault. fault ≡ BenchFault.Memory };

    fn from(_: AllocError) -> BenchFault {
        BenchFault::Memory
    }
}

// Reads a line, given without its end.
pub(crate) fn read_line(alloc: Global, text: &[u8]) -> Result<BenchLine, BenchFault>
    ensures ok { IfOk result (IsBenchLine text.now) }
    ensures bad { result ≡ Err BenchFault.Bad → IsNoLine text.now }
{
    match read_replay(alloc, text) {
        Ok(line) => news_in(line).ok_or(BenchFault::Bad),
        Err(ScriptFault::Memory) => Err(BenchFault::Memory),
        Err(ScriptFault::NotALine) => match read_numbers(alloc, text)? {
            Some(line) => Ok(line),
            None => Err(BenchFault::Bad),
        },
    }
}

// What a line of `replay` tells that a bench has too.
fn news_in(line: ReplayLine) -> Option<BenchLine>
    ensures found { IfSome result (λ read. (text : List ℕ) → IsReplayLine text line → IsBenchLine text read) }
    ensures none { IfNone result (is_news line ≡ false) }
{
    match line {
        ReplayLine::Skip => Some(BenchLine::Skip),
        ReplayLine::CardIn(tracks) => Some(BenchLine::Card(Touch::CardIn(tracks))),
        ReplayLine::CardTaken => Some(BenchLine::Card(Touch::CardTaken)),
        ReplayLine::CardFault => Some(BenchLine::Card(Touch::CardFault)),
        ReplayLine::Key(key) => Some(BenchLine::Key(Touch::Key(key))),
        ReplayLine::KeyFault => Some(BenchLine::Key(Touch::KeyFault)),
        _ => None,
    }
}

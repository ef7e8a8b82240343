//! The words of the command line.

ghost use Rattle.std.specs.Prelude.{IfNone, IfSome};
ghost use Rattle.xfs_lines.specs.Run.{IsCommand};
ghost use Rattle.xfs_words.specs.Words.{Names, texts};

use std::alloc::Global;
use xfs_words::{Command, WordsFault, name_command, read};

/// The command that the words name, as `clap` reads them. Where that finds no memory they are compared as they stand,
/// so that want of memory never hides that they are no command.
pub fn command_of(alloc: Global, words: &[String]) -> Option<Command>
    ensures named { IfSome result (λ command. Names command (texts words.now)) }
    ensures none { IfNone result (¬ (IsCommand words.now)) }
{
    match read(alloc, words) {
        Ok(command) => Some(command),
        Err(WordsFault::Usage) => None,
        Err(WordsFault::Memory) => name_command(words),
    }
}

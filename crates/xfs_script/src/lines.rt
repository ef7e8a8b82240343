ghost use Rattle.std.specs.Prelude.{◌≡◌};
ghost use Rattle.xfs_script.specs.Reading.{nothing_read};
ghost use Rattle.xfs_script.specs.Answer.{HasReadCause, ReadsLine};

use crate::feed::Feed;
use crate::line::{Line, LineFault};
use std::alloc::Global;
use std::marker::Model;
use xfs_base::Source;

/// Cuts the input of a command into its lines, in whatever pieces the source gives it.
///
/// A line ends with a line feed or the end of the input, and a carriage return before that is
/// dropped. After a `Read`, a `Quota` or a `TooLong` nothing is said of further lines.
#[derive(Drop)]
pub struct Lines {
    alloc: Global,
    feed: Option<Feed>,
}

impl Model for Lines {
    ghost use Rattle.xfs_script.specs.Reading.{Reading, reading_of};

    ghost Value = { Reading };

    ghost view = { λ l. reading_of l.feed };
}

impl Lines {
    /// Nothing is read yet.
    pub fn new(alloc: Global) -> Lines
        ensures { result ≡ nothing_read }
    {
        Lines { alloc, feed: None }
    }

    /// The next line. None exactly at the end of the input; a `Read` or a `Quota` only where no line
    /// of what the source gave is left that a line feed ends.
    pub fn next<S: Source>(&mut self, source: &mut S) -> Result<Option<Line>, LineFault>
        ensures reads { ReadsLine self.old self.new (S.left source.old) (S.left source.new) result }
        ensures cause { HasReadCause (S.faults source.old) (S.faults source.new) result }
    {
        if self.feed.is_none() {
            match Feed::new(self.alloc) {
                Ok(feed) => self.feed = Some(feed),
                Err(_) => return Err(LineFault::Memory),
            }
        }
        match &mut self.feed {
            Some(feed) => feed.next_line(self.alloc, source),
            None => unreachable!(),
        }
    }
}

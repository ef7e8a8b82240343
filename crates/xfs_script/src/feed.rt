ghost use Rattle.std.specs.Prelude.{◌≡◌, ◌≢◌, ◌+◌, ◌-◌, ◌<◌, ◌≤◌, length, drop, take, Ok, Err, Some, IfOk, IfSome, OnErr};
ghost use Rattle.std.specs.Io.KnownBytes.{IsAtEnd};
ghost use Rattle.xfs_base.specs.Causes.{HasCause, Rose};
ghost use Rattle.xfs_script.specs.Lines.{line_end, without_return};
ghost use Rattle.xfs_script.specs.Reading.{nothing_read, line_off, Grows, Drops, GivesBehind};
ghost use Rattle.xfs_script.specs.Found.{IsFound, IsOpen, IsPassed, IsRefusal};
ghost use Rattle.xfs_script.specs.Answer.{HasReadCause, ReadsLine, KeepsLine, IsDueAnswer, line_answer, line_found, past_line};
ghost use Rattle.xfs_script.specs.declared.feed.TheConstants.{LONGEST, QUOTA};
ghost use Rattle.xfs_script.specs.declared.line.LineFault.TheVariants as LineFault;

use crate::line::{Line, LineFault};
use memchr::memchr;
use std::alloc::{AllocError, Global};
use std::marker::Model;
use xfs_base::{Bytes, Failed, Source};

/// How many bytes are asked of a source at once.
const PIECE: usize = 65_536;

/// The most bytes of a line, without its line feed and the carriage return that is dropped.
pub const LONGEST_LINE: usize = 70_000;

/// A command reads fewer bytes than these.
pub const QUOTA: u64 = 67_108_864;

// The bytes of a line that are looked at: those that it may have, and a carriage return that may be dropped.
const LONGEST: usize = LONGEST_LINE + 1;

/// The bytes read and not yet handed out, in one block of memory that is made once.
#[derive(Drop)]
pub(crate) struct Feed {
    block: Vec<u8>,
    start: usize,
    end: usize,
    given: u64,
    handed: u64,
}

/// Where the first line of the bytes that are kept ends.
#[derive(Clone, Copy)]
pub(crate) enum Found {
    /// At this line feed.
    Feed(usize),
    /// At the end of the input.
    End,
    /// Not within the bytes that a line may have.
    Long,
    /// Not within the bytes that may be read.
    Quota,
}

impl Model for Feed {
    ghost use Rattle.std.specs.Prelude.{◌≡◌, ◌≢◌, ◌+◌, ◌-◌, ◌≤◌, take, drop, length};
    ghost use Rattle.xfs_script.specs.Reading.{Reading};
    ghost use Rattle.xfs_script.specs.declared.feed.TheConstants.{QUOTA};

    ghost Value = { Reading };

    ghost view = { λ f. record { pending = take (f.end - f.start) (drop f.start f.block.items); given = f.given; handed = f.handed } };

    ghost invariant = { λ f. (f.start ≤ f.end) × (f.end ≤ 135537) × (length f.block.items ≡ 135537) × (f.given ≤ QUOTA) × (f.handed + (f.end - f.start) ≤ f.given) };
}

impl Feed {
    pub(crate) fn new(alloc: Global) -> Result<Feed, AllocError>
        ensures { IfOk result (λ f. f ≡ nothing_read) }
    {
        let block = vec![in alloc; 0u8; LONGEST + PIECE]?;
        Ok(Feed {
            block,
            start: 0,
            end: 0,
            given: 0,
            handed: 0,
        })
    }

    pub(crate) fn len(&self) -> usize
        ensures { result ≡ length self.now.pending }
    {
        self.end - self.start
    }

    pub(crate) fn bytes(&self) -> &[u8]
        ensures { result.now ≡ self.now.pending }
    {
        &self.block[self.start..self.end]
    }

    pub(crate) fn given(&self) -> u64
        ensures is { result ≡ self.now.given }
        ensures bound { result ≤ QUOTA }
    {
        self.given
    }

    /// Takes the next piece of the source in behind the bytes that are kept.
    pub(crate) fn fill<S: Source>(&mut self, source: &mut S) -> Result<usize, Failed>
        requires short { length self.old.pending ≤ LONGEST }
        requires room { self.old.given < QUOTA }
        ensures grown { Grows self.old self.new (S.left source.old) (S.left source.new) }
        ensures count { IfOk result (λ n. self.new.given ≡ self.old.given + n) }
        ensures end { result ≡ Ok 0 → IsAtEnd (S.left source.new) }
        ensures err { OnErr result (self.new.given ≡ self.old.given) }
        ensures bound { self.new.given ≤ QUOTA }
        ensures cause { HasCause (S.faults source.old) (S.faults source.new) result }
    {
        move_to_front(&mut self.block, self.start, self.end);
        self.end -= self.start;
        self.start = 0;
        let most = (QUOTA - self.given).min(PIECE as u64) as usize;
        let count = read_behind(&mut self.block, self.end, most, source)?;
        self.end += count;
        self.given += count as u64;
        Ok(count)
    }

    /// Reads on until the end of the first line is known, or too much is read.
    pub(crate) fn seek<S: Source>(&mut self, source: &mut S) -> Result<Found, Failed>
        ensures grown { Grows self.old self.new (S.left source.old) (S.left source.new) }
        ensures ok { IfOk result (IsFound self.new (S.left source.new)) }
        ensures err { OnErr result (IsOpen self.new) }
        ensures bound { self.new.given ≤ QUOTA }
        ensures cause { HasCause (S.faults source.old) (S.faults source.new) result }
    {
        let mut searched = 0;
        'reading: loop {
            let place = end_of_line(self.bytes(), searched);
            if place < self.len() {
                return Ok(Found::Feed(place));
            }
            searched = place;
            if searched > LONGEST {
                return Ok(Found::Long);
            }
            if self.given == QUOTA {
                return Ok(Found::Quota);
            }
            if self.fill(source)? == 0 {
                return Ok(Found::End);
            }
        }
    }

    /// Drops what is kept of a line, and reads on until its end is known, or no more may be read.
    pub(crate) fn skip_line<S: Source>(&mut self, source: &mut S) -> Result<bool, Failed>
        requires { IsOpen self.old }
        ensures drops { Drops self.old self.new (S.left source.old) (S.left source.new) }
        ensures ok { IfOk result (IsPassed self.new (S.left source.new)) }
        ensures err { OnErr result (IsOpen self.new) }
        ensures bound { self.new.given ≤ QUOTA }
        ensures cause { HasCause (S.faults source.old) (S.faults source.new) result }
    {
        self.skip(self.len());
        'dropping: loop {
            match self.seek(source)? {
                Found::Long => self.skip(self.len()),
                Found::Feed(_) | Found::End => return Ok(true),
                Found::Quota => return Ok(false),
            }
        }
    }

    /// Finds where the first line of the bytes to come ends. It is still kept: `pass` takes it off.
    pub(crate) fn find_line<S: Source>(
        &mut self,
        source: &mut S,
    ) -> Result<Option<usize>, LineFault>
        ensures reads { ReadsLine self.old (past_line self.new result) (S.left source.old) (S.left source.new) (line_found self.new result) }
        ensures kept { IfOk result (λ found. IfSome found (KeepsLine self.old self.new (S.left source.old) (S.left source.new))) }
        ensures cause { HasReadCause (S.faults source.old) (S.faults source.new) result }
    {
        match self.seek(source) {
            Ok(Found::Feed(place)) => self.measure(place),
            Ok(Found::End) if self.len() == 0 => Ok(None),
            Ok(Found::End) => self.measure(self.len()),
            Ok(Found::Quota) => Err(LineFault::Quota),
            Ok(Found::Long) => Err(self.refuse_line(source)),
            Err(_) => Err(LineFault::Read),
        }
    }

    // The end of a line, where the line isn't too long.
    fn measure(&self, end: usize) -> Result<Option<usize>, LineFault>
        requires within { end ≤ length self.now.pending }
        requires some { 0 < length self.now.pending }
        ensures is { IsDueAnswer (line_found self.now result) (line_answer (self.now.handed + 1) (without_return (take end self.now.pending))) }
        ensures only { result ≢ Err LineFault.Read }
        ensures end { IfOk result (λ found. found ≡ Some end) }
    {
        if self.line(end).len() > LONGEST_LINE {
            return Err(LineFault::TooLong {
                number: self.number(),
            });
        }
        Ok(Some(end))
    }

    /// The number of the first line of the bytes to come.
    pub(crate) fn number(&self) -> u64
        ensures { result ≡ self.now.handed + 1 }
    {
        self.handed + 1
    }

    /// The line that ends there.
    pub(crate) fn line(&self, end: usize) -> &[u8]
        requires { end ≤ length self.now.pending }
        ensures { result.now ≡ without_return (take end self.now.pending) }
    {
        line_of(&self.bytes()[..end])
    }

    /// Takes the line that ends there off the bytes to come.
    pub(crate) fn pass(&mut self, end: usize)
        requires within { end ≤ length self.old.pending }
        requires some { 0 < length self.old.pending }
        ensures { self.new ≡ line_off self.old end }
    {
        self.start += end.saturating_add(1).min(self.len());
        self.handed += 1;
    }

    /// Takes the first line off the bytes to come, and hands out a copy.
    pub(crate) fn next_line<S: Source>(
        &mut self,
        alloc: Global,
        source: &mut S,
    ) -> Result<Option<Line>, LineFault>
        ensures reads { ReadsLine self.old self.new (S.left source.old) (S.left source.new) result }
        ensures cause { HasReadCause (S.faults source.old) (S.faults source.new) result }
    {
        let Some(end) = self.find_line(source)? else {
            return Ok(None);
        };
        let Ok(text) = Vec::from_slice(alloc, self.line(end)) else {
            return Err(LineFault::Memory);
        };
        let number = self.number();
        self.pass(end);
        Ok(Some(Line {
            number,
            text: Bytes::new(text),
        }))
    }

    // A line that is too long is read to its end.
    fn refuse_line<S: Source>(&mut self, source: &mut S) -> LineFault
        requires { IsOpen self.old }
        ensures drops { Drops self.old self.new (S.left source.old) (S.left source.new) }
        ensures bound { self.new.given ≤ QUOTA }
        ensures is { IsRefusal self.old.handed self.new (S.left source.new) result }
        ensures later { S.faults source.old ≤ S.faults source.new }
        ensures cause { result ≡ LineFault.Read → Rose (S.faults source.old) (S.faults source.new) }
    {
        let number = self.handed + 1;
        match self.skip_line(source) {
            Ok(true) => LineFault::TooLong { number },
            Ok(false) => LineFault::Quota,
            Err(_) => LineFault::Read,
        }
    }

    /// Drops the first bytes.
    pub(crate) fn skip(&mut self, count: usize)
        requires { count ≤ length self.old.pending }
        ensures { self.new ≡ record self.old { pending = drop count self.old.pending } }
    {
        self.start += count;
    }
}

// The bytes from `start` to `end` come to stand at the front.
fn move_to_front(block: &mut [u8], start: usize, end: usize)
    requires low { start ≤ end }
    requires high { end ≤ length block.old }
    ensures len { length block.new ≡ length block.old }
    ensures moved { take (end - start) block.new ≡ take (end - start) (drop start block.old) }
{
    if start > 0 {
        block.copy_within(start..end, 0);
    }
}

// The source's next bytes come to stand at `place`.
fn read_behind<S: Source>(
    block: &mut [u8],
    place: usize,
    most: usize,
    source: &mut S,
) -> Result<usize, Failed>
    requires within { place + most ≤ length block.old }
    requires some { 0 < most }
    ensures len { length block.new ≡ length block.old }
    ensures most { IfOk result (λ n. n ≤ most) }
    ensures gives { IfOk result (GivesBehind block.old block.new place (S.left source.old) (S.left source.new)) }
    ensures none { OnErr result (GivesBehind block.old block.new place (S.left source.old) (S.left source.new) 0) }
    ensures end { result ≡ Ok 0 → IsAtEnd (S.left source.new) }
    ensures cause { HasCause (S.faults source.old) (S.faults source.new) result }
{
    source.read(&mut block[place..place + most])
}

// The place of the first line feed, where none stands before `from`.
fn end_of_line(bytes: &[u8], from: usize) -> usize
    requires { from ≤ line_end bytes.now }
    ensures is { result ≡ line_end bytes.now }
    ensures within { result ≤ length bytes.now }
{
    match memchr(b'\n', &bytes[from..]) {
        Some(i) => from + i,
        None => bytes.len(),
    }
}

// The bytes without one carriage return at their end.
fn line_of(bytes: &[u8]) -> &[u8]
    ensures { result.now ≡ without_return bytes.now }
{
    match bytes {
        [line @ .., b'\r'] => line,
        _ => bytes,
    }
}

//! What a socket's reads and writes find, and when a read waits.

use crate::socket::Socket;
use crate::stream::{READ_MILLIS, is_waiting};
use std::alloc::Global;
use std::io;
use std::random::RandomSource;
use tungstenite::{Bytes as Payload, Error, Message};
use xfs_base::{Bytes, Clock, Moment};
use xfs_server::{GiveFault, Taking};

// How many looks come back at once before one waits, while an answer is owed: each has the board turned, and no command
// has more steps, a dispense from eight units 26.
const LOOKS: u32 = 32;

// How many reads such a look makes, so that the board is not turned for each of them.
const READS: u32 = 4;

// How many frames answer a text: its acknowledge and its completion.
const ANSWERS: u32 = 2;

// After how many looks that found nothing an owed answer is forgotten, a few seconds: a text that gets one frame, as one
// that is refused does, keeps no session awake.
const MOST_LOOKS: u32 = 1_000;

// How long a peer may be silent before it is pinged, and then once more.
const SILENT_MILLIS: u64 = 60_000;

// How long a read waits where no answer is owed, and once so many looks in a row found nothing: an idle session wakes less
// often. A text that comes ends the wait at once.
const IDLE_MILLIS: u64 = 48;

const IDLE_LOOKS: u32 = 64;

const LONG_IDLE_MILLIS: u64 = 100;

/// A socket, and how its reads wait. While an answer is owed the reads come back at once for a while, so
/// that the board is turned for it; where none is owed a read waits for the peer. What is given leaves with
/// the next take, so that the frames which answer a text are one write, or when the wire is let go.
pub struct Wire<'a, R: RandomSource + Drop, C: Clock> {
    socket: Socket<R>,
    clock: &'a C,
    unsent: bool,
    owed: u32,
    looks: u32,
    // When something was found last, or the peer was pinged.
    since: Moment,
    is_pinged: bool,
}

impl<'a, R: RandomSource + Drop, C: Clock> Drop for Wire<'a, R, C> {
    fn drop(mut self) {
        let _ = self.send_given();
        let Wire {
            socket: _,
            clock: _,
            unsent: _,
            owed: _,
            looks: _,
            since: _,
            is_pinged: _,
        } = self;
    }
}

/// What a read found.
#[derive(Drop)]
enum Heard {
    Text(Bytes),
    Nothing,
    Close,
    Ended,
    Failed,
    Memory,
}

impl<'a, R: RandomSource + Drop, C: Clock> Wire<'a, R, C> {
    /// Over a socket whose handshake is done.
    pub fn new(mut socket: Socket<R>, clock: &'a C) -> Wire<'a, R, C> {
        // The handshake is no news.
        socket.stream().take_news();
        Wire {
            socket,
            clock,
            unsent: false,
            owed: 0,
            looks: 0,
            since: clock.now(),
            is_pinged: false,
        }
    }

    pub fn take(&mut self, alloc: Global) -> Taking {
        if self.send_given().is_err() || self.prepare_read().is_err() {
            return Taking::Failed;
        }
        match self.look(alloc) {
            Heard::Text(text) => {
                self.owed = self.owed.saturating_add(ANSWERS);
                self.looks = 0;
                Taking::Text(text)
            }
            Heard::Nothing => {
                self.looks = self.looks.saturating_add(1);
                self.await_peer()
            }
            Heard::Close => self.answer_close(),
            Heard::Ended => Taking::Closed,
            Heard::Failed => Taking::Failed,
            Heard::Memory => Taking::Memory,
        }
    }

    // What a read finds. One that comes back at once is made again a few times where it found nothing.
    fn look(&mut self, alloc: Global) -> Heard {
        let stream = self.socket.stream();
        stream.begin_look();
        let reads = if stream.waits() { 1 } else { READS };
        for _ in 1..reads {
            let answer = self.read();
            match heard_in(alloc, answer) {
                Heard::Nothing => {}
                heard => return heard,
            }
        }
        let answer = self.read();
        heard_in(alloc, answer)
    }

    fn read(&mut self) -> Result<Message, Error> {
        let answer = self.socket.read();
        if answer.is_ok() {
            self.socket.stream().end_message();
        }
        answer
    }

    // No text was found. A peer that is silent for too long is pinged, and has failed where it stays so. The time is
    // looked at by reads that wait.
    fn await_peer(&mut self) -> Taking {
        if !self.socket.stream().waits() {
            return Taking::Quiet;
        }
        let now = self.clock.now();
        if self.socket.stream().take_news() {
            self.since = now;
            self.is_pinged = false;
        }
        if now.0.saturating_sub(self.since.0) < SILENT_MILLIS {
            Taking::Quiet
        } else if self.is_pinged {
            Taking::Failed
        } else {
            self.ping(now)
        }
    }

    // Where there is no memory for it, the next look pings.
    fn ping(&mut self, now: Moment) -> Taking {
        let written = self.socket.write(Message::Ping(Payload::from_static(b"")));
        match give_result(written) {
            Ok(()) => {
                self.unsent = true;
                self.since = now;
                self.is_pinged = true;
                Taking::Quiet
            }
            Err(GiveFault::Memory) => Taking::Quiet,
            Err(GiveFault::Failed) => Taking::Failed,
        }
    }

    pub fn give(&mut self, alloc: Global, text: &[u8]) -> Result<(), GiveFault> {
        let Ok(text) = std::str::from_utf8(text) else {
            return Err(GiveFault::Failed);
        };
        let Ok(message) = Message::text(alloc, text) else {
            return Err(GiveFault::Memory);
        };
        if self.socket.stream().set_waits(true).is_err() {
            return Err(GiveFault::Failed);
        }
        let written = give_result(self.socket.write(message));
        self.unsent = match written {
            Ok(()) => true,
            Err(GiveFault::Memory) => self.unsent,
            Err(GiveFault::Failed) => false,
        };
        written?;
        self.owed = self.owed.saturating_sub(1);
        self.looks = 0;
        Ok(())
    }

    // Sends what was given. The stream's writes wait, since `give` has left it so.
    fn send_given(&mut self) -> Result<(), Error> {
        if !self.unsent {
            return Ok(());
        }
        self.unsent = false;
        self.socket.flush()
    }

    // The peer has closed: the reply goes out before anything else.
    fn answer_close(&mut self) -> Taking {
        if self.socket.stream().set_waits(true).is_err() {
            return Taking::Failed;
        }
        let replied = self.socket.flush();
        match give_result(replied) {
            Ok(()) => Taking::Closed,
            Err(_) => Taking::Failed,
        }
    }

    // What is owed for too long is forgotten.
    fn prepare_read(&mut self) -> io::Result<()> {
        if self.looks >= MOST_LOOKS {
            self.owed = 0;
        }
        let wait = self.next_wait();
        let stream = self.socket.stream();
        match wait {
            Some(millis) => {
                stream.set_pause(millis)?;
                stream.set_waits(true)
            }
            None => stream.set_waits(false),
        }
    }

    // How many milliseconds the next read waits. While an answer is owed, reads come back at once for a while (None), and
    // then wait a little; a session at which nothing happens wakes less and less often.
    fn next_wait(&self) -> Option<u64> {
        match (self.owed > 0, self.looks) {
            (true, looks) if looks < LOOKS => None,
            (true, _) => Some(READ_MILLIS),
            (false, looks) if looks < IDLE_LOOKS => Some(IDLE_MILLIS),
            (false, _) => Some(LONG_IDLE_MILLIS),
        }
    }
}

fn heard_in(alloc: Global, answer: Result<Message, Error>) -> Heard {
    match answer {
        Ok(Message::Text(text)) => copy_bytes(alloc, text.as_str().as_bytes()),
        Ok(Message::Binary(bytes)) => copy_bytes(alloc, bytes.as_slice()),
        Ok(Message::Close(_)) => Heard::Close,
        Ok(_) => Heard::Nothing,
        Err(Error::ConnectionClosed) => Heard::Ended,
        Err(Error::OutOfMemory) => Heard::Memory,
        Err(Error::Io(error)) => {
            if is_waiting(&error) {
                Heard::Nothing
            } else {
                Heard::Failed
            }
        }
        Err(_) => Heard::Failed,
    }
}

fn copy_bytes(alloc: Global, bytes: &[u8]) -> Heard {
    match Vec::from_slice(alloc, bytes) {
        Ok(text) => Heard::Text(Bytes::new(text)),
        Err(_) => Heard::Memory,
    }
}

// A write that waited its time is a fault like every other.
fn give_result(sent: Result<(), Error>) -> Result<(), GiveFault> {
    match sent {
        Ok(()) => Ok(()),
        Err(Error::OutOfMemory) => Err(GiveFault::Memory),
        Err(_) => Err(GiveFault::Failed),
    }
}

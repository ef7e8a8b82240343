//! A peer's stream: how long it may leave writes waiting, and how much it may send for one message.

use std::io;
use std::io::{ErrorKind, Read, Write};
use std::net::TcpStream;
use std::time::Duration;

/// How long a read waits that finds nothing, while an answer is owed. The kernel makes it two of its ticks at least.
pub const READ_MILLIS: u64 = 1;

// How long one write waits for a peer that doesn't read, and how many such waits the peer has in all: ten seconds.
const WRITE_MILLIS: u64 = 1_000;

const MOST_WAITS: u32 = 10;

// How many reads one look makes. A message of 1 MiB is 64 of them, and what is left is read by the next look.
const MOST_READS: u32 = 256;

// How many bytes may come before a message is whole: its fragments, however many, with their heads.
const MOST_UNFINISHED: usize = 2_097_152;

/// A stream on which neither a read nor a write waits for ever.
#[derive(Drop)]
pub struct PeerStream {
    stream: TcpStream,
    waits: bool,
    pause: u64,
    // How many writes have waited their time since the peer last took all that was written.
    waited: u32,
    // How many reads are left to this look. A handshake has as many as it wants.
    reads: u32,
    // How many bytes have come since the last whole message.
    unfinished: usize,
    has_come: bool,
}

impl PeerStream {
    /// Over a stream whose reads and writes wait. Its frames leave at once.
    pub fn new(stream: TcpStream) -> io::Result<PeerStream> {
        set_times(&stream)?;
        Ok(PeerStream {
            stream,
            waits: true,
            pause: READ_MILLIS,
            waited: 0,
            reads: u32::MAX,
            unfinished: 0,
            has_come: false,
        })
    }

    /// Whether a read or a write waits.
    pub fn waits(&self) -> bool {
        self.waits
    }

    /// How long a read waits that finds nothing. It asks the system only where that changes.
    pub fn set_pause(&mut self, millis: u64) -> io::Result<()> {
        if self.pause != millis {
            self.stream
                .set_read_timeout(Some(Duration::from_millis(millis)))?;
            self.pause = millis;
        }
        Ok(())
    }

    /// Whether reads and writes wait. It asks the system only where that changes.
    pub fn set_waits(&mut self, waits: bool) -> io::Result<()> {
        if self.waits != waits {
            self.stream.set_nonblocking(!waits)?;
            self.waits = waits;
        }
        Ok(())
    }

    /// A look begins.
    pub fn begin_look(&mut self) {
        self.reads = MOST_READS;
    }

    /// A message is whole.
    pub fn end_message(&mut self) {
        self.unfinished = 0;
    }

    // A write that waits has taken its time where it left something.
    fn note(&mut self, is_short: bool) {
        if !is_short {
            self.waited = 0;
        } else if self.waits {
            self.waited = self.waited.saturating_add(1);
        }
    }

    /// Whether bytes have come since this was last asked.
    pub fn take_news(&mut self) -> bool {
        let has_come = self.has_come;
        self.has_come = false;
        has_come
    }
}

impl Read for PeerStream {
    fn read(&mut self, into: &mut [u8]) -> io::Result<usize> {
        if self.reads == 0 {
            return Err(io::Error::from(ErrorKind::WouldBlock));
        }
        self.reads -= 1;
        let count = self.stream.read(into)?;
        self.has_come = true;
        self.unfinished = self.unfinished.saturating_add(count);
        if self.unfinished > MOST_UNFINISHED {
            return Err(io::Error::from(ErrorKind::InvalidData));
        }
        Ok(count)
    }
}

impl Write for PeerStream {
    // What is handed in is all that waits to be sent.
    fn write(&mut self, bytes: &[u8]) -> io::Result<usize> {
        for _ in self.waited..MOST_WAITS {
            match self.stream.write(bytes) {
                Ok(count) => {
                    self.note(count < bytes.len());
                    return Ok(count);
                }
                Err(error) if self.waits && is_waiting(&error) => self.note(true),
                Err(error) => return Err(error),
            }
        }
        Err(io::Error::from(ErrorKind::ConnectionAborted))
    }

    fn flush(&mut self) -> io::Result<()> {
        self.stream.flush()
    }
}

// Sets how long reads and writes wait, and that no frame waits for another.
fn set_times(stream: &TcpStream) -> io::Result<()> {
    stream.set_nodelay(true)?;
    stream.set_read_timeout(Some(Duration::from_millis(READ_MILLIS)))?;
    stream.set_write_timeout(Some(Duration::from_millis(WRITE_MILLIS)))
}

/// Whether a read or a write only waited its time.
pub fn is_waiting(error: &io::Error) -> bool {
    matches!(
        error.kind(),
        ErrorKind::WouldBlock | ErrorKind::TimedOut | ErrorKind::Interrupted
    )
}

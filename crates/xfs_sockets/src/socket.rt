use crate::stream::PeerStream;
use std::random::RandomSource;
use tungstenite::{Error, Message, NoMask, RandomKeys, WebSocket, WebSocketConfig};

// The longest message, in bytes: well above the 65,536 of an XFS4IoT message, so that the envelope's own
// refusal sees the text.
const MOST_BYTES: usize = 1_048_576;

// How many bytes one read asks for.
const READ_BYTES: usize = 16_384;

/// The limits of a socket.
pub fn limits() -> WebSocketConfig {
    WebSocketConfig::default()
        .read_buffer_size(READ_BYTES)
        .max_write_buffer_size(MOST_BYTES)
        .max_message_size(Some(MOST_BYTES))
        .max_frame_size(Some(MOST_BYTES))
}

/// A socket of either side. A client masks its frames (RFC 6455, section 5.3).
#[derive(Drop)]
pub enum Socket<R: RandomSource + Drop> {
    Server(WebSocket<PeerStream, NoMask>),
    Client(WebSocket<PeerStream, RandomKeys<R>>),
}

impl<R: RandomSource + Drop> Socket<R> {
    pub fn read(&mut self) -> Result<Message, Error> {
        match self {
            Socket::Server(socket) => socket.read(),
            Socket::Client(socket) => socket.read(),
        }
    }

    /// Writes a message, which waits to be sent.
    pub fn write(&mut self, message: Message) -> Result<(), Error> {
        match self {
            Socket::Server(socket) => socket.write(message),
            Socket::Client(socket) => socket.write(message),
        }
    }

    /// Sends what waits to be sent, such as the reply to a close.
    pub fn flush(&mut self) -> Result<(), Error> {
        match self {
            Socket::Server(socket) => socket.flush(),
            Socket::Client(socket) => socket.flush(),
        }
    }

    pub fn stream(&mut self) -> &mut PeerStream {
        match self {
            Socket::Server(socket) => socket.get_mut(),
            Socket::Client(socket) => socket.get_mut(),
        }
    }
}

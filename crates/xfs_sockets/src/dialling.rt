//! A client's handshake.

use crate::socket::limits;
use crate::stream::PeerStream;
use std::alloc::Global;
use std::net::TcpStream;
use std::random::RandomSource;
use tungstenite::handshake::client::request_of;
use tungstenite::{ClientHandshake, Error, HandshakeError, RandomKeys, WebSocket, client};
use xfs_base::{Clock, Service};
use xfs_common::Address;
use xfs_server::DialFault;

// How long the handshake may last, and in how many reads of a few milliseconds each.
const LONGEST_MILLIS: u64 = 2_000;

const MOST_READS: u32 = 1_000;

type Dialled<S: RandomSource + Drop> = WebSocket<PeerStream, RandomKeys<S>>;

type Fault<S: RandomSource + Drop> = HandshakeError<ClientHandshake<PeerStream, RandomKeys<S>>>;

/// Does a client's handshake with a service on a connected stream.
pub fn shake_dialled<S: RandomSource + Drop, C: Clock>(
    alloc: Global,
    source: S,
    clock: &C,
    service: Service,
    port: u16,
    stream: TcpStream,
) -> Result<Dialled<S>, DialFault> {
    let Ok(stream) = PeerStream::new(stream) else {
        return Err(DialFault::Failed);
    };
    let Ok(url) = format!(in alloc; "ws://127.0.0.1:{port}{}", Address::of(service).path) else {
        return Err(DialFault::Memory);
    };
    let request = match request_of(alloc, &url) {
        Ok(request) => request,
        Err(Error::OutOfMemory) => return Err(DialFault::Memory),
        Err(_) => return Err(DialFault::Failed),
    };
    let begun = clock.now().0;
    let mut answer = client(alloc, source, request, stream);
    for _ in 0..MOST_READS {
        match answer {
            Ok((mut socket, _)) => {
                socket.set_config(limits());
                return Ok(socket);
            }
            Err(HandshakeError::Interrupted(handshake)) => answer = handshake.handshake(),
            Err(HandshakeError::Failure(Error::OutOfMemory)) => return Err(DialFault::Memory),
            Err(HandshakeError::Failure(_)) => return Err(DialFault::Failed),
        }
        if clock.now().0.saturating_sub(begun) >= LONGEST_MILLIS {
            break;
        }
    }
    Err(DialFault::Failed)
}

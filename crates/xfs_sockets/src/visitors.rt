//! Who is let in at a handshake: the programs of this machine, and the pages whose origins stand in a list.

use http::{HeaderMap, HeaderValue, Request, Response, StatusCode};
use std::alloc::Global;
use tungstenite::Callback;
use tungstenite::handshake::server::ErrorResponse;

// The names of this machine, as the Host of a handshake has them.
const OWN_NAMES: [&[u8]; 3] = [b"127.0.0.1", b"localhost", b"[::1]"];

/// The origins of the pages that are let in (RFC 6454): of a text each line is one, with or without a carriage return.
/// `null` is that of a page that was opened from the disk.
#[derive(Clone, Copy, Debug)]
pub struct Origins<'a> {
    text: &'a [u8],
}

impl<'a> Origins<'a> {
    /// Those of a text.
    pub fn of(text: &'a [u8]) -> Origins<'a> {
        Origins { text }
    }

    /// No page is let in.
    pub fn none() -> Origins<'a> {
        Origins { text: b"" }
    }

    /// Whether a line is this origin.
    pub fn has(&self, origin: &[u8]) -> bool {
        for line in self.text.split(|byte| *byte == b'\n') {
            if !origin.is_empty() && without_return(line) == origin {
                return true;
            }
        }
        false
    }
}

fn without_return(line: &[u8]) -> &[u8] {
    match line.strip_suffix(b"\r") {
        Some(line) => line,
        None => line,
    }
}

/// Whether the Host of a handshake is this machine: 127.0.0.1, localhost or [::1], with a port or without. A page that has
/// its own name lead to this machine has another.
pub fn is_own_host(host: &[u8]) -> bool {
    for name in OWN_NAMES {
        if host.len() >= name.len() {
            let (begin, port) = host.split_at(name.len());
            if begin.eq_ignore_ascii_case(name) && is_port_or_none(port) {
                return true;
            }
        }
    }
    false
}

fn is_port_or_none(text: &[u8]) -> bool {
    match text {
        [] => true,
        [b':', digits @ ..] => digits.iter().all(|digit| digit.is_ascii_digit()),
        _ => false,
    }
}

/// Looks at the head of a handshake.
#[derive(Clone, Copy, Debug)]
pub struct Visitor<'a> {
    pub alloc: Global,
    pub origins: Origins<'a>,
}

impl<'a> Callback for Visitor<'a> {
    fn on_request(
        self,
        request: &Request<()>,
        response: Response<()>,
    ) -> Result<Response<()>, ErrorResponse> {
        let headers = request.headers();
        if names_this_machine(headers) && is_listed(headers, &self.origins) {
            Ok(response)
        } else {
            let mut refusal = Response::new(self.alloc, None);
            *refusal.status_mut() = StatusCode::FORBIDDEN;
            Err(refusal)
        }
    }
}

// A program names one host.
fn names_this_machine(headers: &HeaderMap<HeaderValue>) -> bool {
    let mut hosts = headers.get_all("host").iter();
    match (hosts.next(), hosts.next()) {
        (Some(host), None) => is_own_host(host.as_bytes()),
        _ => false,
    }
}

// A browser tells the origin of the page, and a program of this machine tells none.
fn is_listed(headers: &HeaderMap<HeaderValue>, origins: &Origins<'_>) -> bool {
    let mut told = headers.get_all("origin").iter();
    match (told.next(), told.next()) {
        (None, _) => true,
        (Some(origin), None) => origins.has(origin.as_bytes()),
        _ => false,
    }
}

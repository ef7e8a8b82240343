ghost use Rattle.std.specs.Prelude.{◌≡◌, ◌<◌, ◌≤◌, ◌++◌, ◌∷◌, ℕ, [], All, List, length, take, drop, map, filter, find, position, not, option_map, OnOk, OnErr, MatchOption};
ghost use Rattle.xfs_traffic.specs.TakenBack.{mailed_all, mailed_one, taken_back};
ghost use Rattle.xfs_model.specs.Connections.{is_at, is_client, is_service, number, with_mail, without_mail};
ghost use Rattle.xfs_model.specs.State.{Connection as ConnectionView};

use crate::connection::Connection;
use std::alloc::Global;
use std::marker::Model;
use xfs_base::{Bytes, ClientId, Memory, Service};

/// The open connections, in order of joining: their client numbers rise.
#[derive(Drop)]
pub struct Connections {
    list: Vec<Connection>,
}

impl Model for Connections {
    ghost use Rattle.std.specs.Prelude.{List, AllPairs, ◌<◌};
    ghost use Rattle.xfs_model.specs.State.{Connection as ConnectionView};

    ghost Value = { List ConnectionView };

    ghost view = { λ c. c.list.items };

    ghost invariant = { λ c. AllPairs (λ a b. a.client.0 < b.client.0) c.list.items };
}

impl Connections {
    pub fn new(alloc: Global) -> Connections
        ensures { result ≡ [] }
    {
        Connections {
            list: Vec::new(alloc),
        }
    }

    pub fn len(&self) -> usize
        ensures { result ≡ length self.now }
    {
        self.list.len()
    }

    /// The service of the client's connection.
    pub fn service_of(&self, client: ClientId) -> Option<Service>
        ensures { result ≡ option_map (λ k. k.service) (find (is_client client) self.now) }
    {
        self.list
            .iter()
            .find(|connection| connection.client.0 == client.0)
            .map(|connection| connection.service)
    }

    /// Adds the connection of a client with the next number.
    pub fn push(&mut self, connection: Connection) -> Result<(), Memory>
        requires { All (λ k. k.client.0 < connection.client.0) self.old }
        ensures ok { OnOk result (self.new ≡ self.old ++ connection ∷ []) }
        ensures err { OnErr result (self.new ≡ self.old) }
    {
        match self.list.push(connection) {
            Ok(()) => Ok(()),
            Err(_) => Err(Memory),
        }
    }

    /// Drops the client's connection.
    pub fn remove(&mut self, client: ClientId)
        ensures { self.new ≡ filter (λ k. not (is_client client k)) self.old }
    {
        self.list
            .retain(|connection| connection.client.0 != client.0);
    }

    /// Hands over the frames that wait for the client.
    pub fn fetch(&mut self, alloc: Global, client: ClientId) -> Vec<Bytes>
        ensures handed { MatchOption (find (is_client client) self.old) (result.items ≡ []) (λ k. result.items ≡ k.waiting) }
        ensures rest { self.new ≡ map (without_mail client) self.old }
    {
        match index_of(&self.list, client) {
            Some(at) => self.list[at].fetch(alloc),
            None => Vec::new(alloc),
        }
    }

    /// A frame for one connection; for one that has left it is dropped.
    pub fn send(&mut self, service: Service, client: ClientId, frame: Bytes) -> Result<(), Memory>
        ensures ok { OnOk result (self.new ≡ map (λ k. with_mail (is_at service client k) (frame ∷ []) k) self.old) }
        ensures err { OnErr result (self.new ≡ self.old) }
    {
        match place(&self.list, service, client) {
            Some(at) => self.list[at].mail(frame),
            None => Ok(()),
        }
    }

    /// Two frames for one connection, or none.
    pub fn send_two(
        &mut self,
        service: Service,
        client: ClientId,
        first: Bytes,
        last: Bytes,
    ) -> Result<(), Memory>
        ensures ok { OnOk result (self.new ≡ map (λ k. with_mail (is_at service client k) (first ∷ last ∷ []) k) self.old) }
        ensures err { OnErr result (self.new ≡ self.old) }
    {
        match place(&self.list, service, client) {
            Some(at) => self.list[at].mail_two(first, last),
            None => Ok(()),
        }
    }

    /// A frame for every connection of a service, or for none.
    pub fn announce(&mut self, alloc: Global, service: Service, frame: &[u8]) -> Result<(), Memory>
        ensures ok { OnOk result (self.new ≡ map (λ k. with_mail (is_service service k.service) (frame.now ∷ []) k) self.old) }
        ensures err { OnErr result (self.new ≡ self.old) }
    {
        announce(alloc, &mut self.list, service, frame)
    }

    /// Takes back the frame that was just sent to one connection.
    pub fn unsend(&mut self, service: Service, client: ClientId)
        ensures { (before : List ConnectionView) (frame : List ℕ) → self.old ≡ mailed_one service client frame before → self.new ≡ before }
    {
        if let Some(at) = place(&self.list, service, client) {
            self.list[at].unmail();
        }
    }

    /// Takes back the frame that was just announced.
    pub fn take_back(&mut self, service: Service)
        ensures { (before : List ConnectionView) (frame : List ℕ) → self.old ≡ mailed_all service frame before → self.new ≡ before }
    {
        let count = self.list.len();
        take_back(&mut self.list, service, count);
    }
}

// Where the client's connection stands.
fn index_of(connections: &[Connection], client: ClientId) -> Option<usize>
    ensures { result ≡ position (is_client client) connections.now }
{
    connections
        .iter()
        .position(|connection| connection.client.0 == client.0)
}

// Where the client's connection at this service stands.
fn place(connections: &[Connection], service: Service, client: ClientId) -> Option<usize>
    ensures { result ≡ position (is_at service client) connections.now }
{
    connections.iter().position(|connection| {
        is_service(service, connection.service) && connection.client.0 == client.0
    })
}

/// Whether two services are one.
pub fn is_service(a: Service, b: Service) -> bool
    ensures { result ≡ is_service a b }
{
    number(b) == number(a)
}

fn number(service: Service) -> u8
    ensures { result ≡ number service }
{
    match service {
        Service::Publisher => 0,
        Service::Card => 1,
        Service::Keys => 2,
        Service::Cash => 3,
    }
}

fn announce(
    alloc: Global,
    connections: &mut Vec<Connection>,
    service: Service,
    frame: &[u8],
) -> Result<(), Memory>
    ensures ok { OnOk result (connections.new.items ≡ mailed_all service frame.now connections.old.items) }
    ensures err { OnErr result (connections.new.items ≡ connections.old.items) }
{
    for i in 0..connections.len() {
        match give(alloc, &mut connections[i], service, frame) {
            Ok(()) => {}
            Err(Memory) => {
                take_back(connections, service, i);
                return Err(Memory);
            }
        }
    }
    Ok(())
}

fn give(
    alloc: Global,
    connection: &mut Connection,
    service: Service,
    frame: &[u8],
) -> Result<(), Memory>
    ensures ok { OnOk result (connection.new ≡ with_mail (is_service service connection.old.service) (frame.now ∷ []) connection.old) }
    ensures err { OnErr result (connection.new ≡ connection.old) }
    ensures client { connection.new.client ≡ connection.old.client }
{
    if !is_service(service, connection.service) {
        return Ok(());
    }
    let copy = frame.to_vec(alloc)?;
    connection.mail(Bytes::new(copy))
}

// The last frame of each of the first connections, if it is one of the service.
fn take_back(connections: &mut Vec<Connection>, service: Service, until: usize)
    requires { until ≤ length connections.old.items }
    ensures { connections.new.items ≡ map (taken_back service) (take until connections.old.items) ++ drop until connections.old.items }
{
    for i in 0..until {
        drop_last(&mut connections[i], service);
    }
}

fn drop_last(connection: &mut Connection, service: Service)
    ensures { connection.new ≡ taken_back service connection.old }
{
    if is_service(service, connection.service) {
        connection.unmail();
    }
}

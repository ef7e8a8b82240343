ghost use Rattle.std.specs.Prelude.{◌≡◌, ◌+◌, IfOk, IfSome};
ghost use Rattle.xfs_base.specs.declared.moment.Service.TheVariants as Service;
ghost use Rattle.xfs_common.specs.Addresses.{port_of};
ghost use Rattle.xfs_server.specs.Links.{IsFresh};

use crate::SocketLink;
use crate::dialling::shake_dialled;
use crate::entrance::{Entrance, Port};
use crate::socket::Socket;
use crate::visitors::Origins;
use std::alloc::Global;
use std::io;
use std::io::ErrorKind;
use std::net::{Net, TcpListener, TcpStream};
use std::random::RandomSource;
use xfs_base::{Clock, Service};
use xfs_common::Address;
use xfs_server::{DialFault, Door, Doors};

/// A port for each service.
#[derive(Clone, Copy, Debug, PartialEq, Eq)]
pub struct Ports {
    pub publisher: u16,
    pub card: u16,
    pub keys: u16,
    pub cash: u16,
}

impl Ports {
    /// The ports where nothing else is asked for.
    pub fn usual() -> Ports
        ensures publisher { result.publisher ≡ port_of Service.Publisher }
        ensures card { result.card ≡ port_of Service.Card }
        ensures keys { result.keys ≡ port_of Service.Keys }
        ensures cash { result.cash ≡ port_of Service.Cash }
    {
        Ports {
            publisher: Address::of(Service::Publisher).port,
            card: Address::of(Service::Card).port,
            keys: Address::of(Service::Keys).port,
            cash: Address::of(Service::Cash).port,
        }
    }

    /// Four ports one behind the other, the publisher's first. None where there are no four from there on.
    pub fn from_first(first: u16) -> Option<Ports>
        ensures publisher { IfSome result (λ ports. ports.publisher ≡ first) }
        ensures card { IfSome result (λ ports. ports.card ≡ first + 1) }
        ensures keys { IfSome result (λ ports. ports.keys ≡ first + 2) }
        ensures cash { IfSome result (λ ports. ports.cash ≡ first + 3) }
    {
        Some(Ports {
            publisher: first,
            card: first.checked_add(1)?,
            keys: first.checked_add(2)?,
            cash: first.checked_add(3)?,
        })
    }

    /// The port of a service.
    pub fn of(&self, service: Service) -> u16
        ensures publisher { service ≡ Service.Publisher → result ≡ self.now.publisher }
        ensures card { service ≡ Service.Card → result ≡ self.now.card }
        ensures keys { service ≡ Service.Keys → result ≡ self.now.keys }
        ensures cash { service ≡ Service.Cash → result ≡ self.now.cash }
    {
        match service {
            Service::Publisher => self.publisher,
            Service::Card => self.card,
            Service::Keys => self.keys,
            Service::Cash => self.cash,
        }
    }
}

/// Why the doors weren't opened.
#[derive(Clone, Copy, Debug, PartialEq, Eq)]
pub enum OpenFault {
    /// A port can't be listened on.
    Failed { port: u16, why: ErrorKind },
    /// Memory ran out.
    Memory,
}

/// Doors on 127.0.0.1. At most 64 handshakes are under way, and each has 2 seconds. One that names another host, and one
/// of a page whose origin isn't listed, is refused, as quietly as any that fails. `next` never waits.
#[derive(Drop)]
pub struct TcpDoors<
    'a,
    R: Net<Listener = TcpListener, Stream = TcpStream> + RandomSource,
    C: Clock,
> {
    rt: &'a R,
    alloc: Global,
    clock: &'a C,
    ports: Ports,
    entrance: Entrance<'a>,
    came: u64,
    // Once so many have come nobody is let in any more.
    most: u64,
    dials: u64,
    last_dialled: Option<Service>,
    quiets: u64,
    faults: u64,
    unreached: Option<(u16, ErrorKind)>,
}

impl<'a, R: Net<Listener = TcpListener, Stream = TcpStream> + RandomSource, C: Clock> TcpDoors<
    'a,
    R,
    C,
> {
    /// Listens on these ports, for programs of this machine and for pages of these origins. Where a port is 0 the system
    /// chooses it.
    pub fn open(
        rt: &'a R,
        alloc: Global,
        clock: &'a C,
        ports: Ports,
        origins: Origins<'a>,
    ) -> Result<TcpDoors<'a, R, C>, OpenFault> {
        let mut opened = ports;
        let mut listeners = Vec::new(alloc);
        opened.publisher = listen(rt, &mut listeners, Service::Publisher, ports.publisher)?;
        opened.card = listen(rt, &mut listeners, Service::Card, ports.card)?;
        opened.keys = listen(rt, &mut listeners, Service::Keys, ports.keys)?;
        opened.cash = listen(rt, &mut listeners, Service::Cash, ports.cash)?;
        TcpDoors::over(rt, alloc, clock, opened, listeners, origins)
    }

    /// Doors at which nobody comes in, which dial these ports.
    pub fn outward(
        rt: &'a R,
        alloc: Global,
        clock: &'a C,
        ports: Ports,
    ) -> Result<TcpDoors<'a, R, C>, OpenFault> {
        TcpDoors::over(rt, alloc, clock, ports, Vec::new(alloc), Origins::none())
    }

    /// Stops to listen once so many connections came, so that the next is refused at once.
    pub fn close_after(&mut self, connections: u64) {
        self.most = connections;
    }

    /// The ports that are listened on, or dialled.
    pub fn ports(&self) -> Ports {
        self.ports
    }

    /// The port that the last dial reached nobody at, and why.
    pub fn last_unreached(&self) -> Option<(u16, ErrorKind)> {
        self.unreached
    }

    fn over(
        rt: &'a R,
        alloc: Global,
        clock: &'a C,
        ports: Ports,
        listeners: Vec<Port>,
        origins: Origins<'a>,
    ) -> Result<TcpDoors<'a, R, C>, OpenFault> {
        let Ok(entrance) = Entrance::new(alloc, listeners, origins) else {
            return Err(OpenFault::Memory);
        };
        Ok(TcpDoors {
            rt,
            alloc,
            clock,
            ports,
            entrance,
            came: 0,
            most: u64::MAX,
            dials: 0,
            last_dialled: None,
            quiets: 0,
            faults: 0,
            unreached: None,
        })
    }

    fn connect_to(
        &self,
        service: Service,
        stream: TcpStream,
    ) -> Result<SocketLink<'a, &'a R, C>, DialFault>
        ensures { IfOk result (λ link. IsFresh link) }
    {
        let port = self.ports.of(service);
        let socket = shake_dialled(self.alloc, self.rt, self.clock, service, port, stream)?;
        Ok(SocketLink::new(self.alloc, Socket::Client(socket), self.clock))
    }
}

impl<
    'a,
    R: Net<Listener = TcpListener, Stream = TcpStream> + RandomSource + Sync,
    C: Clock + Sync,
> Doors for TcpDoors<'a, R, C> {
    type Link = SocketLink<'a, &'a R, C>;

    ghost log = { λ d. record { came = d.came; dials = d.dials; last_dialled = d.last_dialled; quiets = d.quiets; faults = d.faults } };

    fn next(&mut self) -> Door<SocketLink<'a, &'a R, C>> {
        match self.entrance.next(self.alloc, self.clock.now()) {
            Door::Came(service, socket) => {
                self.came = self.came.saturating_add(1);
                if self.came >= self.most {
                    self.entrance.close();
                }
                Door::Came(
                    service,
                    SocketLink::new(self.alloc, Socket::Server(socket), self.clock),
                )
            }
            Door::Quiet => {
                self.quiets = self.quiets.saturating_add(1);
                Door::Quiet
            }
            Door::Failed => {
                self.faults = self.faults.saturating_add(1);
                Door::Failed
            }
            Door::Memory => Door::Memory,
        }
    }

    fn dial(&mut self, service: Service) -> Result<SocketLink<'a, &'a R, C>, DialFault> {
        self.dials = self.dials.saturating_add(1);
        self.last_dialled = Some(service);
        let port = self.ports.of(service);
        let dialled = match TcpStream::connect(self.rt, ("127.0.0.1", port)) {
            Ok(stream) => self.connect_to(service, stream),
            Err(error) => {
                self.unreached = Some((port, error.kind()));
                Err(DialFault::Failed)
            }
        };
        if matches!(dialled, Err(DialFault::Failed)) {
            self.faults = self.faults.saturating_add(1);
        }
        dialled
    }
}

// Listens on a port, and tells which it is.
fn listen<R: Net<Listener = TcpListener, Stream = TcpStream>>(
    rt: &R,
    listeners: &mut Vec<Port>,
    service: Service,
    port: u16,
) -> Result<u16, OpenFault> {
    let (listener, port) = match listening(rt, port) {
        Ok(listening) => listening,
        Err(error) => {
            return Err(OpenFault::Failed {
                port,
                why: error.kind(),
            });
        }
    };
    match listeners.push(Port { service, listener }) {
        Ok(()) => Ok(port),
        Err(_) => Err(OpenFault::Memory),
    }
}

fn listening<R: Net<Listener = TcpListener, Stream = TcpStream>>(
    rt: &R,
    port: u16,
) -> io::Result<(TcpListener, u16)> {
    let listener = TcpListener::bind(rt, ("127.0.0.1", port))?;
    listener.set_nonblocking(true)?;
    let port = listener.local_addr()?.port();
    Ok((listener, port))
}

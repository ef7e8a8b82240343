ghost use Rattle.std.specs.Prelude.{◌≡◌, IfOk, string_bytes};
ghost use Rattle.xfs_common.specs.Addresses.{path_of, port_of, uri_of};

use std::alloc::{AllocError, Global};
use xfs_base::Service;

/// Where a service is reached: its port where nothing else is asked for, and the path of its URI.
#[derive(Clone, Copy)]
pub struct Address {
    pub port: u16,
    pub path: &'static str,
}

impl Address {
    /// Where this service is reached: the publisher tells it, a server listens there, a client dials it.
    pub fn of(service: Service) -> Address
        ensures port { result.port ≡ port_of service }
        ensures path { result.path.now ≡ path_of service }
    {
        let (port, path) = match service {
            Service::Publisher => (5846, "/xfs4iot/v1.0"),
            Service::Card => (5847, "/xfs4iot/v1.0/cardreader"),
            Service::Keys => (5848, "/xfs4iot/v1.0/keyboard"),
            Service::Cash => (5849, "/xfs4iot/v1.0/cashdispenser"),
        };
        Address { port, path }
    }
}

pub(crate) fn uri(alloc: Global, service: Service) -> Result<String, AllocError>
    ensures { IfOk result (λ text. string_bytes text ≡ uri_of service) }
{
    let address = Address::of(service);
    format!(in alloc; "ws://localhost:{}{}", address.port, address.path)
}

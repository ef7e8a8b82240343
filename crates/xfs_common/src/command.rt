ghost use Rattle.std.specs.Prelude.{◌≡◌};
ghost use Rattle.xfs_common.specs.Commands.{nonce_command, immediate_of, own_immediate_of};

use xfs_base::Service;

/// The commands of Common that wait: those on nonces, at the dispenser's service. The names are those
/// of XFS4IoT (CEN CWA).
#[derive(Clone, Copy)]
pub enum CommonCommand {
    GetCommandNonce,
    ClearCommandNonce,
}

/// The commands that are done at once, as XFS4IoT (CEN CWA) names them.
#[derive(Clone, Copy)]
pub enum Immediate {
    Status,
    Capabilities,
    Cancel,
    GetServices,
    GetStorage,
    GetPresentStatus,
}

impl CommonCommand {
    /// The command of this name.
    pub fn named(name: &str) -> Option<CommonCommand>
        ensures { result ≡ nonce_command name.now }
    {
        match name {
            "Common.GetCommandNonce" => Some(CommonCommand::GetCommandNonce),
            "Common.ClearCommandNonce" => Some(CommonCommand::ClearCommandNonce),
            _ => None,
        }
    }
}

impl Immediate {
    /// The command of this name at a service.
    pub fn named(service: Service, name: &str) -> Option<Immediate>
        ensures { result ≡ immediate_of service name.now }
    {
        match name {
            "Common.Status" => Some(Immediate::Status),
            "Common.Capabilities" => Some(Immediate::Capabilities),
            "Common.Cancel" => Some(Immediate::Cancel),
            _ => own_immediate(service, name),
        }
    }
}

fn own_immediate(service: Service, name: &str) -> Option<Immediate>
    ensures { result ≡ own_immediate_of service name.now }
{
    match (service, name) {
        (Service::Publisher, "ServicePublisher.GetServices") => Some(Immediate::GetServices),
        (Service::Cash, "Storage.GetStorage") => Some(Immediate::GetStorage),
        (Service::Cash, "CashDispenser.GetPresentStatus") => Some(Immediate::GetPresentStatus),
        _ => None,
    }
}

ghost use Rattle.std.specs.Prelude.{◌≡◌};
ghost use Rattle.xfs_dispenser.specs.Commands.{cash_command};

/// The commands of the cash dispenser that wait for it, as XFS4IoT (CEN CWA) names them in
/// CashDispenser, CashManagement and Storage.
#[derive(Clone, Copy)]
pub enum CashCommand {
    Denominate,
    Dispense,
    Present,
    Reject,
    Reset,
    Retract,
    StartExchange,
    SetStorage,
    EndExchange,
}

impl CashCommand {
    /// The command of this name.
    pub fn named(name: &str) -> Option<CashCommand>
        ensures { result ≡ cash_command name.now }
    {
        match name {
            "CashDispenser.Denominate" => Some(CashCommand::Denominate),
            "CashDispenser.Dispense" => Some(CashCommand::Dispense),
            "CashDispenser.Present" => Some(CashCommand::Present),
            "CashDispenser.Reject" => Some(CashCommand::Reject),
            "CashManagement.Reset" => Some(CashCommand::Reset),
            "CashManagement.Retract" => Some(CashCommand::Retract),
            "Storage.StartExchange" => Some(CashCommand::StartExchange),
            "Storage.SetStorage" => Some(CashCommand::SetStorage),
            "Storage.EndExchange" => Some(CashCommand::EndExchange),
            _ => None,
        }
    }
}

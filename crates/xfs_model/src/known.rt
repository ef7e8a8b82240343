use xfs_card::CardCommand;
use xfs_common::CommonCommand;
use xfs_dispenser::CashCommand;
use xfs_keyboard::KeysCommand;

/// A command that a service knows by name, and that is pending until it is answered.
#[derive(Clone, Copy)]
pub enum Known {
    Nonce(CommonCommand),
    Card(CardCommand),
    Keys(KeysCommand),
    Cash(CashCommand),
}

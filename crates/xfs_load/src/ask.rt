ghost use Rattle.std.specs.Prelude.{◌≡◌, IsTrue};
ghost use Rattle.xfs_envelope.specs.Names.{is_name};
ghost use Rattle.xfs_load.specs.Texts.{ask_name};

/// What the generator's client asks of the cash dispenser.
#[derive(Clone, Copy, Debug, PartialEq, Eq)]
pub enum Ask {
    /// A command nonce.
    Nonce,
    /// Notes for so many whole EUR, in as few as can be.
    Dispense(u32),
    /// The notes that lie ready are to be presented.
    Present,
    /// The units are to be opened for an exchange.
    StartExchange,
    /// Four notes are added to unit1, six to unit2 and four to unit3.
    Refill,
    /// The exchange is over.
    EndExchange,
}

impl Ask {
    // The name of its command.
    pub(crate) fn name(self) -> &'static [u8]
        ensures name { result.now ≡ ask_name self }
        ensures form { IsTrue (is_name result.now) }
    {
        match self {
            Ask::Nonce => b"Common.GetCommandNonce",
            Ask::Dispense(_) => b"CashDispenser.Dispense",
            Ask::Present => b"CashDispenser.Present",
            Ask::StartExchange => b"Storage.StartExchange",
            Ask::Refill => b"Storage.SetStorage",
            Ask::EndExchange => b"Storage.EndExchange",
        }
    }
}

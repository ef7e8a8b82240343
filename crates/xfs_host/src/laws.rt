//! What is true of every history of a host, and of its tokens.
ghost use Rattle.xfs_host.specs.Laws.{AreMade, AreSame, AreSound};

/// In each currency what the tokens are worth together is what was taken from the accounts; no account gave more than it had;
/// and a nonce got one token at most. A token that is replied is genuine, with the ask's nonce and its one amount, and a token
/// that is made again is the same.
pub fn every_history()
    ensures sound { AreSound }
    ensures made { AreMade }
    ensures same { AreSame }
{}

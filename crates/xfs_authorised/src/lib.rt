//! The law of a bank's side and a machine under one key: what the machine puts out is what the bank's side allowed.
#![tactic(auto)]

ghost use Rattle.xfs_authorised.specs.Authorised.{AreWithinAsks};

use xfs_host::every_history;

/// Where the first token that was bound since a nonce was issued is one that a host of the same key replied to an ask, what
/// was put out since then is worth, per currency, at most that ask. That a host takes it from an account once is a law of
/// xfs_host.
pub fn machines_put_out_what_was_authorised()
    ensures { AreWithinAsks }
{
    every_history();
}

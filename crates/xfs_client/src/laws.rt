//! What a client knows of a lawful conversation.

ghost use Rattle.std.specs.Prelude.{◌≡◌, ℕ, List, Ok};
ghost use Rattle.xfs_client.specs.History.{Entry, Told, told_in};
ghost use Rattle.xfs_client.specs.Withdrawals.{Terms};
ghost use Rattle.xfs_client.specs.Hearings.{ComesNext, Remembers, WhereHeardAll};
ghost use Rattle.xfs_client.specs.Withdraws.{IsUnheard, LacksNonceAlone};

/// A desk that hears the first frames of a lawful conversation, whose texts are the first of its
/// asks, is told something by the next of them: no stranger, and no other shape.
pub fn desks_know_what_they_hear()
    ensures { (h : List Entry) (frame : List ℕ) → ComesNext h frame → (t : Told) × (told_in h frame ≡ Ok t) }
{}

/// What a desk remembers is what is pending in the conversation whose frames it heard, and the asks
/// that the conversation has not come to.
pub fn desks_remember_what_is_pending()
    ensures { WhereHeardAll Remembers }
{}

/// A withdrawal knows each frame of a lawful conversation too: only a success of GetCommandNonce that
/// gives no nonce is not heard.
pub fn withdrawals_know_what_they_hear()
    ensures { (terms : Terms) (before : List (List ℕ)) (frame : List ℕ) → IsUnheard before frame → LacksNonceAlone terms before frame }
{}

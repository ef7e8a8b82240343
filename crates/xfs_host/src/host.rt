//! The host.
ghost use Rattle.std.specs.Prelude.{◌≡◌, ◌<◌, ◌≤◌, ◌++◌, ◌∷◌, [], ℕ, List, length, map, Some, IfOk, OnOk, OnErr, slice_get};
ghost use Rattle.std.specs.Option.{option_map};
ghost use Rattle.xfs_token.specs.Amounts.{IsMade};
ghost use Rattle.xfs_host.specs.Book.{Opened, Asked, account_in, balance_after, book_of, listed, reply_after, rising};
ghost use Rattle.xfs_host.specs.Host.{IsRefusedAs, host_refusal, open_refusal};
ghost use Rattle.xfs_host.specs.Reply.{IsReply};
ghost use Rattle.xfs_host.specs.declared.faults.HostFault.TheVariants as host;
ghost use Rattle.xfs_host.specs.declared.faults.OpenFault.TheVariants as opening;

use crate::account::Account;
use crate::ask::Ask;
use crate::decision::Decision;
use crate::ledger::Ledger;
use crate::{HostFault, OpenFault, Reply, Text};
use std::alloc::{AllocError, Global};
use std::marker::Model;
use xfs_base::{Currency, Milli};
use xfs_token::{Amounts, TokenKey};

const ACCOUNTS: usize = 10_000;

const TRANSACTIONS: usize = 100_000;

/// The bank's side. It keeps the balances of accounts, and gives a token for each ask that an account's balance covers.
/// A transaction acts once, however often it is repeated, and one nonce gets one token.
#[derive(Drop)]
pub struct Host {
    alloc: Global,
    key: TokenKey,
    ledger: Ledger,
}

impl Model for Host {
    ghost use Rattle.xfs_host.specs.Host.{IsWithinLimits, State};
    ghost use Rattle.xfs_host.specs.Book.{book_of};

    ghost Value = { State };

    ghost view = { λ h. record { key = h.key; calls = h.ledger } };

    ghost invariant = { λ h. IsWithinLimits (book_of h.ledger) };
}

impl Host {
    /// A host without accounts, whose tokens are genuine under the key.
    pub fn new(alloc: Global, key: [u8; 32]) -> Host
        ensures { result ≡ record { key = key; calls = [] } }
    {
        Host {
            alloc,
            key: TokenKey::new(key),
            ledger: Ledger::new(alloc),
        }
    }

    /// Opens an account with a balance. Whether it is open is looked at before the limit of 10,000.
    pub fn open_account(
        &mut self,
        account: u64,
        currency: Currency,
        balance: Milli,
    ) -> Result<(), OpenFault>
        requires { balance.0 ≤ 999999999999 }
        ensures ok { OnOk result (self.new ≡ record self.old { calls = self.old.calls ++ Opened account currency balance.0 ∷ [] }) }
        ensures same { OnErr result (self.new ≡ self.old) }
        ensures refused { IsRefusedAs opening.Memory (open_refusal (book_of self.old.calls) account) result }
    {
        if self.ledger.account(account).is_some() {
            return Err(OpenFault::Known);
        }
        if self.ledger.len() >= ACCOUNTS {
            return Err(OpenFault::Limit);
        }
        self.ledger.open(account, currency, balance.0)?;
        Ok(())
    }

    /// Answers an ask. What was answered once is answered again, also at the limit of 100,000 transactions.
    pub fn authorise(&mut self, ask: &Ask) -> Result<Reply, HostFault>
        ensures replied { IfOk result (IsReply self.old.key ask.now (reply_after self.old.calls ask.now)) }
        ensures grown { OnOk result (self.new ≡ record self.old { calls = self.old.calls ++ Asked ask.now ∷ [] }) }
        ensures same { OnErr result (self.new ≡ self.old) }
        ensures refused { IsRefusedAs host.Memory (host_refusal (book_of self.old.calls) ask.now) result }
    {
        if !self.ledger.is_kept(ask.tx()) && self.ledger.kept() >= TRANSACTIONS {
            return Err(HostFault::Limit);
        }
        let decision = self.ledger.decide(ask);
        let reply = reply_to(self.alloc, &self.key, ask, decision)?;
        self.ledger.note(ask, decision)?;
        Ok(reply)
    }

    /// The balance of an account. None exactly where it isn't open.
    pub fn balance(&self, account: u64) -> Option<Milli>
        ensures { option_map (λ b. b.0) result ≡ balance_after self.now.calls account }
    {
        let account = self.ledger.account(account)?;
        Some(Milli(account.balance))
    }

    /// How many accounts are open.
    pub fn len(&self) -> usize
        ensures opened { result ≡ length (book_of self.now.calls).opened }
        ensures most { result ≤ 10000 }
    {
        self.ledger.len()
    }

    /// How many transactions are kept.
    pub fn kept(&self) -> usize
        ensures asked { result ≡ length (book_of self.now.calls).asked }
        ensures most { result ≤ 100000 }
    {
        self.ledger.kept()
    }

    /// The open accounts by their rising numbers, read in one walk.
    pub fn accounts(&self) -> Result<Vec<(u64, Account)>, AllocError>
        ensures { IfOk result (λ list. map (λ e. (e.0, Some e.1)) list.items ≡ listed (book_of self.now.calls)) }
    {
        self.ledger.list_accounts()
    }

    /// The account at a place, from 0, among the open ones by their rising numbers, with its currency and its balance.
    pub fn account(&self, i: usize) -> (u64, Currency, Milli)
        requires { i < length (book_of self.now.calls).opened }
        ensures number { slice_get (rising (book_of self.now.calls)) i ≡ Some result.0 }
        ensures account { account_in (book_of self.now.calls) result.0 ≡ Some (record { currency = result.1; balance = result.2.0 }) }
    {
        let (number, account) = self.ledger.entry(i);
        (number, account.currency, Milli(account.balance))
    }
}

fn reply_to(
    alloc: Global,
    key: &TokenKey,
    ask: &Ask,
    decision: Decision,
) -> Result<Reply, AllocError>
    ensures { IfOk result (IsReply key.now ask.now decision) }
{
    match decision {
        Decision::Paid => Ok(Reply::Token(token(alloc, key, ask)?)),
        Decision::Other => Ok(Reply::Other),
        Decision::Unknown => Ok(Reply::Unknown),
        Decision::WrongCurrency => Ok(Reply::WrongCurrency),
        Decision::UsedNonce { tx } => Ok(Reply::UsedNonce { tx }),
        Decision::Poor { balance } => Ok(Reply::Poor {
            balance: Milli(balance),
        }),
    }
}

// The text is the same each time that it is made.
fn token(alloc: Global, key: &TokenKey, ask: &Ask) -> Result<Text, AllocError>
    ensures { IfOk result (IsMade key.now ask.now.nonce ((ask.now.currency, ask.now.amount) ∷ [])) }
{
    let Some(amounts) = Amounts::one(ask.currency(), Milli(ask.amount())) else {
        unreachable!();
    };
    match key.make(alloc, ask.nonce(), &amounts) {
        Ok(text) => Ok(Text::new(text)),
        Err(_) => Err(AllocError),
    }
}

//! What is asked of the host.
ghost use Rattle.std.specs.Prelude.{◌≡◌, ◌≤◌, IfOk, true};
ghost use Rattle.std.specs.List.{list_all};
ghost use Rattle.xfs_token.specs.Token as grammar;
ghost use Rattle.xfs_host.specs.Ask.{ask_refusal, is_same};
ghost use Rattle.xfs_host.specs.Host.{IsRefusedAs};
ghost use Rattle.xfs_host.specs.declared.faults.AskFault.TheVariants.{Memory};

use crate::AskFault;
use std::alloc::{AllocError, Global};
use std::marker::Model;
use xfs_base::{Currency, Milli};

const GREATEST: u64 = 999_999_999_999;

/// A transaction of an account: an amount that a machine is to pay out under its nonce.
#[derive(Drop)]
pub struct Ask {
    tx: u64,
    account: u64,
    nonce: Vec<u8>,
    currency: Currency,
    amount: u64,
}

impl Model for Ask {
    ghost use Rattle.xfs_host.specs.Ask.{Terms, IsTerms};

    ghost Value = { Terms };

    ghost view = { λ a. record { tx = a.tx; account = a.account; nonce = a.nonce.items; currency = a.currency; amount = a.amount } };

    ghost invariant = { λ a. IsTerms (record { tx = a.tx; account = a.account; nonce = a.nonce.items; currency = a.currency; amount = a.amount }) };
}

impl Ask {
    /// The nonce is looked at before the amount.
    pub fn new(
        alloc: Global,
        tx: u64,
        account: u64,
        nonce: &[u8],
        currency: Currency,
        amount: Milli,
    ) -> Result<Ask, AskFault>
        ensures ok { IfOk result (λ a. a ≡ record { tx = tx; account = account; nonce = nonce.now; currency = currency; amount = amount.0 }) }
        ensures refused { IsRefusedAs Memory (ask_refusal nonce.now amount.0) result }
    {
        if !is_nonce(nonce) {
            return Err(AskFault::BadNonce);
        }
        if amount.0 > GREATEST {
            return Err(AskFault::BadAmount);
        }
        Ok(Ask {
            tx,
            account,
            nonce: Vec::from_slice(alloc, nonce)?,
            currency,
            amount: amount.0,
        })
    }

    // The same once more.
    pub(crate) fn copy(&self, alloc: Global) -> Result<Ask, AllocError>
        ensures { IfOk result (λ a. a ≡ self.now) }
    {
        Ok(Ask {
            tx: self.tx,
            account: self.account,
            nonce: Vec::from_slice(alloc, &self.nonce)?,
            currency: self.currency,
            amount: self.amount,
        })
    }

    pub(crate) fn tx(&self) -> u64
        ensures { result ≡ self.now.tx }
    {
        self.tx
    }

    pub(crate) fn account(&self) -> u64
        ensures { result ≡ self.now.account }
    {
        self.account
    }

    pub(crate) fn nonce(&self) -> &[u8]
        ensures now { result.now ≡ self.now.nonce }
        ensures valid { grammar.is_nonce self.now.nonce ≡ true }
    {
        &self.nonce
    }

    pub(crate) fn currency(&self) -> Currency
        ensures { result ≡ self.now.currency }
    {
        self.currency
    }

    pub(crate) fn amount(&self) -> u64
        ensures now { result ≡ self.now.amount }
        ensures small { self.now.amount ≤ 999999999999 }
    {
        self.amount
    }

    // The same but for the number.
    pub(crate) fn is_same(&self, other: &Ask) -> bool
        ensures { result ≡ is_same self.now other.now }
    {
        self.account == other.account
            && self.nonce.as_slice() == other.nonce.as_slice()
            && self.currency == other.currency
            && self.amount == other.amount
    }
}

fn is_nonce(nonce: &[u8]) -> bool
    ensures { result ≡ grammar.is_nonce nonce.now }
{
    nonce.len() >= 1 && nonce.len() <= 128 && is_hex(nonce)
}

fn is_hex(bytes: &[u8]) -> bool
    ensures { result ≡ list_all grammar.is_upper_hex bytes.now }
{
    bytes.iter().all(|b| is_upper_hex(*b))
}

fn is_upper_hex(b: u8) -> bool
    ensures { result ≡ grammar.is_upper_hex b }
{
    (b >= b'0' && b <= b'9') || (b >= b'A' && b <= b'F')
}

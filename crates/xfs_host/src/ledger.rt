//! Accounts, transactions and nonces.
ghost use Rattle.std.specs.Prelude.{◌≡◌, ◌<◌, [], length, map, option_map, Some, None, true, false, is_some, IfOk, slice_get};
ghost use Rattle.xfs_host.specs.Book.{Adds, Opened, Asked, account_in, book_of, decided, first_ask_in, listed, opening_in, reply_after, rising, user_in};
ghost use Rattle.xfs_host.specs.Book as book;
ghost use Rattle.xfs_host.specs.Kept.{call_of};
ghost use Rattle.xfs_host.specs.declared.decision.Decision.TheVariants.{Paid};

use crate::account::Account;
use crate::ask::Ask;
use crate::changes::{add, charge, free_nonce, use_nonce};
use crate::decision::Decision;
use crate::event::Event;
use crate::first::First;
use crate::listing::pairs;
use std::alloc::{AllocError, Global};
use std::collections::BTreeMap;
use std::marker::Model;
use std::snapshot::Snapshot;
use xfs_base::Currency;

/// What the calls that were answered came to: the accounts with their balances, the first ask with each number, and
/// which transaction used a nonce. An ask looks each up once and walks none.
#[derive(Drop)]
pub(crate) struct Ledger {
    alloc: Global,
    accounts: BTreeMap<u64, Account>,
    firsts: BTreeMap<u64, First>,
    nonces: BTreeMap<Vec<u8>, u64>,
    // They have no bytes, since only proofs read them.
    calls: Vec<Snapshot<Event>>,
}

impl Model for Ledger {
    ghost use Rattle.std.specs.Prelude.{List, map};
    ghost use Rattle.xfs_host.specs.Book.{Call, book_of};

    ghost Value = { List Call };

    ghost use Rattle.xfs_host.specs.Kept.{IsKept, call_of};

    ghost view = { λ l. map (λ s. call_of s.value) l.calls.items };

    ghost invariant = { λ l. IsKept (book_of (map (λ s. call_of s.value) l.calls.items)) l.accounts l.firsts l.nonces };
}

impl Ledger {
    pub(crate) fn new(alloc: Global) -> Ledger
        ensures { result ≡ [] }
    {
        Ledger {
            alloc,
            accounts: BTreeMap::new(alloc),
            firsts: BTreeMap::new(alloc),
            nonces: BTreeMap::new(alloc),
            calls: Vec::new(alloc),
        }
    }

    // How many accounts are open.
    pub(crate) fn len(&self) -> usize
        ensures { result ≡ length (book_of self.now).opened }
    {
        self.accounts.len()
    }

    // How many transactions are kept.
    pub(crate) fn kept(&self) -> usize
        ensures { result ≡ length (book_of self.now).asked }
    {
        self.firsts.len()
    }

    pub(crate) fn account(&self, account: u64) -> Option<Account>
        ensures { result ≡ account_in (book_of self.now) account }
    {
        self.accounts.get(&account).copied()
    }

    // The account at a place among the open ones by their rising numbers, and its number.
    pub(crate) fn entry(&self, i: usize) -> (u64, Account)
        requires { i < length (book_of self.now).opened }
        ensures number { slice_get (rising (book_of self.now)) i ≡ Some result.0 }
        ensures account { account_in (book_of self.now) result.0 ≡ Some result.1 }
    {
        let number = self.number_at(i);
        let account = *self.accounts.get(&number).unwrap();
        (number, account)
    }

    // The open accounts by their rising numbers.
    pub(crate) fn list_accounts(&self) -> Result<Vec<(u64, Account)>, AllocError>
        ensures { IfOk result (λ list. map (λ e. (e.0, Some e.1)) list.items ≡ listed (book_of self.now)) }
    {
        pairs(self.alloc, &self.accounts)
    }

    fn number_at(&self, i: usize) -> u64
        requires { i < length (book_of self.now).opened }
        ensures { slice_get (rising (book_of self.now)) i ≡ Some result }
    {
        *self.accounts.keys().nth(i).unwrap()
    }

    pub(crate) fn is_kept(&self, tx: u64) -> bool
        ensures { result ≡ is_some (first_ask_in (book_of self.now) tx) }
    {
        self.firsts.contains_key(&tx)
    }

    // What is to be told of an ask, first or repeated.
    pub(crate) fn decide(&self, ask: &Ask) -> Decision
        ensures { result ≡ reply_after self.now ask.now }
    {
        match self.firsts.get(&ask.tx()) {
            Some(first) if first.terms.is_same(ask) => first.decision,
            Some(_) => Decision::Other,
            None => self.decide_first(ask),
        }
    }

    fn decide_first(&self, ask: &Ask) -> Decision
        ensures { result ≡ decided (book_of self.now) ask.now }
    {
        let Some(account) = self.account(ask.account()) else {
            return Decision::Unknown;
        };
        if account.currency != ask.currency() {
            return Decision::WrongCurrency;
        }
        if let Some(tx) = self.user(ask.nonce()) {
            return Decision::UsedNonce { tx };
        }
        if account.balance < ask.amount() {
            return Decision::Poor {
                balance: account.balance,
            };
        }
        Decision::Paid
    }

    // The transaction that got a token for a nonce.
    fn user(&self, nonce: &[u8]) -> Option<u64>
        ensures { result ≡ option_map (λ f. f.terms.tx) (user_in (book_of self.now) nonce.now) }
    {
        self.nonces.get(nonce).copied()
    }

    // Opens an account.
    pub(crate) fn open(
        &mut self,
        account: u64,
        currency: Currency,
        balance: u64,
    ) -> Result<(), AllocError>
        requires { opening_in (book_of self.old) account ≡ None }
        ensures { Adds (Opened account currency balance) self.old self.new result }
    {
        self.calls.reserve(1)?;
        let opened = Account { currency, balance };
        add(&mut self.accounts, account, opened)?;
        self.calls.push_reserved(Snapshot::of(&Event::Opened {
            account,
            currency,
            balance,
        }));
        Ok(())
    }

    // Keeps an ask, of which this was decided.
    pub(crate) fn note(&mut self, ask: &Ask, decision: Decision) -> Result<(), AllocError>
        requires { decision ≡ reply_after self.old ask.now }
        ensures { Adds (Asked ask.now) self.old self.new result }
    {
        if self.is_kept(ask.tx()) {
            return self.note_repeat(ask);
        }
        if decision.is_paid() {
            return self.note_paid(ask);
        }
        self.note_refused(ask, decision)
    }

    fn note_repeat(&mut self, ask: &Ask) -> Result<(), AllocError>
        requires { is_some (first_ask_in (book_of self.old) ask.now.tx) ≡ true }
        ensures { Adds (Asked ask.now) self.old self.new result }
    {
        self.calls.reserve(1)?;
        self.calls.push_reserved(event_of(ask));
        Ok(())
    }

    fn note_refused(&mut self, ask: &Ask, decision: Decision) -> Result<(), AllocError>
        requires new { first_ask_in (book_of self.old) ask.now.tx ≡ None }
        requires decided { decision ≡ decided (book_of self.old) ask.now }
        requires refused { book.is_paid decision ≡ false }
        ensures { Adds (Asked ask.now) self.old self.new result }
    {
        let terms = ask.copy(self.alloc)?;
        self.calls.reserve(1)?;
        add(&mut self.firsts, ask.tx(), First { terms, decision })?;
        self.calls.push_reserved(event_of(ask));
        Ok(())
    }

    // What takes memory comes before the balance, and is undone where more is wanted.
    fn note_paid(&mut self, ask: &Ask) -> Result<(), AllocError>
        requires new { first_ask_in (book_of self.old) ask.now.tx ≡ None }
        requires paid { decided (book_of self.old) ask.now ≡ Paid }
        ensures { Adds (Asked ask.now) self.old self.new result }
    {
        let nonce = Vec::from_slice(self.alloc, ask.nonce())?;
        let first = First {
            terms: ask.copy(self.alloc)?,
            decision: Decision::Paid,
        };
        self.calls.reserve(1)?;
        use_nonce(&mut self.nonces, nonce, ask.tx())?;
        if let Err(fault) = add(&mut self.firsts, ask.tx(), first) {
            free_nonce(&mut self.nonces, ask.nonce());
            return Err(fault);
        }
        charge(&mut self.accounts, ask.account(), ask.amount());
        self.calls.push_reserved(event_of(ask));
        Ok(())
    }
}

fn event_of(ask: &Ask) -> Snapshot<Event>
    ensures { call_of result.value ≡ Asked ask.now }
{
    Snapshot::of(&Event::Asked(Snapshot::of(ask)))
}

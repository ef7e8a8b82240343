ghost use Rattle.std.specs.Prelude.{◌≡◌, ◌<◌, ◌≤◌, ◌++◌, [], ◌∷◌, length, IsSome, IfSome, is_some, slice_get, Some};
ghost use Rattle.std.specs.Bool.{OnTrue, OnFalse};
ghost use Rattle.xfs_token.specs.Amounts.{amount_in, has_currency, is_payable, may_add, IsAmounts};

use crate::grammar::is_currency;
use std::marker::Model;
use xfs_base::{Currency, Milli};

const GREATEST: u64 = 999_999_999_999;

/// One to nine amounts of different currencies, in their order, each at most 999,999,999,999
/// thousandths of the currency's unit.
#[derive(Debug, Drop)]
pub struct Amounts {
    list: [(Currency, u64); 9],
    len: u8,
}

impl Model for Amounts {
    ghost use Rattle.std.specs.Prelude.{◌≡◌, ℕ, ◌≤◌, List, length, take};
    ghost use Rattle.xfs_token.specs.Amounts.{IsAmounts};

    ghost Value = { List (List ℕ × ℕ) };

    ghost view = { λ a. take a.len a.list };

    ghost invariant = { λ a. (length a.list ≡ 9) × (a.len ≤ 9) × IsAmounts (take a.len a.list) };
}

impl Amounts {
    /// One amount. None exactly where it passes 999,999,999,999 thousandths.
    pub fn one(currency: Currency, amount: Milli) -> Option<Amounts>
        ensures found { IfSome result (λ a. a ≡ (currency, amount.0) ∷ []) }
        ensures valid { is_some result ≡ is_payable currency amount.0 }
    {
        if amount.0 > GREATEST || !is_currency(&currency.letters()) {
            return None;
        }
        Some(Amounts {
            list: [(currency, amount.0); 9],
            len: 1,
        })
    }

    /// Adds an amount at the end. False exactly where it passes 999,999,999,999 thousandths, its
    /// currency is there, or there are nine.
    pub fn add(&mut self, currency: Currency, amount: Milli) -> bool
        ensures added { OnTrue result (self.new ≡ self.old ++ (currency, amount.0) ∷ []) }
        ensures same { OnFalse result (self.new ≡ self.old) }
        ensures valid { result ≡ may_add self.old currency amount.0 }
    {
        if amount.0 > GREATEST
            || !is_currency(&currency.letters())
            || self.len == 9
            || self.has(currency)
        {
            return false;
        }
        self.list[self.len as usize] = (currency, amount.0);
        self.len += 1;
        true
    }

    /// How many amounts there are.
    pub fn len(&self) -> u8
        ensures len { result ≡ length self.now }
        ensures valid { IsAmounts self.now }
    {
        self.list().len() as u8
    }

    /// The amount at a place, from 0.
    pub fn at(&self, i: u8) -> (Currency, Milli)
        requires { i < length self.now }
        ensures { slice_get self.now i ≡ Some (result.0, result.1.0) }
    {
        let (currency, amount) = self.list()[i as usize];
        (currency, Milli(amount))
    }

    /// The amount in a currency, and 0 where there is none of it.
    #[tactic(auto, unfolding(crate::specs::Amounts::amount_in))]
    pub fn of(&self, currency: Currency) -> Milli
        ensures { result.0 ≡ amount_in self.now currency }
    {
        match self.list().iter().find(|a| a.0 == currency) {
            Some((_, amount)) => Milli(*amount),
            None => Milli(0),
        }
    }

    fn list(&self) -> &[(Currency, u64)]
        ensures now { result.now ≡ self.now }
        ensures valid { IsAmounts self.now }
    {
        &self.list[..self.len as usize]
    }

    fn has(&self, currency: Currency) -> bool
        ensures { result ≡ has_currency currency self.now }
    {
        self.list().iter().any(|a| a.0 == currency)
    }
}

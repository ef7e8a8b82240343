//! The token of a segment, and what was put out on it.

ghost use Rattle.std.specs.Prelude.{◌≡◌, ℕ, ◌≤◌, ◌↔◌, IsTrue, length, IfOk, Some, slice_get};
ghost use Rattle.xfs_token.specs.Token.{Spells};
ghost use Rattle.std.specs.Option.{option_map};
ghost use Rattle.std.specs.Bool.{OnTrue, OnFalse};
ghost use Rattle.xfs_base.specs.declared.money.NoteKind.{NoteKind as Kind};
ghost use Rattle.xfs_journal.specs.Journal.{token_of};
ghost use Rattle.xfs_audit.specs.Claims.{IsIssueAt, IsIssue, IsClaimOf, IsUnspent, HasToken, IsTokenOf, IsUnder, allowed, IsPaidAt, IsOver};

use crate::nonce::nonce_text;
use crate::reader::is_mark;
use std::alloc::Global;
use xfs_base::{Counts, Currency, Memory, UnitTable};
use xfs_journal::{Rec, Text};
use xfs_token::{Amounts, Token, TokenFault, TokenKey, amounts, read};

/// The amounts of a segment's token, and the worth of what was put out in the segment, in the
/// currency of each unit.
#[derive(Drop)]
pub struct Claim {
    pub amounts: Option<Amounts>,
    pub shown: [u128; 8],
}

impl Claim {
    /// The claim of the token that was bound first while this issue lived. None exactly where none
    /// was, or where it is no genuine token with the nonce of the issue.
    pub fn of(
        alloc: Global,
        key: &TokenKey,
        records: &[Rec],
        issue: usize,
    ) -> Result<Option<Claim>, Memory>
        ensures claim { IfOk result (λ claim. IsClaimOf key.now records.now issue claim) }
        ensures fresh { IfOk result IsUnspent }
    {
        let Some((number, word)) = issue_at(records, issue) else {
            return Ok(None);
        };
        let Some(text) = token_of(records, issue) else {
            return Ok(None);
        };
        let Some(token) = token_in(alloc, key, text.bytes(), &nonce_text(number, word))? else {
            return Ok(None);
        };
        Ok(Some(Claim {
            amounts: amounts(&token),
            shown: [0; 8],
        }))
    }

    /// Adds what was put out. False where it is then worth more than the token in some unit's currency.
    pub fn spend(&mut self, units: &UnitTable, moved: &Counts) -> bool
        requires { IsUnder self.old }
        ensures amounts { self.new.amounts ≡ self.old.amounts }
        ensures small { OnTrue result (IsUnder self.new) }
        ensures paid { OnTrue result ((i : ℕ) (k : Kind) → slice_get units.now i ≡ Some k → IsPaidAt units.now moved.now i k self.old self.new) }
        ensures over { OnFalse result (IsOver units.now moved.now self.old) }
    {
        let kinds = units.kinds();
        for i in 0..kinds.len() {
            let currency = kinds[i].currency;
            let worth = self.shown[i] + moved.value(units, currency);
            if worth > u128::from(self.amount_allowed(currency)) {
                return false;
            }
            self.shown[i] = worth;
        }
        true
    }

    // What the token allows in a currency.
    fn amount_allowed(&self, currency: Currency) -> u64
        ensures { result ≡ allowed self.now.amounts currency }
    {
        match &self.amounts {
            Some(amounts) => amounts.of(currency).0,
            None => 0,
        }
    }
}

// The number and the word of the Issue whose record has this number.
fn issue_at(records: &[Rec], number: usize) -> Option<(u64, u64)>
    ensures { IsIssueAt records.now number result }
{
    match records.get(number.checked_sub(1)?)? {
        Rec::Issue { number, word } => Some((*number, *word)),
        _ => None,
    }
}

// The token that was bound first while the issue lived.
fn token_of(records: &[Rec], issue: usize) -> Option<&Text>
    requires { IsIssue records.now issue }
    ensures { option_map (λ t. t.now) result ≡ token_of records.now issue }
{
    for place in issue..records.len() {
        let entry = &records[place];
        if let Rec::Bind { token } = entry {
            return Some(token);
        }
        if is_mark(entry) {
            return None;
        }
    }
    None
}

// The token that a text spells, where it has this nonce and the HMAC of its own bytes.
fn token_in(
    alloc: Global,
    key: &TokenKey,
    text: &[u8],
    nonce: &[u8],
) -> Result<Option<Token>, Memory>
    requires { length text.now ≤ 1024 }
    ensures { IfOk result (λ token. IsTokenOf key.now nonce.now text.now token) }
{
    let token = match read(alloc, text) {
        Ok(token) => token,
        Err(TokenFault::Memory) => return Err(Memory),
        Err(_) => return Ok(None),
    };
    if !carries(key, text, &token, nonce) {
        return Ok(None);
    }
    Ok(Some(token))
}

// Whether a token has this nonce and the HMAC of its own bytes.
fn carries(key: &TokenKey, text: &[u8], token: &Token, nonce: &[u8]) -> bool
    requires { Spells token.now text.now }
    ensures { IsTrue result ↔ HasToken key.now nonce.now text.now token.now }
{
    token.nonce() == nonce && key.is_genuine(text, token)
}

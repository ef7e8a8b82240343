ghost use Rattle.std.specs.Prelude.{◌≡◌, ◌≢◌, ◌≤◌, ◌*◌, ◌∷◌, [], true, false, IfOk, OnOk, IfErr, Err};
ghost use Rattle.std.specs.Str.{IsUtf8};
ghost use Rattle.serde_json.specs.View.{view};
ghost use Rattle.xfs_base.specs.Values.{IsCurrency};
ghost use Rattle.xfs_token.specs.Amounts.{IsMade};
ghost use Rattle.xfs_token.specs.Token.{is_nonce};
ghost use Rattle.xfs_client.specs.Withdrawals.{denomination, dispense_payload};
ghost use Rattle.xfs_client.specs.declared.heard.HearFault.TheVariants as HearFault;

use crate::HearFault;
use serde_json::put;
use std::alloc::Global;
use xfs_base::{Currency, Memory, Milli};
use xfs_json::{Map, Value};
use xfs_token::{Amounts, MakeFault, make};

/// A token for this nonce and for this amount, in whole units of the currency.
pub(crate) fn token_for(
    alloc: Global,
    key: &[u8; 32],
    nonce: &[u8],
    currency: Currency,
    amount: u32,
) -> Result<Vec<u8>, HearFault>
    requires { amount ≤ 1000000 }
    ensures ok { IfOk result (λ t. IsMade key.now nonce.now ((currency, 1000 * amount) ∷ []) t.items) }
    ensures nonce { OnOk result (is_nonce nonce.now ≡ true) }
    ensures err { IfErr result (λ e. e ≢ HearFault.Memory → (e ≡ HearFault.Shape) × (is_nonce nonce.now ≡ false)) }
{
    match make(alloc, key, nonce, &amounts_of(currency, amount)) {
        Ok(token) => Ok(token),
        Err(MakeFault::BadNonce) => Err(HearFault::Shape),
        Err(MakeFault::Memory) => Err(HearFault::Memory),
    }
}

fn amounts_of(currency: Currency, amount: u32) -> Amounts
    requires { amount ≤ 1000000 }
    ensures { result ≡ (currency, 1000 * amount) ∷ [] }
{
    match Amounts::one(currency, Milli(1000 * u64::from(amount))) {
        Some(amounts) => amounts,
        None => unreachable!(),
    }
}

/// The payload of CashDispenser.Dispense: the amount in as few notes as can be, and the token.
pub(crate) fn payload_for(
    alloc: Global,
    currency: Currency,
    amount: u32,
    token: &[u8],
) -> Result<Value, Memory>
    requires { IsUtf8 token.now }
    ensures { IfOk result (λ v. view v ≡ dispense_payload currency amount token.now) }
{
    let mut members = Map::new(alloc);
    put(
        &mut members,
        alloc,
        "denomination",
        denomination(alloc, currency, amount)?,
    )?;
    put(
        &mut members,
        alloc,
        "mix",
        Value::try_from_str(alloc, "minimum")?,
    )?;
    put(
        &mut members,
        alloc,
        "token",
        Value::try_from_str(alloc, text_of(token))?,
    )?;
    Ok(Value::Object(members))
}

fn denomination(alloc: Global, currency: Currency, amount: u32) -> Result<Value, Memory>
    ensures { IfOk result (λ v. view v ≡ denomination currency amount) }
{
    let letters = currency.letters();
    let mut currencies = Map::new(alloc);
    put(
        &mut currencies,
        alloc,
        letters_of(&letters),
        Value::from(amount),
    )?;
    let mut members = Map::new(alloc);
    put(&mut members, alloc, "currencies", Value::Object(currencies))?;
    Ok(Value::Object(members))
}

fn letters_of(letters: &[u8; 3]) -> &str
    requires { IsCurrency letters.now }
    ensures { result.now ≡ letters.now }
{
    match str::from_utf8(letters) {
        Ok(text) => text,
        Err(_) => unreachable!(),
    }
}

fn text_of(bytes: &[u8]) -> &str
    requires { IsUtf8 bytes.now }
    ensures { result.now ≡ bytes.now }
{
    match str::from_utf8(bytes) {
        Ok(text) => text,
        Err(_) => unreachable!(),
    }
}

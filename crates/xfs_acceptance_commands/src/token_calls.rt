use std::alloc::Global;
use std::process::Abort;
use std::test::Fail;
use xfs_base::{Currency, Milli};
use xfs_hmac::mac;
use xfs_token::{Amounts, MakeFault, Token, genuine, make, read, read_amount, write};

const NONCE: &[u8; 32] = b"254611E63B2531576314E86527338D61";

const TEXT: &[u8; 164] =
    b"NONCE=254611E63B2531576314E86527338D61,TOKENFORMAT=1,TOKENLENGTH=0164,DISPENSE1=50.00EUR,HMACSHA256=0000000000000000000000000000000000000000000000000000000000000000";

// A key and a value, and why they are not added.
const REFUSED: &str = "1KEY=1 => BadKey
NONCE=1 => BadKey
abc= => BadKey
KEY= => BadValue
KEY=a=b => BadValue";

// Whether the pair of a row is refused for what the row says.
fn is_refused(alloc: Global, token: &mut Token, row: &str) -> Option<bool> {
    let (pair, due) = row.split_once(" => ")?;
    let (key, value) = pair.split_once("=")?;
    let fault = token.add(key.as_bytes(), value.as_bytes()).err()?;
    let told = format!(in alloc; "{fault:?}").ok()?;
    Some(told.as_str() == due)
}

fn refuse(rt: &impl Abort, alloc: Global, token: &mut Token) {
    for row in REFUSED.lines() {
        assert!(rt; is_refused(alloc, token, row) == Some(true), "{row}");
    }
}

// Whether a token is that of the text.
fn is_of_text(token: &Token) -> bool {
    token.len() == 1
        && token.key(0) == b"DISPENSE1".as_slice()
        && token.value(0) == b"50.00EUR".as_slice()
        && token.nonce() == NONCE.as_slice()
        && token.mac() == [0; 32]
}

// Whether an amount is added, and once alone.
fn takes_one_amount(token: &mut Token) -> bool {
    token.add(b"DISPENSE1", b"50.00EUR").is_ok() && token.add(b"DISPENSE1", b"1.00EUR").is_err()
}

fn is_written(alloc: Global, token: &Token) -> Result<bool, Fail> {
    let text = write(alloc, token)?;
    Ok(is_of_text(token) && text.as_slice() == TEXT.as_slice())
}

fn is_read_back(alloc: Global) -> Result<bool, Fail> {
    let token = read(alloc, TEXT)?;
    Ok(is_of_text(&token))
}

fn is_built(rt: &impl Abort, alloc: Global, token: &mut Token) -> Result<bool, Fail> {
    refuse(rt, alloc, token);
    Ok(takes_one_amount(token) && is_written(alloc, token)?)
}

#[test]
fn a_token_is_built_written_and_read_back(rt: HostRuntime) -> Result<(), Fail> {
    assert!(rt; Token::begin(rt.alloc(), b"").is_err() && is_read_back(rt.alloc())?);
    let mut token = Token::begin(rt.alloc(), NONCE)?;
    assert!(rt; is_built(&rt, rt.alloc(), &mut token)?);
    Ok(())
}

#[test]
fn a_token_is_genuine_under_its_key_alone(rt: HostRuntime) -> Result<(), Fail> {
    let alloc = rt.alloc();
    let mut token = read(alloc, TEXT)?;
    assert!(rt; !genuine(&[0x0b; 32], TEXT, &token));
    token.set_mac(mac(&[0x0b; 32], &TEXT[..88]));
    let signed = write(alloc, &token)?;
    assert!(rt; genuine(&[0x0b; 32], &signed, &token));
    assert!(rt; !genuine(&[0x0c; 32], &signed, &token));
    Ok(())
}

#[test]
fn amounts_are_of_different_currencies_and_within_their_limit(rt: HostRuntime) -> Result<(), Fail> {
    let euro = Currency::new(b"EUR").ok_or("EUR")?;
    let pound = Currency::new(b"GBP").ok_or("GBP")?;
    assert!(rt; Amounts::one(euro, Milli(1_000_000_000_000)).is_none());
    let mut amounts = Amounts::one(euro, Milli(999_999_999_999)).ok_or("greatest")?;
    assert!(rt; !amounts.add(euro, Milli(1)) && !amounts.add(pound, Milli(1_000_000_000_000)));
    assert!(rt; amounts.add(pound, Milli(0)) && amounts.len() == 2);
    assert!(rt; amounts.of(euro) == Milli(999_999_999_999) && amounts.of(pound) == Milli(0));
    Ok(())
}

#[test]
fn no_bytes_are_no_amount_and_small_digits_no_nonce(rt: HostRuntime) -> Result<(), Fail> {
    let euro = Currency::new(b"EUR").ok_or("EUR")?;
    let amounts = Amounts::one(euro, Milli(1500)).ok_or("1.5")?;
    let made = make(rt.alloc(), &[0x0b; 32], b"e56a", &amounts);
    assert!(rt; read_amount(b"").is_none() && made == Err(MakeFault::BadNonce));
    Ok(())
}

//! What a host is asked and tells that no line says. What it answers to lines is shown by cases (xfs_scripts, `host.cases`).

use std::alloc::Global;
use std::test::Fail;
use xfs_base::{Currency, Milli};
use xfs_host::{Ask, AskFault, Host};

fn fault_of(alloc: Global, nonce: &[u8], currency: Currency, amount: u64) -> Option<AskFault> {
    Ask::new(alloc, 6, 7, nonce, currency, Milli(amount)).err()
}

#[test]
fn an_ask_has_a_nonce_of_digits_and_an_amount_within_the_limit(
    rt: HostRuntime,
) -> Result<(), Fail> {
    let euro = Currency::new(b"EUR").ok_or("letters")?;
    assert!(rt; fault_of(rt.alloc(), b"a1", euro, 1_000) == Some(AskFault::BadNonce));
    assert!(rt; fault_of(rt.alloc(), b"A3", euro, 1_000_000_000_000) == Some(AskFault::BadAmount));
    assert!(rt; fault_of(rt.alloc(), b"A3", euro, 999_999_999_999) == None);
    Ok(())
}

#[test]
fn a_host_tells_its_accounts(rt: HostRuntime) -> Result<(), Fail> {
    let euro = Currency::new(b"EUR").ok_or("letters")?;
    let mut host = Host::new(rt.alloc(), [0x11; 32]);
    host.open_account(7, euro, Milli(40_000))?;
    assert!(rt; host.len() == 1 && host.account(0) == (7, euro, Milli(40_000)));
    assert!(rt; host.balance(7) == Some(Milli(40_000)) && host.balance(9) == None);
    Ok(())
}

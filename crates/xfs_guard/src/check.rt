//! Whether a token serves the live nonce, and whether it covers a dispense.

ghost use Rattle.std.specs.Prelude.{◌≡◌, ◌≤◌, ◌-◌, length, take, sum, true, IfOk, IfErr, OnOk, Some, None, [], ◌∷◌, ◌++◌};
ghost use Rattle.std.specs.Option.{option_map};
ghost use Rattle.xfs_hmac.specs.Hmac.{hmac};
ghost use Rattle.xfs_token.specs.Token.{Spells};
ghost use Rattle.xfs_token.specs.Amounts.{amounts_of};
ghost use Rattle.xfs_token.specs.declared.text.TheConstants.{MAC_FIELD};
ghost use Rattle.xfs_journal.specs.declared.record.Rec.TheVariants.{Bind};
ghost use Rattle.xfs_guard.specs.declared.open.Open.TheVariants.{No};
ghost use Rattle.xfs_guard.specs.Nonce.{live_nonce};
ghost use Rattle.xfs_guard.specs.Calls.{BindsOnce, WritesRecord};
ghost use Rattle.xfs_guard.specs.Fits.{unfit};
ghost use Rattle.xfs_guard.specs.LedgerView.{IsWriteFault};
ghost use Rattle.xfs_guard.specs.Refusals.{Answers, Passes, TokenRefused, Binds, claim_refusal, bind_refusal, bound_token, over_budget};

use crate::budget::over_budget;
use crate::{Claim, Deny, Guard, Permit};
use std::alloc::{AllocError, Global};
use xfs_base::Counts;
use xfs_disk::Disk;
use xfs_journal::Text;
use xfs_mech::Mechanism;
use xfs_token::{Amounts, MAC_FIELD, Token, TokenKey, amounts, read};

impl<M: Mechanism, D: Disk> Guard<M, D> {
    /// Looks at a token's bytes: whether the journal takes more records, and whether they spell a token
    /// that carries the live nonce and the HMAC of its bytes under the key, that has amounts, and that
    /// is bound or may be. It changes nothing.
    pub fn check(&self, token: &[u8]) -> Result<Claim, Deny>
        ensures ok { IfOk result (λ c. Passes self.now.state c.token c.amounts) }
        ensures token { IfOk result (λ c. c.token ≡ token.now) }
        ensures refused { IfErr result (TokenRefused self.now.state token.now) }
    {
        if let Some(deny) = self.unfit() {
            return Err(deny);
        }
        let parts = match read(self.alloc, token) {
            Ok(parts) => parts,
            Err(fault) => return Err(Deny::from(fault)),
        };
        let amounts = match self.admits(token, &parts) {
            Ok(amounts) => amounts,
            Err(deny) => return Err(deny),
        };
        match text_of(self.alloc, token) {
            Ok(token) => Ok(Claim { token, amounts }),
            Err(_) => Err(Deny::Memory),
        }
    }

    // The amounts of a token that passes every check.
    fn admits(&self, bytes: &[u8], token: &Token) -> Result<Amounts, Deny>
        requires spelled { Spells token.now bytes.now }
        requires fit { unfit self.now.state ≡ None }
        ensures ok { IfOk result (λ a. (claim_refusal self.now.state bytes.now token.now ≡ None) × (amounts_of token.now ≡ Some a)) }
        ensures err { IfErr result (λ e. claim_refusal self.now.state bytes.now token.now ≡ Some e) }
    {
        let since = self.ledger.mark();
        let Some(nonce) = self.ledger.live() else {
            return Err(Deny::NoNonce { since });
        };
        if token.nonce() != nonce.text.as_slice() {
            return Err(Deny::WrongNonce { since });
        }
        let due = due(&self.key, bytes);
        if token.mac() != due {
            return Err(Deny::WrongMac { due });
        }
        let Some(amounts) = amounts(token) else {
            return Err(Deny::NoAmounts);
        };
        match self.bindable(bytes) {
            Some(deny) => Err(deny),
            None => Ok(amounts),
        }
    }

    // Why these bytes are not bound and may not be.
    fn bindable(&self, bytes: &[u8]) -> Option<Deny>
        requires { unfit self.now.state ≡ None }
        ensures { result ≡ bind_refusal self.now.state bytes.now (bound_token self.now.state.records) }
    {
        match self.ledger.token() {
            Some(bound) if bound.bytes() == bytes => None,
            Some(_) => Some(Deny::OtherBound {
                since: self.ledger.bind_number().unwrap_or(0),
            }),
            None => {
                let notes = self.mech.survey().transport.notes();
                if notes == 0 {
                    None
                } else {
                    Some(Deny::NotEmpty { notes })
                }
            }
        }
    }

    /// Allows these notes on a claim, where its amounts cover them beside what was presented and
    /// what lies on the transport. The first time it binds the token to the live nonce. After `Disk`
    /// the journal is shut.
    pub fn allow(&mut self, claim: Claim, counts: &Counts) -> Result<Permit, Deny>
        requires none { self.old.state.open_order ≡ No }
        requires passes { Passes self.old.state claim.token claim.amounts }
        ensures refused { Answers result (over_budget self.old.state claim.amounts counts.now) }
        ensures issue { IfOk result (λ p. option_map (λ n. n.number) (live_nonce self.old.state.records) ≡ Some p.issue) }
        ensures ok { OnOk result (Binds self.old.state self.new.state claim.token claim.amounts) }
        ensures once { BindsOnce result self.old self.new }
        ensures writes { WritesRecord D.Disk (Bind claim.token) result self.old self.new }
    {
        let Some(nonce) = self.ledger.live() else {
            unreachable!()
        };
        let transport = self.mech.survey().transport;
        if let Some(deny) = over_budget(&self.ledger, &transport, &claim.amounts, counts) {
            return Err(deny);
        }
        self.bind_once(claim)?;
        Ok(Permit {
            issue: nonce.number,
        })
    }

    // Binds the token of a claim, where none is bound.
    fn bind_once(&mut self, claim: Claim) -> Result<(), Deny>
        requires none { self.old.state.open_order ≡ No }
        requires passes { Passes self.old.state claim.token claim.amounts }
        ensures ok { OnOk result (Binds self.old.state self.new.state claim.token claim.amounts) }
        ensures err { IfErr result IsWriteFault }
        ensures once { BindsOnce result self.old self.new }
        ensures writes { WritesRecord D.Disk (Bind claim.token) result self.old self.new }
    {
        if self.ledger.token().is_some() {
            return Ok(());
        }
        let Claim { token, amounts } = claim;
        self.ledger.bind(token, amounts)?;
        Ok(())
    }
}

// A copy of a token's text.
fn text_of(alloc: Global, bytes: &[u8]) -> Result<Text, AllocError>
    requires low { 1 ≤ length bytes.now }
    requires high { length bytes.now ≤ 1024 }
    ensures { IfOk result (λ t. t ≡ bytes.now) }
{
    let mut list = Vec::new(alloc);
    list.extend_from_slice(bytes)?;
    match Text::new(list) {
        Some(text) => Ok(text),
        None => unreachable!(),
    }
}

// The HMAC that is due: that of all but the last field of the token's text.
fn due(key: &TokenKey, bytes: &[u8]) -> [u8; 32]
    requires { MAC_FIELD ≤ length bytes.now }
    ensures { result ≡ hmac key.now (take (length bytes.now - MAC_FIELD) bytes.now) }
{
    let (prefix, _) = bytes.split_at(bytes.len() - MAC_FIELD);
    key.mac(prefix)
}

ghost use Rattle.std.specs.Prelude.{◌≡◌, codes, IfOk, IsTrue};
ghost use Rattle.std.specs.List.{list_all};
ghost use Rattle.std.specs.Str.{IsUtf8};
ghost use Rattle.serde_json.specs.Data.{object, member, no_members};
ghost use Rattle.serde_json.specs.View.{view};
ghost use Rattle.serde_json.specs.Written.{compact_text};
ghost use Rattle.xfs_common.specs.Payloads.{status_payload, capabilities_payload, dispenser_security, services_payload, service_entry, is_upper_hex, nonce_payload, present_status_payload, record_payload, error_payload};

use crate::address::uri;
use serde_json::{Value, json, put};
use std::alloc::{AllocError, Global};
use xfs_base::{Memory, Service};
use xfs_json::Map;

/// What Common.Status tells of a device.
#[derive(Clone, Copy, Debug, PartialEq, Eq)]
pub enum Fit2 {
    /// It serves.
    Online,
    /// The dispenser's journal is shut or full: nothing is paid out before a Reset.
    HardwareError,
}

/// The payload where nothing is said, `{}`. It takes no memory.
pub fn nothing(alloc: Global) -> Value
    ensures { view result ≡ object no_members }
{
    Value::Object(Map::new(alloc))
}

/// The payload of Common.Status, as its compact text. Only the dispenser's device can have another state than online.
#[tactic(auto, unfolding(serde_json::proofs::OnLiterals::serde_json_on_literals))]
pub fn status_text(service: Service, fit: Fit2) -> &'static str
    ensures { result.now ≡ compact_text (status_payload service fit) }
{
    match (service, fit) {
        (Service::Cash, Fit2::HardwareError) => "{\"common\":{\"device\":\"hardwareError\"}}",
        _ => "{\"common\":{\"device\":\"online\"}}",
    }
}

/// The payload of Common.Capabilities: the dispenser's Dispense always needs a token.
pub fn capabilities(alloc: Global, service: Service) -> Result<Value, Memory>
    ensures { IfOk result (λ v. view v ≡ capabilities_payload service) }
{
    let told = match service {
        Service::Cash => security(alloc)?,
        _ => nothing(alloc),
    };
    Ok(common(alloc, told)?)
}

fn security(alloc: Global) -> Result<Value, AllocError>
    ensures { IfOk result (λ v. view v ≡ dispenser_security) }
{
    let commands = json!(in alloc; ["CashDispenser.Dispense"])?;
    let required = Value::try_from_str(alloc, "always")?;
    let mut members = Map::new(alloc);
    put(&mut members, alloc, "commands", commands)?;
    put(&mut members, alloc, "required", required)?;
    let mut told = Map::new(alloc);
    put(&mut told, alloc, "endToEndSecurity", Value::Object(members))?;
    Ok(Value::Object(told))
}

fn common(alloc: Global, told: Value) -> Result<Value, AllocError>
    ensures { IfOk result (λ v. view v ≡ object (member (codes "common") (view told) no_members)) }
{
    let mut members = Map::new(alloc);
    put(&mut members, alloc, "common", told)?;
    Ok(Value::Object(members))
}

/// The payload of ServicePublisher.GetServices: where the three services are reached.
pub fn services(alloc: Global) -> Result<Value, Memory>
    ensures { IfOk result (λ v. view v ≡ services_payload) }
{
    let vendor = Value::try_from_str(alloc, "xfs bench")?;
    let mut services = Vec::with_capacity(alloc, 3)?;
    services.push(entry(alloc, Service::Card)?)?;
    services.push(entry(alloc, Service::Keys)?)?;
    services.push(entry(alloc, Service::Cash)?)?;
    let mut members = Map::new(alloc);
    put(&mut members, alloc, "services", Value::Array(services))?;
    put(&mut members, alloc, "vendorName", vendor)?;
    Ok(Value::Object(members))
}

fn entry(alloc: Global, service: Service) -> Result<Value, AllocError>
    ensures { IfOk result (λ v. view v ≡ service_entry service) }
{
    let uri = uri(alloc, service)?;
    json!(in alloc; {"serviceURI": uri.as_str()})
}

/// The payload of Common.GetCommandNonce: the nonce's text, which is of the digits 0 to 9 and A to F.
pub fn nonce(alloc: Global, text: &[u8; 32]) -> Result<Value, Memory>
    requires digits { IsTrue (list_all is_upper_hex text.now) }
    ensures { IfOk result (λ v. view v ≡ nonce_payload text.now) }
{
    let text = digits(text);
    Ok(json!(in alloc; {"commandNonce": text})?)
}

fn digits(text: &[u8; 32]) -> &str
    requires { IsTrue (list_all is_upper_hex text.now) }
    ensures { result.now ≡ text.now }
{
    match str::from_utf8(text) {
        Ok(text) => text,
        Err(_) => unreachable!(),
    }
}

/// The payload of CashDispenser.GetPresentStatus: the token that tells what was presented.
pub fn present_status(alloc: Global, token: &[u8]) -> Result<Value, Memory>
    requires { IsUtf8 token.now }
    ensures { IfOk result (λ v. view v ≡ present_status_payload token.now) }
{
    let status = json!(in alloc; {"token": text_of(token)})?;
    let mut members = Map::new(alloc);
    put(&mut members, alloc, "presentStatus", status)?;
    Ok(Value::Object(members))
}

fn text_of(bytes: &[u8]) -> &str
    requires { IsUtf8 bytes.now }
    ensures { result.now ≡ bytes.now }
{
    match str::from_utf8(bytes) {
        Ok(text) => text,
        Err(_) => unreachable!(),
    }
}

/// The payload of a refusal that a record of the journal explains: the number of that record.
pub fn record_note(alloc: Global, since: u64) -> Result<Value, Memory>
    ensures { IfOk result (λ v. view v ≡ record_payload since) }
{
    Ok(json!(in alloc; {"journalRecord": since})?)
}

/// The payload of the completion code `commandErrorCode`: an error's text.
pub fn error_code(alloc: Global, code: &str) -> Result<Value, Memory>
    ensures { IfOk result (λ v. view v ≡ error_payload code.now) }
{
    Ok(json!(in alloc; {"errorCode": code})?)
}

ghost use Rattle.std.specs.Prelude.{◌≡◌, ◌++◌, List, ℕ, codes, IfSome, IfNone};
ghost use Rattle.xfs_base.specs.declared.moment.Service as logic;
ghost use Rattle.xfs_mech.specs.Keys.{name_of};
ghost use Rattle.xfs_mech.specs.declared.key.KeyName as keys;
ghost use Rattle.xfs_script.specs.ReplayLines.{IsClient, IsJoin, IsLeave, IsSay, IsMoment, IsWork, service_word};

use crate::number::read_number;
use crate::word::{cut, field_of, is_word, three_fields};
use std::str;
use xfs_base::{Moment, Service};
use xfs_mech::KeyName;

/// The greatest number of a script's client.
const LAST_CLIENT: u64 = 999;
/// The greatest moment that there is.
const GREATEST: u64 = 9_223_372_036_854_775_807;

pub(crate) fn read_join(text: &[u8]) -> Option<(u32, Service)>
    ensures found { IfSome result (λ j. IsJoin text.now j.0 j.1) }
    ensures none { IfNone result ((client : ℕ) (service : logic.Service) → ¬ IsJoin text.now client service) }
{
    let (verb, digits, name) = three_fields(text)?;
    if !is_word(verb, b"join") {
        return None;
    }
    let client = read_client(digits)?;
    let service = read_service(name)?;
    Some((client, service))
}

pub(crate) fn read_leave(text: &[u8]) -> Option<u32>
    ensures found { IfSome result (IsLeave text.now) }
    ensures none { IfNone result ((client : ℕ) → ¬ IsLeave text.now client) }
{
    let field = field_of(text, b"leave ")?;
    read_client(field)
}

// The client and the message of a `say` line.
pub(crate) fn read_say(text: &[u8]) -> Option<(u32, &[u8])>
    ensures found { IfSome result (λ s. IsSay text.now s.0 s.1.now) }
    ensures none { IfNone result ((client : ℕ) (message : List ℕ) → ¬ IsSay text.now client message) }
{
    let field = field_of(text, b"say ")?;
    let (digits, message) = cut(field, b' ');
    let message = message?;
    let client = read_client(digits)?;
    Some((client, message))
}

pub(crate) fn read_moment(text: &[u8]) -> Option<Moment>
    ensures found { IfSome result (λ m. IsMoment text.now m.0) }
    ensures none { IfNone result ((moment : ℕ) → ¬ IsMoment text.now moment) }
{
    let field = field_of(text, b"moment ")?;
    let moment = read_number(field, GREATEST)?;
    Some(Moment(moment))
}

pub(crate) fn read_work(text: &[u8]) -> Option<Service>
    ensures found { IfSome result (IsWork text.now) }
    ensures none { IfNone result ((service : logic.Service) → ¬ IsWork text.now service) }
{
    let field = field_of(text, b"work ")?;
    match read_service(field)? {
        Service::Publisher => None,
        service => Some(service),
    }
}

pub(crate) fn read_key(text: &[u8]) -> Option<KeyName>
    ensures found { IfSome result (λ key. text.now ≡ codes "key " ++ name_of key) }
    ensures none { IfNone result ((key : keys.KeyName) → ¬ (text.now ≡ codes "key " ++ name_of key)) }
{
    let field = field_of(text, b"key ")?;
    match str::from_utf8(field) {
        Ok(name) => KeyName::named(name),
        Err(_) => None,
    }
}

fn read_client(field: &[u8]) -> Option<u32>
    ensures found { IfSome result (IsClient field.now) }
    ensures none { IfNone result ((client : ℕ) → ¬ IsClient field.now client) }
{
    let client = read_number(field, LAST_CLIENT)?;
    if client == 0 {
        return None;
    }
    Some(client as u32)
}

fn read_service(field: &[u8]) -> Option<Service>
    ensures found { IfSome result (λ service. field.now ≡ service_word service) }
    ensures none { IfNone result ((service : logic.Service) → ¬ (field.now ≡ service_word service)) }
{
    if is_word(field, b"publisher") {
        return Some(Service::Publisher);
    }
    if is_word(field, b"card") {
        return Some(Service::Card);
    }
    if is_word(field, b"keys") {
        return Some(Service::Keys);
    }
    if is_word(field, b"cash") {
        return Some(Service::Cash);
    }
    None
}

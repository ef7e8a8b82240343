//! Steps of the card slot and of the key pad that the machine never takes, since it begins one command at a time and
//! stops one that waits alone.

use crate::tables::halves;
use std::alloc::Global;
use std::test::Fail;
use xfs_card::{CardAsk, CardEffect, CardEvent, CardState, step};
use xfs_keyboard::{KeyEffect, KeyEvent, KeySet, KeyState, step as press};
use xfs_mech::{KeyName, Tracks};

// Events, and the last one's effect with the place of the card then.
const STEPS: &str = "stop => nothing, empty
inserted stop => nothing, inside
inserted move stop => nothing, at the exit
read read => insert a card, awaited
read move => commandErrorCode {\"errorCode\":\"noMedia\"}, awaited
read reset => success {}, awaited
stop inserted => nothing, inside";

fn event(alloc: Global, name: &str) -> Result<CardEvent, Fail> {
    Ok(match name {
        "read" => CardEvent::Begin(CardAsk::Read {
            tracks: [false, true, false],
        }),
        "move" => CardEvent::Begin(CardAsk::Move),
        "reset" => CardEvent::Begin(CardAsk::Reset),
        "inserted" => {
            let two = b";1234".to_vec(alloc)?;
            CardEvent::Inserted(Tracks::new(None, Some(two), None).ok_or("tracks")?)
        }
        _ => CardEvent::Stop,
    })
}

fn told(alloc: Global, effect: &CardEffect) -> Result<String, Fail> {
    Ok(match effect {
        CardEffect::Nothing => String::from_str(alloc, "nothing")?,
        CardEffect::AskInsert => String::from_str(alloc, "insert a card")?,
        CardEffect::Done(code, payload) => {
            format!(in alloc; "{} {}", code.text(), payload.to_string(alloc)?)?
        }
        _ => return Err("an effect of no such step".into()),
    })
}

// Where the card is, for which a reset is begun where it is not at the exit.
fn place(alloc: Global, state: &mut CardState) -> Result<&'static str, Fail> {
    if state.awaits_card() {
        return Ok("awaited");
    }
    if state.at_exit() {
        return Ok("at the exit");
    }
    let _effect = step(alloc, state, event(alloc, "reset")?)?;
    Ok(if state.at_exit() { "inside" } else { "empty" })
}

fn stepped(alloc: Global, events: &str) -> Result<String, Fail> {
    let mut state = CardState::new();
    let effect = last_effect(alloc, &mut state, events)?;
    let place = place(alloc, &mut state)?;
    Ok(format!(in alloc; "{effect}, {place}")?)
}

// Whether a row's events end as the row says.
fn is_stepped(alloc: Global, row: &str) -> Result<bool, Fail> {
    let (events, due) = halves(row);
    Ok(stepped(alloc, events)?.as_str() == due)
}

fn last_effect(alloc: Global, state: &mut CardState, events: &str) -> Result<String, Fail> {
    let mut effect = String::new(alloc);
    for name in events.split(' ') {
        effect = effect_of(alloc, state, name)?;
    }
    Ok(effect)
}

fn effect_of(alloc: Global, state: &mut CardState, name: &str) -> Result<String, Fail> {
    let event = event(alloc, name)?;
    let effect = step(alloc, state, event)?;
    told(alloc, &effect)
}

#[test]
fn steps_that_the_machine_never_takes(rt: HostRuntime) -> Result<(), Fail> {
    for row in STEPS.lines() {
        assert!(rt; is_stepped(rt.alloc(), row)?, "{row}");
    }
    Ok(())
}

#[test]
fn a_key_pad_that_waits_for_nothing_is_stopped(rt: HostRuntime) -> Result<(), Fail> {
    let mut pad = KeyState::new();
    let stopped = press(rt.alloc(), &mut pad, KeyEvent::Stop)?;
    assert!(rt; matches!(stopped, KeyEffect::Nothing) && !pad.active());
    Ok(())
}

#[test]
fn sets_of_keys(rt: HostRuntime) {
    let set = KeySet::none().with(KeyName::Backspace).with(KeyName::Zero);
    assert!(rt; set.has(KeyName::Backspace) && set.has(KeyName::Zero));
    assert!(rt; !set.has(KeyName::One) && !KeySet::none().has(KeyName::Zero));
}

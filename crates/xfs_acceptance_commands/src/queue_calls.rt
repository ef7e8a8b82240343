use std::alloc::AllocError;
use std::test::Fail;
use xfs_base::{ClientId, Moment, Numbers};
use xfs_queue::{Ids, Line, OfferFault, Queue, Ticket};

const GREATEST: u64 = 9_223_372_036_854_775_807;

fn ticket(client: u32, id: u64) -> Ticket {
    Ticket {
        client: ClientId(client),
        id,
    }
}

fn offer(queue: &mut Queue<u64>, client: u32, id: u64, timeout: u32) -> Option<OfferFault> {
    let client = ClientId(client);
    match queue.offer(client, id, Line::Device, timeout, Moment(0), id) {
        Ok(()) => None,
        Err((_, fault)) => Some(fault),
    }
}

// Does the first waiting command of the device line.
fn do_first(queue: &mut Queue<u64>) -> Option<u64> {
    if queue.running().is_some() {
        return None;
    }
    let first = queue.next(Line::Device)?;
    queue.start(first);
    let running = queue.running()?;
    let job = queue.job(running);
    *job = job.wrapping_add(1000);
    queue.finish(queue.running()?);
    let ready = queue.ready()?;
    Some(queue.remove(ready).job)
}

fn earliest(queue: &Queue<u64>) -> Option<Moment> {
    queue.earliest()
}

fn expired(queue: &mut Queue<u64>, now: u32) -> Option<Ticket> {
    queue.expire(Moment(u64::from(now)))
}

fn takes_three(queue: &mut Queue<u64>) -> bool {
    offer(queue, 1, 1, 300).is_none()
        && offer(queue, 1, 2, 100).is_none()
        && offer(queue, 1, 3, 0).is_none()
}

// Whether the second is due at its deadline and not before, and the third, which has none, never.
fn are_due_in_time(queue: &Queue<u64>) -> bool {
    queue.due(ticket(1, 2), Moment(100))
        && !queue.due(ticket(1, 2), Moment(99))
        && !queue.due(ticket(1, 3), Moment(GREATEST))
}

#[test]
fn the_least_deadline_comes_first(rt: HostRuntime) {
    let mut queue = Queue::new(rt.alloc());
    assert!(rt; earliest(&queue).is_none() && takes_three(&mut queue));
    assert!(rt; earliest(&queue) == Some(Moment(100)));
    for (now, first) in [(99, None), (100, Some(2)), (299, Some(2)), (300, Some(1))] {
        let due = first.map(|id| ticket(1, id));
        assert!(rt; expired(&mut queue, now) == due, "at {now}");
    }
    assert!(rt; are_due_in_time(&queue));
    assert!(rt; do_first(&mut queue) == Some(1001) && earliest(&queue) == Some(Moment(100)));
}

#[test]
fn a_client_has_32_commands_and_a_service_256(rt: HostRuntime) {
    let mut queue = Queue::new(rt.alloc());
    for client in 1..=8 {
        for id in 1..=32 {
            assert!(rt; offer(&mut queue, client, id, 5) == None, "{client} {id}");
        }
        assert!(rt; offer(&mut queue, client, 33, 5) == Some(OfferFault::TooMany));
        assert!(rt; offer(&mut queue, client, 32, 5) == Some(OfferFault::Busy));
    }
    assert!(rt; queue.commands().len() == 256);
    assert!(rt; offer(&mut queue, 9, 1, 5) == Some(OfferFault::TooMany));
    assert!(rt; do_first(&mut queue) == Some(1001));
    assert!(rt; offer(&mut queue, 1, 1, 5) == None);
    assert!(rt; queue.next(Line::Device) == Some(ticket(1, 2)));
}

#[test]
fn a_deadline_past_the_greatest_moment_never_comes(rt: HostRuntime) {
    let mut queue = Queue::new(rt.alloc());
    let last = Moment(GREATEST);
    let taken = queue.offer(ClientId(1), 1, Line::Device, u32::MAX, last, 0u64);
    assert!(rt; taken.is_ok());
    assert!(rt; queue.expire(last) == None);
    assert!(rt; queue.earliest() == Some(Moment(9_223_372_041_149_743_102)));
}

fn takes_four(queue: &mut Queue<u64>) -> bool {
    let mut takes = true;
    for (client, id) in [(1, 1), (1, 2), (2, 1), (1, 3)] {
        takes = offer(queue, client, id, 7).is_none() && takes;
    }
    takes
}

// Whether each client's cancel touches a command of its own.
fn cancels_its_own(queue: &mut Queue<u64>, ids: &Ids) -> bool {
    queue.cancel(ClientId(1), ids) == 1
        && queue.stopped() == Some(ticket(1, 2))
        && queue.cancel(ClientId(2), &Ids::All) == 1
        && queue.is_marked(ticket(2, 1))
        && !queue.is_marked(ticket(1, 1))
}

fn start_first(queue: &mut Queue<u64>) {
    if let Some(first) = queue.next(Line::Device)
        && queue.running().is_none()
    {
        queue.start(first);
    }
}

// Whether the running command of a client that leaves is marked, and the others' stay.
fn loses_the_first(queue: &mut Queue<u64>) -> bool {
    queue.drop_client(ClientId(1));
    queue.running() == Some(ticket(1, 1))
        && queue.is_marked(ticket(1, 1))
        && queue.holds(ClientId(2), 1)
}

// The job of the running command was 1.
fn sets_its_job(queue: &mut Queue<u64>) -> bool {
    match queue.running() {
        Some(running) => queue.set_job(running, 8) == 1,
        None => false,
    }
}

#[test]
fn cancel_and_a_leaving_client_touch_their_own_alone(rt: HostRuntime) -> Result<(), AllocError> {
    let ids = Vec::from_slice(rt.alloc(), &[2, 9])?;
    let ids = Ids::These(Numbers::new(ids));
    let mut queue = Queue::new(rt.alloc());
    assert!(rt; takes_four(&mut queue) && cancels_its_own(&mut queue, &ids));
    start_first(&mut queue);
    assert!(rt; loses_the_first(&mut queue) && sets_its_job(&mut queue));
    assert!(rt; queue.commands().len() == 2 && queue.next(Line::Nonce).is_none());
    Ok(())
}

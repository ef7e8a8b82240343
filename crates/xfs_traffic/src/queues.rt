ghost use Rattle.std.specs.Prelude.{◌≡◌, ◌≤◌, None, OnOk, OnErr};
ghost use Rattle.std.specs.Borrow.{sem};
ghost use Rattle.xfs_base.specs.declared.moment.TheConstants.{LAST_MOMENT};
ghost use Rattle.xfs_traffic.specs.Jobs.{changed_at, with_last};
ghost use Rattle.xfs_traffic.specs.Lending.{LendsQueue};
ghost use Rattle.xfs_model.specs.Immediate.{stopped};
ghost use Rattle.xfs_model.specs.Results.{plain, with_result, with_plan, running};
ghost use Rattle.xfs_model.specs.State.{queue_of, with_queue, no_commands};
ghost use Rattle.xfs_queue.specs.Queue.{IsPending, IsWaiting, without, without_client, offer_fault, offered};

use crate::job::{Job, Outcome};
use std::alloc::Global;
use std::marker::Model;
use xfs_base::{ClientId, Memory, Moment, Service};
use xfs_common::nothing;
use xfs_dispenser::Plan;
use xfs_envelope::Code;
use xfs_queue::{Ids, Line, OfferFault, Pending, Queue, Ticket};

/// The pending commands of each service, in order of arrival.
#[derive(Drop)]
pub struct Queues {
    publisher: Queue<Job>,
    card: Queue<Job>,
    keys: Queue<Job>,
    cash: Queue<Job>,
}

impl Model for Queues {
    ghost use Rattle.xfs_model.specs.State.{Queues as QueuesView};
    ghost use Rattle.std.specs.Coded.{codes};
    ghost use Rattle.xfs_traffic.specs.DataCodes.{data_code};

    ghost Value = { QueuesView };

    ghost coded = { Prim.hlevel (codes, data_code) };

    ghost view = { λ q. record { publisher = q.publisher; card = q.card; keys = q.keys; cash = q.cash } };
}

impl Queues {
    pub fn new(alloc: Global) -> Queues
        ensures { result ≡ no_commands }
    {
        Queues {
            publisher: Queue::new(alloc),
            card: Queue::new(alloc),
            keys: Queue::new(alloc),
            cash: Queue::new(alloc),
        }
    }

    /// The pending commands of a service.
    pub fn at(&self, service: Service) -> &Queue<Job>
        ensures { result.now ≡ queue_of self.now service }
    {
        match service {
            Service::Publisher => &self.publisher,
            Service::Card => &self.card,
            Service::Keys => &self.keys,
            Service::Cash => &self.cash,
        }
    }

    /// The pending commands of a service, for writing.
    pub fn at_mut(&mut self, service: Service) -> &mut Queue<Job>
        ensures* writes_back { sem 𝓛 (LendsQueue self.entry service result) }
        ensures now { result.now ≡ queue_of self.old service }
    {
        match service {
            Service::Publisher => &mut self.publisher,
            Service::Card => &mut self.card,
            Service::Keys => &mut self.keys,
            Service::Cash => &mut self.cash,
        }
    }

    // Takes a command in. It alone takes memory here.
    pub(crate) fn offer(
        &mut self,
        service: Service,
        ticket: Ticket,
        line: Line,
        timeout: u32,
        now: Moment,
        job: Job,
    ) -> Result<(), Memory>
        requires moment { now.0 ≤ LAST_MOMENT }
        requires free { offer_fault (queue_of self.old service) ticket.client ticket.id ≡ None }
        ensures ok { OnOk result (self.new ≡ with_last self.old service (offered ticket.client ticket.id line timeout now job)) }
        ensures err { OnErr result (self.new ≡ self.old) }
    {
        match self
            .at_mut(service)
            .offer(ticket.client, ticket.id, line, timeout, now, job)
        {
            Ok(()) => Ok(()),
            Err((_, OfferFault::Memory)) => Err(Memory),
            Err(_) => unreachable!(),
        }
    }

    // Takes a command out.
    pub(crate) fn remove(&mut self, service: Service, ticket: Ticket) -> Pending<Job>
        requires { IsPending (queue_of self.old service) ticket }
        ensures { self.new ≡ with_queue self.old service (without (queue_of self.old service) ticket) }
    {
        self.at_mut(service).remove(ticket)
    }

    /// The client has left.
    pub fn drop_client(&mut self, service: Service, client: ClientId)
        ensures { self.new ≡ with_queue self.old service (without_client (queue_of self.old service) client) }
    {
        self.at_mut(service).drop_client(client);
    }

    /// The command has its result.
    pub fn set_result(&mut self, service: Service, ticket: Ticket, outcome: Outcome)
        requires { IsPending (queue_of self.old service) ticket }
        ensures { self.new ≡ with_queue self.old service (changed_at (with_result outcome) ticket (queue_of self.old service)) }
    {
        set_result(self.at_mut(service), ticket, outcome);
    }

    /// The named commands are marked, and those of them that wait have their result.
    pub fn stop(&mut self, alloc: Global, service: Service, client: ClientId, ids: &Ids)
        ensures { self.new ≡ with_queue self.old service (stopped (queue_of self.old service) client ids.now) }
    {
        stop(alloc, self.at_mut(service), client, ids);
    }
}

fn set_result(queue: &mut Queue<Job>, ticket: Ticket, outcome: Outcome)
    requires { IsPending queue.old ticket }
    ensures { queue.new ≡ changed_at (with_result outcome) ticket queue.old }
{
    queue.job(ticket).finish(outcome);
    queue.finish(ticket);
}

fn stop(alloc: Global, queue: &mut Queue<Job>, client: ClientId, ids: &Ids)
    ensures { queue.new ≡ stopped queue.old client ids.now }
{
    queue.cancel(client, ids);
    while let Some(ticket) = queue.stopped() {
        set_result(queue, ticket, Outcome::new(Code::Canceled, nothing(alloc)));
    }
}

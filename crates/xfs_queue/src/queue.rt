ghost use Rattle.std.specs.Prelude.{◌≡◌, ◌++◌, ◌≤◌, List, Some, false, length, position, count_by, AllPairs, OnOk, OnErr};
ghost use Rattle.std.specs.Option.{option_to_list};
ghost use Rattle.std.specs.List.{list_any};
ghost use Rattle.xfs_queue.specs.Commands.{is_at, is_of, ticket_of};
ghost use Rattle.xfs_queue.specs.Queue.{IsPending, with_stage, is_crowded, is_named, canceled, marked_of};
ghost use Rattle.xfs_queue.specs.Deadlines.{IsIndex};
ghost use Rattle.xfs_queue.specs.declared.deadlines.Entry.{Entry};

use crate::command::{Command, Ids, Line, OfferFault, Pending, Stage, Ticket};
use crate::deadlines::{Deadlines, Entry};
use std::alloc::{AllocError, Global};
use std::marker::Model;
use std::mem;
use xfs_base::{ClientId, Moment, Numbers};

/// The pending commands of a service, in order of arrival. Beside the list it keeps the deadlines of
/// the waiting commands of the device line in order, so that `expire` sees at once that none has come.
#[derive(Drop)]
pub struct Queue<J> {
    commands: Vec<Command<J>>,
    deadlines: Deadlines,
}

impl<J> Model for Queue<J> {
    ghost use Rattle.std.specs.Prelude.{List};
    ghost use Rattle.xfs_queue.specs.declared.command.Command.{Command};

    ghost Value = { List (Command J) };

    ghost use Rattle.xfs_queue.specs.Queue.{IsQueue};
    ghost use Rattle.xfs_queue.specs.Deadlines.{IsIndex, entries};

    ghost view = { λ q. q.commands.items };

    ghost invariant = { λ q. IsQueue q.commands.items × IsIndex q.deadlines (entries q.commands.items) };
}

impl<J> Queue<J> {
    ghost use Rattle.std.specs.Prelude.{◌≡◌, ◌≤◌, ◌&&◌, ◌++◌, [], ◌∷◌, IfSome, Some, None, Ok, Err, OnOk, IfErr, MatchOption, option_map, find, count_by};
    ghost use Rattle.std.specs.List.{list_any};
    ghost use Rattle.std.specs.Borrow.{sem};
    ghost use Rattle.xfs_base.specs.declared.moment.TheConstants.{LAST_MOMENT};
    ghost use Rattle.xfs_queue.specs.Commands.{ticket_of, pending_of, is_at, is_waiting, is_running, is_ready, waits_on, is_due};
    ghost use Rattle.xfs_queue.specs.Lending.{LendsJob};
    ghost use Rattle.xfs_queue.specs.Queue.{IsQueue, IsPending, IsWaiting, command_at, offered, offer_fault, with_stage, with_job, without, is_named, canceled, without_client, IsEarliest};
    ghost use Rattle.xfs_queue.specs.declared.command.OfferFault.TheVariants.{Memory};
    ghost use Rattle.xfs_queue.specs.declared.command.Stage.TheVariants.{Waiting, Running, Ready};
    ghost use Rattle.xfs_queue.specs.declared.command.Line.TheVariants.{Device};

    /// A queue without commands. It takes no memory.
    pub fn new(alloc: Global) -> Queue<J>
        ensures { result ≡ [] }
    {
        Queue {
            commands: Vec::new(alloc),
            deadlines: Deadlines::new(alloc),
        }
    }

    /// The pending commands.
    pub fn commands(&self) -> &[Command<J>]
        ensures now { result.now ≡ self.now }
        ensures valid { IsQueue self.now }
    {
        &self.commands
    }

    /// The first that waits on the line.
    pub fn next(&self, line: Line) -> Option<Ticket>
        ensures found { result ≡ option_map ticket_of (find (waits_on line) self.now) }
        ensures waiting { IfSome result (IsWaiting self.now) }
    {
        self.commands
            .iter()
            .find(|command| command.waits_on(line))
            .map(|command| command.ticket())
    }

    /// The first that waits on the device line and whose deadline has come.
    pub fn expire(&self, now: Moment) -> Option<Ticket>
        requires { now.0 ≤ LAST_MOMENT }
        ensures found { result ≡ option_map ticket_of (find (λ a. waits_on Device a && is_due now a) self.now) }
        ensures waiting { IfSome result (IsWaiting self.now) }
    {
        match self.deadlines.first() {
            None => return None,
            Some(first) if first.deadline > now.0 => return None,
            Some(_) => {}
        }
        self.commands
            .iter()
            .find(|command| command.waits_on(Line::Device) && command.is_due(now))
            .map(|command| command.ticket())
    }

    /// The first that has its result.
    pub fn ready(&self) -> Option<Ticket>
        ensures found { result ≡ option_map ticket_of (find (λ a. is_ready a.stage) self.now) }
        ensures pending { IfSome result (IsPending self.now) }
    {
        self.commands
            .iter()
            .find(|command| command.is_ready())
            .map(|command| command.ticket())
    }

    /// The one that runs.
    pub fn running(&self) -> Option<Ticket>
        ensures found { result ≡ option_map ticket_of (find (λ a. is_running a.stage) self.now) }
        ensures pending { IfSome result (IsPending self.now) }
    {
        self.commands
            .iter()
            .find(|command| command.is_running())
            .map(|command| command.ticket())
    }

    /// The first waiting one that is marked.
    pub fn stopped(&self) -> Option<Ticket>
        ensures found { result ≡ option_map ticket_of (find (λ a. is_waiting a.stage && a.marked) self.now) }
        ensures waiting { IfSome result (IsWaiting self.now) }
        ensures valid { IsQueue self.now }
    {
        self.commands
            .iter()
            .find(|command| command.is_waiting() && command.marked)
            .map(|command| command.ticket())
    }

    /// Whether the client has this id pending.
    pub fn holds(&self, client: ClientId, id: u64) -> bool
        ensures { result ≡ list_any (is_at record { client = client; id = id }) self.now }
    {
        is_pending(&self.commands, Ticket { client, id })
    }

    /// The least deadline of the waiting commands of the device line that have a timeout.
    pub fn earliest(&self) -> Option<Moment>
        ensures { IsEarliest self.now result }
    {
        match self.deadlines.first() {
            Some(entry) => Some(Moment(entry.deadline)),
            None => None,
        }
    }

    /// Whether its deadline has come.
    pub fn due(&self, ticket: Ticket, now: Moment) -> bool
        requires { now.0 ≤ LAST_MOMENT }
        ensures { result ≡ list_any (λ a. is_at ticket a && is_due now a) self.now }
    {
        self.commands
            .iter()
            .any(|command| command.is_at(ticket) && command.is_due(now))
    }

    /// Whether it was canceled, or its client has left.
    pub fn is_marked(&self, ticket: Ticket) -> bool
        ensures { result ≡ list_any (λ a. is_at ticket a && a.marked) self.now }
    {
        self.commands
            .iter()
            .any(|command| command.is_at(ticket) && command.marked)
    }

    /// Why a command of the client with this id isn't taken, memory aside: `Busy` where the client has
    /// the id pending, else `TooMany` where the client has 32 pending or the service 256.
    pub fn fault_of(&self, client: ClientId, id: u64) -> Option<OfferFault>
        ensures { result ≡ offer_fault self.now client id }
    {
        if is_pending(&self.commands, Ticket { client, id }) {
            return Some(OfferFault::Busy);
        }
        if is_crowded(&self.commands, client) {
            return Some(OfferFault::TooMany);
        }
        None
    }

    /// Adds a command at the end, where `fault_of` has nothing against it. A refused job comes back.
    pub fn offer(
        &mut self,
        client: ClientId,
        id: u64,
        line: Line,
        timeout: u32,
        now: Moment,
        job: J,
    ) -> Result<(), (J, OfferFault)>
        requires { now.0 ≤ LAST_MOMENT }
        ensures ok { OnOk result (self.new ≡ self.old ++ offered client id line timeout now job ∷ []) }
        ensures err { IfErr result (λ e. (e.0 ≡ job) × (self.new ≡ self.old)) }
        ensures refused { MatchOption (offer_fault self.old client id) (IfErr result (λ e. e.1 ≡ Memory)) (λ f. result ≡ Err (job, f)) }
    {
        match self.fault_of(client, id) {
            Some(fault) => return Err((job, fault)),
            None => {}
        }
        if self.commands.reserve(1).is_err() {
            return Err((job, OfferFault::Memory));
        }
        let command = Command {
            client,
            id,
            line,
            accepted: now,
            timeout,
            marked: false,
            stage: Stage::Waiting,
            job,
        };
        match add_entry(&mut self.deadlines, command.entry()) {
            Ok(()) => {}
            Err(_) => return Err((command.job, OfferFault::Memory)),
        }
        self.commands.push_reserved(command);
        Ok(())
    }

    /// Makes a waiting command the one that runs.
    pub fn start(&mut self, ticket: Ticket)
        requires waiting { IsWaiting self.old ticket }
        requires idle { find (λ a. is_running a.stage) self.old ≡ None }
        ensures { self.new ≡ with_stage self.old ticket Running }
    {
        set_stage(&mut self.commands, ticket, Stage::Running);
        self.deadlines.remove(ticket);
    }

    /// Makes a command ready to be answered.
    pub fn finish(&mut self, ticket: Ticket)
        requires { IsPending self.old ticket }
        ensures { self.new ≡ with_stage self.old ticket Ready }
    {
        set_stage(&mut self.commands, ticket, Stage::Ready);
        self.deadlines.remove(ticket);
    }

    /// The command's job, for writing.
    pub fn job(&mut self, ticket: Ticket) -> &mut J
        requires { IsPending self.old ticket }
        ensures* writes_back { sem 𝓛 (LendsJob J.row self.entry ticket result) }
        ensures now { option_map (λ a. a.job) (command_at self.old ticket) ≡ Some result.now }
        ensures valid { IsQueue self.old }
    {
        let at = place(&self.commands, ticket);
        let command = &mut self.commands[at];
        &mut command.job
    }

    /// Puts another job at the command, and hands back the one that it had.
    pub fn set_job(&mut self, ticket: Ticket, job: J) -> J
        requires { IsPending self.old ticket }
        ensures had { option_map (λ a. a.job) (command_at self.old ticket) ≡ Some result }
        ensures has { self.new ≡ with_job self.old ticket job }
    {
        mem::replace(self.job(ticket), job)
    }

    /// Takes a command out.
    pub fn remove(&mut self, ticket: Ticket) -> Pending<J>
        requires { IsPending self.old ticket }
        ensures taken { option_map pending_of (command_at self.old ticket) ≡ Some result }
        ensures rest { self.new ≡ without self.old ticket }
    {
        let at = place(&self.commands, ticket);
        let command = self.commands.remove(at);
        self.deadlines.remove(ticket);
        Pending {
            client: command.client,
            id: command.id,
            job: command.job,
        }
    }

    /// Marks the client's commands that the ids name, but for those that have their result, and
    /// tells how many of them were pending.
    pub fn cancel(&mut self, client: ClientId, ids: &Ids) -> u32
        ensures count { result ≡ count_by (is_named client ids.now) self.old }
        ensures marked { self.new ≡ canceled self.old client ids.now }
    {
        let count = count_named(&self.commands, client, ids);
        mark_named(&mut self.commands, client, ids);
        count as u32
    }
}

impl<J: Drop> Queue<J> {
    ghost use Rattle.std.specs.Prelude.{◌≡◌};
    ghost use Rattle.xfs_queue.specs.Queue.{without_client};

    /// Takes out the client's waiting and ready commands, and marks its running one.
    pub fn drop_client(&mut self, client: ClientId)
        ensures { self.new ≡ without_client self.old client }
    {
        self.commands
            .retain(|command| !command.is_of(client) || command.is_running());
        mark_client(&mut self.commands, client);
        self.deadlines.remove_client(client);
    }
}

fn is_pending<J>(commands: &[Command<J>], ticket: Ticket) -> bool
    ensures { result ≡ list_any (is_at ticket) commands.now }
{
    commands.iter().any(|command| command.is_at(ticket))
}

fn is_crowded<J>(commands: &[Command<J>], client: ClientId) -> bool
    ensures { result ≡ is_crowded commands.now client }
{
    count_of(commands, client) >= 32 || commands.len() >= 256
}

fn count_of<J>(commands: &[Command<J>], client: ClientId) -> usize
    ensures { result ≡ count_by (is_of client) commands.now }
{
    commands
        .iter()
        .filter(|command| command.is_of(client))
        .count()
}

fn add_entry(deadlines: &mut Deadlines, entry: Option<Entry>) -> Result<(), AllocError>
    ensures ok { OnOk result ((es : List Entry) → IsIndex deadlines.old es → IsIndex deadlines.new (es ++ option_to_list entry)) }
    ensures err { OnErr result (deadlines.new ≡ deadlines.old) }
{
    match entry {
        None => Ok(()),
        Some(entry) => {
            deadlines.add(entry)?;
            Ok(())
        }
    }
}

fn place<J>(commands: &[Command<J>], ticket: Ticket) -> usize
    requires { IsPending commands.now ticket }
    ensures { position (is_at ticket) commands.now ≡ Some result }
{
    match first_place(commands, ticket) {
        Some(at) => at,
        None => unreachable!(),
    }
}

fn first_place<J>(commands: &[Command<J>], ticket: Ticket) -> Option<usize>
    ensures { result ≡ position (is_at ticket) commands.now }
{
    commands.iter().position(|command| command.is_at(ticket))
}

fn set_stage<J>(commands: &mut Vec<Command<J>>, ticket: Ticket, stage: Stage)
    requires ids { AllPairs (λ a b. is_at (ticket_of a) b ≡ false) commands.old.items }
    requires pending { IsPending commands.old.items ticket }
    ensures { commands.new.items ≡ with_stage commands.old.items ticket stage }
{
    let at = place(commands, ticket);
    commands[at].stage = stage;
}

fn count_named<J>(commands: &[Command<J>], client: ClientId, ids: &Ids) -> usize
    ensures count { result ≡ count_by (is_named client ids.now) commands.now }
    ensures bound { result ≤ length commands.now }
{
    commands
        .iter()
        .filter(|command| command.is_named(client, ids))
        .count()
}

fn mark_named<J>(commands: &mut [Command<J>], client: ClientId, ids: &Ids)
    ensures { commands.new ≡ canceled commands.old client ids.now }
{
    for command in commands.iter_mut() {
        command.marked |= command.is_named(client, ids) & !command.is_ready();
    }
}

fn mark_client<J>(commands: &mut [Command<J>], client: ClientId)
    ensures { commands.new ≡ marked_of commands.old client }
{
    for command in commands.iter_mut() {
        command.marked |= command.is_of(client);
    }
}

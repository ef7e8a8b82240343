ghost use Rattle.std.specs.Prelude.{◌≡◌, ◌≢◌, ◌<◌, ◌≤◌, ◌^◌, ◌++◌, ℕ, drop, nat_le, is_some, length, option_map, if◌then◌else◌};
ghost use Rattle.xfs_base.specs.Causes.{next_count};
ghost use Rattle.xfs_base.specs.declared.moment.TheConstants.{LAST_MOMENT};
ghost use Rattle.xfs_guard.specs.Nonce.{live_in};
ghost use Rattle.xfs_journal.specs.Journal.{base_of};
ghost use Rattle.xfs_machine.specs.Answers.{joined_as, posted};
ghost use Rattle.xfs_machine.specs.Laws.{IsLawful};
ghost use Rattle.xfs_machine.specs.MachineView.{guard_of};
ghost use Rattle.xfs_model.specs.Connections.{connection_of};
ghost use Rattle.xfs_model.specs.Events.{join, leave, outbox, post, done, handed};
ghost use Rattle.xfs_machine.specs.Wanted.{wants};
ghost use Rattle.xfs_model.specs.Step.{Step};
ghost use Rattle.xfs_model.specs.Told.{AllTell};

use crate::boot::newest;
use crate::dispenser::Dispenser;
use crate::notes_taken::is_shutter_closed;
use crate::pass::{JoinFault, Pass};
use crate::post::take;
use crate::tally::Tally;
use std::alloc::Global;
use std::marker::Model;
use xfs_base::{ClientId, Memory, Moment, Places, Service, UnitTable};
use xfs_disk::Disk;
use xfs_guard::Nonce;
use xfs_journal::Rec;
use xfs_mech::Mechanism;
use xfs_traffic::{Connection, Devices, Frames, Reading, Sender, Traffic};

// So many connections may be open.
const MOST_OPEN: usize = 64;

/// The machine: its dispenser and other devices, its connections, and the pending commands of each service.
/// Each call is one event of it, and in its clause `step` one step of the definitions.
#[derive(Drop)]
pub struct Machine<M: Mechanism, D: Disk> {
    pub(crate) alloc: Global,
    pub(crate) dispenser: Dispenser<M, D>,
    pub(crate) boot: u64,
    pub(crate) moment: Moment,
    pub(crate) given: u32,
    pub(crate) devices: Devices,
    pub(crate) traffic: Traffic,
}

impl<M: Mechanism, D: Disk> Model for Machine<M, D> {
    ghost use Rattle.xfs_machine.specs.MachineView.{MachineView, IsWhole, of_parts};
    ghost use Rattle.std.specs.Coded.{codes};
    ghost use Rattle.xfs_traffic.specs.DataCodes.{data_code};

    ghost Value = { MachineView D };

    ghost coded = { Prim.hlevel (codes, data_code) };

    ghost view = { λ m. record {
      state = of_parts D.Disk m.dispenser m.boot m.moment m.given m.devices m.traffic;
      disk = m.dispenser.guard.disk;
    } };

    ghost invariant = { λ m. IsWhole (of_parts D.Disk m.dispenser m.boot m.moment m.given m.devices m.traffic) };
}

impl<M: Mechanism, D: Disk> Machine<M, D> {
    /// Takes a connection.
    pub fn join(&mut self, service: Service) -> Result<Pass, JoinFault>
        ensures step { Step self.old.state (join service) (joined_as result) self.new.state }
        ensures laws { IsLawful self.old.state (join service) (joined_as result) self.new.state }
        ensures guard { guard_of self.new ≡ guard_of self.old }
    {
        if self.traffic.connections.len() >= MOST_OPEN || self.given == u32::MAX {
            return Err(JoinFault::Full);
        }
        let client = ClientId(self.given + 1);
        let connection = Connection::new(self.alloc, client, service);
        if self.traffic.connections.push(connection).is_err() {
            return Err(JoinFault::Memory);
        }
        self.given += 1;
        Ok(Pass {
            client,
            service,
            boot: self.boot,
        })
    }

    /// Takes a text of a client. A pass that isn't open changes nothing.
    pub fn post(
        &mut self,
        pass: &Pass,
        text: &[u8],
        now: Moment,
        tally: &mut Tally,
    ) -> Result<(), Memory>
        requires { now.0 ≤ LAST_MOMENT }
        ensures step { Step self.old.state (post pass.now text.now now) (posted result) self.new.state }
        ensures laws { IsLawful self.old.state (post pass.now text.now now) (posted result) self.new.state }
        ensures guard { guard_of self.new ≡ guard_of self.old }
        ensures tally { tally.new ≡ record tally.old { posts = next_count tally.old.posts } }
    {
        let reading = Reading::of(self.alloc, text);
        self.post_read(pass, reading, now, tally)
    }

    /// Takes a text of a client that is read already.
    pub fn post_read(
        &mut self,
        pass: &Pass,
        reading: Reading<'_>,
        now: Moment,
        tally: &mut Tally,
    ) -> Result<(), Memory>
        requires { now.0 ≤ LAST_MOMENT }
        ensures step { Step self.old.state (post pass.now reading.entry now) (posted result) self.new.state }
        ensures laws { IsLawful self.old.state (post pass.now reading.entry now) (posted result) self.new.state }
        ensures guard { guard_of self.new ≡ guard_of self.old }
        ensures tally { tally.new ≡ record tally.old { posts = next_count tally.old.posts } }
    {
        tally.count_post();
        let Some(service) = self.service_of(pass) else {
            return Ok(());
        };
        let sender = Sender {
            client: pass.client,
            service,
        };
        let now = later(self.moment, now);
        take(
            self.alloc,
            &self.dispenser.guard,
            &mut self.traffic,
            sender,
            reading,
            now,
        )?;
        self.moment = now;
        Ok(())
    }

    /// Hands over the frames that wait for a connection, in order. A pass that isn't open has none. It takes
    /// no memory.
    pub fn outbox(&mut self, pass: &Pass, tally: &mut Tally) -> Frames
        ensures step { Step self.old.state (outbox pass.now) (handed result) self.new.state }
        ensures laws { IsLawful self.old.state (outbox pass.now) (handed result) self.new.state }
        ensures told { AllTell self.new.state result }
        ensures guard { guard_of self.new ≡ guard_of self.old }
        ensures tally { tally.new ≡ record tally.old { outboxes = next_count tally.old.outboxes } }
    {
        tally.count_outbox();
        if self.boot != pass.boot {
            return Frames::new(Vec::new(self.alloc));
        }
        Frames::new(self.traffic.connections.fetch(self.alloc, pass.client))
    }

    /// Drops a connection with its commands, but for its running one, which is marked. A pass that isn't open
    /// changes nothing. It takes no memory.
    pub fn leave(&mut self, pass: Pass)
        ensures step { Step self.old.state (leave pass) done self.new.state }
        ensures laws { IsLawful self.old.state (leave pass) done self.new.state }
        ensures guard { guard_of self.new ≡ guard_of self.old }
    {
        let Some(service) = self.service_of(&pass) else {
            return;
        };
        self.traffic.connections.remove(pass.client);
        self.traffic.queues.drop_client(service, pass.client);
    }

    /// Whether a pass is of this boot and its connection open.
    pub fn is_open(&self, pass: &Pass) -> bool
        ensures { result ≡ is_some (connection_of self.now.state pass.now) }
    {
        self.service_of(pass).is_some()
    }

    /// How many connections are open.
    pub fn open_count(&self) -> u32
        ensures { result ≡ length self.now.state.connections }
    {
        self.traffic.connections.len() as u32
    }

    /// The live nonce.
    pub fn live(&self) -> Option<Nonce>
        ensures { result ≡ live_in self.now.state.seen.guard.boot_missing self.now.state.seen.guard.records }
    {
        self.dispenser.guard.live()
    }

    /// Where the notes lie.
    pub fn places(&self) -> Places
        ensures { result ≡ self.now.state.seen.guard.places }
    {
        self.dispenser.guard.places()
    }

    /// The kinds of notes of the units.
    pub fn units(&self) -> &UnitTable
        ensures { result.now ≡ self.now.state.seen.guard.units }
    {
        self.dispenser.guard.units()
    }

    /// Whether a touch of the world is waited for at a service.
    pub fn wants(&self, service: Service) -> bool
        ensures { result ≡ wants self.now.state service }
    {
        match service {
            Service::Publisher => false,
            Service::Card => self.devices.slot.awaits_card() || self.devices.slot.at_exit(),
            Service::Keys => self.devices.keypad.active(),
            Service::Cash => {
                self.places().outlet.notes() != 0 && !is_shutter_closed(&self.dispenser.guard)
            }
        }
    }

    /// The journal's records that are in memory: those behind its base. The number of the first is one more than the base.
    pub fn records(&self) -> &[Rec]
        ensures { result.now ≡ drop self.now.state.seen.guard.base self.now.state.seen.guard.records }
    {
        self.dispenser.guard.records()
    }

    /// How many records of the journal memory doesn't have: those in front of the boot record of this machine's boot.
    pub fn base(&self) -> u64
        ensures base { result ≡ self.now.state.seen.guard.base }
        ensures led { self.now.state.seen.guard.base ≤ base_of self.now.state.seen.guard.records }
        ensures within { self.now.state.seen.guard.base ≤ length self.now.state.seen.guard.records }
        ensures few { length self.now.state.seen.guard.records < 2 ^ 62 }
    {
        self.dispenser.guard.base()
    }

    /// The number of the newest record.
    pub fn newest(&self) -> u64
        ensures { result ≡ length self.now.state.seen.guard.records }
    {
        newest(&self.dispenser.guard)
    }

    // The service of the open connection of a pass.
    pub(crate) fn service_of(&self, pass: &Pass) -> Option<Service>
        ensures { result ≡ option_map (λ k. k.service) (connection_of self.now.state pass.now) }
    {
        if self.boot != pass.boot {
            return None;
        }
        self.traffic.connections.service_of(pass.client)
    }
}

// The greater of two moments.
pub(crate) fn later(now: Moment, next: Moment) -> Moment
    ensures { result ≡ (if nat_le now.0 next.0 then next else now) }
{
    if now.0 <= next.0 { next } else { now }
}

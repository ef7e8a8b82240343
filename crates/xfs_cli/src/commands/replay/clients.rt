//! The clients of a script.

ghost use Rattle.std.specs.Prelude.{◌≡◌, [], IfNone, OnOk, OnErr, position};
ghost use Rattle.std.specs.List.{position_or_len};
ghost use Rattle.std.specs.Option.{option_map};
ghost use Rattle.xfs_cli.specs.Replay.States.{is_above, is_number, pass_of, with_client, without_client};

use std::alloc::Global;
use std::marker::Model;
use xfs_base::Memory;
use xfs_machine::Pass;

/// A client, by the number that the script gives it, and its pass.
#[derive(Drop)]
pub struct Client {
    pub number: u32,
    pub pass: Pass,
}

/// The clients that are joined, by number rising.
#[derive(Drop)]
pub struct Clients {
    list: Vec<Client>,
}

impl Model for Clients {
    ghost use Rattle.std.specs.Prelude.{List};
    ghost use Rattle.xfs_cli.specs.declared.commands.replay.clients.Client.{Client as ClientView};

    ghost Value = { List ClientView };

    ghost view = { λ c. c.list.items };
}

impl Clients {
    /// No client.
    pub fn new(alloc: Global) -> Clients
        ensures { result ≡ [] }
    {
        Clients {
            list: Vec::new(alloc),
        }
    }

    /// The clients, their numbers rising.
    pub fn list(&self) -> &[Client]
        ensures { result.now ≡ self.now }
    {
        &self.list
    }

    /// The pass of a number, where it is joined.
    pub fn pass(&self, number: u32) -> Option<&Pass>
        ensures { option_map (λ pass. pass.now) result ≡ pass_of self.now number }
    {
        let place = self.place(number)?;
        Some(&self.list[place].pass)
    }

    /// Adds a client, whose number isn't joined, in its place by number.
    pub fn add(&mut self, number: u32, pass: Pass) -> Result<(), Memory>
        ensures ok { OnOk result (self.new ≡ with_client self.old (record { number = number; pass = pass })) }
        ensures err { OnErr result (self.new ≡ self.old) }
    {
        let place = self.below(number);
        match self.list.insert(place, Client { number, pass }) {
            Ok(()) => Ok(()),
            Err(_) => Err(Memory),
        }
    }

    /// Takes a client out. None where its number isn't joined.
    pub fn take(&mut self, number: u32) -> Option<Pass>
        ensures found { result ≡ pass_of self.old number }
        ensures left { self.new ≡ without_client self.old number }
        ensures none { IfNone result (self.new ≡ self.old) }
    {
        let place = self.place(number)?;
        let client = self.list.remove(place);
        Some(client.pass)
    }

    /// Takes all of them out.
    pub fn clear(&mut self)
        ensures { self.new ≡ [] }
    {
        self.list.clear();
    }

    // The place of a number, where it is joined.
    fn place(&self, number: u32) -> Option<usize>
        ensures { result ≡ position (is_number number) self.now }
    {
        self.list.iter().position(|client| client.number == number)
    }

    // How many clients have lower numbers.
    fn below(&self, number: u32) -> usize
        ensures { result ≡ position_or_len (is_above number) self.now }
    {
        match self.above(number) {
            Some(place) => place,
            None => self.list.len(),
        }
    }

    // The place of the first client with a higher number.
    fn above(&self, number: u32) -> Option<usize>
        ensures { result ≡ position (is_above number) self.now }
    {
        self.list.iter().position(|client| client.number > number)
    }
}

ghost use Rattle.std.specs.Prelude.{◌≡◌};

use std::marker::Model;

/// A list of bytes. It is made from a `Vec` and given back without taking memory.
#[derive(Debug, Drop)]
pub struct Bytes {
    list: Vec<u8>,
}

impl Model for Bytes {
    ghost use Rattle.std.specs.Prelude.{ℕ, List};

    ghost Value = { List ℕ };

    ghost view = { λ b. b.list.items };
}

impl Bytes {
    /// Takes the list over.
    pub fn new(list: Vec<u8>) -> Bytes
        ensures { result ≡ list.items }
    {
        Bytes { list }
    }

    /// The bytes, lent.
    pub fn list(&self) -> &[u8]
        ensures { result.now ≡ self.now }
    {
        &self.list
    }

    /// Gives the list back.
    pub fn into_list(self) -> Vec<u8>
        ensures { result.items ≡ self }
    {
        self.list
    }
}

/// A list of numbers, as of request ids. It is made from a `Vec` and given back without taking memory.
#[derive(Debug, Drop)]
pub struct Numbers {
    list: Vec<u64>,
}

impl Model for Numbers {
    ghost use Rattle.std.specs.Prelude.{ℕ, List};

    ghost Value = { List ℕ };

    ghost view = { λ b. b.list.items };
}

impl Numbers {
    /// Takes the list over.
    pub fn new(list: Vec<u64>) -> Numbers
        ensures { result ≡ list.items }
    {
        Numbers { list }
    }

    /// The numbers, lent.
    pub fn list(&self) -> &[u64]
        ensures { result.now ≡ self.now }
    {
        &self.list
    }

    /// Gives the list back.
    pub fn into_list(self) -> Vec<u64>
        ensures { result.items ≡ self }
    {
        self.list
    }
}

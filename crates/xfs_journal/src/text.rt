ghost use Rattle.std.specs.Prelude.{◌≡◌, ◌≤◌, ◌↔◌, length, IsSome, IfSome};

use std::marker::Model;

/// The bytes of a token as they came: 1 to 1,024 of them.
#[derive(Debug, Drop)]
pub struct Text {
    list: Vec<u8>,
}

impl Model for Text {
    ghost use Rattle.std.specs.Prelude.{ℕ, List, ◌≤◌, length};

    ghost Value = { List ℕ };

    ghost view = { λ t. t.list.items };

    ghost invariant = { λ t. (1 ≤ length t.list.items) × (length t.list.items ≤ 1024) };
}

impl Text {
    /// None exactly for another length than 1 to 1,024.
    pub fn new(bytes: Vec<u8>) -> Option<Text>
        ensures found { IfSome result (λ t. t ≡ bytes.items) }
        ensures valid { IsSome result ↔ ((1 ≤ length bytes.items) × (length bytes.items ≤ 1024)) }
    {
        if bytes.is_empty() || bytes.len() > 1024 {
            return None;
        }
        Some(Text { list: bytes })
    }

    /// The bytes, lent.
    pub fn bytes(&self) -> &[u8]
        ensures now { result.now ≡ self.now }
        ensures low { 1 ≤ length self.now }
        ensures high { length self.now ≤ 1024 }
    {
        &self.list
    }
}

ghost use Rattle.std.specs.Prelude.{◌≡◌, ◌↔◌, IsSome, IfSome};
ghost use Rattle.xfs_base.specs.Values.{IsCurrency};

use std::marker::Model;

/// A currency's three letters A to Z, of the form of ISO 4217.
#[derive(Clone, Copy, Debug, PartialEq, Eq)]
pub struct Currency {
    letters: [u8; 3],
}

impl Model for Currency {
    ghost use Rattle.std.specs.Prelude.{ℕ, List};
    ghost use Rattle.xfs_base.specs.Values.{IsCurrency};

    ghost Value = { List ℕ };

    ghost view = { λ c. c.letters };

    ghost invariant = { λ c. IsCurrency c.letters };

    ghost inverse = { λ l. record { letters = l } };
}

impl Currency {
    /// None exactly for other bytes than three letters A to Z.
    pub fn new(bytes: &[u8]) -> Option<Currency>
        ensures found { IfSome result (λ c. c ≡ bytes.now) }
        ensures valid { IsSome result ↔ IsCurrency bytes.now }
    {
        if bytes.len() == 3 && bytes.iter().all(|b| *b >= b'A' && *b <= b'Z') {
            let mut letters = [0u8; 3];
            letters.copy_from_slice(bytes);
            Some(Currency { letters })
        } else {
            None
        }
    }

    /// The three letters, A to Z, as in ISO 4217's alphabetic codes.
    pub fn letters(self) -> [u8; 3]
        ensures now { result ≡ self }
        ensures valid { IsCurrency result }
    {
        self.letters
    }
}

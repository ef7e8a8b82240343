ghost use Rattle.std.specs.Prelude.{◌≡◌, map};
ghost use Rattle.std.specs.List.{list_any};
ghost use Rattle.std.specs.Str.{bytes_eq};
ghost use Rattle.xfs_token.specs.Token as grammar;
ghost use Rattle.xfs_token.specs.Pairs.{pair_of};

/// A key and its value.
#[derive(Drop)]
pub(crate) struct Pair {
    pub(crate) key: Vec<u8>,
    pub(crate) value: Vec<u8>,
}

pub(crate) fn has_key(pairs: &[Pair], key: &[u8]) -> bool
    ensures { result ≡ grammar.has_key key.now (map pair_of pairs.now) }
{
    any_key(pairs, key)
}

fn any_key(pairs: &[Pair], key: &[u8]) -> bool
    ensures { result ≡ list_any (λ p. bytes_eq p.key.items key.now) pairs.now }
{
    for p in pairs {
        if p.key.as_slice() == key {
            return true;
        }
    }
    false
}

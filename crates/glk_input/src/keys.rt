//! The keys that end a line beside the return key (Glk 0.7.5, "Line Input Events").

ghost use Rattle.std.specs.Prelude.{◌≡◌, ◌≤◌, length};
ghost use Rattle.glk_input.specs.Delivery.{is_among};

use std::marker::Model;

/// The most terminators of a line.
pub const MAX_KEYS: usize = 13;

/// A list of at most 13 keys.
#[derive(Drop)]
pub struct Keys {
    list: [u32; MAX_KEYS],
    count: usize,
}

impl Model for Keys {
    ghost use Rattle.std.specs.Prelude.{List, ℕ, ◌≤◌, take};

    ghost Value = { List ℕ };

    ghost view = { λ k. take k.count k.list };

    ghost invariant = { λ k. k.count ≤ 13 };
}

impl Keys {
    /// These keys.
    pub fn of(keys: &[u32]) -> Keys
        requires { length keys.now ≤ 13 }
        ensures { result ≡ keys.now }
    {
        let mut list = [0; MAX_KEYS];
        list[..keys.len()].copy_from_slice(keys);
        Keys {
            list,
            count: keys.len(),
        }
    }

    /// Equal keys.
    pub fn copy_of(&self) -> Keys
        ensures { result ≡ self.now }
    {
        Keys {
            list: self.list,
            count: self.count,
        }
    }

    /// The keys, lent.
    pub fn as_slice(&self) -> &[u32]
        ensures value { result.now ≡ self.now }
        ensures within { length self.now ≤ 13 }
    {
        &self.list[..self.count]
    }

    /// Whether the key is one of these.
    pub fn has(&self, key: u32) -> bool
        ensures { result ≡ is_among self.now key }
    {
        is_one_of(self.as_slice(), key)
    }
}

fn is_one_of(keys: &[u32], key: u32) -> bool
    ensures { result ≡ is_among keys.now key }
{
    for k in keys {
        if *k == key {
            return true;
        }
    }
    false
}

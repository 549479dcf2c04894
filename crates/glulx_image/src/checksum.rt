//! The checksum of a file.

ghost use Rattle.std.specs.Prelude.{◌≡◌, ◌≤◌, ◌*◌, ◌+◌, ◌%◌, ◌^◌, length};
ghost use Rattle.glulx_image.specs.Checksum.{sum_of_words, summand, verified};

use crate::Image;
use crate::header::word;

/// The place of the checksum among the words.
const CHECKSUM: usize = 8;

impl<'i> Image<'i> {
    /// 0 where the words up to EXTSTART, the checksum taken as 0, sum to the checksum modulo 2^32,
    /// else 1. Nothing is refused for a wrong checksum.
    pub fn verify(&self) -> u32
        ensures value { result ≡ verified self.now }
    {
        let words = self.extstart() / 4;
        u32::from(sum_of(self.bytes(), words as usize) != self.checksum())
    }
}

// The word at the place of this number, the checksum taken as 0.
fn word_to_sum(bytes: &[u8], k: usize) -> u32
    requires { 4 * k + 4 ≤ length bytes.now }
    ensures { result ≡ summand bytes.now k }
{
    if k == CHECKSUM { 0 } else { word(bytes, 4 * k) }
}

// The sum of so many words modulo 2^32, the checksum taken as 0.
fn sum_of(bytes: &[u8], words: usize) -> u32
    requires { 4 * words ≤ length bytes.now }
    ensures { result ≡ sum_of_words bytes.now words % 2 ^ 32 }
{
    let mut sum: u32 = 0;
    for k in 0..words {
        sum = sum.wrapping_add(word_to_sum(bytes, k));
    }
    sum
}

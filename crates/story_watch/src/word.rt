//! The word by which a session's spectators know it (own).

ghost use Rattle.std.specs.Prelude.{◌≡◌};
ghost use Rattle.story_watch.specs.Word.{watch_word};

use line_words::Key;
use sha2::{Digest, Sha256};

/// The word of a session with this key: 16 hexadecimal digits, in lower case, of the first 8 bytes
/// of the key's SHA-256 digest.
#[tactic(auto, unfolding(crate::specs::Word::watch_word))]
pub fn word_of(key: &Key) -> [u8; 16]
    ensures { result ≡ watch_word key.now }
{
    let digest = Sha256::digest(key.as_slice());
    let mut word = [0; 16];
    let _ = hex::encode_to_slice(&digest[..8], &mut word);
    word
}

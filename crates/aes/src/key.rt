// From a key to its round keys, and the cipher of one block under a key.
ghost use Rattle.std.specs.Prelude.{◌≡◌, ◌+◌, ◌*◌, ◌≤◌, length, IfSome};
ghost use Rattle.lists.specs.Lay.{lay};
ghost use Rattle.lists.specs.Zeros.{zeros};
ghost use Rattle.aes.specs.Expansion.{words as words_of};
ghost use Rattle.aes.specs.Key.{size_of, expansion_of, ciphered_of};

use crate::{cipher, expansion};
use field::Sbox;

// What FIPS 197 has for a key of some length: rounds, and words of expanded key.
#[derive(Clone, Copy)]
pub struct KeySize {
    pub rounds: usize,
    pub words: usize,
}

// A key of any other length is refused.
#[tactic(auto, unfolding(crate::specs::Key::size_of))]
pub fn key_size(key_len: usize) -> Option<KeySize>
    ensures { result ≡ size_of key_len }
{
    let (rounds, words) = match key_len {
        16 => (10, 44),
        24 => (12, 52),
        32 => (14, 60),
        _ => return None,
    };
    Some(KeySize { rounds, words })
}

// An expanded key: its round count and its words, those not used zero.
#[derive(Clone, Copy)]
pub struct RoundKeys {
    pub rounds: usize,
    pub words: [u8; 240],
}

// The key of nk words and n words more, at the front of 60.
fn schedule(sbox: &Sbox, key: &[u8], nk: usize, n: usize) -> [u8; 240]
    requires key_len { (length key.now ≡ 4 * nk) × (4 ≤ nk) }
    requires n_bound { (nk + n ≤ 60) × (nk + n ≤ 11 * nk) }
    ensures { result ≡ lay 0 (words_of nk key.now n) (zeros 240) }
{
    let mut w = lists::blank();
    lists::lay(&mut w, 0, key);
    expansion::fill(sbox, &mut w, nk, n);
    w
}

// The round keys of a key, or none where its length is refused.
#[tactic(auto, using(crate::proofs::Sizes::sizes), unfolding(crate::specs::Expansion::key_expansion))]
pub fn expand(sbox: &Sbox, key: &[u8]) -> Option<RoundKeys>
    ensures value { result ≡ expansion_of key.now }
    ensures round_count { IfSome result (λ k. (10 ≤ k.rounds) × (k.rounds ≤ 14)) }
{
    let size = key_size(key.len())?;
    let nk = key.len() / 4;
    let words = schedule(sbox, key, nk, size.words - nk);
    Some(RoundKeys {
        rounds: size.rounds,
        words,
    })
}

// A block ciphered under a key, or none where the key is refused.
#[tactic(auto, using(crate::proofs::Keys::refused, crate::proofs::Keys::accepted), unfolding(crate::specs::Key::ciphered_of))]
pub fn encrypt_under(key: &[u8], block: [u8; 16]) -> Option<[u8; 16]>
    ensures { result ≡ ciphered_of key.now block }
{
    let sbox = Sbox::new();
    let keys = expand(&sbox, key)?;
    let words = keys.words;
    Some(cipher::encrypt(&sbox, &words, keys.rounds, block))
}

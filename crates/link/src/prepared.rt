// A prepared key (document 02, wish 9): what every pass takes of a key, worked out once.
ghost use Rattle.std.specs.Prelude.{◌≡◌, true, length};
ghost use Rattle.aes.specs.Key.{expanded};
ghost use Rattle.aes.specs.Under.{cipher_under};
ghost use Rattle.mode.specs.Data.{first_q, q_inputs, with_data};
ghost use Rattle.link.specs.Checks.{known_key};
ghost use Rattle.link.specs.Prepared.{preparation};

use crate::answer::{Answer, Done, Refusal};
use crate::check;
use aes::RoundKeys;
use field::Sbox;
use joined::{ByTables, Cipher, Ran};

// The round count, the round keys, and the first mask of the data pass. `prepare` gives a key's own, the round keys not used zero, and
// E(zero) for the mask. A call takes whatever a record holds.
#[derive(Clone, Copy)]
pub struct Prepared {
    pub rounds: usize,
    pub words: [u8; 240],
    pub zero: [u8; 16],
}

// The answer, done with no bytes written or the refusal 1, and the record. No `Result`: a refusal has a record too, of zeros (`preparation`).
#[derive(Clone, Copy)]
pub struct Preparation {
    pub answer: Answer,
    pub key: Prepared,
}

// The round keys of a raw key that is known.
pub fn own_keys(key: &[u8]) -> RoundKeys
    requires { known_key (length key.now) ≡ true }
    ensures { result ≡ expanded key.now }
{
    let sbox = Sbox::new();
    aes::expand(&sbox, key).unwrap()
}

// The first mask that a call under a raw key gives its data pass: E(zero), which that needs only where there is data.
pub fn own_mask(e: &Cipher, ad: &[u8]) -> Ran<[u8; 16]>
    ensures block_value { result.value ≡ first_q (cipher_under e.now) (with_data ad.now) }
    ensures runs_value { result.runs ≡ length (q_inputs (with_data ad.now)) }
{
    associated::first_q(e, 0 < ad.len())
}

#[tactic(auto, unfolding(crate::specs::Prepared::preparation))]
pub fn prepare(key: &[u8]) -> Preparation
    ensures { result ≡ preparation key.now }
{
    if !check::known_key(key.len()) {
        return Preparation {
            answer: Err(Refusal::Key),
            key: Prepared {
                rounds: 0,
                words: lists::blank(),
                zero: lists::blank(),
            },
        };
    }
    let tables = ByTables::new();
    let keys = own_keys(key);
    let e = Cipher::new(&tables, &keys);
    let Ran { value: zero, runs } = associated::first_q(&e, true);
    let words = keys.words;
    Preparation {
        answer: Ok(Done { length: 0, runs }),
        key: Prepared {
            rounds: keys.rounds,
            words,
            zero,
        },
    }
}

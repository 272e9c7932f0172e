// What the associated data pass does whatever edition and form are named.
ghost use Rattle.std.specs.Prelude.{◌≡◌, ◌-◌, ◌*◌, ◌/◌, ◌≤◌, ltb, length};
ghost use Rattle.aes.specs.Under.{cipher_under};
ghost use Rattle.mode.specs.Data.{DataPass, ta as ta_of, ta_inputs, first_q, q_inputs};

use block::Block;
use joined::{Cipher, Ran};

// The first mask, E of the zero block, which is ciphered only where it is needed.
pub fn first_q(e: &Cipher, needed: bool) -> Ran<[u8; 16]>
    ensures block_value { result.value ≡ first_q (cipher_under e.now) needed }
    ensures runs_value { result.runs ≡ length (q_inputs needed) }
{
    let zeros = lists::blank();
    if needed {
        return Ran {
            value: e.encrypt(zeros),
            runs: 1,
        };
    }
    Ran {
        value: zeros,
        runs: 0,
    }
}

// The number of blocks before the last, for data of so many bytes; 0 for none.
pub fn before_last(bytes: usize) -> usize
    ensures { result ≡ (bytes - 1) / 16 }
{
    bytes.saturating_sub(1) / 16
}

// TA of a, from the last block's mask and from what the n blocks before it come to, Ξ, with the runs that it took; whichever pass d has
// these.
pub fn ta(e: &Cipher, a: &[u8], n: usize, mask: [u8; 16], xi: Ran<[u8; 16]>) -> Ran<[u8; 16]>
    requires n_value { (n ≡ (length a.now - 1) / 16) × (xi.runs ≤ n) }
    ensures block_value { (d : DataPass) → mask ≡ d.mask n (ltb (length a.now - 16 * n) 16) → xi.value ≡ d.xi n a.now → result.value ≡ ta_of (cipher_under e.now) d a.now }
    ensures runs_value { (d : DataPass) → xi.runs ≡ length (d.inputs n a.now) → result.runs ≡ length (ta_inputs (cipher_under e.now) d a.now) }
{
    if a.is_empty() {
        return Ran {
            value: lists::blank(),
            runs: 0,
        };
    }
    let Ran { value: front, runs } = xi;
    let left = a.len() - 16 * n;
    let last = block::pad(block::read(a, 16 * n, left), left);
    Ran {
        value: e.encrypt(mask.xor(front.xor(last))),
        runs: runs + 1,
    }
}

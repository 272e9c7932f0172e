// The associated data pass, serial form.
ghost use Rattle.std.specs.Prelude.{◌≡◌, ◌*◌, ◌≤◌, ltb, length};
ghost use Rattle.aes.specs.Under.{cipher_under};
ghost use Rattle.mode.specs.Data.{chain as chain_of, chain_inputs, chain_final, serial_pass, ta as ta_of, ta_inputs};

use crate::data;
use block::Block;
use joined::{Cipher, Ran};

// The first n blocks of a, each ciphered with what came out before it.
fn chain(e: &Cipher, a: &[u8], n: usize) -> Ran<[u8; 16]>
    requires n_in_bounds { 16 * n ≤ length a.now }
    ensures block_value { result.value ≡ chain_of (cipher_under e.now) n a.now }
    ensures runs_value { result.runs ≡ length (chain_inputs (cipher_under e.now) n a.now) }
{
    let mut xi = lists::blank();
    let mut runs: usize = 0;
    for i in 0..n {
        let b = block::read_block(a, 16 * i);
        xi = e.encrypt(b.xor(xi));
        runs += 1;
    }
    Ran { value: xi, runs }
}

// The final mask for a last block of n bytes.
fn chain_mask(q: [u8; 16], n: usize) -> [u8; 16]
    ensures { result ≡ chain_final (ltb n 16) q }
{
    let two = q.double();
    if n < 16 {
        return two;
    }
    two.double()
}

pub fn ta(e: &Cipher, q: [u8; 16], a: &[u8]) -> Ran<[u8; 16]>
    ensures block_value { result.value ≡ ta_of (cipher_under e.now) (serial_pass (cipher_under e.now) q) a.now }
    ensures runs_value { result.runs ≡ length (ta_inputs (cipher_under e.now) (serial_pass (cipher_under e.now) q) a.now) }
{
    let n = data::before_last(a.len());
    let xi = chain(e, a, n);
    let mask = chain_mask(q, a.len() - 16 * n);
    data::ta(e, a, n, mask, xi)
}

// The associated data pass, parallel form, of both editions.
ghost use Rattle.std.specs.Prelude.{◌≡◌, ◌*◌, ◌≤◌, ltb, length};
ghost use Rattle.aes.specs.Under.{cipher_under};
ghost use Rattle.mode.specs.Masks.{doubles};
ghost use Rattle.mode.specs.Data.{start_q, data_final, data_sum, sum_inputs, parallel_pass, ta as ta_of, ta_inputs};

use crate::data;
use block::Block;
use joined::{Cipher, Ran};
use mode::Edition;

// The sum of some blocks, and the Q behind them.
#[derive(Clone, Copy)]
struct DataSum {
    sum: [u8; 16],
    q: [u8; 16],
}

// The first n blocks of a, from the first Q on.
fn data_sum(e: &Cipher, first: [u8; 16], a: &[u8], n: usize) -> Ran<DataSum>
    requires n_in_bounds { 16 * n ≤ length a.now }
    ensures sum_value { (result.value.sum ≡ data_sum (cipher_under e.now) first n a.now) × (result.value.q ≡ doubles n first) }
    ensures runs_value { result.runs ≡ length (sum_inputs first n a.now) }
{
    let mut sum = lists::blank();
    let mut q = first;
    let mut runs: usize = 0;
    for i in 0..n {
        let b = block::read_block(a, 16 * i);
        (sum, q) = (sum.xor(e.encrypt(q.xor(b))), q.double());
        runs += 1;
    }
    Ran {
        value: DataSum { sum, q },
        runs,
    }
}

// The first Q, from the first mask q, which v1 calls γ.
fn start_q(edition: Edition, q: [u8; 16]) -> [u8; 16]
    ensures { result ≡ start_q edition q }
{
    match edition {
        Edition::V1 => q.double().double(),
        Edition::V3(_) => q,
    }
}

// The final mask for a last block of n bytes whose Q is x.
fn data_mask(edition: Edition, q: [u8; 16], x: [u8; 16], n: usize) -> [u8; 16]
    ensures { result ≡ data_final edition q (ltb n 16) x }
{
    match (edition, n < 16) {
        (Edition::V1, true) => x.xor(q),
        (Edition::V1, false) => x.xor(q.double()),
        (Edition::V3(_), true) => block::triple(x),
        (Edition::V3(_), false) => block::triple_twice(x),
    }
}

pub fn ta(edition: Edition, e: &Cipher, q: [u8; 16], a: &[u8]) -> Ran<[u8; 16]>
    ensures block_value { result.value ≡ ta_of (cipher_under e.now) (parallel_pass (cipher_under e.now) q edition) a.now }
    ensures runs_value { result.runs ≡ length (ta_inputs (cipher_under e.now) (parallel_pass (cipher_under e.now) q edition) a.now) }
{
    let n = data::before_last(a.len());
    let Ran { value, runs } = data_sum(e, start_q(edition, q), a, n);
    let DataSum { sum, q: behind } = value;
    let mask = data_mask(edition, q, behind, a.len() - 16 * n);
    data::ta(e, a, n, mask, Ran { value: sum, runs })
}

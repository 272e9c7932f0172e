// The pairs of the message pass, and their checksum. One step serves both directions: opening calls it with the two masks exchanged.
// What runs the cipher says how many times it did (document 02, wish 6).
#![tactic(auto)]

ghost use Rattle.std.specs.Prelude.{◌≡◌, ◌++◌, ◌+◌, ◌*◌, ◌≤◌, length, take};
ghost use Rattle.lists.specs.Lay.{lay};
ghost use Rattle.aes.specs.Under.{cipher_under};
ghost use Rattle.block.specs.Wide.{bytes_of};
ghost use Rattle.mode.specs.Masks.{Masks as AllMasks};
ghost use Rattle.mode.specs.Message.{pairs_of as count_of, block as block_of, half as half_of, half_inputs, pair as pair_of, pair_inputs, pairs as pairs_of, pairs_inputs, sum as sum_of};
ghost use Rattle.pairs.specs.Carries.{Carries};

mod masks;

use block::Block;
use joined::{Cipher, Ran};
pub use masks::Masks;

// E(l ⊕ x) ⊕ y.
pub fn half<B: Block>(e: &Cipher, l: B, x: B, y: B) -> Ran<B>
    ensures block_value { B.bytes result.value ≡ half_of (cipher_under e.now) (B.bytes l) (B.bytes x) (B.bytes y) }
    ensures runs_value { result.runs ≡ length (half_inputs (cipher_under e.now) (B.bytes l) (B.bytes x)) }
{
    let inner = l.xor(x).to_bytes();
    let value = y.xor(B::of(e.encrypt(inner)));
    Ran { value, runs: 1 }
}

// A block, and directly behind it the first n bytes of another, into out from place at on.
pub fn put_two(out: &mut [u8], at: usize, a: [u8; 16], b: [u8; 16], n: usize)
    requires { (n ≤ 16) × (at + 16 + n ≤ length out.old) }
    ensures { out.new ≡ lay at (a ++ take n b) out.old }
{
    lists::lay(out, at, &a);
    lists::lay(out, at + 16, &b[..n]);
}

// The whole block of src at place at.
fn read_words(src: &[u8], at: usize) -> [u64; 2]
    requires { at + 16 ≤ length src.now }
    ensures { bytes_of result ≡ block_of src.now at }
{
    Block::of(block::read_block(src, at))
}

// The blocks of a pair, into out from place at on.
fn put_pair(out: &mut [u8], at: usize, first: [u64; 2], second: [u64; 2])
    requires { at + 32 ≤ length out.old }
    ensures { out.new ≡ lay at (bytes_of first ++ bytes_of second) out.old }
{
    put_two(out, at, first.to_bytes(), second.to_bytes(), 16);
}

// The pair of src at place at, with the masks k, into out at the same place.
pub fn pair(e: &Cipher, k: Masks<[u64; 2]>, src: &[u8], at: usize, out: &mut [u8]) -> usize
    requires at_in_bounds { (at + 32 ≤ length src.now) × (at + 32 ≤ length out.old) }
    ensures out_after { out.new ≡ lay at (pair_of (cipher_under e.now) (bytes_of k.left) (bytes_of k.right) (block_of src.now at) (block_of src.now (at + 16))) out.old }
    ensures runs_value { result ≡ length (pair_inputs (cipher_under e.now) (bytes_of k.left) (bytes_of k.right) (block_of src.now at) (block_of src.now (at + 16))) }
{
    let p = read_words(src, at);
    let q = read_words(src, at + 16);
    let first = half(e, k.left, p, q);
    let second = half(e, k.right, first.value, p);
    put_pair(out, at, first.value, second.value);
    first.runs + second.runs
}

// The same, and the pair behind it with the masks next. No cipher waits for what the one before it gives, so that a processor can begin
// the next before that one has ended.
fn two_pairs(
    e: &Cipher,
    k: Masks<[u64; 2]>,
    next: Masks<[u64; 2]>,
    src: &[u8],
    at: usize,
    out: &mut [u8],
) -> usize
    requires at_in_bounds { (at + 64 ≤ length src.now) × (at + 64 ≤ length out.old) }
    ensures out_after { out.new ≡ lay (at + 32) (pair_of (cipher_under e.now) (bytes_of next.left) (bytes_of next.right) (block_of src.now (at + 32)) (block_of src.now (at + 48))) (lay at (pair_of (cipher_under e.now) (bytes_of k.left) (bytes_of k.right) (block_of src.now at) (block_of src.now (at + 16))) out.old) }
    ensures runs_value { result ≡ length (pair_inputs (cipher_under e.now) (bytes_of k.left) (bytes_of k.right) (block_of src.now at) (block_of src.now (at + 16))) + length (pair_inputs (cipher_under e.now) (bytes_of next.left) (bytes_of next.right) (block_of src.now (at + 32)) (block_of src.now (at + 48))) }
{
    let p = read_words(src, at);
    let q = read_words(src, at + 16);
    let next_p = read_words(src, at + 32);
    let next_q = read_words(src, at + 48);
    let first = half(e, k.left, p, q);
    let next_first = half(e, next.left, next_p, next_q);
    let second = half(e, k.right, first.value, p);
    let next_second = half(e, next.right, next_first.value, next_p);
    put_pair(out, at, first.value, second.value);
    put_pair(out, at + 32, next_first.value, next_second.value);
    first.runs + second.runs + (next_first.runs + next_second.runs)
}

// The number of pairs before the last one or two blocks of b bytes.
#[tactic(auto, using(mode::proofs::Counts::pairs_are))]
pub fn pairs_of(b: usize) -> usize
    ensures { result ≡ count_of b }
{
    b.saturating_sub(1) / 32
}

// The first n pairs of src into out, with any masks k that begin with first, and have step XORed in once they are doubled; and the masks
// behind them.
pub fn pairs(
    e: &Cipher,
    first: Masks<[u8; 16]>,
    step: Masks<[u8; 16]>,
    src: &[u8],
    n: usize,
    out: &mut [u8],
) -> Ran<Masks<[u8; 16]>>
    requires n_in_bounds { (32 * n ≤ length src.now) × (32 * n ≤ length out.old) }
    ensures out_after { (k : AllMasks) → Carries k first.left step.left first.right step.right → out.new ≡ lay 0 (pairs_of (cipher_under e.now) k n src.now) out.old }
    ensures masks_after { (k : AllMasks) → Carries k first.left step.left first.right step.right → (result.value.left ≡ k.left n) × (result.value.right ≡ k.right n) }
    ensures runs_value { (k : AllMasks) → result.runs ≡ length (pairs_inputs (cipher_under e.now) k n src.now) }
{
    let step = Masks::of(step);
    let mut now: Masks<[u64; 2]> = Masks::of(first);
    let mut runs = 0;
    for i in 0..n / 2 {
        let next = now.next(step);
        let two = two_pairs(e, now, next, src, 64 * i, out);
        now = next.next(step);
        runs += two;
    }
    if n % 2 == 1 {
        let one = pair(e, now, src, 32 * (n - 1), out);
        now = now.next(step);
        runs += one;
    }
    Ran {
        value: now.to_bytes(),
        runs,
    }
}

// The even blocks of the first n pairs of a message.
#[tactic(auto, using(mode::proofs::Tag::sum_step), unfolding(mode::specs::Message::sum))]
pub fn sum(m: &[u8], n: usize) -> [u8; 16]
    requires { 32 * n ≤ length m.now }
    ensures { result ≡ sum_of n m.now }
{
    let mut s = lists::blank();
    // by index, as each turn takes the second half of its 32 bytes alone
    for i in 0..n {
        let more = s.xor(block::read_block(m, 32 * i + 16));
        s = more;
    }
    s
}

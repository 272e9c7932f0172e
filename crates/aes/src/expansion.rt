// The key expansion (FIPS 197, section 5.2, Figure 11) into one flat array of 60 words, those not used zero.
ghost use Rattle.std.specs.Prelude.{◌≡◌, ◌+◌, ◌*◌, ◌≤◌, ◌<◌, length, take};
ghost use Rattle.lists.specs.Xor.{xor};
ghost use Rattle.lists.specs.Lay.{lay};
ghost use Rattle.aes.specs.State.{word as word_of};
ghost use Rattle.aes.specs.Expansion.{power as power_of, rot_word, temp as temp_of, next, words};

use crate::state;
use field::Sbox;

// The powers of x, the first bytes of the round constants.
const POWERS: [u8; 10] = [0x01, 0x02, 0x04, 0x08, 0x10, 0x20, 0x40, 0x80, 0x1b, 0x36];

fn power(n: usize) -> u8
    requires { n < 10 }
    ensures { result ≡ power_of n }
{
    POWERS[n]
}

fn word(w: &[u8], i: usize) -> [u8; 4]
    requires { 4 * i + 4 ≤ length w.now }
    ensures { result ≡ word_of w.now i }
{
    let j = 4 * i;
    [w[j + 0], w[j + 1], w[j + 2], w[j + 3]]
}

fn rot_word(a: [u8; 4]) -> [u8; 4]
    ensures { result ≡ rot_word a }
{
    let [p, q, r, s] = a;
    [q, r, s, p]
}

#[tactic(auto, unfolding(lists::specs::Xor::xor))]
fn xor_word(a: [u8; 4], b: [u8; 4]) -> [u8; 4]
    ensures { result ≡ xor a b }
{
    // Written out: with `array::from_fn` the proof does not close at half the limits of the search, where it is to.
    [a[0] ^ b[0], a[1] ^ b[1], a[2] ^ b[2], a[3] ^ b[3]]
}

#[tactic(auto, unfolding(crate::specs::Expansion::temp))]
fn temp(sbox: &Sbox, nk: usize, i: usize, a: [u8; 4]) -> [u8; 4]
    requires key_words { (4 ≤ nk) × ((nk ≤ i) × (i < 11 * nk)) }
    ensures { result ≡ temp_of nk i a }
{
    if i % nk == 0 {
        let b = rot_word(a);
        let c = state::sub_word(sbox, b);
        let p = power(i / nk - 1);
        xor_word(c, [p, 0, 0, 0])
    } else if 6 < nk && i % nk == 4 {
        state::sub_word(sbox, a)
    } else {
        a
    }
}

#[tactic(auto, unfolding(crate::specs::Expansion::next))]
fn next_word(sbox: &Sbox, w: &[u8], nk: usize, i: usize) -> [u8; 4]
    requires key_words { (4 ≤ nk) × ((nk ≤ i) × (i < 11 * nk)) }
    requires i_in_bounds { 4 * i ≤ length w.now }
    ensures { result ≡ next nk i w.now }
{
    let before = word(w, i - 1);
    let t = temp(sbox, nk, i, before);
    let old = word(w, i - nk);
    xor_word(old, t)
}

// The words behind the key's own, n of them.
pub fn fill(sbox: &Sbox, w: &mut [u8], nk: usize, n: usize)
    requires key_words { (4 ≤ nk) × (nk + n ≤ 11 * nk) }
    requires n_in_bounds { 4 * (nk + n) ≤ length w.old }
    ensures { w.new ≡ lay 0 (words nk (take (4 * nk) w.old) n) w.old }
{
    for k in 0..n {
        let a = next_word(sbox, w, nk, nk + k);
        lists::lay(w, 4 * (nk + k), &a);
    }
}

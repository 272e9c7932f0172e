// The last one or two blocks of the message pass, and TE. Each function writes its blocks and gives back what they put into the
// checksum, and how many times the cipher ran (document 02, wish 6). k are the masks L and L' behind the pairs.
// Edition and u stand one by one, as the definitions have them (`masks_of edition u`).
#![tactic(auto)]

ghost use Rattle.std.specs.Prelude.{◌≡◌, true, false, List, [], ◌∷◌, ℕ, ◌+◌, ◌-◌, ◌≤◌, ◌<◌, ltb, length, take, drop};
ghost use Rattle.lists.specs.Lay.{lay};
ghost use Rattle.lists.specs.Xor.{xor};
ghost use Rattle.aes.specs.Under.{cipher_under};
ghost use Rattle.mode.specs.Masks.{first, third, masks_of};
ghost use Rattle.mode.specs.Message.{ending, ending_inputs, end_sum, one_inputs, last_length, base, final};
ghost use Rattle.mode.specs.Undoing.{unending, unending_inputs, undone_sum};

use block::Block;
use joined::{Cipher, Ran};
use mode::Edition;
use pairs::{Masks, half, put_two};

// Two blocks of the message m from place at on.
fn seal_two(e: &Cipher, k: Masks<[u8; 16]>, m: &[u8], at: usize, out: &mut [u8]) -> Ran<[u8; 16]>
    requires at_in_bounds { (at + 16 < length m.now) × ((length m.now ≤ at + 32) × (length m.now ≤ length out.old)) }
    ensures out_after { out.new ≡ lay at (ending (cipher_under e.now) true k.left k.right (drop at m.now)) out.old }
    ensures block_value { result.value ≡ end_sum (cipher_under e.now) true k.left (drop at m.now) }
    ensures runs_value { result.runs ≡ length (ending_inputs (cipher_under e.now) true k.left k.right (drop at m.now)) }
{
    let n = m.len() - (at + 16);
    let p = block::read_block(m, at);
    let z = e.encrypt(k.left.xor(p));
    let last = block::read(m, at + 16, n).xor(z);
    let padded = block::pad(last, n);
    let Ran { value: first, runs } = half(e, k.right, padded, p);
    put_two(out, at, first, last, n);
    let value = z.xor(padded);
    Ran {
        value,
        runs: 1 + runs,
    }
}

// Two cipher blocks of c from place at on, undone.
fn open_two(e: &Cipher, k: Masks<[u8; 16]>, c: &[u8], at: usize, out: &mut [u8]) -> Ran<[u8; 16]>
    requires at_in_bounds { (at + 16 < length c.now) × ((length c.now ≤ at + 32) × (length c.now ≤ length out.old)) }
    ensures out_after { out.new ≡ lay at (unending (cipher_under e.now) true k.left k.right (drop at c.now)) out.old }
    ensures block_value { result.value ≡ undone_sum (cipher_under e.now) true k.left k.right (drop at c.now) }
    ensures runs_value { result.runs ≡ length (unending_inputs (cipher_under e.now) true k.left k.right (drop at c.now)) }
{
    let n = c.len() - (at + 16);
    let last = block::read(c, at + 16, n);
    let padded = block::pad(last, n);
    let Ran { value: first, runs } = half(e, k.right, padded, block::read_block(c, at));
    let z = e.encrypt(k.left.xor(first));
    put_two(out, at, first, last.xor(z), n);
    Ran {
        value: z.xor(padded),
        runs: runs + 1,
    }
}

// One block from place at on, sealed or undone: what was written comes back, with no meaning behind its end. Where no byte is left
// there is nothing to mask, and the cipher does not run.
fn one(e: &Cipher, l: [u8; 16], src: &[u8], at: usize, out: &mut [u8]) -> Ran<[u8; 16]>
    requires at_in_bounds { (at ≤ length src.now) × ((length src.now ≤ at + 16) × (length src.now ≤ length out.old)) }
    ensures out_after { out.new ≡ lay at (xor (drop at src.now) (cipher_under e.now l)) out.old }
    ensures block_value { take (length src.now - at) result.value ≡ xor (drop at src.now) (cipher_under e.now l) }
    ensures runs_value { result.runs ≡ length (one_inputs l (drop at src.now)) }
{
    let n = src.len() - at;
    if n == 0 {
        return Ran {
            value: lists::blank(),
            runs: 0,
        };
    }
    let x = block::read(src, at, n).xor(e.encrypt(l));
    lists::lay(out, at, &x[..n]);
    Ran { value: x, runs: 1 }
}

// One block of the message m from place at on.
fn seal_one(e: &Cipher, l: [u8; 16], m: &[u8], at: usize, out: &mut [u8]) -> Ran<[u8; 16]>
    requires at_in_bounds { (at ≤ length m.now) × ((length m.now ≤ at + 16) × (length m.now ≤ length out.old)) }
    ensures out_after { out.new ≡ lay at (ending (cipher_under e.now) false l l (drop at m.now)) out.old }
    ensures block_value { result.value ≡ end_sum (cipher_under e.now) false l (drop at m.now) }
    ensures runs_value { result.runs ≡ length (ending_inputs (cipher_under e.now) false l l (drop at m.now)) }
{
    let n = m.len() - at;
    let written = one(e, l, m, at, out);
    Ran {
        value: block::pad(block::read(m, at, n), n),
        runs: written.runs,
    }
}

// One cipher block of c from place at on, undone.
fn open_one(e: &Cipher, l: [u8; 16], c: &[u8], at: usize, out: &mut [u8]) -> Ran<[u8; 16]>
    requires at_in_bounds { (at ≤ length c.now) × ((length c.now ≤ at + 16) × (length c.now ≤ length out.old)) }
    ensures out_after { out.new ≡ lay at (unending (cipher_under e.now) false l l (drop at c.now)) out.old }
    ensures block_value { result.value ≡ undone_sum (cipher_under e.now) false l l (drop at c.now) }
    ensures runs_value { result.runs ≡ length (unending_inputs (cipher_under e.now) false l l (drop at c.now)) }
{
    let n = c.len() - at;
    let Ran { value: x, runs } = one(e, l, c, at, out);
    Ran {
        value: block::pad(x, n),
        runs,
    }
}

// What remains of the message m from place at on: two blocks, or one.
pub fn seal_rest(
    e: &Cipher,
    k: Masks<[u8; 16]>,
    m: &[u8],
    at: usize,
    out: &mut [u8],
) -> Ran<[u8; 16]>
    requires at_in_bounds { (at ≤ length m.now) × ((length m.now ≤ at + 32) × (length m.now ≤ length out.old)) }
    ensures out_after { out.new ≡ lay at (ending (cipher_under e.now) (ltb (at + 16) (length m.now)) k.left k.right (drop at m.now)) out.old }
    ensures block_value { result.value ≡ end_sum (cipher_under e.now) (ltb (at + 16) (length m.now)) k.left (drop at m.now) }
    ensures runs_value { result.runs ≡ length (ending_inputs (cipher_under e.now) (ltb (at + 16) (length m.now)) k.left k.right (drop at m.now)) }
{
    if at + 16 < m.len() {
        return seal_two(e, k, m, at, out);
    }
    seal_one(e, k.left, m, at, out)
}

// What remains of the ciphertext c from place at on, undone.
pub fn open_rest(
    e: &Cipher,
    k: Masks<[u8; 16]>,
    c: &[u8],
    at: usize,
    out: &mut [u8],
) -> Ran<[u8; 16]>
    requires at_in_bounds { (at ≤ length c.now) × ((length c.now ≤ at + 32) × (length c.now ≤ length out.old)) }
    ensures out_after { out.new ≡ lay at (unending (cipher_under e.now) (ltb (at + 16) (length c.now)) k.left k.right (drop at c.now)) out.old }
    ensures block_value { result.value ≡ undone_sum (cipher_under e.now) (ltb (at + 16) (length c.now)) k.left k.right (drop at c.now) }
    ensures runs_value { result.runs ≡ length (unending_inputs (cipher_under e.now) (ltb (at + 16) (length c.now)) k.left k.right (drop at c.now)) }
{
    if at + 16 < c.len() {
        return open_two(e, k, c, at, out);
    }
    open_one(e, k.left, c, at, out)
}

// The final mask from the mask base b, for a last block of n bytes: in v3.1, whatever U is, and in v1, where d is δ.
fn final_of_third(b: [u8; 16], n: usize) -> [u8; 16]
    ensures { (u : List ℕ) → result ≡ final (third u) (ltb n 16) b }
{
    if n < 16 {
        return block::triple_twice(b);
    }
    block::seven(b)
}

fn final_of_first(d: [u8; 16], b: [u8; 16], n: usize) -> [u8; 16]
    ensures { result ≡ final (first d) (ltb n 16) b }
{
    let x = block::triple(b);
    if 16 <= n {
        return x.xor(d);
    }
    x
}

// The same in either edition, from its U or δ.
fn final_mask(edition: Edition, u: [u8; 16], b: [u8; 16], n: usize) -> [u8; 16]
    ensures { result ≡ final (masks_of edition u) (ltb n 16) b }
{
    match edition {
        Edition::V1 => final_of_first(u, b, n),
        Edition::V3(_) => final_of_third(b, n),
    }
}

// The final mask where n bytes remain behind the pairs.
fn end_mask(edition: Edition, u: [u8; 16], k: Masks<[u8; 16]>, n: usize) -> [u8; 16]
    ensures { result ≡ final (masks_of edition u) (ltb (last_length (ltb 16 n) n) 16) (base (ltb 16 n) k.left k.right) }
{
    if 16 < n {
        return final_mask(edition, u, k.right, n - 16);
    }
    final_mask(edition, u, k.left, n)
}

// TE in an edition, from its U or δ, where n bytes remain behind the pairs, and from the checksum s.
pub fn te(
    edition: Edition,
    e: &Cipher,
    u: [u8; 16],
    k: Masks<[u8; 16]>,
    n: usize,
    s: [u8; 16],
) -> Ran<[u8; 16]>
    ensures block_value { result.value ≡ cipher_under e.now (xor (final (masks_of edition u) (ltb (last_length (ltb 16 n) n) 16) (base (ltb 16 n) k.left k.right)) s) }
    ensures runs_value { result.runs ≡ length (xor (final (masks_of edition u) (ltb (last_length (ltb 16 n) n) 16) (base (ltb 16 n) k.left k.right)) s ∷ []) }
{
    let te = e.encrypt(end_mask(edition, u, k, n).xor(s));
    Ran { value: te, runs: 1 }
}

// The tag, the first t bytes of TE with what goes into it, into out from place at on.
pub fn put_tag(te: [u8; 16], added: [u8; 16], t: usize, at: usize, out: &mut [u8])
    requires { (t ≤ 16) × (at + t ≤ length out.old) }
    ensures { out.new ≡ lay at (take t (xor te added)) out.old }
{
    let x = te.xor(added);
    lists::lay(out, at, &x[..t]);
}

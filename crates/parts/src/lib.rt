// The message pass of v3.1 in parts (document 02, wish 3), on arrays and slices: a part fed, and the end. e is the cipher under the key,
// E of the papers, in the contracts `cipher_under e.now`. What runs the cipher says how many times it did (wish 6).
// State and held stand one by one, as the definitions have them (`between state held`).
#![tactic(auto)]

ghost use Rattle.std.specs.Prelude.{◌≡◌, ◌++◌, ◌+◌, ◌*◌, ◌≤◌, length, take};
ghost use Rattle.lists.specs.Lay.{lay};
ghost use Rattle.lists.specs.Xor.{xor};
ghost use Rattle.aes.specs.Under.{cipher_under};
ghost use Rattle.mode.specs.Masks.{doubles, doubled};
ghost use Rattle.mode.specs.Message.{pairs_of, pairs as pairs_from, pairs_inputs, sum as sum_of};
ghost use Rattle.mode.specs.Feeding.{fed_bytes, fed_inputs, end_bytes, end_inputs};
ghost use Rattle.parts.specs.State.{between, kept32, behind_state, fed_state};

use block::Block;
use joined::{Cipher, Ran};
use mode::{Edition, Form};
use pairs::Masks;

// Between two calls: the masks of the next pair, the checksum of the pairs that are out, and the bytes that are kept. How many are kept
// is not held here: it follows from how many were fed. The fields stand one by one, as sealer's promises name them (`begun_by`, `ended`).
#[derive(Clone, Copy)]
pub struct State {
    pub left: [u8; 16],
    pub right: [u8; 16],
    pub sum: [u8; 16],
    pub kept: [u8; 32],
}

// What stands behind some pairs: the masks of the next one, and the checksum.
#[derive(Clone, Copy)]
struct Behind {
    masks: Masks<[u8; 16]>,
    sum: [u8; 16],
}

// The first held bytes of kept, and more behind them; then zeros, so that no byte stays that is not kept.
fn join(kept: [u8; 32], held: usize, more: &[u8]) -> [u8; 32]
    requires { held + length more.now ≤ 32 }
    ensures { result ≡ kept32 (take held kept ++ more.now) }
{
    let mut all = lists::blank();
    lists::lay(&mut all, 0, &kept[..held]);
    lists::lay(&mut all, held, more);
    all
}

// The first n pairs of src into out, behind what stands in front of them.
fn next_pairs(e: &Cipher, front: Behind, src: &[u8], n: usize, out: &mut [u8]) -> Ran<Behind>
    requires n_in_bounds { (32 * n ≤ length src.now) × (32 * n ≤ length out.old) }
    ensures out_after { out.new ≡ lay 0 (pairs_from (cipher_under e.now) (doubled front.masks.left front.masks.right) n src.now) out.old }
    ensures masks_after { (result.value.masks.left ≡ doubles n front.masks.left) × ((result.value.masks.right ≡ doubles n front.masks.right) × (result.value.sum ≡ xor front.sum (sum_of n src.now))) }
    ensures runs_value { result.runs ≡ length (pairs_inputs (cipher_under e.now) (doubled front.masks.left front.masks.right) n src.now) }
{
    let Behind { masks, sum } = front;
    let zeros = lists::blank();
    let none = Masks {
        left: zeros,
        right: zeros,
    };
    let Ran { value: masks, runs } = pairs::pairs(e, masks, none, src, n, out);
    let sum = sum.xor(pairs::sum(src, n));
    Ran {
        value: Behind { masks, sum },
        runs,
    }
}

// The first pair of the kept bytes and the part behind them, into out.
fn first_pair(e: &Cipher, state: State, held: usize, part: &[u8], out: &mut [u8]) -> Ran<Behind>
    requires held_bound { (held ≤ 32) × ((32 ≤ held + length part.now) × (32 ≤ length out.old)) }
    ensures out_after { out.new ≡ lay 0 (pairs_from (cipher_under e.now) (between state held).masks 1 ((between state held).kept ++ part.now)) out.old }
    ensures masks_after { (result.value.masks.left ≡ doubles 1 state.left) × ((result.value.masks.right ≡ doubles 1 state.right) × (result.value.sum ≡ xor state.sum (sum_of 1 ((between state held).kept ++ part.now)))) }
    ensures runs_value { result.runs ≡ 2 }
{
    let State {
        left,
        right,
        sum,
        kept,
    } = state;
    let first = join(kept, held, &part[..32 - held]);
    let front = Behind {
        masks: Masks { left, right },
        sum,
    };
    next_pairs(e, front, &first, 1, out)
}

// The n pairs of a tail behind others, into out; what remains of it is kept.
fn later_pairs(e: &Cipher, front: Ran<Behind>, tail: &[u8], n: usize, out: &mut [u8]) -> Ran<State>
    requires n_in_bounds { (32 * n ≤ length tail.now) × ((length tail.now ≤ 32 * n + 32) × (32 * n ≤ length out.old)) }
    requires front_runs { front.runs ≡ 2 }
    ensures out_after { out.new ≡ lay 0 (pairs_from (cipher_under e.now) (doubled front.value.masks.left front.value.masks.right) n tail.now) out.old }
    ensures state_value { result.value ≡ behind_state front.value.masks.left front.value.masks.right front.value.sum n tail.now }
    ensures runs_value { result.runs ≡ 2 + 2 * n }
{
    let after = next_pairs(e, front.value, tail, n, out);
    let Behind { masks, sum } = after.value;
    let Masks { left, right } = masks;
    let kept = join(lists::blank(), 0, &tail[32 * n..]);
    Ran {
        value: State {
            left,
            right,
            sum,
            kept,
        },
        runs: front.runs + after.runs,
    }
}

// Feeds a part for which n pairs are due, one at least. The first is of the kept bytes and the front of the part; the others lie in the
// part.
#[tactic(auto, using(mode::proofs::Counts::pairs_are))]
pub fn feed(
    e: &Cipher,
    state: State,
    held: usize,
    n: usize,
    part: &[u8],
    out: &mut [u8],
) -> Ran<State>
    requires held_bound { (held ≤ 32) × ((n ≡ pairs_of (held + length part.now)) × ((1 ≤ n) × (32 * n ≤ length out.old))) }
    ensures out_after { out.new ≡ lay 0 (fed_bytes (cipher_under e.now) (between state held) part.now) out.old }
    ensures state_value { result.value ≡ fed_state state held part.now }
    ensures runs_value { result.runs ≡ length (fed_inputs (cipher_under e.now) (between state held) part.now) }
{
    let one = first_pair(e, state, held, part, out);
    later_pairs(e, one, &part[32 - held..], n - 1, &mut out[32..])
}

// Feeds a part for which no pair is due: all of it is kept.
pub fn keep(state: State, held: usize, part: &[u8]) -> State
    requires { held + length part.now ≤ 32 }
    ensures { result ≡ fed_state state held part.now }
{
    let kept = state.kept;
    State {
        kept: join(kept, held, part),
        ..state
    }
}

// Ends: seals what is kept into out, and lays t bytes of tag behind it. Says how many times the cipher ran.
pub fn end(
    e: &Cipher,
    state: State,
    held: usize,
    added: [u8; 16],
    t: usize,
    out: &mut [u8],
) -> usize
    requires held_bound { (held ≤ 32) × ((t ≤ 16) × (held + t ≤ length out.old)) }
    ensures out_after { out.new ≡ lay 0 (end_bytes (cipher_under e.now) added t (between state held)) out.old }
    ensures runs_value { result ≡ length (end_inputs (cipher_under e.now) (between state held)) }
{
    let State {
        left,
        right,
        sum,
        kept,
    } = state;
    let masks = Masks { left, right };
    let rest = ends::seal_rest(e, masks, &kept[..held], 0, out);
    let checksum = sum.xor(rest.value);
    // whatever the form and U are: v3.1's final mask goes by the masks alone
    let te = ends::te(Edition::V3(Form::Parallel), e, left, masks, held, checksum);
    ends::put_tag(te.value, added, t, held, out);
    rest.runs + te.runs
}

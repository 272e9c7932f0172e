// The message pass in an edition, from its U or δ: the pairs, the last one or two blocks, and TE; and how many times the cipher ran for
// them. Edition and u stand one by one, as the definitions have them; `room` is of two values, the message and the buffer, which no type holds.
ghost use Rattle.std.specs.Prelude.{◌≡◌, List, ℕ, ◌+◌, ◌≤◌, length};
ghost use Rattle.lists.specs.Lay.{lay};
ghost use Rattle.lists.specs.Zeros.{zeros};
ghost use Rattle.aes.specs.Under.{cipher_under};
ghost use Rattle.mode.specs.Masks.{masks_of};
ghost use Rattle.mode.specs.Message.{pairs_of, pairs, pairs_inputs, body, te as te_of};
ghost use Rattle.mode.specs.Sealing.{sealed_inputs};
ghost use Rattle.mode.specs.Undoing.{unbody, undone_inputs};
ghost use Rattle.pairs.specs.Carries.{Carries};

use block::Block;
use joined::{Cipher, Ran};
use mode::Edition;
use pairs::Masks;

// The masks of the first pair, and what is XORed into them once they are doubled.
#[derive(Clone, Copy)]
struct Start {
    first: Masks<[u8; 16]>,
    step: Masks<[u8; 16]>,
}

impl Start {
    // Nothing is XORed into L.
    fn new(left: [u8; 16], right: [u8; 16], right_step: [u8; 16]) -> Start
        ensures first_value { (result.first.left ≡ left) × (result.first.right ≡ right) }
        ensures step_value { (result.step.left ≡ zeros 16) × (result.step.right ≡ right_step) }
    {
        let none = lists::blank();
        Start {
            first: Masks { left, right },
            step: Masks {
                left: none,
                right: right_step,
            },
        }
    }
}

fn start_of(edition: Edition, u: [u8; 16]) -> Start
    ensures { Carries (masks_of edition u) result.first.left result.step.left result.first.right result.step.right }
{
    let three = block::triple(u);
    match edition {
        Edition::V1 => {
            let two = u.double();
            let four = two.double();
            // 2(L ⊕ δ) is 2L ⊕ 2δ, and with 3δ it is 2L ⊕ δ
            Start::new(four, four.xor(u), three)
        }
        Edition::V3(_) => Start::new(u, three, lists::blank()),
    }
}

// What stands behind the pairs of the message m, from the masks k there: the last one or two blocks into out, and TE. Where out holds
// the pairs, it then holds the ciphertext, and the runs are those of sealing but for the pairs'.
#[tactic(auto, using(mode::proofs::Counts::pairs_are))]
pub fn seal_behind(
    edition: Edition,
    e: &Cipher,
    u: [u8; 16],
    k: Masks<[u8; 16]>,
    m: &[u8],
    out: &mut [u8],
) -> Ran<[u8; 16]>
    requires masks_there { (k.left ≡ (masks_of edition u).left (pairs_of (length m.now))) × (k.right ≡ (masks_of edition u).right (pairs_of (length m.now))) }
    requires room { length m.now ≤ length out.old }
    ensures out_after { (o : List ℕ) → out.old ≡ lay 0 (pairs (cipher_under e.now) (masks_of edition u) (pairs_of (length m.now)) m.now) o → length m.now ≤ length o → out.new ≡ lay 0 (body (cipher_under e.now) (masks_of edition u) m.now) o }
    ensures block_value { result.value ≡ te_of (cipher_under e.now) (masks_of edition u) m.now }
    ensures runs_value { length (pairs_inputs (cipher_under e.now) (masks_of edition u) (pairs_of (length m.now)) m.now) + result.runs ≡ length (sealed_inputs (cipher_under e.now) (masks_of edition u) m.now) }
{
    let n = pairs::pairs_of(m.len());
    let at = 32 * n;
    let s = pairs::sum(m, n);
    let rest = ends::seal_rest(e, k, m, at, out);
    let Ran { value, runs } = ends::te(edition, e, u, k, m.len() - at, s.xor(rest.value));
    Ran {
        value,
        runs: rest.runs + runs,
    }
}

// Seals the message m into out, and gives TE.
#[tactic(auto, using(mode::proofs::Counts::pairs_are))]
pub fn seal(edition: Edition, e: &Cipher, u: [u8; 16], m: &[u8], out: &mut [u8]) -> Ran<[u8; 16]>
    requires room { length m.now ≤ length out.old }
    ensures out_after { out.new ≡ lay 0 (body (cipher_under e.now) (masks_of edition u) m.now) out.old }
    ensures block_value { result.value ≡ te_of (cipher_under e.now) (masks_of edition u) m.now }
    ensures runs_value { result.runs ≡ length (sealed_inputs (cipher_under e.now) (masks_of edition u) m.now) }
{
    let n = pairs::pairs_of(m.len());
    let start = start_of(edition, u);
    let front = pairs::pairs(e, start.first, start.step, m, n, out);
    let Ran { value, runs } = seal_behind(edition, e, u, front.value, m, out);
    Ran {
        value,
        runs: front.runs + runs,
    }
}

// Undoes the ciphertext c into out, and gives TE of the message that was recovered.
#[tactic(auto, using(mode::proofs::Counts::pairs_are))]
pub fn open(edition: Edition, e: &Cipher, u: [u8; 16], c: &[u8], out: &mut [u8]) -> Ran<[u8; 16]>
    requires room { length c.now ≤ length out.old }
    ensures out_after { out.new ≡ lay 0 (unbody (cipher_under e.now) (masks_of edition u) c.now) out.old }
    ensures block_value { result.value ≡ te_of (cipher_under e.now) (masks_of edition u) (unbody (cipher_under e.now) (masks_of edition u) c.now) }
    ensures runs_value { result.runs ≡ length (undone_inputs (cipher_under e.now) (masks_of edition u) c.now) }
{
    let n = pairs::pairs_of(c.len());
    let at = 32 * n;
    let start = start_of(edition, u);
    let front = pairs::pairs(e, start.first.swapped(), start.step.swapped(), c, n, out);
    let k = front.value.swapped();
    let s = pairs::sum(out, n);
    let rest = ends::open_rest(e, k, c, at, out);
    let Ran { value, runs } = ends::te(edition, e, u, k, c.len() - at, s.xor(rest.value));
    Ran {
        value,
        runs: front.runs + rest.runs + runs,
    }
}

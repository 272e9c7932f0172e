// A plan carried out: each pair by itself, with masks from U alone, in the plan's order. e is the cipher under the key, E of the papers,
// in the contracts `cipher_under e.now`. What runs the cipher says how many times it did (document 02, wish 6).
ghost use Rattle.std.specs.Prelude.{◌≡◌, ◌+◌, ◌*◌, ◌≤◌, ◌<◌, length};
ghost use Rattle.lists.specs.Lay.{lay};
ghost use Rattle.aes.specs.Under.{cipher_under};
ghost use Rattle.block.specs.Wide.{bytes_of};
ghost use Rattle.mode.specs.declared.edition.Form.TheVariants.{Parallel};
ghost use Rattle.mode.specs.declared.edition.Edition.TheVariants.{V3};
ghost use Rattle.mode.specs.Masks.{third};
ghost use Rattle.mode.specs.Message.{pairs_of as count_of, block as block_of, pair as pair_of, pairs as pairs_of, pairs_inputs};
ghost use Rattle.mode.specs.Sealing.{otr_from, from_inputs};
ghost use Rattle.plans.specs.Plan.{Accepted};

use associated::{SealsWith, Settings};
use block::Block;
use joined::Cipher;
use mode::{Edition, Form};
use pairs::Masks;

// L and L' of pair i, from U.
fn masks_of(u: [u64; 2], i: usize) -> Masks<[u64; 2]>
    ensures { (bytes_of result.left ≡ (third (bytes_of u)).left i) × (bytes_of result.right ≡ (third (bytes_of u)).right i) }
{
    let left = powers::mask(u, i);
    let right = block::triple(left);
    Masks { left, right }
}

// Pair i of the message m into out.
fn pair_alone(e: &Cipher, u: [u64; 2], m: &[u8], i: usize, out: &mut [u8]) -> usize
    requires i_in_bounds { (32 * i + 32 ≤ length m.now) × (32 * i + 32 ≤ length out.old) }
    ensures out_after { out.new ≡ lay (32 * i) (pair_of (cipher_under e.now) ((third (bytes_of u)).left i) ((third (bytes_of u)).right i) (block_of m.now (32 * i)) (block_of m.now (32 * i + 16))) out.old }
    ensures runs_value { result ≡ 2 }
{
    pairs::pair(e, masks_of(u, i), m, 32 * i, out)
}

// The pairs of the message m into out, as a plan for them has their order.
fn planned_pairs(e: &Cipher, u: [u8; 16], m: &[u8], plan: &[u8], out: &mut [u8]) -> usize
    requires accepted { Accepted (count_of (length m.now)) plan.now }
    requires room { length m.now ≤ length out.old }
    ensures out_after { out.new ≡ lay 0 (pairs_of (cipher_under e.now) (third u) (count_of (length m.now)) m.now) out.old }
    ensures runs_value { result ≡ length (pairs_inputs (cipher_under e.now) (third u) (count_of (length m.now)) m.now) }
{
    let u: [u64; 2] = Block::of(u);
    let mut runs = 0;
    // by number, as `Accepted` goes by `plans::pair_at`
    for j in 0..plan.len() / 3 {
        runs += pair_alone(e, u, m, plans::pair_at(plan, j), out);
    }
    runs
}

// Seals as `passes::seal` does in edition 3 with parallel data, by a plan. Here a `Settings` is made, which is of that edition alone.
pub fn seal<'a>(
    e: &Cipher,
    q: [u8; 16],
    n: &'a [u8],
    a: &'a [u8],
    m: &[u8],
    t: usize,
    plan: &[u8],
    out: &mut [u8],
) -> usize
    requires lengths { (1 ≤ length n.now) × ((length n.now ≤ 15) × (t ≤ 16)) }
    requires accepted { Accepted (count_of (length m.now)) plan.now }
    requires room { length m.now + t ≤ length out.old }
    ensures out_after { out.new ≡ lay 0 (otr_from (cipher_under e.now) q (V3 Parallel) n.now a.now t m.now) out.old }
    ensures runs_value { result ≡ length (from_inputs (cipher_under e.now) q (V3 Parallel) n.now a.now t m.now) }
{
    let edition = Edition::V3(Form::Parallel);
    let settings = Settings {
        edition,
        nonce: n,
        ad: a,
        tag: t,
    };
    let with = associated::seals_with(e, q, &settings);
    let SealsWith { u, added } = with.value;
    let front = planned_pairs(e, u, m, plan, out);
    let masks = masks_of(Block::of(u), pairs::pairs_of(m.len())).to_bytes();
    let behind = passes::seal_behind(edition, e, u, masks, m, out);
    ends::put_tag(behind.value, added, t, m.len(), out);
    with.runs + (front + behind.runs)
}

// Sealing by our planner's plan, and the masks of such a sealing alone (document 02, wish 13).
ghost use Rattle.std.specs.Prelude.{◌≤◌, length};

use crate::{Strings, TAG_BYTES, done, repeat};
use block::Block;
use link::Answer;

// Three bytes for each of at most 511 pairs.
const MOST_PLAN: usize = 1533;

// The plan is made once, before the calls.
pub fn seal(strings: Strings, out: &mut [u8], calls: usize) -> Answer {
    let mut lent = [0u8; MOST_PLAN];
    let made = engines::plan(strings.message.len(), &mut lent);
    let count = link::length(made);
    if MOST_PLAN < count {
        return made;
    }
    let plan = &lent[..count];
    repeat(calls, made, || {
        engines::seal_planned(
            strings.key,
            strings.nonce,
            strings.data,
            strings.message,
            TAG_BYTES,
            plan,
            out,
        )
    })
}

// The masks that such a sealing works out, from the data's first 16 bytes for its U. Their sum goes to where the tag would; where the
// output has no room for a tag there, nothing is worked out.
pub fn masks(strings: Strings, out: &mut [u8], calls: usize) -> Answer
    requires { 16 ≤ length strings.«data».now }
{
    let answer = done(0, 0);
    let end = strings.message.len();
    if out.len() < TAG_BYTES || out.len() - TAG_BYTES < end {
        return answer;
    }
    let u = <[u64; 2]>::of(block::read_block(strings.data, 0));
    // those of the pairs, and the one behind them
    let count = pairs::pairs_of(end) + 1;
    let sum = (0..calls).fold([0, 0], |sum, _| add_masks(sum, u, count));
    lists::lay(out, end, &sum.to_bytes());
    answer
}

// The first so many masks, each from U alone.
fn add_masks(before: [u64; 2], u: [u64; 2], count: usize) -> [u64; 2] {
    (0..count).fold(before, |sum, i| sum.xor(powers::mask(u, i)))
}

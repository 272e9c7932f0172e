// Sealing by a plan, for a controller with four cipher engines, and our own planner (document 02, wish 13). Whatever plan is accepted, it
// seals what edition 3 seals with parallel data. No entry point asks anything of its caller; what they promise is in specs/Promises.antt.
#![tactic(auto)]

ghost use Rattle.engines.specs.Promises.{SealsPlanned, Plans};

use joined::{ByTables, Cipher, Ran};
use link::{Answer, Done, Refusal};

mod carried_out;

pub fn seal_planned(
    key: &[u8],
    nonce: &[u8],
    ad: &[u8],
    message: &[u8],
    tag: usize,
    plan: &[u8],
    out: &mut [u8],
) -> Answer
    ensures { SealsPlanned key.now nonce.now ad.now message.now tag plan.now out.old result out.new }
{
    let known = link::known_key(key.len());
    let length = link::seal_check(
        3,
        0,
        known,
        nonce.len(),
        tag,
        ad.len(),
        message.len(),
        out.len(),
    )?;
    if !plans::accepted(plan, pairs::pairs_of(message.len())) {
        return Err(Refusal::Plan);
    }
    let tables = ByTables::new();
    let keys = link::own_keys(key);
    let e = Cipher::new(&tables, &keys);
    let Ran { value: q, runs } = link::own_mask(&e, ad);
    let ran = carried_out::seal(&e, q, nonce, ad, message, tag, plan, out);
    Ok(Done {
        length,
        runs: runs + ran,
    })
}

// A plan for a message of so many bytes: the pairs in their order, and the engines in turn.
#[tactic(auto, unfolding(crate::specs::Promises::Plans))]
pub fn plan(message: usize, out: &mut [u8]) -> Answer
    ensures { Plans message out.old result out.new }
{
    if 16384 < message {
        return Err(Refusal::Length);
    }
    let n = pairs::pairs_of(message);
    if out.len() < 3 * n {
        return Err(Refusal::Room);
    }
    plans::put_plan(n, out);
    Ok(Done {
        length: 3 * n,
        runs: 0,
    })
}

// What a call does under a key once its checks have passed, whoever made its round keys. e is the cipher under it, q the first mask of
// the data pass, and `before` how many times the cipher ran for these.
ghost use Rattle.std.specs.Prelude.{◌+◌, ◌-◌, ◌≤◌, length, Ok};
ghost use Rattle.aes.specs.Under.{cipher_under};
ghost use Rattle.mode.specs.Sealing.{otr_from, from_inputs};
ghost use Rattle.mode.specs.Undoing.{found_from_inputs};
ghost use Rattle.link.specs.Promises.{SealsBy, OpensBy};

use crate::answer::{Answer, Done, Refusal};
use associated::Settings;
use joined::{Cipher, Ran};

pub fn seal(
    e: &Cipher,
    q: [u8; 16],
    before: usize,
    s: &Settings,
    message: &[u8],
    out: &mut [u8],
) -> Answer
    requires room { (length message.now + s.now.tag ≤ length out.old) × (before ≤ 1) }
    ensures { SealsBy (Ok (length message.now + s.now.tag)) (before + length (from_inputs (cipher_under e.now) q s.now.edition s.now.nonce.now s.now.ad.now s.now.tag message.now)) (otr_from (cipher_under e.now) q s.now.edition s.now.nonce.now s.now.ad.now s.now.tag message.now) out.old result out.new }
{
    let ran = passes::seal(e, q, s, message, out);
    Ok(Done {
        length: message.len() + s.tag,
        runs: before + ran,
    })
}

pub fn open(
    e: &Cipher,
    q: [u8; 16],
    before: usize,
    s: &Settings,
    sealed: &[u8],
    out: &mut [u8],
) -> Answer
    requires room { (s.now.tag ≤ length sealed.now) × ((length sealed.now - s.now.tag ≤ length out.old) × (before ≤ 1)) }
    ensures { OpensBy (Ok (length sealed.now - s.now.tag)) (before + length (found_from_inputs (cipher_under e.now) q s.now.edition s.now.nonce.now s.now.ad.now s.now.tag sealed.now)) (otr_from (cipher_under e.now) q s.now.edition s.now.nonce.now s.now.ad.now s.now.tag) sealed.now out.old result out.new }
{
    let Ran {
        value: matches,
        runs,
    } = passes::open(e, q, s, sealed, out);
    let runs = before + runs;
    if !matches {
        return Err(Refusal::Forged { runs });
    }
    Ok(Done {
        length: sealed.len() - s.tag,
        runs,
    })
}

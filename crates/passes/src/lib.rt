// The passes of AES-OTR under a prepared key, in the edition that a call names: e is the cipher under the key, E of the papers, in the
// contracts `cipher_under e.now`, and q its first mask, that of the data pass (document 02, wish 9). What comes before the message pass
// is `associated`, its pairs are `pairs`, its last blocks and TE `ends`. What runs the cipher says how many times it did (wish 6): each
// of its calls is counted where it stands, and the sum is formed here, where passes meet.
#![tactic(auto)]

ghost use Rattle.std.specs.Prelude.{◌≡◌, ◌+◌, ◌-◌, ◌≤◌, length};
ghost use Rattle.lists.specs.Lay.{lay};
ghost use Rattle.aes.specs.Under.{cipher_under};
ghost use Rattle.mode.specs.Sealing.{otr_from, from_inputs};
ghost use Rattle.mode.specs.Undoing.{found_from, found_from_inputs};
ghost use Rattle.passes.specs.Shown.{shown, flag};

use associated::Settings;
use block::Block;
use joined::{Cipher, Ran};

mod message;

pub use message::seal_behind;

// Seals the message m with the settings s into out: the ciphertext, and the tag behind it. Says how many times the cipher ran.
pub fn seal(e: &Cipher, q: [u8; 16], s: &Settings, m: &[u8], out: &mut [u8]) -> usize
    requires room { length m.now + s.now.tag ≤ length out.old }
    ensures out_after { out.new ≡ lay 0 (otr_from (cipher_under e.now) q s.now.edition s.now.nonce.now s.now.ad.now s.now.tag m.now) out.old }
    ensures runs_value { result ≡ length (from_inputs (cipher_under e.now) q s.now.edition s.now.nonce.now s.now.ad.now s.now.tag m.now) }
{
    let with = associated::seals_with(e, q, s);
    let te = message::seal(s.edition, e, with.value.u, m, out);
    ends::put_tag(te.value, with.value.added, s.tag, m.len(), out);
    with.runs + te.runs
}

// Opens what was sealed with the settings s, whose last bytes are the tag, into out, and says whether the tag matches. Where it does not,
// the message is cleared.
pub fn open(e: &Cipher, q: [u8; 16], s: &Settings, sealed: &[u8], out: &mut [u8]) -> Ran<bool>
    requires room { (s.now.tag ≤ length sealed.now) × (length sealed.now - s.now.tag ≤ length out.old) }
    ensures matches_value { result.value ≡ flag (found_from (cipher_under e.now) q s.now.edition s.now.nonce.now s.now.ad.now s.now.tag sealed.now) }
    ensures out_after { out.new ≡ shown (found_from (cipher_under e.now) q s.now.edition s.now.nonce.now s.now.ad.now s.now.tag sealed.now) (length sealed.now - s.now.tag) out.old }
    ensures runs_value { result.runs ≡ length (found_from_inputs (cipher_under e.now) q s.now.edition s.now.nonce.now s.now.ad.now s.now.tag sealed.now) }
{
    let b = sealed.len() - s.tag;
    let with = associated::seals_with(e, q, s);
    let te = message::open(s.edition, e, with.value.u, &sealed[..b], out);
    let x = te.value.xor(with.value.added);
    let matches = lists::equal(&x[..s.tag], &sealed[b..]);
    if !matches {
        lists::clear(out, b);
    }
    Ran {
        value: matches,
        runs: with.runs + te.runs,
    }
}

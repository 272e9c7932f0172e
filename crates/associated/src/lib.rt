// What comes before the message pass of AES-OTR under a prepared key: the nonce block, the associated data pass, and from these U, which
// v1 calls δ, and what is XORed into the tag; in the edition that a call names. e is the cipher under the key, E of the papers, in the
// contracts `cipher_under e.now`, and q its first mask, that of the data pass (document 02, wish 9). What runs the cipher says how many
// times it did (wish 6).
#![tactic(auto)]

ghost use Rattle.std.specs.Prelude.{◌≡◌, ◌≤◌, length};
ghost use Rattle.aes.specs.Under.{cipher_under};
ghost use Rattle.mode.specs.Data.{data_pass, ta_inputs};
ghost use Rattle.mode.specs.Sealing.{data_tag, u as u_of, added as added_of, call_inputs};

use block::Block;
use joined::{Cipher, Ran};
use mode::{Edition, Form};

mod data;
mod nonce;
mod parallel;
mod serial;

pub use data::first_q;

// What a call names besides its key and its message: its edition, with the form, the nonce, the associated data and the tag's length.
// The lengths are among those that the checks let pass.
#[derive(Clone, Copy)]
pub struct Settings<'a> {
    pub edition: Edition,
    pub nonce: &'a [u8],
    pub ad: &'a [u8],
    pub tag: usize,
    ghost nonce_length: { (1 ≤ length nonce.now) × (length nonce.now ≤ 15) },
    ghost tag_length: { tag ≤ 16 },
}

// U or δ, and what is XORed into the tag.
#[derive(Clone, Copy)]
pub struct SealsWith {
    pub u: [u8; 16],
    pub added: [u8; 16],
}

// TA of the associated data a from the first mask.
fn ta(edition: Edition, e: &Cipher, q: [u8; 16], a: &[u8]) -> Ran<[u8; 16]>
    ensures block_value { result.value ≡ data_tag (cipher_under e.now) q edition a.now }
    ensures runs_value { result.runs ≡ length (ta_inputs (cipher_under e.now) (data_pass (cipher_under e.now) q edition) a.now) }
{
    match edition {
        Edition::V1 | Edition::V3(Form::Parallel) => parallel::ta(edition, e, q, a),
        Edition::V3(Form::Serial) => serial::ta(e, q, a),
    }
}

// What a call with settings s seals with.
pub fn seals_with(e: &Cipher, q: [u8; 16], s: &Settings) -> Ran<SealsWith>
    ensures u_value { result.value.u ≡ u_of (cipher_under e.now) q s.now.edition s.now.nonce.now s.now.ad.now s.now.tag }
    ensures added_value { result.value.added ≡ added_of (cipher_under e.now) q s.now.edition s.now.nonce.now s.now.ad.now s.now.tag }
    ensures runs_value { result.runs ≡ length (call_inputs (cipher_under e.now) q s.now.edition s.now.nonce.now s.now.ad.now s.now.tag) }
{
    let v = e.encrypt(nonce::nonce_block(s));
    let Ran { value: ta, runs } = ta(s.edition, e, q, s.ad);
    let value = match s.edition.form() {
        Form::Parallel => SealsWith { u: v, added: ta },
        Form::Serial => SealsWith {
            u: v.xor(ta).double(),
            added: lists::blank(),
        },
    };
    // one for the nonce block
    Ran {
        value,
        runs: 1 + runs,
    }
}

// The sealed link: AES-OTR, sealed and opened in one call each, in edition 3, v3.1 with parallel (form 0) or serial (form 1) associated
// data, or in edition 1, v1 with parallel data, under a raw key or under a prepared one. No entry point asks anything of its caller; what
// they promise is in specs/Promises.antt and specs/Prepared.antt. The checks, `own_keys` and `own_mask` are public for `sealer` and
// `engines`, which begin as a call with a raw key does. Edition and form are numbers in a call, since any number has its answer (`Seals`).
#![tactic(auto)]

ghost use Rattle.link.specs.Promises.{Seals, Opens, SealsWith, OpensWith};

mod answer;
mod check;
mod keyed;
mod parameters;
mod prepared;
mod under;

pub use answer::{Answer, Done, Refusal, length, number, runs};
pub use check::{call_check, from_to, known_key, known_rounds, seal_check};
pub use parameters::Parameters;
pub use prepared::{Preparation, Prepared, own_keys, own_mask, prepare};

#[tactic(auto, unfolding(crate::specs::Promises::Seals))]
pub fn seal(
    edition: usize,
    form: usize,
    key: &[u8],
    nonce: &[u8],
    ad: &[u8],
    message: &[u8],
    tag: usize,
    out: &mut [u8],
) -> Answer
    ensures { Seals edition form key.now nonce.now ad.now message.now tag out.old result out.new }
{
    keyed::seal(edition, form, &key, nonce, ad, message, tag, out)
}

#[tactic(auto, unfolding(crate::specs::Promises::Opens))]
pub fn open(
    edition: usize,
    form: usize,
    key: &[u8],
    nonce: &[u8],
    ad: &[u8],
    sealed: &[u8],
    tag: usize,
    out: &mut [u8],
) -> Answer
    ensures { Opens edition form key.now nonce.now ad.now sealed.now tag out.old result out.new }
{
    keyed::open(edition, form, &key, nonce, ad, sealed, tag, out)
}

// The same two under a prepared key, whoever made it.
#[tactic(auto, unfolding(crate::specs::Promises::SealsWith))]
pub fn seal_with(
    edition: usize,
    form: usize,
    key: Prepared,
    nonce: &[u8],
    ad: &[u8],
    message: &[u8],
    tag: usize,
    out: &mut [u8],
) -> Answer
    ensures { SealsWith edition form key nonce.now ad.now message.now tag out.old result out.new }
{
    keyed::seal(edition, form, &key, nonce, ad, message, tag, out)
}

#[tactic(auto, unfolding(crate::specs::Promises::OpensWith))]
pub fn open_with(
    edition: usize,
    form: usize,
    key: Prepared,
    nonce: &[u8],
    ad: &[u8],
    sealed: &[u8],
    tag: usize,
    out: &mut [u8],
) -> Answer
    ensures { OpensWith edition form key nonce.now ad.now sealed.now tag out.old result out.new }
{
    keyed::open(edition, form, &key, nonce, ad, sealed, tag, out)
}

// The link for the mount's firmware, which is C and calls with numbers and byte buffers (document 02, wish 2): crate firmware_c exports
// the two calls. The number alone is the answer: specs/Numbered.antt.
#![tactic(auto)]

ghost use Rattle.std.specs.Prelude.{◌≡◌};
ghost use Rattle.link.specs.Answers.{number_of};
ghost use Rattle.link.specs.Promises.{Seals, Opens};
ghost use Rattle.firmware.specs.Numbered.{Numbered};

use link::Answer;

// The number of an answer, as wide as C takes it.
fn number(answer: Answer) -> u32
    ensures { result ≡ number_of answer }
{
    link::number(answer) as u32
}

pub fn shaftladder_seal(
    edition: usize,
    form: usize,
    key: &[u8],
    nonce: &[u8],
    ad: &[u8],
    message: &[u8],
    tag: usize,
    out: &mut [u8],
) -> u32
    ensures { Numbered (Seals edition form key.now nonce.now ad.now message.now tag out.old) result out.new }
{
    number(link::seal(edition, form, key, nonce, ad, message, tag, out))
}

pub fn shaftladder_open(
    edition: usize,
    form: usize,
    key: &[u8],
    nonce: &[u8],
    ad: &[u8],
    sealed: &[u8],
    tag: usize,
    out: &mut [u8],
) -> u32
    ensures { Numbered (Opens edition form key.now nonce.now ad.now sealed.now tag out.old) result out.new }
{
    number(link::open(edition, form, key, nonce, ad, sealed, tag, out))
}

// The archive for the mount's firmware, which is C: crate firmware's two functions under the names and with the promises that they have
// there. A slice comes as a pointer and a length; what its caller owes is in include/shaftladder.h.
#![tactic(auto)]

ghost use Rattle.link.specs.Promises.{Seals, Opens};
ghost use Rattle.firmware.specs.Numbered.{Numbered};

#[unsafe(no_mangle)]
pub extern "C" fn shaftladder_seal(
    edition: usize,
    form: usize,
    key: &[u8],
    nonce: &[u8],
    ad: &[u8],
    message: &[u8],
    tag: usize,
    out: &mut [u8],
) -> u32
    ensures { Numbered (Seals edition form key.now nonce.now ad.now message.now tag out.old) result out.new }
{
    firmware::shaftladder_seal(edition, form, key, nonce, ad, message, tag, out)
}

#[unsafe(no_mangle)]
pub extern "C" fn shaftladder_open(
    edition: usize,
    form: usize,
    key: &[u8],
    nonce: &[u8],
    ad: &[u8],
    sealed: &[u8],
    tag: usize,
    out: &mut [u8],
) -> u32
    ensures { Numbered (Opens edition form key.now nonce.now ad.now sealed.now tag out.old) result out.new }
{
    firmware::shaftladder_open(edition, form, key, nonce, ad, sealed, tag, out)
}

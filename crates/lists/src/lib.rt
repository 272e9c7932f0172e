// Lists of bytes: laying a part into a buffer, clearing its front and comparing two, here in code, and in specs/ and proofs/ the
// definitions and laws that every crate above cites.
#![tactic(auto)]

ghost use Rattle.std.specs.Prelude.{◌≡◌, ◌+◌, ◌≤◌, length};
ghost use Rattle.lists.specs.Lay.{lay as laid};
ghost use Rattle.lists.specs.Same.{same};
ghost use Rattle.lists.specs.Zeros.{zeros};

// A buffer of zeros, as long as it is taken for.
pub fn blank<const N: usize>() -> [u8; N]
    ensures { result ≡ zeros N }
{
    [0; N]
}

// Writes new into out from place at on.
pub fn lay(out: &mut [u8], at: usize, new: &[u8])
    requires { at + length new.now ≤ length out.old }
    ensures { out.new ≡ laid at new.now out.old }
{
    out[at..at + new.len()].copy_from_slice(new);
}

// Zeros over the first n bytes of out.
#[tactic(auto, unfolding(crate::specs::Zeros::zeros))]
pub fn clear(out: &mut [u8], n: usize)
    requires { n ≤ length out.old }
    ensures { out.new ≡ laid 0 (zeros n) out.old }
{
    out[..n].fill(0);
}

// Whether a and b are the same bytes. Of two that are equally long all bytes are looked at, whatever they are.
pub fn equal(a: &[u8], b: &[u8]) -> bool
    ensures { result ≡ same a.now b.now }
{
    if a.len() != b.len() {
        return false;
    }
    let mut differs: u8 = 0;
    for (x, y) in a.iter().zip(b) {
        differs |= x ^ y;
    }
    differs == 0
}

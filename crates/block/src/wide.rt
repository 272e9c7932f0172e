// Blocks as two words of eight bytes each, for the passes' loops: the compiler keeps these in registers, and sixteen bytes it does not.
ghost use Rattle.std.specs.Prelude.{◌≡◌};
ghost use Rattle.lists.specs.Xor.{xor};
ghost use Rattle.block.specs.Block.{shift, double};
ghost use Rattle.block.specs.Wide.{bytes_of, big_of};

// 2⁶³, the highest bit of a word.
const TOP: u64 = 1 << 63;

pub fn to_words(b: [u8; 16]) -> [u64; 2]
    ensures { bytes_of result ≡ b }
{
    [
        words::pack_eight(b[0], b[1], b[2], b[3], b[4], b[5], b[6], b[7]),
        words::pack_eight(b[8], b[9], b[10], b[11], b[12], b[13], b[14], b[15]),
    ]
}

pub fn from_words(x: [u64; 2]) -> [u8; 16]
    ensures { result ≡ bytes_of x }
{
    let mut b = [0; 16];
    b[..8].copy_from_slice(&words::unpack_eight(x[0]));
    b[8..].copy_from_slice(&words::unpack_eight(x[1]));
    b
}

pub fn xor_words(a: [u64; 2], b: [u64; 2]) -> [u64; 2]
    ensures { bytes_of result ≡ xor (bytes_of a) (bytes_of b) }
{
    [a[0] ^ b[0], a[1] ^ b[1]]
}

// Each word with its bytes in the opposite order.
#[tactic(auto, unfolding(crate::specs::Wide::bytes_of, crate::specs::Wide::big_of))]
pub fn turn_words(x: [u64; 2]) -> [u64; 2]
    ensures { (big_of result ≡ bytes_of x) × (bytes_of result ≡ big_of x) }
{
    [words::turned(x[0]), words::turned(x[1])]
}

// The block shifted, and source document 000, formula (1): on words whose first byte is the highest, or by way of them.
pub fn shift_big(x: [u64; 2]) -> [u64; 2]
    ensures { big_of result ≡ shift (big_of x) }
{
    [x[0] % TOP * 2 + x[1] / TOP, x[1] % TOP * 2]
}

pub fn double_big(x: [u64; 2]) -> [u64; 2]
    ensures { big_of result ≡ double (big_of x) }
{
    let s = shift_big(x);
    [s[0], s[1] ^ x[0] / TOP * 0x87]
}

pub fn double_words(x: [u64; 2]) -> [u64; 2]
    ensures { bytes_of result ≡ double (bytes_of x) }
{
    turn_words(double_big(turn_words(x)))
}

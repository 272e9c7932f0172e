// Products of blocks in the field of the doubling, powers of x, and a mask from its first one alone (document 02, wish 13). In here a
// block is two words whose first byte is the highest, so that a shift is one of numbers.
#![tactic(auto)]

ghost use Rattle.std.specs.Prelude.{◌≡◌, [], ◌∷◌, ◌++◌, ◌/◌, ◌<◌, get_or};
ghost use Rattle.lists.specs.Xor.{xor};
ghost use Rattle.lists.specs.Zeros.{zeros};
ghost use Rattle.block.specs.Block.{double};
ghost use Rattle.block.specs.Wide.{bytes_of, big_of};
ghost use Rattle.mode.specs.Masks.{doubles};
ghost use Rattle.powers.specs.Field.{times, horner as horner_of, product as product_of, power as power_of};

// 2⁶³, the highest bit of a word.
const TOP: u64 = 1 << 63;

// 2⁵⁶, the lowest bit of its first byte.
const BYTE: u64 = 1 << 56;

// A step of Horner's rule: the sum doubled, and b in it where the highest bit of a is set.
fn step(a: [u64; 2], b: [u64; 2], sum: [u64; 2]) -> [u64; 2]
    ensures { big_of result ≡ xor (double (big_of sum)) (times (get_or (big_of a) 0 0 / 128) (big_of b)) }
{
    let d = block::double_big(sum);
    let bit = a[0] / TOP;
    [d[0] ^ bit * b[0], d[1] ^ bit * b[1]]
}

// Horner's rule over the next n bits of a, from a sum of zero.
fn horner(a: [u64; 2], n: usize, b: [u64; 2]) -> [u64; 2]
    ensures { big_of result ≡ horner_of n (big_of a) (big_of b) (zeros 16) }
{
    let mut rest = a;
    let mut sum = [0, 0];
    for _ in 0..n {
        (sum, rest) = (step(rest, b, sum), block::shift_big(rest));
    }
    sum
}

#[tactic(auto, unfolding(crate::specs::Field::product))]
fn product(a: [u64; 2], b: [u64; 2]) -> [u64; 2]
    ensures { big_of result ≡ product_of (big_of a) (big_of b) }
{
    horner(a, 128, b)
}

// Without the first byte, which is 0, and with a 0 behind the others.
fn next_byte(x: [u64; 2]) -> [u64; 2]
    requires { get_or x 0 0 < 72057594037927936 }
    ensures { 0 ∷ big_of result ≡ big_of x ++ (0 ∷ []) }
{
    [x[0] * 256 + x[1] / BYTE, x[1] % BYTE * 256]
}

// The product with itself, for powers of x: a small one begins with zeros, which leave the sum zero and are passed over. How many there
// are is not known before, so that the loop counts none.
fn square(a: [u64; 2]) -> [u64; 2]
    ensures { big_of result ≡ product_of (big_of a) (big_of a) }
{
    let mut rest = a;
    let mut left = 128;
    while 8 <= left && rest[0] < BYTE {
        rest = next_byte(rest);
        left -= 8;
    }
    horner(rest, left, a)
}

// xⁿ: the half power squared, and doubled where n is odd. For the pairs of a message, of which there are at most 511, it is ten deep.
fn power(n: usize) -> [u64; 2]
    ensures { big_of result ≡ power_of n }
{
    if n == 0 {
        return [0, 1];
    }
    let half = power(n / 2);
    let squared = square(half);
    if n % 2 == 1 {
        return block::double_big(squared);
    }
    squared
}

// 2ⁿU, from U alone.
pub fn mask(u: [u64; 2], n: usize) -> [u64; 2]
    ensures { bytes_of result ≡ doubles n (bytes_of u) }
{
    let first = block::turn_words(u);
    let x = power(n);
    block::turn_words(product(first, x))
}

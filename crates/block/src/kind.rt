// A block of 16 bytes by value, in whichever way it is held: as bytes, or as two words of eight.
ghost use Rattle.std.specs.Prelude.{◌≡◌, List, ℕ};
ghost use Rattle.lists.specs.Xor.{xor};
ghost use Rattle.block.specs.Block.{double, triple, triple_twice, seven};
ghost use Rattle.block.specs.Wide.{bytes_of};

use crate::wide;

pub trait Block: Copy {
    // The bytes that it stands for.
    ghost bytes: { Self → List ℕ };

    fn of(b: [u8; 16]) -> Self
        ensures { bytes result ≡ b };

    fn to_bytes(self) -> [u8; 16]
        ensures { result ≡ bytes self };

    fn xor(self, other: Self) -> Self
        ensures { bytes result ≡ xor (bytes self) (bytes other) };

    fn double(self) -> Self
        ensures { bytes result ≡ double (bytes self) };
}

impl Block for [u8; 16] {
    ghost bytes = { λ b. b };

    fn of(b: [u8; 16]) -> [u8; 16] {
        b
    }

    fn to_bytes(self) -> [u8; 16] {
        self
    }

    fn xor(self, other: [u8; 16]) -> [u8; 16] {
        <[u64; 2]>::of(self).xor(Block::of(other)).to_bytes()
    }

    fn double(self) -> [u8; 16] {
        <[u64; 2]>::of(self).double().to_bytes()
    }
}

impl Block for [u64; 2] {
    ghost bytes = { bytes_of };

    fn of(b: [u8; 16]) -> [u64; 2] {
        wide::to_words(b)
    }

    fn to_bytes(self) -> [u8; 16] {
        wide::from_words(self)
    }

    fn xor(self, other: [u64; 2]) -> [u64; 2] {
        wide::xor_words(self, other)
    }

    fn double(self) -> [u64; 2] {
        wide::double_words(self)
    }
}

// The multiples that the masks are made of: 3X, 3²X and 7X.
pub fn triple<B: Block>(x: B) -> B
    ensures { B.bytes result ≡ triple (B.bytes x) }
{
    x.double().xor(x)
}

pub fn triple_twice<B: Block>(x: B) -> B
    ensures { B.bytes result ≡ triple_twice (B.bytes x) }
{
    triple(triple(x))
}

pub fn seven<B: Block>(x: B) -> B
    ensures { B.bytes result ≡ seven (B.bytes x) }
{
    let d = x.double();
    d.double().xor(d).xor(x)
}

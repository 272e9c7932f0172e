// The two masks of a pair, in either way in which a block is held.
ghost use Rattle.std.specs.Prelude.{◌≡◌};
ghost use Rattle.lists.specs.Xor.{xor};
ghost use Rattle.block.specs.Block.{double};

use block::Block;

// L and L'.
#[derive(Clone, Copy)]
pub struct Masks<B> {
    pub left: B,
    pub right: B,
}

impl<B: Block> Masks<B> {
    pub fn of(k: Masks<[u8; 16]>) -> Masks<B>
        ensures left_value { B.bytes result.left ≡ k.left }
        ensures right_value { B.bytes result.right ≡ k.right }
    {
        Masks {
            left: B::of(k.left),
            right: B::of(k.right),
        }
    }

    pub fn to_bytes(self) -> Masks<[u8; 16]>
        ensures left_value { result.left ≡ B.bytes self.left }
        ensures right_value { result.right ≡ B.bytes self.right }
    {
        Masks {
            left: self.left.to_bytes(),
            right: self.right.to_bytes(),
        }
    }

    // Those of the next pair: doubled, with step XORed in.
    pub fn next(self, step: Masks<B>) -> Masks<B>
        ensures left_value { B.bytes result.left ≡ xor (double (B.bytes self.left)) (B.bytes step.left) }
        ensures right_value { B.bytes result.right ≡ xor (double (B.bytes self.right)) (B.bytes step.right) }
    {
        Masks {
            left: self.left.double().xor(step.left),
            right: self.right.double().xor(step.right),
        }
    }

    // The other way round, as the pair step undoes a pair.
    pub fn swapped(self) -> Masks<B>
        ensures left_value { result.left ≡ self.right }
        ensures right_value { result.right ≡ self.left }
    {
        Masks {
            left: self.right,
            right: self.left,
        }
    }
}

// Words as their bytes, the lowest first: the compiler reads and writes four bytes in memory, or eight, as one word. Each function is one
// call of the library, so that a trait over the two widths would be longer than they are.
#![tactic(auto)]

ghost use Rattle.std.specs.Prelude.{◌≡◌, [], ◌∷◌};
ghost use Rattle.lists.specs.Hex.{bytes as big};
ghost use Rattle.words.specs.Word.{little};

pub fn pack(a: u8, b: u8, c: u8, d: u8) -> u32
    ensures { little 4 result ≡ a ∷ b ∷ c ∷ d ∷ [] }
{
    u32::from_le_bytes([a, b, c, d])
}

#[tactic(auto, using(crate::proofs::Words::little_4))]
pub fn unpack(x: u32) -> [u8; 4]
    ensures { result ≡ little 4 x }
{
    x.to_le_bytes()
}

pub fn pack_eight(a: u8, b: u8, c: u8, d: u8, e: u8, f: u8, g: u8, h: u8) -> u64
    ensures { little 8 result ≡ a ∷ b ∷ c ∷ d ∷ e ∷ f ∷ g ∷ h ∷ [] }
{
    u64::from_le_bytes([a, b, c, d, e, f, g, h])
}

#[tactic(auto, using(crate::proofs::Words::little_8))]
pub fn unpack_eight(x: u64) -> [u8; 8]
    ensures { result ≡ little 8 x }
{
    x.to_le_bytes()
}

// The bytes in the opposite order: what was first is highest, and what was highest is first.
#[tactic(auto, using(crate::proofs::Words::big_turned, crate::proofs::Words::little_turned))]
pub fn turned(x: u64) -> u64
    ensures { (big 8 result ≡ little 8 x) × (little 8 result ≡ big 8 x) }
{
    x.swap_bytes()
}

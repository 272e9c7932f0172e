// What is looked up in the joined tables.
ghost use Rattle.std.specs.Prelude.{◌≡◌, [], ◌∷◌, ◌<◌};
ghost use Rattle.lists.specs.Xor.{xor};
ghost use Rattle.words.specs.Word.{little};
ghost use Rattle.field.specs.Substitution.{substitute};
ghost use Rattle.aes.specs.State.{word};
ghost use Rattle.aes.specs.Column.{mixed_column};
ghost use Rattle.aes.specs.Expansion.{sub_word};

use field::Substitution;
use tables::Joined;

// The steps of the cipher by the joined tables.
#[derive(Drop)]
pub struct ByTables {
    tables: Joined,
}

impl ByTables {
    pub fn new() -> ByTables {
        ByTables {
            tables: Joined::new(),
        }
    }

    // The column of a round from the bytes a to d of its rows 0 to 3 and the word k of the key. The compiler keeps the order, and with
    // table 3 before table 2 it has a register for all that it needs.
    #[tactic(auto, using(crate::proofs::Columns::entries_column))]
    fn looked_up(&self, k: u32, a: u8, b: u8, c: u8, d: u8) -> [u8; 4]
        ensures { result ≡ xor (mixed_column (substitute a ∷ substitute b ∷ substitute c ∷ substitute d ∷ [])) (little 4 k) }
    {
        let t = &self.tables;
        words::unpack(t.entry(0, a) ^ t.entry(1, b) ^ t.entry(3, d) ^ t.entry(2, c) ^ k)
    }

    // A column of a round and word i of the expanded key, with a plain bound, as in `aes::key_word`.
    pub fn round_column(&self, w: &[u8; 240], i: usize, a: [u8; 4]) -> [u8; 4]
        requires { i < 60 }
        ensures { result ≡ xor (mixed_column (sub_word a)) (word w.now i) }
    {
        self.looked_up(aes::key_word(w, i), a[0], a[1], a[2], a[3])
    }
}

// Table 2 has the substitution itself in row 0.
impl Substitution for ByTables {
    #[tactic(auto, using(crate::proofs::Columns::entry_substituted))]
    fn substitute(&self, b: u8) -> u8 {
        (self.tables.entry(2, b) % 256) as u8
    }
}

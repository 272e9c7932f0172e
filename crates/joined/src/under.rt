// A key as whatever runs the cipher takes it: the joined tables, and the round keys with their number.
ghost use Rattle.std.specs.Prelude.{◌≡◌, ◌≤◌};
ghost use Rattle.aes.specs.Under.{cipher_under};

use crate::column::ByTables;
use aes::RoundKeys;
use std::marker::Model;

// E of the papers, under one key. The tables and the round keys are lent: a call has them once on its stack.
#[derive(Drop)]
pub struct Cipher<'a> {
    tables: &'a ByTables,
    words: &'a [u8; 240],
    rounds: usize,
}

impl<'a> Model for Cipher<'a> {
    ghost use Rattle.std.specs.Prelude.{◌≤◌};
    ghost use Rattle.aes.specs.declared.key.RoundKeys.{RoundKeys};

    ghost Value = { RoundKeys };

    ghost view = { λ e. record { rounds = e.rounds; words = e.words.now } };

    ghost invariant = { λ e. (10 ≤ e.rounds) × (e.rounds ≤ 14) };
}

impl<'a> Cipher<'a> {
    // Here the bounds go into the type.
    pub fn new(tables: &'a ByTables, keys: &'a RoundKeys) -> Cipher<'a>
        requires { (10 ≤ keys.now.rounds) × (keys.now.rounds ≤ 14) }
        ensures { result ≡ keys.now }
    {
        Cipher {
            tables,
            words: &keys.words,
            rounds: keys.rounds,
        }
    }

    pub fn encrypt(&self, block: [u8; 16]) -> [u8; 16]
        ensures { result ≡ cipher_under self.now block }
    {
        aes::encrypt(self.tables, self.words, self.rounds, block)
    }
}

// What does a round. FIPS 197's own steps go by the table of 256.
ghost use Rattle.std.specs.Prelude.{◌≡◌, ℕ, ◌≤◌};
ghost use Rattle.aes.specs.Cipher.{round as round_of, rounds as rounds_of};

use crate::state;
use field::{Sbox, Substitution};

pub trait Steps: Substitution {
    // How many rounds `first_rounds` does, one behind another and with no counter.
    ghost AT_ONCE: { ℕ };

    const AT_ONCE: usize;

    fn round(&self, w: &[u8; 240], n: usize, s: [[u8; 4]; 4]) -> [[u8; 4]; 4]
        requires { n ≤ 14 }
        ensures { result ≡ round_of w.now n s };

    fn first_rounds(&self, w: &[u8; 240], first: [[u8; 4]; 4]) -> [[u8; 4]; 4]
        ensures { result ≡ rounds_of w.now AT_ONCE first };
}

impl Steps for Sbox {
    ghost AT_ONCE = { 0 };

    const AT_ONCE: usize = 0;

    #[tactic(auto, unfolding(crate::specs::Cipher::round))]
    fn round(&self, w: &[u8; 240], n: usize, s: [[u8; 4]; 4]) -> [[u8; 4]; 4] {
        let a = state::sub_bytes(self, s);
        let b = state::shift_rows(a);
        let c = state::mix_columns(b);
        state::add_round_key(w, n, c)
    }

    #[tactic(auto, unfolding(crate::specs::Cipher::rounds))]
    fn first_rounds(&self, _w: &[u8; 240], first: [[u8; 4]; 4]) -> [[u8; 4]; 4] {
        first
    }
}

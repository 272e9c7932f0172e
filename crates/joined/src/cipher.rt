// The rounds by the joined tables. Rows are shifted before bytes are substituted, which comes to the same.

use crate::column::ByTables;
use aes::Steps;

impl Steps for ByTables {
    ghost AT_ONCE = { 9 };

    const AT_ONCE: usize = 9;

    #[tactic(auto, unfolding(aes::specs::Cipher::round, aes::specs::Cipher::add_round_key, lists::specs::Xor::xor))]
    fn round(&self, w: &[u8; 240], n: usize, s: [[u8; 4]; 4]) -> [[u8; 4]; 4] {
        let a = aes::shift_rows(s);
        let i = 4 * n;
        [
            self.round_column(w, i + 0, a[0]),
            self.round_column(w, i + 1, a[1]),
            self.round_column(w, i + 2, a[2]),
            self.round_column(w, i + 3, a[3]),
        ]
    }

    // Nine rounds, which every key has. One behind another they need no counter, and the compiler keeps the state in registers.
    #[tactic(auto, unfolding(aes::specs::Cipher::rounds))]
    fn first_rounds(&self, w: &[u8; 240], first: [[u8; 4]; 4]) -> [[u8; 4]; 4] {
        let a = self.round(w, 1, first);
        let b = self.round(w, 2, a);
        let c = self.round(w, 3, b);
        let d = self.round(w, 4, c);
        let e = self.round(w, 5, d);
        let f = self.round(w, 6, e);
        let g = self.round(w, 7, f);
        let h = self.round(w, 8, g);
        self.round(w, 9, h)
    }
}

// The rounds (FIPS 197, section 5.1, Figure 5) over an expanded key, which is one flat array (document 01's form), whatever does a round.
ghost use Rattle.std.specs.Prelude.{◌≡◌, ◌≤◌, ◌<◌};
ghost use Rattle.aes.specs.Cipher.{last_round, rounds as rounds_of, cipher};

use crate::state;
use crate::steps::Steps;

// Rows are shifted before bytes are substituted, which comes to the same, and saves 32 instructions a block with the joined tables.
#[tactic(auto, unfolding(crate::specs::Cipher::last_round))]
fn last_round<S: Steps>(steps: &S, w: &[u8; 240], n: usize, s: [[u8; 4]; 4]) -> [[u8; 4]; 4]
    requires { n ≤ 14 }
    ensures { result ≡ last_round w.now n s }
{
    let a = state::shift_rows(s);
    let b = state::sub_bytes(steps, a);
    state::add_round_key(w, n, b)
}

#[tactic(auto, using(crate::proofs::Rounds::rounds_more))]
fn rounds<S: Steps>(steps: &S, w: &[u8; 240], n: usize, first: [[u8; 4]; 4]) -> [[u8; 4]; 4]
    requires { (S.AT_ONCE ≤ n) × (n ≤ 14) }
    ensures { result ≡ rounds_of w.now n first }
{
    let mut s = steps.first_rounds(w, first);
    for i in S::AT_ONCE..n {
        let next = steps.round(w, i + 1, s);
        s = next;
    }
    s
}

// The cipher of a block under an expanded key of nr rounds.
#[tactic(auto, unfolding(crate::specs::Cipher::cipher))]
pub fn encrypt<S: Steps>(steps: &S, w: &[u8; 240], nr: usize, block: [u8; 16]) -> [u8; 16]
    requires round_count { (S.AT_ONCE < nr) × (nr ≤ 14) }
    ensures { result ≡ cipher nr w.now block }
{
    let s = state::input(block);
    let first = state::add_round_key(w, 0, s);
    let most = rounds(steps, w, nr - 1, first);
    let all = last_round(steps, w, nr, most);
    state::output(all)
}

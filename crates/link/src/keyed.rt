// The calls, under any key that they take: raw bytes, or a prepared key, whoever made it. Edition and form are numbers: the checks have an
// answer for any.
ghost use Rattle.std.specs.Prelude.{◌≡◌, ◌≤◌, Bool, true, List, ℕ, length};
ghost use Rattle.aes.specs.Key.{expanded};
ghost use Rattle.aes.specs.declared.key.RoundKeys.{RoundKeys};
ghost use Rattle.link.specs.Checks.{known_key, known_rounds, call_check, seal_next, open_next};
ghost use Rattle.link.specs.Keys.{StandsFor};
ghost use Rattle.link.specs.Promises.{sealing, seal_runs as seal_runs_of, open_runs as open_runs_of, SealsBy, OpensBy, sealing_with, seal_runs_with, open_runs_with};

use crate::answer::Answer;
use crate::prepared::Prepared;
use crate::{check, prepared, under};
use aes::RoundKeys;
use associated::Settings;
use joined::{ByTables, Cipher, Ran};
use mode::Edition;

pub trait Key {
    // Whether check 1 passes; the round keys; what a message seals to, and how many blocks sealing and opening hand to the cipher.
    ghost is_known: { Self → Bool };

    ghost keys: { Self → RoundKeys };

    ghost seals: { Self → ℕ → ℕ → List ℕ → List ℕ → ℕ → List ℕ → List ℕ };

    ghost seal_runs: { Self → ℕ → ℕ → List ℕ → List ℕ → ℕ → List ℕ → ℕ };

    ghost open_runs: { Self → ℕ → ℕ → List ℕ → List ℕ → ℕ → List ℕ → ℕ };

    fn known(&self) -> bool
        ensures { result ≡ is_known self.now };

    fn round_keys(&self) -> RoundKeys
        requires { is_known self.now ≡ true }
        ensures known_as { result ≡ keys self.now }
        ensures round_count { (10 ≤ result.rounds) × (result.rounds ≤ 14) };

    // The first mask of a call with this data, and how many times the cipher ran for it.
    fn mask(&self, e: &Cipher, ad: &[u8]) -> Ran<[u8; 16]>
        requires known { is_known self.now ≡ true }
        requires own { e.now ≡ keys self.now }
        ensures { StandsFor e.now result.value result.runs ad.now (seals self.now) (seal_runs self.now) (open_runs self.now) };
}

impl Key for &[u8] {
    ghost is_known = { λ k. known_key (length k.now) };

    ghost keys = { λ k. expanded k.now };

    ghost seals = { λ k edition form. sealing edition form k.now };

    ghost seal_runs = { λ k edition form. seal_runs_of edition form k.now };

    ghost open_runs = { λ k edition form. open_runs_of edition form k.now };

    fn known(&self) -> bool {
        check::known_key(self.len())
    }

    fn round_keys(&self) -> RoundKeys {
        prepared::own_keys(self)
    }

    fn mask(&self, e: &Cipher, ad: &[u8]) -> Ran<[u8; 16]> {
        prepared::own_mask(e, ad)
    }
}

impl Key for Prepared {
    ghost is_known = { λ p. known_rounds p.rounds };

    ghost keys = { λ p. record { rounds = p.rounds; words = p.words } };

    ghost seals = { λ p edition form. sealing_with edition form p };

    ghost seal_runs = { λ p edition form. seal_runs_with edition form p };

    ghost open_runs = { λ p edition form. open_runs_with edition form p };

    fn known(&self) -> bool {
        check::known_rounds(self.rounds)
    }

    // Its own two fields, as a sealer has: promises name them one by one (`preparation`), so no type joins them.
    fn round_keys(&self) -> RoundKeys {
        let words = self.words;
        RoundKeys {
            rounds: self.rounds,
            words,
        }
    }

    fn mask(&self, _e: &Cipher, _ad: &[u8]) -> Ran<[u8; 16]> {
        let value = self.zero;
        Ran { value, runs: 0 }
    }
}

pub fn seal<K: Key>(
    edition: usize,
    form: usize,
    key: &K,
    nonce: &[u8],
    ad: &[u8],
    message: &[u8],
    tag: usize,
    out: &mut [u8],
) -> Answer
    ensures { SealsBy (call_check edition form (K.is_known key.now) (length nonce.now) tag (length ad.now) (seal_next tag (length message.now) (length out.old))) (K.seal_runs key.now edition form nonce.now ad.now tag message.now) (K.seals key.now edition form nonce.now ad.now tag message.now) out.old result out.new }
{
    let known = key.known();
    check::seal_check(
        edition,
        form,
        known,
        nonce.len(),
        tag,
        ad.len(),
        message.len(),
        out.len(),
    )?;
    let tables = ByTables::new();
    let keys = key.round_keys();
    let e = Cipher::new(&tables, &keys);
    let Ran { value: q, runs } = key.mask(&e, ad);
    let s = Settings {
        edition: Edition::numbered(edition, form),
        nonce,
        ad,
        tag,
    };
    under::seal(&e, q, runs, &s, message, out)
}

pub fn open<K: Key>(
    edition: usize,
    form: usize,
    key: &K,
    nonce: &[u8],
    ad: &[u8],
    sealed: &[u8],
    tag: usize,
    out: &mut [u8],
) -> Answer
    ensures { OpensBy (call_check edition form (K.is_known key.now) (length nonce.now) tag (length ad.now) (open_next tag (length sealed.now) (length out.old))) (K.open_runs key.now edition form nonce.now ad.now tag sealed.now) (K.seals key.now edition form nonce.now ad.now tag) sealed.now out.old result out.new }
{
    let known = key.known();
    check::open_check(
        edition,
        form,
        known,
        nonce.len(),
        tag,
        ad.len(),
        sealed.len(),
        out.len(),
    )?;
    let tables = ByTables::new();
    let keys = key.round_keys();
    let e = Cipher::new(&tables, &keys);
    let Ran { value: q, runs } = key.mask(&e, ad);
    let s = Settings {
        edition: Edition::numbered(edition, form),
        nonce,
        ad,
        tag,
    };
    under::open(&e, q, runs, &s, sealed, out)
}

// Sealing in parts (document 02, wish 3), in edition 3 alone (wish 7): a sealer is begun, is fed the message part by part, and is ended.
// It goes by value: each call takes the sealer and hands back the one for the next. No call asks anything of its caller, whatever the
// sealer holds; what they promise is in specs/Promises.antt. There is no opening in parts: plaintext is never handed out before the tag.
// The form is a number, since any number has its answer (`beginning`).
#![tactic(auto)]

ghost use Rattle.std.specs.Prelude.{◌≡◌, ◌+◌, ◌*◌, ◌≤◌, length};
ghost use Rattle.aes.specs.Cipher.{cipher};
ghost use Rattle.aes.specs.Under.{cipher_under};
ghost use Rattle.mode.specs.Form.{form_of};
ghost use Rattle.mode.specs.declared.edition.Edition.TheVariants.{V3};
ghost use Rattle.mode.specs.Sealing.{call_inputs};
ghost use Rattle.mode.specs.Message.{pairs_of};
ghost use Rattle.mode.specs.Feeding.{keeps, fed_bytes, fed_inputs, end_bytes, end_inputs};
ghost use Rattle.link.specs.Answers.{done};
ghost use Rattle.sealer.specs.Sealers.{standing, begun_by, fed_by, ended as ended_as};
ghost use Rattle.sealer.specs.Promises.{StepBy, beginning, Feeds, Ends};

use aes::RoundKeys;
use associated::{SealsWith, Settings};
use joined::{ByTables, Cipher, Ran};
use link::{Answer, Done};
use mode::{Edition, Form};
use parts::State;

mod check;

// A sealer goes on, or counts as ended: specs/Sealers.antt says which. How many bytes it keeps follows from how many were fed.
#[derive(Clone, Copy)]
pub struct Sealer {
    // The round count and the round keys.
    rounds: usize,
    words: [u8; 240],
    // The masks, the checksum and the kept bytes.
    state: State,
    // What goes into the tag, and the tag's length.
    added: [u8; 16],
    tag: usize,
    // How many bytes were fed.
    fed: usize,
}

// The answer, and the sealer for the next call.
#[derive(Clone, Copy)]
pub struct Step {
    pub answer: Answer,
    pub sealer: Sealer,
}

// What a sealer is after its end: zeros all over, so that no key and no plaintext stays in it.
pub fn ended() -> Sealer
    ensures { result ≡ ended_as }
{
    Sealer {
        rounds: 0,
        words: lists::blank(),
        state: State {
            left: lists::blank(),
            right: lists::blank(),
            sum: lists::blank(),
            kept: lists::blank(),
        },
        added: lists::blank(),
        tag: 0,
        fed: 0,
    }
}

pub fn begin(form: usize, key: &[u8], nonce: &[u8], ad: &[u8], tag: usize) -> Step
    ensures { result ≡ beginning cipher form key.now nonce.now ad.now tag }
{
    let known = link::known_key(key.len());
    if let Err(refusal) = link::call_check(3, form, known, nonce.len(), tag, ad.len()) {
        return Step {
            answer: Err(refusal),
            sealer: ended(),
        };
    }
    let tables = ByTables::new();
    let keys = link::own_keys(key);
    let e = Cipher::new(&tables, &keys);
    let Ran { value: q, runs } = link::own_mask(&e, ad);
    start(form, &e, keys, q, runs, nonce, ad, tag)
}

// A beginning whose checks have passed, under the cipher e of these round keys and from the first mask q, whoever made them; `before` is
// how many times the cipher ran for q. Here a `Settings` is made: the promise goes by the form's number.
fn start<'a>(
    form: usize,
    e: &Cipher,
    keys: RoundKeys,
    q: [u8; 16],
    before: usize,
    nonce: &'a [u8],
    ad: &'a [u8],
    tag: usize,
) -> Step
    requires own { e.now ≡ keys }
    requires lengths { (1 ≤ length nonce.now) × ((length nonce.now ≤ 15) × (tag ≤ 16)) }
    requires ad_len_bound { (length ad.now ≤ 4096) × (before ≤ 1) }
    ensures { result ≡ record { answer = done 0 (before + length (call_inputs (cipher_under e.now) q (V3 (form_of form)) nonce.now ad.now tag)); sealer = begun_by (cipher_under e.now) q e.now.rounds e.now.words form nonce.now ad.now tag } }
{
    let settings = Settings {
        edition: Edition::V3(Form::numbered(form)),
        nonce,
        ad,
        tag,
    };
    let Ran { value: with, runs } = associated::seals_with(e, q, &settings);
    let SealsWith { u, added } = with;
    let RoundKeys { rounds, words } = keys;
    let state = State {
        left: u,
        right: block::triple(u),
        sum: lists::blank(),
        kept: lists::blank(),
    };
    let sealer = Sealer {
        rounds,
        words,
        state,
        added,
        tag,
        fed: 0,
    };
    Step {
        answer: Ok(Done {
            length: 0,
            runs: before + runs,
        }),
        sealer,
    }
}

impl Sealer {
    // Its own two fields: promises name them one by one (`begun_by`), so no type joins them.
    fn round_keys(&self) -> RoundKeys
        ensures { result ≡ record { rounds = self.now.rounds; words = self.now.words } }
    {
        let words = self.words;
        RoundKeys {
            rounds: self.rounds,
            words,
        }
    }

    pub fn feed(mut self, part: &[u8], out: &mut [u8]) -> Step
        ensures { Feeds cipher self part.now out.old result out.new }
    {
        if let Err(refusal) = check::feed(self.rounds, self.tag, self.fed, part.len(), out.len()) {
            return Step {
                answer: Err(refusal),
                sealer: self,
            };
        }
        self.take_in(part, out)
    }

    // A part whose checks have passed. A sealer is any value (`Feeds`), so that its type cannot hold their bounds.
    fn take_in(mut self, part: &[u8], out: &mut [u8]) -> Step
        requires round_count { (10 ≤ self.rounds) × (self.rounds ≤ 14) }
        requires part_bound { (self.fed + length part.now ≤ 16384) × (32 * pairs_of (keeps self.fed + length part.now) ≤ length out.old) }
        ensures { StepBy (Ok (32 * pairs_of (keeps self.fed + length part.now))) (length (fed_inputs (cipher self.rounds self.words) (standing self) part.now)) (fed_bytes (cipher self.rounds self.words) (standing self) part.now) (fed_by self part.now) self out.old result out.new }
    {
        let fed = self.fed;
        let state = self.state;
        let held = check::kept(fed);
        let n = pairs::pairs_of(held + part.len());
        self.fed = fed + part.len();
        if n == 0 {
            // the tables are not copied where no block is ciphered
            let next = parts::keep(state, held, part);
            self.state = next;
            return Step {
                answer: Ok(Done { length: 0, runs: 0 }),
                sealer: self,
            };
        }
        let tables = ByTables::new();
        let keys = self.round_keys();
        let e = Cipher::new(&tables, &keys);
        let Ran { value: next, runs } = parts::feed(&e, state, held, n, part, out);
        self.state = next;
        Step {
            answer: Ok(Done {
                length: 32 * n,
                runs,
            }),
            sealer: self,
        }
    }

    pub fn end(mut self, out: &mut [u8]) -> Step
        ensures { Ends cipher self out.old result out.new }
    {
        if let Err(refusal) = check::end(self.rounds, self.tag, self.fed, out.len()) {
            return Step {
                answer: Err(refusal),
                sealer: self,
            };
        }
        self.give_rest(out)
    }

    // An end whose checks have passed, likewise.
    fn give_rest(self, out: &mut [u8]) -> Step
        requires round_count { (10 ≤ self.rounds) × ((self.rounds ≤ 14) × (self.tag ≤ 16)) }
        requires room { keeps self.fed + self.tag ≤ length out.old }
        ensures { StepBy (Ok (keeps self.fed + self.tag)) (length (end_inputs (cipher self.rounds self.words) (standing self))) (end_bytes (cipher self.rounds self.words) self.added self.tag (standing self)) ended_as self out.old result out.new }
    {
        let tag = self.tag;
        let state = self.state;
        let added = self.added;
        let held = check::kept(self.fed);
        let tables = ByTables::new();
        let keys = self.round_keys();
        let e = Cipher::new(&tables, &keys);
        let runs = parts::end(&e, state, held, added, tag, out);
        Step {
            answer: Ok(Done {
                length: held + tag,
                runs,
            }),
            sealer: ended(),
        }
    }
}

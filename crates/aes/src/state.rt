// The steps of a round, each on the state by value: four columns of four bytes (FIPS 197, sections 3.4 and 5.1).
ghost use Rattle.std.specs.Prelude.{◌≡◌, ◌+◌, ◌*◌, ◌≤◌, ◌<◌, get_or};
ghost use Rattle.std.specs.Int.Bits.{bit_xor};
ghost use Rattle.words.specs.Word.{little};
ghost use Rattle.aes.specs.State.{input as input_of, output as output_of, column, word};
ghost use Rattle.aes.specs.Expansion.{sub_word};
ghost use Rattle.aes.specs.Cipher.{sub_bytes, shift_rows, mixed as mixed_of, mix_columns, add_round_key};
ghost use Rattle.aes.specs.Column.{mixed_column};

use field::Substitution;

pub fn input(b: [u8; 16]) -> [[u8; 4]; 4]
    ensures { result ≡ input_of b }
{
    [
        [b[0], b[1], b[2], b[3]],
        [b[4], b[5], b[6], b[7]],
        [b[8], b[9], b[10], b[11]],
        [b[12], b[13], b[14], b[15]],
    ]
}

pub fn output(s: [[u8; 4]; 4]) -> [u8; 16]
    ensures { result ≡ output_of s }
{
    let [a, b, c, d] = s;
    [
        a[0], a[1], a[2], a[3], b[0], b[1], b[2], b[3], c[0], c[1], c[2], c[3], d[0], d[1], d[2],
        d[3],
    ]
}

// A column of the state, or a word of the key.
pub fn sub_word<S: Substitution>(table: &S, a: [u8; 4]) -> [u8; 4]
    ensures { result ≡ sub_word a }
{
    a.map(|b| table.substitute(b))
}

pub fn sub_bytes<S: Substitution>(table: &S, s: [[u8; 4]; 4]) -> [[u8; 4]; 4]
    ensures { result ≡ sub_bytes s }
{
    // Written out, and not by `map`: of columns it says too little for the proof to find what each became.
    let [a, b, c, d] = s;
    [
        sub_word(table, a),
        sub_word(table, b),
        sub_word(table, c),
        sub_word(table, d),
    ]
}

pub fn shift_rows(s: [[u8; 4]; 4]) -> [[u8; 4]; 4]
    ensures { result ≡ shift_rows s }
{
    let [a, b, c, d] = s;
    [
        [a[0], b[1], c[2], d[3]],
        [b[0], c[1], d[2], a[3]],
        [c[0], d[1], a[2], b[3]],
        [d[0], a[1], b[2], c[3]],
    ]
}

fn mixed(a: u8, b: u8, c: u8, d: u8) -> u8
    ensures { result ≡ mixed_of a b c d }
{
    field::twice(a) ^ field::thrice(b) ^ c ^ d
}

fn mix_column(a: [u8; 4]) -> [u8; 4]
    ensures { result ≡ mixed_column a }
{
    let [p, q, r, s] = a;
    [
        mixed(p, q, r, s),
        mixed(q, r, s, p),
        mixed(r, s, p, q),
        mixed(s, p, q, r),
    ]
}

pub fn mix_columns(s: [[u8; 4]; 4]) -> [[u8; 4]; 4]
    ensures { result ≡ mix_columns s }
{
    // Written out, as in `sub_bytes`.
    let [a, b, c, d] = s;
    [mix_column(a), mix_column(b), mix_column(c), mix_column(d)]
}

// Word i of the expanded key. The index is a plain number with a bound: a type for it would be made and opened again at each use.
pub fn key_word(w: &[u8; 240], i: usize) -> u32
    requires { i < 60 }
    ensures { little 4 result ≡ word w.now i }
{
    let j = 4 * i;
    words::pack(w[j + 0], w[j + 1], w[j + 2], w[j + 3])
}

// A column and word i of the expanded key, with a plain bound, as in `key_word`.
#[tactic(auto, using(words::proofs::Words::little_xor), unfolding(lists::specs::Xor::xor))]
fn add_word(w: &[u8; 240], i: usize, a: [u8; 4]) -> [u8; 4]
    requires { i < 60 }
    ensures { result ≡ column (λ r. bit_xor (get_or a r 0) (get_or w.now (4 * i + r) 0)) }
{
    let own = words::pack(a[0], a[1], a[2], a[3]);
    words::unpack(own ^ key_word(w, i))
}

#[tactic(auto, unfolding(crate::specs::Cipher::add_round_key))]
pub fn add_round_key(w: &[u8; 240], round: usize, s: [[u8; 4]; 4]) -> [[u8; 4]; 4]
    requires { round ≤ 14 }
    ensures { result ≡ add_round_key w.now round s }
{
    let i = 4 * round;
    [
        add_word(w, i + 0, s[0]),
        add_word(w, i + 1, s[1]),
        add_word(w, i + 2, s[2]),
        add_word(w, i + 3, s[3]),
    ]
}

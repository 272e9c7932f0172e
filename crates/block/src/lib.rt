// Blocks of 16 bytes by value: read, XOR, pad, double and its multiples. They are put with `lists::lay`. To be XORed and doubled a
// block becomes two words.
#![tactic(auto)]

ghost use Rattle.std.specs.Prelude.{◌≡◌, ◌+◌, ◌≤◌, length, take, drop};
ghost use Rattle.block.specs.Block.{filled, pad as pad_of};

mod kind;
mod wide;

pub use kind::{Block, seven, triple, triple_twice};
pub use wide::{double_big, shift_big, turn_words};

// The n bytes of s from place at on, with zeros behind them.
pub fn read(s: &[u8], at: usize, n: usize) -> [u8; 16]
    requires { (n ≤ 16) × (at + n ≤ length s.now) }
    ensures { result ≡ filled (take n (drop at s.now)) }
{
    let mut b = lists::blank();
    lists::lay(&mut b, 0, &s[at..at + n]);
    b
}

// The whole block of s at place at.
pub fn read_block(s: &[u8], at: usize) -> [u8; 16]
    requires { at + 16 ≤ length s.now }
    ensures { result ≡ take 16 (drop at s.now) }
{
    read(s, at, 16)
}

// The first n bytes of b, padded.
pub fn pad(b: [u8; 16], n: usize) -> [u8; 16]
    requires { n ≤ 16 }
    ensures { result ≡ pad_of (take n b) }
{
    if 16 <= n {
        return b;
    }
    let mut p = lists::blank();
    lists::lay(&mut p, 0, &b[..n]);
    p[n] = 0x80;
    p
}

// The nonce block of each edition.
ghost use Rattle.std.specs.Prelude.{◌≡◌, ◌≤◌, length};
ghost use Rattle.block.specs.Block.{pad};
ghost use Rattle.mode.specs.Nonce.{format as format_of, nonce_block};

use crate::Settings;
use mode::Edition;

fn format(t: usize, nonce: &[u8]) -> [u8; 16]
    requires lengths { (1 ≤ length nonce.now) × (length nonce.now ≤ 15) }
    requires t_bound { t ≤ 16 }
    ensures { result ≡ format_of t nonce.now }
{
    let marker = 15 - nonce.len();
    let mut b = lists::blank();
    b[0] = (2 * (8 * t % 128)) as u8;
    b[marker] += 1;
    b[marker + 1..].copy_from_slice(nonce);
    b
}

fn padded(nonce: &[u8]) -> [u8; 16]
    requires { length nonce.now ≤ 15 }
    ensures { result ≡ pad nonce.now }
{
    let k = nonce.len();
    block::pad(block::read(nonce, 0, k), k)
}

pub fn nonce_block(s: &Settings) -> [u8; 16]
    ensures { result ≡ nonce_block s.now.edition s.now.tag s.now.nonce.now }
{
    match s.edition {
        Edition::V1 => padded(s.nonce),
        Edition::V3(_) => format(s.tag, s.nonce),
    }
}

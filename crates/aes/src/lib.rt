// The forward cipher of FIPS 197 for keys of 16, 24 and 32 bytes, by the steps of its figures.
#![tactic(auto)]

mod cipher;
mod expansion;
mod key;
mod state;
mod steps;

pub use cipher::encrypt;
pub use key::{KeySize, RoundKeys, encrypt_under, expand, key_size};
pub use state::{key_word, shift_rows};
pub use steps::Steps;

// The cipher of FIPS 197 by the joined tables, which each `Cipher` has.
#![tactic(auto)]

mod cipher;
mod column;
mod ran;
mod under;

pub use column::ByTables;
pub use ran::Ran;
pub use under::Cipher;

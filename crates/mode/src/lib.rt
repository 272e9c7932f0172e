// AES-OTR as mathematics: the definitions over any cipher and any masks, and the theorem about opening. In code there are the editions
// and forms alone, which the definitions go by too.
#![tactic(auto)]

mod edition;

pub use edition::{Edition, Form};

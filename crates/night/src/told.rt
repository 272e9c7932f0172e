// The words that the program is told.
ghost use Rattle.std.specs.Prelude.{◌≤◌, IfSome};

use std::env::FillError;
use std::rt::Env;

// The longest key that is known, and the longest message that is sealed.
const MOST_KEY: usize = 32;

pub const MOST_MESSAGE: usize = 16384;

// How the message is sealed.
#[derive(Clone, Copy)]
pub enum Way {
    Raw,
    Prepared,
    // So many bytes at a time, and then so many feeds of no bytes.
    Parts { bytes: usize, idle: usize },
    Planned,
    // Not at all: only the masks are worked out.
    Masks,
}

// What is to be done: how, with a key and a message of so many bytes, and how many times.
#[derive(Clone, Copy)]
pub struct Told {
    pub way: Way,
    pub key: usize,
    pub message: usize,
    pub calls: usize,
    ghost key_bound: { key ≤ 32 },
    ghost message_bound: { message ≤ 16384 },
}

// What the words say; none where they say nothing that can be done.
pub fn read(rt: &impl Env) -> Option<Told> {
    let (way, next) = read_way(rt)?;
    let key = number_at(rt, next)?;
    let message = number_at(rt, next + 1)?;
    let calls = number_at(rt, next + 2)?;
    let known = key <= MOST_KEY && message <= MOST_MESSAGE && calls != 0;
    if !known || !ends_at(rt, next + 3) {
        return None;
    }
    Some(Told {
        way,
        key,
        message,
        calls,
    })
}

// The way, and where the words begin that every way is told.
fn read_way(rt: &impl Env) -> Option<(Way, usize)>
    ensures { IfSome result (λ read. read.1 ≤ 3) }
{
    let mut lent = [0u8; 8];
    Some(match word_at(rt, 1, &mut lent)? {
        b"raw" => (Way::Raw, 2),
        b"prepared" => (Way::Prepared, 2),
        b"planned" => (Way::Planned, 2),
        b"masks" => (Way::Masks, 2),
        b"parts" => (parts_of(number_at(rt, 2)?)?, 3),
        b"idle" => (idle_for(number_at(rt, 2)?), 3),
        _ => return None,
    })
}

// In parts of no bytes a message would never get to its end.
fn parts_of(bytes: usize) -> Option<Way> {
    if bytes == 0 || MOST_MESSAGE < bytes {
        return None;
    }
    Some(Way::Parts { bytes, idle: 0 })
}

// No message is longer than such a part.
fn idle_for(feeds: usize) -> Way {
    Way::Parts {
        bytes: MOST_MESSAGE,
        idle: feeds,
    }
}

// The number that word `i` stands for. A word that is missing, or longer than five digits, stands for none.
fn number_at(rt: &impl Env, i: usize) -> Option<usize> {
    let mut lent = [0u8; 5];
    digits::decimal(word_at(rt, i, &mut lent)?)
}

// Whether the words end before word `i`.
fn ends_at(rt: &impl Env, i: usize) -> bool {
    let mut lent = [0u8; 1];
    matches!(rt.arg(i, &mut lent), Err(FillError::NotPresent))
}

// Word `i`, put into the bytes that are lent; none where it is missing or longer than those.
fn word_at<'a>(rt: &impl Env, i: usize, lent: &'a mut [u8]) -> Option<&'a [u8]> {
    let count = rt.arg(i, lent).ok()?;
    Some(&lent[..count])
}

// Sealing in parts: sessions with a sealer.
ghost use Rattle.std.specs.Prelude.{◌≤◌, length};

use crate::{PARALLEL, Strings, TAG_BYTES, done, repeat};
use link::{Answer, Done};
use sealer::Step;

// The answer is that of the last session.
pub fn seal(strings: Strings, part: usize, idle: usize, out: &mut [u8], calls: usize) -> Answer {
    repeat(calls, done(0, 0), || {
        let begun = sealer::begin(
            PARALLEL,
            strings.key,
            strings.nonce,
            strings.data,
            TAG_BYTES,
        );
        let fed = feed_parts(begun, strings.message, part, out);
        let idled = feed_none(fed, idle, out);
        end(idled, out)
    })
}

// In a step that goes from one of these functions to the next, the answer is that of all the session's calls so far; its length is where
// the output goes on. No part has no bytes: main makes none.
fn feed_parts(begun: Step, message: &[u8], part: usize, out: &mut [u8]) -> Step {
    let mut sum = begun;
    for bytes in message.chunks(part.max(1)) {
        let from = behind(sum.answer, out);
        sum = plus(sum.answer, sum.sealer.feed(bytes, &mut out[from..]));
    }
    sum
}

// No bytes, so many times. Nothing comes out, so that all of the output can be lent.
fn feed_none(fed: Step, feeds: usize, out: &mut [u8]) -> Step {
    let mut sum = fed;
    for _feed in 0..feeds {
        sum = plus(sum.answer, sum.sealer.feed(b"", out));
    }
    sum
}

fn end(fed: Step, out: &mut [u8]) -> Answer {
    let from = behind(fed.answer, out);
    plus(fed.answer, fed.sealer.end(&mut out[from..])).answer
}

// Where the output goes on behind what the calls so far put out. That never comes to more than the output, but no proof says so here: if
// it did, the next call would be lent no room.
fn behind(sum: Answer, out: &[u8]) -> usize
    ensures { result ≤ length out.now }
{
    link::length(sum).min(out.len())
}

// The next step, with what the calls so far and its own come to.
fn plus(before: Answer, next: Step) -> Step {
    Step {
        answer: together(before, next.answer),
        sealer: next.sealer,
    }
}

// The first refusal, or both done.
fn together(before: Answer, next: Answer) -> Answer {
    let before = before?;
    let next = next?;
    Ok(Done {
        length: before.length.wrapping_add(next.length),
        runs: before.runs.wrapping_add(next.runs),
    })
}

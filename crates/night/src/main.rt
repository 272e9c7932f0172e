// Makes one sealing so many times, for bench/run to count what the calls from C do not offer: a prepared key (document 02, wish 9: the
// mount uses a key all night), sealing in parts (wish 3), and sealing by a plan (wish 13).
//
//     night raw|prepared|planned|masks KEY_BYTES MESSAGE_BYTES CALLS
//     night parts PART_BYTES KEY_BYTES MESSAGE_BYTES CALLS
//     night idle FEEDS KEY_BYTES MESSAGE_BYTES CALLS
//
// The edition is 3, the form parallel; the nonce has 12 bytes, the data 16 and the tag 16. Byte i of each string is (7 i + 3) mod 256, as
// in bench/case.rs. A key is prepared once, before the calls. In parts a call is a session, with a sealer of its own: `parts` feeds it
// PART_BYTES bytes at a time, and in the end what is left; `idle` feeds it the message at once, and then no bytes FEEDS times, so that
// what a feed costs by itself can be told. `planned` seals by the planner's plan, which is made once, before the calls, and `masks` works
// out its masks alone, from the first 16 bytes of the one string, and has their sum for the tag.
//
// The answer is the line `NUMBER LENGTH RUNS TAG` of the last call, where TAG is the last 16 bytes of the output, in hexadecimal, all 00
// where nothing was written. For a session it is the line of the one call: lengths and runs are added up, and the first refusal stands
// for all. Told anything else, it says on standard error how it is used, and nothing more.
#![tactic(auto)]

mod planned;
mod session;
mod told;

ghost use Rattle.std.specs.Prelude.{◌≤◌, length};

use link::{Answer, Done};
use std::io;
use told::{Told, Way};

const EDITION: usize = 3;

const PARALLEL: usize = 0;

const NONCE_BYTES: usize = 12;

const DATA_BYTES: usize = 16;

const TAG_BYTES: usize = 16;

// What sealing the longest message puts out.
const MOST_OUTPUT: usize = told::MOST_MESSAGE + TAG_BYTES;

// What is sealed, and under what.
#[derive(Clone, Copy)]
struct Strings<'a> {
    key: &'a [u8],
    nonce: &'a [u8],
    data: &'a [u8],
    message: &'a [u8],
}

fn main(rt: HostRuntime) -> io::Result<()> {
    match told::read(&rt) {
        Some(told) => run(&rt, told),
        None => usage(&rt),
    }
}

fn usage(rt: &impl Eprint) -> io::Result<()> {
    eprint!(rt;
        "usage: night raw | prepared | planned | masks | parts PART_BYTES | idle FEEDS, and then KEY_BYTES MESSAGE_BYTES CALLS "
    )?;
    eprintln!(rt; "(1 to 16384, at most 65535, at most 32, at most 16384, 1 to 65535)")
}

// Each of the four strings is the start of the one.
fn run(rt: &impl Print, told: Told) -> io::Result<()> {
    let mut string = [0u8; MOST_OUTPUT];
    for (i, byte) in string.iter_mut().enumerate() {
        *byte = byte_at(i);
    }
    let strings = Strings {
        key: &string[..told.key],
        nonce: &string[..NONCE_BYTES],
        data: &string[..DATA_BYTES],
        message: &string[..told.message],
    };
    let mut output = [0u8; MOST_OUTPUT];
    let out = &mut output[..told.message + TAG_BYTES];
    let answer = seal(told.way, strings, out, told.calls);
    print(rt, answer, out)
}

fn byte_at(i: usize) -> u8 {
    ((7 * (i % 256) + 3) % 256) as u8
}

fn seal(way: Way, strings: Strings, out: &mut [u8], calls: usize) -> Answer
    requires { 16 ≤ length strings.«data».now }
{
    match way {
        Way::Raw => seal_raw(strings, out, calls),
        Way::Prepared => seal_prepared(strings, out, calls),
        Way::Parts { bytes, idle } => session::seal(strings, bytes, idle, out, calls),
        Way::Planned => planned::seal(strings, out, calls),
        Way::Masks => planned::masks(strings, out, calls),
    }
}

// The answer of the last of so many calls, or `before` of none. A turn makes the call and nothing else.
fn repeat<F: FnMut() -> Answer>(calls: usize, before: Answer, mut call: F) -> Answer
    requires { F.IsAlwaysCallable call }
{
    let mut answer = before;
    for _call in 0..calls {
        answer = call();
    }
    answer
}

fn seal_raw(strings: Strings, out: &mut [u8], calls: usize) -> Answer {
    repeat(calls, done(0, 0), || {
        link::seal(
            EDITION,
            PARALLEL,
            strings.key,
            strings.nonce,
            strings.data,
            strings.message,
            TAG_BYTES,
            out,
        )
    })
}

fn seal_prepared(strings: Strings, out: &mut [u8], calls: usize) -> Answer {
    let preparation = link::prepare(strings.key);
    let record = preparation.key;
    repeat(calls, preparation.answer, || {
        link::seal_with(
            EDITION,
            PARALLEL,
            record,
            strings.nonce,
            strings.data,
            strings.message,
            TAG_BYTES,
            out,
        )
    })
}

fn done(length: usize, runs: usize) -> Answer {
    Ok(Done { length, runs })
}

fn print(rt: &impl Print, answer: Answer, out: &[u8]) -> io::Result<()>
    requires { 16 ≤ length out.now }
{
    let number = link::number(answer);
    let length = link::length(answer);
    let runs = link::runs(answer);
    print!(rt; "{number} {length} {runs} ")?;
    // as fips197 prints: the two share no crate that prints, and one for three lines is no plainer
    for byte in &out[out.len() - TAG_BYTES..] {
        print!(rt; "{byte:02x}")?;
    }
    println!(rt)
}

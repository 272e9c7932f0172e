// The bench console: whoever types or pipes in requests, one a line, sees exactly what a box would answer.
//
//     seal EDITION FORM KEY NONCE DATA MESSAGE TAG ROOM
//     open EDITION FORM KEY NONCE DATA SEALED TAG ROOM
//     prepare KEY
//     seal-with EDITION FORM ROUNDS WORDS ZERO NONCE DATA MESSAGE TAG ROOM
//     open-with EDITION FORM ROUNDS WORDS ZERO NONCE DATA SEALED TAG ROOM
//     begin FORM KEY NONCE DATA TAG
//     feed PART ROOM
//     end ROOM
//     carry EDITION FORM KEY NONCE DATA TAG RECORD FORM2 KEY2 NONCE2 DATA2 ROOM WORKROOM
//     plan LENGTH ROOM
//     seal-planned KEY NONCE DATA MESSAGE PLAN TAG ROOM
//
// One space stands between two fields. EDITION, FORM, ROUNDS, LENGTH, TAG and ROOM, and so FORM2 and WORKROOM, are decimal, up to 65535,
// and the rooms up to 20480; edition 1 is v1, 3 is v3.1; form 0 is the parallel one, 1 the serial one, which edition 3 alone has. The other
// fields are hexadecimal, two digits of either case a byte, or `-` for no bytes. ROUNDS, WORDS and ZERO are a prepared key: its round
// count, the 240 bytes of its round keys, and the 16 of E(zero).
//
// A sealing or an opening has an output buffer of ROOM bytes, all a5 before the call, and its answer is the line
// `NUMBER LENGTH RUNS OUTPUT`: RUNS says how many times the cipher ran, and OUTPUT is the whole buffer after the call, in hexadecimal.
// The answer to `prepare` is `NUMBER RUNS ROUNDS WORDS ZERO`.
//
// `begin`, `feed` and `end` seal a message that comes in parts, in edition 3. The console keeps one sealer from line to line, which counts
// as ended before the first `begin`: each `begin` replaces it by the one that it hands back, also where it is refused, and `feed` and
// `end` go to it. No other line changes it. The three are answered as a sealing is; `begin` has no output buffer, and its OUTPUT is `-`.
//
// `carry` carries RECORD over to the other edition. It has a work buffer of WORKROOM bytes too, all a5 before the call, and its answer is
// `NUMBER SIDE LENGTH RUNS OUTPUT WORK`: SIDE is 0 for neither, 1 for the old side and 2 for the new one, and WORK the whole work buffer
// after the call.
//
// `plan` asks for a plan for a message of LENGTH bytes, and `seal-planned` seals by one, in edition 3 with parallel data (document 02,
// wish 13). A plan has three bytes an entry: a pair's number, with the high byte first, and an engine, 0 to 3. Both are answered as a
// sealing is.
//
// A line has up to 65000 bytes, and ends at LF, CR LF or the input's end. One that is empty or begins with `#` is passed over. Any
// other line that is no request, and any longer line, is answered by `bad line N`, where N counts all lines from 1.
#![tactic(auto)]

mod answer;
mod call;
mod fields;
mod request;

ghost use Rattle.std.specs.Prelude.{◌≡◌, ◌≤◌};
ghost use Rattle.console.specs.declared.TheConstants.{BUFFER};

use call::Desk;
use memchr::memchr;
use std::io::{self, Read, Write};

// How many bytes are read at once, and how many of a line are held: more than a line may have.
const BUFFER: usize = 65536;

// The line that is being read.
#[derive(Drop)]
struct Incoming {
    // Its number, from 1.
    number: u64,
    bytes: [u8; BUFFER],
    // How many of its bytes are held, at the start of the buffer.
    held: usize,
    ghost in_bounds: { held ≤ BUFFER },
}

fn main(rt: HostRuntime) {
    converse(&mut rt.stdin(), &mut rt.stdout());
}

// A proved loop has to end, and nothing says that an input does. So the loop counts its turns, up to a number that no run comes to.
fn converse<R: Read, W: Write>(from: &mut R, to: &mut W) {
    let mut chunk = [0u8; BUFFER];
    let mut line = Incoming::new();
    let mut desk = Desk::new(to);
    for _turn in 0..u64::MAX {
        // A read that fails counts as the input's end, where what is held is a line too.
        let count = from.read(&mut chunk).unwrap_or(0);
        if count == 0 {
            if line.held > 0 {
                // the last answer, written or not
                line.reply(&mut desk).unwrap_or(());
            }
            break;
        }
        if take(&chunk[..count], &mut line, &mut desk).is_err() {
            break;
        }
    }
}

// Answers the lines that end in the chunk, and holds what is left of it. After an answer that could not be written nothing is read on.
fn take<W: Write>(chunk: &[u8], line: &mut Incoming, desk: &mut Desk<W>) -> io::Result<()> {
    let mut rest = chunk;
    while let Some(end) = memchr(b'\n', rest) {
        let (part, behind) = rest.split_at(end);
        line.hold(part);
        line.end(desk)?;
        rest = &behind[1..];
    }
    line.hold(rest);
    Ok(())
}

impl Incoming {
    fn new() -> Incoming {
        Incoming {
            number: 1,
            bytes: [0; BUFFER],
            held: 0,
        }
    }

    // Puts more of the line behind what is held of it. A line that fills its buffer is longer than a line may be, so that the rest of it
    // need not be held.
    fn hold(&mut self, bytes: &[u8]) {
        let from = self.held;
        let count = bytes.len().min(BUFFER - from);
        let to = from + count;
        self.bytes[from..to].copy_from_slice(&bytes[..count]);
        self.held = to;
    }

    // Answers the line, whose LF has come, and goes on to the next. CR LF counts as LF.
    fn end<W: Write>(&mut self, desk: &mut Desk<W>) -> io::Result<()>
        ensures { self.new.held ≡ 0 }
    {
        if self.bytes[..self.held].ends_with(b"\r") {
            self.held -= 1;
        }
        let written = self.reply(desk);
        self.held = 0;
        // No input has so many lines that this wraps.
        self.number = self.number.wrapping_add(1);
        written
    }

    // Answers what is held.
    fn reply<W: Write>(&mut self, desk: &mut Desk<W>) -> io::Result<()> {
        let number = self.number;
        desk.reply(self.line(), number)
    }

    fn line(&mut self) -> &mut [u8] {
        let held = self.held;
        let bytes = &mut self.bytes;
        &mut bytes[..held]
    }
}

// The answer lines. Each is put together whole before any of it is written; that of carrying a record over, which has two buffers, in two
// pieces.
ghost use Rattle.std.specs.Prelude.{◌≡◌, ◌+◌, ◌*◌, ◌<◌, ◌≤◌, length};
ghost use Rattle.console.specs.declared.answer.TheConstants.{MOST_TEXT};

use crate::fields::MOST_ROOM;
use carrying::{Carried, Side};
use std::io::{self, Write};

// The longest that is written at once: two digits a byte of the largest output buffer, four numbers of at most 20 digits with a space
// behind each, and two bytes more.
const MOST_TEXT: usize = 2 * MOST_ROOM + 86;

// Where the answers go, and the text of the next one.
#[derive(Drop)]
pub struct Answers<W> {
    to: W,
    text: Text,
}

impl<W: Write> Answers<W> {
    pub fn new(to: W) -> Answers<W> {
        Answers {
            to,
            text: Text::empty(),
        }
    }

    // Writes `NUMBER LENGTH RUNS OUTPUT`.
    pub fn answer(&mut self, answer: link::Answer, output: &[u8]) -> io::Result<()>
        requires { length output.now ≤ MOST_ROOM }
    {
        self.text.clear();
        self.text.field(link::number(answer));
        self.text.field(link::length(answer));
        self.text.field(link::runs(answer));
        self.text.hex(output);
        self.end_line()
    }

    // Writes `NUMBER SIDE LENGTH RUNS OUTPUT WORK`.
    pub fn carried(&mut self, carried: Carried, output: &[u8], work: &[u8]) -> io::Result<()>
        requires output_in_bounds { length output.now ≤ MOST_ROOM }
        requires work_in_bounds { length work.now ≤ MOST_ROOM }
    {
        let answer = carried.answer;
        self.text.clear();
        self.text.field(link::number(answer));
        self.text.field(side_number(carried.side));
        self.text.field(link::length(answer));
        self.text.field(link::runs(answer));
        self.text.hex(output);
        self.text.put(b" ");
        self.write()?;
        self.text.clear();
        self.text.hex(work);
        self.end_line()
    }

    // Writes `NUMBER RUNS ROUNDS WORDS ZERO`.
    pub fn preparation(&mut self, made: link::Preparation) -> io::Result<()> {
        let answer = made.answer;
        let key = made.key;
        let words = key.words;
        let zero = key.zero;
        self.text.clear();
        self.text.field(link::number(answer));
        self.text.field(link::runs(answer));
        self.text.field(key.rounds);
        self.text.hex(&words);
        self.text.put(b" ");
        self.text.hex(&zero);
        self.end_line()
    }

    // Writes `bad line N`.
    pub fn bad_line(&mut self, number: u64) -> io::Result<()> {
        self.text.clear();
        self.text.put(b"bad line ");
        self.text.number(number);
        self.end_line()
    }

    fn end_line(&mut self) -> io::Result<()>
        requires { self.old.text.end < MOST_TEXT }
    {
        self.text.put(b"\n");
        self.write()
    }

    fn write(&mut self) -> io::Result<()> {
        self.to.write_all(self.text.as_slice())
    }
}

// By hand: the number of a side is the console's alone.
fn side_number(side: Side) -> usize {
    match side {
        Side::Neither => 0,
        Side::Old => 1,
        Side::New => 2,
    }
}

// A text that is put together: the bytes up to `end`. Numbers are laid out by hand, since `write!` into a slice may fail, and no clause of
// std's says that it does not where there is room.
#[derive(Drop)]
struct Text {
    bytes: [u8; MOST_TEXT],
    end: usize,
    ghost in_bounds: { end ≤ MOST_TEXT },
}

impl Text {
    fn empty() -> Text {
        Text {
            bytes: [0; MOST_TEXT],
            end: 0,
        }
    }

    fn clear(&mut self)
        ensures { self.new.end ≡ 0 }
    {
        self.end = 0;
    }

    fn as_slice(&self) -> &[u8] {
        &self.bytes[..self.end]
    }

    fn put(&mut self, bytes: &[u8])
        requires { self.old.end + length bytes.now ≤ MOST_TEXT }
        ensures { self.new.end ≡ self.old.end + length bytes.now }
    {
        let from = self.end;
        let end = from + bytes.len();
        self.bytes[from..end].copy_from_slice(bytes);
        self.end = end;
    }

    // Puts a number's decimal digits.
    fn number(&mut self, number: u64)
        requires { self.old.end + 20 ≤ MOST_TEXT }
        ensures { self.new.end ≤ self.old.end + 20 }
    {
        let mut digits = [0u8; 20];
        let from = lay_digits(&mut digits, number);
        self.put(&digits[from..]);
    }

    // The same with a space behind them.
    fn field(&mut self, number: usize)
        requires { self.old.end + 21 ≤ MOST_TEXT }
        ensures { self.new.end ≤ self.old.end + 21 }
    {
        self.number(number as u64);
        self.put(b" ");
    }

    // Puts bytes as hexadecimal digits, two a byte, or `-` for no bytes.
    fn hex(&mut self, bytes: &[u8])
        requires { self.old.end + 2 * length bytes.now + 1 ≤ MOST_TEXT }
        ensures { self.new.end ≤ self.old.end + 2 * length bytes.now + 1 }
    {
        if bytes.is_empty() {
            return self.put(b"-");
        }
        let from = self.end;
        let end = from + 2 * bytes.len();
        lay_hex(&mut self.bytes[from..end], bytes);
        self.end = end;
    }
}

// Lays bytes as hexadecimal digits over a part of the text that is twice as long. Not inlined, so that the compiler sees that the two share
// no byte, and takes many at once: one by one a large output takes as long here as to seal it.
#[inline(never)]
fn lay_hex(part: &mut [u8], bytes: &[u8])
    requires { length part.old ≡ 2 * length bytes.now }
{
    let (places, _) = part.as_chunks_mut::<2>();
    for (digits, byte) in places.iter_mut().zip(bytes) {
        *digits = [hex_digit(*byte / 16), hex_digit(*byte % 16)];
    }
}

// Lays a number's decimal digits at the end of a buffer, and answers where they begin. No number of 64 bits has more digits than 20. By
// hand, as `Text` says.
fn lay_digits(digits: &mut [u8; 20], number: u64) -> usize
    ensures { result ≤ 20 }
{
    let mut left = number;
    for (i, digit) in digits.iter_mut().enumerate().rev() {
        *digit = b'0' + (left % 10) as u8;
        left /= 10;
        if left == 0 {
            return i;
        }
    }
    0
}

// By hand, as `Text` says.
fn hex_digit(value: u8) -> u8
    requires { value < 16 }
{
    if value < 10 {
        b'0' + value
    } else {
        b'a' + (value - 10)
    }
}

// Carrying a request out.
ghost use Rattle.std.specs.Prelude.{◌≡◌, length};

use crate::answer::Answers;
use crate::fields::{MOST_ROOM, Room};
use crate::request::{self, Beginning, Carrying, Feeding, Key, Line, Planned, Planning, Request};
use sealer::Sealer;
use std::io::{self, Write};

// What every byte of an output buffer is before the call, so that the answer shows which bytes the call left alone.
const UNTOUCHED: u8 = 0xa5;

// Where requests are carried out: the buffers that are lent to the library, the sealer that is kept from line to line, and where the
// answers go. Each request's method says whether its answer could be written.
#[derive(Drop)]
pub struct Desk<W> {
    output: [u8; MOST_ROOM],
    work: [u8; MOST_ROOM],
    sealer: Sealer,
    answers: Answers<W>,
}

impl<W: Write> Desk<W> {
    pub fn new(to: W) -> Desk<W> {
        Desk {
            output: [0; MOST_ROOM],
            work: [0; MOST_ROOM],
            sealer: sealer::ended(),
            answers: Answers::new(to),
        }
    }

    // Answers a line, given its number.
    pub fn reply(&mut self, line: &mut [u8], number: u64) -> io::Result<()> {
        match request::parse(line) {
            Some(asked) => self.carry_out(asked),
            None => self.answers.bad_line(number),
        }
    }

    fn carry_out(&mut self, asked: Line) -> io::Result<()> {
        match asked {
            Line::Seal(request) => self.seal(request),
            Line::Open(request) => self.open(request),
            Line::Prepare(key) => self.answers.preparation(link::prepare(key)),
            Line::Begin(request) => self.begin(request),
            Line::Feed(request) => self.feed(request),
            Line::End(room) => self.end(room),
            Line::Carry(request) => self.carry(request),
            Line::Plan(request) => self.plan(request),
            Line::SealPlanned(request) => self.seal_planned(request),
            Line::PassedOver => Ok(()),
        }
    }

    fn seal(&mut self, request: Request) -> io::Result<()> {
        let Request {
            edition,
            form,
            key,
            nonce,
            data,
            message,
            tag,
            room,
        } = request;
        let buffer = lend(&mut self.output, room);
        let answer = match key {
            Key::Raw(key) => link::seal(edition, form, key, nonce, data, message, tag, buffer),
            Key::Prepared(record) => {
                let key = record.prepared();
                link::seal_with(edition, form, key, nonce, data, message, tag, buffer)
            }
        };
        self.answers.answer(answer, buffer)
    }

    fn open(&mut self, request: Request) -> io::Result<()> {
        let Request {
            edition,
            form,
            key,
            nonce,
            data,
            message,
            tag,
            room,
        } = request;
        let buffer = lend(&mut self.output, room);
        let answer = match key {
            Key::Raw(key) => link::open(edition, form, key, nonce, data, message, tag, buffer),
            Key::Prepared(record) => {
                let key = record.prepared();
                link::open_with(edition, form, key, nonce, data, message, tag, buffer)
            }
        };
        self.answers.answer(answer, buffer)
    }

    // Begins a sealing, whose sealer takes the place of the one before it.
    fn begin(&mut self, request: Beginning) -> io::Result<()> {
        let settings = request.settings;
        let step = sealer::begin(
            settings.form,
            settings.key,
            settings.nonce,
            settings.ad,
            request.tag,
        );
        self.sealer = step.sealer;
        self.answers.answer(step.answer, b"")
    }

    // Hands the sealer the next part of its message.
    fn feed(&mut self, request: Feeding) -> io::Result<()> {
        let buffer = lend(&mut self.output, request.room);
        let step = self.sealer.feed(request.part, buffer);
        self.sealer = step.sealer;
        self.answers.answer(step.answer, buffer)
    }

    // Ends the sealing.
    fn end(&mut self, room: Room) -> io::Result<()> {
        let buffer = lend(&mut self.output, room);
        let step = self.sealer.end(buffer);
        self.sealer = step.sealer;
        self.answers.answer(step.answer, buffer)
    }

    fn carry(&mut self, request: Carrying) -> io::Result<()> {
        let buffer = lend(&mut self.output, request.room);
        let work = lend(&mut self.work, request.work);
        let carried = carrying::carry(
            request.edition,
            &request.old,
            request.tag,
            request.sealed,
            &request.new,
            buffer,
            work,
        );
        self.answers.carried(carried, buffer, work)
    }

    fn plan(&mut self, request: Planning) -> io::Result<()> {
        let buffer = lend(&mut self.output, request.room);
        let answer = engines::plan(request.message, buffer);
        self.answers.answer(answer, buffer)
    }

    fn seal_planned(&mut self, request: Planned) -> io::Result<()> {
        let buffer = lend(&mut self.output, request.room);
        let answer = engines::seal_planned(
            request.key,
            request.nonce,
            request.data,
            request.message,
            request.tag,
            request.plan,
            buffer,
        );
        self.answers.answer(answer, buffer)
    }
}

// So many bytes of a buffer, as they are before a call.
fn lend(buffer: &mut [u8; MOST_ROOM], room: Room) -> &mut [u8]
    ensures { length result.now ≡ room.bytes }
{
    let lent = &mut buffer[..room.bytes];
    lent.fill(UNTOUCHED);
    lent
}

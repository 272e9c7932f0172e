// What a line asks for.
use crate::fields::{Fields, Room};
use carrying::Settings;
use link::Prepared;

// The most bytes of a line, without its line end.
const MOST_LINE: usize = 65000;

// How many bytes the round keys of a prepared key have.
const WORDS: usize = 240;

// How many its E(zero) has.
const ZERO: usize = 16;

#[derive(Clone, Copy)]
pub enum Key<'a> {
    Raw(&'a [u8]),
    Prepared(Record<'a>),
}

// A prepared key whose bytes stay in the line: a request that held them would be moved with them each time.
#[derive(Clone, Copy)]
pub struct Record<'a> {
    rounds: usize,
    words: &'a [u8; WORDS],
    zero: &'a [u8; ZERO],
}

impl<'a> Record<'a> {
    pub fn prepared(self) -> Prepared {
        Prepared {
            rounds: self.rounds,
            words: *self.words,
            zero: *self.zero,
        }
    }
}

// A request to seal or to open. Its edition and form are as typed: the library refuses the numbers that name nothing.
#[derive(Clone, Copy)]
pub struct Request<'a> {
    pub edition: usize,
    pub form: usize,
    pub key: Key<'a>,
    pub nonce: &'a [u8],
    pub data: &'a [u8],
    // MESSAGE, or SEALED where the request opens.
    pub message: &'a [u8],
    pub tag: usize,
    pub room: Room,
}

// A request to begin a sealing whose message comes in parts.
#[derive(Clone, Copy)]
pub struct Beginning<'a> {
    pub settings: Settings<'a>,
    pub tag: usize,
}

// A request to carry a record over.
#[derive(Clone, Copy)]
pub struct Carrying<'a> {
    pub edition: usize,
    pub old: Settings<'a>,
    pub tag: usize,
    // RECORD.
    pub sealed: &'a [u8],
    pub new: Settings<'a>,
    pub room: Room,
    // WORKROOM.
    pub work: Room,
}

// A request to feed the sealer a part of its message.
#[derive(Clone, Copy)]
pub struct Feeding<'a> {
    pub part: &'a [u8],
    pub room: Room,
}

// A request for a plan for a message of so many bytes.
#[derive(Clone, Copy)]
pub struct Planning {
    pub message: usize,
    pub room: Room,
}

// A request to seal by a plan.
#[derive(Clone, Copy)]
pub struct Planned<'a> {
    pub key: &'a [u8],
    pub nonce: &'a [u8],
    pub data: &'a [u8],
    pub message: &'a [u8],
    pub plan: &'a [u8],
    pub tag: usize,
    pub room: Room,
}

#[derive(Clone, Copy)]
pub enum Line<'a> {
    Seal(Request<'a>),
    Open(Request<'a>),
    // A request to prepare a key.
    Prepare(&'a [u8]),
    Begin(Beginning<'a>),
    Feed(Feeding<'a>),
    // A request to end the sealing.
    End(Room),
    Carry(Carrying<'a>),
    Plan(Planning),
    SealPlanned(Planned<'a>),
    PassedOver,
}

// What a line is; none where it is no request and not passed over. The strings of a request are turned into bytes in the line itself.
pub fn parse(line: &mut [u8]) -> Option<Line<'_>> {
    if MOST_LINE < line.len() {
        return None;
    }
    if line.is_empty() || line[0] == b'#' {
        return Some(Line::PassedOver);
    }
    let mut fields = Fields::new(line);
    let asked = parse_request(&mut fields)?;
    if fields.ended() { Some(asked) } else { None }
}

// The word that says what is asked for, and the fields that go with it.
fn parse_request<'a>(fields: &mut Fields<'a>) -> Option<Line<'a>> {
    let word: &[u8] = fields.field()?;
    let asked = match word {
        b"seal" => Line::Seal(parse_raw(fields)?),
        b"open" => Line::Open(parse_raw(fields)?),
        b"prepare" => Line::Prepare(fields.bytes()?),
        b"seal-with" => Line::Seal(parse_prepared(fields)?),
        b"open-with" => Line::Open(parse_prepared(fields)?),
        b"begin" => Line::Begin(parse_begin(fields)?),
        b"feed" => Line::Feed(parse_feed(fields)?),
        b"end" => Line::End(fields.room()?),
        b"carry" => Line::Carry(parse_carry(fields)?),
        b"plan" => Line::Plan(parse_plan(fields)?),
        b"seal-planned" => Line::SealPlanned(parse_planned(fields)?),
        _ => return None,
    };
    Some(asked)
}

// The fields of a request under a raw key.
fn parse_raw<'a>(fields: &mut Fields<'a>) -> Option<Request<'a>> {
    let edition = fields.number()?;
    let form = fields.number()?;
    let key = Key::Raw(fields.bytes()?);
    parse_strings(fields, edition, form, key)
}

// The fields of a request under a prepared key.
fn parse_prepared<'a>(fields: &mut Fields<'a>) -> Option<Request<'a>> {
    let edition = fields.number()?;
    let form = fields.number()?;
    let key = Key::Prepared(Record {
        rounds: fields.number()?,
        words: fields.bytes()?.as_array::<WORDS>()?,
        zero: fields.bytes()?.as_array::<ZERO>()?,
    });
    parse_strings(fields, edition, form, key)
}

// The fields behind the key, and with them the request.
fn parse_strings<'a>(
    fields: &mut Fields<'a>,
    edition: usize,
    form: usize,
    key: Key<'a>,
) -> Option<Request<'a>> {
    Some(Request {
        edition,
        form,
        key,
        nonce: fields.bytes()?,
        data: fields.bytes()?,
        message: fields.bytes()?,
        tag: fields.number()?,
        room: fields.room()?,
    })
}

// FORM, KEY, NONCE and DATA of a request under a raw key.
fn parse_settings<'a>(fields: &mut Fields<'a>) -> Option<Settings<'a>> {
    Some(Settings {
        form: fields.number()?,
        key: fields.bytes()?,
        nonce: fields.bytes()?,
        ad: fields.bytes()?,
    })
}

fn parse_begin<'a>(fields: &mut Fields<'a>) -> Option<Beginning<'a>> {
    Some(Beginning {
        settings: parse_settings(fields)?,
        tag: fields.number()?,
    })
}

fn parse_feed<'a>(fields: &mut Fields<'a>) -> Option<Feeding<'a>> {
    Some(Feeding {
        part: fields.bytes()?,
        room: fields.room()?,
    })
}

fn parse_carry<'a>(fields: &mut Fields<'a>) -> Option<Carrying<'a>> {
    Some(Carrying {
        edition: fields.number()?,
        old: parse_settings(fields)?,
        tag: fields.number()?,
        sealed: fields.bytes()?,
        new: parse_settings(fields)?,
        room: fields.room()?,
        work: fields.room()?,
    })
}

fn parse_plan(fields: &mut Fields) -> Option<Planning> {
    Some(Planning {
        message: fields.number()?,
        room: fields.room()?,
    })
}

fn parse_planned<'a>(fields: &mut Fields<'a>) -> Option<Planned<'a>> {
    Some(Planned {
        key: fields.bytes()?,
        nonce: fields.bytes()?,
        data: fields.bytes()?,
        message: fields.bytes()?,
        plan: fields.bytes()?,
        tag: fields.number()?,
        room: fields.room()?,
    })
}

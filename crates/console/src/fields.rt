// The fields of a request's line.
ghost use Rattle.std.specs.Prelude.{◌≤◌, length, IfSome};

// The most bytes of an output buffer, and of a work buffer.
pub const MOST_ROOM: usize = 20480;

// How many bytes a buffer has.
#[derive(Clone, Copy)]
pub struct Room {
    pub bytes: usize,
    ghost in_bounds: { bytes ≤ 20480 },
}

// What a line still has, from the field that comes next on; nothing where it has ended.
#[derive(Drop)]
pub struct Fields<'a> {
    rest: Option<&'a mut [u8]>,
}

impl<'a> Fields<'a> {
    pub fn new(line: &'a mut [u8]) -> Fields<'a> {
        Fields { rest: Some(line) }
    }

    // The next field as it stands in the line. It ends at the next space, or at the line's end.
    pub fn field(&mut self) -> Option<&'a mut [u8]> {
        let rest = self.rest.take()?;
        let (field, behind) = cut(rest);
        self.rest = behind;
        Some(field)
    }

    // The bytes that the next field stands for. They are put into the line, where their digits stood.
    pub fn bytes(&mut self) -> Option<&'a [u8]> {
        decode(self.field()?)
    }

    // The number that the next field stands for.
    pub fn number(&mut self) -> Option<usize>
        ensures { IfSome result (λ number. number ≤ 65535) }
    {
        digits::decimal(self.field()?)
    }

    // The same where it is the room of a buffer.
    pub fn room(&mut self) -> Option<Room> {
        let bytes = self.number()?;
        if MOST_ROOM < bytes {
            return None;
        }
        Some(Room { bytes })
    }

    // Whether the line has ended. Behind its last field nothing may stand, not even a space.
    pub fn ended(&self) -> bool {
        self.rest.is_none()
    }
}

// The field at the start, and what stands behind the space that ends it.
fn cut(rest: &mut [u8]) -> (&mut [u8], Option<&mut [u8]>) {
    let Some(end) = memchr::memchr(b' ', rest) else {
        return (rest, None);
    };
    let (field, behind) = rest.split_at_mut(end);
    (field, Some(&mut behind[1..]))
}

// The bytes that a field's digits stand for, put at the field's start. A byte lies no later than its own digits, so that no digit is
// overwritten before it is read.
fn decode(field: &mut [u8]) -> Option<&[u8]>
    ensures { IfSome result (λ bytes. length bytes.now ≤ length field.old) }
{
    if matches!(field, [b'-']) {
        return Some(&field[..0]);
    }
    if field.is_empty() || field.len() % 2 != 0 {
        return None;
    }
    let count = field.len() / 2;
    // by index: the same slice is read and written
    for i in 0..count {
        let high = char::from(field[2 * i]).to_digit(16)?;
        let low = char::from(field[2 * i + 1]).to_digit(16)?;
        field[i] = (16 * high + low) as u8;
    }
    Some(&field[..count])
}

// The recording: numbers of four bytes, the lowest first, and parts, each behind its length.
const STDIN_FILENO: i32 = 0;

fn byte() -> Option<u8> {
    let mut b = [0u8; 1];
    let n = io::read_full(STDIN_FILENO, &mut b);
    (n == 1).then_some(b[0])
}

pub(crate) fn number() -> Option<usize> {
    let mut b = [0u8; 4];
    let n = io::read_full(STDIN_FILENO, &mut b);
    (n == 4).then_some(u32::from_le_bytes(b) as usize)
}

// A length and as many bytes, where there is room for them.
pub(crate) fn part(room: &mut [u8]) -> Option<&[u8]> {
    let asked = number()?;
    let bytes = room.get_mut(..asked)?;
    if io::read_full(STDIN_FILENO, bytes) < asked {
        return None;
    }
    Some(bytes)
}

// What a step is of. A number that stands for neither is read as an event's.
#[derive(Clone, Copy)]
pub enum Kind {
    Event,
    Restore,
}

impl From<u8> for Kind {
    fn from(number: u8) -> Kind {
        match number {
            1 => Kind::Restore,
            _ => Kind::Event,
        }
    }
}

// A step: what it is of, its event or saved records, its answers, and how many bytes are lent for messages and for calls.
#[derive(Clone, Copy)]
pub struct Step<'a> {
    pub kind: Kind,
    pub event: &'a [u8],
    pub answers: &'a [u8],
    pub room: usize,
    pub space: usize,
}

impl<'a> Step<'a> {
    // The next step, if the recording has all of it.
    pub(crate) fn read(
        event: &'a mut [u8; 4096],
        answers: &'a mut [u8; 65536],
    ) -> Option<Step<'a>> {
        let kind = Kind::from(byte()?);
        let event = part(event)?;
        let answers = part(answers)?;
        let room = number()?;
        let space = number()?;
        Some(Step {
            kind,
            event,
            answers,
            room,
            space,
        })
    }
}

#![tactic(auto)]

// Runs the answers and the restores of its input, and writes a line for each: what the bridge gets of a call's answer, or what a restore leaves of a
// session.
//
// The input is cases one after the other, lengths in four bytes, the lowest first: `A`, a kind of call in a byte, a length and as many bytes of
// answers; `P`, a length and a profile, with a fresh session from there on; `R`, a length and saved records, restored on the session that there is.
mod got;
mod restores;
mod uses;

ghost use Rattle.std.specs.Prelude.{◌≤◌};

use printing::Stdout;
use session::Session;
use std::fmt;
use std::fmt::Write;

const STDIN_FILENO: i32 = 0;

// Writes a text to standard output, which takes all of it: a text ends early only where its own `fmt` gives up.
fn show<D: fmt::Display + Drop>(text: D) {
    let mut out = Stdout::new();
    out.write(text).unwrap_or(());
    out.flush();
}

// ── input ──

// The next byte, if the input goes on.
fn next_byte() -> Option<u8> {
    let mut room = [0u8; 1];
    let n = io::read_full(STDIN_FILENO, &mut room);
    if n == 1 { Some(room[0]) } else { None }
}

// Reads a length and as many bytes, at most as many as there is room for.
fn read_part(room: &mut [u8; 4096]) -> usize
    ensures { result ≤ 4096 }
{
    let mut length = [0u8; 4];
    io::read_full(STDIN_FILENO, &mut length);
    let n = (u32::from_le_bytes(length) as usize).min(4096);
    io::read_full(STDIN_FILENO, &mut room[..n])
}

fn pass_answers() {
    let kind = next_byte().unwrap_or(0);
    let mut room = [0u8; 4096];
    let n = read_part(&mut room);
    uses::say(kind, &room[..n]);
}

// ── cases ──

// The session that there is, and the profile that it is over. There is no heap: the profile is an array, with how many of its bytes there are.
#[derive(Drop)]
struct Present {
    session: Session,
    profile: [u8; 4096],
    length: usize,
    ghost within: { length ≤ 4096 },
}

impl Present {
    fn pass_profile(&mut self) {
        self.length = read_part(&mut self.profile);
        self.session = session::fresh();
    }

    fn pass_restore(&mut self) {
        let mut room = [0u8; 4096];
        let n = read_part(&mut room);
        let profile = &self.profile[..self.length];
        restores::say_restore(&mut self.session, profile, &room[..n]);
    }

    // Whether there was a case.
    fn pass(&mut self) -> bool {
        match next_byte() {
            Some(b'A') => pass_answers(),
            Some(b'P') => self.pass_profile(),
            Some(b'R') => self.pass_restore(),
            _ => return false,
        }
        true
    }
}

// A loop that is proved has to end, and nothing says that the input does: the turns are counted, to a number that no run uses up.
fn main() {
    let mut present = Present {
        session: session::fresh(),
        profile: [0; 4096],
        length: 0,
    };
    for _ in 0..u64::MAX {
        if !present.pass() {
            break;
        }
    }
}

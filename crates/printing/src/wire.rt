// Messages and calls, a line each. The loops over parts of three bytes and of sixteen stay two: one over both would be no plainer.
ghost use Rattle.std.specs.Prelude.{◌≡◌, ◌≤◌, ◌/◌, length};
ghost use Rattle.drivers.specs.Shown.{call_at, calls_in, messages_in};
ghost use Rattle.printing.specs.Text.{kind_word, call_line, call_lines, message_line, message_lines};

use crate::{Hex, Level, Sink, Text, Word};
use drivers::{Call, Kind};

// A message on a line of its own.
#[derive(Clone, Copy)]
pub struct MessageLine<'a>(pub &'a [u8]);

impl Text for MessageLine<'_> {
    ghost text = { λ m. message_line m.0.now };

    #[tactic(auto, unfolding(crate::specs::Text::message_line))]
    fn put<S: Sink>(&self, out: &mut S) {
        "message ".put(out);
        Hex(self.0).put(out);
        "\n".put(out);
    }
}

// The messages of a buffer, three bytes each.
#[derive(Clone, Copy)]
pub struct Messages<'a>(pub &'a [u8]);

impl Text for Messages<'_> {
    ghost text = { λ m. message_lines (messages_in (length m.0.now / 3) m.0.now) };

    #[tactic(auto, unfolding(crate::specs::Text::message_lines, drivers::specs::Shown::messages_in))]
    fn put<S: Sink>(&self, out: &mut S) {
        for message in self.0.chunks_exact(3) {
            MessageLine(message).put(out);
        }
    }
}

// A match on the kind, and no table of words: either has a line for each.
#[tactic(auto, unfolding(crate::specs::Text::kind_word), using(crate::proofs::Laws::live_kind))]
pub fn kind_name(kind: u8) -> &'static str
    ensures { result.now ≡ kind_word kind }
{
    match Kind::try_from(kind) {
        Ok(Kind::Open) => "open",
        Ok(Kind::Read) => "read",
        Ok(Kind::Write) => "write",
        Ok(Kind::Toggle) => "toggle",
        Ok(Kind::Command) => "command",
        Ok(Kind::Playing) => "playing",
        Ok(Kind::Scenes) => "scenes",
        Ok(Kind::Current) => "current",
        Ok(Kind::Load) => "load",
        // A number that no kind has reads as the last one.
        Ok(Kind::Live) | Err(_) => "live",
    }
}

// A call on a line of its own.
#[derive(Clone, Copy)]
pub struct CallLine(pub Call);

impl Text for CallLine {
    ghost text = { λ c. call_line c.0 };

    fn put<S: Sink>(&self, out: &mut S) {
        let call = self.0;
        "call ".put(out);
        kind_name(call.kind).put(out);
        Word(u64::from(call.driver)).put(out);
        Word(u64::from(call.name)).put(out);
        Word(u64::from(call.argument)).put(out);
        Level(call.level).put(out);
        "\n".put(out);
    }
}

// The call of a record of sixteen bytes.
fn call_of(bytes: &[u8]) -> Call
    requires { 16 ≤ length bytes.now }
    ensures { result ≡ call_at bytes.now 0 }
{
    Call {
        kind: bytes[0],
        driver: bytes[1],
        name: base::read_u16(bytes, 2),
        argument: base::read_u32(bytes, 4),
        level: base::read_u64(bytes, 8),
    }
}

// The calls of a buffer, sixteen bytes each.
#[derive(Clone, Copy)]
pub struct Calls<'a>(pub &'a [u8]);

impl Text for Calls<'_> {
    ghost text = { λ c. call_lines (calls_in (length c.0.now / 16) c.0.now) };

    #[tactic(auto, unfolding(crate::specs::Text::call_lines, drivers::specs::Shown::calls_in))]
    fn put<S: Sink>(&self, out: &mut S) {
        for bytes in self.0.chunks_exact(16) {
            CallLine(call_of(bytes)).put(out);
        }
    }
}

// Texts, and what takes them. A text is put piece by piece, and a sink takes each piece: neither can fail, where a `Display` answers a `Result`, so that what it
// promises of its bytes has a condition.
ghost use Rattle.std.specs.Prelude.{◌≡◌, ℕ, List, Some, IsOk};
ghost use Rattle.std.specs.Fmt.{WritesInCalls, IsPlainFormatter, HasWritten};

use std::{fmt, str};

pub trait Sink {
    // Relates the sink before a piece, the piece, and the sink behind it.
    ghost takes: { Self → List ℕ → Self → Type 0 };

    fn take(&mut self, piece: &[u8])
        ensures { takes self.old piece.now self.new };
}

pub trait Text {
    ghost text: { Self → List ℕ };

    // The pieces that the sink takes are the text, one behind the other.
    fn put<S: Sink>(&self, out: &mut S)
        ensures { WritesInCalls S.takes out.old (text self.now) out.new };
}

impl Text for &str {
    ghost text = { λ s. s.now };

    fn put<S: Sink>(&self, out: &mut S) {
        out.take(self.as_bytes());
    }
}

// Any bytes, which need not be text.
impl Text for &[u8] {
    ghost text = { λ b. b.now };

    fn put<S: Sink>(&self, out: &mut S) {
        out.take(self);
    }
}

// A text in a format, as the programs that only test write theirs.
#[derive(Clone, Copy)]
pub struct Printed<T>(pub T);

impl<T: Text + Drop> fmt::Display for Printed<T> {
    ghost output = { λ p. Some (T.text p.0) };

    fn fmt<W: fmt::Write>(&self, f: &mut fmt::Formatter<W>) -> fmt::Result {
        let mut out = Format { f, result: Ok(()) };
        self.0.put(&mut out);
        out.result
    }
}

// A formatter as a sink, which keeps the first error.
#[derive(Drop)]
struct Format<'a, W> {
    f: &'a mut fmt::Formatter<W>,
    result: fmt::Result,
}

impl<W: fmt::Write> Sink for Format<'_, W> {
    // Where there is no error behind a piece, there was none before it, and the formatter, if it has no options, has written the piece.
    ghost takes = { λ old piece new. (new.f.ghost_name ≡ old.f.ghost_name)
        × (IsOk new.result → IsOk old.result × (IsPlainFormatter old.f.now → HasWritten W.write_str_gives old.f.now piece new.f.now)) };

    fn take(&mut self, piece: &[u8]) {
        if self.result.is_ok() {
            self.result = match str::from_utf8(piece) {
                Ok(s) => self.f.write_str(s),
                Err(_) => Err(fmt::Error),
            };
        }
    }
}

// Standard output, and what holds a text back before it goes there.
ghost use Rattle.std.specs.Prelude.{⊤, ◌≡◌, ◌+◌, ◌≤◌, ◌++◌, [], IsOk, length, take};
ghost use Rattle.std.specs.Fmt.{WritesInCalls};
ghost use Rattle.printing.specs.Handing.{HandsOn};

use crate::Sink;
use std::fmt;

const STDOUT_FILENO: i32 = 1;

// The system as a sink, at standard output. What it makes of a piece is not said.
#[derive(Clone, Copy)]
pub struct System;

impl Sink for System {
    ghost takes = { λ _ _ _. ⊤ };

    fn take(&mut self, piece: &[u8]) {
        io::write_all(STDOUT_FILENO, piece);
    }
}

// What is still to be written, in fixed memory, and the sink behind it: what is held goes on to that one when there is no room for more.
#[derive(Drop)]
pub struct Held<S> {
    behind: S,
    bytes: [u8; 4096],
    used: usize,
    ghost within: { used ≤ 4096 },
}

pub type Stdout = Held<System>;

impl Held<System> {
    // With nothing to be written.
    pub fn new() -> Stdout
        ensures { take result.used result.bytes ≡ [] }
    {
        Held::over(System)
    }
}

impl<S: Sink> Held<S> {
    // Over a sink, with nothing to be written.
    pub fn over(behind: S) -> Held<S>
        ensures nothing_held { take result.used result.bytes ≡ [] }
        ensures behind_value { result.behind ≡ behind }
    {
        Held {
            behind,
            bytes: [0; 4096],
            used: 0,
        }
    }

    // Hands on what is held.
    pub fn flush(&mut self)
        ensures nothing_held { self.new.used ≡ 0 }
        ensures handed { WritesInCalls S.takes self.old.behind (take self.old.used self.old.bytes) self.new.behind }
    {
        self.behind.take(&self.bytes[..self.used]);
        self.used = 0;
    }

    // The sink behind it. What is still held is lost.
    pub fn into_behind(self) -> S
        ensures { result ≡ self.behind }
    {
        let Held { behind, .. } = self;
        behind
    }

    // Behind what is held.
    fn hold(&mut self, text: &[u8])
        requires { self.old.used + length text.now ≤ 4096 }
        ensures held { take self.new.used self.new.bytes ≡ take self.old.used self.old.bytes ++ text.now }
        ensures behind_value { self.new.behind ≡ self.old.behind }
    {
        let end = self.used + text.len();
        self.bytes[self.used..end].copy_from_slice(text);
        self.used = end;
    }
}

impl<S: Sink> Sink for Held<S> {
    // No byte is lost, and none goes before another. A piece for which there is room stands behind what is held.
    ghost takes = { λ old piece new. HandsOn S.takes old.behind (take old.used old.bytes) piece new.behind (take new.used new.bytes)
        × (old.used + length piece ≤ 4096 → (take new.used new.bytes ≡ take old.used old.bytes ++ piece) × (new.behind ≡ old.behind)) };

    fn take(&mut self, piece: &[u8]) {
        if piece.len() <= self.bytes.len() - self.used {
            self.hold(piece);
            return;
        }
        self.flush();
        if piece.len() <= self.bytes.len() {
            self.hold(piece);
        } else {
            self.behind.take(piece);
        }
    }
}

impl<S: Sink> fmt::Write for Held<S> {
    ghost write_str_gives = { ⟦<Held<S> as Sink>⟧.takes };

    // It takes all, as `take` does.
    fn write_str(&mut self, s: &str) -> fmt::Result
        ensures all { IsOk result }
        ensures held { self.old.used + length s.now ≤ 4096 → take self.new.used self.new.bytes ≡ take self.old.used self.old.bytes ++ s.now }
        ensures handed { HandsOn S.takes self.old.behind (take self.old.used self.old.bytes) s.now self.new.behind (take self.new.used self.new.bytes) }
        ensures not_handed { self.old.used + length s.now ≤ 4096 → self.new.behind ≡ self.old.behind }
    {
        self.take(s.as_bytes());
        Ok(())
    }
}

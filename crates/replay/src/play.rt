// A case: what its steps do to a session.
ghost use Rattle.std.specs.Prelude.{◌≡◌, ◌≤◌, true};
ghost use Rattle.profile.specs.Profile.{verdict};
ghost use Rattle.definition.specs.Shape.{well_shaped};

use crate::recording::{Kind, Step};
use crate::told;
use crate::view::View;
use delivery::Outcome;
use printing::{Hex, Printed, Refused};
use session::Session;

// A session over its profile, and whether all of it is printed.
#[derive(Clone, Copy)]
pub struct Play<'a> {
    dump: bool,
    profile: &'a [u8],
    session: Session,
    ghost shaped: { well_shaped profile.now session ≡ true },
}

impl<'a> Play<'a> {
    pub(crate) fn fresh(dump: bool, profile: &'a [u8]) -> Play<'a>
        requires { verdict profile.now ≡ 0 }
    {
        Play {
            dump,
            profile,
            session: session::fresh(),
        }
    }

    // Where the event saved, what it saved follows.
    fn event(&mut self, n: usize, step: Step) {
        let mut messages = [0u8; 306];
        let mut calls = [0u8; 5392];
        let r = bridge::step(
            self.session,
            self.profile,
            step.event,
            step.answers,
            &mut messages[..step.room.min(306)],
            &mut calls[..step.space.min(5392)],
        );
        let outcome = r.outcome;
        self.session = r.session;
        told::show(n, outcome, &messages, &calls);
        if let Outcome::Done { saved: true, .. } = outcome {
            self.show_saved();
        }
    }

    // How many records are saved, which stand in the bytes that are lent; none where that is declined.
    #[tactic(auto, using(crate::proofs::Laws::few_saved))]
    fn save(&self, bytes: &mut [u8; 136]) -> usize
        ensures { result ≤ 17 }
    {
        state::saved_records(&self.session, self.profile, bytes).unwrap_or(0)
    }

    fn show_saved(&self) {
        let mut bytes = [0u8; 136];
        let count = self.save(&mut bytes);
        let saved = Printed(Hex(&bytes[..8 * count]));
        crate::show(format_args!("saved {saved}\n"));
    }

    #[tactic(auto, using(crate::proofs::Laws::restored_well))]
    fn restore(&mut self, n: usize, saved: &[u8]) {
        match state::restore(self.session, self.profile, saved) {
            Ok(session) => {
                self.session = session;
                crate::show(format_args!("restore {n} done\n"));
            }
            Err(cause) => {
                let step = printing::Step { what: "restore", n };
                let why = cause.number();
                crate::show(Printed(Refused { step, why }));
            }
        }
    }

    // The session's text, or its hash.
    fn show_session(&self) {
        let view = View {
            profile: self.profile,
            session: &self.session,
        };
        if self.dump {
            crate::show(view);
        } else {
            let hash = Printed(view.hash());
            crate::show(format_args!("session{hash}\n"));
        }
    }

    // Reads and runs step n, if the recording has all of it.
    pub(crate) fn step(&mut self, n: usize) -> Option<()> {
        let mut event = io::buffer();
        let mut answers = io::large_buffer();
        let step = Step::read(&mut event, &mut answers)?;
        match step.kind {
            Kind::Restore => self.restore(n, step.event),
            Kind::Event => self.event(n, step),
        }
        self.show_session();
        Some(())
    }
}

// What a handler shows with. A file of its own, since the type states what is known of it.
ghost use Rattle.std.specs.Prelude.{◌≡◌, true};
ghost use Rattle.surface.specs.Note.{has_note};

use session::{Lamps, Moves};

// The lamps' state, with what it takes to show it: the targets that are silenced, the last moves, and the time. A flash that plays has a note.
#[derive(Clone, Copy)]
pub struct Panel<'a> {
    pub lamps: Lamps,
    pub silenced_targets: &'a [u16],
    pub moves: &'a Moves,
    pub time: f64,
    pub ghost playable: { has_note lamps.flash ≡ true },
}

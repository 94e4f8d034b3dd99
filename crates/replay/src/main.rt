#![tactic(auto)]

// Prints what becomes of each case of a recording, as the oracle's `replay` does: replay [--dump] <RECORDING. A recording that is cut off, or has a part
// for which there is no room here, ends the program there.
//
// The program is proved by what the bridge promises of an outcome's counts, and by how many saved records there can be: they have room in the buffers. A
// number of the recording is held to the room that there is. A session's count is not: a fresh session over an accepted profile is well shaped, and so is
// what an event or a restore leaves of one.
mod play;
mod recording;
mod told;
mod view;

ghost use Rattle.std.specs.Prelude.{◌≡◌, length};

use play::Play;
use printing::{Printed, ProfileRefused, Stdout};
use recording::{Step, number, part};
use std::fmt;
use std::fmt::Write;
use std::rt::Env;

// Writes a text to standard output, which takes all of it: a text ends early only where its own `fmt` gives up.
fn show<D: fmt::Display + Drop>(text: D) {
    let mut out = Stdout::new();
    out.write(text).unwrap_or(());
    out.flush();
}

// Reads the `count` steps of a refused profile, which are not run.
fn pass_steps(count: usize) -> Option<()> {
    let mut event = io::buffer();
    let mut answers = io::large_buffer();
    for _ in 0..count {
        Step::read(&mut event, &mut answers)?;
    }
    Some(())
}

// Runs `count` steps from a fresh session.
fn run_steps(mut play: Play, count: usize) -> Option<()> {
    for n in 0..count {
        play.step(n)?;
    }
    Some(())
}

// Room for a profile that is refused for its length too. As in io::large_buffer, the `ensures` gives only the length.
fn profile_room() -> [u8; 131072]
    ensures { 131072 ≡ length result }
{
    [0; 131072]
}

// The next case, if the recording has all of it.
fn one_case(dump: bool) -> Option<()> {
    let mut room = profile_room();
    let id = number()?;
    let profile = part(&mut room)?;
    let steps = number()?;
    show(format_args!("case {id}\n"));
    match profile::examine(profile) {
        Ok(()) => run_steps(Play::fresh(dump, profile), steps),
        Err(cause) => {
            show(Printed(ProfileRefused(cause.number())));
            pass_steps(steps)
        }
    }
}

// The word behind the program's name; none where it is missing, or longer than the room.
fn first_word<'a>(rt: &HostRuntime, room: &'a mut [u8; 4096]) -> &'a [u8] {
    let n = rt.arg(1, room).unwrap_or(0);
    &room[..n]
}

// A loop that is proved has to end, and nothing says that the input does: the turns are counted, to a number that no run uses up.
fn main(rt: HostRuntime) {
    let mut room = io::buffer();
    let dump = matches!(first_word(&rt, &mut room), [b'-', b'-', b'd', _, _, _]);
    for _ in 0..u64::MAX {
        if one_case(dump).is_none() {
            break;
        }
    }
}

#![tactic(auto)]

// What a handler may know of the rig: the current bank with its faders (`current`, `here`), and what it reads and writes of a destination (`levels`). The
// sections "drivers" and "state" of bridge.rs.
mod current;
mod here;
pub mod levels;

pub use current::{Accepted, Current};

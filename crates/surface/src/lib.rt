#![tactic(auto)]

// Everything the surface can show of its faders: positions and button lamps (`lamps`), and a number played out as a grid (`flash`).
pub mod flash;
pub mod lamps;
mod panel;

pub use panel::Panel;

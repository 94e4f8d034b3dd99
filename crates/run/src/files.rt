// The files that the program reads, and what it says on standard error of one that is not read as it stands: standard output keeps to document 01's lines.
ghost use Rattle.std.specs.Prelude.{◌<◌, ◌≤◌, length};

use std::fs::File;
use std::os::fd::AsRawFd;

// The start of a file of records of `size` bytes, as much as there is room for. A missing file counts as empty.
pub fn load<'a>(rt: &HostRuntime, path: &str, size: usize, room: &'a mut [u8; 65536]) -> &'a [u8]
    requires { 0 < size }
    ensures { length result.now ≤ 65536 }
{
    let Ok(file) = File::open(rt, path) else {
        say(
            rt,
            path,
            "is missing or cannot be opened: it counts as empty",
        );
        return &room[..0];
    };
    let fd = file.as_raw_fd();
    let n = io::read_full(fd, room);
    if n == room.len() && io::read_full(fd, &mut [0u8]) > 0 {
        say(rt, path, "is longer than 65536 bytes: only those are read");
    } else if n % size != 0 {
        say(rt, path, "is cut: its last record is incomplete");
    }
    &room[..n]
}

// A line on standard error. Whether it can be written changes nothing.
fn say(rt: &impl Eprint, path: &str, what: &str) {
    eprintln!(rt; "run: {path} {what}").unwrap_or(());
}

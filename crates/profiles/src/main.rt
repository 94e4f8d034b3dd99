#![tactic(auto)]

// Examines the profiles of its input, and writes for each its name and the number with which it is declined, 0 if it is accepted.
//
// A name is passed on as the bytes that it is, which may be no text, and so its line is written piece by piece and not displayed.
//
// A profile is a byte and as many bytes of its name, then its length in four bytes, the lowest first, and as many bytes of records.
ghost use Rattle.std.specs.Prelude.{◌≤◌, length};
ghost use Rattle.io.specs.Counts.{IsPrefixLen};

const STDIN_FILENO: i32 = 0;

const STDOUT_FILENO: i32 = 1;

// Some more than the longest profile has.
const ROOM: u32 = 65600;

fn say(text: &[u8]) {
    io::write_all(STDOUT_FILENO, text);
}

// Reads n bytes, or what is left of the input.
fn read_some(room: &mut [u8], n: usize) -> usize
    requires { n ≤ length room.old }
    ensures { IsPrefixLen result room.new }
{
    io::read_full(STDIN_FILENO, &mut room[..n])
}

// Reads a name and writes it out; false where the input ends.
fn pass_name() -> bool {
    let mut length = [0u8; 1];
    if io::read_full(STDIN_FILENO, &mut length) == 0 {
        return false;
    }
    let mut name = [0u8; 256];
    let m = read_some(&mut name, usize::from(length[0]));
    say(&name[..m]);
    true
}

// Reads a profile, of a longer one as much as there is room for, and writes its number.
fn pass_profile() {
    let mut length = [0u8; 4];
    io::read_full(STDIN_FILENO, &mut length);
    let mut room = [0u8; ROOM as usize];
    let n = u32::from_le_bytes(length).min(ROOM) as usize;
    let m = read_some(&mut room, n);
    io::print_decimal(
        STDOUT_FILENO,
        u64::from(profile::number(profile::examine(&room[..m]))),
    );
}

fn pass() -> bool {
    if !pass_name() {
        return false;
    }
    say(b": ");
    pass_profile();
    say(b"\n");
    true
}

// A loop that is proved has to end, and nothing says that the input does: the turns are counted, to a number that no run uses up.
fn main() {
    for _ in 0..u64::MAX {
        if !pass() {
            break;
        }
    }
}

#![tactic(auto)]

// What every other crate shares: little-endian numbers in bytes. The definitions and laws are in specs/.
ghost use Rattle.std.specs.Prelude.{◌≡◌, ◌+◌, ◌≤◌, length};
ghost use Rattle.base.specs.Words.{le16, le32, le64, put16, put32, put64};

// No trait over the three widths: its impls would hold these six bodies again, beside a length and two definitions for each.
pub fn read_u16(s: &[u8], at: usize) -> u16
    requires { at + 2 ≤ length s.now }
    ensures { result ≡ le16 s.now at }
{
    u16::from_le_bytes([s[at], s[at + 1]])
}

pub fn read_u32(s: &[u8], at: usize) -> u32
    requires { at + 4 ≤ length s.now }
    ensures { result ≡ le32 s.now at }
{
    u32::from_le_bytes([s[at], s[at + 1], s[at + 2], s[at + 3]])
}

#[tactic(auto, unfolding(crate::specs::Words::le64))]
pub fn read_u64(s: &[u8], at: usize) -> u64
    requires { at + 8 ≤ length s.now }
    ensures { result ≡ le64 s.now at }
{
    let mut bytes = [0; 8];
    bytes.copy_from_slice(&s[at..at + 8]);
    u64::from_le_bytes(bytes)
}

pub fn put_u16(s: &mut [u8], at: usize, n: u16)
    requires { at + 2 ≤ length s.old }
    ensures { s.new ≡ put16 s.old at n }
{
    s[at..at + 2].copy_from_slice(&n.to_le_bytes());
}

pub fn put_u32(s: &mut [u8], at: usize, n: u32)
    requires { at + 4 ≤ length s.old }
    ensures { s.new ≡ put32 s.old at n }
{
    s[at..at + 4].copy_from_slice(&n.to_le_bytes());
}

pub fn put_u64(s: &mut [u8], at: usize, n: u64)
    requires { at + 8 ≤ length s.old }
    ensures { s.new ≡ put64 s.old at n }
{
    s[at..at + 8].copy_from_slice(&n.to_le_bytes());
}

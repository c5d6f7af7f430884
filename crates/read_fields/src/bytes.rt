// Numbers in bytes, the most significant first.
ghost use Rattle.std.specs.Prelude.{◌≡◌, ◌+◌, ◌≤◌, ◌<◌, length};
ghost use Rattle.words.specs.Limits.{sheet_record_bound, rule_bound};
ghost use Rattle.sheets.specs.Bits.{number_at};

pub fn wide(x: u8) -> u64
    ensures { (result ≡ x) × (result < 256) }
{
    x as u64
}

// The number in two bytes of s.
pub fn two(s: &[u8], at: usize) -> u64
    requires { at + 2 ≤ length s.now }
    ensures { (result ≡ number_at s.now at 2) × (result < 65536) }
{
    u64::from(u16::from_be_bytes([s[at], s[at + 1]]))
}

// The number in three bytes of s.
pub fn three(s: &[u8], at: usize) -> u64
    requires { at + 3 ≤ length s.now }
    ensures { (result ≡ number_at s.now at 3) × (result < 16777216) }
{
    u64::from(u32::from_be_bytes([0, s[at], s[at + 1], s[at + 2]]))
}

// The number in four bytes of s.
pub fn four(s: &[u8], at: usize) -> u64
    requires { at + 4 ≤ length s.now }
    ensures { (result ≡ number_at s.now at 4) × (result < rule_bound) }
{
    u64::from(u32::from_be_bytes([s[at], s[at + 1], s[at + 2], s[at + 3]]))
}

// The number in six bytes of s.
pub fn six(s: &[u8], at: usize) -> u64
    requires { at + 6 ≤ length s.now }
    ensures { (result ≡ number_at s.now at 6) × (result < sheet_record_bound) }
{
    four(s, at) * 0x10000 + two(s, at + 4)
}

// Bytes of a message as words, the lowest byte first.
ghost use Rattle.std.specs.Prelude.{◌≡◌, ◌+◌, ◌^◌, ◌<◌, ◌≤◌, length, take, drop};
ghost use Rattle.keys.specs.Sip.{little_endian};

// The four bytes from at on.
fn load32(s: &[u8], at: usize) -> u64
    requires { at + 4 ≤ length s.now }
    ensures { (result ≡ little_endian (take 4 (drop at s.now))) × (result < 2 ^ 32) }
{
    u64::from(s[at])
        + u64::from(s[at + 1]) * 0x100
        + u64::from(s[at + 2]) * 0x1_0000
        + u64::from(s[at + 3]) * 0x100_0000
}

// The eight bytes from at on.
pub fn load64(s: &[u8], at: usize) -> u64
    requires { at + 8 ≤ length s.now }
    ensures { result ≡ little_endian (take 8 (drop at s.now)) }
{
    load32(s, at) + load32(s, at + 4) * 0x1_0000_0000
}

// The bytes from at on, fewer than eight.
pub fn load_rest(s: &[u8], at: usize) -> u64
    requires { (at ≤ length s.now) × (length s.now < at + 8) }
    ensures { (result ≡ little_endian (drop at s.now)) × (result < 2 ^ 56) }
{
    let mut w: u64 = 0;
    for k in (at..s.len()).rev() {
        w = w * 256 + u64::from(s[k]);
    }
    w
}

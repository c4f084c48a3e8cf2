// The bytes of a text.
ghost use Rattle.std.specs.Prelude.{◌≡◌, ◌≤◌, length, drop};
ghost use Rattle.json_text.specs.Bytes.{within, is_ws, is_digit};
ghost use Rattle.json_text.specs.Work.{byte_at, skip_ws};

// The byte at a place, 256 behind the last: one number, so that each test of what stands at a place is one comparison.
pub fn byte(text: &[u8], at: usize) -> u32
    ensures { result ≡ byte_at text.now at }
{
    if at < text.len() {
        u32::from(text[at])
    } else {
        256
    }
}

pub fn within(low: u32, high: u32, b: u32) -> bool
    ensures { result ≡ within low high b }
{
    low <= b && b <= high
}

pub fn is_digit(b: u32) -> bool
    ensures { result ≡ is_digit b }
{
    within(0x30, 0x39, b)
}

#[tactic(auto, using(std::proofs::lemmas::Bool::Decides::nat_tests), unfolding(crate::specs::Bytes::is_ws))]
fn is_ws(b: u32) -> bool
    ensures { result ≡ is_ws b }
{
    matches!(b, 0x20 | 0x09 | 0x0A | 0x0D)
}

// The first place from at on that holds no ws.
pub fn skip_ws(text: &[u8], at: usize) -> usize
    requires { at ≤ length text.now }
    ensures { (drop result text.now ≡ skip_ws (drop at text.now)) × (at ≤ result) × (result ≤ length text.now) }
{
    for i in at..text.len() {
        if !is_ws(u32::from(text[i])) {
            return i;
        }
    }
    text.len()
}

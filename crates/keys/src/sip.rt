// SipHash-1-3 under zero keys: its state, and the steps on it.
ghost use Rattle.std.specs.Prelude.{◌≡◌, ◌+◌, ◌*◌, ◌%◌, ◌^◌, ◌<◌};
ghost use Rattle.keys.specs.Sip.{rotated, initial, sip_round, compressed, finalized};

// The four words of internal state.
#[derive(Clone, Copy)]
pub struct State {
    pub v0: u64,
    pub v1: u64,
    pub v2: u64,
    pub v3: u64,
}

// x turned left by k bits. A rule of the project: its rounds turn by a helper of its own, not by `rotate_left`.
fn rotl(x: u64, k: u32) -> u64
    requires { (0 < k) × (k < 64) }
    ensures { result ≡ rotated x k }
{
    (x << k) | (x >> (64 - k))
}

impl State {
    // The state before a message.
    pub fn new() -> Self
        ensures { result ≡ initial 0 0 }
    {
        Self {
            v0: 0x736f6d6570736575,
            v1: 0x646f72616e646f6d,
            v2: 0x6c7967656e657261,
            v3: 0x7465646279746573,
        }
    }

    // One SipRound.
    fn round(self) -> Self
        ensures { result ≡ sip_round self }
    {
        let mut v0 = self.v0.wrapping_add(self.v1);
        let mut v2 = self.v2.wrapping_add(self.v3);
        let mut v1 = rotl(self.v1, 13);
        let mut v3 = rotl(self.v3, 16);
        v1 ^= v0;
        v3 ^= v2;
        v0 = rotl(v0, 32);
        v2 = v2.wrapping_add(v1);
        v0 = v0.wrapping_add(v3);
        v1 = rotl(v1, 17);
        v3 = rotl(v3, 21);
        v1 ^= v2;
        v3 ^= v0;
        v2 = rotl(v2, 32);
        Self { v0, v1, v2, v3 }
    }

    // Takes in the word m of the message.
    pub fn compress(self, m: u64) -> Self
        ensures { result ≡ compressed self m }
    {
        let s = Self {
            v3: self.v3 ^ m,
            ..self
        };
        let t = s.round();
        Self { v0: t.v0 ^ m, ..t }
    }

    // The hash, once the last word is taken in.
    fn finalize(self) -> u64
        ensures { result ≡ finalized self }
    {
        let s = Self {
            v2: self.v2 ^ 0xff,
            ..self
        };
        let t = s.round().round().round();
        t.v0 ^ t.v1 ^ t.v2 ^ t.v3
    }

    // Takes in the last word, made of the bytes that are left and the message's length, and answers the hash.
    pub fn finish(self, rest: u64, len: u64) -> u64
        requires { rest < 2 ^ 56 }
        ensures { result ≡ finalized (compressed self (rest + len % 256 * 2 ^ 56)) }
    {
        self.compress(rest + (len % 256) * 0x100_0000_0000_0000)
            .finalize()
    }
}

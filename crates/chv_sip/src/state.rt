// The four words of SipHash-2-4.
ghost use Rattle.std.specs.Prelude.{◌≡◌, ◌%◌, length};
ghost use Rattle.chv_sip.specs.SipHash.{keyed, round, compressed, finished, GoesOn};

use byteorder::{ByteOrder, LittleEndian};

/// What SipHash-2-4 keeps of the words that it has taken in.
#[derive(Clone, Copy)]
pub struct State {
    v0: u64,
    v1: u64,
    v2: u64,
    v3: u64,
}

impl State {
    /// The state under a key of two words, before any input.
    #[tactic(auto, unfolding(crate::specs::SipHash::keyed))]
    pub fn keyed(k0: u64, k1: u64) -> State
        ensures { result ≡ keyed k0 k1 }
    {
        State {
            v0: k0 ^ 0x736f_6d65_7073_6575,
            v1: k1 ^ 0x646f_7261_6e64_6f6d,
            v2: k0 ^ 0x6c79_6765_6e65_7261,
            v3: k1 ^ 0x7465_6462_7974_6573,
        }
    }

    #[tactic(auto, unfolding(crate::specs::SipHash::round))]
    fn round(self) -> State
        ensures { result ≡ round self }
    {
        let mut s = self;
        s.v0 = s.v0.wrapping_add(s.v1);
        s.v1 = s.v1.rotate_left(13) ^ s.v0;
        s.v0 = s.v0.rotate_left(32);
        s.v2 = s.v2.wrapping_add(s.v3);
        s.v3 = s.v3.rotate_left(16) ^ s.v2;
        s.v0 = s.v0.wrapping_add(s.v3);
        s.v3 = s.v3.rotate_left(21) ^ s.v0;
        s.v2 = s.v2.wrapping_add(s.v1);
        s.v1 = s.v1.rotate_left(17) ^ s.v2;
        s.v2 = s.v2.rotate_left(32);
        s
    }

    /// Takes in one word of the input.
    #[tactic(auto, unfolding(crate::specs::SipHash::compressed))]
    pub fn compress(&mut self, word: u64)
        ensures { self.new ≡ compressed self.old word }
    {
        self.v3 ^= word;
        *self = self.round().round();
        self.v0 ^= word;
    }

    /// Takes in the whole words of `bytes`, and answers the bytes that are left behind them.
    pub fn absorb<'a>(&mut self, bytes: &'a [u8]) -> &'a [u8]
        ensures absorbed { GoesOn self.old bytes.now self.new result.now }
        ensures left { length result.now ≡ length bytes.now % 8 }
    {
        let mut rest = bytes;
        while rest.len() >= 8 {
            let (word, behind) = rest.split_at(8);
            self.compress(LittleEndian::read_u64(word));
            rest = behind;
        }
        rest
    }

    /// The hash, once the last word is in.
    #[tactic(auto, unfolding(crate::specs::SipHash::finished))]
    pub fn finish(mut self) -> u64
        ensures { result ≡ finished self }
    {
        self.v2 ^= 0xff;
        let end = self.round().round().round().round();
        end.v0 ^ end.v1 ^ end.v2 ^ end.v3
    }
}

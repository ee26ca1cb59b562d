// SipHash-2-4 over pieces.
ghost use Rattle.std.specs.Prelude.{◌≡◌, ◌++◌, ℕ, List, []};
ghost use Rattle.chv_sip.specs.Sip.{IsFed};
ghost use Rattle.chv_sip.specs.SipHash.{sip_hash};

use crate::state::State;
use byteorder::{ByteOrder, LittleEndian};

/// SipHash-2-4 of an input that comes in pieces: `new`, a `feed` for each piece, and `finish`.
#[derive(Clone, Copy)]
pub struct Sip {
    state: State,
    // The bytes behind the last whole word stand in front.
    tail: [u8; 8],
    // The number of bytes fed, modulo 256.
    count: u8,
}

impl Sip {
    /// A hasher under a key of two words, the first 8 and the last 8 of its bytes with the low byte first.
    pub fn new(k0: u64, k1: u64) -> Sip
        ensures { IsFed k0 k1 [] result }
    {
        Sip {
            state: State::keyed(k0, k1),
            tail: [0; 8],
            count: 0,
        }
    }

    /// Takes in the next piece. Where the input is cut makes no difference.
    pub fn feed(&mut self, bytes: &[u8])
        ensures { (k0 k1 : ℕ) (fed : List ℕ) → IsFed k0 k1 fed self.old → IsFed k0 k1 (fed ++ bytes.now) self.new }
    {
        let held = (self.count % 8) as usize;
        self.count = self.count.wrapping_add((bytes.len() % 256) as u8);
        let room = 8 - held;
        if bytes.len() < room {
            self.tail[held..held + bytes.len()].copy_from_slice(bytes);
            return;
        }
        let (front, rest) = bytes.split_at(room);
        self.tail[held..].copy_from_slice(front);
        self.state.compress(LittleEndian::read_u64(&self.tail));
        let left = self.state.absorb(rest);
        self.tail[..left.len()].copy_from_slice(left);
    }

    /// The hash of all that was fed.
    pub fn finish(&self) -> u64
        ensures { (k0 k1 : ℕ) (fed : List ℕ) → IsFed k0 k1 fed self.now → result ≡ sip_hash k0 k1 fed }
    {
        let held = (self.count % 8) as usize;
        let mut last = [0, 0, 0, 0, 0, 0, 0, self.count];
        last[..held].copy_from_slice(&self.tail[..held]);
        let mut state = self.state;
        state.compress(LittleEndian::read_u64(&last));
        state.finish()
    }
}

/// SipHash-2-4 of `bytes` under a key of two words: the first 8 and the last 8 of the key's bytes, the low byte first.
pub fn sip24(k0: u64, k1: u64, bytes: &[u8]) -> u64
    ensures { result ≡ sip_hash k0 k1 bytes.now }
{
    let mut sip = Sip::new(k0, k1);
    sip.feed(bytes);
    sip.finish()
}

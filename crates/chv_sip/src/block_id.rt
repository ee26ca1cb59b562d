// The ids of blocks.
ghost use Rattle.std.specs.Prelude.{◌≡◌, ◌<◌, ◌^◌, length};
ghost use Rattle.chv_sip.specs.BlockIds.{id_of, content_key, token_key, keyed_hash, first_key};
ghost use Rattle.chv_sip.specs.SipHash.{sip_hash};

use crate::sip::{Sip, sip24};

/// The id of a block: two hashes of what names it, under two keys.
#[derive(Clone, Copy, Debug, PartialEq, Eq, PartialOrd, Ord, Hash)]
pub struct BlockId {
    pub first: u64,
    pub second: u64,
}

// A key of SipHash-2-4 as its two words.
#[derive(Clone, Copy)]
pub struct Key {
    pub k0: u64,
    pub k1: u64,
}

// The bytes 00 to 0f.
pub const FIRST_KEY: Key = Key {
    k0: 0x0706_0504_0302_0100,
    k1: 0x0f0e_0d0c_0b0a_0908,
};

// The bytes 10 to 1f.
pub const SECOND_KEY: Key = Key {
    k0: 0x1716_1514_1312_1110,
    k1: 0x1f1e_1d1c_1b1a_1918,
};

// The first byte of a key that is a block's content.
const CONTENT: u8 = 1;

// The first byte of a key that is a token.
const TOKEN: u8 = 2;

/// The id of a block that is named by its content, from the block's bytes in order of arrival.
pub fn id_of_content(block: &[u8]) -> BlockId
    ensures { result ≡ id_of (content_key block.now) }
{
    BlockId {
        first: content_hash(FIRST_KEY, block),
        second: content_hash(SECOND_KEY, block),
    }
}

// The hash under one key of what names a block by its content.
fn content_hash(key: Key, block: &[u8]) -> u64
    ensures { result ≡ sip_hash key.k0 key.k1 (content_key block.now) }
{
    let mut sip = Sip::new(key.k0, key.k1);
    sip.feed(&[CONTENT]);
    sip.feed(block);
    sip.finish()
}

/// The id of a block that is named by a token of its insert, and by the block's number in it, from 0.
pub fn id_of_token(token: &[u8], number: u32) -> BlockId
    requires short { length token.now < 2 ^ 32 }
    ensures { result ≡ id_of (token_key token.now number) }
{
    BlockId {
        first: token_hash(FIRST_KEY, token, number),
        second: token_hash(SECOND_KEY, token, number),
    }
}

// The hash under one key of what names a block by a token.
fn token_hash(key: Key, token: &[u8], number: u32) -> u64
    requires short { length token.now < 2 ^ 32 }
    ensures { result ≡ sip_hash key.k0 key.k1 (token_key token.now number) }
{
    let mut sip = Sip::new(key.k0, key.k1);
    sip.feed(&[TOKEN]);
    sip.feed(&(token.len() as u32).to_le_bytes());
    sip.feed(token);
    sip.feed(&number.to_le_bytes());
    sip.finish()
}

/// The hash that a part's file has of its body.
pub fn body_hash(body: &[u8]) -> u64
    ensures { result ≡ keyed_hash first_key body.now }
{
    sip24(FIRST_KEY.k0, FIRST_KEY.k1, body)
}

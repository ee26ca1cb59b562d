// Hashes that were published, and the ids of a block that was worked by hand.
ghost use Rattle.std.specs.Prelude.{◌<◌, ◌^◌, length};

use chv_sip::{Below, BlockId, Sip, body_hash, id_of_content, id_of_token, sip24};

const K0: u64 = 0x0706_0504_0302_0100;

const K1: u64 = 0x0f0e_0d0c_0b0a_0908;

// The bytes 00 to 3e.
fn counted_bytes() -> [u8; 63] {
    let mut bytes = [0u8; 63];
    for i in 0..63 {
        bytes[i] = i as u8;
    }
    bytes
}

// Published vectors of SipHash-2-4, of inputs that end in each part of a word.
#[test]
fn agrees_with_the_published_vectors(rt: HostRuntime) {
    let bytes = counted_bytes();
    for (len, hash) in [
        (0usize, 0x726f_db47_dd0e_0e31u64),
        (7, 0xab02_00f5_8b01_d137),
        (8, 0x93f5_f579_9a93_2462),
        (15, 0xa129_ca61_49be_45e5),
        (63, 0x958a_324c_eb06_4572),
    ] {
        let input = bytes.get(..len).unwrap_or(&bytes);
        assert!(rt;
            sip24(K0, K1, input) == hash && body_hash(input) == hash,
            "at {len} bytes"
        );
    }
}

// The hash of an input that comes in three pieces, one of them empty.
fn hash_of_pieces(bytes: &[u8; 63]) -> u64 {
    let mut sip = Sip::new(K0, K1);
    sip.feed(&bytes[..3]);
    sip.feed(&bytes[3..3]);
    sip.feed(&bytes[3..]);
    sip.finish()
}

#[test]
fn pieces_hash_as_the_whole(rt: HostRuntime) {
    assert!(rt; hash_of_pieces(&counted_bytes()) == 0x958a_324c_eb06_4572);
}

// The block of the rows (2, 20) and (1, 10) of two columns of kind 4, UInt64.
const BLOCK: [u8; 46] = [
    2, 0, 0, 0, 4, 4, 2, 0, 0, 0, 0, 0, 0, 0, 2, 0, 0, 0, 0, 0, 0, 0, 20, 0, 0, 0, 0, 0, 0, 0, 1,
    0, 0, 0, 0, 0, 0, 0, 10, 0, 0, 0, 0, 0, 0, 0,
];

// Worked by hand: the content begins with 1; a token with 2, and the first two blocks under the token 'x' differ.
#[test]
fn ids_are_hashes_of_what_names_a_block(rt: HostRuntime) {
    for (id, first, second) in [
        (
            id_of_content(&BLOCK),
            0xf911_31cf_cc93_0933,
            0x7dc1_3e8b_5b61_01b7,
        ),
        (
            id_of_token(b"x", 0),
            0xc645_00ab_a6cd_d586,
            0x9de9_c83b_97cc_43b8,
        ),
        (
            id_of_token(b"x", 1),
            0xe10d_6e27_0be5_6f06,
            0x6504_e919_2ac4_7d24,
        ),
    ] {
        assert!(rt; id == BlockId { first, second });
    }
}

// The id behind two views of the first block under the token 'x'.
fn behind(first: &[u8], second: &[u8]) -> BlockId
    requires first { length first.now < 2 ^ 32 }
    requires second { length second.now < 2 ^ 32 }
{
    let mut below = Below::new(id_of_token(b"x", 0), 2);
    below.name(first);
    below.name(second);
    below.finish()
}

// Worked from the format, apart from this code: the letters of two paths are the same, and their names are not.
#[test]
fn ids_behind_views_are_hashes_of_their_names(rt: HostRuntime) {
    assert!(rt;
        behind(b"w", b"by_day")
            == BlockId {
                first: 0x30c7_e776_509a_3104,
                second: 0x2aef_0d0b_6519_bfbe,
            }
    );
    assert!(rt;
        behind(b"wb", b"y_day")
            == BlockId {
                first: 0xb5b1_1dfc_0d9a_b76a,
                second: 0x92af_3687_7d9f_57c1,
            }
    );
}

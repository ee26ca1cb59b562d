use chv_ast::TokenKind;
use chv_lex::{LexFault, Piece, Token, cut_script, tokens};
use std::alloc::{AllocError, Global};

// The client in two digits and the text of each piece, with a bar behind it.
fn shown_pieces(alloc: Global, script: &[u8], pieces: &[Piece]) -> Result<Vec<u8>, AllocError> {
    let mut shown = Vec::new(alloc);
    for piece in pieces {
        let client = [
            b'0'.wrapping_add(piece.client / 10),
            b'0'.wrapping_add(piece.client % 10),
        ];
        shown.extend_from_slice(&client)?;
        shown.extend_from_slice(script.get(piece.start..piece.end).unwrap_or(b"none"))?;
        shown.push(b'|')?;
    }
    Ok(shown)
}

fn are_pieces(alloc: Global, script: &[u8], pieces: &[Piece], expected: &[u8]) -> bool {
    match shown_pieces(alloc, script, pieces) {
        Ok(shown) => shown.as_slice() == expected,
        Err(_) => false,
    }
}

fn is_cut(alloc: Global, script: &[u8], expected: &[u8]) -> bool {
    match cut_script(alloc, script) {
        Ok(pieces) => are_pieces(alloc, script, pieces.as_slice(), expected),
        Err(_) => false,
    }
}

// One script for each rule of cutting.
#[test]
fn a_script_is_cut_at_semicolons(rt: HostRuntime) {
    let cases: [(&[u8], &[u8]); 14] = [
        (b"", b""),
        (b" ;\n; /* a */ ; -- b", b""),
        (b"a;b", b"00a|00b|"),
        (b" a ; ;b;", b"00 a |00b|"),
        (b"a';'b\\';c';d", b"00a';'b\\';c'|00d|"),
        (b"'a\\';b''c\\\\';d", b"00'a\\';b''c\\\\'|00d|"),
        (b"`a;\\`;b;'c;", b"00`a;\\`|00b|00'c;|"),
        (b"a--;'\n;b", b"00a--;'\n|00b|"),
        (b"a/*;/*;*/;b*/", b"00a/*;/*;*/|00b*/|"),
        (b"/*/;*/a;/*b;", b"00/*/;*/a|"),
        (b"@1 a;b;@15 @2", b"01 a|00b|15 @2|"),
        (b"@5x; /**/ @05\ny;@5;@7--z", b"05x|05\ny|"),
        (b"@16 a;@015 b", b"00@16 a|00@015 b|"),
        (b"@ 1;a@1;@@1", b"00@ 1|00a@1|00@@1|"),
    ];
    for (script, expected) in cases {
        assert!(rt; is_cut(rt.alloc(), script, expected));
    }
}

fn initial(kind: TokenKind) -> u8 {
    match kind {
        TokenKind::Word => b'W',
        TokenKind::Whole => b'D',
        TokenKind::Quoted => b'Q',
        TokenKind::Sign => b'S',
    }
}

// The first letter of its kind and the text of each token, with a bar behind it.
fn shown_tokens(alloc: Global, piece: &[u8], tokens: &[Token]) -> Result<Vec<u8>, AllocError> {
    let mut shown = Vec::new(alloc);
    for token in tokens {
        shown.push(initial(token.kind))?;
        shown.extend_from_slice(piece.get(token.start..token.end).unwrap_or(b"none"))?;
        shown.push(b'|')?;
    }
    Ok(shown)
}

fn are_tokens(alloc: Global, piece: &[u8], tokens: &[Token], expected: &[u8]) -> bool {
    match shown_tokens(alloc, piece, tokens) {
        Ok(shown) => shown.as_slice() == expected,
        Err(_) => false,
    }
}

fn has_tokens(alloc: Global, piece: &[u8], expected: &[u8]) -> bool {
    match tokens(alloc, piece) {
        Ok(found) => are_tokens(alloc, piece, found.as_slice(), expected),
        Err(_) => false,
    }
}

// One piece for each kind of token, and for what parts them.
#[test]
fn a_piece_has_tokens(rt: HostRuntime) {
    let cases: [(&[u8], &[u8]); 9] = [
        (b" \t\r\n--\xff'\n/*`*/", b""),
        (b"/* a", b""),
        (b"k_1 _ `AS``b`", b"Wk_1|W_|W`AS`|W`b`|"),
        (
            b"a234567890123456789012345678901234567890123456789012345678901234",
            b"Wa234567890123456789012345678901234567890123456789012345678901234|",
        ),
        (b"007,1'1'", b"D007|S,|D1|Q'1'|"),
        (
            b"'''\\'\\\\' '\xff\n' a''",
            b"Q'''\\'\\\\'|Q'\xff\n'|Wa|Q''|",
        ),
        (b"'\\b\\f\\r\\n\\t\\0'", b"Q'\\b\\f\\r\\n\\t\\0'|"),
        (
            b"===!=<>=<=<*>>=%+-(-)",
            b"S==|S=|S!=|S<>|S=|S<=|S<|S*|S>|S>=|S%|S+|S-|S(|S-|S)|",
        ),
        (b"5--3\n-3", b"D5|S-|D3|"),
    ];
    for (piece, expected) in cases {
        assert!(rt; has_tokens(rt.alloc(), piece, expected));
    }
}

fn is_bad_at(alloc: Global, piece: &[u8], place: usize) -> bool {
    match tokens(alloc, piece) {
        Err(LexFault::BadToken { at }) => at == place,
        _ => false,
    }
}

// Each way of a bad token, with its place.
#[test]
fn a_bad_token_is_told_at_its_place(rt: HostRuntime) {
    let cases: [(&[u8], usize); 17] = [
        (b"a .", 2),
        (b"a/b", 1),
        (b"!", 0),
        (b"a ! =", 2),
        (b"a;", 1),
        (b"\xc3\xa4", 0),
        (b"a\xff", 1),
        (b"@1", 0),
        (b"12a", 0),
        (b"1 12_", 2),
        (
            b"a2345678901234567890123456789012345678901234567890123456789012345",
            0,
        ),
        (
            b" `a2345678901234567890123456789012345678901234567890123456789012345`",
            1,
        ),
        (b"a `1`", 2),
        (b"``", 0),
        (b"`a", 0),
        (b"a 'b''", 2),
        (b"'\\x'", 0),
    ];
    for (piece, place) in cases {
        assert!(rt; is_bad_at(rt.alloc(), piece, place));
    }
}

//! Each kind of token and each fault, in files of a few bytes.
use crate::fault::LexFault;
use crate::fault::LexFaultKind::{self, BadByte, LoneBackslash, SpecialByte};
use crate::lexer::tokens;
use crate::token::TokKind::{self, Char, Close, Open, Par, Skip, Space, Symbol, Tie, Word};
use std::test::Fail;

#[test]
fn each_kind_of_token_is_cut(rt: HostRuntime) -> Result<(), Fail> {
    // The bytes of a file, and its tokens: the kind and the two places of each.
    let cases: &[(&[u8], &[(TokKind, u32, u32)])] = &[
        (b"", &[]),
        (b"a%x\n b", &[(Char, 0, 1), (Skip, 1, 5), (Char, 5, 6)]),
        (b"%", &[(Skip, 0, 1)]),
        (b"% x", &[(Skip, 0, 3)]),
        (b" %\n \n", &[(Par, 0, 5)]),
        (b"%\n\n", &[(Par, 0, 3)]),
        (b"\n%\n", &[(Space, 0, 3)]),
        (b"\n\t\r \n", &[(Par, 0, 5)]),
        (b"%a\n%b\n", &[(Skip, 0, 6)]),
        (b"\\hsize=3", &[(Word, 0, 6), (Char, 6, 7), (Char, 7, 8)]),
        (b"\\ab1", &[(Word, 0, 3), (Char, 3, 4)]),
        (b"\\A\\z", &[(Word, 0, 2), (Word, 2, 4)]),
        (
            b"\\ \\%\\~",
            &[(Symbol, 0, 2), (Symbol, 2, 4), (Symbol, 4, 6)],
        ),
        (b"{}~", &[(Open, 0, 1), (Close, 1, 2), (Tie, 2, 3)]),
        (b"\x80\xff!", &[(Char, 0, 1), (Char, 1, 2), (Char, 2, 3)]),
        (b"%\x7f\x00\\", &[(Skip, 0, 4)]),
    ];
    for (bytes, wanted) in cases {
        let found = tokens(rt.alloc(), bytes)?;
        assert_eq!(rt; found.len(), wanted.len(), "in {bytes:?}");
        for (tok, (kind, from, to)) in found.as_slice().iter().zip(*wanted) {
            assert_eq!(rt; tok.kind, *kind, "in {bytes:?}");
            assert_eq!(rt; tok.from, *from, "in {bytes:?}");
            assert_eq!(rt; tok.to, *to, "in {bytes:?}");
        }
    }
    Ok(())
}

#[test]
fn the_first_fault_is_found(rt: HostRuntime) -> Result<(), Fail> {
    let cases: &[(&[u8], u32, LexFaultKind)] = &[
        (b"\x00", 0, BadByte),
        (b"a\x0b", 1, BadByte),
        (b"a \x7f", 2, BadByte),
        (b"%\x7f\n\x7f", 3, BadByte),
        (b"\\", 0, LoneBackslash),
        (b"a\\\n", 1, LoneBackslash),
        (b"\\\x7f", 0, LoneBackslash),
        (b"\\\x80", 0, LoneBackslash),
        (b"a$", 1, SpecialByte),
        (b"&", 0, SpecialByte),
        (b"{#", 1, SpecialByte),
        (b"x^", 1, SpecialByte),
        (b"x__", 1, SpecialByte),
    ];
    for (bytes, place, kind) in cases {
        match tokens(rt.alloc(), bytes) {
            Err(
                LexFault::At {
                    offset,
                    kind: found,
                },
            ) => {
                assert_eq!(rt; offset, *place, "in {bytes:?}");
                assert_eq!(rt; found, *kind, "in {bytes:?}");
            }
            Err(LexFault::NoMemory) => panic!(rt; "no memory"),
            Ok(_) => panic!(rt; "no fault in {bytes:?}"),
        }
    }
    assert_eq!(rt; BadByte.number(), 16);
    assert_eq!(rt; LoneBackslash.number(), 17);
    assert_eq!(rt; SpecialByte.number(), 18);
    Ok(())
}

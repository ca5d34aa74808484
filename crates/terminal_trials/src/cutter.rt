use edi_syntax::{CutFault, Cutter};
use std::alloc::{AllocError, Global};
use std::test::Fail;

const FIRST: &[u8] =
    b"UNB+UNOA:3+HAULA+TERM1+240305:0910+000001'UNH+1+CODECO:D:95B:UN:ITG14'BGM+34+G1+9'EQD+CN+ABCU0000017+22G1:102:5+++5'UNT+4+1'UNZ+1+000001'";

const SECOND: &[u8] =
    b"UNB+UNOA:3+HAULA+TERM1+240305:0910+2'UNH+1+CODECO:D:95B:UN'BGM+34+G1+9'EQD+CN+ABCU0000022+22G1:102:5+++5'UNT+4+1'UNZ+1+2'";

const RELEASED: &[u8] =
    b"UNB+UNOA:3+HAULA+TERM1+240305:0910+1'UNH+M?'1+CODECO:D:95B:UN'BGM+34+G1+9'EQD+CN+ABCU0000017+22G1+++4'RFF+BN:A?+B'UNT+5+M?'1'UNZ+1+1'";

const ADVISED: &[u8] = b"UNA:+.  '\nUNB+UNOA:3'FTX+WHY?'UNZ+1+1'";

const CONTROLS: &[u8] =
    b"UNA\x01\x02.\x03 \x04\r\nUNB\x02A\x01?'\x04FTX\x02\x03\x04UNZ\x02\x03\x03\x04UNZ\x02\x80\x04";

/// How many interchanges the piece completes, and how many of them are the expected one in their turn.
fn count_cut(
    cutter: &mut Cutter,
    piece: &[u8],
    expected: &[&[u8]],
    before: usize,
) -> Result<usize, CutFault> {
    let mut count = before;
    let mut rest = piece;
    for _ in 0..4 {
        match cutter.feed(rest)? {
            Some(n) => {
                if count < expected.len() && cutter.interchange() == expected[count] {
                    count += 1;
                }
                rest = &rest[n..];
            }
            None => return Ok(count),
        }
    }
    Ok(count)
}

fn cut_in_two(alloc: Global, stream: &[u8], at: usize, expected: &[&[u8]]) -> bool {
    let mut cutter = Cutter::new(alloc);
    let at = at.min(stream.len());
    let Ok(count) = count_cut(&mut cutter, &stream[..at], expected, 0) else {
        return false;
    };
    match count_cut(&mut cutter, &stream[at..], expected, count) {
        Ok(count) => count == expected.len() && cutter.at_rest(),
        Err(_) => false,
    }
}

fn cut_bytes(alloc: Global, stream: &[u8], expected: &[&[u8]]) -> bool {
    let mut cutter = Cutter::new(alloc);
    let mut count = 0;
    for i in 0..stream.len() {
        match count_cut(&mut cutter, &stream[i..i + 1], expected, count) {
            Ok(more) => count = more,
            Err(_) => return false,
        }
    }
    count == expected.len() && cutter.at_rest()
}

#[test]
fn cuts_two_interchanges_however_the_stream_is_cut(rt: HostRuntime) -> Result<(), Fail> {
    for second in [SECOND, ADVISED, RELEASED, CONTROLS] {
        let mut stream = Vec::new(rt.alloc());
        stream.extend_from_slice(FIRST)?;
        stream.extend_from_slice(b"\r\n")?;
        stream.extend_from_slice(second)?;
        stream.extend_from_slice(b"\n")?;
        for at in 0..stream.len() {
            assert!(rt;
                cut_in_two(rt.alloc(), &stream, at, &[FIRST, second]),
                "cut at {at}"
            );
        }
        assert!(rt; cut_bytes(rt.alloc(), &stream, &[FIRST, second]));
    }
    Ok(())
}

/// Two pieces, what feeding each comes to, and whether what is left of the first is known.
#[test]
fn a_fault_stands(rt: HostRuntime) {
    let rows: [(&[u8], Option<CutFault>, &[u8], CutFault); 4] = [
        (b"AAAA", Some(CutFault::Segment), b"'", CutFault::Segment),
        (
            b"UNB+UNOA:3+HAULA\x01",
            Some(CutFault::Segment),
            b"'",
            CutFault::Segment,
        ),
        (b"UNB+UNOA:3+HAULA", None, b"\x01", CutFault::Segment),
        (b"\r\nUNA++.? ", None, b"'", CutFault::Service),
    ];
    for (first, stands, second, fault) in rows {
        let mut cutter = Cutter::new(rt.alloc());
        assert!(rt; cutter.at_rest());
        assert!(rt; cutter.feed(first).err() == stands);
        assert!(rt; stands.is_some() && cutter.interchange().is_empty() || !cutter.at_rest());
        assert!(rt; cutter.feed(second) == Err(fault));
    }
}

/// Four bytes, that many `A`, and these.
fn long_piece(alloc: Global, count: usize, behind: &[u8]) -> Result<Vec<u8>, AllocError> {
    let mut piece = Vec::from_slice(alloc, b"FTX+")?;
    let value = vec![in alloc; b'A'; count]?;
    piece.extend_from_slice(&value)?;
    piece.extend_from_slice(behind)?;
    Ok(piece)
}

/// Pieces of one call each: a long interchange, the last byte that is allowed, and one more.
#[test]
fn a_piece_may_be_long(rt: HostRuntime) -> Result<(), Fail> {
    for (count, behind, expected) in [
        (10_000, b"'UNZ'".as_slice(), Ok(Some(10_009))),
        (1_048_572, b"".as_slice(), Ok(None)),
        (1_048_573, b"".as_slice(), Err(CutFault::TooLong)),
    ] {
        let piece = long_piece(rt.alloc(), count, behind)?;
        let mut cutter = Cutter::new(rt.alloc());
        let fed = cutter.feed(&piece);
        assert!(rt; fed == expected);
        assert!(rt; !matches!(fed, Ok(Some(_))) || cutter.interchange() == piece.as_slice());
    }
    Ok(())
}

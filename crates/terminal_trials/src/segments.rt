//! Segments by their bytes. What is no segment, and other service characters that may not serve, go through the program:
//! the model's cases.
use edi_syntax::{
    Components, Segment, SegmentCheck, SegmentWriter, Segments, SyntaxFault, interchange_text,
    write_component,
};
use std::alloc::{AllocError, Global};
use std::process::Abort;
use std::test::Fail;

/// The first segment that is read of the text.
fn first<'a>(text: &'a [u8]) -> Option<Segment<'a>> {
    Segments::read(text).ok()?.next()
}

const RELEASED: &[u8] = b"RFF+BN:A?+B:??:?'?:?\x80+\xff'\r\n";

const OTHERS: &[u8] = b"UNA*|,! ~\r\nRFF|A!*B!!C!|!~*a?:+'~\n";

const CONTROLS: &[u8] = b"UNA\x00\x01\x02\x03\x04\x7fRFF\x01A\x00B\x03\x7f\x7f";

const NO_RELEASE: &[u8] = b"UNA:+.  'RFF+WHY?:?'";

/// Whether the first segment is an RFF that has this value in that place.
fn has_value(text: &[u8], element: usize, component: usize, value: &[u8]) -> bool {
    match first(text) {
        Some(segment) if element > 0 && component > 0 => {
            segment.has_tag(b"RFF") && segment.component(element, component).equals(value)
        }
        _ => false,
    }
}

#[test]
fn reads_values_by_their_places(rt: HostRuntime) {
    let rows: [(&[u8], usize, usize, &[u8]); 10] = [
        (RELEASED, 1, 2, b"A+B"),
        (RELEASED, 1, 3, b"?"),
        (RELEASED, 1, 4, b"':\x80"),
        (RELEASED, 2, 1, b"\xff"),
        (RELEASED, 2, 2, b""),
        (OTHERS, 1, 1, b"A*B!C|~"),
        (OTHERS, 1, 2, b"a?:+'"),
        (CONTROLS, 1, 2, b"B\x7f"),
        (NO_RELEASE, 1, 1, b"WHY?"),
        (NO_RELEASE, 1, 2, b"?"),
    ];
    for (text, element, component, value) in rows {
        assert!(rt; has_value(text, element, component, value));
    }
}

/// Values, the one as it is and the other anew, under the defaults.
fn spelled(alloc: Global, segment: &Segment<'_>) -> Result<Vec<u8>, AllocError> {
    let mut text = Vec::new(alloc);
    segment.component(1, 4).value_into(&mut text)?;
    segment.component(1, 2).spell_into(&mut text)?;
    Ok(text)
}

#[test]
fn tells_what_a_value_is_like(rt: HostRuntime) -> Result<(), Fail> {
    let segment = first(RELEASED).ok_or("no segment")?;
    assert!(rt; segment.component(1, 2).len() == 3);
    assert!(rt; !segment.component(1, 4).is_printable());
    assert!(rt; segment.component(1, 1).fixed::<2>() == Some(*b"BN"));
    assert!(rt; segment.component(1, 1).fixed::<3>().is_none());
    assert!(rt; segment.component(1, 1).plain() == Some(b"BN".as_slice()));
    assert!(rt; segment.component(1, 2).plain().is_none());
    assert!(rt;
        segment
            .component(1, 1)
            .has_same_value(&segment.component(1, 1))
    );
    assert!(rt; spelled(rt.alloc(), &segment)?.as_slice() == b"':\x80A?+B".as_slice());
    Ok(())
}

/// Whether an element has just these values.
fn are_values(element: Components<'_>, values: &[&[u8]]) -> bool {
    let mut found = element;
    for value in values {
        match found.next() {
            Some(component) if component.equals(value) => {}
            _ => return false,
        }
    }
    found.next().is_none()
}

/// The values of both elements, and of one that isn't there.
#[test]
fn goes_over_values(rt: HostRuntime) -> Result<(), Fail> {
    let segment = first(RELEASED).ok_or("no segment")?;
    assert!(rt; are_values(segment.components(1), &[b"BN", b"A+B", b"?", b"':\x80"]));
    assert!(rt; are_values(segment.components(2), &[b"\xff"]));
    assert!(rt; are_values(segment.components(3), &[b""]));
    Ok(())
}

/// A segment with empty elements and components among the others, and at the ends.
fn written(alloc: Global) -> Result<Vec<u8>, AllocError> {
    let mut writer = SegmentWriter::new(alloc);
    writer.begin(b"UNB")?;
    writer.element(&[b"UNOA", b"3"])?;
    writer.element(&[])?;
    writer.element(&[b"", b"a:b+c?d'e", b"", b""])?;
    writer.element(&[b""])?;
    writer.end()?;
    Ok(writer.into_text())
}

#[test]
fn writes_segments(rt: HostRuntime) -> Result<(), Fail> {
    let mut text = written(rt.alloc())?;
    write_component(b"a+b", &mut text)?;
    assert!(rt; text.as_slice() == b"UNB+UNOA:3++:a?:b?+c??d?'e'a?+b".as_slice());
    Ok(())
}

#[test]
fn takes_breaks_off_both_ends(rt: HostRuntime) {
    assert!(rt; interchange_text(b"\r\n\nUNB\n'\r\n") == b"UNB\n'".as_slice());
    assert!(rt; interchange_text(b"\r\n").is_empty());
}

/// The last byte of a text must be a terminator that is not released.
#[test]
fn reads_segments_up_to_their_end(rt: HostRuntime) -> Result<(), Fail> {
    assert!(rt; Segments::read(b"BGM+34+G1:A?+B:'UNS'\r\nEQD++X?'?'").is_err());
    let mut segments = Segments::read(b"BGM+34+G1:A?+B:'UNS'\r\nEQD++X?''")?;
    for tag in [b"BGM", b"UNS"] {
        assert!(rt; segments.next().ok_or("no segment")?.has_tag(tag));
    }
    let last = segments.next().ok_or("no segment")?;
    assert!(rt; last.has_tag(b"EQD") && last.component(2, 1).equals(b"X'"));
    assert!(rt; segments.next().is_none());
    Ok(())
}

/// Whether all of a text are segments, how many come one by one, how long their first values are, and whether nothing
/// is left then.
fn checked(text: &[u8]) -> Result<(bool, usize, usize, bool), SyntaxFault> {
    let check = SegmentCheck::of(text)?;
    let mut segments = check.segments();
    let all = segments.are_all();
    let mut count = 0usize;
    let mut bytes = 0usize;
    for _ in 0..3 {
        if let Some(segment) = segments.next_segment() {
            count = count.wrapping_add(1);
            bytes = bytes.wrapping_add(segment.component(1, 1).len());
        }
    }
    Ok((all, count, bytes, segments.is_at_end()))
}

#[test]
fn checks_segments_one_by_one(rt: HostRuntime) {
    let rows: [(&[u8], Result<(bool, usize, usize, bool), SyntaxFault>); 4] = [
        (
            b"UNA*|,! ~\r\nBGM|3!~4~\nUNS~uns~",
            Ok((false, 2, 3, false)),
        ),
        (b"BGM+34'", Ok((true, 1, 2, true))),
        (b"UNA:+.+ '", Err(SyntaxFault::Service)),
        (b"", Ok((true, 0, 0, true))),
    ];
    for (text, expected) in rows {
        assert!(rt; checked(text) == expected);
    }
}

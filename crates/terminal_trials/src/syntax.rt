//! Interchanges by their bytes. Each fault, and what is read of the head and the messages, the program shows in its
//! answers: the model's cases.
use edi_syntax::{Head, Segment, open_envelope};

const GATE_IN: &[u8] =
    b"UNB+UNOA:3+HAULA+TERM1+240305:0910+000001'UNH+1+CODECO:D:95B:UN:ITG14'BGM+34+G1+9'EQD+CN+ABCU0000017+22G1:102:5+++5'UNT+4+1'UNZ+1+000001'";

const OTHERS: &[u8] =
    b"UNA*|,! ~\r\nUNB|UNOA*3|HAUL!|A|TERM!*1|240305*0910|1~UNH|1|A~\nFTX|?:+'|!!|!~*!||\x80~UNT|3|1~UNZ|1|1~";

const CONTROLS: &[u8] =
    b"UNA\x01\x02.\x03 \x04\r\nUNB\x02UNOA\x013\x02?\x03A\x02T\x02240305\x010910\x021\x04UNZ\x04";

fn is_from(text: &[u8], sender: &[u8]) -> bool {
    match Head::open(text) {
        Ok(head) => head.sender(1).equals(sender),
        Err(_) => false,
    }
}

#[test]
fn reads_the_sender(rt: HostRuntime) {
    assert!(rt; is_from(GATE_IN, b"HAULA"));
    assert!(rt; is_from(OTHERS, b"HAUL|A"));
    assert!(rt; is_from(CONTROLS, b"?A"));
}

/// The first segment within the first message.
fn first_segment<'a>(text: &'a [u8]) -> Option<Segment<'a>> {
    open_envelope(text).ok()?.frames().next()?.segments().next()
}

/// Whether that segment has this value there.
fn has_value(text: &[u8], element: usize, component: usize, value: &[u8]) -> bool {
    match first_segment(text) {
        Some(segment) if element > 0 && component > 0 => {
            segment.component(element, component).equals(value)
        }
        _ => false,
    }
}

#[test]
fn reads_values_within_a_message(rt: HostRuntime) {
    let rows: [(&[u8], usize, usize, &[u8]); 7] = [
        (GATE_IN, 1, 1, b"34"),
        (GATE_IN, 3, 1, b"9"),
        (OTHERS, 1, 1, b"?:+'"),
        (OTHERS, 2, 1, b"!"),
        (OTHERS, 3, 1, b"~"),
        (OTHERS, 3, 2, b"|"),
        (OTHERS, 4, 1, b"\x80"),
    ];
    for (text, element, component, value) in rows {
        assert!(rt; has_value(text, element, component, value));
    }
}

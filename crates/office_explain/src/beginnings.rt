//! What stands at the front of a file that is no interchange.

/// What the first bytes of a text are that can't be split into interchanges, and what to do. `None`: it isn't known.
pub(crate) fn known_beginning(text: &[u8]) -> Option<&'static str> {
    if text.starts_with(b"\xef\xbb\xbf") {
        Some("a byte order mark stands here: save the file without it")
    } else if is_in_two_bytes(text) {
        Some("this is UTF-16: save the file in ASCII or Latin 1")
    } else if text.starts_with(b"\xe4\xd5") {
        Some("this is EBCDIC: send the file in ASCII")
    } else if is_mail(text) {
        Some("this is a mail's head: save the interchange that is attached")
    } else {
        None
    }
}

/// The mark of UTF-16 in either order, or `U` in two bytes.
fn is_in_two_bytes(text: &[u8]) -> bool {
    match text {
        [0xff, 0xfe, ..] | [0xfe, 0xff, ..] | [b'U', 0, ..] | [0, b'U', ..] => true,
        _ => false,
    }
}

/// A field of a mail's head: a name of letters, digits and hyphens, a colon and a space (RFC 5322, section 2.2).
fn is_mail(text: &[u8]) -> bool {
    for (index, byte) in text.iter().enumerate() {
        if *byte == b':' {
            let (_, behind) = text.split_at(index);
            return index > 0 && behind.starts_with(b": ") && !text.starts_with(b"UN");
        }
        if !byte.is_ascii_alphanumeric() && *byte != b'-' {
            return false;
        }
    }
    false
}

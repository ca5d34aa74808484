ghost use Rattle.std.specs.Prelude.{◌≡◌, ◌≤◌};
ghost use Rattle.office_http.specs.Seeing.{digit, status_seen};

/// What was seen of a connection: the first two words of what came, and what was written.
#[derive(Clone, Copy, Debug)]
pub struct Seen<'a> {
    /// The method, or whatever stands in its place. Empty if nothing came.
    pub method: &'a [u8],
    /// The target, as it came. What stands after the first 256 bytes of a request is cut off.
    pub target: &'a [u8],
    /// The status of the response, 0 if none was written.
    pub status: u16,
    /// How many bytes were written.
    pub bytes: u64,
}

impl<'a> Seen<'a> {
    /// By the fronts of a request and its response, and how many bytes that has.
    pub(crate) fn new(request: &'a [u8], response: &[u8], bytes: u64) -> Seen<'a>
        ensures status { result.status ≡ status_seen response.now }
        ensures bytes { result.bytes ≡ bytes }
    {
        let (method, behind) = split_word(request);
        let (target, _) = match behind {
            [_, rest @ ..] => split_word(rest),
            [] => (behind, behind),
        };
        Seen {
            method,
            target,
            status: status_in(response),
            bytes,
        }
    }
}

/// The characters before the first that can't be seen, and what follows.
fn split_word(bytes: &[u8]) -> (&[u8], &[u8]) {
    let end = bytes.iter().position(|byte| !byte.is_ascii_graphic());
    bytes.split_at(end.unwrap_or(bytes.len()).min(bytes.len()))
}

/// The status of a response, 0 if it doesn't reach so far.
fn status_in(response: &[u8]) -> u16
    ensures { result ≡ status_seen response.now }
{
    match response {
        [b'H', b'T', b'T', b'P', _, _, _, _, _, a, b, c, ..] => {
            digit(*a) * 100 + digit(*b) * 10 + digit(*c)
        }
        _ => 0,
    }
}

fn digit(byte: u8) -> u16
    ensures value { result ≡ digit byte }
    ensures small { result ≤ 9 }
{
    u16::from(byte.saturating_sub(b'0').min(9))
}

use crate::causes::Causes;
use crate::watch::Became;
use jiff::Timestamp;
use office_commands::{AccountNote, DeliveryNote, Notes, Sender, WhyNotNow};
use office_http::Seen;
use office_replies::{Cut, StreamFault, Worst};
use std::alloc::Global;
use std::cell::Cell;
use std::time::{Duration, Instant, SystemTime, UNIX_EPOCH};
use std::{fmt, str};

/// A line for each request, on the standard error: what was done for it is noted first, and written when its connection is
/// done with.
#[derive(Drop)]
pub(crate) struct RequestLog<'a> {
    rt: &'a HostRuntime,
    is_on: bool,
    begun: Cell<Option<Instant>>,
    microseconds: Cell<u128>,
    words: Cell<Option<String>>,
    causes: Cell<Causes<'a>>,
}

impl<'a> RequestLog<'a> {
    /// The log of a server over the store at a path, which is written only if it is on.
    pub(crate) fn new(rt: &'a HostRuntime, is_on: bool, path: &'a str) -> RequestLog<'a> {
        RequestLog {
            rt,
            is_on,
            begun: Cell::new(None),
            microseconds: Cell::new(0),
            words: Cell::new(None),
            causes: Cell::new(Causes::new(path)),
        }
    }

    /// Notes how long the office has worked on a request.
    fn note_time(&self) {
        let spent = match self.begun.get() {
            Some(begun) => begun.elapsed(self.rt).ok(),
            None => None,
        };
        if let Some(spent) = spent {
            self.microseconds.set(spent.as_micros());
        }
    }

    /// Reports why an answer is `not now`, if it is so for another cause than before.
    fn tell_cause(&self, why: Option<&WhyNotNow<'_>>) {
        let mut causes = self.causes.get();
        let cause = causes.behind(self.rt, why);
        self.causes.set(causes);
        if let Some(cause) = cause {
            let _ = eprintln!(self.rt; "{} not now: {cause}", ClockTime::now(self.rt));
        }
    }

    /// Writes the line of a connection, of which that was seen.
    fn tell(&self, method: &str, target: &str, status: u16, bytes: u64) {
        let time = ClockTime::now(self.rt);
        let spent = self.microseconds.replace(0);
        let words = match self.words.replace(None) {
            Some(words) => words,
            None => String::new(self.rt.alloc()),
        };
        let _ = eprintln!(self.rt;
            "{time} {method} {target} {status} {bytes} bytes {spent} us{}",
            words.as_str()
        );
    }
}

impl Notes for RequestLog<'_> {
    fn is_on(&self) -> bool {
        self.is_on
    }

    fn begun(&self) {
        if self.is_on {
            self.begun.set(Instant::now(self.rt).ok());
        }
    }

    fn answered(&self) {
        if self.is_on {
            self.note_time();
        }
    }

    fn delivered(&self, sender: Option<&Sender>, note: &DeliveryNote<'_>) {
        self.words
            .set(delivery_words(self.rt.alloc(), sender, note));
        self.tell_cause(match note {
            DeliveryNote::NotNow(why) => Some(why),
            _ => None,
        });
    }

    fn enrolled(&self, code: &[u8], note: &AccountNote<'_>) {
        self.words.set(account_words(self.rt.alloc(), code, note));
        self.tell_cause(match note {
            AccountNote::NotNow(why) => Some(why),
            _ => None,
        });
    }

    fn served(&self, seen: &Seen<'_>) {
        if self.is_on {
            self.tell(
                word(seen.method),
                word(seen.target),
                seen.status,
                seen.bytes,
            );
        }
    }

    fn ended(&self, _outcome: Result<Worst, StreamFault>, _cut: Option<Cut>) {}
}

/// A word of a request as text, and a hyphen if there is none.
fn word(bytes: &[u8]) -> &str {
    match str::from_utf8(bytes) {
        Ok(text) if !text.is_empty() => text,
        _ => "-",
    }
}

/// How a delivery was answered, in the words of a line. None, if memory is refused.
fn delivery_words(
    alloc: Global,
    sender: Option<&Sender>,
    note: &DeliveryNote<'_>,
) -> Option<String> {
    let text = match sender {
        Some(sender) => {
            let (code, number) = (Code(&sender.code), sender.number);
            format!(in alloc; " {code}/{number} {}", DeliveryWords(note))
        }
        None => format!(in alloc; " {}", DeliveryWords(note)),
    };
    text.ok()
}

/// How an account was answered, in the words of a line. None, if memory is refused.
fn account_words(alloc: Global, code: &[u8], note: &AccountNote<'_>) -> Option<String> {
    let code = Code(code);
    let text = match note {
        AccountNote::Added => format!(in alloc; " {code} added"),
        AccountNote::Known => format!(in alloc; " {code} known"),
        AccountNote::Refused(fault) => format!(in alloc; " {code} refused {}", fault.name()),
        AccountNote::NotNow(_) => format!(in alloc; " {code} not now"),
    };
    text.ok()
}

/// How a delivery was answered; of what was taken also what became of it.
#[derive(Clone, Copy)]
struct DeliveryWords<'a>(&'a DeliveryNote<'a>);

impl fmt::Display for DeliveryWords<'_> {
    fn fmt<W: fmt::Write>(&self, f: &mut fmt::Formatter<W>) -> fmt::Result {
        match self.0 {
            DeliveryNote::Taken(tally) => write!(f, "taken{}", Became(*tally)),
            DeliveryNote::Repeat => f.write_str("repeat"),
            DeliveryNote::Waiting => f.write_str("waiting"),
            DeliveryNote::Clash => f.write_str("clash"),
            DeliveryNote::Refused(fault) => write!(f, "refused {}", fault.name()),
            DeliveryNote::NotNow(_) => f.write_str("not now"),
        }
    }
}

/// The most bytes of a partner's code.
const MOST_BYTES: usize = 35;

/// A code that was sent as a partner's: each byte that may be in one as it is, any other as `%` and two hexadecimal
/// digits. What is too long for one is cut off.
#[derive(Clone, Copy)]
struct Code<'a>(&'a [u8]);

impl fmt::Display for Code<'_> {
    fn fmt<W: fmt::Write>(&self, f: &mut fmt::Formatter<W>) -> fmt::Result {
        let front = self.0.get(..MOST_BYTES).unwrap_or(self.0);
        for byte in front {
            write_byte(*byte, f)?;
        }
        if self.0.len() > MOST_BYTES {
            f.write_str("..")?;
        }
        Ok(())
    }
}

/// Writes a byte of a code.
fn write_byte<W: fmt::Write>(byte: u8, f: &mut fmt::Formatter<W>) -> fmt::Result {
    if byte.is_ascii_alphanumeric() || matches!(byte, b'-' | b'.' | b'_') {
        write!(f, "{}", char::from(byte))
    } else {
        write!(f, "%{byte:02X}")
    }
}

/// A moment by the clock of the machine, in universal time, to the second. `Display` writes it by RFC 3339.
#[derive(Clone, Copy)]
pub(crate) struct ClockTime {
    second: u64,
}

impl ClockTime {
    /// The moment now. The first of 1970, if the clock can't be read.
    pub(crate) fn now(rt: &HostRuntime) -> ClockTime {
        let since = match SystemTime::now(rt) {
            Ok(now) => now.duration_since(UNIX_EPOCH).unwrap_or(Duration::ZERO),
            Err(_) => Duration::ZERO,
        };
        ClockTime {
            second: since.as_secs(),
        }
    }
}

impl fmt::Display for ClockTime {
    fn fmt<W: fmt::Write>(&self, f: &mut fmt::Formatter<W>) -> fmt::Result {
        let second = i64::try_from(self.second).unwrap_or(0);
        match Timestamp::from_second(second) {
            Ok(moment) => moment.fmt(f),
            Err(_) => f.write_str("-"),
        }
    }
}

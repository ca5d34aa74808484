use crate::causes::stderr_is_terminal;
use office_commands::tell;
use office_loading::{Onlooker, Step};
use office_replies::Port;
use std::cell::Cell;
use std::fs;
use std::io::{IsTerminal, Result, Write};

/// After how many interchanges, visits or lists a person is shown how far work is.
const STEP: u64 = 1000;

/// A megabyte, as people count it.
const MEGABYTE: u64 = 1_000_000;

/// Work over a whole store, which takes long where the store is large. A line comes before it, for a person, by the size of the
/// store's file.
#[derive(Clone, Copy)]
pub(crate) struct Work {
    name: &'static str,
    /// How many bytes of the file it gets through in a second, about.
    rate: u64,
    /// From how many seconds on the line comes.
    least: u64,
}

impl Work {
    /// A store is opened, before anything else is done with it.
    pub(crate) const OPENING: Work = Work {
        name: "opening",
        rate: 50_000_000,
        least: 2,
    };

    /// A store of an older version is brought to this one.
    pub(crate) const MIGRATING: Work = Work {
        name: "migrating",
        rate: 14_000_000,
        least: 2,
    };

    /// History of a store is put away.
    pub(crate) const CLOSING: Work = Work {
        name: "closing",
        rate: 8_000_000,
        least: 1,
    };
}

/// Says to a person, before long work on the store at a path, what is done, on how much, and how long it may take.
pub(crate) fn tell_long<E: Write>(rt: &HostRuntime, errors: &mut Port<E>, work: Work, path: &str) {
    if !stderr_is_terminal(rt) {
        return;
    }
    let Ok(found) = fs::metadata(rt, path) else {
        return;
    };
    let seconds = found.len().checked_div(work.rate).unwrap_or(0);
    if seconds < work.least {
        return;
    }
    let name = work.name;
    let megabytes = found.len() / MEGABYTE;
    if let Ok(text) = format!(in rt.alloc();
        "{name} {path}, {megabytes} MB: this may take {seconds} s\n"
    ) {
        tell(errors, text.as_str());
    }
}

/// Shows a person how far work on a store is: how many interchanges, visits and lists went through its steps.
#[derive(Drop)]
pub(crate) struct WorkWatch<'a> {
    rt: &'a HostRuntime,
    is_on: bool,
    copied: Cell<u64>,
    compared: Cell<u64>,
    deleted: Cell<u64>,
}

impl<'a> WorkWatch<'a> {
    /// Of work that begins.
    pub(crate) fn new(rt: &'a HostRuntime) -> WorkWatch<'a> {
        WorkWatch {
            rt,
            is_on: stderr_is_terminal(rt),
            copied: Cell::new(0),
            compared: Cell::new(0),
            deleted: Cell::new(0),
        }
    }

    /// Ends the line on which it was shown, if it was.
    pub(crate) fn end(&self) {
        let most = self.copied.get().max(self.compared.get());
        if self.is_on && most.max(self.deleted.get()) >= STEP {
            let _ = eprintln!(self.rt; "");
        }
    }

    /// Counts more of something, and shows how many there are, with each thousand more.
    fn count(&self, of: &Cell<u64>, more: usize, what: &str) {
        let before = of.get();
        let now = before.saturating_add(more as u64);
        of.set(now);
        if self.is_on && now / STEP > before / STEP {
            let _ = eprint!(self.rt; "{now} {what}\r");
        }
    }
}

impl Onlooker for WorkWatch<'_> {
    fn passed(&self, step: Step, count: usize) {
        match step {
            Step::Copying => self.count(&self.copied, count, "interchanges copied"),
            Step::Comparing => self.count(&self.compared, count, "interchanges compared"),
            Step::Deleting => self.count(&self.deleted, count, "rows and lists deleted"),
        }
    }
}

/// A writer of much that shows a person how many megabytes were written.
#[derive(Drop)]
pub(crate) struct Watched<'a, W> {
    rt: &'a HostRuntime,
    is_on: bool,
    /// What the megabytes are of.
    what: &'static str,
    inner: W,
    bytes: u64,
}

impl<'a, W: Write> Watched<'a, W> {
    /// A writer of texts, of which nothing is shown if they go to a terminal too.
    pub(crate) fn texts(rt: &'a HostRuntime, inner: W) -> Watched<'a, W> {
        let is_on = stderr_is_terminal(rt) && !rt.stdout().is_terminal();
        Watched {
            rt,
            is_on,
            what: "MB of texts",
            inner,
            bytes: 0,
        }
    }

    /// A writer of a copy of a store.
    pub(crate) fn copy(rt: &'a HostRuntime, inner: W) -> Watched<'a, W> {
        Watched {
            rt,
            is_on: stderr_is_terminal(rt),
            what: "MB copied",
            inner,
            bytes: 0,
        }
    }

    /// Says how much was written in all, if any of it was shown before.
    pub(crate) fn end(&self) {
        let megabytes = self.bytes / MEGABYTE;
        if self.is_on && megabytes > 0 {
            let _ = eprintln!(self.rt; "{megabytes} {}", self.what);
        }
    }

    /// Counts bytes that were written, and says how many megabytes there are, with each more.
    fn count(&mut self, bytes: usize) {
        let before = self.bytes / MEGABYTE;
        self.bytes = self.bytes.saturating_add(bytes as u64);
        let now = self.bytes / MEGABYTE;
        if self.is_on && now > before {
            let _ = eprint!(self.rt; "{now} {}\r", self.what);
        }
    }
}

impl<W: Write> Write for Watched<'_, W> {
    fn write(&mut self, buf: &[u8]) -> Result<usize> {
        let count = self.inner.write(buf)?;
        self.count(count);
        Ok(count)
    }

    fn flush(&mut self) -> Result<()> {
        self.inner.flush()
    }
}

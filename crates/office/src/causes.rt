use crate::links::is_link;
use office_commands::{FAILED, WhyNotNow, tell, tell_fault};
use office_replies::Port;
use office_tables::TableFault;
use sqlite::{Error, ErrorCode};
use sqlite_resolve::CompileError;
use std::alloc::Global;
use std::io::{IsTerminal, Write};
use std::os::unix::fs::MetadataExt;
use std::{fmt, fs};

/// Words that say to a person why something could not be done, and what to do about it.
#[derive(Clone, Copy, PartialEq, Eq)]
pub(crate) struct Words {
    /// Whether the path comes before them.
    follow_path: bool,
    text: &'static str,
}

impl Words {
    /// The store's file was removed while a process worked on it.
    pub(crate) const NAMELESS: Words = Words {
        follow_path: false,
        text: "the store's file was removed: reports still tell what was answered; stop, and put the last copy back",
    };

    /// Memory was refused.
    pub(crate) const MEMORY: Words = Words {
        follow_path: false,
        text: "memory ran out: try again",
    };

    /// Nothing is delivered to an archive.
    pub(crate) const IS_ARCHIVE: Words = Words {
        follow_path: true,
        text: " is an archive: work on the store that went on, and ask this one only for reports",
    };

    /// The texts of a store with archives are in several files, which only the command reads.
    pub(crate) const HAS_ARCHIVES: Words = Words {
        follow_path: true,
        text: " has archives: its texts are printed by office texts, and not told over HTTP",
    };

    /// A register lies where a store is to be made.
    pub(crate) const HAS_REGISTER: Words = Words {
        follow_path: true,
        text: "-archives lies there already, the register of another store: name another file",
    };

    /// A register holds what no closing wrote.
    pub(crate) const DAMAGED_REGISTER: Words = Words {
        follow_path: true,
        text: " is no register of archives: put the copy back that was made with the store's last copy",
    };

    /// A store was put back, and its register was not.
    pub(crate) const OLDER: Words = Words {
        follow_path: true,
        text: " is older than its register: put both back from one copy, the newest that has both",
    };

    /// A register is that of a store of another terminal.
    pub(crate) const OTHER_TERMINAL: Words = Words {
        follow_path: true,
        text: " has the register of another terminal's store: put both back from one copy, the newest that has both",
    };

    /// An archive keeps other texts than were closed into it.
    pub(crate) const OTHER_SEALS: Words = Words {
        follow_path: true,
        text: " keeps something else than was put away in it: put the archive back, and its register",
    };

    /// An archive lies in another folder than its store.
    pub(crate) const OTHER_FOLDER: Words = Words {
        follow_path: true,
        text: " lies in another folder: copy it into the store's folder",
    };

    /// An archive is of another terminal, or has other accounts.
    pub(crate) const OTHER_OFFICE: Words = Words {
        follow_path: true,
        text: " is of another office: name a copy of the store",
    };

    /// An archive is of a later day than the store.
    pub(crate) const LATER: Words = Words {
        follow_path: true,
        text: " is later than the store: see that each path is right",
    };

    /// An archive's register does not go with the store's.
    pub(crate) const OTHER_REGISTER: Words = Words {
        follow_path: true,
        text: " has other archives than the store, or is marked for another one: copy the store again, its register too",
    };

    /// An archive keeps other bytes under a number.
    pub(crate) const OTHER_INTERCHANGE: Words = Words {
        follow_path: true,
        text: " keeps another interchange than the store under one number: copy the store again",
    };

    /// An archive has texts in another order than the store, or texts that wait and never came to the store.
    pub(crate) const OTHER_ORDER: Words = Words {
        follow_path: true,
        text: " has other texts than the store, or in another order: copy the store again",
    };

    /// An archive has another visit of a number.
    pub(crate) const OTHER_VISIT: Words = Words {
        follow_path: true,
        text: " has another visit than the store under one number: copy the store again",
    };

    /// An archive is to be made first.
    pub(crate) const NO_COPY: Words = Words {
        follow_path: true,
        text: " is not there: first copy the store to it, with its log and its register",
    };

    /// A copy has the name of an archive that the store's register names.
    pub(crate) const NAMED_ARCHIVE: Words = Words {
        follow_path: true,
        text: " is the name of an archive of the store: `office report DB archives` tells if that is there; give a copy another name",
    };

    /// An archive that a closing made, which was stopped, is no copy of the store any more.
    pub(crate) const LEFT_COPY: Words = Words {
        follow_path: true,
        text: " was made by a closing that was stopped, and is no copy of the store now: it stays, and another one is made",
    };

    /// What a store's log holds can't be moved into its file, so that no file by itself is the store.
    pub(crate) const LOG_STAYS: Words = Words {
        follow_path: false,
        text: "its log can't be moved into its file: make room on the disk, and try again",
    };

    /// The disk has no room for a copy.
    pub(crate) const NO_ROOM: Words = Words {
        follow_path: false,
        text: "the disk has no room for a copy of it: make room, and try again",
    };

    /// A copy can't be made.
    pub(crate) const NOT_COPIED: Words = Words {
        follow_path: false,
        text: "no copy of it can be made in its folder: look at the disk and at who may write there",
    };

    /// Each name that an archive may get is taken.
    pub(crate) const NO_NAME: Words = Words {
        follow_path: false,
        text: "each name for an archive is taken: copy the store under another name, and name that",
    };

    /// A store that is to be migrated is of this version.
    pub(crate) const IS_NEWEST: Words = Words {
        follow_path: true,
        text: " is of this version already: work on it",
    };

    const HAS_TABLES: Words = Words {
        follow_path: true,
        text: " has its tables already: work on it, or name another file",
    };

    fn plain(text: &'static str) -> Words {
        Words {
            follow_path: false,
            text,
        }
    }
}

/// Why something could not be done at a path, and what to do about it, for a person.
#[derive(Clone, Copy, PartialEq, Eq)]
pub(crate) struct Cause<'a> {
    path: &'a str,
    words: Words,
}

impl<'a> Cause<'a> {
    pub(crate) fn new(path: &'a str, words: Words) -> Cause<'a> {
        Cause { path, words }
    }
}

impl fmt::Display for Cause<'_> {
    fn fmt<W: fmt::Write>(&self, f: &mut fmt::Formatter<W>) -> fmt::Result {
        if self.words.follow_path {
            f.write_str(self.path)?;
        }
        f.write_str(self.words.text)
    }
}

/// Why a store could not be worked on. `path` is the store's.
pub(crate) fn cause_of<'a>(rt: &HostRuntime, path: &'a str, fault: &TableFault) -> Cause<'a> {
    Cause::new(path, words_of(rt, path, fault))
}

/// The words for a fault of the store at a path.
pub(crate) fn words_of(rt: &HostRuntime, path: &str, fault: &TableFault) -> Words {
    match fault {
        TableFault::Store(Error::SqliteFailure(ErrorCode::NameTaken)) => Words::HAS_TABLES,
        TableFault::Store(Error::SqliteFailure(code)) => {
            Words::plain(words_of_code(rt, path, *code))
        }
        TableFault::Store(Error::SqlInputError(CompileError::Exists)) => Words::HAS_TABLES,
        TableFault::Store(_) => Words::plain(
            "it is a database without the tables of an office: see that the path is right",
        ),
        TableFault::Damaged => Words::plain(
            "its rows are those of no office: put its register of archives back if that is missing; else take the last copy, and deliver again what came since",
        ),
        TableFault::Version => Words::plain(
            "its tables are of another version: `office migrate` brings those of version 1 and 2 to this one",
        ),
        TableFault::Memory => Words::MEMORY,
    }
}

fn words_of_code(rt: &HostRuntime, path: &str, code: ErrorCode) -> &'static str {
    match code {
        ErrorCode::DatabaseBusy => {
            "another process works on it: wait for its end, or ask `office serve` over HTTP"
        }
        ErrorCode::NotADatabase => "it is no database: see that the path is right",
        ErrorCode::DatabaseCorrupt => {
            "it is damaged, or the log beside it is not its own: put the last copy of both back"
        }
        ErrorCode::DiskFull => "the disk is full: make room, and try again",
        ErrorCode::SystemIoFailure => {
            "a read or a write of it failed: look at the disk and at who may write there"
        }
        ErrorCode::Closed => "a write of it failed before: start the program again",
        ErrorCode::CannotOpen => words_at(rt, path),
        ErrorCode::BadName => {
            "its archive is missing or another file: `office report DB archives` tells which one"
        }
        _ => "the database refuses what was asked: see that the path is right",
    }
}

/// Why the file at a path can't be opened.
fn words_at(rt: &HostRuntime, path: &str) -> &'static str {
    match fs::metadata(rt, path) {
        Err(_) if is_link(rt, path) => "it is a link that leads to no file: see where it leads",
        Err(_) =>
            "no such file or folder: see that the path is right, or make a store by `office init`",
        Ok(found) if found.is_dir() => "it is a folder: name the file in it",
        Ok(found) if !found.is_file() => "it is no file: see that the path is right",
        Ok(found) if found.nlink() > 1 =>
            "the file has a second name (a hard link): remove that name",
        Ok(found) if found.len() == 0 => "the file is empty: make a store by `office init`",
        Ok(_) =>
            "the file can't be opened: look at who may read and write it and what lies beside it",
    }
}

/// Why an input file can't be read. `-` is the standard input.
pub(crate) fn cause_of_unread<'a>(rt: &HostRuntime, path: &'a str) -> Cause<'a> {
    Cause::new(path, words_of_unread(rt, path))
}

fn words_of_unread(rt: &HostRuntime, path: &str) -> Words {
    if path == "-" {
        return Words::plain("a read of the standard input failed: see what it is");
    }
    let text = match fs::metadata(rt, path) {
        Err(_) => ": no such file: see that the path is right",
        Ok(found) if found.is_dir() => ": it is a folder: name a file in it",
        Ok(_) => ": the file can't be read: look at who may read it",
    };
    Words {
        follow_path: true,
        text,
    }
}

/// What a person was shown of why answers are `not now`: once, and again when it changes.
#[derive(Clone, Copy)]
pub(crate) struct Causes<'a> {
    path: &'a str,
    told: Option<Cause<'a>>,
}

impl<'a> Causes<'a> {
    /// Nothing was reported of the store at that path.
    pub(crate) fn new(path: &'a str) -> Causes<'a> {
        Causes { path, told: None }
    }

    /// The cause that has to be reported after an answer that was `not now` for that: one that was not reported last. None after any
    /// other answer, after which the next cause is reported again.
    pub(crate) fn behind(
        &mut self,
        rt: &HostRuntime,
        why: Option<&WhyNotNow<'_>>,
    ) -> Option<Cause<'a>> {
        let was = self.told;
        self.told = match why {
            Some(why) => Some(self.cause(rt, why)),
            None => None,
        };
        if self.told == was { None } else { self.told }
    }

    fn cause(&self, rt: &HostRuntime, why: &WhyNotNow<'_>) -> Cause<'a> {
        let words = match why.fault {
            _ if why.is_nameless => Words::NAMELESS,
            // An open store says so only where its texts are asked for over HTTP and it has archives.
            Some(TableFault::Version) => Words::HAS_ARCHIVES,
            Some(fault) => words_of(rt, self.path, fault),
            None => Words::MEMORY,
        };
        Cause::new(self.path, words)
    }
}

/// Who reads what is written to standard error.
#[derive(Clone, Copy)]
pub(crate) struct Audience<'a> {
    rt: &'a HostRuntime,
    wants_causes: bool,
}

impl<'a> Audience<'a> {
    /// A person, if standard error is a terminal.
    pub(crate) fn of(rt: &'a HostRuntime) -> Audience<'a> {
        let wants_causes = stderr_is_terminal(rt);
        Audience { rt, wants_causes }
    }

    /// A person, if standard error is a terminal, or if a log is wanted.
    pub(crate) fn of_log(rt: &'a HostRuntime, log: bool) -> Audience<'a> {
        let wants_causes = log || stderr_is_terminal(rt);
        Audience { rt, wants_causes }
    }

    /// What the program runs on.
    pub(crate) fn rt(self) -> &'a HostRuntime {
        self.rt
    }

    /// Whether causes are written too, after the lines that a program reads.
    pub(crate) fn wants_causes(self) -> bool {
        self.wants_causes
    }

    /// Writes why something could not be done, if causes are wanted.
    pub(crate) fn tell<E: Write>(self, errors: &mut Port<E>, cause: Cause<'_>) {
        if self.wants_causes {
            tell_cause(self.rt.alloc(), errors, cause);
        }
    }
}

/// Writes a text, and gives the status that goes with it.
pub(crate) fn tell_with<E: Write>(errors: &mut Port<E>, text: &str, status: u8) -> u8 {
    tell(errors, text);
    status
}

/// Reports that an input file can't be read, and to a person which one, and why.
pub(crate) fn tell_unread<E: Write>(rt: &HostRuntime, errors: &mut Port<E>, path: &str) -> u8 {
    let status = tell_with(errors, "cannot read\n", FAILED);
    tell_unread_cause(rt, errors, path);
    status
}

/// Shows a person which input file can't be read, and why.
pub(crate) fn tell_unread_cause<E: Write>(rt: &HostRuntime, errors: &mut Port<E>, path: &str) {
    if stderr_is_terminal(rt) {
        tell_cause(rt.alloc(), errors, cause_of_unread(rt, path));
    }
}

/// Reports why the store at a path did not do what was asked, and to a person also the cause and what to do.
pub(crate) fn tell_store<E: Write>(
    to: Audience<'_>,
    errors: &mut Port<E>,
    path: &str,
    fault: &TableFault,
) -> u8 {
    let status = tell_fault(errors, fault);
    tell_store_cause(to, errors, path, fault);
    status
}

/// Shows a person why the store at a path did not do what was asked, and what to do.
pub(crate) fn tell_store_cause<E: Write>(
    to: Audience<'_>,
    errors: &mut Port<E>,
    path: &str,
    fault: &TableFault,
) {
    to.tell(errors, cause_of(to.rt, path, fault));
}

/// Shows a person something of the file at a path.
pub(crate) fn tell_words<E: Write>(
    to: Audience<'_>,
    errors: &mut Port<E>,
    path: &str,
    words: Words,
) {
    to.tell(errors, Cause::new(path, words));
}

/// Shows a person why an answer was `not now`, if one was: the fault for which the store at a path gave it.
pub(crate) fn tell_not_now<E: Write>(
    rt: &HostRuntime,
    errors: &mut Port<E>,
    path: &str,
    fault: Option<&TableFault>,
) {
    match fault {
        Some(fault) if stderr_is_terminal(rt) => {
            let _ = errors.write_all(b"not now: ");
            tell_cause(rt.alloc(), errors, cause_of(rt, path, fault));
        }
        _ => {}
    }
}

fn tell_cause<E: Write>(alloc: Global, errors: &mut Port<E>, cause: Cause<'_>) {
    if let Ok(text) = format!(in alloc; "{cause}\n") {
        let _ = errors.write_all(text.as_bytes());
    }
}

/// Whether a person looks at standard error: only then more than faults is written there.
pub(crate) fn stderr_is_terminal(rt: &HostRuntime) -> bool {
    rt.stderr().is_terminal()
}

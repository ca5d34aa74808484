use crate::causes::{
    Audience, Words, stderr_is_terminal, tell_store, tell_store_cause, tell_unread,
    tell_unread_cause, tell_with, tell_words,
};
use crate::closing::close;
use crate::explain::explain;
use crate::history::{archives, may_be_made, tell_open, tell_open_cause};
use crate::init::init;
use crate::leaving::{end_account, end_serving, give_up};
use crate::links::followed;
use crate::long_work::{Watched, Work, WorkWatch, tell_long};
use crate::request_log::RequestLog;
use crate::watch::DeliveryWatch;
use office_archive_files::InUnknownFiles;
use office_command_line::{CommandFault, REPORT_KINDS, Request, read_command};
use office_commands::{
    COMMAND_LINE, DONE, FAILED, MigrationFault, Service, account_over, deliver_over, demonstrate,
    leave_office, leave_whole, migrate_over, open_there, print, report_over, serve_over, tell,
    tell_fault, texts_over,
};
use office_desk::load_beside;
use office_http::Site;
use office_loading::Closed;
use office_replies::Port;
use office_reports::{ReportKind, View};
use office_tables::TableFault;
use sqlite::Unknown;
use std::fs::File;
use std::io::{Read, Write};

/// Runs the program on its words, of which the first is its name, and answers its exit status: 0 if all was done, 1
/// if something was refused or is not found, 2 for another command line, and 3 if a store, a file or a socket
/// failed. The worst of them counts.
pub(crate) fn run<R: Read, W: Write, E: Write>(
    rt: &HostRuntime,
    words: &[&str],
    reader: &mut Port<R>,
    writer: &mut Port<W>,
    errors: &mut Port<E>,
) -> u8 {
    let request = match read_command(rt.alloc(), words) {
        Ok(request) => request,
        Err(fault) => return refuse(rt, words, &fault, writer, errors),
    };
    match request {
        Request::Init {
            store,
            partners,
            blocks,
        } => init(rt, store, partners, blocks, writer, errors),
        Request::Deliver { store, file } => deliver(rt, store, file, reader, writer, errors),
        Request::Serve {
            store,
            port,
            count,
            log,
            ahead,
            host,
        } => match Site::new(rt.alloc(), host) {
            Ok(site) => {
                let service = Service {
                    port,
                    count,
                    ahead,
                    site: &site,
                };
                serve(rt, store, service, log, writer, errors)
            }
            Err(_) => tell_fault(errors, &TableFault::Memory),
        },
        Request::Report {
            store,
            kind,
            view,
            key,
        } => report(rt, store, kind, view, key, writer, errors),
        Request::Archives { store } => archives(rt, store, writer, errors),
        Request::Texts { store, from } => texts(rt, store, from, writer, errors),
        Request::Account { store, code, kind } => account(rt, store, code, kind, writer, errors),
        Request::Migrate { old, new } => migrate(rt, old, new, writer, errors),
        Request::Close { store, archive } => close(rt, store, archive, writer, errors),
        Request::Explain { file, partners } => {
            explain(rt, file, partners, reader, writer, errors)
        }
        Request::Demo => demonstrate(rt.alloc(), reader, writer, errors),
    }
}

/// Help and version that were asked for are results; else the command line is at fault. A person is also shown
/// what the values of a command may be.
fn refuse<W: Write, E: Write>(
    rt: &HostRuntime,
    words: &[&str],
    fault: &CommandFault,
    writer: &mut Port<W>,
    errors: &mut Port<E>,
) -> u8 {
    let Ok(text) = fault.to_string(rt.alloc()) else {
        return tell_with(errors, "store: Memory\n", FAILED);
    };
    match fault {
        CommandFault::Memory => tell_with(errors, text.as_str(), FAILED),
        _ if fault.is_asked() => print(writer, text.as_str(), DONE),
        _ => {
            let status = tell_with(errors, text.as_str(), COMMAND_LINE);
            if let CommandFault::Values(_) = fault {
                tell_values(rt, words, errors);
            }
            status
        }
    }
}

/// Shows a person what the values of a command may be, after its usage text.
fn tell_values<E: Write>(rt: &HostRuntime, words: &[&str], errors: &mut Port<E>) {
    if !stderr_is_terminal(rt) {
        return;
    }
    match words.get(1) {
        Some(command) if *command == "report" => {
            tell(errors, "KIND is ");
            tell(errors, REPORT_KINDS);
            tell(errors, "; KEY is required from `container` on\n");
        }
        Some(command) if *command == "serve" => tell(
            errors,
            "PORT is 1 to 65535, COUNT 1 to 1000000, N 1 to 999999999\n",
        ),
        _ => {}
    }
}

/// `deliver DB FILE`: delivers the interchanges of a file, and prints an answer a line. `-` is the standard input.
pub(crate) fn deliver<R: Read, W: Write, E: Write>(
    rt: &HostRuntime,
    store: &str,
    file: &str,
    reader: &mut Port<R>,
    writer: &mut Port<W>,
    errors: &mut Port<E>,
) -> u8 {
    if file == "-" {
        return deliver_all(rt, store, file, reader, writer, errors);
    }
    match File::open(rt, file) {
        Ok(opened) => deliver_all(rt, store, file, &mut Port::new(opened), writer, errors),
        Err(_) => tell_unread(rt, errors, file),
    }
}

/// Delivers what a reader gives. A person is shown more than a program: what the watch shows, and the cause of a fault.
fn deliver_all<R: Read, W: Write, E: Write>(
    rt: &HostRuntime,
    store: &str,
    file: &str,
    reader: &mut Port<R>,
    writer: &mut Port<W>,
    errors: &mut Port<E>,
) -> u8 {
    let Ok(store) = followed(rt, store) else {
        return tell_fault(errors, &TableFault::Memory);
    };
    let store = store.as_str();
    tell_long(rt, errors, Work::OPENING, store);
    let watch = DeliveryWatch::new(rt, stderr_is_terminal(rt), store);
    let beside = InUnknownFiles::new(rt);
    let (status, ended) = deliver_over(rt, store, Unknown, &beside, &watch, reader, writer, errors);
    match ended {
        Ok(office) => {
            give_up(leave_office(office));
        }
        Err(fault) => tell_open_cause(Audience::of(rt), errors, store, &fault),
    }
    if watch.is_unread() {
        tell_unread_cause(rt, errors, file);
    }
    status
}

/// `account DB CODE KIND`: adds an account, and prints the answer.
pub(crate) fn account<W: Write, E: Write>(
    rt: &HostRuntime,
    store: &str,
    code: &str,
    kind: &str,
    writer: &mut Port<W>,
    errors: &mut Port<E>,
) -> u8 {
    let Ok(store) = followed(rt, store) else {
        return tell_fault(errors, &TableFault::Memory);
    };
    let store = store.as_str();
    tell_long(rt, errors, Work::OPENING, store);
    let beside = InUnknownFiles::new(rt);
    match account_over(rt, store, Unknown, &beside, code, kind, writer) {
        Ok(ended) => end_account(rt, errors, store, ended),
        Err(fault) => tell_open(Audience::of(rt), errors, store, &fault),
    }
}

/// `report DB KIND [KEY] [--json] [--csv]`: prints a report, shown so, or `none` if there is nothing to report.
pub(crate) fn report<W: Write, E: Write>(
    rt: &HostRuntime,
    store: &str,
    kind: ReportKind,
    view: View,
    key: Option<&str>,
    writer: &mut Port<W>,
    errors: &mut Port<E>,
) -> u8 {
    let key = key.unwrap_or("");
    let Ok(store) = followed(rt, store) else {
        return tell_fault(errors, &TableFault::Memory);
    };
    let store = store.as_str();
    tell_long(rt, errors, Work::OPENING, store);
    let beside = InUnknownFiles::new(rt);
    match report_over(rt, store, Unknown, &beside, kind, view, key, writer) {
        Ok(ended) => tell_reported(rt, errors, store, ended),
        Err(fault) => tell_open(Audience::of(rt), errors, store, &fault),
    }
}

/// Reports why a report could not be made, if it could not, and answers the status. The office is given up.
fn tell_reported<E: Write, D: Drop>(
    rt: &HostRuntime,
    errors: &mut Port<E>,
    store: &str,
    ended: (D, Result<u8, TableFault>),
) -> u8 {
    let (_office, told) = ended;
    match told {
        Ok(status) => status,
        Err(fault) => tell_store(Audience::of(rt), errors, store, &fault),
    }
}

/// `texts DB [FROM]`: prints the texts that are kept after the first FROM, in the order in which they came, those of its
/// archives first, or `none` if there are fewer.
pub(crate) fn texts<W: Write, E: Write>(
    rt: &HostRuntime,
    store: &str,
    from: u32,
    writer: &mut Port<W>,
    errors: &mut Port<E>,
) -> u8 {
    let Ok(store) = followed(rt, store) else {
        return tell_fault(errors, &TableFault::Memory);
    };
    let store = store.as_str();
    tell_long(rt, errors, Work::OPENING, store);
    let mut watched = Port::new(Watched::texts(rt, writer));
    let beside = InUnknownFiles::new(rt);
    let status = match texts_over(rt, store, Unknown, &beside, from, &mut watched) {
        Ok(ended) => tell_reported(rt, errors, store, ended),
        Err(fault) => tell_open(Audience::of(rt), errors, store, &fault),
    };
    watched.into_inner().end();
    status
}

/// `migrate OLD NEW`: makes a store of this version with what an older one keeps. What is wrong with OLD is reported before
/// NEW is touched.
pub(crate) fn migrate<W: Write, E: Write>(
    rt: &HostRuntime,
    old: &str,
    new: &str,
    writer: &mut Port<W>,
    errors: &mut Port<E>,
) -> u8 {
    let (Ok(old), Ok(new)) = (followed(rt, old), followed(rt, new)) else {
        return tell_fault(errors, &TableFault::Memory);
    };
    let (old, new) = (old.as_str(), new.as_str());
    if !may_be_made(rt, new, errors) {
        return FAILED;
    }
    tell_long(rt, errors, Work::MIGRATING, old);
    let watch = WorkWatch::new(rt);
    let migrated = migrate_over(rt, &watch, (old, Unknown), (new, Unknown), writer);
    watch.end();
    match migrated {
        Ok(ended) => match ended.outcome {
            Ok(status) => {
                give_up(leave_whole(ended.new));
                status
            }
            Err(fault) => tell_store(Audience::of(rt), errors, new, &fault),
        },
        Err(MigrationFault::Old(fault)) => tell_old(Audience::of(rt), errors, old, &fault),
        Err(MigrationFault::New(fault)) => tell_store(Audience::of(rt), errors, new, &fault),
    }
}

/// Reports why an older store was not brought over; to a person also that it is of this version, if it is.
fn tell_old<E: Write>(to: Audience<'_>, errors: &mut Port<E>, old: &str, fault: &TableFault) -> u8 {
    let status = tell_fault(errors, fault);
    match fault {
        TableFault::Version if to.wants_causes() && is_newest(to.rt(), old) => {
            tell_words(to, errors, old, Words::IS_NEWEST);
        }
        _ => tell_store_cause(to, errors, old, fault),
    }
    status
}

/// Whether the rows of a store are of this version. Beside archives they are not whole by themselves.
fn is_newest(rt: &HostRuntime, path: &str) -> bool {
    let Ok(mut conn) = open_there(rt, path, Unknown) else {
        return false;
    };
    let closed = Closed::nothing(rt.alloc());
    matches!(
        load_beside(rt.alloc(), &mut conn, &closed),
        Ok(_) | Err(TableFault::Damaged)
    )
}

/// `serve DB PORT COUNT [--log] [--ahead N] [--host NAME]`: serves that many connections at a port of this machine, which wait side by side. It
/// writes a line for each to the standard error if that is a terminal, or if a log is wanted.
pub(crate) fn serve<W: Write, E: Write>(
    rt: &HostRuntime,
    store: &str,
    service: Service<'_>,
    log: bool,
    writer: &mut Port<W>,
    errors: &mut Port<E>,
) -> u8 {
    let Ok(store) = followed(rt, store) else {
        return tell_fault(errors, &TableFault::Memory);
    };
    let store = store.as_str();
    let to = Audience::of_log(rt, log);
    let log = RequestLog::new(rt, to.wants_causes(), store);
    tell_long(rt, errors, Work::OPENING, store);
    let beside = InUnknownFiles::new(rt);
    match serve_over(rt, store, Unknown, &beside, service, &log, writer, errors) {
        Ok(ended) => end_serving(ended),
        Err(fault) => tell_open(to, errors, store, &fault),
    }
}

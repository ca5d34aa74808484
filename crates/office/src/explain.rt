use crate::causes::{tell_unread, tell_with};
use crate::init::refuse;
use office_commands::{DONE, FAILED, REFUSED, print};
use office_explain::{ONE_BLOCK, Partners, explain_file};
use office_replies::Port;
use std::alloc::Global;
use std::fs;
use std::io::{Read, Write};

/// `explain FILE [--partners PARTNERS]`: prints what is wrong with the interchanges of a file, and where. `-` is the
/// standard input. Answers 1 if an interchange is refused or a message or a line of it, and 0 if none is.
pub(crate) fn explain<R: Read, W: Write, E: Write>(
    rt: &HostRuntime,
    file: &str,
    partners: Option<&str>,
    reader: &mut Port<R>,
    writer: &mut Port<W>,
    errors: &mut Port<E>,
) -> u8 {
    let Some(bytes) = bytes_in(rt, file, reader) else {
        return tell_unread(rt, errors, file);
    };
    let Some(path) = partners else {
        return match Partners::unknown(rt.alloc()) {
            Ok(unknown) => explain_all(rt.alloc(), &unknown, &bytes, writer, errors),
            Err(_) => tell_with(errors, "setup: Memory\n", REFUSED),
        };
    };
    match fs::read(rt, path) {
        Ok(given) => explain_by(rt, path, &given, &bytes, writer, errors),
        Err(_) => tell_unread(rt, errors, path),
    }
}

/// Prints what is wrong with the interchanges of a file, by a file of partners, which comes with its path.
fn explain_by<W: Write, E: Write>(
    rt: &HostRuntime,
    path: &str,
    given: &[u8],
    file: &[u8],
    writer: &mut Port<W>,
    errors: &mut Port<E>,
) -> u8 {
    match Partners::read(rt.alloc(), given) {
        Ok(partners) => explain_all(rt.alloc(), &partners, file, writer, errors),
        Err(fault) => refuse(
            rt,
            fault,
            (path, given),
            (path, ONE_BLOCK.as_bytes()),
            errors,
        ),
    }
}

/// The bytes of a file, or of the standard input. `None`: they can't be read.
fn bytes_in<R: Read>(rt: &HostRuntime, file: &str, reader: &mut Port<R>) -> Option<Vec<u8>> {
    if file != "-" {
        return fs::read(rt, file).ok();
    }
    let mut bytes = Vec::new(rt.alloc());
    match reader.read_to_end(&mut bytes) {
        Ok(_) => Some(bytes),
        Err(_) => None,
    }
}

/// Prints what is found of the interchanges of a file, and answers the status that goes with the worst.
fn explain_all<W: Write, E: Write>(
    alloc: Global,
    partners: &Partners,
    file: &[u8],
    writer: &mut Port<W>,
    errors: &mut Port<E>,
) -> u8 {
    match explain_file(alloc, partners, file) {
        Ok(explanation) => {
            let status = if explanation.is_faultless {
                DONE
            } else {
                REFUSED
            };
            print(writer, explanation.text.as_str(), status)
        }
        Err(_) => tell_with(errors, "store: Memory\n", FAILED),
    }
}

ghost use Rattle.std.specs.{Option.option_map, Prelude.{◌≡◌, IfOk, IfErr, map}};
ghost use Rattle.clap.specs.Words.{found_of, rows_of, subcommand_rows_of, first_of};
ghost use Rattle.office_command_line.specs.Requests.{request_content, init_request, account_request, migrate_request, close_request, explain_asked, deliver_request, serve_request, texts_asked, from_said, request_by, request_met, is_set, usage_line, RefusesWords, RefusesMet, WordsAsk, fault_told, number_if_any, number_upto};

use crate::builders::office_command;
use crate::report_reading::report_in;
use clap::error::ErrorKind;
use clap::{ArgMatches, Error};
use office_reports::{ReportKind, View, number_of, passed_of};
use std::alloc::Global;
use std::fmt;

/// Why a command line asks for nothing that the program does. `Display` gives what to print, in whole lines.
#[derive(Debug, Drop)]
pub enum CommandFault {
    /// The words aren't those of a command, or ask for help or for the version.
    Words(Error),
    /// A value is outside its limits, or a key is missing or not wanted: the usage line of the command.
    Values(&'static str),
    /// Memory was refused.
    Memory,
}

impl CommandFault {
    ghost use Rattle.std.specs.Prelude.{◌≡◌};
    ghost use Rattle.office_command_line.specs.Requests.{is_asked};

    /// Whether the text was asked for, as help or as the version: then it is a result and no fault.
    pub fn is_asked(&self) -> bool
        ensures { result ≡ is_asked self.now }
    {
        match self {
            CommandFault::Words(error) => matches!(
                error.kind(),
                ErrorKind::DisplayHelp | ErrorKind::DisplayVersion
            ),
            CommandFault::Values(_) => false,
            CommandFault::Memory => false,
        }
    }
}

impl fmt::Display for CommandFault {
    ghost use Rattle.office_command_line.specs.Requests.{fault_text};

    ghost output = { fault_text };

    fn fmt<W: fmt::Write>(&self, f: &mut fmt::Formatter<W>) -> fmt::Result {
        match self {
            CommandFault::Words(error) => error.fmt(f),
            CommandFault::Values(line) => f.write_str(line),
            CommandFault::Memory => f.write_str("store: Memory\n"),
        }
    }
}

impl std::error::Error for CommandFault {}

/// What a command line asks for.
#[derive(Clone, Copy)]
pub enum Request<'a> {
    /// To make the tables of a store by the set-up that two files say.
    Init {
        /// The store's path.
        store: &'a str,
        /// The path of the file of partners.
        partners: &'a str,
        /// The path of the file of blocks.
        blocks: &'a str,
    },
    /// To deliver the interchanges of a file.
    Deliver {
        /// The store's path.
        store: &'a str,
        /// The path of the file.
        file: &'a str,
    },
    /// To serve that many connections at a port of this machine.
    Serve {
        /// The store's path.
        store: &'a str,
        /// The port, from 1.
        port: u16,
        /// How many connections, from 1 to 1,000,000.
        count: u32,
        /// Whether a line is written for each request, also if nobody looks on.
        log: bool,
        /// How far above its next number a partner's may be, from 1 to 999,999,999; none for no bound.
        ahead: Option<u32>,
        /// The host whose requests are taken beside this machine's own; none for no other.
        host: Option<&'a str>,
    },
    /// To report on the store.
    Report {
        /// The store's path.
        store: &'a str,
        /// What the report is about.
        kind: ReportKind,
        /// As what it is printed.
        view: View,
        /// Which container, list, interchange or partner it is about; none for a report on the whole yard, on all partners
        /// or on the office.
        key: Option<&'a str>,
    },
    /// To report which archives hold the store's history.
    Archives {
        /// The store's path.
        store: &'a str,
    },
    /// To print the texts that are kept, in the order in which they came.
    Texts {
        /// The store's path.
        store: &'a str,
        /// How many texts to pass over, up to 999,999,999.
        from: u32,
    },
    /// To add an account to a store.
    Account {
        /// The store's path.
        store: &'a str,
        /// The partner's code, of any form.
        code: &'a str,
        /// The name of a kind, if it is one.
        kind: &'a str,
    },
    /// To bring what a store of an older version keeps into a new store.
    Migrate {
        /// The path of the store that is there.
        old: &'a str,
        /// The path of the store to make.
        new: &'a str,
    },
    /// To put a store's history away in an archive.
    Close {
        /// The store's path.
        store: &'a str,
        /// The path of the archive, a copy of the store; none if the copy is still to be made.
        archive: Option<&'a str>,
    },
    /// To say what is wrong with the interchanges of a file.
    Explain {
        /// The path of the file.
        file: &'a str,
        /// The path of the file of partners, if it is given.
        partners: Option<&'a str>,
    },
    /// To deliver the interchanges of the standard input over tables in memory.
    Demo,
}

/// What the words of a command line ask for, of which the first is the program's name.
pub fn read_command<'a>(alloc: Global, words: &'a [&'a str]) -> Result<Request<'a>, CommandFault>
    ensures ok { IfOk result (λ request. WordsAsk (map (λ word. word.now) words.entry.now) (request_content request)) }
    ensures err { IfErr result (RefusesWords (map (λ word. word.now) words.entry.now)) }
{
    let Ok(office) = office_command(alloc) else {
        return Err(CommandFault::Memory);
    };
    match office.try_get_matches_from(words) {
        Ok(matches) => request_in(&matches),
        Err(error) => Err(fault_in(error)),
    }
}

/// Why `clap` gives no matches.
fn fault_in(error: Error) -> CommandFault
    ensures { result ≡ fault_told error }
{
    match error.kind() {
        ErrorKind::OutOfMemory => CommandFault::Memory,
        _ => CommandFault::Words(error),
    }
}

/// What the matches ask for.
fn request_in<'a>(matches: &ArgMatches<'a>) -> Result<Request<'a>, CommandFault>
    ensures ok { IfOk result (λ request. request_met (subcommand_rows_of matches.now) ≡ Some (request_content request)) }
    ensures err { IfErr result (RefusesMet (subcommand_rows_of matches.now)) }
{
    let Some((name, inner)) = matches.subcommand() else {
        return Err(CommandFault::Values(usage_of("")));
    };
    match request_by(name, inner) {
        Some(request) => Ok(request),
        None => Err(CommandFault::Values(usage_of(name))),
    }
}

/// How a command is called.
fn usage_of(name: &str) -> &'static str
    ensures { result.now ≡ usage_line name.now }
{
    match name {
        "serve" => "usage: office serve DB PORT COUNT\n",
        "report" => "usage: office report DB KIND [KEY]\n",
        "texts" => "usage: office texts DB [FROM]\n",
        _ => "usage: office COMMAND\n",
    }
}

fn request_by<'a>(name: &str, inner: &ArgMatches<'a>) -> Option<Request<'a>>
    ensures { option_map request_content result ≡ request_by name.now (rows_of (found_of inner.now)) }
{
    match name {
        "init" => init_in(inner),
        "deliver" => deliver_in(inner),
        "serve" => serve_in(inner),
        "report" => report_in(inner),
        "texts" => texts_in(inner),
        "account" => account_in(inner),
        "migrate" => migrate_in(inner),
        "close" => close_in(inner),
        "explain" => explain_in(inner),
        "demo" => Some(Request::Demo),
        _ => None,
    }
}

fn init_in<'a>(matches: &ArgMatches<'a>) -> Option<Request<'a>>
    ensures { option_map request_content result ≡ init_request (rows_of (found_of matches.now)) }
{
    let store = text_of(matches, "DB")?;
    let partners = text_of(matches, "PARTNERS")?;
    let blocks = text_of(matches, "BLOCKS")?;
    Some(Request::Init {
        store,
        partners,
        blocks,
    })
}

fn deliver_in<'a>(matches: &ArgMatches<'a>) -> Option<Request<'a>>
    ensures { option_map request_content result ≡ deliver_request (rows_of (found_of matches.now)) }
{
    let store = text_of(matches, "DB")?;
    let file = text_of(matches, "FILE")?;
    Some(Request::Deliver { store, file })
}

fn serve_in<'a>(matches: &ArgMatches<'a>) -> Option<Request<'a>>
    ensures { option_map request_content result ≡ serve_request (rows_of (found_of matches.now)) }
{
    let store = text_of(matches, "DB")?;
    let port = number_upto(65535, text_of(matches, "PORT")?)?;
    let count = number_upto(1_000_000, text_of(matches, "COUNT")?)?;
    let ahead = number_if_any(999_999_999, text_of(matches, "ahead"))?;
    let host = text_of(matches, "host");
    Some(Request::Serve {
        store,
        port: port as u16,
        count,
        log: is_set(matches, "log"),
        ahead,
        host,
    })
}

fn texts_in<'a>(matches: &ArgMatches<'a>) -> Option<Request<'a>>
    ensures { option_map request_content result ≡ texts_asked (rows_of (found_of matches.now)) }
{
    let store = text_of(matches, "DB")?;
    let from = from_said(text_of(matches, "FROM"))?;
    Some(Request::Texts { store, from })
}

fn account_in<'a>(matches: &ArgMatches<'a>) -> Option<Request<'a>>
    ensures { option_map request_content result ≡ account_request (rows_of (found_of matches.now)) }
{
    let store = text_of(matches, "DB")?;
    let code = text_of(matches, "CODE")?;
    let kind = text_of(matches, "KIND")?;
    Some(Request::Account { store, code, kind })
}

fn migrate_in<'a>(matches: &ArgMatches<'a>) -> Option<Request<'a>>
    ensures { option_map request_content result ≡ migrate_request (rows_of (found_of matches.now)) }
{
    let old = text_of(matches, "OLD")?;
    let new = text_of(matches, "NEW")?;
    Some(Request::Migrate { old, new })
}

fn close_in<'a>(matches: &ArgMatches<'a>) -> Option<Request<'a>>
    ensures { option_map request_content result ≡ close_request (rows_of (found_of matches.now)) }
{
    let store = text_of(matches, "DB")?;
    let archive = text_of(matches, "ARCHIVE");
    Some(Request::Close { store, archive })
}

fn explain_in<'a>(matches: &ArgMatches<'a>) -> Option<Request<'a>>
    ensures { option_map request_content result ≡ explain_asked (rows_of (found_of matches.now)) }
{
    let file = text_of(matches, "FILE")?;
    let partners = text_of(matches, "partners");
    Some(Request::Explain { file, partners })
}

/// Whether an option without a value is there: `clap` gives it one of two values.
pub(crate) fn is_set(matches: &ArgMatches<'_>, name: &str) -> bool
    ensures { result ≡ is_set name.now (rows_of (found_of matches.now)) }
{
    match text_of(matches, name) {
        Some(text) => text == "true",
        None => false,
    }
}

/// The word that was given for an argument.
pub(crate) fn text_of<'a>(matches: &ArgMatches<'a>, id: &str) -> Option<&'a str>
    ensures { option_map (λ text. text.now) result ≡ first_of id.now (rows_of (found_of matches.now)) }
{
    matches.get_str(id)
}

/// How many texts to pass over: 1 to 9 digits without a leading zero; 0 if nothing is said.
fn from_said(text: Option<&str>) -> Option<u32>
    ensures { result ≡ from_said (option_map (λ text. text.now) text.entry) }
{
    match text {
        None => Some(0),
        Some(text) => passed_of(text),
    }
}

/// The number that 1 to 9 digits write, if it is from 1 to the greatest.
pub(crate) fn number_upto(greatest: u32, text: &str) -> Option<u32>
    ensures { result ≡ number_upto greatest text.now }
{
    let number = number_of(text.as_bytes(), 9)?;
    if 1 <= number && number <= u64::from(greatest) {
        Some(number as u32)
    } else {
        None
    }
}

/// The same of a text that may be left out.
pub(crate) fn number_if_any(greatest: u32, text: Option<&str>) -> Option<Option<u32>>
    ensures { result ≡ number_if_any greatest (option_map (λ text. text.now) text.entry) }
{
    match text {
        Some(text) => Some(Some(number_upto(greatest, text)?)),
        None => Some(None),
    }
}

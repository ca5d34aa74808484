ghost use Rattle.std.specs.Prelude.{◌≡◌, IfOk, true, false};
ghost use Rattle.clap.specs.{Words.{app_of, rule_of}, declared.builder.command.Command.TheViews.out-Command};
ghost use Rattle.office_command_line.specs.Commands.{word, word_if_any, flag, valued_option, init_app, deliver_app, serve_app, report_app, texts_app, account_app, migrate_app, close_app, explain_app, demo_app, office_app, with_daily_work, with_upkeep};

use clap::{Arg, ArgAction, Command};
use office_reports::program_version;
use std::alloc::{AllocError, Global};

/// The kinds of reports. Those from `container` on want a key.
pub const REPORT_KINDS: &str =
    "yard, yardcsv, picture, blocks, calls, partners, health, metrics, archives, container, visits, list, work, ticket, reply, contrl or partner";

/// `init DB PARTNERS BLOCKS`
pub(crate) fn init_command<'a>(alloc: Global) -> Result<Command<'a>, AllocError>
    ensures app { IfOk result (λ command. app_of command ≡ init_app) }
    ensures local { IfOk result (λ command. (out-Command command).has_globals ≡ false) }
{
    let store = word(alloc, "DB", "The store to create");
    let partners = word(
        alloc,
        "PARTNERS",
        "The file of the terminal and its partners",
    );
    let blocks = word(alloc, "BLOCKS", "The file of the yard's blocks");
    let init = Command::new(alloc, "init")
        .about("Create a store from set-up files")
        .after_help("Example: office init office.db partners.csv blocks.csv")
        .arg(store)?
        .arg(partners)?
        .arg(blocks)?;
    Ok(init)
}

/// `deliver DB FILE`
pub(crate) fn deliver_command<'a>(alloc: Global) -> Result<Command<'a>, AllocError>
    ensures app { IfOk result (λ command. app_of command ≡ deliver_app) }
    ensures local { IfOk result (λ command. (out-Command command).has_globals ≡ false) }
{
    let store = word(alloc, "DB", "The store");
    let file = word(
        alloc,
        "FILE",
        "The file of interchanges, - for standard input",
    );
    let deliver = Command::new(alloc, "deliver")
        .about("Deliver a file's interchanges and print one answer per line")
        .after_help("Example: office deliver office.db gate-in.edi")
        .arg(store)?
        .arg(file)?;
    Ok(deliver)
}

/// `serve DB PORT COUNT [--log] [--ahead N] [--host NAME]`
pub(crate) fn serve_command<'a>(alloc: Global) -> Result<Command<'a>, AllocError>
    ensures app { IfOk result (λ command. app_of command ≡ serve_app) }
    ensures local { IfOk result (λ command. (out-Command command).has_globals ≡ false) }
{
    let store = word(alloc, "DB", "The store");
    let port = word(alloc, "PORT", "A port of this machine, from 1 to 65535");
    let count = word(
        alloc,
        "COUNT",
        "How many connections to serve, from 1 to 1000000",
    );
    let log = flag(
        alloc,
        "log",
        "Write a line for each request to standard error, even if that is no terminal",
    );
    let ahead = valued(
        alloc,
        "ahead",
        "N",
        "On a partner's own path, refuse numbers more than N above its next one",
    );
    let host = valued(
        alloc,
        "host",
        "NAME",
        "Take requests to this host too, as a gateway passes them on; without it only to this machine",
    );
    let serve = Command::new(alloc, "serve")
        .about("Serve requests over HTTP, one for each connection")
        .after_help("Example: office serve office.db 8080 1000")
        .arg(store)?
        .arg(port)?
        .arg(count)?
        .arg(log)?
        .arg(ahead)?
        .arg(host)?;
    Ok(serve)
}

/// `report DB KIND [KEY] [--json] [--csv]`
pub(crate) fn report_command<'a>(alloc: Global) -> Result<Command<'a>, AllocError>
    ensures app { IfOk result (λ command. app_of command ≡ report_app) }
    ensures local { IfOk result (λ command. (out-Command command).has_globals ≡ false) }
{
    let store = word(alloc, "DB", "The store");
    let kind = word(alloc, "KIND", REPORT_KINDS);
    let key = word_if_any(
        alloc,
        "KEY",
        "BOX, VESSEL/VOYAGE/SIDE, PARTNER/NUMBER or PARTNER",
    );
    let json = flag(alloc, "json", "Print the report as JSON");
    let csv = flag(alloc, "csv", "Print the report as CSV, if it is a list");
    let report = Command::new(alloc, "report")
        .about("Print a report; KEY is required from `container` on")
        .after_help("Example: office report office.db visits ABCU0000017")
        .arg(store)?
        .arg(kind)?
        .arg(key)?
        .arg(json)?
        .arg(csv)?;
    Ok(report)
}

/// `texts DB [FROM]`
pub(crate) fn texts_command<'a>(alloc: Global) -> Result<Command<'a>, AllocError>
    ensures app { IfOk result (λ command. app_of command ≡ texts_app) }
    ensures local { IfOk result (λ command. (out-Command command).has_globals ≡ false) }
{
    let store = word(alloc, "DB", "The store");
    let from = word_if_any(
        alloc,
        "FROM",
        "How many texts to skip, from 0 to 999999999; by default 0",
    );
    let texts = Command::new(alloc, "texts")
        .about("Print the kept texts in the order of arrival")
        .after_help("Example: office texts office.db 8000")
        .arg(store)?
        .arg(from)?;
    Ok(texts)
}

/// `account DB CODE KIND`
pub(crate) fn account_command<'a>(alloc: Global) -> Result<Command<'a>, AllocError>
    ensures app { IfOk result (λ command. app_of command ≡ account_app) }
    ensures local { IfOk result (λ command. (out-Command command).has_globals ≡ false) }
{
    let store = word(alloc, "DB", "The store");
    let code = word(
        alloc,
        "CODE",
        "The partner's code: 1 to 35 letters, digits, hyphens, dots and underscores",
    );
    let kind = word(alloc, "KIND", "gate, line, quay or yard");
    let account = Command::new(alloc, "account")
        .about("Add an account for a partner, and print the answer")
        .after_help("Example: office account office.db HAULC gate")
        .arg(store)?
        .arg(code)?
        .arg(kind)?;
    Ok(account)
}

/// `migrate OLD NEW`
pub(crate) fn migrate_command<'a>(alloc: Global) -> Result<Command<'a>, AllocError>
    ensures app { IfOk result (λ command. app_of command ≡ migrate_app) }
    ensures local { IfOk result (λ command. (out-Command command).has_globals ≡ false) }
{
    let old = word(alloc, "OLD", "The older store, which is not changed");
    let new = word(alloc, "NEW", "The store to create");
    let migrate = Command::new(alloc, "migrate")
        .about("Copy an older store into a new one")
        .after_help("Example: office migrate office.db new.db")
        .arg(old)?
        .arg(new)?;
    Ok(migrate)
}

/// `close DB [ARCHIVE]`
pub(crate) fn close_command<'a>(alloc: Global) -> Result<Command<'a>, AllocError>
    ensures app { IfOk result (λ command. app_of command ≡ close_app) }
    ensures local { IfOk result (λ command. (out-Command command).has_globals ≡ false) }
{
    let store = word(alloc, "DB", "The store");
    let archive = word_if_any(
        alloc,
        "ARCHIVE",
        "A copy of the store, in the same folder, which keeps what is deleted; by default one is made",
    );
    let close = Command::new(alloc, "close")
        .about("Put history away: delete from a store what a copy of it keeps")
        .after_help("Example: office close office.db")
        .arg(store)?
        .arg(archive)?;
    Ok(close)
}

/// `explain FILE [--partners PARTNERS]`
pub(crate) fn explain_command<'a>(alloc: Global) -> Result<Command<'a>, AllocError>
    ensures app { IfOk result (λ command. app_of command ≡ explain_app) }
    ensures local { IfOk result (λ command. (out-Command command).has_globals ≡ false) }
{
    let file = word(
        alloc,
        "FILE",
        "The file of interchanges, - for standard input",
    );
    let partners = valued(
        alloc,
        "partners",
        "PARTNERS",
        "The file of the terminal and its partners; without it each sender has an account",
    );
    let explain = Command::new(alloc, "explain")
        .about("Show what is wrong with a file's interchanges, and where; deliver nothing")
        .after_help("Example: office explain gate-in.edi --partners partners.csv")
        .arg(file)?
        .arg(partners)?;
    Ok(explain)
}

/// `demo`
pub(crate) fn demo_command<'a>(alloc: Global) -> Command<'a>
    ensures app { app_of result ≡ demo_app }
    ensures local { (out-Command result).has_globals ≡ false }
{
    Command::new(alloc, "demo")
        .about("Deliver the interchanges of standard input to a terminal in memory")
        .after_help("Example: office demo < gate-in.edi")
}

/// A word that has to be there.
fn word<'a>(alloc: Global, id: &'a str, help: &'a str) -> Arg<'a>
    ensures rule { rule_of result ≡ word id.entry.now }
    ensures local { result.global ≡ false }
{
    Arg::new(alloc, id)
        .required(true)
        .action(ArgAction::Set)
        .help(help)
}

/// A word that may be left out.
fn word_if_any<'a>(alloc: Global, id: &'a str, help: &'a str) -> Arg<'a>
    ensures rule { rule_of result ≡ word_if_any id.entry.now }
    ensures local { result.global ≡ false }
{
    Arg::new(alloc, id).action(ArgAction::Set).help(help)
}

/// An option with a value, which may be left out.
fn valued<'a>(alloc: Global, name: &'a str, value: &'a str, help: &'a str) -> Arg<'a>
    ensures rule { rule_of result ≡ valued_option name.entry.now }
    ensures local { result.global ≡ false }
{
    Arg::new(alloc, name)
        .long(name)
        .action(ArgAction::Set)
        .value_name(value)
        .help(help)
}

/// An option without a value.
fn flag<'a>(alloc: Global, name: &'a str, help: &'a str) -> Arg<'a>
    ensures rule { rule_of result ≡ flag name.entry.now }
    ensures local { result.global ≡ false }
{
    Arg::new(alloc, name)
        .long(name)
        .action(ArgAction::SetTrue)
        .help(help)
}

/// The program's command line.
pub(crate) fn office_command<'a>(alloc: Global) -> Result<Command<'a>, AllocError>
    ensures { IfOk result (λ command. app_of command ≡ office_app) }
{
    let office = Command::new(alloc, "office")
        .about("The office system of a container terminal")
        .version(program_version())
        .subcommand_required(true);
    let office = with_daily_work(alloc, office)?;
    with_upkeep(alloc, office)
}

/// With the commands of daily work.
fn with_daily_work<'a>(alloc: Global, office: Command<'a>) -> Result<Command<'a>, AllocError>
    ensures { IfOk result (λ command. app_of command ≡ with_daily_work (app_of office.entry)) }
{
    let init = init_command(alloc)?;
    let office = office.subcommand(init)?;
    let deliver = deliver_command(alloc)?;
    let office = office.subcommand(deliver)?;
    let serve = serve_command(alloc)?;
    let office = office.subcommand(serve)?;
    let report = report_command(alloc)?;
    let office = office.subcommand(report)?;
    let texts = texts_command(alloc)?;
    let office = office.subcommand(texts)?;
    Ok(office)
}

/// With the commands that keep a store up, and those that need none.
fn with_upkeep<'a>(alloc: Global, office: Command<'a>) -> Result<Command<'a>, AllocError>
    ensures { IfOk result (λ command. app_of command ≡ with_upkeep (app_of office.entry)) }
{
    let account = account_command(alloc)?;
    let office = office.subcommand(account)?;
    let migrate = migrate_command(alloc)?;
    let office = office.subcommand(migrate)?;
    let close = close_command(alloc)?;
    let office = office.subcommand(close)?;
    let explain = explain_command(alloc)?;
    let office = office.subcommand(explain)?;
    let demo = demo_command(alloc);
    let office = office.subcommand(demo)?;
    Ok(office)
}

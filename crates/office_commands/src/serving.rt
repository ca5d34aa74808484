ghost use Rattle.std.specs.{Io.KnownBytes.Appends, Prelude.{◌≡◌, IfErr, IfOk, IfSome, None, string_bytes}};
ghost use Rattle.office_commands.specs.{Ending.Tells, Beside.{FromOpened, OpensOn}, Refusing.{IsMarked, IsRefused}, ServingBeside.IsServedOver};
ghost use Rattle.office_commands.specs.Serving.{AreServedBy, EndsServing, ServesNone, listening_line, served_line};
ghost use Rattle.office_http.specs.Served.{AtMost};
ghost use Rattle.sqlite.specs.{Files.over_files, Recovery.Image, WalFiles.image_at};

use crate::beside::ArchivesBeside;
use crate::notes::{Noted, Notes, Watching};
use crate::offices::{FileOffice, OpenFault, open_office};
use crate::opening::{Named, StoreFile};
use crate::telling::{DONE, FAILED, Faults, Tallied, print, tell};
use office_archives::{ArchivedDesk, Archives};
use office_http::{Gate, Site, serve_on};
use office_replies::{AddAccount, Port};
use office_reports::Report;
use sqlite::{Alter, Start};
use std::io::Write;
use std::net::{Ipv4Addr, SocketAddr};

/// Where requests are taken, whose, how many, and how early.
#[derive(Clone, Copy)]
pub struct Service<'a> {
    /// The port of this machine.
    pub port: u16,
    /// How many connections are accepted.
    pub count: u32,
    /// How far above its next number a partner's may be, by the path of that partner; none for no bound.
    pub ahead: Option<u32>,
    /// Whose requests are taken, and where they lead.
    pub site: &'a Site,
}

/// Serves the store at a path, with its archives, over HTTP: one request of each connection, until `count` were accepted. It
/// prints a line as soon as it listens, and one in the end, and answers the exit status and the office as it was left: 0, or
/// 3 if it can't listen, which is reported, or printing failed. A fault is that of `open_office`: then it did not listen,
/// reported nothing and wrote nothing, since there is no desk.
pub fn serve_over<S: Start, A: Archives + Drop, M: ArchivesBeside<A>, N: Notes, W: Write, E: Write>(
    rt: &HostRuntime,
    store: &str,
    start: S,
    beside: &M,
    service: Service<'_>,
    notes: &N,
    writer: &mut Port<W>,
    errors: &mut Port<E>,
) -> Result<(u8, Named<FileOffice<S, A>, StoreFile>), OpenFault>
    // What was printed and noted, and how many calls at most were made for requests. From whatever events the files held what is
    // left of the rows, if the archives hold the rest, each delivery and each account is answered by that office at its place,
    // or `not now`, and what was answered outlasts a crash. And what each call did, whatever the files held.
    ensures ok { IfOk result (λ ended. FromOpened over_files M.hold A.are (image_at S.Start) (λ opened.
        EndsServing service.entry.port service.entry.count writer.old writer.new
        (W.contents writer.old.inner) (W.contents writer.new.inner)
        (Tells errors.new.failed (E.contents errors.old.inner) (E.contents errors.new.inner))
        (λ most. IsServedOver over_files A.is_sound A.are (image_at S.Start) most opened
        (ended.1.desk.desk, ended.1.desk.archives)) ended.0)) }
    ensures refused { IfErr result (λ fault. IsRefused ⟦<sqlite::FileStore<sqlite::FileFrom<S>> as sqlite_trees::store::Store>⟧ (image_at S.Start) IsMarked fault
        × (writer.new ≡ writer.old) × (errors.new ≡ errors.old)) }
{
    let office = open_office(rt, store, start, beside)?;
    Ok(serve_desk(rt, store, office, service, notes, writer, errors))
}

/// Serves what a desk over the store at a path answers, whatever desk it is, and gives it back as it was left.
pub fn serve_named<D: Report + AddAccount + Faults + Tallied, N: Notes, W: Write, E: Write>(
    rt: &HostRuntime,
    path: &str,
    desk: D,
    service: Service<'_>,
    notes: &N,
    writer: &mut Port<W>,
    errors: &mut Port<E>,
) -> (u8, Named<D, StoreFile>)
    ensures { EndsServing service.entry.port service.entry.count writer.old writer.new
        (W.contents writer.old.inner) (W.contents writer.new.inner)
        (Tells errors.new.failed (E.contents errors.old.inner) (E.contents errors.new.inner))
        (λ most. AreServedBy D.leads D.enrols D.looks most desk result.1.desk) result.0 }
{
    let named = Named::new(desk, StoreFile::open(rt, path));
    let mut noted = Noted::new(named, notes);
    let status = serve_at(rt, &mut noted, service, notes, writer, errors);
    (status, noted.into_desk())
}

/// Serves what a store at a path and its archives answer. Over stores of any kind, so that what is said of it stays short where
/// a file is known to be one.
fn serve_desk<S: Alter + Drop, A: Archives + Drop, N: Notes, W: Write, E: Write>(
    rt: &HostRuntime,
    store: &str,
    office: ArchivedDesk<S, A>,
    service: Service<'_>,
    notes: &N,
    writer: &mut Port<W>,
    errors: &mut Port<E>,
) -> (u8, Named<ArchivedDesk<S, A>, StoreFile>)
    ensures { (image : Image) → OpensOn S.Store image office.desk →
        EndsServing service.entry.port service.entry.count writer.old writer.new
        (W.contents writer.old.inner) (W.contents writer.new.inner)
        (Tells errors.new.failed (E.contents errors.old.inner) (E.contents errors.new.inner))
        (λ most. IsServedOver S.Store A.is_sound A.are image most (office.desk, office.archives)
        (result.1.desk.desk, result.1.desk.archives)) result.0 }
{
    serve_named(rt, store, office, service, notes, writer, errors)
}

/// Listens at a port of this machine, and answers one request of each connection.
fn serve_at<D: Report + AddAccount, N: Notes, W: Write, E: Write>(
    rt: &HostRuntime,
    desk: &mut D,
    service: Service<'_>,
    notes: &N,
    writer: &mut Port<W>,
    errors: &mut Port<E>,
) -> u8
    ensures { EndsServing service.entry.port service.entry.count writer.old writer.new
        (W.contents writer.old.inner) (W.contents writer.new.inner)
        (Tells errors.new.failed (E.contents errors.old.inner) (E.contents errors.new.inner))
        (λ most. AtMost D.leads D.enrols D.looks most desk.old desk.new) result }
{
    let Service {
        port,
        count,
        ahead,
        site,
    } = service;
    match listen(rt, port, count, writer, errors) {
        Some((gate, served)) => {
            let mut watching = Watching::new(notes);
            serve_on(
                rt.alloc(),
                rt,
                gate,
                site,
                count,
                ahead,
                desk,
                &mut watching,
            );
            print(writer, served.as_str(), DONE)
        }
        None => FAILED,
    }
}

/// Listens at a port of this machine, with all that it takes to wait there, and prints that it does. The text is what is to be
/// printed in the end. None if it can't listen, which is reported, or printing failed.
fn listen<W: Write, E: Write>(
    rt: &HostRuntime,
    port: u16,
    count: u32,
    writer: &mut Port<W>,
    errors: &mut Port<E>,
) -> Option<(Gate, String)>
    ensures listens { IfSome result (λ begun. (string_bytes begun.1 ≡ served_line count)
        × Appends (W.contents writer.old.inner) (W.contents writer.new.inner) (listening_line port)
        × (writer.new.failed ≡ writer.old.failed) × (errors.new ≡ errors.old)) }
    ensures deaf { result ≡ None → ServesNone port writer.old writer.new
        (W.contents writer.old.inner) (W.contents writer.new.inner)
        (Tells errors.new.failed (E.contents errors.old.inner) (E.contents errors.new.inner)) }
{
    let alloc = rt.alloc();
    let (Ok(listening), Ok(served)) = (
        format!(in alloc; "listening 127.0.0.1:{port}\n"),
        format!(in alloc; "served {count}\n"),
    ) else {
        tell(errors, "store: Memory\n");
        return None;
    };
    let address = SocketAddr::from((Ipv4Addr::LOCALHOST, port));
    let Ok(gate) = Gate::bind(alloc, rt, address) else {
        tell(errors, "cannot listen\n");
        return None;
    };
    if print(writer, listening.as_str(), DONE) == DONE {
        Some((gate, served))
    } else {
        None
    }
}

ghost use Rattle.std.specs.Prelude.{◌≡◌, IfErr, IfOk, OnErr, option_map, string_bytes};
ghost use Rattle.office_commands.specs.{Beside.{FromOpened, OpensOn}, Ending.Prints, Looking.{FailsUnder, IsReportedOver, LooksOver}, Refusing.IsRefused};
ghost use Rattle.office_commands.specs.Reporting.{Reports, in_lines};
ghost use Rattle.office_desk.specs.Desks.{IsSound};
ghost use Rattle.sqlite.specs.{Files.over_files, Recovery.Image, WalFiles.image_at};

use crate::beside::ArchivesBeside;
use crate::offices::{FileOffice, OpenFault, open_to_look};
use crate::telling::{DONE, REFUSED, print};
use office_archives::{ArchivedDesk, Archives};
use office_replies::Port;
use office_reports::{ReportKind, View, read_query};
use office_tables::TableFault;
use sqlite::{Alter, Start};
use std::alloc::{AllocError, Global};
use std::io::Write;

/// Prints the report that a key asks for, shown so, from the store or the archive at a path, with its own archives, and answers
/// the office as it was left and the exit status: 0, 1 if there is nothing to report, which prints `none`, and 3 if printing failed; or the
/// fault for which nothing was printed. A fault without an office is that for which it did not open.
pub fn report_over<S: Start, A: Archives + Drop, M: ArchivesBeside<A>, W: Write>(
    rt: &HostRuntime,
    store: &str,
    start: S,
    beside: &M,
    kind: ReportKind,
    view: View,
    key: &str,
    writer: &mut Port<W>,
) -> Result<(FileOffice<S, A>, Result<u8, TableFault>), OpenFault>
    // From whatever events the files held what is left of the rows, if the archives hold the rest, what is printed is what that
    // office reports.
    ensures ok { IfOk result (λ ended. IfOk ended.1 (λ status. FromOpened over_files M.hold A.are (image_at S.Start) (λ opened.
        Reports (IsReportedOver over_files A.is_sound A.are (image_at S.Start) opened
        (ended.0.desk, ended.0.archives) kind view key.now)
        (Prints writer.old.failed writer.new.failed writer.new.flushed
        (W.contents writer.old.inner) (W.contents writer.new.inner)) status))) }

    // It only looked, whether it reported something or met a fault.
    ensures looks { IfOk result (λ ended. FromOpened over_files M.hold A.are (image_at S.Start) (λ opened.
        LooksOver over_files A.are (image_at S.Start) opened (ended.0.desk, ended.0.archives))) }
    ensures err { IfOk result (λ ended. OnErr ended.1 (writer.new ≡ writer.old)) }

    // Why it can't be reported, of what the store's own rows report; and why the store is not opened.
    ensures fault { IfOk result (λ ended. IfErr ended.1 (λ fault. FromOpened ⟦<sqlite::FileStore<sqlite::FileFrom<S>> as sqlite_trees::store::Store>⟧ M.hold A.are (image_at S.Start)
        (λ opened. IsSound over_files ended.0.desk → FailsUnder over_files A.are opened kind view key.now fault))) }
    ensures refused { IfErr result (λ fault. IsRefused ⟦<sqlite::FileStore<sqlite::FileFrom<S>> as sqlite_trees::store::Store>⟧ (image_at S.Start) ⊥ fault × (writer.new ≡ writer.old)) }
{
    let mut office = open_to_look(rt, store, start, beside)?;
    let status = report_on(rt.alloc(), &mut office, kind, view, key, writer);
    Ok((office, status))
}

/// Prints the report that a key asks for, shown so, from a store and its archives, and answers the exit status. It only looks.
fn report_on<S: Alter + Drop, A: Archives + Drop, W: Write>(
    alloc: Global,
    office: &mut ArchivedDesk<S, A>,
    kind: ReportKind,
    view: View,
    key: &str,
    writer: &mut Port<W>,
) -> Result<u8, TableFault>
    ensures ok { IfOk result (λ status. (image : Image) → OpensOn S.Store image office.old.desk →
        Reports (IsReportedOver S.Store A.is_sound A.are image (office.old.desk, office.old.archives)
        (office.new.desk, office.new.archives) kind view key.now)
        (Prints writer.old.failed writer.new.failed writer.new.flushed
        (W.contents writer.old.inner) (W.contents writer.new.inner)) status) }
    ensures looks { (image : Image) →
        LooksOver S.Store A.are image (office.old.desk, office.old.archives) (office.new.desk, office.new.archives) }
    ensures err { OnErr result (writer.new ≡ writer.old) }
    ensures fault { IsSound S.Store office.new.desk →
        IfErr result (FailsUnder S.Store A.are (office.old.desk, office.old.archives) kind view key.now) }
{
    match find(alloc, office, kind, view, key)? {
        Some(text) => {
            let lines = in_lines(text)?;
            Ok(print(writer, lines.as_str(), DONE))
        }
        None => Ok(print(writer, "none\n", REFUSED)),
    }
}

/// What a store and its archives report under a key, shown so, if there is something.
fn find<S: Alter + Drop, A: Archives + Drop>(
    alloc: Global,
    office: &mut ArchivedDesk<S, A>,
    kind: ReportKind,
    view: View,
    key: &str,
) -> Result<Option<String>, TableFault>
    ensures found { IfOk result (λ found. (image : Image) → OpensOn S.Store image office.old.desk →
        IsReportedOver S.Store A.is_sound A.are image (office.old.desk, office.old.archives)
        (office.new.desk, office.new.archives) kind view key.now (option_map string_bytes found)) }
    ensures looks { (image : Image) →
        LooksOver S.Store A.are image (office.old.desk, office.old.archives) (office.new.desk, office.new.archives) }
    ensures fault { IsSound S.Store office.new.desk →
        IfErr result (FailsUnder S.Store A.are (office.old.desk, office.old.archives) kind view key.now) }
{
    match read_query(alloc, kind, view, key)? {
        Some(query) => office.find_report(alloc, &query),
        None => Ok(None),
    }
}

/// A text in whole lines: a reply is a line without its end, and an empty text has no line.
pub fn in_lines(text: String) -> Result<String, AllocError>
    ensures { IfOk result (λ lines. string_bytes lines ≡ in_lines (string_bytes text)) }
{
    let mut text = text;
    if !text.is_empty() && !text.as_bytes().ends_with(b"\n") {
        text.push('\n')?;
    }
    Ok(text)
}

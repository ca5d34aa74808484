ghost use Rattle.std.specs.Prelude.{◌≡◌, ◌++◌, ◌∷◌, [], codes, map, IfErr, IfOk, OnOk, string_bytes};
ghost use Rattle.office_archive_files.specs.Listing.{FollowIn, IsListed, archive_line, listing_status, listing_text, word_of};
ghost use Rattle.office_commands.specs.{Ending.Prints, Refusing.IsRefused};
ghost use Rattle.office_closing.specs.Register.{archive_content, register_content};
ghost use Rattle.office_reports.specs.Names.{line};
ghost use Rattle.sqlite.specs.WalFiles.{image_at};

use crate::in_files::InFiles;
use crate::shelf::{ArchiveStart, Finds, Found};
use office_closing::{Archive, Register};
use office_commands::{DONE, OpenFault, REFUSED, look_at_office, print};
use office_replies::Port;
use office_reports::texts::push_line;
use sqlite::Start;
use std::alloc::{AllocError, Global};
use std::io::Write;

/// Prints which archives the store or the archive at a path has, a line for each, and answers the exit status: 0, 1 if
/// there is none, which prints `none`, and 3 if printing failed. Each is opened and looked at; none changes.
pub fn archives_over<S: Start, B: ArchiveStart, W: Write>(
    rt: &HostRuntime,
    store: &str,
    start: S,
    beside: &InFiles<'_, B>,
    writer: &mut Port<W>,
) -> Result<u8, OpenFault>
    ensures lists { IfOk result (λ status. IsListed ⟦<sqlite::FileStore<sqlite::FileFrom<S>> as sqlite_trees::store::Store>⟧ ⟦<sqlite::FileStore<sqlite::FileFrom<B>> as sqlite_trees::store::Store>⟧ (image_at S.Start) (image_at B.Start) store.now
        (λ text wanted. Prints writer.old.failed writer.new.failed writer.new.flushed
        (W.contents writer.old.inner) (W.contents writer.new.inner) text wanted status)) }
    ensures refused { IfErr result (λ fault. IsRefused ⟦<sqlite::FileStore<sqlite::FileFrom<S>> as sqlite_trees::store::Store>⟧ (image_at S.Start) ⊥ fault × (writer.new ≡ writer.old)) }
{
    let (looked, register, setup) = look_at_office(rt, store, start)?;
    let path = String::from_str(rt.alloc(), store)?;
    let shelf = beside.shelf(path, setup);
    let lines = archive_lines(rt.alloc(), &register, &shelf)?;
    drop(looked);
    let count = register.archives.len();
    Ok(print_listing(writer, count, lines.as_str()))
}

/// Prints the lines of `count` archives, or `none`, and answers the exit status.
fn print_listing<W: Write>(writer: &mut Port<W>, count: usize, lines: &str) -> u8
    ensures { Prints writer.old.failed writer.new.failed writer.new.flushed (W.contents writer.old.inner)
        (W.contents writer.new.inner) (listing_text count lines.now) (listing_status count) result }
{
    if count == 0 {
        print(writer, "none\n", REFUSED)
    } else {
        print(writer, lines, DONE)
    }
}

/// A line for each archive.
fn archive_lines<F: Finds>(
    alloc: Global,
    register: &Register,
    shelf: &F,
) -> Result<String, AllocError>
    ensures { IfOk result (λ lines. FollowIn (F.is_found shelf.now (register_content register.now))
        (map archive_content register.now.archives.items) [] (string_bytes lines)) }
{
    let mut lines = String::new(alloc);
    for archive in &register.archives {
        let found = shelf.look_at(register, archive.place, archive.file.as_str())?;
        push_archive(alloc, &mut lines, archive, found)?;
    }
    Ok(lines)
}

/// Appends the line of an archive.
fn push_archive(
    alloc: Global,
    lines: &mut String,
    archive: &Archive,
    found: Found,
) -> Result<(), AllocError>
    ensures { OnOk result
        (string_bytes lines.new ≡ string_bytes lines.old ++ archive_line (archive_content archive.now) found) }
{
    let place = archive.place.to_string(alloc)?;
    let visits = archive.visits.to_string(alloc)?;
    let file = archive.file.as_str();
    push_words(
        alloc,
        lines,
        place.as_str(),
        file,
        visits.as_str(),
        word_of(found),
    )
}

/// Appends the line of an archive, of which place and newest visit are written in digits.
fn push_words<'a>(
    alloc: Global,
    lines: &mut String,
    place: &'a str,
    file: &'a str,
    visits: &'a str,
    word: &'a str,
) -> Result<(), AllocError>
    ensures { OnOk result (string_bytes lines.new ≡ string_bytes lines.old
        ++ line (codes "ARCHIVE" ∷ place.now ∷ file.now ∷ codes "VISITS" ∷ visits.now ∷ word.now ∷ [])) }
{
    push_line(
        alloc,
        lines,
        &["ARCHIVE", place, file, "VISITS", visits, word],
    )
}

/// What is found, in a word.
fn word_of(found: Found) -> &'static str
    ensures { result.now ≡ word_of found }
{
    match found {
        Found::Archive => "THERE",
        Found::Nothing => "MISSING",
        Found::Other => "OTHER",
    }
}

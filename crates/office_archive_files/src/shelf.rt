ghost use Rattle.std.specs.{Prelude.{◌≡◌, ◌≢◌, ◌↔◌, ◌==◌, ℕ, true, IfErr, IfOk, List, string_bytes}, List.list_any};
ghost use Rattle.office_archive_files.specs.{Archives.{IsNamedAt, IsSealedAt, PassesAt, SaysNoArchive, going_on, segments_at}, Shelves.HoldArchiveAt};
ghost use Rattle.office_archive_files.specs.{declared.shelf.Found.Found, declared.shelf.Found.TheVariants.Other};
ghost use Rattle.office_commands.specs.Opening.{Shows};
ghost use Rattle.office_archives.specs.Shelves.{IsOpenAt};
ghost use Rattle.office_loading.specs.Closed.{closed_content};
ghost use Rattle.office_parts.specs.Archives.{Archive};
ghost use Rattle.office_closing.specs.Register.{RegisterContent, register_content};
ghost use Rattle.office_admission.specs.Setups.{setup_content};
ghost use Rattle.office_tables.specs.{DeliveryReading.OnlyReads, declared.table_fault.TableFault.TheVariants.Memory};
ghost use Rattle.sqlite.specs.{Files.{file_state, over_files}, WalFiles.image_at};

use crate::is_archive::{archive_at, is_register_of, is_same_office, reaches};
use office_admission::Setup;
use office_archives::{Looked, NO_ARCHIVE, Shelf};
use office_closing::{Register, SealedArchive, Segment};
use office_commands::{beside_path, found_at, look_there, place_of, read_history};
use office_loading::Closed;
use office_tables::TableFault;
use sqlite::{FileFrom, FileStore, Start, Unknown};
use std::alloc::{AllocError, Global};

/// What is found under the name of an archive.
#[derive(Clone, Copy, Debug, PartialEq, Eq)]
pub enum Found {
    /// The archive.
    Archive,
    /// No file.
    Nothing,
    /// Another file, or one that can't be read.
    Other,
}

/// What knows which archives of a store are there.
pub trait Finds {
    /// Of the store with this register that is found of the archive at a place.
    ghost is_found: { Self → RegisterContent → ℕ → Found → Type 0 };

    /// What is found of the archive at a place, of which the store's register names the file. It is only read.
    fn look_at(&self, names: &Register, place: u16, file: &str) -> Result<Found, AllocError>
        ensures { IfOk result (is_found self.now (register_content names.now) place) };
}

/// What the files of an archive hold as they are opened, and which archive it is: nothing is said of the others. So what is
/// proved for any `B: ArchiveStart` is proved for each archive of a store, whatever its files hold.
pub trait ArchiveStart: Start {
    /// The place of the archive among those of its store, the first at 1.
    ghost place: { ℕ };

    /// The same of the same files, for another opening.
    fn another(&self) -> Self
        ensures { result ≡ self.now };
}

impl ArchiveStart for Unknown {
    ghost place = { 1 };

    fn another(&self) -> Unknown {
        Unknown
    }
}

/// The archives of a store in files, beside the store.
#[derive(Drop)]
pub struct FileShelf<'a, B: ArchiveStart> {
    rt: &'a HostRuntime,
    // The path of the store.
    store: String,
    // The terminal of the store, and its accounts.
    setup: Setup,
    start: B,
}

/// An archive as its store names it.
#[derive(Drop)]
struct Named {
    path: String,
    // What its own register says is closed of it.
    closed: Closed,
    // The numbers that it closed.
    segments: Vec<Segment>,
    // The number of its newest visit.
    visits: u32,
}

impl<'a, B: ArchiveStart> FileShelf<'a, B> {
    /// The archives of the store at a path, which has this terminal and these accounts.
    pub fn new(rt: &'a HostRuntime, store: String, setup: Setup, start: B) -> FileShelf<'a, B>
        ensures store { result.store ≡ store }
        ensures setup { result.setup ≡ setup }
    {
        FileShelf {
            rt,
            store,
            setup,
            start,
        }
    }

    /// The archive at a place, to be only read: NO_ARCHIVE if it is not there, or not its own; Memory says nothing of it.
    pub(crate) fn own_archive(
        &self,
        names: &Register,
        place: u16,
    ) -> Result<Looked<FileStore<FileFrom<B>>>, TableFault>
        ensures opened { IfOk result (λ archive. place ≡ B.place → (list : List Archive) →
            HoldArchiveAt (image_at B.Start) B.place list → IsOpenAt over_files list place archive.conn) }
        ensures fault { IfErr result (SaysNoArchive NO_ARCHIVE) }
    {
        match self.shown_or_opened(names, place) {
            Ok(archive) => Ok(archive),
            Err(fault) => Err(as_no_archive(fault)),
        }
    }

    /// The archive at a place, to be only read: of one with seals only the registers are looked at. Another fault than Memory says
    /// that it is not there, or not its own.
    fn shown_or_opened(
        &self,
        names: &Register,
        place: u16,
    ) -> Result<Looked<FileStore<FileFrom<B>>>, TableFault>
        ensures { IfOk result (λ archive. (list : List Archive) → HoldArchiveAt (image_at B.Start) place list →
            IsOpenAt over_files list place archive.conn) }
    {
        if are_seals_of(&names.sealed, place) {
            return self.shown(names, place);
        }
        self.opened(names, place)
    }

    /// The file that the registers name as the archive of a place, to be only read.
    fn shown(
        &self,
        names: &Register,
        place: u16,
    ) -> Result<Looked<FileStore<FileFrom<B>>>, TableFault>
        ensures opened { IfOk result (λ archive. (list : List Archive) → HoldArchiveAt (image_at B.Start) place list →
            IsOpenAt over_files list place archive.conn) }
        ensures shows { IfOk result (λ archive. Shows over_files (image_at B.Start) archive.conn) }
    {
        let named = self.named(names, place)?;
        look_there(self.rt, named.path.as_str(), self.start.another())
    }

    /// The archive at a place, to be only read. Another fault than Memory says that it is not there, or not its own.
    fn opened(
        &self,
        names: &Register,
        place: u16,
    ) -> Result<Looked<FileStore<FileFrom<B>>>, TableFault>
        ensures opened { IfOk result (λ archive. (list : List Archive) → HoldArchiveAt (image_at B.Start) place list →
            IsOpenAt over_files list place archive.conn) }
        ensures passes { IfOk result (λ archive. PassesAt over_files (image_at B.Start) (string_bytes self.now.store)
            (setup_content self.now.setup) (register_content names.now) place archive.conn) }
    {
        let mut archive = self.shown(names, place)?;
        let is_own = self.is_own(&mut archive, names, place)?;
        if is_own {
            Ok(archive)
        } else {
            Err(TableFault::Store(NO_ARCHIVE))
        }
    }

    /// Whether the archive at a place, as `opened` gives it, has all its seals.
    fn is_sealed(&self, names: &Register, place: u16) -> Result<bool, TableFault>
        ensures { IfOk result (IsSealedAt ⟦<FileStore<FileFrom<B>> as sqlite_trees::store::Store>⟧ (image_at B.Start)
            (string_bytes self.now.store) (setup_content self.now.setup) (register_content names.now) place) }
    {
        let mut archive = self.opened(names, place)?;
        archive.has_seals(self.rt.alloc(), names, place)
    }

    /// Whether an archive that was opened for a place is of the store's office, and keeps what its own register and the store's
    /// say.
    pub(crate) fn is_own(
        &self,
        archive: &mut Looked<FileStore<FileFrom<B>>>,
        names: &Register,
        place: u16,
    ) -> Result<bool, TableFault>
        ensures passes { Shows over_files (image_at B.Start) archive.old.conn → IfOk result (λ is_own. is_own ≡ true →
            PassesAt over_files (image_at B.Start) (string_bytes self.now.store) (setup_content self.now.setup)
            (register_content names.now) place archive.new.conn) }
        ensures reads { OnlyReads (file_state archive.old.conn) (file_state archive.new.conn) result }
    {
        let named = self.named(names, place)?;
        let (setup, beside) = archive.load(self.rt.alloc(), &named.closed)?;
        if !is_same_office(&setup, &self.setup) {
            return Ok(false);
        }
        Ok(reaches(&beside, &named.segments, named.visits))
    }

    /// The archive at a place as the store's register and its own say, if its own is that of this place.
    fn named(&self, names: &Register, place: u16) -> Result<Named, TableFault>
        ensures { IfOk result (λ named. IsNamedAt (string_bytes self.now.store) (register_content names.now) place
            (closed_content named.closed) named.segments.items named.visits) }
    {
        let alloc = self.rt.alloc();
        let Some(archive) = archive_at(&names.archives, place) else {
            return Err(TableFault::Store(NO_ARCHIVE));
        };
        let path = beside_path(alloc, self.store.as_str(), archive.file.as_str())?;
        let Some(own) = read_history(self.rt, path.as_str())? else {
            return Err(TableFault::Store(NO_ARCHIVE));
        };
        let own_name = place_of(self.store.as_str()).name;
        if !is_register_of(&own, names, place, going_on(names, own_name)) {
            return Err(TableFault::Store(NO_ARCHIVE));
        }
        let closed = own.closed(alloc)?;
        let segments = segments_of(alloc, &names.segments, place)?;
        let visits = archive.visits;
        Ok(Named {
            path,
            closed,
            segments,
            visits,
        })
    }
}

/// The fault that is told of an archive which was not opened for this one: that it is not there, or not its own. Memory says
/// nothing of it.
fn as_no_archive(fault: TableFault) -> TableFault
    ensures says { SaysNoArchive NO_ARCHIVE result }
    ensures memory { (result ≡ Memory) ↔ (fault ≡ Memory) }
{
    match fault {
        TableFault::Memory => TableFault::Memory,
        _ => TableFault::Store(NO_ARCHIVE),
    }
}

/// What is found under the name of an archive that was not opened for this fault: another file, but that memory was refused says
/// nothing of it.
fn as_other(fault: &TableFault) -> Result<Found, AllocError>
    ensures other { IfOk result (λ found. (found ≡ Other) × (fault.now ≢ Memory)) }
    ensures memory { IfErr result (λ _. fault.now ≡ Memory) }
{
    match fault {
        TableFault::Memory => Err(AllocError),
        _ => Ok(Found::Other),
    }
}

/// The name of the file of the store that goes on: of this one, or of the one for which its register is marked.
fn going_on<'a>(register: &'a Register, file: &'a str) -> &'a str
    ensures { result.now ≡ going_on (register_content register.now) file.now }
{
    match &register.closed_for {
        Some(store) => store.as_str(),
        None => file,
    }
}

/// The segments of the archive at a place.
fn segments_of(alloc: Global, segments: &[Segment], place: u16) -> Result<Vec<Segment>, AllocError>
    ensures { IfOk result (λ found. found.items ≡ segments_at place segments.now) }
{
    let mut found = Vec::new(alloc);
    for segment in segments {
        if segment.archive == place {
            found.push(*segment)?;
        }
    }
    Ok(found)
}

impl<B: ArchiveStart> Finds for FileShelf<'_, B> {
    ghost use Rattle.std.specs.Prelude.{string_bytes};
    ghost use Rattle.office_admission.specs.Setups.{setup_content};
    ghost use Rattle.office_archive_files.specs.Listing.{IsFoundAt};
    ghost use Rattle.sqlite.specs.WalFiles.{image_at};

    ghost is_found = { λ shelf names place.
        IsFoundAt ⟦<FileStore<FileFrom<B>> as sqlite_trees::store::Store>⟧ (image_at B.Start) (string_bytes shelf.store)
        (setup_content shelf.setup) names place };

    fn look_at(&self, names: &Register, place: u16, file: &str) -> Result<Found, AllocError> {
        let path = beside_path(self.rt.alloc(), self.store.as_str(), file)?;
        if let Ok(None) = found_at(self.rt, path.as_str()) {
            return Ok(Found::Nothing);
        }
        match self.is_sealed(names, place) {
            Ok(is_sealed) => {
                if is_sealed {
                    Ok(Found::Archive)
                } else {
                    Ok(Found::Other)
                }
            }
            Err(fault) => as_other(&fault),
        }
    }
}

impl<B: ArchiveStart> Shelf<FileStore<FileFrom<B>>> for FileShelf<'_, B> {
    ghost use Rattle.std.specs.Prelude.{◌≡◌};
    ghost use Rattle.office_archive_files.specs.Shelves.{HoldArchiveAt};
    ghost use Rattle.sqlite.specs.WalFiles.{image_at};

    ghost is_known = { λ place. place ≡ B.place };

    ghost holds = { λ list shelf. HoldArchiveAt (image_at B.Start) B.place list };

    fn open(
        &mut self,
        names: &Register,
        place: u16,
    ) -> Result<Looked<FileStore<FileFrom<B>>>, TableFault> {
        self.own_archive(names, place)
    }

    fn passes(
        &self,
        archive: &mut Looked<FileStore<FileFrom<B>>>,
        names: &Register,
        place: u16,
    ) -> Result<bool, TableFault> {
        self.is_own(archive, names, place)
    }
}

/// Whether a register has seals of the archive at a place.
fn are_seals_of(sealed: &[SealedArchive], place: u16) -> bool
    ensures { result ≡ list_any (λ one. one.archive == place) sealed.now }
{
    sealed.iter().any(|one| one.archive == place)
}

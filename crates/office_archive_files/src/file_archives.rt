ghost use Rattle.std.specs.Prelude.{◌≡◌, IfOk, List, None, Some};
ghost use Rattle.office_archive_files.specs.Shelves.{HoldArchiveAt};
ghost use Rattle.office_archives.specs.Shelves.{IsOpenAt, NamesAll};
ghost use Rattle.office_closing.specs.Register.{register_content};
ghost use Rattle.office_parts.specs.Archives.{Archive};
ghost use Rattle.office_tables.specs.DeliveryReading.{OnlyReads};
ghost use Rattle.sqlite.specs.{Files.{file_state, over_files}, WalFiles.image_at};

use crate::shelf::{ArchiveStart, FileShelf};
use edi_messages::Call;
use office_archives::{Archives, Looked, ManyArchives, NO_ARCHIVE, Shelf};
use office_closing::Register;
use office_reports::{Query, View};
use office_tables::{Kept, TableFault};
use sqlite::{FileFrom, FileStore, Start, Unknown};
use std::alloc::Global;
use terminal_core::{Listing, Side};

/// The shelf of a store's archives in files; an empty one is that of a store of which nothing was put away.
#[derive(Drop)]
pub struct StoreShelf<'a, B: ArchiveStart> {
    shelf: Option<FileShelf<'a, B>>,
}

impl<'a, B: ArchiveStart> StoreShelf<'a, B> {
    /// That shelf.
    pub fn of(shelf: FileShelf<'a, B>) -> StoreShelf<'a, B>
        ensures { result.shelf ≡ Some shelf.entry }
    {
        StoreShelf { shelf: Some(shelf) }
    }

    /// An empty shelf.
    pub fn empty() -> StoreShelf<'a, B>
        ensures { result.shelf ≡ None }
    {
        StoreShelf { shelf: None }
    }

    /// The archive at a place, to be only read: NO_ARCHIVE if it is not there, or not its own; Memory says nothing of it.
    fn own_archive(
        &self,
        names: &Register,
        place: u16,
    ) -> Result<Looked<FileStore<FileFrom<B>>>, TableFault>
        ensures opened { IfOk result (λ archive. place ≡ B.place → (list : List Archive) →
            HoldArchiveAt (image_at B.Start) B.place list → IsOpenAt over_files list place archive.conn) }
    {
        match &self.shelf {
            Some(shelf) => shelf.own_archive(names, place),
            None => Err(TableFault::Store(NO_ARCHIVE)),
        }
    }

    /// Whether an archive that was opened for a place is its own; none is that of an empty shelf.
    fn is_own(
        &self,
        archive: &mut Looked<FileStore<FileFrom<B>>>,
        names: &Register,
        place: u16,
    ) -> Result<bool, TableFault>
        ensures reads { OnlyReads (file_state archive.old.conn) (file_state archive.new.conn) result }
    {
        match &self.shelf {
            Some(shelf) => shelf.is_own(archive, names, place),
            None => Err(TableFault::Store(NO_ARCHIVE)),
        }
    }
}

impl<B: ArchiveStart> Shelf<FileStore<FileFrom<B>>> for StoreShelf<'_, B> {
    ghost is_known = { λ place. place ≡ B.place };

    ghost holds = { λ list shelf. HoldArchiveAt (image_at B.Start) B.place list };

    fn open(
        &mut self,
        names: &Register,
        place: u16,
    ) -> Result<Looked<FileStore<FileFrom<B>>>, TableFault> {
        self.own_archive(names, place)
    }

    fn passes(
        &self,
        archive: &mut Looked<FileStore<FileFrom<B>>>,
        names: &Register,
        place: u16,
    ) -> Result<bool, TableFault> {
        self.is_own(archive, names, place)
    }
}

/// The same in files of which nothing is supposed.
#[derive(Drop)]
pub struct UnknownShelf<'a> {
    shelf: StoreShelf<'a, Unknown>,
}

impl<'a> UnknownShelf<'a> {
    /// That shelf.
    pub fn new(shelf: StoreShelf<'a, Unknown>) -> UnknownShelf<'a>
        ensures { result.shelf ≡ shelf.entry }
    {
        UnknownShelf { shelf }
    }
}

impl Shelf<FileStore<FileFrom<Unknown>>> for UnknownShelf<'_> {
    ghost is_known = { λ place. place ≡ 1 };

    ghost holds = { λ list shelf. HoldArchiveAt (image_at ⟦<Unknown as Start>⟧) 1 list };

    fn open(
        &mut self,
        names: &Register,
        place: u16,
    ) -> Result<Looked<FileStore<FileFrom<Unknown>>>, TableFault> {
        self.shelf.own_archive(names, place)
    }

    fn passes(
        &self,
        archive: &mut Looked<FileStore<FileFrom<Unknown>>>,
        names: &Register,
        place: u16,
    ) -> Result<bool, TableFault> {
        self.shelf.is_own(archive, names, place)
    }
}

/// The archives of a store in files of which nothing is supposed, as the program names them: `ManyArchives` of such files, in
/// a type of its own, so that what is said of a store beside them stays short.
#[derive(Drop)]
pub struct FileArchives<'a> {
    archives: ManyArchives<FileStore<FileFrom<Unknown>>, UnknownShelf<'a>>,
}

impl<'a> FileArchives<'a> {
    /// Those of a shelf, as a register names them, none of them open.
    pub fn new(alloc: Global, shelf: UnknownShelf<'a>, register: Register) -> FileArchives<'a>
        ensures { (list : List Archive) → HoldArchiveAt (image_at ⟦<Unknown as Start>⟧) 1 list →
            NamesAll (register_content register) list →
            ⟦<ManyArchives<FileStore<FileFrom<Unknown>>, UnknownShelf<'a>> as Archives>⟧.are list result.archives }
    {
        FileArchives {
            archives: ManyArchives::new(alloc, shelf, register),
        }
    }
}

impl<'a> Archives for FileArchives<'a> {
    ghost is_sound = { λ files. ⟦<ManyArchives<FileStore<FileFrom<Unknown>>, UnknownShelf<'a>> as Archives>⟧.is_sound
        files.archives };

    ghost are = { λ list files. ⟦<ManyArchives<FileStore<FileFrom<Unknown>>, UnknownShelf<'a>> as Archives>⟧.are list
        files.archives };

    fn kept(&mut self, partner: u16, number: u32) -> Result<Kept, TableFault> {
        self.archives.kept(partner, number)
    }

    fn ticket(
        &mut self,
        alloc: Global,
        code: &str,
        partner: u16,
        number: u32,
        view: View,
    ) -> Result<String, TableFault> {
        self.archives.ticket(alloc, code, partner, number, view)
    }

    fn report(
        &mut self,
        alloc: Global,
        place: u16,
        query: &Query,
    ) -> Result<Option<String>, TableFault> {
        self.archives.report(alloc, place, query)
    }

    fn place_of(&self, partner: u16, number: u32) -> Option<u16> {
        self.archives.place_of(partner, number)
    }

    fn has_lists(&self, count: usize) -> bool {
        self.archives.has_lists(count)
    }

    fn lines(
        &self,
        alloc: Global,
        call: &Call,
        side: Side,
    ) -> Result<Option<Vec<Listing>>, TableFault> {
        self.archives.lines(alloc, call, side)
    }

    fn count(&self) -> usize {
        self.archives.count()
    }
}

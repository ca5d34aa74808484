use crate::file_archives::{FileArchives, StoreShelf, UnknownShelf};
use crate::shelf::{ArchiveStart, FileShelf};
use office_admission::Setup;
use office_archives::ManyArchives;
use office_closing::Register;
use office_commands::{ArchivesBeside, ShelfBeside, no_archives};
use sqlite::{FileFrom, FileStore, Start, Unknown};

/// In files, in the folder of their store.
#[derive(Drop)]
pub struct InFiles<'a, B: ArchiveStart> {
    rt: &'a HostRuntime,
    start: B,
}

impl<'a, B: ArchiveStart> InFiles<'a, B> {
    ghost use Rattle.std.specs.Prelude.{◌≡◌};

    /// In files, of which something is supposed at one place.
    pub fn new(rt: &'a HostRuntime, start: B) -> InFiles<'a, B>
        ensures { result.start ≡ start }
    {
        InFiles { rt, start }
    }

    /// The archives of the store at a path, which has this terminal and these accounts.
    pub fn shelf(&self, store: String, setup: Setup) -> FileShelf<'a, B>
        ensures store { result.store ≡ store }
        ensures setup { result.setup ≡ setup }
    {
        FileShelf::new(self.rt, store, setup, self.start.another())
    }
}

impl<'a, B: ArchiveStart> ShelfBeside<FileStore<FileFrom<B>>, FileShelf<'a, B>> for InFiles<'a, B> {
    ghost use Rattle.office_archive_files.specs.Shelves.{HoldArchiveAt};
    ghost use Rattle.sqlite.specs.WalFiles.{image_at};

    ghost hold = { HoldArchiveAt (image_at B.Start) B.place };

    fn shelf_of(&self, store: String, setup: Setup) -> FileShelf<'a, B> {
        self.shelf(store, setup)
    }
}

impl<'a, B: ArchiveStart> ArchivesBeside<ManyArchives<FileStore<FileFrom<B>>, StoreShelf<'a, B>>>
    for InFiles<'a, B> {
    ghost use Rattle.office_archive_files.specs.Shelves.{HoldArchiveAt};
    ghost use Rattle.sqlite.specs.WalFiles.{image_at};

    ghost hold = { HoldArchiveAt (image_at B.Start) B.place };

    fn archives(
        &self,
        store: String,
        setup: Setup,
        register: Register,
    ) -> ManyArchives<FileStore<FileFrom<B>>, StoreShelf<'a, B>> {
        ManyArchives::new(
            self.rt.alloc(),
            StoreShelf::of(self.shelf(store, setup)),
            register,
        )
    }

    fn none(&self) -> ManyArchives<FileStore<FileFrom<B>>, StoreShelf<'a, B>> {
        ManyArchives::new(
            self.rt.alloc(),
            StoreShelf::empty(),
            no_archives(self.rt.alloc()),
        )
    }
}

/// In files of which nothing is supposed: what the program names.
#[derive(Drop)]
pub struct InUnknownFiles<'a> {
    files: InFiles<'a, Unknown>,
}

impl<'a> InUnknownFiles<'a> {
    ghost use Rattle.std.specs.Prelude.{◌≡◌};

    /// In files of which nothing is supposed.
    pub fn new(rt: &'a HostRuntime) -> InUnknownFiles<'a>
        ensures { result.files.start ≡ record {} }
    {
        InUnknownFiles {
            files: InFiles::new(rt, Unknown),
        }
    }
}

impl<'a> ShelfBeside<FileStore<FileFrom<Unknown>>, UnknownShelf<'a>> for InUnknownFiles<'a> {
    ghost use Rattle.office_archive_files.specs.Shelves.{HoldArchiveAt};
    ghost use Rattle.sqlite.specs.WalFiles.{image_at};

    ghost hold = { HoldArchiveAt (image_at ⟦<Unknown as Start>⟧) 1 };

    fn shelf_of(&self, store: String, setup: Setup) -> UnknownShelf<'a> {
        UnknownShelf::new(StoreShelf::of(self.files.shelf(store, setup)))
    }
}

impl<'a> ArchivesBeside<FileArchives<'a>> for InUnknownFiles<'a> {
    ghost use Rattle.office_archive_files.specs.Shelves.{HoldArchiveAt};
    ghost use Rattle.sqlite.specs.WalFiles.{image_at};

    ghost hold = { HoldArchiveAt (image_at ⟦<Unknown as Start>⟧) 1 };

    fn archives(&self, store: String, setup: Setup, register: Register) -> FileArchives<'a> {
        let shelf = UnknownShelf::new(StoreShelf::of(self.files.shelf(store, setup)));
        FileArchives::new(self.files.rt.alloc(), shelf, register)
    }

    fn none(&self) -> FileArchives<'a> {
        let shelf = UnknownShelf::new(StoreShelf::empty());
        FileArchives::new(
            self.files.rt.alloc(),
            shelf,
            no_archives(self.files.rt.alloc()),
        )
    }
}

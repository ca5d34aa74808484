ghost use Rattle.std.specs.Prelude.{◌≡◌, ◌<◌, ◌≤◌, ◌++◌, ℕ, [], ◌∷◌, IfOk, IfSome, List, OnOk, length, option_map, string_bytes};
ghost use Rattle.office_archives.specs.Shelves.{AreSealed, AreShelved, IsLastSound, IsOpenAt, IsOpenIfKnown, IsSealedIfSaid, IsTakenIf, IsToldBy, LeavesOpen, OpensFor, index_at, most_open, with_room};
ghost use Rattle.office_archives.specs.Keeping.{IsReportOf, IsTicketOf};
ghost use Rattle.office_closing.specs.{Register.register_content, Seals.{HasSealOf, HasSeals}};
ghost use Rattle.office_parts.specs.Archives.{Archive};
ghost use Rattle.office_tables.specs.{Answers.IsKept, DeliveryReading.OnlyReads};
ghost use Rattle.sqlite.specs.Held.{state};

use crate::archives::Archives;
use crate::former_store::closed_before;
use crate::looked::Looked;
use crate::opened::Opened;
use edi_messages::Call;
use office_closing::{Register, read_list};
use office_reports::{Query, View};
use office_tables::{Kept, TableFault};
use sqlite::{Alter, Error, ErrorCode};
use std::alloc::{AllocError, Global};
use terminal_core::{Listing, Side};

/// An archive that is missing, can't be read, or is not the store's own archive of its place. No statement of the office
/// has this error: it is about names of tables.
pub const NO_ARCHIVE: Error = Error::SqliteFailure(ErrorCode::BadName);

/// The most archives that are open at a time.
const MOST_OPEN: usize = 4;

/// Where the archives of a store are kept: each is opened by its place in the order in which they were closed.
pub trait Shelf<S: Alter> {
    /// What is said of archives is said of the one at this place.
    ghost is_known: { ℕ → Type 0 };

    /// It holds these.
    ghost holds: { List Archive → Self → Type 0 };

    /// The archive at that place, the first at 1, of those that the store's register names, to be only read. Nothing on the
    /// shelf changes. Of an archive with seals nothing more is looked at than where it is.
    fn open(&mut self, names: &Register, place: u16) -> Result<Looked<S>, TableFault>
        ensures opened { IfOk result (λ archive. is_known place → (list : List Archive) → holds list self.old →
            IsOpenAt S.Store list place archive.conn) }
        ensures same { (list : List Archive) → holds list self.old → holds list self.new };

    /// Whether what `open` gave for that place holds the store that the register names there, as far as no seal says so.
    fn passes(
        &self,
        archive: &mut Looked<S>,
        names: &Register,
        place: u16,
    ) -> Result<bool, TableFault>
        ensures reads { OnlyReads (state S.Store archive.old.conn) (state S.Store archive.new.conn) result };
}

/// The archives of a store on a shelf. Those that were asked last stay open, up to four; then the one that was asked longest
/// ago gives way.
#[derive(Drop)]
pub struct ManyArchives<S: Alter, F: Shelf<S>> {
    alloc: Global,
    shelf: F,
    register: Register,
    // In the order in which they were asked last.
    opened: Vec<Opened<S>>,
}

impl<S: Alter, F: Shelf<S>> ManyArchives<S, F> {
    /// The archives that the store's register names, none of them open.
    pub fn new(alloc: Global, shelf: F, register: Register) -> ManyArchives<S, F>
        ensures shelf { result.shelf ≡ shelf }
        ensures register { result.register ≡ register }
        ensures opened { result.opened.items ≡ [] }
    {
        ManyArchives {
            alloc,
            shelf,
            register,
            opened: Vec::new(alloc),
        }
    }
}

impl<S: Alter + Drop, F: Shelf<S>> ManyArchives<S, F> {
    /// The archive at a place: the open one, which is taken out of those that are open, or else it is opened. Of the others
    /// stay open as many as leave room for it.
    fn take_out(&mut self, place: u16) -> Result<Opened<S>, TableFault>
        ensures place { IfOk result (λ opened. opened.place ≡ place) }
        ensures opened { IfOk result (λ opened. OpensFor S.Store F.is_known F.holds self.old.shelf self.old.register
            self.old.opened.items place opened.archive.conn) }
        ensures said { AreSealed S.Store (register_content self.old.register) self.old.opened.items →
            IfOk result (IsSealedIfSaid S.Store (register_content self.old.register)) }
        ensures leaves { LeavesOpen S.Store F.is_known F.holds place self.old.shelf self.new.shelf self.old.register
            self.new.register self.old.opened.items self.new.opened.items }
    {
        match index_at(&self.opened, place) {
            Some(index) => Ok(self.opened.remove(index)),
            None => {
                make_room(&mut self.opened);
                let archive = self.shelf.open(&self.register, place)?;
                Ok(Opened {
                    place,
                    archive,
                    is_sealed: false,
                })
            }
        }
    }

    /// The archive at a place, as `take_out` gives it, if it keeps what is sealed together with a partner's number. If not, it
    /// is closed.
    fn take_if_sealed(
        &mut self,
        place: u16,
        partner: u16,
        number: u32,
    ) -> Result<Option<Opened<S>>, TableFault>
        ensures place { IfOk result (λ found. IfSome found (λ opened. opened.place ≡ place)) }
        ensures sealed { IfOk result (IsTakenIf S.Store (OpensFor S.Store F.is_known F.holds self.old.shelf
            self.old.register self.old.opened.items place)
            (HasSealOf (register_content self.old.register) place partner number)) }
        ensures said { AreSealed S.Store (register_content self.old.register) self.old.opened.items →
            IfOk result (λ found. IfSome found (IsSealedIfSaid S.Store (register_content self.old.register))) }
        ensures leaves { LeavesOpen S.Store F.is_known F.holds place self.old.shelf self.new.shelf self.old.register
            self.new.register self.old.opened.items self.new.opened.items }
    {
        let mut opened = self.take_out(place)?;
        let has = opened
            .archive
            .has_seal_of(self.alloc, &self.register, place, partner, number)?;
        if has { Ok(Some(opened)) } else { Ok(None) }
    }

    /// The archive at a place, as `take_out` gives it, if it has all its seals. If not, it is closed. While it stays open they are
    /// looked at once. NO_ARCHIVE if it does not hold that store.
    fn take_if_all_sealed(&mut self, place: u16) -> Result<Option<Opened<S>>, TableFault>
        ensures place { IfOk result (λ found. IfSome found (λ opened. opened.place ≡ place)) }
        ensures sealed { AreSealed S.Store (register_content self.old.register) self.old.opened.items →
            IfOk result (IsTakenIf S.Store (OpensFor S.Store F.is_known F.holds self.old.shelf self.old.register
            self.old.opened.items place) (HasSeals (register_content self.old.register) place)) }
        ensures leaves { LeavesOpen S.Store F.is_known F.holds place self.old.shelf self.new.shelf self.old.register
            self.new.register self.old.opened.items self.new.opened.items }
    {
        let mut opened = self.take_out(place)?;
        if opened.is_sealed {
            return Ok(Some(opened));
        }
        if !self
            .shelf
            .passes(&mut opened.archive, &self.register, place)?
        {
            return Err(TableFault::Store(NO_ARCHIVE));
        }
        let has = opened.archive.has_seals(self.alloc, &self.register, place)?;
        if has {
            opened.is_sealed = true;
            Ok(Some(opened))
        } else {
            Ok(None)
        }
    }

    /// Keeps an archive open as the one that was asked last; it is closed if memory is refused.
    fn put_back(&mut self, opened: Opened<S>) -> Result<(), AllocError>
        ensures last { OnOk result (self.new.opened.items ≡ self.old.opened.items ++ opened ∷ []) }
        ensures same { (list : List Archive) →
            AreShelved S.Store F.is_known F.holds list self.old.shelf self.old.register self.old.opened.items →
            length self.old.opened.items < most_open → IsOpenIfKnown S.Store F.is_known list opened →
            IsSealedIfSaid S.Store (register_content self.old.register) opened →
            AreShelved S.Store F.is_known F.holds list self.new.shelf self.new.register self.new.opened.items }
    {
        self.opened.push(opened)?;
        Ok(())
    }
}

impl<S: Alter + Drop, F: Shelf<S>> ManyArchives<S, F> {
    /// The interchange that the archive at a place keeps under a partner's number, if it keeps what is sealed together with that:
    /// NO_ARCHIVE if not.
    fn kept_at(&mut self, place: u16, partner: u16, number: u32) -> Result<Option<Kept>, TableFault>
        ensures told { IfOk result (λ found. IsToldBy S.Store (OpensFor S.Store F.is_known F.holds self.old.shelf
            self.old.register self.old.opened.items place) place self.new.opened.items (λ rows.
            HasSealOf (register_content self.old.register) place partner number rows
            × IsKept partner number rows found)) }
        ensures same { (list : List Archive) →
            AreShelved S.Store F.is_known F.holds list self.old.shelf self.old.register self.old.opened.items →
            AreShelved S.Store F.is_known F.holds list self.new.shelf self.new.register self.new.opened.items }
    {
        let Some(mut opened) = self.take_if_sealed(place, partner, number)? else {
            return Err(TableFault::Store(NO_ARCHIVE));
        };
        let found = opened.archive.kept(partner, number)?;
        self.put_back(opened)?;
        Ok(found)
    }

    /// The ticket that the archive at a place reports of a number of the partner with a code, shown so, if it keeps what is sealed
    /// together with that: NO_ARCHIVE if not.
    fn ticket_at(
        &mut self,
        alloc: Global,
        place: u16,
        code: &str,
        partner: u16,
        number: u32,
        view: View,
    ) -> Result<String, TableFault>
        ensures told { IfOk result (λ ticket. IsToldBy S.Store (OpensFor S.Store F.is_known F.holds self.old.shelf
            self.old.register self.old.opened.items place) place self.new.opened.items (λ rows.
            HasSealOf (register_content self.old.register) place partner number rows
            × IsTicketOf rows code.now partner number view (string_bytes ticket))) }
        ensures same { (list : List Archive) →
            AreShelved S.Store F.is_known F.holds list self.old.shelf self.old.register self.old.opened.items →
            AreShelved S.Store F.is_known F.holds list self.new.shelf self.new.register self.new.opened.items }
    {
        let closed = closed_before(alloc, &self.register, place)?;
        let Some(mut opened) = self.take_if_sealed(place, partner, number)? else {
            return Err(TableFault::Store(NO_ARCHIVE));
        };
        let ticket = opened
            .archive
            .ticket(alloc, &closed, code, partner, number, view)?;
        self.put_back(opened)?;
        Ok(ticket)
    }

    /// What the archive at a place reports for a query, as the store that it was, if it has all its seals: NO_ARCHIVE if not.
    fn report_at(
        &mut self,
        alloc: Global,
        place: u16,
        query: &Query,
    ) -> Result<Option<String>, TableFault>
        ensures told { AreSealed S.Store (register_content self.old.register) self.old.opened.items →
            IfOk result (λ found. IsToldBy S.Store (OpensFor S.Store F.is_known F.holds self.old.shelf self.old.register
            self.old.opened.items place) place self.new.opened.items (λ rows.
            HasSeals (register_content self.old.register) place rows
            × IsReportOf rows query.now (option_map string_bytes found))) }
        ensures same { (list : List Archive) →
            AreShelved S.Store F.is_known F.holds list self.old.shelf self.old.register self.old.opened.items →
            AreShelved S.Store F.is_known F.holds list self.new.shelf self.new.register self.new.opened.items }
    {
        let closed = closed_before(alloc, &self.register, place)?;
        let Some(mut opened) = self.take_if_all_sealed(place)? else {
            return Err(TableFault::Store(NO_ARCHIVE));
        };
        let found = opened.archive.report(alloc, &closed, query)?;
        self.put_back(opened)?;
        Ok(found)
    }
}

/// The index of the archive at a place among those that are open.
fn index_at<S: Alter>(opened: &[Opened<S>], place: u16) -> Option<usize>
    ensures { result ≡ index_at place opened.now }
{
    opened.iter().position(|one| one.place == place)
}

/// Closes the archive that was asked longest ago, if the most are open.
fn make_room<S: Alter + Drop>(opened: &mut Vec<Opened<S>>)
    ensures { opened.new.items ≡ with_room opened.old.items }
{
    if opened.len() >= MOST_OPEN {
        opened.remove(0);
    }
}

impl<S: Alter + Drop, F: Shelf<S>> Archives for ManyArchives<S, F> {
    ghost is_sound = { λ archives. IsLastSound S.Store F.is_known archives.opened.items };

    ghost are = { λ list archives.
        AreShelved S.Store F.is_known F.holds list archives.shelf archives.register archives.opened.items };

    fn kept(&mut self, partner: u16, number: u32) -> Result<Kept, TableFault> {
        let Some(place) = self.register.archive_of(partner, number) else {
            return Err(TableFault::Damaged);
        };
        match self.kept_at(place, partner, number)? {
            Some(kept) => Ok(kept),
            None => Err(TableFault::Damaged),
        }
    }

    fn ticket(
        &mut self,
        alloc: Global,
        code: &str,
        partner: u16,
        number: u32,
        view: View,
    ) -> Result<String, TableFault> {
        let Some(place) = self.register.archive_of(partner, number) else {
            return Err(TableFault::Damaged);
        };
        self.ticket_at(alloc, place, code, partner, number, view)
    }

    fn report(
        &mut self,
        alloc: Global,
        place: u16,
        query: &Query,
    ) -> Result<Option<String>, TableFault> {
        self.report_at(alloc, place, query)
    }

    fn place_of(&self, partner: u16, number: u32) -> Option<u16> {
        self.register.archive_of(partner, number)
    }

    fn has_lists(&self, count: usize) -> bool {
        self.register.has_lists(count)
    }

    fn lines(
        &self,
        alloc: Global,
        call: &Call,
        side: Side,
    ) -> Result<Option<Vec<Listing>>, TableFault> {
        let Some(text) = self.register.lines_of_list(call, side) else {
            return Ok(None);
        };
        match read_list(alloc, call, side, text)? {
            Some(lines) => Ok(Some(lines)),
            None => Err(TableFault::Damaged),
        }
    }

    fn count(&self) -> usize {
        self.register.archives.len()
    }
}

ghost use Rattle.std.specs.{Prelude.{◌≡◌, ◌↔◌, ◌≤◌, ℕ, IfErr, IfOk, None, OnOk, IsTrue, length, map, false, true}, List.list_all, Str.bytes_eq};
ghost use Rattle.office_loading.specs.{Closed.closed_content, Tables.{FailsToLoadOwn, LoadsOwn}};
ghost use Rattle.office_closing.specs.{Arriving.{HasTexts, IsTold, StandInOrder}, Closes.{AreHeld, AreInTheirOrder, HasItsTexts, Held, Tells}};
ghost use Rattle.office_closing.specs.{Comparing.IsComparedAs, Copies.{IsOpened, office_content}, Files.{AreClean, AreRead, IsRead, IsReadIfOpen, files}};
ghost use Rattle.office_closing.specs.{Judging.{IsComparedIf, IsJudged, IsOfSealing, IsSealedPlan, WantsAll}, Waiting.{AreWaitedFor, HaveNexts}};
ghost use Rattle.office_closing.specs.{Refusing.{HasUnread, HaveNoNexts, IsOfComparing, IsOfOther, IsOfOpening, IsOfOrdering, IsOfThis}, Stored.HasRegister};
ghost use Rattle.office_closing.specs.Register.{RegisterContent, SealedContent, is_newer_than, is_of_terminal, last_closed, register_content, sealed_content};
ghost use Rattle.office_closing.specs.{Seals.{seals_of, with_seals}, Sound.{IsSound, is_sound}};
ghost use Rattle.office_history.specs.After.{AreKeptOnce};
ghost use Rattle.office_parts.specs.Named.{named_list_content};
ghost use Rattle.office_rows.specs.{Rows.Rows, Shown.AreNexts, Stored.HasRows, Tables.office_schema};
ghost use Rattle.office_admission.specs.{Limits.most_partners, Setups.setup_content};
ghost use Rattle.office_tables.specs.Faults.{IsOfStore, IsOfStoreOr};
ghost use Rattle.sqlite.specs.{Held.state, State.HasCleanDisk};
ghost use Rattle.office_closing.specs.declared.faults.CloseFault.TheVariants as close_fault;

use crate::arriving::{Likeness, likeness_of_texts};
use crate::comparing::{Compared, Numbers, compare};
use crate::faults::{CloseFault, File, FileFault, Refusal};
use crate::planning::{Opened, Plan, is_unraised, make_plan};
use crate::sealed_archives::SealedArchive;
use crate::sealing::seals_of;
use crate::{Register, lists_waited_for, read_register};
use office_admission::{MOST_PARTNERS, Setup};
use office_loading::{Closed, Onlooker, load_own, nexts};
use office_parts::NamedList;
use office_tables::TableFault;
use sqlite::{Alter, Connection};
use std::alloc::{AllocError, Global};
use terminal_core::Terminal;

/// What a closing is to do, if the archive is a copy of the store and keeps what goes. It changes none of the files.
pub(crate) fn judge<S: Alter, R: Alter, A: Alter, M: Alter, O: Onlooker>(
    alloc: Global,
    onlooker: &O,
    store: &mut Connection<S>,
    register: &mut Connection<R>,
    archive: &mut Connection<A>,
    archive_register: &mut Connection<M>,
    store_file: &str,
    archive_file: &str,
) -> Result<Plan, CloseFault>
    ensures read { AreRead (files S.Store R.Store A.Store M.Store store.old register.old archive.old archive_register.old)
        (files S.Store R.Store A.Store M.Store store.new register.new archive.new archive_register.new) result }
    ensures judged { AreClean (files S.Store R.Store A.Store M.Store store.new register.new archive.new archive_register.new) →
        IfOk result (λ plan. (held : Held) →
        AreHeld held (files S.Store R.Store A.Store M.Store store.old register.old archive.old archive_register.old) →
        IsJudged held (record { store = store_file.now; archive = archive_file.now }) plan) }
    ensures texts { AreClean (files S.Store R.Store A.Store M.Store store.new register.new archive.new archive_register.new) →
        OnOk result ((held : Held) →
        AreHeld held (files S.Store R.Store A.Store M.Store store.old register.old archive.old archive_register.old) →
        AreInTheirOrder held (files S.Store R.Store A.Store M.Store store.old register.old archive.old archive_register.old)
        → HasItsTexts held) }
    ensures tells { AreClean (files S.Store R.Store A.Store M.Store store.new register.new archive.new archive_register.new) →
        IfErr result (λ fault. (held : Held) →
        AreHeld held (files S.Store R.Store A.Store M.Store store.old register.old archive.old archive_register.old) →
        Tells held (record { store = store_file.now; archive = archive_file.now })
        (files S.Store R.Store A.Store M.Store store.old register.old archive.old archive_register.old) fault) }
{
    let own = open_office(alloc, store, register, File::Store, File::Register)?;
    let copy = open_office(
        alloc,
        archive,
        archive_register,
        File::Archive,
        File::ArchiveRegister,
    )?;
    let named = waited_for(alloc, store, &own)?;
    let plan = make_plan(alloc, &own, copy, &named, store_file, archive_file)?;
    let seals = compare_all(alloc, onlooker, store, archive, &plan)?;
    check_order(alloc, store, archive, &own, &plan)?;
    let sealed = seal_plan(plan, seals)?;
    Ok(sealed)
}

/// The store, or an archive, as its register says what is closed. It changes neither file.
pub(crate) fn open_office<S: Alter, R: Alter>(
    alloc: Global,
    conn: &mut Connection<S>,
    register: &mut Connection<R>,
    conn_is: File,
    register_is: File,
) -> Result<Opened, CloseFault>
    ensures opened { HasCleanDisk (state S.Store conn.new) → HasCleanDisk (state R.Store register.new) →
        IfOk result (λ opened. IsOpened (state S.Store conn.old).now (state R.Store register.old).now
        (office_content opened)) }
    ensures sound { IfOk result (λ opened. IsTrue (is_sound (register_content opened.register))) }
    ensures few { IfOk result (λ opened. length opened.setup.partners.items ≤ most_partners) }
    ensures fault { HasCleanDisk (state S.Store conn.new) → HasCleanDisk (state R.Store register.new) →
        IfErr result (λ fault. (rows : Rows) (held : RegisterContent) → HasRows rows (state S.Store conn.old).now →
        HasRegister held (state R.Store register.old).now → IsSound held →
        IsOfOpening conn_is register_is held rows (state S.Store conn.old).now fault) }
    ensures rows_read { IsRead (state S.Store conn.old) (state S.Store conn.new) result }
    ensures register_read { IsRead (state R.Store register.old) (state R.Store register.new) result }
{
    let told = register_of(alloc, register, register_is)?;
    let closed = told.closed(alloc)?;
    let (setup, terminal) = office_of(alloc, conn, &closed, conn_is)?;
    check_terminal(&setup, &told, register_is)?;
    let nexts = nexts_of(alloc, conn, &told, conn_is)?;
    Ok(Opened {
        register: told,
        setup,
        terminal,
        nexts,
    })
}

/// The register in a file.
fn register_of<S: Alter>(
    alloc: Global,
    conn: &mut Connection<S>,
    file: File,
) -> Result<Register, CloseFault>
    ensures registered { HasCleanDisk (state S.Store conn.new) → IfOk result (λ register. (held : RegisterContent) →
        HasRegister held (state S.Store conn.old).now → IsSound held → register_content register ≡ held) }
    ensures sound { IfOk result (λ register. IsTrue (is_sound (register_content register))) }
    ensures fault { HasCleanDisk (state S.Store conn.new) → IfErr result (λ fault. (held : RegisterContent) →
        HasRegister held (state S.Store conn.old).now → IsSound held → IsOfThis file IsOfStore fault) }
    ensures read { IsRead (state S.Store conn.old) (state S.Store conn.new) result }
{
    match read_register(alloc, conn) {
        Ok(register) => Ok(register),
        Err(fault) => Err(CloseFault::File(FileFault { file, fault })),
    }
}

/// The office in a file, of which this is closed.
fn office_of<S: Alter>(
    alloc: Global,
    conn: &mut Connection<S>,
    closed: &Closed,
    file: File,
) -> Result<(Setup, Terminal), CloseFault>
    ensures loaded { HasCleanDisk (state S.Store conn.new) → (state S.Store conn.old).now.schema ≡ office_schema →
        IfOk result (λ p. LoadsOwn (closed_content closed.now) (state S.Store conn.old).now (setup_content p.0) p.1) }
    ensures few { IfOk result (λ p. length p.0.partners.items ≤ most_partners) }
    ensures fault { HasCleanDisk (state S.Store conn.new) → (state S.Store conn.old).now.schema ≡ office_schema →
        IfErr result (IsOfThis file (FailsToLoadOwn (closed_content closed.now) (state S.Store conn.old).now)) }
    ensures read { IsRead (state S.Store conn.old) (state S.Store conn.new) result }
{
    match load_own(alloc, conn, closed) {
        Ok(office) => Ok(office),
        Err(fault) => Err(CloseFault::File(FileFault { file, fault })),
    }
}

/// That the register in a file is of this set-up's terminal.
fn check_terminal(setup: &Setup, told: &Register, file: File) -> Result<(), CloseFault>
    ensures ok { OnOk result (is_of_terminal (setup_content setup.now).terminal (register_content told.now) ≡ true) }
    ensures err { IfErr result (IsOfThis file (IsOfOther (setup_content setup.now).terminal (register_content told.now))) }
{
    if told.is_of_terminal(setup.terminal.as_str()) {
        return Ok(());
    }
    let fault = TableFault::Damaged;
    Err(CloseFault::File(FileFault { file, fault }))
}

/// The next numbers of the accounts in a file, which is of no day before its register.
fn nexts_of<S: Alter>(
    alloc: Global,
    conn: &mut Connection<S>,
    told: &Register,
    file: File,
) -> Result<Vec<u32>, CloseFault>
    ensures answer { HasCleanDisk (state S.Store conn.new) → IfOk result (λ found. (rows : Rows) →
        HasRows rows (state S.Store conn.old).now → AreNexts rows found.items) }
    ensures of_day { IfOk result (λ found. is_newer_than found.items (register_content told.now) ≡ false) }
    ensures fault { HasCleanDisk (state S.Store conn.new) → IfErr result (λ fault. (rows : Rows) →
        HasRows rows (state S.Store conn.old).now →
        IsOfThis file (IsOfStoreOr (HaveNoNexts (register_content told.now) rows)) fault) }
    ensures read { IsRead (state S.Store conn.old) (state S.Store conn.new) result }
{
    match nexts(alloc, conn) {
        Ok(found) if told.is_newer_than(&found) => {
            let fault = TableFault::Damaged;
            Err(CloseFault::File(FileFault { file, fault }))
        }
        Ok(found) => Ok(found),
        Err(fault) => Err(CloseFault::File(FileFault { file, fault })),
    }
}

/// The lists that texts name which wait in the store.
fn waited_for<S: Alter>(
    alloc: Global,
    conn: &mut Connection<S>,
    own: &Opened,
) -> Result<Vec<NamedList>, CloseFault>
    requires few { length own.now.setup.partners.items ≤ most_partners }
    ensures named { HasCleanDisk (state S.Store conn.new) → IfOk result (λ lists. (rows : Rows) →
        HasRows rows (state S.Store conn.old).now → HaveNexts rows own.now.nexts.items →
        AreWaitedFor (setup_content own.now.setup) rows (map named_list_content lists.items)) }
    ensures few { IfOk result (λ _. length own.now.nexts.items ≤ most_partners) }
    ensures fault { HasCleanDisk (state S.Store conn.new) → IfErr result (λ fault. (rows : Rows) →
        HasRows rows (state S.Store conn.old).now → HaveNexts rows own.now.nexts.items →
        IsOfThis File.Store (IsOfStoreOr (HasUnread rows)) fault) }
    ensures read { IsReadIfOpen (state S.Store conn.old) (state S.Store conn.new) result }
{
    if own.nexts.len() > MOST_PARTNERS {
        return Err(of_store(TableFault::Damaged));
    }
    match lists_waited_for(alloc, conn, &own.setup, &own.nexts) {
        Ok(lists) => Ok(lists),
        Err(fault) => Err(of_store(fault)),
    }
}

/// A fault of the store's.
fn of_store(fault: TableFault) -> CloseFault
    ensures { result ≡ close_fault.File (record { file = File.Store; fault = fault }) }
{
    let file = File::Store;
    CloseFault::File(FileFault { file, fault })
}

/// That the archive keeps, under each number that this call closes, what the store keeps; and the seals of that. If the store's
/// register has the archive already, only what the archive keeps is sealed.
fn compare_all<S: Alter, A: Alter, O: Onlooker>(
    alloc: Global,
    onlooker: &O,
    store: &mut Connection<S>,
    archive: &mut Connection<A>,
    plan: &Plan,
) -> Result<Vec<u8>, CloseFault>
    ensures compared { HasCleanDisk (state S.Store store.new) → HasCleanDisk (state A.Store archive.new) →
        OnOk result ((held : Held) → HasRows held.own (state S.Store store.old).now →
        HasRows held.copy (state A.Store archive.old).now → AreKeptOnce held.own.interchanges →
        AreKeptOnce held.copy.interchanges → IsComparedIf plan.now held) }
    ensures sealed { HasCleanDisk (state S.Store store.new) → HasCleanDisk (state A.Store archive.new) →
        IfOk result (λ seals. (copy : Rows) → HasRows copy (state A.Store archive.old).now →
        AreKeptOnce copy.interchanges → seals.items ≡ seals_of copy plan.now.numbers.items) }
    ensures fault { HasCleanDisk (state S.Store store.new) → HasCleanDisk (state A.Store archive.new) →
        IfErr result (λ fault. (own copy : Rows) → HasRows own (state S.Store store.old).now →
        HasRows copy (state A.Store archive.old).now → AreKeptOnce own.interchanges → AreKeptOnce copy.interchanges →
        IsOfComparing own copy fault) }
    ensures store_read { IsReadIfOpen (state S.Store store.old) (state S.Store store.new) result }
    ensures archive_read { IsReadIfOpen (state A.Store archive.old) (state A.Store archive.new) result }
{
    let is_due = is_unraised(plan.stage);
    if is_due {
        compare_numbers(alloc, onlooker, store, archive, &plan.numbers)
    } else {
        seal_numbers(alloc, archive, &plan.numbers)
    }
}

/// The seals of what the archive keeps under these numbers.
fn seal_numbers<A: Alter>(
    alloc: Global,
    archive: &mut Connection<A>,
    numbers: &[Numbers],
) -> Result<Vec<u8>, CloseFault>
    ensures sealed { HasCleanDisk (state A.Store archive.new) → IfOk result (λ seals. (copy : Rows) →
        HasRows copy (state A.Store archive.old).now → AreKeptOnce copy.interchanges →
        seals.items ≡ seals_of copy numbers.now) }
    ensures fault { HasCleanDisk (state A.Store archive.new) → IfErr result (λ fault. (own copy : Rows) →
        HasRows copy (state A.Store archive.old).now → IsOfComparing own copy fault) }
    ensures archive_read { IsReadIfOpen (state A.Store archive.old) (state A.Store archive.new) result }
{
    match seals_of(alloc, archive, numbers) {
        Ok(seals) => Ok(seals),
        Err(fault) => {
            let file = File::Archive;
            Err(CloseFault::Comparing(FileFault { file, fault }))
        }
    }
}

/// That the archive keeps under these numbers what the store keeps; and the seals of that.
fn compare_numbers<S: Alter, A: Alter, O: Onlooker>(
    alloc: Global,
    onlooker: &O,
    store: &mut Connection<S>,
    archive: &mut Connection<A>,
    numbers: &[Numbers],
) -> Result<Vec<u8>, CloseFault>
    ensures compared { HasCleanDisk (state S.Store store.new) → HasCleanDisk (state A.Store archive.new) →
        OnOk result ((own copy : Rows) → HasRows own (state S.Store store.old).now →
        HasRows copy (state A.Store archive.old).now → AreKeptOnce own.interchanges → AreKeptOnce copy.interchanges →
        IsComparedAs numbers.now own copy None) }
    ensures sealed { HasCleanDisk (state S.Store store.new) → HasCleanDisk (state A.Store archive.new) →
        IfOk result (λ seals. (copy : Rows) → HasRows copy (state A.Store archive.old).now →
        AreKeptOnce copy.interchanges → seals.items ≡ seals_of copy numbers.now) }
    ensures fault { HasCleanDisk (state S.Store store.new) → HasCleanDisk (state A.Store archive.new) →
        IfErr result (λ fault. (own copy : Rows) → HasRows own (state S.Store store.old).now →
        HasRows copy (state A.Store archive.old).now → AreKeptOnce own.interchanges → AreKeptOnce copy.interchanges →
        IsOfComparing own copy fault) }
    ensures store_read { IsReadIfOpen (state S.Store store.old) (state S.Store store.new) result }
    ensures archive_read { IsReadIfOpen (state A.Store archive.old) (state A.Store archive.new) result }
{
    match compare(alloc, onlooker, store, archive, numbers) {
        Ok(Compared::Alike(seals)) => Ok(seals),
        Ok(Compared::Differs(difference)) => {
            Err(CloseFault::Archive(Refusal::Interchange(difference)))
        }
        Err(fault) => Err(CloseFault::Comparing(fault)),
    }
}

/// The plan with the seals of what it closes. If the store's register has the archive already, they are those that it was
/// sealed with, if it was.
fn seal_plan(plan: Plan, seals: Vec<u8>) -> Result<Plan, CloseFault>
    ensures ok { IfOk result (IsSealedPlan plan seals.items) }
    ensures err { IfErr result (IsOfSealing plan seals.items) }
{
    let is_due = is_unraised(plan.stage);
    if is_due {
        return Ok(sealed_plan(plan, seals)?);
    }
    if are_sealed_as(&plan.sealed, &seals) {
        Ok(plan)
    } else {
        Err(CloseFault::Archive(Refusal::Seals))
    }
}

/// The plan with these seals of what it closes.
fn sealed_plan(plan: Plan, seals: Vec<u8>) -> Result<Plan, AllocError>
    ensures sealed { IfOk result (λ sealed. length plan.sealed.items ≤ 1 → map sealed_content sealed.sealed.items
        ≡ map (λ one. with_seals seals.items (sealed_content one)) plan.sealed.items) }
    ensures rest { IfOk result (λ sealed. sealed ≡ record plan { sealed = sealed.sealed }) }
{
    let sealed = with_seals(plan.sealed, seals)?;
    Ok(Plan {
        numbers: plan.numbers,
        visits: plan.visits,
        archive: plan.archive,
        segments: plan.segments,
        lists: plan.lists,
        gone: plan.gone,
        taken: plan.taken,
        sealed,
        stage: plan.stage,
    })
}

/// What is sealed with an archive, as yet without seals, with these; one at most.
fn with_seals(
    mut sealed: Vec<SealedArchive>,
    seals: Vec<u8>,
) -> Result<Vec<SealedArchive>, AllocError>
    ensures { IfOk result (λ all. length sealed.items ≤ 1 → map sealed_content all.items
        ≡ map (λ one. with_seals seals.items (sealed_content one)) sealed.items) }
{
    if let Some(one) = sealed.pop() {
        let SealedArchive {
            archive,
            terminal,
            seals: _,
        } = one;
        sealed.push(SealedArchive {
            archive,
            terminal,
            seals,
        })?;
    }
    Ok(sealed)
}

/// Whether these are the seals of what was sealed.
fn are_sealed_as(sealed: &[SealedArchive], seals: &[u8]) -> bool
    ensures { result ≡ list_all (λ (one : SealedContent). bytes_eq one.seals seals.now) (map sealed_content sealed.now) }
{
    for one in sealed {
        if one.seals.as_slice() != seals {
            return false;
        }
    }
    true
}

/// That the archive's texts, beyond what the store's register closes, are the first of the store's, in the order in which they
/// arrived; and all of them, if the closing begins and closes no number.
fn check_order<S: Alter, A: Alter>(
    alloc: Global,
    store: &mut Connection<S>,
    archive: &mut Connection<A>,
    own: &Opened,
    plan: &Plan,
) -> Result<(), CloseFault>
    requires { IsTrue (is_sound (register_content own.now.register)) }
    ensures texts { HasCleanDisk (state S.Store store.new) → HasCleanDisk (state A.Store archive.new) →
        OnOk result ((rows copy : Rows) → HasRows rows (state S.Store store.old).now →
        HasRows copy (state A.Store archive.old).now →
        StandInOrder rows.interchanges ((state S.Store store.old).now.trees 2) →
        StandInOrder copy.interchanges ((state A.Store archive.old).now.trees 2) →
        HasTexts (WantsAll plan.now) (last_closed (register_content own.now.register).segments) rows copy) }
    ensures fault { HasCleanDisk (state S.Store store.new) → HasCleanDisk (state A.Store archive.new) →
        IfErr result (λ fault. (rows copy : Rows) → HasRows rows (state S.Store store.old).now →
        HasRows copy (state A.Store archive.old).now →
        IsOfOrdering (WantsAll plan.now) (last_closed (register_content own.now.register).segments) rows copy
        (state S.Store store.old).now (state A.Store archive.old).now fault) }
    ensures store_read { IsRead (state S.Store store.old) (state S.Store store.new) result }
    ensures archive_read { IsRead (state A.Store archive.old) (state A.Store archive.new) result }
{
    let closed = own.register.closed(alloc)?;
    match likeness_of_texts(store, archive, &closed) {
        Ok(told) => {
            if is_copied(told, plan) {
                Ok(())
            } else {
                Err(CloseFault::Archive(Refusal::Order))
            }
        }
        Err(fault) => Err(CloseFault::Comparing(fault)),
    }
}

/// Whether an archive whose texts stand so to the store's may close what is planned.
fn is_copied(told: Likeness, plan: &Plan) -> bool
    ensures { (last_closed : ℕ → ℕ) (own copy : Rows) → IsTold last_closed own copy told →
        ((result ≡ true) ↔ HasTexts (WantsAll plan.now) last_closed own copy) }
{
    match told {
        Likeness::Same => true,
        Likeness::First => !wants_all(plan),
        Likeness::Other => false,
    }
}

/// Whether the archive's texts have to be all of the store's: if the closing begins, and closes no number.
fn wants_all(plan: &Plan) -> bool
    ensures { (result ≡ true) ↔ WantsAll plan.now }
{
    is_unraised(plan.stage) && plan.segments.is_empty()
}

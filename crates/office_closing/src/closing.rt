ghost use Rattle.std.specs.Prelude.{◌≡◌, ◌<◌, ◌≤◌, ◌+◌, ◌-◌, [], ◌∷◌, false, map, min, true, IfOk, IfErr};
ghost use Rattle.edi_messages.specs.Owned.{call_content};
ghost use Rattle.office_closing.specs.{Clearing.{Clears, most_at_once, IsWithoutSome, IsWithoutSomeLists, IsWithoutSomeVisits}, Judging.AreResting};
ghost use Rattle.office_closing.specs.{Files.{AreClean, AreIdle, files}, Closes.{ArePutAway, Closes, IsLeft, cleared, closing_content}, Refusing.IsFileOf};
ghost use Rattle.office_closing.specs.{Deleting.{Deletes, all_but, goes, is_one_of, without_interchange, without_visits}, Lists.list_content};
ghost use Rattle.office_closing.specs.{Steps.{StepsIf, is_unmarked, is_unraised}, Changes.{closed_with, marked_for, unchanged, unmarked}};
ghost use Rattle.office_closing.specs.Register.{archive_content, sealed_content};
ghost use Rattle.office_parts.specs.{Bringing.is_list, OwnLists.{list_name, rows_without_lists}, LeftOver.rows_without};
ghost use Rattle.sqlite.specs.Held.{state};
ghost use Rattle.office_closing.specs.declared.faults.CloseFault.TheVariants as close_fault;

use crate::comparing::Numbers;
use crate::faults::{CloseFault, File, FileFault};
use crate::judging::judge;
use crate::planning::{Plan, PutAway, Stage, is_unmarked, is_unraised, put_away};
use crate::{
    Archive, SealedArchive, Segment, SettledList, characters, close_with, mark, side_code,
};
use edi_messages::Call;
use office_loading::{Onlooker, Step};
use office_tables::{TableFault, commit, integer};
use sqlite::{Alter, Connection, Transaction};
use std::alloc::Global;
use terminal_core::Side;

/// Puts history of a store away: what an archive, a copy of the store of an earlier day, keeps as the store does goes from
/// the store. The archive is marked for the store first, then the store's register has the archive, and then rows go.
///
/// If it was stopped, it goes on when it is called again with the same files. It changes nothing if the archive is refused.
/// It answers what it puts away, with what went before it was stopped but for visits and lists that are gone.
pub fn close<S: Alter, R: Alter, A: Alter, M: Alter, O: Onlooker>(
    alloc: Global,
    onlooker: &O,
    store: &mut Connection<S>,
    register: &mut Connection<R>,
    archive: &mut Connection<A>,
    archive_register: &mut Connection<M>,
    store_file: &str,
    archive_file: &str,
) -> Result<PutAway, CloseFault>
    requires idle { AreIdle (files S.Store R.Store A.Store M.Store store.old register.old archive.old archive_register.old) }
    ensures closes { Closes (record { store = store_file.now; archive = archive_file.now })
        (files S.Store R.Store A.Store M.Store store.old register.old archive.old archive_register.old)
        (files S.Store R.Store A.Store M.Store store.new register.new archive.new archive_register.new) result }

    // What was put away is what a closing of these files puts away.
    ensures put_away { AreClean (files S.Store R.Store A.Store M.Store store.new register.new archive.new archive_register.new) →
        IfOk result (ArePutAway (record { store = store_file.now; archive = archive_file.now })
        (files S.Store R.Store A.Store M.Store store.old register.old archive.old archive_register.old)) }
{
    check_idle(store, register, archive, archive_register);
    let plan = judge(
        alloc,
        onlooker,
        store,
        register,
        archive,
        archive_register,
        store_file,
        archive_file,
    )?;
    mark_archive(archive_register, plan.stage, store_file)?;
    raise(register, &plan)?;
    match clear_all(onlooker, store, &plan) {
        Ok(()) => Ok(put_away(plan)),
        Err(fault) => Err(not_written(File::Store, fault)),
    }
}

/// That a file could not be written.
fn not_written(file: File, fault: TableFault) -> CloseFault
    ensures { result ≡ close_fault.File (record { file = file; fault = fault }) }
{
    CloseFault::File(FileFault { file, fault })
}

/// That no transaction is open on any of the files.
fn check_idle<S: Alter, R: Alter, A: Alter, M: Alter>(
    store: &Connection<S>,
    register: &Connection<R>,
    archive: &Connection<A>,
    archive_register: &Connection<M>,
)
    requires { AreIdle (files S.Store R.Store A.Store M.Store store.now register.now archive.now archive_register.now) }
    ensures { AreResting (files S.Store R.Store A.Store M.Store store.now register.now archive.now archive_register.now) }
{
    let store_is = store.is_autocommit();
    let register_is = register.is_autocommit();
    let archive_is = archive.is_autocommit();
    let archive_register_is = archive_register.is_autocommit();
    prove!(store_is && register_is && archive_is && archive_register_is);
}

/// Marks the archive for the store, if it isn't.
fn mark_archive<S: Alter>(
    conn: &mut Connection<S>,
    stage: Stage,
    store_file: &str,
) -> Result<(), CloseFault>
    requires { (state S.Store conn.old).in_transaction ≡ false }
    ensures steps { StepsIf (is_unmarked stage) unmarked (marked_for store_file.now) (state S.Store conn.old)
        (state S.Store conn.new) result }
    ensures file { IfErr result (IsFileOf File.ArchiveRegister) }
{
    let is_due = is_unmarked(stage);
    if is_due {
        mark_now(conn, store_file)
    } else {
        Ok(())
    }
}

/// Marks the archive for the store.
fn mark_now<S: Alter>(conn: &mut Connection<S>, store_file: &str) -> Result<(), CloseFault>
    requires { (state S.Store conn.old).in_transaction ≡ false }
    ensures steps { StepsIf true unmarked (marked_for store_file.now) (state S.Store conn.old)
        (state S.Store conn.new) result }
    ensures file { IfErr result (IsFileOf File.ArchiveRegister) }
{
    match mark(conn, store_file) {
        Ok(()) => Ok(()),
        Err(fault) => Err(not_written(File::ArchiveRegister, fault)),
    }
}

/// Gives the store's register the archive, if it doesn't have it.
fn raise<S: Alter>(conn: &mut Connection<S>, plan: &Plan) -> Result<(), CloseFault>
    requires { (state S.Store conn.old).in_transaction ≡ false }
    ensures steps { StepsIf (is_unraised plan.now.stage) unchanged
        (closed_with (archive_content plan.now.archive) plan.now.segments.items (map list_content plan.now.lists.items) plan.now.taken.items
        (map sealed_content plan.now.sealed.items)) (state S.Store conn.old)
        (state S.Store conn.new) result }
    ensures file { IfErr result (IsFileOf File.Register) }
{
    let is_due = is_unraised(plan.stage);
    if is_due {
        raise_now(
            conn,
            &plan.archive,
            &plan.segments,
            &plan.lists,
            &plan.taken,
            &plan.sealed,
        )
    } else {
        Ok(())
    }
}

/// Gives the store's register an archive with its segments and lists, what had been taken, and what is sealed.
fn raise_now<S: Alter>(
    conn: &mut Connection<S>,
    archive: &Archive,
    segments: &[Segment],
    lists: &[SettledList],
    taken: &[Segment],
    sealed: &[SealedArchive],
) -> Result<(), CloseFault>
    requires { (state S.Store conn.old).in_transaction ≡ false }
    ensures steps { StepsIf true unchanged (closed_with (archive_content archive.now) segments.now (map list_content lists.now) taken.now
        (map sealed_content sealed.now))
        (state S.Store conn.old) (state S.Store conn.new) result }
    ensures file { IfErr result (IsFileOf File.Register) }
{
    match close_with(conn, archive, segments, lists, taken, sealed) {
        Ok(()) => Ok(()),
        Err(fault) => Err(not_written(File::Register, fault)),
    }
}

/// Deletes all that goes from the store, in short transactions.
fn clear_all<S: Alter, O: Onlooker>(
    onlooker: &O,
    conn: &mut Connection<S>,
    plan: &Plan,
) -> Result<(), TableFault>
    requires { (state S.Store conn.old).in_transaction ≡ false }
    ensures clears { Clears (cleared (closing_content plan.now)) (IsLeft (closing_content plan.now))
        (state S.Store conn.old) (state S.Store conn.new) result }
{
    clear(onlooker, conn, &plan.numbers)?;
    clear_visits(onlooker, conn, &plan.visits)?;
    clear_lists(onlooker, conn, &plan.gone)
}

/// The most interchanges that one transaction deletes.
const BATCH: u32 = 1000;

/// Deletes the interchanges under these numbers, in short transactions. What was deleted stays so if it fails, and it may be
/// called again.
pub fn clear<S: Alter, O: Onlooker>(
    onlooker: &O,
    conn: &mut Connection<S>,
    closing: &[Numbers],
) -> Result<(), TableFault>
    requires idle { (state S.Store conn.old).in_transaction ≡ false }
    ensures clears { Clears (rows_without (goes closing.now)) (IsWithoutSome (goes closing.now)) (state S.Store conn.old)
        (state S.Store conn.new) result }
{
    let is_idle = conn.is_autocommit();
    prove!(is_idle);
    for numbers in closing {
        clear_numbers(onlooker, conn, *numbers)?;
    }
    Ok(())
}

/// Deletes a partner's interchanges under its numbers.
fn clear_numbers<S: Alter, O: Onlooker>(
    onlooker: &O,
    conn: &mut Connection<S>,
    numbers: Numbers,
) -> Result<(), TableFault>
    requires idle { (state S.Store conn.old).in_transaction ≡ false }
    ensures clears { Clears (rows_without (goes (numbers ∷ []))) (IsWithoutSome (goes (numbers ∷ [])))
        (state S.Store conn.old) (state S.Store conn.new) result }
{
    let is_idle = conn.is_autocommit();
    prove!(is_idle);
    let mut from = numbers.from;
    while from < numbers.to {
        let to = batch_end(from, numbers.to);
        let batch = Numbers {
            partner: numbers.partner,
            from,
            to,
        };
        clear_batch(conn, batch)?;
        onlooker.passed(Step::Deleting, (to - from) as usize);
        from = to;
    }
    Ok(())
}

/// The last number of a batch of those above one and up to another.
fn batch_end(from: u32, to: u32) -> u32
    requires { from < to }
    ensures exact { result ≡ from + min (to - from) most_at_once }
    ensures above { from < result }
    ensures within { result ≤ to }
{
    from + (to - from).min(BATCH)
}

/// Deletes a partner's interchanges under its numbers in one transaction, wholly or not at all.
fn clear_batch<S: Alter>(conn: &mut Connection<S>, numbers: Numbers) -> Result<(), TableFault>
    requires idle { (state S.Store conn.old).in_transaction ≡ false }
    ensures clears { Clears (rows_without (goes (numbers ∷ []))) (IsWithoutSome (goes (numbers ∷ [])))
        (state S.Store conn.old) (state S.Store conn.new) result }
{
    let is_idle = conn.is_autocommit();
    prove!(is_idle);
    let mut tx = conn.transaction();
    delete_numbers(&mut tx, numbers)?;
    commit(tx)
}

/// Removes the rows of a partner's interchanges under its numbers.
fn delete_numbers<S: Alter>(tx: &mut Transaction<'_, S>, numbers: Numbers) -> Result<(), TableFault>
    ensures same_reference { tx.new.conn.ghost_name ≡ tx.old.conn.ghost_name }
    ensures deletes { Deletes (rows_without (goes (numbers ∷ []))) (state S.Store tx.old.conn.now)
        (state S.Store tx.new.conn.now) result }
{
    let mut number = numbers.from;
    while number < numbers.to {
        number += 1;
        delete_interchange(tx, numbers.partner, number)?;
    }
    Ok(())
}

/// Deletes the visits of these numbers, in short transactions. What was deleted stays so if it fails, and it may be called
/// again.
pub fn clear_visits<S: Alter, O: Onlooker>(
    onlooker: &O,
    conn: &mut Connection<S>,
    visits: &[u32],
) -> Result<(), TableFault>
    requires idle { (state S.Store conn.old).in_transaction ≡ false }
    ensures clears { Clears (without_visits visits.now) (IsWithoutSomeVisits (all_but visits.now)) (state S.Store conn.old)
        (state S.Store conn.new) result }
{
    let is_idle = conn.is_autocommit();
    prove!(is_idle);
    let mut rest = visits;
    while !rest.is_empty() {
        let (batch, behind) = rest.split_at(visit_batch(rest.len()));
        clear_visit_batch(conn, batch)?;
        onlooker.passed(Step::Deleting, batch.len());
        rest = behind;
    }
    Ok(())
}

/// The most visits that one transaction deletes.
const VISIT_BATCH: usize = 1000;

/// How many of the visits that are left the next transaction deletes.
fn visit_batch(left: usize) -> usize
    ensures { result ≡ min left most_at_once }
{
    left.min(VISIT_BATCH)
}

/// Deletes the visits of these numbers in one transaction, wholly or not at all.
fn clear_visit_batch<S: Alter>(conn: &mut Connection<S>, visits: &[u32]) -> Result<(), TableFault>
    requires idle { (state S.Store conn.old).in_transaction ≡ false }
    ensures clears { Clears (without_visits visits.now) (IsWithoutSomeVisits (all_but visits.now)) (state S.Store conn.old)
        (state S.Store conn.new) result }
{
    let is_idle = conn.is_autocommit();
    prove!(is_idle);
    let mut tx = conn.transaction();
    delete_visits(&mut tx, visits)?;
    commit(tx)
}

/// Removes the rows of the visits of these numbers.
fn delete_visits<S: Alter>(tx: &mut Transaction<'_, S>, visits: &[u32]) -> Result<(), TableFault>
    ensures same_reference { tx.new.conn.ghost_name ≡ tx.old.conn.ghost_name }
    ensures deletes { Deletes (without_visits visits.now) (state S.Store tx.old.conn.now) (state S.Store tx.new.conn.now)
        result }
{
    for visit in visits {
        delete_visit(tx, *visit)?;
    }
    Ok(())
}

/// Deletes the lines of these lists, those of each in a transaction. What was deleted stays so if it fails, and it may be called
/// again.
pub fn clear_lists<S: Alter, O: Onlooker>(
    onlooker: &O,
    conn: &mut Connection<S>,
    lists: &[SettledList],
) -> Result<(), TableFault>
    requires idle { (state S.Store conn.old).in_transaction ≡ false }
    ensures clears { Clears (rows_without_lists (is_one_of (map list_content lists.now)))
        (IsWithoutSomeLists (is_one_of (map list_content lists.now))) (state S.Store conn.old) (state S.Store conn.new)
        result }
{
    let is_idle = conn.is_autocommit();
    prove!(is_idle);
    for list in lists {
        clear_list(conn, list)?;
        onlooker.passed(Step::Deleting, 1);
    }
    Ok(())
}

/// Deletes the lines of a list in one transaction, wholly or not at all.
fn clear_list<S: Alter>(conn: &mut Connection<S>, list: &SettledList) -> Result<(), TableFault>
    requires idle { (state S.Store conn.old).in_transaction ≡ false }
    ensures clears { Clears (rows_without_lists (is_one_of (list_content list.now ∷ [])))
        (IsWithoutSomeLists (is_one_of (list_content list.now ∷ []))) (state S.Store conn.old) (state S.Store conn.new)
        result }
{
    let is_idle = conn.is_autocommit();
    prove!(is_idle);
    let mut tx = conn.transaction();
    delete_list(&mut tx, &list.call, list.side)?;
    commit(tx)
}

/// Removes the row of a partner's interchange.
pub fn delete_interchange<S: Alter>(
    tx: &mut Transaction<'_, S>,
    partner: u16,
    number: u32,
) -> Result<(), TableFault>
    ensures same_reference { tx.new.conn.ghost_name ≡ tx.old.conn.ghost_name }
    ensures deletes { Deletes (without_interchange partner number) (state S.Store tx.old.conn.now)
        (state S.Store tx.new.conn.now) result }
{
    tx.execute(
        "DELETE FROM interchange WHERE partner = ?1 AND number = ?2",
        &[integer(u32::from(partner)), integer(number)],
    )?;
    Ok(())
}

/// Removes the rows of the lines of a call's list.
pub fn delete_list<S: Alter>(
    tx: &mut Transaction<'_, S>,
    call: &Call,
    side: Side,
) -> Result<(), TableFault>
    ensures same_reference { tx.new.conn.ghost_name ≡ tx.old.conn.ghost_name }
    ensures deletes { Deletes (rows_without_lists (is_list (list_name (call_content call.now) side)))
        (state S.Store tx.old.conn.now) (state S.Store tx.new.conn.now) result }
{
    tx.execute(
        "DELETE FROM listed WHERE vessel = ?1 AND voyage = ?2 AND side = ?3",
        &[
            characters(call.vessel.as_str()),
            characters(call.voyage.as_str()),
            integer(side_code(side)),
        ],
    )?;
    Ok(())
}

/// Removes the row of a visit.
pub fn delete_visit<S: Alter>(tx: &mut Transaction<'_, S>, visit: u32) -> Result<(), TableFault>
    ensures same_reference { tx.new.conn.ghost_name ≡ tx.old.conn.ghost_name }
    ensures deletes { Deletes (without_visits (visit ∷ [])) (state S.Store tx.old.conn.now)
        (state S.Store tx.new.conn.now) result }
{
    tx.execute("DELETE FROM visit WHERE visit = ?1", &[integer(visit)])?;
    Ok(())
}

ghost use Rattle.std.specs.{Option.option_map, Prelude.{◌≡◌, ◌↔◌, ◌≤◌, ◌++◌, ◌∷◌, [], true, IfOk, IfErr, IsTrue, MatchOption, OnOk, length, map, string_bytes}};
ghost use Rattle.office_loading.specs.Closed.{last_closed};
ghost use Rattle.office_closing.specs.Copies.{AreAtMost, AreDoneIn, AreFirst, ComesOn, FileNames, IsNoLater, IsOfStore, IsReason, IsSameOffice, archive_in, numbers_from, numbers_of, office_content, segments_of};
ghost use Rattle.office_closing.specs.{Closes.{IsOfClosing, closing_content}, Steps.{is_unmarked, is_unraised}, Visits.AreToGo, declared.planning.Stage.Stage};
ghost use Rattle.office_closing.specs.Planning.{AreClosingLists, AreFor, IsHistory, IsMarkedAs, IsPlan, IsPlanOf, IsRefused, IsRefusedWith, IsSealedFor, IsTakenFor, IsToldBy};
ghost use Rattle.office_closing.specs.{Lists.list_content, Register.{archive_content, register_content, sealed_content}};
ghost use Rattle.office_parts.specs.Named.{named_list_content};
ghost use Rattle.office_admission.specs.{SetupAccounts.account_contents, Limits.most_partners};
ghost use Rattle.office_closing.specs.Sound as sound;

use crate::comparing::Numbers;
use crate::faults::{CloseFault, Refusal};
use crate::lists::{lists_in_both, lists_to_register};
use crate::sealed_archives::{SealedArchive, all_sealed_with};
use crate::taken::taken_to_register;
use crate::visits::visits_to_go;
use crate::{Archive, Register, Segment, SettledList, done_lists, is_file_name, is_sound};
use office_admission::{Account, MOST_PARTNERS, Setup};
use office_loading::{Closed, append};
use office_parts::NamedList;
use std::alloc::{AllocError, Global};
use terminal_core::{Terminal, newest_number};

/// What a store or an archive has.
#[derive(Drop)]
pub(crate) struct Opened {
    /// Which archives hold its history.
    pub register: Register,
    /// The terminal's code and the accounts.
    pub setup: Setup,
    /// The visits, and all else that stays.
    pub terminal: Terminal,
    /// The number of each account's next interchange, in the order of the ids: 1, 2 and so on.
    pub nexts: Vec<u32>,
}

/// How far a closing has come.
#[derive(Clone, Copy, Debug, PartialEq, Eq)]
pub enum Stage {
    /// Nothing was done.
    New,
    /// The archive is marked for the store.
    Marked,
    /// The store's register has the archive.
    Raised,
}

/// Whether the archive is still to be marked.
pub(crate) fn is_unmarked(stage: Stage) -> bool
    ensures { result ≡ is_unmarked stage }
{
    match stage {
        Stage::New => true,
        Stage::Marked => false,
        Stage::Raised => false,
    }
}

/// Whether the store's register is still to have the archive.
pub(crate) fn is_unraised(stage: Stage) -> bool
    ensures { result ≡ is_unraised stage }
{
    match stage {
        Stage::New => true,
        Stage::Marked => true,
        Stage::Raised => false,
    }
}

/// For which store a register is marked.
#[derive(Clone, Copy)]
enum Mark {
    /// For none.
    Absent,
    /// For this one.
    Own,
    /// For another.
    Other,
}

/// What a closing does.
#[derive(Drop)]
pub(crate) struct Plan {
    /// The numbers that it closes.
    pub numbers: Vec<Numbers>,
    /// The visits that go.
    pub visits: Vec<u32>,
    /// The archive as the store's register is to name it.
    pub archive: Archive,
    /// Its segments.
    pub segments: Vec<Segment>,
    /// The lists that the store's register has with it.
    pub lists: Vec<SettledList>,
    /// Those of them that go.
    pub gone: Vec<SettledList>,
    /// What the store's register has with it as taken.
    pub taken: Vec<Segment>,
    /// What the store's register has with it as sealed; the seals are made later.
    pub sealed: Vec<SealedArchive>,
    /// How far it has come.
    pub stage: Stage,
}

/// What a closing puts away.
#[derive(Drop)]
pub struct PutAway {
    /// The numbers that it closes, of each partner.
    pub numbers: Vec<Numbers>,
    /// How many visits go.
    pub visits: usize,
    /// How many lists go.
    pub lists: usize,
}

/// What a plan puts away.
pub(crate) fn put_away(plan: Plan) -> PutAway
    ensures { IsOfClosing (closing_content plan) result }
{
    PutAway {
        visits: plan.visits.len(),
        lists: plan.gone.len(),
        numbers: plan.numbers,
    }
}

/// What is to be closed by an archive, if it is a copy of the store. The lists that are named stay.
pub(crate) fn make_plan(
    alloc: Global,
    own: &Opened,
    copy: Opened,
    named: &[NamedList],
    store_file: &str,
    archive_file: &str,
) -> Result<Plan, CloseFault>
    requires sound { IsTrue (sound.is_sound (register_content copy.register)) }
    requires few { length own.now.nexts.items ≤ most_partners }
    ensures ok { IfOk result (IsPlan (office_content own.now) (office_content copy)
        (record { store = store_file.now; archive = archive_file.now }) (map named_list_content named.now) []) }
    ensures err { IfErr result (IsRefused (office_content own.now) (office_content copy)
        (record { store = store_file.now; archive = archive_file.now })) }
{
    check_office(own, &copy)?;
    let history = history_to_close(alloc, own, &copy, archive_file)?;
    let lists = lists_to_close(
        alloc,
        own,
        &copy,
        named,
        &history.segments,
        history.archive.place,
    )?;
    let stage = stage_of(
        alloc,
        own,
        copy,
        &history.archive,
        &history.segments,
        &lists.all,
        &history.taken,
        &history.sealed,
        store_file,
    )?;
    Ok(plan_of(history, lists, stage))
}

/// The history that a closing puts away, but for lists.
#[derive(Drop)]
struct History {
    /// The visits that go.
    visits: Vec<u32>,
    /// The numbers that are closed.
    numbers: Vec<Numbers>,
    /// The archive as the store's register is to name it.
    archive: Archive,
    /// Its segments.
    segments: Vec<Segment>,
    /// What the store's register has with it as taken.
    taken: Vec<Segment>,
    /// What the store's register has with it as sealed.
    sealed: Vec<SealedArchive>,
}

/// The lists of a closing.
#[derive(Drop)]
struct ClosingLists {
    /// Those that the store's register has with the archive.
    all: Vec<SettledList>,
    /// Those of them that go.
    gone: Vec<SettledList>,
}

/// The plan to put this away, from that stage.
fn plan_of(history: History, lists: ClosingLists, stage: Stage) -> Plan
    ensures { IsPlanOf history lists stage result }
{
    Plan {
        numbers: history.numbers,
        visits: history.visits,
        archive: history.archive,
        segments: history.segments,
        lists: lists.all,
        gone: lists.gone,
        taken: history.taken,
        sealed: history.sealed,
        stage,
    }
}

/// What goes of the store's visits and numbers, and the archive that has it.
fn history_to_close(
    alloc: Global,
    own: &Opened,
    copy: &Opened,
    archive_file: &str,
) -> Result<History, CloseFault>
    requires sound { IsTrue (sound.is_sound (register_content copy.now.register)) }
    requires few { length copy.now.nexts.items ≤ most_partners }
    requires few_own { length own.now.nexts.items ≤ most_partners }
    ensures ok { IfOk result (IsHistory (office_content own.now) (office_content copy.now) archive_file.now) }
    ensures err { IfErr result (λ fault. (names : FileNames) →
        IsRefused (office_content own.now) (office_content copy.now) names fault) }
{
    let visits = gone_visits(alloc, own, copy)?;
    let closed = copy.register.closed(alloc)?;
    let numbers = numbers_to_close(alloc, &closed, &copy.nexts)?;
    let archive = archive_in(alloc, copy, archive_file)?;
    let segments = segments_of(alloc, archive.place, &numbers)?;
    let taken = taken_to_register(alloc, own, copy, archive.place)?;
    let sealed = sealed_to_register(alloc, own, copy, archive.place)?;
    Ok(History {
        visits,
        numbers,
        archive,
        segments,
        taken,
        sealed,
    })
}

/// The lists that the store's register has with an archive, and those of them that go.
fn lists_to_close(
    alloc: Global,
    own: &Opened,
    copy: &Opened,
    named: &[NamedList],
    segments: &[Segment],
    archive: u16,
) -> Result<ClosingLists, AllocError>
    ensures { IfOk result (AreClosingLists (office_content own.now) (office_content copy.now)
        (map named_list_content named.now) segments.now archive) }
{
    let done = lists_that_go(alloc, own, named, segments, archive)?;
    let all = lists_to_register(alloc, own, copy, &done, archive)?;
    let gone = lists_in_both(alloc, &done, &all)?;
    Ok(ClosingLists { all, gone })
}

/// The lists that go with an archive of these segments: those that are done, but none if it closes no numbers.
fn lists_that_go(
    alloc: Global,
    own: &Opened,
    named: &[NamedList],
    segments: &[Segment],
    archive: u16,
) -> Result<Vec<SettledList>, AllocError>
    ensures { IfOk result (λ done. AreDoneIn own.now.terminal (map named_list_content named.now) segments.now archive
        (map list_content done.items)) }
{
    let lines = own.terminal.lines();
    if segments.is_empty() {
        return Ok(Vec::new(alloc));
    }
    done_lists(alloc, lines, named, archive)
}

/// That the archive is of the store's terminal and of no later day, and the store no archive itself.
fn check_office(own: &Opened, copy: &Opened) -> Result<(), Refusal>
    ensures ok { OnOk result (IsOfStore (office_content own.now) (office_content copy.now)) }
    ensures err { IfErr result (λ why. (names : FileNames) →
        IsReason (office_content own.now) (office_content copy.now) names why) }
{
    if own.register.closed_for.is_some() {
        return Err(Refusal::Closed);
    }
    if !is_same_office(own, copy) {
        return Err(Refusal::Office);
    }
    if !is_no_later(own, copy) {
        return Err(Refusal::Later);
    }
    Ok(())
}

fn is_same_office(own: &Opened, copy: &Opened) -> bool
    ensures { (result ≡ true) ↔ IsSameOffice (office_content own.now) (office_content copy.now) }
{
    copy.setup.terminal.as_bytes() == own.setup.terminal.as_bytes()
        && are_first_accounts(
            copy.setup.partners.as_slice(),
            own.setup.partners.as_slice(),
        )
        && copy.nexts.len() <= MOST_PARTNERS
}

/// Whether these accounts are the first of those: the same codes and kinds, in the same order.
pub fn are_first_accounts(accounts: &[Account], others: &[Account]) -> bool
    ensures { (result ≡ true) ↔ AreFirst (account_contents accounts.now) (account_contents others.now) }
{
    if accounts.len() > others.len() {
        return false;
    }
    for (index, account) in accounts.iter().enumerate() {
        if !is_same_account(account, &others[index]) {
            return false;
        }
    }
    true
}

fn is_same_account(one: &Account, other: &Account) -> bool
    ensures { (result ≡ true)
        ↔ ((string_bytes one.now.code ≡ string_bytes other.now.code) × (one.now.kind ≡ other.now.kind)) }
{
    one.code.as_bytes() == other.code.as_bytes() && one.kind == other.kind
}

fn is_no_later(own: &Opened, copy: &Opened) -> bool
    ensures { (result ≡ true) ↔ IsNoLater (office_content own.now) (office_content copy.now) }
{
    are_at_most(&copy.nexts, &own.nexts)
        && newest_number(copy.terminal.visits()) <= newest_number(own.terminal.visits())
}

/// Whether each of these numbers is at most the one at its place there.
fn are_at_most(numbers: &[u32], others: &[u32]) -> bool
    ensures { (result ≡ true) ↔ AreAtMost numbers.now others.now }
{
    if numbers.len() > others.len() {
        return false;
    }
    for (index, number) in numbers.iter().enumerate() {
        if *number > others[index] {
            return false;
        }
    }
    true
}

/// The visits that go.
fn gone_visits(alloc: Global, own: &Opened, copy: &Opened) -> Result<Vec<u32>, CloseFault>
    ensures ok { IfOk result
        (λ numbers. AreToGo own.now.terminal.visits copy.now.terminal.visits numbers.items) }
    ensures err { IfErr result (λ fault. (names : FileNames) →
        IsRefused (office_content own.now) (office_content copy.now) names fault) }
{
    let numbers = visits_to_go(alloc, own.terminal.visits(), copy.terminal.visits())?;
    Ok(numbers)
}

/// What is closed of each account.
pub(crate) fn numbers_to_close(
    alloc: Global,
    closed: &Closed,
    nexts: &[u32],
) -> Result<Vec<Numbers>, AllocError>
    requires { length nexts.now ≤ most_partners }
    ensures { IfOk result (λ numbers. numbers.items ≡ numbers_from (last_closed closed.now) 1 nexts.now) }
{
    let mut numbers = Vec::new(alloc);
    for (index, next) in nexts.iter().enumerate() {
        let partner = index as u16 + 1;
        let from = closed.last_of(u32::from(partner));
        let to = next.saturating_sub(1);
        append(&mut numbers, Numbers { partner, from, to })?;
    }
    Ok(numbers)
}

/// The archive as the store's register is to name it.
fn archive_in(alloc: Global, copy: &Opened, file: &str) -> Result<Archive, AllocError>
    requires { IsTrue (sound.is_sound (register_content copy.now.register)) }
    ensures { IfOk result (λ archive. archive_content archive ≡ archive_in file.now (office_content copy.now)) }
{
    let place = copy.register.archives.len() as u16 + 1;
    let visits = newest_number(copy.terminal.visits());
    let file = String::from_str(alloc, file)?;
    Ok(Archive {
        place,
        file,
        visits,
    })
}

/// What the store's register is to get as sealed with an archive, as yet without seals. If it has other archives than the
/// archive's own register, as a closing leaves it that was stopped, what it has with this one.
fn sealed_to_register(
    alloc: Global,
    own: &Opened,
    copy: &Opened,
    archive: u16,
) -> Result<Vec<SealedArchive>, AllocError>
    ensures { IfOk result (λ sealed. IsSealedFor (office_content own.now) (office_content copy.now) archive
        (map sealed_content sealed.items)) }
{
    if !copy.register.tells_same(&own.register) {
        return all_sealed_with(alloc, &own.register.sealed, archive);
    }
    let terminal = String::from_str(alloc, own.setup.terminal.as_str())?;
    let mut sealed = Vec::new(alloc);
    sealed.push(SealedArchive {
        archive,
        terminal,
        seals: Vec::new(alloc),
    })?;
    Ok(sealed)
}

/// The segments of an archive that closes these numbers.
pub(crate) fn segments_of(
    alloc: Global,
    place: u16,
    numbers: &[Numbers],
) -> Result<Vec<Segment>, AllocError>
    ensures { IfOk result (λ segments. segments.items ≡ segments_of place numbers.now) }
{
    let mut segments = Vec::new(alloc);
    for closed in numbers {
        if closed.from < closed.to {
            let segment = Segment {
                partner: closed.partner,
                archive: place,
                last: closed.to,
            };
            append(&mut segments, segment)?;
        }
    }
    Ok(segments)
}

/// How far the closing has come.
fn stage_of(
    alloc: Global,
    own: &Opened,
    copy: Opened,
    archive: &Archive,
    segments: &[Segment],
    lists: &[SettledList],
    taken: &[Segment],
    sealed: &[SealedArchive],
    store_file: &str,
) -> Result<Stage, CloseFault>
    requires unclosed { option_map string_bytes own.now.register.closed_for ≡ None }
    requires archive { archive_content archive.now ≡ archive_in (archive_content archive.now).file (office_content copy) }
    requires segments { segments.now ≡ segments_of (archive_content archive.now).place (numbers_of (office_content copy)) }
    requires taken { IsTakenFor (office_content own.now) (office_content copy) (archive_content archive.now).place taken.now }
    requires sealed { IsSealedFor (office_content own.now) (office_content copy) (archive_content archive.now).place
        (map sealed_content sealed.now) }
    ensures ok { IfOk result (λ stage. (names : FileNames) → names.store ≡ store_file.now →
        names.archive ≡ (archive_content archive.now).file →
        ComesOn (office_content own.now) (office_content copy) names (map list_content lists.now) stage) }
    ensures err { IfErr result (λ fault. (names : FileNames) (done : _) → names.store ≡ store_file.now →
        names.archive ≡ (archive_content archive.now).file →
        AreFor (office_content own.now) (office_content copy) archive.now.place done (map list_content lists.now) →
        IsRefusedWith (office_content own.now) (office_content copy) names done fault) }
{
    let is_same = copy.register.tells_same(&own.register);
    let mark = mark_of(&copy.register.closed_for, store_file);
    let raised = copy
        .register
        .with_closing(alloc, archive, segments, lists, taken, sealed)?;
    let may = is_sound(alloc, &raised)? && is_file_name(store_file.as_bytes());
    let has_archive = raised.tells_same(&own.register);
    match come_so_far(is_same, has_archive, mark) {
        Some(stage) if may => Ok(stage),
        _ => Err(CloseFault::Archive(Refusal::Register)),
    }
}

/// What the registers and the mark say of it, if they agree.
fn come_so_far(is_same: bool, has_archive: bool, mark: Mark) -> Option<Stage>
    ensures { MatchOption result ((come : Stage) → ¬ IsToldBy is_same has_archive mark come)
        (IsToldBy is_same has_archive mark) }
{
    match mark {
        Mark::Absent => { if is_same { Some(Stage::New) } else { None } }
        Mark::Own => {
            if is_same {
                Some(Stage::Marked)
            } else if has_archive {
                Some(Stage::Raised)
            } else {
                None
            }
        }
        Mark::Other => None,
    }
}

/// For which store a register is marked.
fn mark_of(closed_for: &Option<String>, store_file: &str) -> Mark
    ensures { IsMarkedAs (option_map string_bytes closed_for.now) store_file.now result }
{
    match closed_for {
        None => Mark::Absent,
        Some(file) => {
            if file.as_bytes() == store_file.as_bytes() {
                Mark::Own
            } else {
                Mark::Other
            }
        }
    }
}

ghost use Rattle.std.specs.Prelude.{◌≡◌, None, Some, false, IfOk, IsTrue, OnOk, ◌≤◌, IfErr, ◌+◌, List, MatchOption, length, map, nat_lt, if◌then◌else◌};
ghost use Rattle.office_admission.specs.{Accounts.{AccountPair, account_answer, added_as, by_number, by_own_kind, refused_for}, Given.IsGiven};
ghost use Rattle.office_admission.specs.{Kinds.kind_named, Limits.most_partners, Parties.partner_from, PartyCodes.is_party_code, Setups.setup_content};
ghost use Rattle.office_loading.specs.Closed.{ClosedContent, closed_content};
ghost use Rattle.office_tables.specs.{DeliveryReading.OnlyReads, Writing.{EndsIdle, IsWholeInOrder, WritesWhole}};
ghost use Rattle.office_desk.specs.{Accounts.standing_content, Answers.answer_by_model, Finding.{IsFound, IsNotFound, IsOpenIfKept}, Noting.IsNow};
ghost use Rattle.office_desk.specs.{Order.{RunsInOrder, TakesInOrder}, Taking.{IsDelivered, IsNew, TakesDelivery, TakesRun}, Telling.delivery_of};
ghost use Rattle.office_replies.specs.Contents.{content_of};
ghost use Rattle.office_rows.specs.Effects.{with_waiting};
ghost use Rattle.partner_core.specs.{Answers.Waiting, Numbered.with_number};
ghost use Rattle.sqlite.specs.{Held.state, State.{HasCleanDisk, Survives}};
ghost use Rattle.office_replies.specs.declared.accounts.AccountFault.TheVariants as fault;

use crate::accounts::AccountStanding;
use crate::answers::{answer_used, answer_waiting};
use crate::beside::{Beside, beside_of};
use edi_messages::PartnerKind;
use office_admission::{Admitted, MOST_PARTNERS, Setup, Tally, kind_named, party_code};
use office_loading::Closed;
use office_replies::{AccountFault, Response, taken_body};
use office_tables::{Kept, TableFault, kept, take_run, write_early, write_run};
use sqlite::{Alter, Connection};
use std::alloc::Global;

/// A partner's text that was delivered and admitted.
#[derive(Drop)]
pub(crate) struct Delivery<'a> {
    /// The code of its partner's account.
    pub(crate) code: &'a str,
    /// The interchange that it is, and its partner.
    pub(crate) admitted: Admitted<'a>,
    /// The number of the interchange.
    pub(crate) number: u32,
    /// The text, without the CR and LF at both ends.
    pub(crate) text: &'a [u8],
}

/// Answers a partner's text by what is kept, and keeps and takes it if it is new. If it is taken, `last_taken` says
/// what became of it and of those that had waited for it.
pub(crate) fn take_in<S: Alter>(
    alloc: Global,
    conn: &mut Connection<S>,
    setup: &Setup,
    closed: &Closed,
    beside: &mut Option<Beside>,
    delivery: &Delivery<'_>,
    last_taken: &mut Tally,
) -> Result<Response, TableFault>
    requires idle { (state S.Store conn.old).in_transaction ≡ false }
    requires given { IsGiven (setup_content setup.now) }
    requires delivered { IsDelivered setup.now delivery.now }
    ensures ends { EndsIdle (state S.Store conn.old) (state S.Store conn.new) }
    ensures now { IfOk result IsNow }
    ensures is_open { HasCleanDisk (state S.Store conn.new) → OnOk result (IsTrue (state S.Store conn.new).is_open) }
    ensures takes { TakesDelivery (closed_content closed.now) (setup_content setup.now) (delivery_of delivery.now) delivery.now.code.now
        (state S.Store conn.old) beside.old result (state S.Store conn.new) beside.new }
    ensures in_order { TakesInOrder (setup_content setup.now) (delivery_of delivery.now) (state S.Store conn.old)
        beside.old result (state S.Store conn.new) }
{
    let is_idle = conn.is_autocommit();
    prove!(is_idle);
    let partner = delivery.admitted.partner;
    let Found { kept, next, there } = look(alloc, conn, closed, beside, partner, delivery.number)?;
    match kept {
        Some(kept) => {
            *beside = Some(there);
            Ok(answer_used(alloc, kept, next, delivery)?)
        }
        None => take_new(
            alloc, conn, setup, beside, there, next, delivery, last_taken,
        ),
    }
}

/// Keeps a text under a number that is not used, and takes it if it is next. A run that fails leaves nothing beside
/// the tables, so that what it did there is loaded again.
fn take_new<S: Alter>(
    alloc: Global,
    conn: &mut Connection<S>,
    setup: &Setup,
    beside: &mut Option<Beside>,
    there: Beside,
    next: u32,
    delivery: &Delivery<'_>,
    last_taken: &mut Tally,
) -> Result<Response, TableFault>
    requires idle { (state S.Store conn.old).in_transaction ≡ false }
    requires given { IsGiven (setup_content setup.now) }
    requires delivered { IsDelivered setup.now delivery.now }
    requires next { with_number there.nexts.items delivery.now.admitted.partner ≡ Some next }
    requires out { beside.old ≡ None }
    ensures ends { EndsIdle (state S.Store conn.old) (state S.Store conn.new) }
    ensures now { IfOk result IsNow }
    ensures is_open { HasCleanDisk (state S.Store conn.new) → OnOk result (IsTrue (state S.Store conn.new).is_open) }
    ensures takes { (closed : ClosedContent) → IsNew closed (delivery_of delivery.now) there (state S.Store conn.old) →
        TakesDelivery closed (setup_content setup.now) (delivery_of delivery.now) delivery.now.code.now
        (state S.Store conn.old) (Some there) result (state S.Store conn.new) beside.new }
    ensures in_order { (closed : ClosedContent) → IsNew closed (delivery_of delivery.now) there (state S.Store conn.old) →
        TakesInOrder (setup_content setup.now) (delivery_of delivery.now) (state S.Store conn.old)
        (Some there) result (state S.Store conn.new) }
{
    if delivery.number < next {
        return Err(TableFault::Damaged);
    }
    if next < delivery.number {
        *beside = Some(there);
        return keep_early(alloc, conn, next, delivery);
    }
    let (answer, now) = take_next(alloc, conn, setup, there, delivery, last_taken)?;
    *beside = Some(now);
    Ok(answer)
}

/// What a delivery is answered by.
#[derive(Drop)]
pub struct Found {
    /// What is kept under its number.
    pub kept: Option<Kept>,
    /// The number of its partner's next interchange.
    pub next: u32,
    /// What is kept in memory beside the tables.
    pub there: Beside,
}

/// Finds what a delivery is answered by: what the tables keep under its number, its partner's next number, and the
/// terminal and next numbers in memory (`Beside`), which it takes out of `beside`, or loads if there are none. It
/// changes no row.
///
/// A number that is next is not looked up: an office keeps nothing under it. If another program wrote a text there
/// since the opening, the table's key refuses the delivered one: the answer is NotNow, and nothing changes.
pub(crate) fn look<S: Alter>(
    alloc: Global,
    conn: &mut Connection<S>,
    closed: &Closed,
    beside: &mut Option<Beside>,
    partner: u16,
    number: u32,
) -> Result<Found, TableFault>
    requires { 1 ≤ partner }
    ensures next { IfOk result (λ found. with_number found.there.nexts.items partner ≡ Some found.next) }
    ensures out { OnOk result (beside.new ≡ None) }
    ensures found { HasCleanDisk (state S.Store conn.new) →
        IfOk result (IsFound (closed_content closed.now) partner number (state S.Store conn.old).now beside.old) }
    ensures not_found { HasCleanDisk (state S.Store conn.new) → IfErr result
        (λ fault. IsNotFound (closed_content closed.now) partner number (state S.Store conn.old).now beside.old fault
        beside.new) }
    ensures is_open { HasCleanDisk (state S.Store conn.new) →
        IfOk result (λ found. IsOpenIfKept found.kept (state S.Store conn.new)) }
    ensures reads { OnlyReads (state S.Store conn.old) (state S.Store conn.new) result }
{
    let there = beside_of(alloc, conn, closed, beside.take())?;
    let Some(next) = there.next_of(partner) else {
        return Err(TableFault::Damaged);
    };
    if number == next {
        return Ok(Found {
            kept: None,
            next,
            there,
        });
    }
    match kept(conn, partner, number) {
        Ok(kept) => Ok(Found { kept, next, there }),
        Err(fault) => {
            *beside = Some(there);
            Err(fault)
        }
    }
}

/// A code and a kind as they came, if they are of a partner's form.
pub(crate) fn account_from<'a>(code: &'a [u8], kind: &[u8]) -> Option<(&'a str, PartnerKind)>
    ensures { MatchOption result
        ((accounts : List AccountPair) → account_answer accounts code.now kind.now ≡ refused_for fault.Partner)
        (λ p. (p.0.now ≡ code.now) × IsTrue (is_party_code p.0.now) × (kind_named kind.now ≡ Some p.1)) }
{
    let code = party_code(code)?;
    let kind = kind_named(kind)?;
    Some((code, kind))
}

/// Whether an account is new, known or refused, by those of a set-up, a code and a kind of a partner's form.
pub(crate) fn judge_account(setup: &Setup, code: &str, kind: PartnerKind) -> AccountStanding
    requires { length setup.now.partners.items ≤ most_partners }
    ensures { standing_content result ≡ by_number (setup_content setup.now).partners kind
        (partner_from 1 code.now (map (λ (account : AccountPair). account.0) (setup_content setup.now).partners)) }
{
    let accounts = setup.partners.as_slice();
    match setup.partners.index_called(code) {
        Some(index) => judge_known(accounts[index].kind, kind, index as u16 + 1),
        None => judge_new(accounts.len()),
    }
}

/// A code that has an account, under an id.
fn judge_known(own: PartnerKind, kind: PartnerKind, id: u16) -> AccountStanding
    ensures { standing_content result ≡ by_own_kind id kind (Some own) }
{
    match (kind, own) {
        (PartnerKind::Gate, PartnerKind::Gate)
        | (PartnerKind::Line, PartnerKind::Line)
        | (PartnerKind::Quay, PartnerKind::Quay)
        | (PartnerKind::Yard, PartnerKind::Yard) => AccountStanding::Known(id),
        _ => AccountStanding::Refused(AccountFault::Kind),
    }
}

/// A code that is new, where there are that many accounts.
fn judge_new(count: usize) -> AccountStanding
    requires { count ≤ most_partners }
    ensures { standing_content result ≡ (if nat_lt count most_partners then added_as (count + 1) else refused_for fault.Accounts) }
{
    if count < MOST_PARTNERS {
        AccountStanding::New(count as u16 + 1)
    } else {
        AccountStanding::Refused(AccountFault::Accounts)
    }
}

/// Keeps a text whose number is beyond the partner's next.
pub(crate) fn keep_early<S: Alter>(
    alloc: Global,
    conn: &mut Connection<S>,
    next: u32,
    delivery: &Delivery<'_>,
) -> Result<Response, TableFault>
    requires idle { (state S.Store conn.old).in_transaction ≡ false }
    ensures told { IfOk result (λ response.
        content_of response ≡ answer_by_model delivery.now.code.now delivery.now.number (Waiting next)) }
    ensures writes { WritesWhole (with_waiting delivery.now.admitted.partner delivery.now.number delivery.now.text.now)
        (state S.Store conn.old) (state S.Store conn.new) result }
    ensures crash_in_order { Survives (state S.Store conn.old) (state S.Store conn.new)
        (IsWholeInOrder (with_waiting delivery.now.admitted.partner delivery.now.number delivery.now.text.now)
        (state S.Store conn.old)) }
{
    let partner = delivery.admitted.partner;
    let answer = answer_waiting(alloc, next, delivery)?;
    write_early(conn, partner, delivery.number, delivery.text)?;
    Ok(answer)
}

/// Takes a partner's next interchange and those that become next by it, and answers what they leave in memory beside
/// the tables. Once they are written, `last_taken` says what became of them.
pub(crate) fn take_next<S: Alter>(
    alloc: Global,
    conn: &mut Connection<S>,
    setup: &Setup,
    beside: Beside,
    delivery: &Delivery<'_>,
    last_taken: &mut Tally,
) -> Result<(Response, Beside), TableFault>
    requires idle { (state S.Store conn.old).in_transaction ≡ false }
    requires few { length setup.now.partners.items ≤ most_partners }
    requires delivered { IsDelivered setup.now delivery.now }
    requires known { delivery.now.admitted.partner ≤ length beside.nexts.items }
    ensures ends { EndsIdle (state S.Store conn.old) (state S.Store conn.new) }
    ensures now { IfOk result (λ taken. IsNow taken.0) }
    ensures is_open { HasCleanDisk (state S.Store conn.new) → OnOk result (IsTrue (state S.Store conn.new).is_open) }
    ensures takes { HasCleanDisk (state S.Store conn.new) →
        TakesRun (delivery_of delivery.now) delivery.now.code.now setup.now beside (state S.Store conn.old) result
        (state S.Store conn.new) }
    ensures in_order { HasCleanDisk (state S.Store conn.new) →
        RunsInOrder (delivery_of delivery.now) setup.now beside (state S.Store conn.old) result
        (state S.Store conn.new) }
{
    let mut beside = beside;
    let code = delivery.code;
    let admitted = &delivery.admitted;
    let number = delivery.number;
    let mut tally = Tally::NOTHING;
    let taken = take_run(
        alloc,
        conn,
        setup,
        &mut beside.terminal,
        admitted,
        number,
        &mut tally,
    )?;
    let body = taken_body(alloc, "taken", number, code, taken[0].reply.as_str())?;
    write_run(conn, admitted.partner, number, delivery.text, &taken)?;
    beside.raise(admitted.partner, taken[taken.len() - 1].number + 1);
    *last_taken = tally;
    Ok((Response::Taken(body), beside))
}

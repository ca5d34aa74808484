ghost use Rattle.std.specs.Prelude.{◌≡◌, ◌<◌, false, length, string_bytes, IfOk, OnOk, OnErr, IsTrue, ◌≤◌, ◌++◌, [], ◌∷◌, Some, IfErr, map, option_map};
ghost use Rattle.office_tables.specs.{DeliveryReading.OnlyReads, Writing.{IsWholeInOrder, WritesWhole}, Faults.IsOfStoreOr, Reading.Reads};
ghost use Rattle.office_desk.specs.{Accounts.{IsLengthened, IsSameOrNone}, Causes.{LacksNumbers, LacksSome}};
ghost use Rattle.office_desk.specs.Reports.{AreLookedUp, IsLookedUp, Shows, TellsPartners, TellsNext, TellsPartner, partner_called};
ghost use Rattle.office_reports.specs.Partners.{partner_content};
ghost use Rattle.office_replies.specs.AccountAnswers.{account_added_text};
ghost use Rattle.office_rows.specs.{Effects.with_partner, Rows.Rows, Stored.HasRows};
ghost use Rattle.office_admission.specs.{Limits.most_partners, PartyCodes.is_party_code, Setups.{setup_content, setup_with_account, account_contents}};
ghost use Rattle.sqlite.specs.{Held.state, State.{HasCleanDisk, Survives}};

use crate::beside::Beside;
use edi_messages::PartnerKind;
use office_admission::{Account, Setup};
use office_loading::waiting_numbers;
use office_replies::{AccountFault, account_added};
use office_report_data::{show_partner, show_partners};
use office_reports::{Partner, View, partner_row, partners_of};
use office_tables::{TableFault, next_of, write_account};
use sqlite::{Alter, Connection};
use std::alloc::{AllocError, Global};

/// Whether an account that is to be added is new, known or refused, by those that there are.
#[derive(Drop)]
pub enum AccountStanding {
    /// Its code is new, and there is room: it gets this id.
    New(u16),
    /// Its code has an account of its kind, under this id.
    Known(u16),
    /// It is refused.
    Refused(AccountFault),
}

/// Adds an account: in the tables, and then in the set-up and beside the tables. Its answer's body is made first, so that
/// what was added can be answered.
pub(crate) fn add_new<S: Alter>(
    alloc: Global,
    conn: &mut Connection<S>,
    setup: &mut Setup,
    beside: &mut Option<Beside>,
    id: u16,
    code: &str,
    kind: PartnerKind,
) -> Result<String, TableFault>
    requires idle { (state S.Store conn.old).in_transaction ≡ false }
    requires code { IsTrue (is_party_code code.now) }
    requires room { length setup.old.partners.items < most_partners }
    ensures body { IfOk result (λ body. string_bytes body ≡ account_added_text id code.now) }
    ensures setup { OnOk result
        (setup_content setup.new ≡ setup_with_account (setup_content setup.old) code.now kind) }
    ensures beside { OnOk result (IsLengthened beside.old beside.new) }
    ensures same { OnErr result (setup.new ≡ setup.old) }
    ensures less { OnErr result (IsSameOrNone beside.old beside.new) }
    ensures writes { WritesWhole (with_partner id code.now kind) (state S.Store conn.old) (state S.Store conn.new)
        result }
    ensures crash_in_order { Survives (state S.Store conn.old) (state S.Store conn.new)
        (IsWholeInOrder (with_partner id code.now kind) (state S.Store conn.old)) }
{
    let body = account_added(alloc, id, code)?;
    let grown = setup.with_account(alloc, code, kind)?;
    let longer = with_new_account(beside.take())?;
    write_account(conn, id, code, kind)?;
    *setup = grown;
    *beside = longer;
    Ok(body)
}

/// What is kept in memory, with the number of a partner more, which has sent nothing; none if there is none.
fn with_new_account(beside: Option<Beside>) -> Result<Option<Beside>, AllocError>
    ensures { IfOk result (IsLengthened beside) }
{
    match beside {
        Some(there) => {
            let mut there = there;
            there.nexts.push(1)?;
            Ok(Some(there))
        }
        None => Ok(None),
    }
}

/// Which numbers are expected of the partners with these accounts, the first of them under the id 1, and what waits for
/// them. It changes nothing.
pub(crate) fn tell_partners<S: Alter>(
    alloc: Global,
    conn: &mut Connection<S>,
    accounts: &[Account],
    view: View,
) -> Result<String, TableFault>
    requires few { length accounts.now ≤ most_partners }
    ensures told { HasCleanDisk (state S.Store conn.new) → IfOk result (λ text. (rows : Rows) →
        HasRows rows (state S.Store conn.old).now →
        Shows (TellsPartners rows (account_contents accounts.now)) view (Some (string_bytes text))) }
    ensures fault { HasCleanDisk (state S.Store conn.new) → IfErr result (λ fault. (rows : Rows) →
        HasRows rows (state S.Store conn.old).now → IsOfStoreOr (LacksSome rows (length accounts.now)) fault) }
    ensures reads { OnlyReads (state S.Store conn.old) (state S.Store conn.new) result }
{
    let partners = look_all_up(alloc, conn, accounts)?;
    let report = partners_of(alloc, &partners)?;
    Ok(show_partners(alloc, &report, view)?)
}

/// The partners with these accounts.
pub(crate) fn look_all_up<S: Alter>(
    alloc: Global,
    conn: &mut Connection<S>,
    accounts: &[Account],
) -> Result<Vec<Partner>, TableFault>
    requires few { length accounts.now ≤ most_partners }
    ensures are { HasCleanDisk (state S.Store conn.new) → IfOk result (λ partners. (rows : Rows) →
        HasRows rows (state S.Store conn.old).now →
        AreLookedUp rows 1 (account_contents accounts.now) (map partner_content partners.items)) }
    ensures fault { HasCleanDisk (state S.Store conn.new) → IfErr result (λ fault. (rows : Rows) →
        HasRows rows (state S.Store conn.old).now → IsOfStoreOr (LacksSome rows (length accounts.now)) fault) }
    ensures reads { OnlyReads (state S.Store conn.old) (state S.Store conn.new) result }
{
    let mut partners = Vec::new(alloc);
    let mut id = 0;
    for account in accounts {
        id += 1;
        let partner = look_up(alloc, conn, id, account)?;
        append(&mut partners, partner)?;
    }
    Ok(partners)
}

/// Which number is expected of the partner of that code, and what waits for it, if it has an account. It changes nothing.
pub(crate) fn tell_partner<S: Alter>(
    alloc: Global,
    conn: &mut Connection<S>,
    setup: &Setup,
    code: &str,
    view: View,
) -> Result<Option<String>, TableFault>
    requires few { length setup.now.partners.items ≤ most_partners }
    ensures told { HasCleanDisk (state S.Store conn.new) → IfOk result (λ found. (rows : Rows) →
        HasRows rows (state S.Store conn.old).now →
        Shows (TellsPartner rows (setup_content setup.now).partners (partner_called (setup_content setup.now) code.now))
        view (option_map string_bytes found)) }
    ensures fault { HasCleanDisk (state S.Store conn.new) → IfErr result (λ fault. (rows : Rows) →
        HasRows rows (state S.Store conn.old).now →
        IsOfStoreOr (LacksSome rows (length (setup_content setup.now).partners)) fault) }
    ensures reads { OnlyReads (state S.Store conn.old) (state S.Store conn.new) result }
{
    let accounts = setup.partners.as_slice();
    match setup.partners.index_called(code) {
        Some(index) => {
            let partner = look_up(alloc, conn, index as u16 + 1, &accounts[index])?;
            Ok(Some(show_partner(alloc, &partner_row(&partner), view)?))
        }
        None => Ok(None),
    }
}

/// The number that the next interchange of the partner of that code has, in digits, if it has an account. It changes
/// nothing.
pub(crate) fn tell_next<S: Alter>(
    alloc: Global,
    conn: &mut Connection<S>,
    setup: &Setup,
    code: &str,
) -> Result<Option<String>, TableFault>
    requires few { length setup.now.partners.items ≤ most_partners }
    ensures told { HasCleanDisk (state S.Store conn.new) → IfOk result (λ found. (rows : Rows) →
        HasRows rows (state S.Store conn.old).now →
        TellsNext rows (partner_called (setup_content setup.now) code.now) (option_map string_bytes found)) }
    ensures fault { HasCleanDisk (state S.Store conn.new) → IfErr result (λ fault. (rows : Rows) →
        HasRows rows (state S.Store conn.old).now →
        IsOfStoreOr (LacksSome rows (length (setup_content setup.now).partners)) fault) }
    ensures reads { OnlyReads (state S.Store conn.old) (state S.Store conn.new) result }
{
    match setup.partner_called(code) {
        Some(id) => {
            let number = next_of(conn, id)?;
            Ok(Some(number.to_string(alloc)?))
        }
        None => Ok(None),
    }
}

/// The partner that has an account under this id.
fn look_up<S: Alter>(
    alloc: Global,
    conn: &mut Connection<S>,
    id: u16,
    account: &Account,
) -> Result<Partner, TableFault>
    ensures is { HasCleanDisk (state S.Store conn.new) → IfOk result (λ partner. (rows : Rows) →
        HasRows rows (state S.Store conn.old).now →
        IsLookedUp rows id (string_bytes account.now.code, account.now.kind) (partner_content partner)) }
    ensures fault { HasCleanDisk (state S.Store conn.new) → IfErr result (λ fault. (rows : Rows) →
        HasRows rows (state S.Store conn.old).now → IsOfStoreOr (LacksNumbers rows id) fault) }
    ensures reads { Reads (state S.Store conn.old) (state S.Store conn.new) result }
{
    let next = next_of(conn, id)?;
    let waiting = waiting_numbers(alloc, conn, id, next)?;
    let code = String::from_str(alloc, account.code.as_str())?;
    Ok(Partner {
        code,
        kind: account.kind,
        next,
        waiting,
    })
}

fn append(partners: &mut Vec<Partner>, next: Partner) -> Result<(), AllocError>
    ensures { OnOk result (partners.new.items ≡ partners.old.items ++ next ∷ []) }
{
    partners.push(next)?;
    Ok(())
}

ghost use Rattle.std.specs.Prelude.{◌≡◌, ◌≤◌, ◌-◌, length, slice_set, Some, IfOk, IfErr, map, option_map, string_bytes};
ghost use Rattle.office_loading.specs.{Closed.closed_content, Tables.LoadsOwn};
ghost use Rattle.office_tables.specs.{DeliveryReading.OnlyReads, Answers.LacksNext, Faults.{IsOfStore, IsOfStoreOr}, Reading.Reads};
ghost use Rattle.office_desk.specs.{Causes.LacksSome, Finding.StaysBeside, Offices.{FailsToOpen, HoldsOffice}};
ghost use Rattle.office_desk.specs.Reports.{Shows, TellsMetrics, TellsStart, start_by};
ghost use Rattle.office_pages.specs.Start.{office_page};
ghost use Rattle.office_reports.specs.{Blocks.{AreBlocks, BlocksContent}, Partners.partner_content, Metrics.ready_text, declared.query.View.View};
ghost use Rattle.office_rows.specs.{Rows.Rows, Shown.AreNexts, Stored.HasRows, Tables.office_schema};
ghost use Rattle.office_admission.specs.{Given.IsGiven, Limits.most_partners, Setups.{SetupContent, setup_content}};
ghost use Rattle.partner_core.specs.Numbered.{with_number};
ghost use Rattle.sqlite.specs.{Held.state, State.HasCleanDisk};
ghost use Rattle.terminal_core.specs.State.{TerminalState};

use crate::accounts::look_all_up;
use office_admission::Setup;
use office_loading::{Closed, load_own, nexts};
use office_pages::{StartReport, office_page};
use office_reports::{
    Partner, Versions, blocks_of, calls_of, metrics_report, partners_of, program_version, ready,
};
use office_tables::{TableFault, next_of};
use sqlite::{Alter, Connection};
use std::alloc::{AllocError, Global};
use terminal_core::{Terminal, newest_number};

/// What is kept in memory beside the tables, so that a delivery reads no more of them than the interchanges that it
/// needs.
#[derive(Drop)]
pub struct Beside {
    /// The terminal as the rows have it.
    pub terminal: Terminal,
    /// The number of each partner's next interchange, in the order of the partners' ids: 1, 2 and so on.
    pub nexts: Vec<u32>,
}

impl Beside {
    /// The number of a partner's next interchange.
    pub(crate) fn next_of(&self, partner: u16) -> Option<u32>
        requires { 1 ≤ partner }
        ensures { result ≡ with_number self.now.nexts.items partner }
    {
        self.nexts.get(usize::from(partner) - 1).copied()
    }

    /// Gives a partner's next interchange that number.
    pub(crate) fn raise(&mut self, partner: u16, next: u32)
        requires from_one { 1 ≤ partner }
        requires known { partner ≤ length self.old.nexts.items }
        ensures terminal { self.new.terminal ≡ self.old.terminal }
        ensures nexts { self.new.nexts.items ≡ slice_set self.old.nexts.items (partner - 1) next }
    {
        self.nexts[usize::from(partner) - 1] = next;
    }
}

/// The set-up that the tables of a store hold, of which that is closed, and what is kept in memory beside them: all
/// that opening a desk does with its connection. It changes nothing.
///
/// Version if no setting names this version; Damaged if the rows are those of no office; Store and Memory say
/// nothing of the rows.
pub fn load_beside<S: Alter>(
    alloc: Global,
    conn: &mut Connection<S>,
    closed: &Closed,
) -> Result<(Setup, Beside), TableFault>
    ensures loaded { HasCleanDisk (state S.Store conn.new) → (state S.Store conn.old).now.schema ≡ office_schema →
        IfOk result (λ p. LoadsOwn (closed_content closed.now) (state S.Store conn.old).now (setup_content p.0)
        p.1.terminal) }
    ensures nexts { HasCleanDisk (state S.Store conn.new) → IfOk result (λ p. (rows : Rows) →
        HasRows rows (state S.Store conn.old).now → AreNexts rows p.1.nexts.items) }
    ensures given { IfOk result (λ p. IsGiven (setup_content p.0)) }
    ensures refused { HasCleanDisk (state S.Store conn.new) → (state S.Store conn.old).now.schema ≡ office_schema →
        IfErr result (FailsToOpen (closed_content closed.now) (state S.Store conn.old).now) }
    ensures reads { Reads (state S.Store conn.old) (state S.Store conn.new) result }
{
    let (setup, terminal) = load_own(alloc, conn, closed)?;
    let nexts = nexts(alloc, conn)?;
    Ok((setup, Beside { terminal, nexts }))
}

/// What is kept in memory: what is there, or else loaded from the rows.
pub(crate) fn beside_of<S: Alter>(
    alloc: Global,
    conn: &mut Connection<S>,
    closed: &Closed,
    beside: Option<Beside>,
) -> Result<Beside, TableFault>
    ensures beside { HasCleanDisk (state S.Store conn.new) →
        IfOk result (λ now. StaysBeside (closed_content closed.now) (state S.Store conn.old).now beside (Some now)) }
    ensures fault { HasCleanDisk (state S.Store conn.new) →
        IfErr result (λ fault. (content : SetupContent) (rows : Rows) (terminal : TerminalState) →
        HoldsOffice (closed_content closed.now) content rows terminal (state S.Store conn.old).now beside →
        IsOfStore fault) }
    ensures reads { OnlyReads (state S.Store conn.old) (state S.Store conn.new) result }
{
    match beside {
        Some(there) => Ok(there),
        None => {
            let (_, there) = load_beside(alloc, conn, closed)?;
            Ok(there)
        }
    }
}

/// The version of the tables.
const STORE_VERSION: &str = "3";

/// The id of the first account, which there always is.
const FIRST_PARTNER: u16 = 1;

/// That the office can be asked: a row of its store was read.
pub(crate) fn tell_health<S: Alter>(
    alloc: Global,
    conn: &mut Connection<S>,
) -> Result<Option<String>, TableFault>
    ensures told { IfOk result (λ found. option_map string_bytes found ≡ Some ready_text) }
    ensures fault { HasCleanDisk (state S.Store conn.new) → IfErr result (λ fault. (rows : Rows) →
        HasRows rows (state S.Store conn.old).now → IsOfStoreOr (LacksNext 1 rows) fault) }
    ensures reads { Reads (state S.Store conn.old) (state S.Store conn.new) result }
{
    next_of(conn, FIRST_PARTNER)?;
    Ok(Some(ready(alloc)?))
}

/// How much there is of what. It changes nothing.
pub(crate) fn tell_metrics<S: Alter>(
    alloc: Global,
    conn: &mut Connection<S>,
    setup: &Setup,
    terminal: &Terminal,
) -> Result<Option<String>, TableFault>
    requires few { length setup.now.partners.items ≤ most_partners }
    ensures told { HasCleanDisk (state S.Store conn.new) → IfOk result (λ found. (rows : Rows) →
        HasRows rows (state S.Store conn.old).now →
        TellsMetrics (setup_content setup.now) terminal.now rows (option_map string_bytes found)) }
    ensures fault { HasCleanDisk (state S.Store conn.new) → IfErr result (λ fault. (rows : Rows) →
        HasRows rows (state S.Store conn.old).now →
        IsOfStoreOr (LacksSome rows (length (setup_content setup.now).partners)) fault) }
    ensures reads { OnlyReads (state S.Store conn.old) (state S.Store conn.new) result }
{
    let versions = Versions {
        program: program_version(),
        store: STORE_VERSION,
    };
    let partners = look_all_up(alloc, conn, setup.partners.as_slice())?;
    Ok(Some(metrics_report(alloc, versions, terminal, setup.visit_limit, &partners)?))
}

/// The start page. It changes nothing.
pub(crate) fn tell_start<S: Alter>(
    alloc: Global,
    conn: &mut Connection<S>,
    setup: &Setup,
    terminal: &Terminal,
) -> Result<Option<String>, TableFault>
    requires few { length setup.now.partners.items ≤ most_partners }
    ensures told { HasCleanDisk (state S.Store conn.new) → IfOk result (λ found. (rows : Rows) →
        HasRows rows (state S.Store conn.old).now → (view : View) →
        Shows (TellsStart (setup_content setup.now) terminal.now rows) view (option_map string_bytes found)) }
    ensures fault { HasCleanDisk (state S.Store conn.new) → IfErr result (λ fault. (rows : Rows) →
        HasRows rows (state S.Store conn.old).now →
        IsOfStoreOr (LacksSome rows (length (setup_content setup.now).partners)) fault) }
    ensures reads { OnlyReads (state S.Store conn.old) (state S.Store conn.new) result }
{
    let partners = look_all_up(alloc, conn, setup.partners.as_slice())?;
    Ok(Some(start_of(alloc, setup, terminal, &partners)?))
}

fn start_of(
    alloc: Global,
    setup: &Setup,
    terminal: &Terminal,
    partners: &[Partner],
) -> Result<String, AllocError>
    ensures { IfOk result (λ page. (blocks : BlocksContent) × AreBlocks terminal.now blocks
        × (string_bytes page ≡ office_page (setup_content setup.now).terminal
        (start_by (setup_content setup.now) terminal.now (map partner_content partners.now) blocks))) }
{
    let visits = terminal.visits();
    let report = StartReport {
        visits: visits.len(),
        visits_ever: newest_number(visits),
        limit: setup.visit_limit,
        partners: partners_of(alloc, partners)?,
        calls: calls_of(alloc, terminal)?,
        blocks: blocks_of(alloc, terminal)?,
    };
    office_page(alloc, setup.terminal.as_str(), &report)
}

ghost use Rattle.std.specs.{List.Sorted.IsPermutation, Prelude.{◌≡◌, ℕ, IfOk, IfErr, [], ◌∷◌, map}};
ghost use Rattle.office_loading.specs.{Settings.{HasNoSettings, HasSettings, setting_in}, Waiting.{waiting_in, waiting_values}};
ghost use Rattle.office_rows.specs.{Bare.weighed_in, Layouts.{Layout, schema_in}, Rows.Rows, Shown.ShowsTable, Stored.HasRows};
ghost use Rattle.office_rows.specs.Tables.{partner_table, place_table, setting_table, block_table};
ghost use Rattle.office_tables.specs.{Faults.IsOfStore, Reading.{OnlyShows, Reads}};
ghost use Rattle.sqlite.specs.{Held.state, State.{HasCleanDisk, Shown}};

use office_tables::{TableFault, integer};
use sqlite::{Alter, Connection, Row};

/// The rows that a query shows.
fn select<S: Alter>(conn: &mut Connection<S>, query: &str) -> Result<Vec<Row>, TableFault>
    requires { OnlyShows query.now }
    ensures shown { HasCleanDisk (state S.Store conn.new) →
        IfOk result (λ answer. Shown query.now [] (state S.Store conn.old) (state S.Store conn.new) answer.items) }
    ensures fault { IfErr result IsOfStore }
    ensures reads { Reads (state S.Store conn.old) (state S.Store conn.new) result }
{
    Ok(conn.query_all(query, &[])?)
}

/// The rows of all accounts, by their ids.
pub(crate) fn select_partners<S: Alter>(conn: &mut Connection<S>) -> Result<Vec<Row>, TableFault>
    ensures shown { HasCleanDisk (state S.Store conn.new) → (layout : Layout) →
        (state S.Store conn.old).now.schema ≡ schema_in layout → IfOk result (λ answer.
        ShowsTable partner_table (0 ∷ 1 ∷ 2 ∷ 3 ∷ []) (0 ∷ []) (weighed_in layout (state S.Store conn.old).now)
        answer.items) }
    ensures fault { IfErr result IsOfStore }
    ensures reads { Reads (state S.Store conn.old) (state S.Store conn.new) result }
{
    select(conn, "SELECT id, code, kind, next FROM partner ORDER BY id")
}

/// The rows of all containers in the yard, by their numbers.
pub(crate) fn select_places<S: Alter>(conn: &mut Connection<S>) -> Result<Vec<Row>, TableFault>
    ensures shown { HasCleanDisk (state S.Store conn.new) → (layout : Layout) →
        (state S.Store conn.old).now.schema ≡ schema_in layout → IfOk result (λ answer. ShowsTable place_table (0 ∷ 1 ∷ 2 ∷ []) (0 ∷ []) (weighed_in layout (state S.Store conn.old).now)
        answer.items) }
    ensures fault { IfErr result IsOfStore }
    ensures reads { Reads (state S.Store conn.old) (state S.Store conn.new) result }
{
    select(conn, "SELECT box, visit, slot FROM place ORDER BY box")
}

/// The rows of all settings, by their names.
pub(crate) fn select_settings<S: Alter>(conn: &mut Connection<S>) -> Result<Vec<Row>, TableFault>
    ensures shown { HasCleanDisk (state S.Store conn.new) → (layout : Layout) →
        (state S.Store conn.old).now.schema ≡ schema_in layout → IfOk result (λ answer. ShowsTable setting_table (0 ∷ 1 ∷ []) (0 ∷ []) (state S.Store conn.old).now answer.items) }
    ensures missing { HasCleanDisk (state S.Store conn.new) → HasNoSettings (state S.Store conn.old).now.schema →
        IfOk result (λ _. ⊥) }
    ensures there { HasCleanDisk (state S.Store conn.new) → (tree : ℕ) →
        HasSettings (state S.Store conn.old).now.schema tree → IfOk result (λ answer.
        ShowsTable (setting_in tree) (0 ∷ 1 ∷ []) (0 ∷ []) (state S.Store conn.old).now answer.items) }
    ensures fault { IfErr result IsOfStore }
    ensures reads { Reads (state S.Store conn.old) (state S.Store conn.new) result }
{
    select(conn, "SELECT name, value FROM setting ORDER BY name")
}

/// The rows of all blocks of the yard, by their letters.
pub(crate) fn select_blocks<S: Alter>(conn: &mut Connection<S>) -> Result<Vec<Row>, TableFault>
    ensures shown { HasCleanDisk (state S.Store conn.new) → (layout : Layout) →
        (state S.Store conn.old).now.schema ≡ schema_in layout → IfOk result (λ answer.
        ShowsTable block_table (0 ∷ 1 ∷ 2 ∷ 3 ∷ []) (0 ∷ []) (weighed_in layout (state S.Store conn.old).now)
        answer.items) }
    ensures fault { IfErr result IsOfStore }
    ensures reads { Reads (state S.Store conn.old) (state S.Store conn.new) result }
{
    select(
        conn,
        "SELECT letter, bays, lanes, tiers FROM block ORDER BY letter",
    )
}

/// The numbers of a partner's interchanges beyond the number that is next, in any order. No other interchange is read:
/// the pair of partner and number is the table's key.
pub(crate) fn select_waiting<S: Alter>(
    conn: &mut Connection<S>,
    partner: u32,
    next: u32,
) -> Result<Vec<Row>, TableFault>
    ensures shown { HasCleanDisk (state S.Store conn.new) → IfOk result (λ answer. (rows : Rows) →
        HasRows rows (state S.Store conn.old).now →
        IsPermutation (map waiting_values (waiting_in partner next rows)) answer.items) }
    ensures fault { IfErr result IsOfStore }
    ensures reads { Reads (state S.Store conn.old) (state S.Store conn.new) result }
{
    Ok(conn.query_all(
        "SELECT number FROM interchange WHERE partner = ?1 AND number > ?2",
        &[integer(partner), integer(next)],
    )?)
}

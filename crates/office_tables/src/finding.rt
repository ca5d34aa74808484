ghost use Rattle.std.specs.{Prelude.{◌≡◌, ◌≢◌, ◌<◌, ◌^◌, ⊤, IfOk, IfErr, IsUtf8, List, map, filter}, List.Sorted.IsPermutation};
ghost use Rattle.sqlite.specs.{declared.types.Value.TheVariants.{Text, Blob}, Order.column, Held.state, State.HasCleanDisk};
ghost use Rattle.sqlite.specs.{declared.error.Error.TheVariants.SqliteFailure, declared.error.ErrorCode.TheVariants.OutOfMemory};
ghost use Rattle.office_rows.specs.{Effects.is_pair, Layouts.IsOfficeSchema, Stored.{HasRows, Holds}, Tables.interchange_table, Rows.{Interchange, Partner}};
ghost use Rattle.office_rows.specs.Values.{number_value, interchange_values, kept_values, next_values};
ghost use Rattle.office_tables.specs.{Answers.{IsKept, IsNextOf, RepliesAs, HasUnfitReply, LacksNext, has_id}, Faults.{IsOfStore, IsOfStoreOr}, Reading.Reads};

use crate::interchanges::Kept;
use crate::table_fault::TableFault;
use crate::terminal::integer;
use sqlite::{Alter, Connection, Error, ErrorCode, Row};

/// The interchange that is kept for a partner and a number. It changes nothing.
///
/// Damaged if its reply is no text; Store and Memory say nothing of the rows.
pub fn kept<S: Alter>(
    conn: &mut Connection<S>,
    partner: u16,
    number: u32,
) -> Result<Option<Kept>, TableFault>
    ensures answer { HasCleanDisk (state S.Store conn.new) →
        IfOk result (λ answer. (rows : _) → HasRows rows (state S.Store conn.old).now →
        IsKept partner number rows answer) }
    ensures fault { HasCleanDisk (state S.Store conn.new) →
        IfErr result (λ fault. (rows : _) → HasRows rows (state S.Store conn.old).now →
        IsOfStoreOr (HasUnfitReply partner number rows) fault) }
    ensures version { IfErr result (IsOfStoreOr ⊤) }
    ensures reads { Reads (state S.Store conn.old) (state S.Store conn.new) result }
{
    let rows = select_interchange(conn, u32::from(partner), number)?;
    match rows.first() {
        None => Ok(None),
        Some(row) => match read_kept(row) {
            Ok(kept) => Ok(Some(kept)),
            Err(error) => Err(column_fault(error)),
        },
    }
}

/// The body and the reply of the interchange of this partner and number, in the tables of any version.
pub fn select_interchange<S: Alter>(
    conn: &mut Connection<S>,
    partner: u32,
    number: u32,
) -> Result<Vec<Row>, TableFault>
    ensures shown { HasCleanDisk (state S.Store conn.new) → IsOfficeSchema (state S.Store conn.old).now.schema
        → IfOk result (λ answer. (interchanges : List Interchange) →
        Holds interchange_table interchange_values interchanges ((state S.Store conn.old).now.trees 2) →
        IsPermutation (map kept_values (filter (is_pair partner number) interchanges)) answer.items) }
    ensures fault { IfErr result IsOfStore }
    ensures reads { Reads (state S.Store conn.old) (state S.Store conn.new) result }
{
    Ok(conn.query_all(
        "SELECT body, reply FROM interchange WHERE partner = ?1 AND number = ?2",
        &[integer(partner), integer(number)],
    )?)
}

/// What a column that can't be read is to a caller: its row is that of no office, if memory wasn't refused.
fn column_fault(error: Error) -> TableFault
    ensures { IsOfStoreOr (error ≢ SqliteFailure OutOfMemory) result }
{
    match error {
        Error::SqliteFailure(ErrorCode::OutOfMemory) => TableFault::Memory,
        _ => TableFault::Damaged,
    }
}

/// The body and the reply of an interchange, as the query of one shows them.
pub fn read_kept(row: &Row) -> Result<Kept, Error>
    ensures ok { IfOk result
        (λ kept. (column row.now 0 ≡ Blob kept.text.items)
        × ((reply : _) × (column row.now 1 ≡ Text reply) × RepliesAs kept.reply reply)) }
    ensures err { IfErr result (λ error. error ≢ SqliteFailure OutOfMemory →
        (i : Interchange) → IsUtf8 i.reply → row.now ≢ kept_values i) }
{
    let text = row.get(0)?;
    let reply: String = row.get(1)?;
    let reply = if reply.is_empty() { None } else { Some(reply) };
    Ok(Kept { text, reply })
}

/// The number that the next interchange of a partner has. It changes nothing.
///
/// Damaged if no account has this id, or its next number has more than 32 bits; Store and Memory say nothing of the
/// rows.
pub fn next_of<S: Alter>(conn: &mut Connection<S>, partner: u16) -> Result<u32, TableFault>
    ensures answer { HasCleanDisk (state S.Store conn.new) →
        IfOk result (λ next. (rows : _) → HasRows rows (state S.Store conn.old).now → IsNextOf partner rows next) }
    ensures fault { HasCleanDisk (state S.Store conn.new) →
        IfErr result (λ fault. (rows : _) → HasRows rows (state S.Store conn.old).now →
        IsOfStoreOr (LacksNext partner rows) fault) }
    ensures version { IfErr result (IsOfStoreOr ⊤) }
    ensures reads { Reads (state S.Store conn.old) (state S.Store conn.new) result }
{
    let rows = select_next(conn, partner)?;
    match rows.first() {
        None => Err(TableFault::Damaged),
        Some(row) => read_number(row),
    }
}

fn select_next<S: Alter>(conn: &mut Connection<S>, partner: u16) -> Result<Vec<Row>, TableFault>
    ensures shown { HasCleanDisk (state S.Store conn.new) →
        IfOk result (λ answer. (rows : _) → HasRows rows (state S.Store conn.old).now →
        IsPermutation (map next_values (filter (has_id partner) rows.partners)) answer.items) }
    ensures fault { IfErr result IsOfStore }
    ensures reads { Reads (state S.Store conn.old) (state S.Store conn.new) result }
{
    Ok(conn.query_all(
        "SELECT next FROM partner WHERE id = ?1",
        &[integer(u32::from(partner))],
    )?)
}

fn read_number(row: &Row) -> Result<u32, TableFault>
    ensures ok { IfOk result (λ read. column row.now 0 ≡ number_value read) }
    ensures err { IfErr result (IsOfStoreOr ((p : Partner) → p.next < 2 ^ 32 → row.now ≢ next_values p)) }
{
    match row.get(0) {
        Ok(next) => Ok(next),
        Err(error) => Err(column_fault(error)),
    }
}

ghost use Rattle.std.specs.{List.list_any, Prelude.{◌≡◌, [], ◌∷◌, false, OnOk, IsTrue}};
ghost use Rattle.office_rows.specs.{Effects.{is_pair, with_waiting, with_reply}, Opening.{interchange_row, with_interchanges}, Rows.Rows, Stored.HasRows};
ghost use Rattle.office_tables.specs.{Kept.with_kept_reply, Writes.Writes};
ghost use Rattle.sqlite.specs.{Held.state, State.HasCleanDisk};

use crate::table_fault::TableFault;
use crate::terminal::{characters, integer};
use sqlite::types::ValueRef;
use sqlite::{Alter, Transaction};

/// An interchange that is kept.
#[derive(Debug, Drop)]
pub struct Kept {
    /// Its text.
    pub text: Vec<u8>,
    /// What was answered when it was taken: none while it waits.
    pub reply: Option<String>,
}

/// Keeps an interchange that waits.
pub fn keep<S: Alter>(
    tx: &mut Transaction<'_, S>,
    partner: u16,
    number: u32,
    body: &[u8],
) -> Result<(), TableFault>
    ensures same_reference { tx.new.conn.ghost_name ≡ tx.old.conn.ghost_name }
    ensures writes { Writes (with_waiting partner number body.now) (state S.Store tx.old.conn.now)
        (state S.Store tx.new.conn.now) result }
{
    tx.execute(
        "INSERT INTO interchange (partner, number, body, reply) VALUES (?1, ?2, ?3, '')",
        &[
            integer(u32::from(partner)),
            integer(number),
            ValueRef::Blob(body),
        ],
    )?;
    Ok(())
}

/// Keeps an interchange that is taken at once, with its reply: what `keep` and `set_reply` come to, by one statement.
pub fn keep_taken<S: Alter>(
    tx: &mut Transaction<'_, S>,
    partner: u16,
    number: u32,
    body: &[u8],
    reply: &str,
) -> Result<(), TableFault>
    ensures same_reference { tx.new.conn.ghost_name ≡ tx.old.conn.ghost_name }
    ensures writes { Writes (with_kept_reply partner number body.now reply.now) (state S.Store tx.old.conn.now)
        (state S.Store tx.new.conn.now) result }
{
    insert_interchange(tx, u32::from(partner), number, body, reply)
}

/// Keeps an interchange with its reply; one that waits has an empty one. None was kept under its pair of numbers.
pub fn insert_interchange<'a, S: Alter>(
    tx: &mut Transaction<'_, S>,
    partner: u32,
    number: u32,
    body: &'a [u8],
    reply: &'a str,
) -> Result<(), TableFault>
    ensures same_reference { tx.new.conn.ghost_name ≡ tx.old.conn.ghost_name }
    ensures writes { Writes (with_interchanges (interchange_row partner number body.now reply.now ∷ []))
        (state S.Store tx.old.conn.now) (state S.Store tx.new.conn.now) result }
    ensures new { HasCleanDisk (state S.Store tx.new.conn.now) → IsTrue (state S.Store tx.old.conn.now).in_transaction
        → OnOk result ((rows : Rows) → HasRows rows (state S.Store tx.old.conn.now).now →
        list_any (is_pair partner number) rows.interchanges ≡ false) }
{
    tx.execute(
        "INSERT INTO interchange (partner, number, body, reply) VALUES (?1, ?2, ?3, ?4)",
        &[
            integer(partner),
            integer(number),
            ValueRef::Blob(body),
            characters(reply.as_bytes()),
        ],
    )?;
    Ok(())
}

/// Writes the reply of an interchange into its row, so that it waits no longer.
pub fn set_reply<S: Alter>(
    tx: &mut Transaction<'_, S>,
    partner: u16,
    number: u32,
    reply: &str,
) -> Result<(), TableFault>
    ensures same_reference { tx.new.conn.ghost_name ≡ tx.old.conn.ghost_name }
    ensures writes { Writes (with_reply partner number reply.now) (state S.Store tx.old.conn.now)
        (state S.Store tx.new.conn.now) result }
{
    tx.execute(
        "UPDATE interchange SET reply = ?3 WHERE partner = ?1 AND number = ?2",
        &[
            integer(u32::from(partner)),
            integer(number),
            characters(reply.as_bytes()),
        ],
    )?;
    Ok(())
}

ghost use Rattle.std.specs.Prelude.{◌≡◌, ◌<◌, ◌≤◌, ◌+◌, [], ◌∷◌, length, slice_get, Some, codes, decimal};
ghost use Rattle.office_rows.specs.Effects.{with_next, with_partner};
ghost use Rattle.office_rows.specs.Opening.{code_names, code_settings, setting_row, settings_of, with_settings, with_blocks, partners_from, with_partners};
ghost use Rattle.office_admission.specs.{Limits.most_partners, Setups.{setup_content, account_contents}};
ghost use Rattle.office_tables.specs.Writes.{Writes, WritesIfOpen};
ghost use Rattle.sqlite.specs.Held.{state};

use crate::table_fault::TableFault;
use crate::terminal::{characters, integer, kind_code};
use edi_messages::{CodeTable, PartnerKind};
use itoa::Buffer;
use office_admission::{Account, Setup};
use sqlite::{Alter, Transaction};
use yard_core::Block;

/// The version of the tables, and the settings of a set-up.
pub(crate) fn insert_settings<S: Alter>(
    tx: &mut Transaction<'_, S>,
    setup: &Setup,
) -> Result<(), TableFault>
    ensures same_reference { tx.new.conn.ghost_name ≡ tx.old.conn.ghost_name }
    ensures writes { Writes (with_settings (settings_of (setup_content setup.now))) (state S.Store tx.old.conn.now)
        (state S.Store tx.new.conn.now) result }
{
    insert_setting(tx, "version", b"3")?;
    insert_setting(tx, "terminal", setup.terminal.as_bytes())?;
    let mut buffer = Buffer::new();
    insert_setting(tx, "visits", buffer.format(setup.visit_limit).as_bytes())?;
    insert_codes(tx, &setup.codes)
}

/// Each code of a document name under its own name.
fn insert_codes<S: Alter>(tx: &mut Transaction<'_, S>, codes: &CodeTable) -> Result<(), TableFault>
    ensures same_reference { tx.new.conn.ghost_name ≡ tx.old.conn.ghost_name }
    ensures writes { WritesIfOpen (with_settings (code_settings codes.now)) (state S.Store tx.old.conn.now)
        (state S.Store tx.new.conn.now) result }
{
    for place in 0..7 {
        insert_setting(tx, code_name(place), codes.code(place))?;
    }
    Ok(())
}

/// The name under which the code at a place of the table is kept.
fn code_name(place: usize) -> &'static str
    requires { place < 7 }
    ensures { slice_get code_names place ≡ Some result.now }
{
    match place {
        0 => "gate-in",
        1 => "gate-out",
        2 => "yard-move",
        3 => "discharge-list",
        4 => "load-list",
        5 => "discharge-report",
        _ => "load-report",
    }
}

/// Writes the row of a setting.
pub fn insert_setting<'a, S: Alter>(
    tx: &mut Transaction<'_, S>,
    name: &'a str,
    value: &'a [u8],
) -> Result<(), TableFault>
    ensures same_reference { tx.new.conn.ghost_name ≡ tx.old.conn.ghost_name }
    ensures writes { Writes (with_settings (setting_row name.now value.now ∷ [])) (state S.Store tx.old.conn.now)
        (state S.Store tx.new.conn.now) result }
{
    tx.execute(
        "INSERT INTO setting (name, value) VALUES (?1, ?2)",
        &[characters(name.as_bytes()), characters(value)],
    )?;
    Ok(())
}

/// Writes the rows of the blocks of a yard.
pub fn insert_blocks<S: Alter>(
    tx: &mut Transaction<'_, S>,
    blocks: &[Block],
) -> Result<(), TableFault>
    ensures same_reference { tx.new.conn.ghost_name ≡ tx.old.conn.ghost_name }
    ensures writes { WritesIfOpen (with_blocks blocks.now) (state S.Store tx.old.conn.now)
        (state S.Store tx.new.conn.now) result }
{
    for block in blocks {
        insert_block(tx, *block)?;
    }
    Ok(())
}

fn insert_block<S: Alter>(tx: &mut Transaction<'_, S>, block: Block) -> Result<(), TableFault>
    ensures same_reference { tx.new.conn.ghost_name ≡ tx.old.conn.ghost_name }
    ensures writes { Writes (with_blocks (block ∷ [])) (state S.Store tx.old.conn.now)
        (state S.Store tx.new.conn.now) result }
{
    let letter = [block.letter];
    tx.execute(
        "INSERT INTO block (letter, bays, lanes, tiers) VALUES (?1, ?2, ?3, ?4)",
        &[
            characters(&letter),
            integer(u32::from(block.bays)),
            integer(u32::from(block.rows)),
            integer(u32::from(block.tiers)),
        ],
    )?;
    Ok(())
}

/// The accounts of a set-up, whose partners have sent nothing yet.
pub(crate) fn insert_partners<S: Alter>(
    tx: &mut Transaction<'_, S>,
    accounts: &[Account],
) -> Result<(), TableFault>
    requires { length accounts.now ≤ most_partners }
    ensures same_reference { tx.new.conn.ghost_name ≡ tx.old.conn.ghost_name }
    ensures writes { WritesIfOpen (with_partners (partners_from 1 (account_contents accounts.now)))
        (state S.Store tx.old.conn.now) (state S.Store tx.new.conn.now) result }
{
    let mut id = 1;
    for account in accounts {
        add_partner(tx, id, account.code.as_str(), account.kind)?;
        id += 1;
    }
    Ok(())
}

/// Adds an account, whose partner has sent nothing yet; the caller gives the next id and a code of no account.
pub fn add_partner<S: Alter>(
    tx: &mut Transaction<'_, S>,
    id: u16,
    code: &str,
    kind: PartnerKind,
) -> Result<(), TableFault>
    ensures same_reference { tx.new.conn.ghost_name ≡ tx.old.conn.ghost_name }
    ensures writes { Writes (with_partner id code.now kind) (state S.Store tx.old.conn.now)
        (state S.Store tx.new.conn.now) result }
{
    insert_account(tx, u32::from(id), code, kind, 1)
}

/// Adds an account with the number that its partner's next interchange has.
pub fn insert_account<S: Alter>(
    tx: &mut Transaction<'_, S>,
    id: u32,
    code: &str,
    kind: PartnerKind,
    next: u32,
) -> Result<(), TableFault>
    ensures same_reference { tx.new.conn.ghost_name ≡ tx.old.conn.ghost_name }
    ensures writes { Writes (with_partners (record { id = id; code = code.now; kind = kind; next = next } ∷ []))
        (state S.Store tx.old.conn.now) (state S.Store tx.new.conn.now) result }
{
    tx.execute(
        "INSERT INTO partner (id, code, kind, next) VALUES (?1, ?2, ?3, ?4)",
        &[
            integer(id),
            characters(code.as_bytes()),
            integer(kind_code(kind)),
            integer(next),
        ],
    )?;
    Ok(())
}

/// Writes the number that the partner's next interchange has into its row.
pub fn set_next<S: Alter>(
    tx: &mut Transaction<'_, S>,
    partner: u16,
    next: u32,
) -> Result<(), TableFault>
    ensures same_reference { tx.new.conn.ghost_name ≡ tx.old.conn.ghost_name }
    ensures writes { Writes (with_next partner next) (state S.Store tx.old.conn.now)
        (state S.Store tx.new.conn.now) result }
{
    tx.execute(
        "UPDATE partner SET next = ?2 WHERE id = ?1",
        &[integer(u32::from(partner)), integer(next)],
    )?;
    Ok(())
}

//! Comma-separated values that are written record by record.
ghost use Rattle.office_report_data.specs.Tables.{HasGiven, IsBetweenRecords, record_text, written_rows};
ghost use Rattle.std.specs.Prelude.{◌≡◌, ◌++◌, map, string_bytes, IfOk, OnOk};

use csv::{Writer, WriterBuilder};
use std::alloc::{AllocError, Global};

/// A table with this header, and no row yet.
pub(crate) fn table_under(alloc: Global, header: &[&[u8]]) -> Result<Writer<Vec<u8>>, AllocError>
    ensures { IfOk result (λ table. HasGiven table (record_text (map (λ field. field.now) header.now))) }
{
    let mut table = WriterBuilder::new().from_writer(Vec::new(alloc));
    push_record(&mut table, header)?;
    Ok(table)
}

/// Appends a record of these fields.
pub(crate) fn push_record(table: &mut Writer<Vec<u8>>, fields: &[&[u8]]) -> Result<(), AllocError>
    requires { IsBetweenRecords table.old }
    ensures { OnOk result (HasGiven table.new
        (written_rows table.old ++ record_text (map (λ field. field.now) fields.now))) }
{
    // A writer over memory fails only when out of memory.
    match table.write_fields(fields) {
        Ok(()) => Ok(()),
        Err(_) => Err(AllocError),
    }
}

/// The table as text.
pub(crate) fn table_text(table: Writer<Vec<u8>>) -> Result<String, AllocError>
    ensures { IfOk result (λ text. string_bytes text ≡ written_rows table) }
{
    let bytes = table_bytes(table)?;

    // The fields are texts, and so is what is written of them.
    match String::from_utf8(bytes) {
        Ok(text) => Ok(text),
        Err(_) => Err(AllocError),
    }
}

/// The bytes that a table has been given.
pub(crate) fn table_bytes(table: Writer<Vec<u8>>) -> Result<Vec<u8>, AllocError>
    ensures { IfOk result (λ bytes. bytes.items ≡ written_rows table) }
{
    match table.into_inner() {
        Ok(bytes) => Ok(bytes),
        Err(_) => Err(AllocError),
    }
}

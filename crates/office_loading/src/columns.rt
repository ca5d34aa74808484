ghost use Rattle.std.specs.Prelude.{◌≡◌, ℕ, ◌^◌, string_bytes};
ghost use Rattle.office_loading.specs.Columns.{SaysNumber, SaysBytes, SaysText, SaysKind, SaysWay, SaysLaden, SaysSide, SaysState, SaysContainer, SaysSize, SaysSlot, SaysMoment, SaysLetter};
ghost use Rattle.office_loading.specs.Decoded.{ReadsAs, fault_of_column, itself};
ghost use Rattle.sqlite.specs.Order.{column};

use box6346::{BoxNumber, SizeType, Slot};
use edi_messages::PartnerKind;
use edi_syntax::Moment;
use office_tables::TableFault;
use sqlite::types::ValueRef;
use sqlite::{Error, ErrorCode, Row};
use terminal_core::{LineState, Side, Way};

/// The number in a column.
pub fn number_at(row: &Row, at: usize) -> Result<u32, TableFault>
    ensures { ReadsAs itself (SaysNumber (2 ^ 32)) (column row.now at) result }
{
    match row.get_ref(at) {
        Ok(ValueRef::Int(number)) => match u32::try_from(number) {
            Ok(number) => Ok(number),
            Err(_) => Err(TableFault::Damaged),
        },
        _ => Err(TableFault::Damaged),
    }
}

/// The number in a column, of 16 bits.
pub fn short_at(row: &Row, at: usize) -> Result<u16, TableFault>
    ensures { ReadsAs itself (SaysNumber (2 ^ 16)) (column row.now at) result }
{
    let number = number_at(row, at)?;
    match u16::try_from(number) {
        Ok(short) => Ok(short),
        Err(_) => Err(TableFault::Damaged),
    }
}

/// The number in a column, of 8 bits.
pub(crate) fn byte_at(row: &Row, at: usize) -> Result<u8, TableFault>
    ensures { ReadsAs itself (SaysNumber (2 ^ 8)) (column row.now at) result }
{
    let number = number_at(row, at)?;
    match u8::try_from(number) {
        Ok(byte) => Ok(byte),
        Err(_) => Err(TableFault::Damaged),
    }
}

/// The bytes of the text in a column.
pub(crate) fn bytes_at(row: &Row, at: usize) -> Result<&[u8], TableFault>
    ensures { ReadsAs (λ bytes. bytes.now) SaysBytes (column row.now at) result }
{
    match row.get_ref(at) {
        Ok(ValueRef::Text(bytes)) => Ok(bytes),
        _ => Err(TableFault::Damaged),
    }
}

/// The text in a column.
pub fn text_at(row: &Row, at: usize) -> Result<String, TableFault>
    ensures { ReadsAs string_bytes SaysText (column row.now at) result }
{
    match row.get(at) {
        Ok(text) => Ok(text),
        Err(error) => Err(fault_of_column(error)),
    }
}

/// What a column that can't be read is to a caller of the tables.
fn fault_of_column(error: Error) -> TableFault
    ensures { result ≡ fault_of_column error }
{
    match error {
        Error::SqliteFailure(ErrorCode::OutOfMemory) => TableFault::Memory,
        _ => TableFault::Damaged,
    }
}

/// What a partner is.
pub(crate) fn kind_at(row: &Row, at: usize) -> Result<PartnerKind, TableFault>
    ensures { ReadsAs itself SaysKind (column row.now at) result }
{
    match number_at(row, at)? {
        1 => Ok(PartnerKind::Gate),
        2 => Ok(PartnerKind::Line),
        3 => Ok(PartnerKind::Quay),
        4 => Ok(PartnerKind::Yard),
        _ => Err(TableFault::Damaged),
    }
}

/// By which way a container came or went.
pub(crate) fn way_at(row: &Row, at: usize) -> Result<Way, TableFault>
    ensures { ReadsAs itself SaysWay (column row.now at) result }
{
    match number_at(row, at)? {
        1 => Ok(Way::Gate),
        2 => Ok(Way::Ship),
        _ => Err(TableFault::Damaged),
    }
}

/// Whether a container is full.
pub(crate) fn laden_at(row: &Row, at: usize) -> Result<bool, TableFault>
    ensures { ReadsAs itself SaysLaden (column row.now at) result }
{
    match number_at(row, at)? {
        0 => Ok(false),
        1 => Ok(true),
        _ => Err(TableFault::Damaged),
    }
}

/// Which of a call's lists.
pub fn side_at(row: &Row, at: usize) -> Result<Side, TableFault>
    ensures { ReadsAs itself SaysSide (column row.now at) result }
{
    match number_at(row, at)? {
        1 => Ok(Side::Load),
        2 => Ok(Side::Discharge),
        _ => Err(TableFault::Damaged),
    }
}

/// How far a line of a list is.
pub(crate) fn state_at(row: &Row, at: usize) -> Result<LineState, TableFault>
    ensures { ReadsAs itself SaysState (column row.now at) result }
{
    match number_at(row, at)? {
        0 => Ok(LineState::Pending),
        1 => Ok(LineState::Done),
        _ => Err(TableFault::Damaged),
    }
}

/// A container's number.
pub(crate) fn container_at(row: &Row, at: usize) -> Result<BoxNumber, TableFault>
    ensures { ReadsAs itself SaysContainer (column row.now at) result }
{
    let text = bytes_at(row, at)?;
    match BoxNumber::parse(text) {
        Ok(container) => Ok(container),
        Err(_) => Err(TableFault::Damaged),
    }
}

/// A size-type code.
pub(crate) fn size_at(row: &Row, at: usize) -> Result<SizeType, TableFault>
    ensures { ReadsAs itself SaysSize (column row.now at) result }
{
    let text = bytes_at(row, at)?;
    match SizeType::parse(text) {
        Ok(size_type) => Ok(size_type),
        Err(_) => Err(TableFault::Damaged),
    }
}

/// A slot, by its name.
pub(crate) fn slot_at(row: &Row, at: usize) -> Result<Slot, TableFault>
    ensures { ReadsAs itself SaysSlot (column row.now at) result }
{
    let text = bytes_at(row, at)?;
    let Some(slot) = Slot::parse(text) else {
        return Err(TableFault::Damaged);
    };
    if slot.text().as_slice() == text {
        Ok(slot)
    } else {
        Err(TableFault::Damaged)
    }
}

/// A moment, by its twelve digits.
pub(crate) fn moment_at(row: &Row, at: usize) -> Result<Moment, TableFault>
    ensures { ReadsAs itself SaysMoment (column row.now at) result }
{
    let text = bytes_at(row, at)?;
    let Some(moment) = Moment::parse(text) else {
        return Err(TableFault::Damaged);
    };
    if moment.digits().as_slice() == text {
        Ok(moment)
    } else {
        Err(TableFault::Damaged)
    }
}

/// A text of one byte.
pub(crate) fn letter_at(row: &Row, at: usize) -> Result<u8, TableFault>
    ensures { ReadsAs itself SaysLetter (column row.now at) result }
{
    match bytes_at(row, at)? {
        [letter] => Ok(*letter),
        _ => Err(TableFault::Damaged),
    }
}

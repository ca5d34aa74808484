ghost use Rattle.std.specs.Prelude.{◌≡◌};
ghost use Rattle.office_loading.specs.Decoded.{IsSaid, ReadsAs, fault_of_column};
ghost use Rattle.office_closing.specs.{Lists.list_content, Reading.{SaysArchive, SaysBytes, SaysFile, SaysList, SaysSealed, SaysSegment, closed_for_file}};
ghost use Rattle.office_closing.specs.Register.{archive_content, sealed_content};
ghost use Rattle.sqlite.specs.Order.{column};

use crate::register::{Archive, Segment};
use crate::sealed_archives::SealedArchive;
use crate::settled_lists::SettledList;
use edi_messages::Call;
use office_loading::{Record, number_at, short_at, side_at, text_at};
use office_tables::TableFault;
use sqlite::{Error, ErrorCode, Row};

impl Record for Archive {
    ghost says = { λ row read. SaysArchive row (archive_content read) };

    ghost is_said = { IsSaid SaysArchive };

    fn read(row: &Row) -> Result<Archive, TableFault> {
        let place = short_at(row, 0)?;
        let file = text_at(row, 1)?;
        let visits = number_at(row, 2)?;
        Ok(Archive {
            place,
            file,
            visits,
        })
    }
}

impl Record for Segment {
    ghost says = { λ row read. SaysSegment row read };

    ghost is_said = { IsSaid SaysSegment };

    fn read(row: &Row) -> Result<Segment, TableFault> {
        let partner = short_at(row, 0)?;
        let archive = short_at(row, 1)?;
        let last = number_at(row, 2)?;
        Ok(Segment {
            partner,
            archive,
            last,
        })
    }
}

impl Record for SettledList {
    ghost says = { λ row read. SaysList row (list_content read) };

    ghost is_said = { IsSaid SaysList };

    fn read(row: &Row) -> Result<SettledList, TableFault> {
        let vessel = text_at(row, 0)?;
        let voyage = text_at(row, 1)?;
        let side = side_at(row, 2)?;
        let archive = short_at(row, 3)?;
        let lines = text_at(row, 4)?;
        Ok(SettledList {
            call: Call { vessel, voyage },
            side,
            archive,
            lines,
        })
    }
}

impl Record for SealedArchive {
    ghost says = { λ row read. SaysSealed row (sealed_content read) };

    ghost is_said = { IsSaid SaysSealed };

    fn read(row: &Row) -> Result<SealedArchive, TableFault> {
        let archive = short_at(row, 0)?;
        let terminal = text_at(row, 1)?;
        let seals = bytes_at(row, 2)?;
        Ok(SealedArchive {
            archive,
            terminal,
            seals,
        })
    }
}

/// The bytes in a column.
fn bytes_at(row: &Row, at: usize) -> Result<Vec<u8>, TableFault>
    ensures { ReadsAs (λ bytes. bytes.items) SaysBytes (column row.now at) result }
{
    match row.get(at) {
        Ok(bytes) => Ok(bytes),
        Err(error) => Err(fault_of_column(error)),
    }
}

/// What a column that can't be read is to a caller of the tables.
fn fault_of_column(error: Error) -> TableFault
    ensures { result ≡ fault_of_column error }
{
    match error {
        Error::SqliteFailure(ErrorCode::OutOfMemory) => TableFault::Memory,
        _ => TableFault::Damaged,
    }
}

/// The row that marks an archive: the file of the store for which it was closed.
#[derive(Drop)]
pub(crate) struct ClosedFor {
    pub file: String,
}

impl Record for ClosedFor {
    ghost says = { λ row read. SaysFile row (closed_for_file read) };

    ghost is_said = { IsSaid SaysFile };

    fn read(row: &Row) -> Result<ClosedFor, TableFault> {
        let file = text_at(row, 0)?;
        Ok(ClosedFor { file })
    }
}

ghost use Rattle.std.specs.Prelude.{◌≡◌};
ghost use Rattle.office_tables.specs.{Faults.{fault_of, IsOfStore}, declared.table_fault.TableFault.TheVariants.Memory};

use sqlite::{Error, ErrorCode};
use std::alloc::AllocError;
use thiserror::Error;

/// Why the tables did not do what was asked.
#[derive(Debug, Drop, Error)]
pub enum TableFault {
    /// The store failed or refused, as SQL reports it.
    #[error("the store failed")]
    Store(Error),
    /// The rows are those of no office.
    #[error("the rows are those of no office")]
    Damaged,
    /// The tables are of another version, or of none.
    #[error("the tables are of another version, or of none")]
    Version,
    /// Memory was refused.
    #[error("memory was refused")]
    Memory,
}

impl From<AllocError> for TableFault {
    ghost from_gives = { λ _ fault. fault ≡ Memory };

    fn from(_: AllocError) -> TableFault {
        TableFault::Memory
    }
}

impl From<Error> for TableFault {
    ghost from_gives = { λ error fault. (fault ≡ fault_of error) × IsOfStore fault };

    fn from(error: Error) -> TableFault {
        match error {
            Error::SqliteFailure(ErrorCode::OutOfMemory) => TableFault::Memory,
            other => TableFault::Store(other),
        }
    }
}

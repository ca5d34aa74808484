ghost use Rattle.std.specs.Prelude.{◌≡◌};
ghost use Rattle.office_closing.specs.Visits.{fault_of_visit};
ghost use Rattle.office_closing.specs.declared.faults.CloseFault.TheVariants as fault;

use crate::comparing::Difference;
use crate::visits::VisitFault;
use office_tables::TableFault;
use std::alloc::AllocError;
use thiserror::Error;

/// One of the four files of a closing.
#[derive(Clone, Copy, Debug, PartialEq, Eq)]
pub enum File {
    /// The store.
    Store,
    /// The register of the store's archives.
    Register,
    /// The archive.
    Archive,
    /// The archive's own register.
    ArchiveRegister,
}

/// A fault, and the file that it is of.
#[derive(Debug, Drop)]
pub struct FileFault {
    /// The file.
    pub file: File,
    /// What is wrong with it.
    pub fault: TableFault,
}

/// Why an archive does not take a store's history.
#[derive(Clone, Copy, Debug)]
pub enum Refusal {
    /// The store is an archive itself.
    Closed,
    /// The archive is of another terminal, or has an account that the store does not have.
    Office,
    /// The archive is of a later day than the store.
    Later,
    /// The archive's register names other archives than the store's, or another store; or the store's could not have this
    /// archive.
    Register,
    /// The archive keeps something else under this number.
    Interchange(Difference),
    /// The texts that the archive has, closed or waiting, are not the first of the store's in the order in which they arrived, or not all of them, where all are wanted.
    Order,
    /// The archive keeps something else than the store's register has sealed with it.
    Seals,
    /// The visit of this number is over in the archive, and the store has another one.
    Visit(u32),
}

/// Why history was not put away.
#[derive(Debug, Drop, Error)]
pub enum CloseFault {
    /// The archive does not take the store's history.
    #[error("the archive is no copy of the store")]
    Archive(Refusal),
    /// A file can't be read or written.
    #[error("a file of the closing")]
    File(FileFault),
    /// The store or the archive can't be read where they are compared.
    #[error("a file can't be compared")]
    Comparing(FileFault),
    /// Memory was refused.
    #[error("memory was refused")]
    Memory,
}

impl From<AllocError> for CloseFault {
    ghost from_gives = { λ _ made. made ≡ fault.Memory };

    fn from(_: AllocError) -> CloseFault {
        CloseFault::Memory
    }
}

impl From<Refusal> for CloseFault {
    ghost from_gives = { λ why made. made ≡ fault.Archive why };

    fn from(why: Refusal) -> CloseFault {
        CloseFault::Archive(why)
    }
}

impl From<VisitFault> for CloseFault {
    ghost from_gives = { λ why made. made ≡ fault_of_visit why };

    fn from(why: VisitFault) -> CloseFault {
        match why {
            VisitFault::Differs(number) => CloseFault::Archive(Refusal::Visit(number)),
            VisitFault::Memory => CloseFault::Memory,
        }
    }
}

//! The archives of a store in files: the shelf that they are on, which of them there are, and how history is put away.
#![tactic(auto)]

mod archives;
mod closing;
mod file_archives;
mod in_files;
mod is_archive;
pub mod laws;
mod shelf;
mod whole;

pub use archives::archives_over;
pub use closing::{
    CloseCommandFault, ClosingFile, ClosingFiles, OfFour, UnknownFile, close_alike, close_over,
};
pub use file_archives::{FileArchives, StoreShelf, UnknownShelf};
pub use in_files::{InFiles, InUnknownFiles};
pub use shelf::{ArchiveStart, FileShelf, Finds, Found};
pub use whole::{LeftFiles, close_whole};

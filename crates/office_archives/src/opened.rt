use crate::looked::Looked;
use sqlite::Alter;

/// An archive that is open: its place in the order of closing, and what it is read by.
#[derive(Drop)]
pub struct Opened<S: Alter> {
    pub(crate) place: u16,
    pub(crate) archive: Looked<S>,
    // Whether all its seals were found right since it was opened.
    pub(crate) is_sealed: bool,
}

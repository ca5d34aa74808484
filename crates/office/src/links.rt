use std::alloc::AllocError;
use std::fs;
use std::io::ErrorKind;

/// The path of the file that a store's path leads to: of a link, that of the file at its end, beside which the store's register
/// and archives lie; of anything else, and of a link that leads nowhere, the path itself.
pub(crate) fn followed(rt: &HostRuntime, path: &str) -> Result<String, AllocError> {
    if is_link(rt, path) {
        match fs::canonicalize(rt, path) {
            Ok(found) => return Ok(found.into_string()),
            Err(error) if error.kind() == ErrorKind::OutOfMemory => return Err(AllocError),
            Err(_) => {}
        }
    }
    String::from_str(rt.alloc(), path)
}

/// Whether a path names a link.
pub(crate) fn is_link(rt: &HostRuntime, path: &str) -> bool {
    match fs::symlink_metadata(rt, path) {
        Ok(found) => found.is_symlink(),
        Err(_) => false,
    }
}

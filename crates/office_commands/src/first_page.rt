use std::alloc::{AllocError, Global};
use std::fs::{self, File};
use std::io::Write;
use std::os::unix::fs::MetadataExt;

/// How many bytes a page of a new store's file has. A delivery writes whole pages, so small ones cost it less.
const PAGE_BYTES: usize = 1024;

/// The first bytes of a database without tables, all of whose pages have 1,024 bytes: the header of the file, and the
/// head of its one page, a leaf without rows (SQLite's file format, 1.3 and 1.6). The rest of the page is zeros.
const HEAD: [u8; 108] = [
    83, 81, 76, 105, 116, 101, 32, 102, 111, 114, 109, 97, 116, 32, 51, 0, 4, 0, 2, 2, 0, 64, 32,
    32, 0, 0, 0, 0, 0, 0, 0, 1, 0, 0, 0, 0, 0, 0, 0, 0, 0, 0, 0, 1, 0, 0, 0, 4, 0, 0, 0, 0, 0, 0,
    0, 0, 0, 0, 0, 1, 0, 0, 0, 0, 0, 0, 0, 0, 0, 0, 0, 0, 0, 0, 0, 0, 0, 0, 0, 0, 0, 0, 0, 0, 0, 0,
    0, 0, 0, 0, 0, 0, 0, 0, 0, 0, 0, 46, 118, 136, 13, 0, 0, 0, 0, 4, 0, 0,
];

/// Begins the file of a store that isn't there as a database without tables, of pages of 1,024 bytes. The page is written
/// and synced under another name first, so that it comes whole or not at all, and never over a file that another process
/// has made meanwhile. Where that can't be done nothing is there afterwards either, and who opens the store makes its file
/// as it is used to.
pub(crate) fn begin_file(rt: &HostRuntime, path: &str) {
    let Ok(draft) = format!(in rt.alloc(); "{path}-begun") else {
        return;
    };
    if fs::metadata(rt, path).is_ok() {
        remove_second_name(rt, path, draft.as_str());
    } else if let Ok(file) = File::create_new(rt, draft.as_str()) {
        if write_page(rt.alloc(), file) {
            let _ = fs::hard_link(rt, draft.as_str(), path);
        }
        let _ = fs::remove_file(rt, draft.as_str());
    }
}

/// Removes the other name of a file, if a process that was stopped between its two steps has left it that name.
fn remove_second_name(rt: &HostRuntime, path: &str, draft: &str) {
    if let (Ok(file), Ok(other)) = (fs::metadata(rt, path), fs::metadata(rt, draft)) {
        if file.ino() == other.ino() && file.dev() == other.dev() && file.nlink() == 2 {
            let _ = fs::remove_file(rt, draft);
        }
    }
}

/// Whether the page was written to a new file, and synced.
fn write_page(alloc: Global, file: File) -> bool {
    let mut file = file;
    match page(alloc) {
        Ok(bytes) => file.write_all(bytes.as_slice()).is_ok() && file.sync_all().is_ok(),
        Err(_) => false,
    }
}

/// The page.
fn page(alloc: Global) -> Result<Vec<u8>, AllocError> {
    let mut bytes = HEAD.to_vec(alloc)?;
    bytes.resize(PAGE_BYTES, 0)?;
    Ok(bytes)
}

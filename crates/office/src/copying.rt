ghost use Rattle.std.specs.{Prelude.{◌≡◌, ◌<◌, ◌≤◌, ◌+◌, ℕ, List, IsTrue, OnOk, length, take, drop}, Io.KnownBytes.Appends};

use sqlite_disk::Disk;
use std::io::{Error, ErrorKind, Result, Write};

/// How many bytes are copied at once.
const PART: usize = 16_384;

/// Copies a file of a store, to its end, into a writer, in parts: a large file takes no more memory than a small one. The file is
/// only read. After an error some of it may be written.
///
/// An error is one of the file or of the writer; also that an earlier sync of the file failed.
pub(crate) fn copy_file<D: Disk, W: Write>(file: &mut D, writer: &mut W) -> Result<()>
    ensures copied { IsTrue (D.Disk.is_clean file.new) →
        OnOk result (Appends (W.contents writer.old) (W.contents writer.new) (D.Disk.seen file.old)) }
    ensures stays { D.Disk.seen file.new ≡ D.Disk.seen file.old }
    ensures leaves { (left : List ℕ) → D.Disk.may_leave file.new left → D.Disk.may_leave file.old left }
{
    if !file.may_be_used() {
        return Err(Error::from(ErrorKind::Other));
    }
    let length = file.len()?;
    copy_parts(file, length, writer)
}

/// Copies the first `length` bytes of a file of a store into a writer.
fn copy_parts<D: Disk, W: Write>(file: &mut D, length: usize, writer: &mut W) -> Result<()>
    requires { IsTrue (D.Disk.is_usable file.old) }
    ensures copied { IsTrue (D.Disk.is_clean file.new) →
        OnOk result (Appends (W.contents writer.old) (W.contents writer.new) (take length (D.Disk.seen file.old))) }
    ensures stays { D.Disk.seen file.new ≡ D.Disk.seen file.old }
    ensures clean { IsTrue (D.Disk.is_clean file.new) → IsTrue (D.Disk.is_clean file.old) }
    ensures leaves { (left : List ℕ) → D.Disk.may_leave file.new left → D.Disk.may_leave file.old left }
{
    let mut at = 0;
    while at < length {
        let count = PART.min(length - at);
        copy_part(file, at, count, writer)?;
        at += count;
    }
    Ok(())
}

/// Copies `count` bytes of a file of a store, from offset `at` on, into a writer.
fn copy_part<D: Disk, W: Write>(file: &mut D, at: usize, count: usize, writer: &mut W) -> Result<()>
    requires usable { IsTrue (D.Disk.is_usable file.old) }
    requires some { 0 < count }
    requires few { count ≤ PART }
    ensures copied { IsTrue (D.Disk.is_clean file.new) →
        OnOk result (Appends (W.contents writer.old) (W.contents writer.new) (take count (drop at (D.Disk.seen file.old)))) }
    ensures stays { D.Disk.seen file.new ≡ D.Disk.seen file.old }
    ensures clean { IsTrue (D.Disk.is_clean file.new) → IsTrue (D.Disk.is_clean file.old) }
    ensures usable { IsTrue (D.Disk.is_usable file.new) }
    ensures leaves { (left : List ℕ) → D.Disk.may_leave file.new left → D.Disk.may_leave file.old left }
{
    let mut buffer = [0u8; PART];
    let part = &mut buffer[..count];
    file.read_at(at, part)?;
    writer.write_all(part)
}

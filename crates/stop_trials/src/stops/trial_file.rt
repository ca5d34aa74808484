//! A file in memory that reads a crash as it is set to. `Memory` of `sqlite_disk` supposes that a torn write leaves any
//! bytes, and over it a commit syncs twice. The program supposes that each byte is old or new, and syncs once.

ghost use Rattle.std.{specs.Prelude.{◌≡◌, ◌⊎◌, [], length, true, false, refl, is_ok, IsTrue, OnOk, OnErr}, proofs.Common.{inl, inr}};
ghost use Rattle.sqlite_disk.specs.{Disk.{Holds, Torn, Cut, CountsFault}, Refusal.finds_no_room};

use sqlite_disk::{Crash, Disk, Tally, digest_of};
use std::alloc::{AllocError, Global};
use std::io;

/// A crash of it leaves all that was written, or what of it was synced.
#[derive(Drop)]
pub(crate) struct TrialFile {
    bytes: Vec<u8>,
    synced: Vec<u8>,
    // Whether a torn write leaves each byte old or new.
    mixes: bool,
    usable: bool,
    faults: u64,
    caught: u64,
}

impl TrialFile {
    pub(crate) fn new(alloc: Global, mixes: bool) -> TrialFile
        ensures usable { IsTrue result.usable }
    {
        TrialFile {
            bytes: Vec::new(alloc),
            synced: Vec::new(alloc),
            mixes,
            usable: true,
            faults: 0,
            caught: 0,
        }
    }

    /// What it reads as.
    pub(crate) fn bytes(&self) -> &[u8] {
        &self.bytes
    }
}

impl Disk for TrialFile {
    ghost seen = { λ f. f.bytes.items };

    ghost may_leave = { λ f c. (c ≡ f.bytes.items) ⊎ (c ≡ f.synced.items) };

    ghost is_usable = { λ f. f.usable };

    ghost faults = { λ f. f.faults };

    ghost is_clean = { λ _. true };

    ghost tally_of = { λ f. record { caught = f.caught; refused = 0 } };

    ghost key_of = { λ _. 0 };

    ghost is_fair = { λ _ _. true };

    ghost fair_if_clean = { λ _ _ _. refl };

    ghost seen_may_stay = { λ _. inl refl };

    ghost is_mixing = { λ f. f.mixes };

    fn mixes(&self) -> bool {
        self.mixes
    }

    fn key(&self) -> u64 {
        0
    }

    fn tally(&self) -> Tally {
        Tally {
            caught: self.caught,
            refused: 0,
        }
    }

    fn may_be_used(&self) -> bool {
        self.usable
    }

    fn len(&mut self) -> io::Result<usize> {
        Ok(self.bytes.len())
    }

    fn read_at(&mut self, at: usize, buf: &mut [u8]) -> io::Result<()> {
        if at > self.bytes.len() || buf.len() > self.bytes.len() - at {
            return Err(io::ErrorKind::UnexpectedEof.into());
        }
        buf.copy_from_slice(&self.bytes[at..at + buf.len()]);
        Ok(())
    }

    fn read_checked(&mut self, key: u64, want: u64, at: usize, buf: &mut [u8]) -> io::Result<()> {
        self.read_at(at, buf)?;
        if digest_of(key, buf) != want {
            self.faults = self.faults.saturating_add(1);
            self.caught = self.caught.saturating_add(1);
            return Err(io::ErrorKind::InvalidData.into());
        }
        Ok(())
    }

    fn write_at(&mut self, at: usize, bytes: &[u8]) -> io::Result<()> {
        count(overwrite(&mut self.bytes, at, bytes), &mut self.faults)
    }

    fn set_len(&mut self, len: usize) -> io::Result<()> {
        count(self.bytes.resize(len, 0), &mut self.faults)
    }

    fn sync(&mut self) -> io::Result<()> {
        self.usable = false;
        count(replace(&mut self.synced, &self.bytes), &mut self.faults)?;
        self.usable = true;
        Ok(())
    }
}

/// Loses all that was not synced, or nothing if memory runs out.
impl Crash for TrialFile {
    fn crash(&mut self) {
        self.usable = true;
        let _ = replace(&mut self.bytes, &self.synced);
    }
}

/// Counts what failed.
fn count(outcome: Result<(), AllocError>, faults: &mut u64) -> io::Result<()>
    ensures variant { is_ok result ≡ is_ok outcome }
    ensures kind { finds_no_room result ≡ false }
    ensures faults { CountsFault result faults.old faults.new }
{
    if outcome.is_err() {
        *faults = faults.saturating_add(1);
        return Err(io::Error::from(io::ErrorKind::OutOfMemory));
    }
    Ok(())
}

/// Copies the bytes into the file's place.
fn replace(file: &mut Vec<u8>, bytes: &[u8]) -> Result<(), AllocError>
    ensures ok { OnOk result (file.new.items ≡ bytes.now) }
    ensures err { OnErr result (file.new.items ≡ file.old.items) }
{
    let mut copy = Vec::new(*file.allocator());
    copy.extend_from_slice(bytes)?;
    *file = copy;
    Ok(())
}

/// Writes the bytes at that offset, past the end too.
fn overwrite(file: &mut Vec<u8>, at: usize, bytes: &[u8]) -> Result<(), AllocError>
    ensures written { OnOk result (Holds file.new.items at bytes.now) }
    ensures others { Torn at (length bytes.now) file.old.items file.new.items }
    ensures err { OnErr result (file.new.items ≡ file.old.items) }
{
    let end = at.checked_add(bytes.len()).ok_or(AllocError)?;
    if end > file.len() {
        file.resize(end, 0)?;
    }
    file[at..end].copy_from_slice(bytes);
    Ok(())
}

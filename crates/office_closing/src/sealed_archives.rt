ghost use Rattle.std.specs.{Prelude.{◌≡◌, ◌↔◌, ◌++◌, true, IfOk, OnOk, map, filter}, Option.option_map};
ghost use Rattle.office_closing.specs.{Register.sealed_content, Seals.sealed_with, Copies.is_sealed_with};

use office_loading::append;
use std::alloc::{AllocError, Global};

/// What tells an archive from those of other stores: the terminal's code, and the seals of what it closes, of each partner's
/// numbers in turn 32 bytes for each 50 of them, and for those that are left.
#[derive(Debug, Drop)]
pub struct SealedArchive {
    /// The place of the archive.
    pub archive: u16,
    /// The terminal's code.
    pub terminal: String,
    /// The seals.
    pub seals: Vec<u8>,
}

/// What was sealed with the archive at a place, if anything was.
pub(crate) fn sealed_with(sealed: &[SealedArchive], place: u16) -> Option<&SealedArchive>
    ensures { option_map (λ one. sealed_content one.now) result ≡ sealed_with place (map sealed_content sealed.now) }
{
    for one in sealed {
        if one.archive == place {
            return Some(one);
        }
    }
    None
}

/// Those that were sealed with the archive at a place, copied.
pub(crate) fn all_sealed_with(
    alloc: Global,
    sealed: &[SealedArchive],
    place: u16,
) -> Result<Vec<SealedArchive>, AllocError>
    ensures { IfOk result (λ found. map sealed_content found.items
        ≡ filter (is_sealed_with place) (map sealed_content sealed.now)) }
{
    let mut found = Vec::new(alloc);
    for other in sealed {
        if other.archive == place {
            append(&mut found, copied(alloc, other)?)?;
        }
    }
    Ok(found)
}

/// Copies of these at the end.
pub(crate) fn append_sealed(
    alloc: Global,
    sealed: &mut Vec<SealedArchive>,
    more: &[SealedArchive],
) -> Result<(), AllocError>
    ensures { OnOk result (map sealed_content sealed.new.items
        ≡ map sealed_content sealed.old.items ++ map sealed_content more.now) }
{
    for one in more {
        append(sealed, copied(alloc, one)?)?;
    }
    Ok(())
}

/// The same again.
fn copied(alloc: Global, one: &SealedArchive) -> Result<SealedArchive, AllocError>
    ensures { IfOk result (λ copy. sealed_content copy ≡ sealed_content one.now) }
{
    let terminal = String::from_str(alloc, one.terminal.as_str())?;
    let seals = Vec::from_slice(alloc, &one.seals)?;
    Ok(SealedArchive {
        archive: one.archive,
        terminal,
        seals,
    })
}

/// Whether two registers have sealed the same.
pub(crate) fn are_same_sealed(one: &[SealedArchive], other: &[SealedArchive]) -> bool
    ensures { (result ≡ true) ↔ (map sealed_content one.now ≡ map sealed_content other.now) }
{
    if one.len() != other.len() {
        return false;
    }
    for (index, sealed) in one.iter().enumerate() {
        if !is_same_sealed(sealed, &other[index]) {
            return false;
        }
    }
    true
}

fn is_same_sealed(one: &SealedArchive, other: &SealedArchive) -> bool
    ensures { (result ≡ true) ↔ (sealed_content one.now ≡ sealed_content other.now) }
{
    one.archive == other.archive
        && one.terminal.as_bytes() == other.terminal.as_bytes()
        && one.seals.as_slice() == other.seals.as_slice()
}

ghost use Rattle.std.specs.Prelude.{◌≡◌, ◌≤◌, IfOk, filter, length};
ghost use Rattle.office_admission.specs.Limits.{most_partners};
ghost use Rattle.office_closing.specs.{Copies.{is_with, office_content, taken_of}, Planning.IsTakenFor};

use crate::Segment;
use crate::planning::{Opened, numbers_to_close, segments_of};
use office_loading::{Closed, append};
use std::alloc::{AllocError, Global};

/// What the store's register is to get as taken with an archive: all that the store has taken. If it has other archives than
/// the archive's own register, as a closing leaves it that was stopped, what it has with this one.
pub(crate) fn taken_to_register(
    alloc: Global,
    own: &Opened,
    copy: &Opened,
    archive: u16,
) -> Result<Vec<Segment>, AllocError>
    requires { length own.now.nexts.items ≤ most_partners }
    ensures { IfOk result (λ taken. IsTakenFor (office_content own.now) (office_content copy.now) archive taken.items) }
{
    if copy.register.tells_same(&own.register) {
        taken_so_far(alloc, &own.nexts, archive)
    } else {
        taken_with(alloc, &own.register.taken, archive)
    }
}

/// All that an office with these next numbers has taken, as an archive is closed.
fn taken_so_far(alloc: Global, nexts: &[u32], archive: u16) -> Result<Vec<Segment>, AllocError>
    requires { length nexts.now ≤ most_partners }
    ensures { IfOk result (λ taken. taken.items ≡ taken_of archive nexts.now) }
{
    let nothing = Closed::nothing(alloc);
    let numbers = numbers_to_close(alloc, &nothing, nexts)?;
    segments_of(alloc, archive, &numbers)
}

/// What had been taken as an archive was closed.
fn taken_with(alloc: Global, taken: &[Segment], archive: u16) -> Result<Vec<Segment>, AllocError>
    ensures { IfOk result (λ found. found.items ≡ filter (is_with archive) taken.now) }
{
    let mut found = Vec::new(alloc);
    for segment in taken {
        if segment.archive == archive {
            append(&mut found, *segment)?;
        }
    }
    Ok(found)
}

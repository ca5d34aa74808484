ghost use Rattle.std.specs.Prelude.{◌≡◌, ◌↔◌, true, Contains, IfOk, filter, map};
ghost use Rattle.office_closing.specs.{Copies.{is_put_away_with, office_content}, Planning.{AreFor, AreInBoth}, Lists.list_content};

use crate::planning::Opened;
use crate::{SettledList, copied_list, is_same_list};
use office_loading::append;
use std::alloc::{AllocError, Global};

/// The lists that the store's register is to get with an archive: those that are done. If it has other archives than the
/// archive's own register, as a closing leaves it that was stopped, those that it has with this one.
pub(crate) fn lists_to_register(
    alloc: Global,
    own: &Opened,
    copy: &Opened,
    done: &[SettledList],
    archive: u16,
) -> Result<Vec<SettledList>, AllocError>
    ensures { IfOk result (λ lists. AreFor (office_content own.now) (office_content copy.now) archive
        (map list_content done.now) (map list_content lists.items)) }
{
    if copy.register.tells_same(&own.register) {
        copied_lists(alloc, done)
    } else {
        lists_with(alloc, &own.register.lists, archive)
    }
}

/// Equal lists.
fn copied_lists(alloc: Global, lists: &[SettledList]) -> Result<Vec<SettledList>, AllocError>
    ensures { IfOk result (λ copies. map list_content copies.items ≡ map list_content lists.now) }
{
    let mut copies = Vec::new(alloc);
    for list in lists {
        append(&mut copies, copied_list(alloc, list)?)?;
    }
    Ok(copies)
}

/// Those that were put away with an archive.
fn lists_with(
    alloc: Global,
    lists: &[SettledList],
    archive: u16,
) -> Result<Vec<SettledList>, AllocError>
    ensures { IfOk result (λ found. map list_content found.items
        ≡ filter (is_put_away_with archive) (map list_content lists.now)) }
{
    let mut found = Vec::new(alloc);
    for list in lists {
        if list.archive == archive {
            append(&mut found, copied_list(alloc, list)?)?;
        }
    }
    Ok(found)
}

/// Those of these lists that are among the others, word for word.
pub(crate) fn lists_in_both(
    alloc: Global,
    lists: &[SettledList],
    others: &[SettledList],
) -> Result<Vec<SettledList>, AllocError>
    ensures { IfOk result (λ both. AreInBoth (map list_content lists.now) (map list_content others.now)
        (map list_content both.items)) }
{
    let mut both = Vec::new(alloc);
    for list in lists {
        if is_among(list, others) {
            append(&mut both, copied_list(alloc, list)?)?;
        }
    }
    Ok(both)
}

/// Whether one of these is the same.
fn is_among(list: &SettledList, others: &[SettledList]) -> bool
    ensures { (result ≡ true) ↔ Contains (map list_content others.now) (list_content list.now) }
{
    for other in others {
        if is_same_list(other, list) {
            return true;
        }
    }
    false
}

ghost use Rattle.std.specs.Prelude.{ℕ, List, [], ◌∷◌, map};
ghost use Rattle.edi_messages.specs.Owned.{call_content};
ghost use Rattle.office_admission.specs.Outcomes.{IsAdmitted};
ghost use Rattle.office_archives.specs.Bringing.{BringsTogether, named_by};
ghost use Rattle.office_parts.specs.{Named.named_list_content, OwnLists.list_name};

use crate::archives::Archives;
use crate::lists_away::lines_if_away;
use edi_messages::Call;
use office_admission::Admitted;
use office_desk::Desk;
use office_parts::{NamedList, lists_named};
use office_tables::TableFault;
use sqlite::Alter;
use std::alloc::Global;
use terminal_core::Side;

/// Brings back each list that an admitted interchange names and that is away. Lists are looked for only if some were put
/// away.
pub(crate) fn bring_back_named<S: Alter + Drop, A: Archives>(
    alloc: Global,
    desk: &mut Desk<S>,
    archives: &A,
    admitted: &Admitted<'_>,
) -> Result<(), TableFault>
    ensures brings { (text : List ℕ) → IsAdmitted desk.old.setup text admitted.now →
        BringsTogether S.Store A.are desk.old archives.now (named_by desk.old admitted.now.partner text) result desk.new }
{
    if !archives.has_lists(archives.count()) {
        return Ok(());
    }
    let lists = lists_named(alloc, desk.setup(), admitted)?;
    bring_back_all(alloc, desk, archives, &lists)
}

/// Brings back each of these lists that is away.
fn bring_back_all<S: Alter + Drop, A: Archives>(
    alloc: Global,
    desk: &mut Desk<S>,
    archives: &A,
    lists: &[NamedList],
) -> Result<(), TableFault>
    ensures brings { BringsTogether S.Store A.are desk.old archives.now (map named_list_content lists.now) result desk.new }
{
    for list in lists {
        bring_back(alloc, desk, archives, &list.call, list.side)?;
    }
    Ok(())
}

/// Brings back the list of a call, if it is away: its lines are written into the store again, as they were put away.
///
/// Damaged if it was put away without a line; the faults of desk and archives; Memory.
fn bring_back<S: Alter + Drop, A: Archives>(
    alloc: Global,
    desk: &mut Desk<S>,
    archives: &A,
    call: &Call,
    side: Side,
) -> Result<(), TableFault>
    ensures brings { BringsTogether S.Store A.are desk.old archives.now (list_name (call_content call.now) side ∷ []) result
        desk.new }
{
    match lines_if_away(alloc, desk, archives, call, side)? {
        Some(lines) => desk.bring_back(&lines),
        None => Ok(()),
    }
}

ghost use Rattle.std.specs.{Option.option_map, Prelude.{◌≡◌, ℕ, List, ◌+◌, ◌++◌, [], ◌∷◌, ◌<◌, ◌≤◌, All, IfOk, IfErr, IfSome, OnOk, length}};
ghost use Rattle.office_admission.specs.{Outcomes.IsAdmitted, Limits.most_partners, Taking.machine_of};
ghost use Rattle.office_tables.specs.{DeliveryReading.{HasUnfitBehind, OnlyReads}, Taken.{taken_contents, taken_content}, Taking.{IsNumbered, IsTaken}};
ghost use Rattle.office_tables.specs.{Answers.HasUnfitReply, Faults.IsOfStoreOr};
ghost use Rattle.office_history.specs.Cascade.{AreTakenFrom, text_in, texts_with};
ghost use Rattle.office_rows.specs.{Rows.Rows, Stored.HasRows};
ghost use Rattle.sqlite.specs.{Held.state, State.HasCleanDisk};

use crate::{Kept, TableFault, kept};
use office_admission::{Admitted, Setup, Tally, admit_for, take};
use office_replies::reply;
use partner_core::LAST_NUMBER;
use sqlite::{Alter, Connection};
use std::alloc::{AllocError, Global};
use terminal_core::{Change, Terminal};

/// Takes a partner's next interchange, and then each text that becomes next by it, as far as the tables keep one, and counts
/// what became of them. It writes nothing. If it fails, terminal and tally may hold part of the run, and are to be given up.
///
/// Damaged if a number after has a reply that is no text; Store and Memory say nothing of the rows.
pub fn take_run<S: Alter>(
    alloc: Global,
    conn: &mut Connection<S>,
    setup: &Setup,
    terminal: &mut Terminal,
    admitted: &Admitted<'_>,
    number: u32,
    tally: &mut Tally,
) -> Result<Vec<Taken>, TableFault>
    requires few { length setup.now.partners.items ≤ most_partners }
    requires number { number ≤ LAST_NUMBER }
    ensures taken { HasCleanDisk (state S.Store conn.new) → IfOk result (λ taken. (rows : Rows) (text : List ℕ) →
        HasRows rows (state S.Store conn.old).now → IsNumbered admitted.now.partner rows →
        IsAdmitted setup.now text admitted.now →
        AreTakenFrom admitted.now.partner (texts_with rows admitted.now.partner number text) number
        (machine_of setup.now terminal.old)
        (taken_contents taken.items) (machine_of setup.now terminal.new)) }
    ensures first { IfOk result (λ taken. 1 ≤ length taken.items) }
    ensures numbers { IfOk result (λ taken. All (λ t. t.number < 1000000000) taken.items) }
    ensures fault { HasCleanDisk (state S.Store conn.new) → IfErr result (λ fault. (rows : Rows) →
        HasRows rows (state S.Store conn.old).now → IsOfStoreOr (HasUnfitBehind admitted.now.partner number rows) fault) }
    ensures reads { OnlyReads (state S.Store conn.old) (state S.Store conn.new) result }
{
    let mut taken = Vec::new(alloc);
    let partner = admitted.partner;
    let first = take_admitted(alloc, setup, terminal, admitted, number, tally)?;
    append(&mut taken, first)?;
    let mut last = number;
    while let Some(text) = text_behind(conn, partner, last)? {
        last += 1;
        let next = take_text(alloc, setup, terminal, partner, last, &text, tally)?;
        append(&mut taken, next)?;
    }
    Ok(taken)
}

/// The text that is kept for a partner under the number after one. There is none after the last that there is.
fn text_behind<S: Alter>(
    conn: &mut Connection<S>,
    partner: u16,
    number: u32,
) -> Result<Option<Vec<u8>>, TableFault>
    requires { number ≤ LAST_NUMBER }
    ensures text { HasCleanDisk (state S.Store conn.new) → IfOk result (λ found. (rows : Rows) →
        HasRows rows (state S.Store conn.old).now → IsNumbered partner rows →
        text_in rows partner (number + 1) ≡ option_map (λ text. text.items) found) }
    ensures last { IfOk result (λ found. IfSome found (λ text. number < LAST_NUMBER)) }
    ensures fault { HasCleanDisk (state S.Store conn.new) → IfErr result (λ fault. (rows : Rows) →
        HasRows rows (state S.Store conn.old).now → IsOfStoreOr (HasUnfitReply partner (number + 1) rows) fault) }
    ensures reads { OnlyReads (state S.Store conn.old) (state S.Store conn.new) result }
{
    if number == LAST_NUMBER {
        return Ok(None);
    }
    match kept(conn, partner, number + 1)? {
        Some(Kept { text, reply: _ }) => Ok(Some(text)),
        None => Ok(None),
    }
}

fn append(taken: &mut Vec<Taken>, next: Taken) -> Result<(), AllocError>
    ensures { OnOk result (taken.new.items ≡ taken.old.items ++ next ∷ []) }
{
    taken.push(next)?;
    Ok(())
}

/// Takes a partner's interchange under a number, and counts what became of it. If memory is refused, terminal and tally may
/// hold part of it, and are to be given up.
pub(crate) fn take_admitted(
    alloc: Global,
    setup: &Setup,
    terminal: &mut Terminal,
    admitted: &Admitted<'_>,
    number: u32,
    tally: &mut Tally,
) -> Result<Taken, AllocError>
    ensures taken { IfOk result (λ taken. (text : List ℕ) → IsAdmitted setup.now text admitted.now →
        IsTaken admitted.now.partner number text (machine_of setup.now terminal.old)
        (taken_content taken) (machine_of setup.now terminal.new)) }
    ensures number { IfOk result (λ taken. taken.number ≡ number) }
{
    let mut changes = Vec::new(alloc);
    let reply = take(alloc, setup, terminal, admitted, &mut changes, tally)?;
    Ok(Taken {
        number,
        reply,
        changes,
    })
}

/// Takes the text that is kept under a partner's number. One that is not admitted for that partner changes nothing, and
/// its reply has no message, and nothing is counted. If memory is refused, terminal and tally may hold part of it, and
/// are to be given up.
pub(crate) fn take_text(
    alloc: Global,
    setup: &Setup,
    terminal: &mut Terminal,
    partner: u16,
    number: u32,
    text: &[u8],
    tally: &mut Tally,
) -> Result<Taken, AllocError>
    requires { length setup.now.partners.items ≤ most_partners }
    ensures { IfOk result (λ taken. IsTaken partner number text.now (machine_of setup.now terminal.old)
        (taken_content taken) (machine_of setup.now terminal.new)) }
{
    match admit_for(setup, partner, text) {
        Some(admitted) => take_admitted(alloc, setup, terminal, &admitted, number, tally),
        None => {
            let reply = reply(alloc, "", &[])?;
            Ok(Taken {
                number,
                reply,
                changes: Vec::new(alloc),
            })
        }
    }
}

/// An interchange that was taken.
#[derive(Debug, Drop)]
pub struct Taken {
    /// The number of its partner's interchange.
    pub number: u32,
    /// What is kept of it as its reply.
    pub reply: String,
    /// What it changed of the terminal's rows.
    pub changes: Vec<Change>,
}

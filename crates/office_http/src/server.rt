ghost use Rattle.std.specs.Prelude.{◌≡◌, ◌⊎◌, IfSome, IsOk, IsSome};
ghost use Rattle.office_http.specs.{Served.{AtMost, Serves, calls_of}, Steps.NotesAtMost, declared.seen.Seen.Seen};

use crate::gate::Gate;
use crate::line::Ready;
use crate::lines::Lines;
use crate::overheard::Overheard;
use crate::seen::Seen;
use crate::serve::{ServeFault, Watch, serve_one};
use crate::site::Site;
use crate::told::{Outlet, Telling};
use office_replies::{AddAccount, Port};
use office_reports::Report;
use std::alloc::Global;
use std::io;
use std::rt::Clock;
use std::time::Instant;

/// Accepts `count` connections, which wait side by side, and answers one request of each, one at a time, as soon as it is
/// whole. A connection that fails is passed over, and so is one whose first byte doesn't come within two seconds, whose
/// request isn't whole within ten, or which doesn't take its response within ten. By the path of a partner a number may be
/// above its next one by `ahead`, or by any where there is no bound. What watches gets each connection as soon as it
/// is answered. In the end nothing is listened at.
pub fn serve_on<C: Clock, D: Report + AddAccount, H: Watch>(
    alloc: Global,
    clock: &C,
    mut gate: Gate,
    site: &Site,
    count: u32,
    ahead: Option<u32>,
    desk: &mut D,
    watch: &mut H,
)
    // At most the calls of `count` requests are made of the desk.
    ensures steps { AtMost D.leads D.enrols D.looks (calls_of count) desk.old desk.new }

    // What watches gets no more.
    ensures noted { NotesAtMost H.notes count watch.old watch.new }
{
    gate.expect(count);
    'connections: for _ in 0..count {
        serve_next(alloc, clock, &mut gate, site, ahead, desk, watch);
    }
    gate.close(clock, site);
}

/// Waits for the next connection that can be served, and answers its request.
fn serve_next<C: Clock, D: Report + AddAccount, H: Watch>(
    alloc: Global,
    clock: &C,
    gate: &mut Gate,
    site: &Site,
    ahead: Option<u32>,
    desk: &mut D,
    watch: &mut H,
)
    ensures steps { AtMost D.leads D.enrols D.looks (calls_of 1) desk.old desk.new }
    ensures noted { NotesAtMost H.notes 1 watch.old watch.new }
{
    if let Some(ready) = gate.next(clock, site) {
        let lines = gate.lines();
        if let Some(telling) = serve_line(alloc, clock, lines, ready, site, ahead, desk, watch) {
            gate.tell(telling);
        }
    }
}

/// Answers the one request of a connection, which can't be served again: what is left of it is its response. None: nothing
/// is left. What was asked on it is done, or nothing is, if it was given up.
fn serve_line<C: Clock, D: Report + AddAccount, H: Watch>(
    alloc: Global,
    clock: &C,
    lines: &mut Lines,
    ready: Ready,
    site: &Site,
    ahead: Option<u32>,
    desk: &mut D,
    watch: &mut H,
) -> Option<Telling>
    ensures steps { AtMost D.leads D.enrols D.looks (calls_of 1) desk.old desk.new }
    ensures noted { (seen : Seen) × H.notes watch.old seen watch.new }
    ensures serves { (desk.new ≡ desk.old)
        ⊎ Serves D.leads D.enrols D.looks site.now ahead ready.asked.items desk.old desk.new (λ _. Unit {0}) }
{
    let mut asked = Overheard::new(ready.inlet());
    let mut told = Overheard::new(Outlet::new(alloc, &ready, lines));
    let mut writer = Port::new(&mut told);
    let mut reader = Port::new(&mut asked);
    let outcome = serve_one(alloc, site, &mut reader, &mut writer, desk, ahead);
    watch.served(&Seen::new(asked.front(), told.front(), told.count()));
    let kept = told.into_inner().into_kept();
    left_of(outcome, kept, ready, Instant::now(clock))
}

/// What is left of a connection whose request was answered at that moment: the rest of its response. None: that failed, or
/// nothing was written.
fn left_of(
    outcome: Result<(), ServeFault>,
    kept: Option<Vec<u8>>,
    ready: Ready,
    now: io::Result<Instant>,
) -> Option<Telling>
    ensures rest { IfSome result (λ telling. kept ≡ Some telling.told) }
    ensures whole { IsSome result → IsOk outcome }
    ensures some { IsOk outcome → IsSome kept → IsOk now → IsSome result }
{
    match (outcome, kept, now) {
        (Ok(()), Some(rest), Ok(now)) => Some(ready.served(rest, now)),
        _ => None,
    }
}

//! The runs over the terminal's machine: early interchanges wait, and the one that closes the gap takes them in number
//! order.

ghost use Rattle.std.specs.Prelude.{◌≡◌, ◌≤◌};
ghost use Rattle.partner_core.specs.Runs.{partner_count};

use super::machine::machine;
use office_admission::TerminalMachine;
use partner_core::{Answer, InterchangeNumber, LAST_NUMBER, PartnerId, Runs};
use std::alloc::{AllocError, Global};
use std::test::Fail;

/// From HAULA to TERM1, as are the two below.
const FIRST: &[u8] =
    b"UNB+UNOA:3+HAULA+TERM1+240305:0910+1'UNH+1+CODECO:D:95B:UN'BGM+34+G1+9'EQD+CN+ABCU0000017+22G1:102:5+++5'UNT+4+1'UNZ+1+1'";

const SECOND: &[u8] =
    b"UNB+UNOA:3+HAULA+TERM1+240305:0910+2'UNH+1+CODECO:D:95B:UN'BGM+34+G1+9'EQD+CN+ABCU0000022+22G1:102:5+++5'UNT+4+1'UNZ+1+2'";

const THIRD: &[u8] =
    b"UNB+UNOA:3+HAULA+TERM1+240305:0910+3'UNH+1+CODECO:D:95B:UN'BGM+34+G1+9'EQD+CN+ABCU0000038+22G1:102:5+++5'UNT+4+1'UNZ+1+3'";

const FIRST_REPLY: &str =
    "{\"contrl\":\"UNB+UNOA:3+TERM1+HAULA+240305:0910+1'UNH+1+CONTRL:D:3:UN'UCI+1+HAULA+TERM1+7'UCM+1+CODECO:D:95B:UN+7'UNT+4+1'UNZ+1+1'\",\"messages\":[{\"lines\":[{\"box\":\"ABCU0000017\",\"line\":1,\"outcome\":\"done\",\"slot\":\"A001011\"}],\"reference\":\"1\",\"result\":\"accepted\"}]}";

const THIRD_REPLY: &str =
    "{\"contrl\":\"UNB+UNOA:3+TERM1+HAULA+240305:0910+3'UNH+1+CONTRL:D:3:UN'UCI+3+HAULA+TERM1+7'UCM+1+CODECO:D:95B:UN+7'UNT+4+1'UNZ+1+3'\",\"messages\":[{\"lines\":[{\"box\":\"ABCU0000038\",\"line\":1,\"outcome\":\"done\",\"slot\":\"A003011\"}],\"reference\":\"1\",\"result\":\"accepted\"}]}";

/// What a delivery of HAULA, the first partner, is answered.
fn answer(
    alloc: Global,
    runs: &mut Runs<TerminalMachine>,
    number: u32,
    text: &[u8],
) -> Result<Answer, AllocError>
    requires known { 1 ≤ partner_count runs.old }
    requires positive { 1 ≤ number }
    requires limit { number ≤ LAST_NUMBER }
    ensures { partner_count runs.new ≡ partner_count runs.old }
{
    let number = InterchangeNumber::new(u64::from(number)).unwrap();
    runs.deliver(alloc, PartnerId::at(0), number, text)
}

/// The third waits, comes again and is a repeat once the first has closed the gap.
#[test]
fn a_gap_that_closes_takes_those_behind_it(rt: HostRuntime) -> Result<(), Fail> {
    let alloc = rt.alloc();
    let mut runs = Runs::new(alloc, machine(&rt, alloc)?, 1)?;
    let third = answer(alloc, &mut runs, 3, THIRD)?;
    assert!(&rt; matches!(&third, Answer::Waiting { next: 1 }));
    let second = answer(alloc, &mut runs, 2, SECOND)?;
    assert!(&rt; matches!(&second, Answer::Waiting { next: 1 }));
    let first = answer(alloc, &mut runs, 1, FIRST)?;
    assert!(&rt; matches!(&first, Answer::Taken(reply) if reply.as_str() == FIRST_REPLY));
    let again = answer(alloc, &mut runs, 3, THIRD)?;
    assert!(&rt; matches!(&again, Answer::Repeat(reply) if reply.as_str() == THIRD_REPLY));
    assert!(&rt; runs.machine().terminal().visits().len() == 3);
    Ok(())
}

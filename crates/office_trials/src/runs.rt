//! Deliveries to runs over a diary, and to one over the machine of a terminal.

mod added;
mod machine;
mod refusals;
mod terminal;

ghost use Rattle.std.specs.Prelude.{◌≡◌, ◌≤◌};
ghost use Rattle.partner_core.specs.Runs.{partner_count};

use partner_core::ledger::Diary;
use partner_core::{
    Answer, InterchangeNumber, LAST_NUMBER, MOST_PARTNERS, Machine, PartnerId, Runs, Standing,
    judge, laws,
};
use std::alloc::{AllocError, Global};
use std::process::Abort;
use std::test::Fail;

/// What an answer says.
#[derive(Clone, Copy)]
enum Told {
    Taken(&'static str),
    Repeat(&'static str),
    Waiting(u32),
    Clash,
}

fn is_said(answer: &Answer, want: Told) -> bool {
    match (answer, want) {
        (Answer::Taken(reply), Told::Taken(text)) => reply.as_str() == text,
        (Answer::Repeat(reply), Told::Repeat(text)) => reply.as_str() == text,
        (Answer::Waiting { next }, Told::Waiting(number)) => *next == number,
        (Answer::Clash, Told::Clash) => true,
        _ => false,
    }
}

/// The partner of that number.
fn partner(number: u16) -> PartnerId
    requires from_one { 1 ≤ number }
    requires few { number ≤ MOST_PARTNERS }
    ensures { result ≡ number }
{
    PartnerId::at(usize::from(number) - 1)
}

/// The number of an interchange.
fn interchange(number: u32) -> InterchangeNumber
    requires from_one { 1 ≤ number }
    requires limit { number ≤ LAST_NUMBER }
    ensures { result ≡ number }
{
    InterchangeNumber::new(u64::from(number)).unwrap()
}

/// Whether a delivery is answered so. One that is refused memory is delivered once more, so
/// that the tests end alike whichever of its allocations `rt try --test --fail-alloc` refuses.
fn said<M: Machine>(
    alloc: Global,
    runs: &mut Runs<M>,
    partner: PartnerId,
    number: InterchangeNumber,
    text: &str,
    want: Told,
) -> Result<bool, AllocError>
    requires { partner ≤ partner_count runs.old }
    ensures { partner_count runs.new ≡ partner_count runs.old }
{
    let answer = match runs.deliver(alloc, partner, number, text.as_bytes()) {
        Ok(answer) => answer,
        Err(AllocError) => runs.deliver(alloc, partner, number, text.as_bytes())?,
    };
    Ok(is_said(&answer, want))
}

/// A delivery of a partner, and what its answer says.
type Row = (u16, u32, &'static str, Told);

/// Delivers each text, and holds its answer to what is beside it.
fn assert_said<M: Machine>(
    rt: &impl Abort,
    alloc: Global,
    runs: &mut Runs<M>,
    rows: &[Row],
) -> Result<(), Fail>
    requires { 3 ≤ partner_count runs.old }
    ensures { partner_count runs.new ≡ partner_count runs.old }
{
    for (id, number, text, want) in rows {
        assert!(rt; 1 <= *id && *id <= 3);
        assert!(rt; 1 <= *number && *number <= LAST_NUMBER);
        assert!(rt;
            said(alloc, runs, partner(*id), interchange(*number), text, *want)?,
            "{text}"
        );
    }
    Ok(())
}

/// The diary has just those texts.
fn has_texts(diary: &Diary, texts: &[&str]) -> bool {
    for (place, text) in texts.iter().enumerate() {
        match diary.text(place) {
            Some(found) if found == text.as_bytes() => {}
            _ => return false,
        }
    }
    diary.text(texts.len()).is_none()
}

#[test]
fn early_texts_come_in_number_order(rt: HostRuntime) -> Result<(), Fail> {
    let rows = [
        (1, 3, "in 38", Told::Waiting(1)),
        (1, 2, "in 22", Told::Waiting(1)),
        (1, 3, "in 38", Told::Waiting(1)),
        (1, 1, "in 17", Told::Taken("1")),
        (1, 3, "in 38", Told::Repeat("3")),
    ];
    let texts = ["in 17", "in 22", "in 38"];
    let mut runs = Runs::new(rt.alloc(), Diary::new(rt.alloc()), 3)?;
    assert_said(&rt, rt.alloc(), &mut runs, &rows)?;
    assert!(&rt; has_texts(runs.machine(), &texts));
    Ok(())
}

#[test]
fn numbers_and_replies_are_told(rt: HostRuntime) -> Result<(), Fail> {
    let alloc = rt.alloc();
    let mut runs = Runs::new(alloc, Diary::new(alloc), 3)?;
    let rows = [(1, 2, "b", Told::Waiting(1)), (1, 1, "a", Told::Taken("1"))];
    assert_said(&rt, alloc, &mut runs, &rows)?;
    assert_eq!(rt; runs.next_of(partner(1)), 3);
    assert_eq!(rt; runs.next_of(partner(2)), 1);
    assert_eq!(rt; runs.reply_of(partner(1), interchange(2)), Some("2"));
    assert_eq!(rt; runs.reply_of(partner(1), interchange(3)), None);
    Ok(())
}

#[test]
fn the_delivery_that_closes_a_gap_decides(rt: HostRuntime) -> Result<(), Fail> {
    let rows = [
        (2, 1, "in 17", Told::Taken("1")),
        (1, 2, "in 38", Told::Waiting(1)),
        (2, 2, "in 22", Told::Taken("2")),
        (1, 1, "out 17", Told::Taken("3")),
        (1, 2, "in 38", Told::Repeat("4")),
    ];
    let texts = ["in 17", "in 22", "out 17", "in 38"];
    let mut runs = Runs::new(rt.alloc(), Diary::new(rt.alloc()), 3)?;
    assert_said(&rt, rt.alloc(), &mut runs, &rows)?;
    assert!(&rt; has_texts(runs.machine(), &texts));
    Ok(())
}

#[test]
fn nothing_is_taken_before_its_time(rt: HostRuntime) -> Result<(), Fail> {
    let rows = [
        (1, 1, "in 17", Told::Taken("1")),
        (2, 2, "list 17", Told::Waiting(1)),
        (3, 1, "load 17", Told::Taken("2")),
        (2, 1, "list 22", Told::Taken("3")),
        (3, 2, "load 17", Told::Taken("5")),
        (3, 3, "load 17", Told::Taken("6")),
        (2, 3, "list 22", Told::Taken("7")),
    ];
    let texts = [
        "in 17", "load 17", "list 22", "list 17", "load 17", "load 17", "list 22",
    ];
    let mut runs = Runs::new(rt.alloc(), Diary::new(rt.alloc()), 3)?;
    assert_said(&rt, rt.alloc(), &mut runs, &rows)?;
    assert!(&rt; has_texts(runs.machine(), &texts));
    Ok(())
}

#[test]
fn the_first_text_under_a_number_stays(rt: HostRuntime) -> Result<(), Fail> {
    let rows = [
        (1, 5, "x", Told::Waiting(1)),
        (1, 5, "y", Told::Clash),
        (1, 1, "a", Told::Taken("1")),
        (1, 2, "b", Told::Taken("2")),
        (1, 3, "c", Told::Taken("3")),
        (1, 4, "d", Told::Taken("4")),
        (1, 5, "y", Told::Clash),
        (1, 5, "x", Told::Repeat("5")),
    ];
    let texts = ["a", "b", "c", "d", "x"];
    let mut runs = Runs::new(rt.alloc(), Diary::new(rt.alloc()), 3)?;
    assert_said(&rt, rt.alloc(), &mut runs, &rows)?;
    assert!(&rt; has_texts(runs.machine(), &texts));
    Ok(())
}

#[test]
fn the_last_number_waits(rt: HostRuntime) -> Result<(), Fail> {
    let rows = [
        (1, LAST_NUMBER, "last", Told::Waiting(1)),
        (1, 1, "first", Told::Taken("1")),
        (1, 999_999_999, "last", Told::Waiting(2)),
        (1, 999_999_999, "other", Told::Clash),
    ];
    let texts = ["first"];
    let mut runs = Runs::new(rt.alloc(), Diary::new(rt.alloc()), 3)?;
    assert_said(&rt, rt.alloc(), &mut runs, &rows)?;
    assert!(&rt; has_texts(runs.machine(), &texts));
    Ok(())
}

#[test]
fn a_text_is_judged_by_what_is_kept(rt: HostRuntime) {
    for (next, number, kept, text, want) in [
        (1, 1, None, "a", Standing::Next),
        (1, 2, None, "a", Standing::Early),
        (1, 2, Some("a"), "a", Standing::Known),
        (3, 2, Some("a"), "a", Standing::Known),
        (3, 2, Some("a"), "a\n", Standing::Other),
        (3, 2, Some("a"), "", Standing::Other),
        (1_000_000_000, 999_999_999, Some("a"), "b", Standing::Other),
    ] {
        let standing = match kept {
            Some(kept) => judge(next, number, Some(kept.as_bytes()), text.as_bytes()),
            None if next <= number => judge(next, number, None, text.as_bytes()),
            None => Standing::Other,
        };
        assert_eq!(rt; standing, want, "{text}");
    }
}

#[test]
fn a_copied_diary_is_the_same(rt: HostRuntime) -> Result<(), Fail> {
    let alloc = rt.alloc();
    let mut diary = Diary::new(alloc);
    assert_eq!(rt; diary.step(alloc, partner(1), b"a")?.as_str(), "1");
    let mut copy = diary.copy(alloc)?;
    assert_eq!(rt; copy.step(alloc, partner(2), b"b")?.as_str(), "2");
    assert_eq!(rt; copy.text(0), Some(b"a".as_slice()));
    assert_eq!(rt; copy.text(1), Some(b"b".as_slice()));
    assert_eq!(rt; diary.text(1), None);
    Ok(())
}

#[test]
fn each_law_is_there_for_a_diary(_rt: HostRuntime) {
    laws::same_text();
    laws::unbroken_run();
    laws::known::<Diary>();
    laws::other::<Diary>();
    laws::early::<Diary>();
    laws::next::<Diary>();
    laws::once_each();
    laws::replied::<Diary>();
    laws::one_partner::<Diary>();
    laws::keeps_on::<Diary>();
    laws::keeps_one_more::<Diary>();
    laws::keeps_run::<Diary>();
    laws::stands_as_kept::<Diary>();
    laws::cascade::<Diary>();
    laws::answers_as_kept::<Diary>();
    laws::rules_by_place::<Diary>();
    laws::goes_on_by_new::<Diary>();
}

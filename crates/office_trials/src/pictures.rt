use box6346::{BoxNumber, SizeType, Slot};
use edi_syntax::Moment;
use office_reports::picture;
use std::alloc::{AllocError, Global};
use std::process::Abort;
use std::test::Fail;
use terminal_core::{Arrival, Place, Source, Terminal, Visit, Way};
use yard_core::{Block, Plan};

const A: Block = Block {
    letter: b'A',
    bays: 4,
    rows: 2,
    tiers: 3,
};

fn visit(
    rt: &impl Abort,
    alloc: Global,
    place: &Place,
    size_type: &str,
    is_laden: bool,
) -> Result<Visit, AllocError> {
    let booking = String::from_str(alloc, "<script>")?;
    Ok(Visit {
        number: place.visit,
        container: place.container,
        size_type: SizeType::parse(size_type.as_bytes()).expect(rt, "a size-type"),
        is_laden,
        booking,
        arrival: Arrival {
            way: Way::Gate,
            source: Source {
                partner: 1,
                number: place.visit,
            },
            moment: Moment::parse(b"202403050910").expect(rt, "a moment"),
            slot: place.slot,
        },
        departure: None,
        kilos: 0,
    })
}

fn place(rt: &impl Abort, number: &str, visit: u32, slot: &str) -> Place {
    Place {
        container: BoxNumber::parse(number.as_bytes()).expect(rt, "a number"),
        visit,
        slot: Slot::parse(slot.as_bytes()).expect(rt, "a slot's name"),
    }
}

/// A full twenty in bay 1, and an empty forty in bay 4 of the second row.
fn terminal(rt: &impl Abort, alloc: Global) -> Result<Terminal, AllocError> {
    let first = place(rt, "ABCU0000017", 1, "A001011");
    let second = place(rt, "ABCU0000022", 2, "A004021");
    let visits = vec![in alloc;
        visit(rt, alloc, &first, "22G1", true)?,
        visit(rt, alloc, &second, "42G1", false)?,
    ]?;
    let places = vec![in alloc; first, second]?;
    let plan = Plan::new(&[A]).expect(rt, "a plan");
    let restored = Terminal::restore(alloc, plan, 9, visits, places, Vec::new(alloc));
    Ok(restored.expect(rt, "a state"))
}

fn has(page: &str, part: &str) -> bool {
    page.find(part).is_some()
}

#[test]
fn containers_are_drawn_over_their_bays(rt: HostRuntime) -> Result<(), Fail> {
    let alloc = rt.alloc();
    let terminal = terminal(&rt, alloc)?;
    let page = picture(alloc, "TERM1", &[A], &terminal)?;
    let page = page.as_str();
    assert!(&rt;
        has(
            page,
            "<p><b>2</b> containers: <b>1</b> full, <b>1</b> empty</p>"
        )
    );
    assert!(&rt; has(page, "<h2>Block A<small>3 of 24 cells used</small></h2>"));
    let twenty =
        "<g transform='translate(32 -40)'><title>ABCU0000017 22G1 FULL A001011</title><use href='#full20'/>";
    let forty =
        "<g transform='translate(128 -40)'><title>ABCU0000022 42G1 EMPTY A004021</title><use href='#empty40'/>";
    let lettering =
        "<text y='13'>ABCU</text><text y='24'>0000022</text><text y='36'>A004021</text></g>";
    assert!(&rt; has(page, twenty));
    assert!(&rt; has(page, forty));
    assert!(&rt; has(page, lettering));
    assert!(&rt; !has(page, "<nav>"));
    Ok(())
}

#[test]
fn no_field_brings_markup(rt: HostRuntime) -> Result<(), Fail> {
    let alloc = rt.alloc();
    let terminal = terminal(&rt, alloc)?;
    let bracket = Block { letter: b'<', ..A };
    let page = picture(alloc, "<script>\"&'\u{e9}", &[A, bracket], &terminal)?;
    let page = page.as_str();
    assert!(&rt;
        has(
            page,
            "<h1>Yard of &lt;script&gt;&quot;&amp;&apos;&#195;&#169;</h1>"
        )
    );
    let index =
        "<nav>\n<a href='#block-A'>Block A</a>\n<a href='#block-&lt;'>Block &lt;</a>\n</nav>\n";
    assert!(&rt; has(page, index));
    assert!(&rt; has(page, "<section id='block-&lt;'><h2>Block &lt;<small>"));
    assert!(&rt; !has(page, "<script"));
    Ok(())
}

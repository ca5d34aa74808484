//! Texts of lists that are read back, and texts of none.

use edi_messages::Call;
use office_closing::{list_text, read_list};
use std::alloc::{AllocError, Global};
use std::test::Fail;
use terminal_core::{LineState, Listing, Side};

/// Three lines, the second without a port.
const THREE: &str = "CSQU3054383SGSIN\nMSKU1234565\nTCLU7654320NLRTM\n";

fn read(alloc: Global, side: Side, text: &str) -> Result<Option<Vec<Listing>>, AllocError> {
    let vessel = String::from_str(alloc, "9123456")?;
    let voyage = String::from_str(alloc, "V12")?;
    read_list(alloc, &Call { vessel, voyage }, side, text)
}

#[test]
fn three_lines_are_read_back(rt: HostRuntime) -> Result<(), Fail> {
    let alloc = rt.alloc();
    let lines = read(alloc, Side::Load, THREE)?.expect(&rt, "a list");
    assert!(rt; lines.len() == 3);
    assert!(rt; lines[0].call.voyage.as_str() == "V12");
    assert!(rt; lines[0].side == Side::Load);
    assert!(rt; lines[0].state == LineState::Done);
    assert!(rt; lines[1].container.text() == *b"MSKU1234565");
    assert!(rt; lines[1].port.is_empty());
    assert!(rt; lines[2].port.as_str() == "NLRTM");
    let text = list_text(alloc, lines.as_slice())?;
    assert!(rt; text.as_str() == THREE);
    Ok(())
}

#[test]
fn other_texts_are_of_no_list(rt: HostRuntime) -> Result<(), Fail> {
    let alloc = rt.alloc();
    let texts = [
        "CSQU3054383SGSIN",
        "CSQU3054383SGSIN\nMSKU123",
        "CSQU3054384SGSIN\n",
        "CSQU3054383SGSIN\n\n",
        "CSQU3054383SGSIN\r\n",
        "CSQU305438é\n",
    ];
    for text in texts {
        assert!(rt; read(alloc, Side::Load, text)?.is_none(), "at {text}");
    }
    assert!(rt; read(alloc, Side::Discharge, THREE)?.is_none());
    Ok(())
}

#[test]
fn an_empty_text_is_of_no_line(rt: HostRuntime) -> Result<(), Fail> {
    let alloc = rt.alloc();
    let lines = read(alloc, Side::Discharge, "")?.expect(&rt, "a list");
    assert!(rt; lines.is_empty());
    Ok(())
}

#[test]
fn a_large_list_is_read_back(rt: HostRuntime) -> Result<(), Fail> {
    let alloc = rt.alloc();
    let mut written = String::new(alloc);
    for _ in 0..2_000 {
        written.push_str("MSKU1234565\n")?;
    }
    let lines = read(alloc, Side::Discharge, written.as_str())?.expect(&rt, "a list");
    assert!(rt; lines.len() == 2_000);
    let text = list_text(alloc, lines.as_slice())?;
    assert!(rt; text.as_str() == written.as_str());
    Ok(())
}

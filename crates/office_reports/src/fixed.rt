//! The parts of the page that are the same for every yard.
ghost use Rattle.std.specs.Prelude.{◌≡◌, ◌++◌, map, IfOk, OnOk, string_bytes};
ghost use Rattle.office_reports.specs.{Fields.{field_text, joined_pieces}, Fixed.{head, shapes, legend}};

use std::alloc::{AllocError, Global};
use std::fmt;

const HEAD: &str = "<!doctype html>\n\
    <html lang='en'>\n\
    <head>\n\
    <meta charset='utf-8'>\n\
    <meta name='viewport' content='width=device-width,initial-scale=1'>\n\
    <link rel='icon' href='data:,'>\n\
    <style>\n\
    *{box-sizing:border-box}\n\
    body{margin:0;background:#eef2f6;color:#16263a;font:16px/1.4 system-ui,Roboto,'DejaVu \
    Sans',sans-serif}\n\
    main{padding:1.5rem 1rem 3rem}\n\
    h1{margin:0;font-size:2rem;line-height:1.2;overflow-wrap:anywhere}\n\
    h2{margin:0 0 .5rem;font-size:1.25rem}\n\
    p,small,li{color:#526375;font-size:.875rem;font-weight:400}\n\
    p{margin:.25rem 0 0;font-size:1rem}\n\
    b{color:#16263a}\n\
    small{margin-left:.75rem}\n\
    nav{display:flex;flex-wrap:wrap;gap:.5rem;margin-top:1rem}\n\
    a{padding:.7rem 1rem;background:#fff;border:1px solid #c6d0da;border-radius:.5rem;color:#1f5a8c}\n\
    ul{display:flex;flex-wrap:wrap;gap:.5rem 1.5rem;margin:1rem 0 0;padding:0;list-style:none}\n\
    li{display:flex;align-items:center;gap:.5rem}\n\
    section{margin-top:1.25rem;padding:1rem;background:#fff;border:1px solid #c6d0da;\
    border-radius:.5rem}\n\
    div{display:flex;flex-wrap:wrap;gap:1rem 2rem}\n\
    figure{margin:0;max-width:100%;overflow-x:auto}\n\
    figcaption{position:sticky;left:0;font-size:.875rem;font-weight:600}\n\
    svg{display:block;flex:none}\n\
    svg.parts{position:absolute;width:0;height:0}\n\
    svg.paper{display:none}\n\
    text{text-anchor:middle;font:600 11px ui-monospace,'DejaVu Sans Mono',Menlo,Consolas,monospace;\
    fill:#16263a}\n\
    .parts text{font-weight:400;fill:#526375}\n\
    use~text:last-child{font-weight:400}\n\
    [href^='#full']~text{fill:#fff}\n\
    [href^='#empty']~text{stroke:#fff;stroke-width:3.5px;paint-order:stroke}\n\
    @media(max-width:40rem){main{padding:1rem .5rem 2rem}section{padding:.75rem .5rem}}\n\
    @page{size:landscape;margin:1cm}\n\
    @media print{body{background:none}main,section{padding:0}section{border:0}nav{display:none}\
    figure{break-inside:avoid}figure svg{max-width:100%;height:auto}h2{break-after:avoid}\
    svg.row{position:absolute;width:0;height:0}svg.paper{display:block}}\n\
    </style>\n";

const SHAPES: &str = "</head>\n\
    <body>\n\
    <svg class='parts'>\n\
    <pattern id='hatch' width='6' height='6' patternUnits='userSpaceOnUse' \
    patternTransform='rotate(45)'><path d='M0 0H6V6H0Z' fill='#fff'/><path d='M0 1H6' \
    stroke='#dba170' stroke-width='2'/></pattern>\n\
    <pattern id='free' width='64' height='40' patternUnits='userSpaceOnUse'><rect x='2.5' y='3.5' \
    width='59' height='35' rx='2' fill='#f7f9fb' stroke='#9fb0c0' stroke-dasharray='3'/></pattern>\n\
    <rect id='full20' x='-30' y='3' width='60' height='36' rx='2' fill='#1f5a8c' stroke='#0f3450' \
    stroke-width='1.5'/>\n\
    <rect id='full40' x='-62' y='3' width='124' height='36' rx='2' fill='#1f5a8c' stroke='#0f3450' \
    stroke-width='1.5'/>\n\
    <rect id='empty20' x='-30' y='3' width='60' height='36' rx='2' fill='url(#hatch)' \
    stroke='#a04c0a' stroke-width='1.5'/>\n\
    <rect id='empty40' x='-62' y='3' width='124' height='36' rx='2' fill='url(#hatch)' \
    stroke='#a04c0a' stroke-width='1.5'/>\n\
    </svg>\n\
    <main>\n";

const LEGEND: &str = "<ul>\n\
    <li><svg viewBox='-32 0 64 40' width='64' height='40'><use href='#full20'/></svg>full</li>\n\
    <li><svg viewBox='-32 0 64 40' width='64' height='40'><use href='#empty20'/></svg>empty</li>\n\
    <li><svg viewBox='-64 0 128 40' width='128' height='40'><use href='#full40'/></svg>a forty, \
    over two bays</li>\n\
    <li><svg viewBox='0 0 64 40' width='64' height='40'><path d='M0 0H64V40H0Z' \
    fill='url(#free)'/></svg>free</li>\n\
    <li>bays along, tiers up</li>\n\
    </ul>\n";

/// What comes before the title: the kind of page, and its style.
#[tactic(auto, unfolding(crate::specs::Fixed::head))]
pub(crate) fn head() -> &'static str
    ensures { result.now ≡ head }
{
    HEAD
}

/// What comes after the title: the shapes of containers, and how empty and free ones are filled.
#[tactic(auto, unfolding(crate::specs::Fixed::shapes))]
pub(crate) fn shapes() -> &'static str
    ensures { result.now ≡ shapes }
{
    SHAPES
}

/// The legend.
#[tactic(auto, unfolding(crate::specs::Fixed::legend))]
pub(crate) fn legend() -> &'static str
    ensures { result.now ≡ legend }
{
    LEGEND
}

/// The bytes of a field, written so that no markup comes of them.
#[derive(Clone, Copy)]
pub(crate) struct Field<'a>(pub &'a [u8]);

impl fmt::Display for Field<'_> {
    ghost use Rattle.std.specs.Prelude.{Some};
    ghost use Rattle.office_reports.specs.Fields.{field_text};

    ghost output = { λ field. Some (field_text field.0.now) };

    fn fmt<W: fmt::Write>(&self, f: &mut fmt::Formatter<W>) -> fmt::Result {
        for byte in self.0 {
            let character = Character(*byte);
            write!(f, "{character}")?;
        }
        Ok(())
    }
}

/// A byte of a field, written so that no markup comes of it: five characters by their names, and a byte from 0x80 by
/// its number.
#[derive(Clone, Copy)]
pub(crate) struct Character(pub u8);

impl fmt::Display for Character {
    ghost use Rattle.std.specs.Prelude.{Some};
    ghost use Rattle.office_reports.specs.Fields.{character_text};

    ghost output = { λ character. Some (character_text character.0) };

    fn fmt<W: fmt::Write>(&self, f: &mut fmt::Formatter<W>) -> fmt::Result {
        let byte = self.0;
        match byte {
            b'&' => write!(f, "&amp;"),
            b'<' => write!(f, "&lt;"),
            b'>' => write!(f, "&gt;"),
            b'"' => write!(f, "&quot;"),
            b'\'' => write!(f, "&apos;"),
            128..=255 => write!(f, "&#{byte};"),
            _ => {
                let character = char::from(byte);
                write!(f, "{character}")
            }
        }
    }
}

/// Appends these pieces, one after the other.
#[tactic(auto, unfolding(crate::specs::Fields::joined_pieces))]
pub(crate) fn push_all(text: &mut String, pieces: &[&str]) -> Result<(), AllocError>
    ensures { OnOk result
        (string_bytes text.new ≡ string_bytes text.old ++ joined_pieces (map (λ piece. piece.now) pieces.now)) }
{
    for piece in pieces {
        text.push_str(piece)?;
    }
    Ok(())
}

/// The bytes of a field, written so that no markup comes of them.
pub fn field_text(alloc: Global, bytes: &[u8]) -> Result<String, AllocError>
    ensures { IfOk result (λ text. string_bytes text ≡ field_text bytes.now) }
{
    Field(bytes).to_string(alloc)
}

//! The style of pages.
ghost use Rattle.std.specs.Prelude.{◌≡◌};
ghost use Rattle.office_pages.specs.Style.{colours, outline, parts, sheets};

const COLOURS: &str =
    ":root{color-scheme:light dark;--ground:#eef2f6;--sheet:#fff;--band:#f7f9fb;--ink:#16263a;\
    --faint:#526375;--edge:#c6d0da;--rule:#dde4eb;--link:#1f5a8c;--focus:#a04c0a;--here:#dfe9f2;\
    --track:#d5dee6;--part:#1f5a8c;--tight:#a04c0a;--whole:#2f7d4f;--ok:#e2f2e8;\
    --ok-edge:#8fc3a3;--ok-ink:#14532d;--wait:#fdf0e3;--wait-edge:#dba170;--wait-ink:#7a3906;\
    --bad:#fbe6e6;--bad-edge:#d99a9a;--bad-ink:#7d1a1a;--off:#eef2f6;--off-edge:#9fb0c0;\
    --off-ink:#38485a;--full:#1f5a8c;--full-edge:#0f3450;--hatch:#f3dcc6}\n\
    @media screen and (prefers-color-scheme:dark){:root{--ground:#101922;--sheet:#18242f;\
    --band:#1d2b38;--ink:#e4ebf2;--faint:#a9b8c6;--edge:#3d4d5d;--rule:#2c3a48;--link:#8fc3f0;\
    --focus:#f0a060;--here:#24405a;--track:#334454;--part:#4f9bd9;--tight:#e08a45;\
    --whole:#57b07c;--ok:#16382a;--ok-edge:#3f7d5c;--ok-ink:#b5e6c8;--wait:#40290f;\
    --wait-edge:#8a5a2a;--wait-ink:#f4cfa5;--bad:#451e1e;--bad-edge:#8f4747;--bad-ink:#f5c2c2;\
    --off:#24313e;--off-edge:#5a6d80;--off-ink:#c3cfda;--full:#1f5a8c;--full-edge:#8fc3f0;\
    --hatch:#4a3218}}\n";

const OUTLINE: &str = "*{box-sizing:border-box}\n\
    body{margin:0;background:var(--ground);color:var(--ink);font:16px/1.45 system-ui,Roboto,\
    'DejaVu Sans',sans-serif}\n\
    header{background:var(--sheet);border-bottom:1px solid var(--edge)}\n\
    header>div,main{max-width:75rem;margin:0 auto;padding:.75rem 1rem}\n\
    header>div{display:flex;flex-wrap:wrap;gap:.5rem 1.5rem;align-items:center;\
    justify-content:space-between}\n\
    main{padding:1.5rem 1rem 3rem}\n\
    nav,form,.beside,.only{display:flex;flex-wrap:wrap;gap:.25rem .5rem;align-items:center}\n\
    a{color:var(--link);text-underline-offset:.2em}\n\
    nav a,.beside a,.only a{padding:.55rem .75rem;border-radius:.5rem;text-decoration:none}\n\
    nav a:hover,.beside a:hover,.only a:hover{text-decoration:underline}\n\
    [aria-current]{background:var(--here);color:var(--ink);font-weight:600}\n\
    label{font-weight:600}\n\
    input,button{padding:.55rem .75rem;border:1px solid var(--faint);border-radius:.5rem;\
    background:var(--sheet);color:var(--ink);font:inherit}\n\
    input{width:11rem;font-family:ui-monospace,'DejaVu Sans Mono',Menlo,Consolas,monospace}\n\
    input::placeholder{color:var(--faint)}\n\
    button{border-color:var(--full-edge);background:var(--full);color:#fff;font-weight:600}\n\
    :focus-visible{outline:3px solid var(--focus);outline-offset:2px}\n\
    h1{margin:0;font-size:1.75rem;line-height:1.2;overflow-wrap:anywhere}\n\
    h1 small{display:block;margin:0 0 .25rem;font-size:.875rem;font-weight:400;\
    color:var(--faint)}\n\
    h2{display:flex;flex-wrap:wrap;gap:0 .75rem;align-items:baseline;margin:0;\
    padding:.9rem 1rem;font-size:1.125rem}\n\
    h2 small,.note{font-size:.875rem;font-weight:400;color:var(--faint)}\n\
    .beside,.only{margin:.75rem 0 0}\n\
    .beside a,.only a{background:var(--sheet);border:1px solid var(--edge)}\n\
    .only [aria-current]{background:var(--full);border-color:var(--full-edge);color:#fff}\n";

const PARTS: &str =
    "section{margin:1.25rem 0 0;background:var(--sheet);border:1px solid var(--edge);\
    border-radius:.5rem;overflow-x:auto}\n\
    section>p{margin:0;padding:.75rem 1rem}\n\
    .fine{border-top:1px solid var(--rule);color:var(--faint)}\n\
    .two{display:grid;grid-template-columns:repeat(auto-fit,minmax(min(100%,30rem),1fr));\
    gap:0 1.25rem;align-items:start}\n\
    table{width:100%;border-collapse:collapse}\n\
    th,td{padding:.6rem .5rem;border-top:1px solid var(--rule);text-align:left;\
    vertical-align:baseline}\n\
    th:first-child,td:first-child{padding-left:1rem}\n\
    th:last-child,td:last-child{padding-right:1rem}\n\
    thead th{padding-top:.4rem;padding-bottom:.4rem;background:var(--band);font-size:.8125rem;\
    font-weight:400;color:var(--faint)}\n\
    tbody th{font-weight:600}\n\
    tfoot td,tfoot th{background:var(--band);font-weight:600}\n\
    .n{text-align:right;font-variant-numeric:tabular-nums;white-space:nowrap}\n\
    .m{font-family:ui-monospace,'DejaVu Sans Mono',Menlo,Consolas,monospace;font-size:.9375rem;\
    white-space:nowrap}\n\
    .r{white-space:nowrap}\n\
    .s{display:inline-block;padding:.05rem .55rem;border:1px solid;border-radius:1rem;\
    font-size:.875rem;font-weight:600;white-space:nowrap}\n\
    .ok{background:var(--ok);border-color:var(--ok-edge);color:var(--ok-ink)}\n\
    .wait{background:var(--wait);border-color:var(--wait-edge);color:var(--wait-ink)}\n\
    .bad{background:var(--bad);border-color:var(--bad-edge);color:var(--bad-ink)}\n\
    .off{background:var(--off);border-color:var(--off-edge);color:var(--off-ink)}\n\
    .full{background:var(--full);border-color:var(--full-edge);color:#fff}\n\
    .empty{background:repeating-linear-gradient(45deg,var(--sheet) 0 4px,var(--hatch) 4px 6px);\
    border-color:var(--wait-edge);color:var(--wait-ink)}\n\
    progress{appearance:none;-webkit-appearance:none;display:inline-block;width:100%;\
    min-width:4rem;height:.75rem;border:0;border-radius:.5rem;background:var(--track);\
    overflow:hidden;vertical-align:middle;color:var(--part)}\n\
    .tight{color:var(--tight)}\n\
    .whole{color:var(--whole)}\n\
    progress::-webkit-progress-bar{background:var(--track)}\n\
    progress::-webkit-progress-value{background:currentColor}\n\
    progress::-moz-progress-bar{background:currentColor}\n\
    .sum{display:grid;grid-template-columns:repeat(auto-fit,minmax(8.5rem,1fr));gap:.75rem;\
    margin:1.25rem 0 0;padding:0;list-style:none}\n\
    .sum li{padding:.75rem 1rem;background:var(--sheet);border:1px solid var(--edge);\
    border-radius:.5rem;color:var(--faint);font-size:.875rem}\n\
    .sum b{display:block;color:var(--ink);font-size:1.5rem;line-height:1.2;\
    font-variant-numeric:tabular-nums}\n\
    .how{width:45%;white-space:nowrap}\n\
    .how span{display:inline-block;width:9rem;font-variant-numeric:tabular-nums}\n\
    .how progress{width:calc(100% - 9rem)}\n\
    .far{display:flex;flex-wrap:wrap;gap:.25rem 1rem;align-items:center;margin:1rem 0 0}\n\
    .far progress{flex:1 1 12rem;height:1.1rem}\n\
    .todo{margin:0;padding:0;list-style:none}\n\
    .todo li{display:flex;flex-wrap:wrap;gap:.25rem 1rem;align-items:baseline;\
    padding:.75rem 1rem;border-top:1px solid var(--rule)}\n\
    dl{display:grid;grid-template-columns:max-content 1fr;gap:.35rem 1.25rem;margin:0;\
    padding:.25rem 1rem 1rem}\n\
    dt{color:var(--faint)}\n\
    dd{margin:0;overflow-wrap:anywhere}\n\
    .place{display:flex;flex-wrap:wrap;gap:.5rem 1.5rem;align-items:center;padding:1rem}\n\
    .place>.m{font-size:2rem;font-weight:600;line-height:1.1}\n\
    pre{margin:0;padding:.25rem 1rem 1rem;font:14px/1.7 ui-monospace,'DejaVu Sans Mono',Menlo,\
    Consolas,monospace;white-space:pre-wrap;overflow-wrap:anywhere}\n";

const SHEETS: &str =
    "@media(max-width:40rem){header>div{padding:.5rem}main{padding:1rem .5rem 2rem}nav{\
    flex:1 1 100%;gap:0;justify-content:space-between}nav a{padding:.55rem .35rem;\
    font-size:.9375rem}form{flex:1}input{flex:1;width:6rem;min-width:0}.o{display:none}th,td{\
    padding:.55rem .3rem}th:first-child,td:first-child{padding-left:.6rem}th:last-child,\
    td:last-child{padding-right:.6rem}h2{padding:.75rem .6rem}dl{padding-left:.6rem;\
    padding-right:.6rem}.place,section>p,.todo li{padding:.75rem .6rem}.m{font-size:.875rem}pre{\
    padding:.25rem .6rem .75rem;font-size:12.5px}.how span{width:auto}.how progress{\
    display:block;width:100%;height:.5rem;margin:.35rem 0 .15rem}.sum{\
    grid-template-columns:repeat(auto-fit,minmax(6rem,1fr));gap:.5rem}.sum li{padding:.6rem}}\n\
    @media print{body{background:none;font-size:11pt}header,.beside,.only{display:none}main{\
    max-width:none;padding:0}section{border:0}tr,li{break-inside:avoid}thead{\
    display:table-header-group}a{color:inherit;text-decoration:none}.s{border-color:#16263a;\
    background:none;color:#16263a}}\n";

/// The colours, for a light screen and for a dark one.
#[tactic(auto, unfolding(crate::specs::Style::colours))]
pub(crate) fn colours() -> &'static str
    ensures { result.now ≡ colours }
{
    COLOURS
}

/// What stands around the parts of a page.
#[tactic(auto, unfolding(crate::specs::Style::outline))]
pub(crate) fn outline() -> &'static str
    ensures { result.now ≡ outline }
{
    OUTLINE
}

/// The parts of a page, and states by their colours.
#[tactic(auto, unfolding(crate::specs::Style::parts))]
pub(crate) fn parts() -> &'static str
    ensures { result.now ≡ parts }
{
    PARTS
}

/// A narrow screen, and paper.
#[tactic(auto, unfolding(crate::specs::Style::sheets))]
pub(crate) fn sheets() -> &'static str
    ensures { result.now ≡ sheets }
{
    SHEETS
}

//! Tables: what stands above one, the names of its columns, its end; and a sentence in place of one that has no row.
ghost use Rattle.std.specs.Prelude.{◌≡◌, ◌++◌, OnOk, string_bytes};
ghost use Rattle.office_pages.specs.Tables.{no_rows, section_head, table_end, table_head};

use crate::pieces::Piece::{Count, Markup};
use crate::pieces::push_pieces;
use std::alloc::{AllocError, Global};

/// Appends a state or a name, how many rows the table below has, and what else is to be said of them.
pub(crate) fn push_section_head<'a>(
    alloc: Global,
    page: &mut String,
    name: &'a str,
    count: u128,
    more: &'a str,
) -> Result<(), AllocError>
    ensures { OnOk result
        (string_bytes page.new ≡ string_bytes page.old ++ section_head name.now count more.now) }
{
    push_pieces(
        alloc,
        page,
        &[
            Markup("<section>\n<h2>"),
            Markup(name),
            Markup(" <small>"),
            Count(count),
            Markup(more),
            Markup("</small></h2>\n"),
        ],
    )
}

/// Appends a sentence in place of a table.
pub(crate) fn push_no_rows(
    alloc: Global,
    page: &mut String,
    sentence: &str,
) -> Result<(), AllocError>
    ensures { OnOk result (string_bytes page.new ≡ string_bytes page.old ++ no_rows sentence.now) }
{
    push_pieces(
        alloc,
        page,
        &[
            Markup("<p class='fine'>"),
            Markup(sentence),
            Markup("</p>\n</section>\n"),
        ],
    )
}

/// Appends the names of columns.
pub(crate) fn push_table_head(
    alloc: Global,
    page: &mut String,
    columns: &str,
) -> Result<(), AllocError>
    ensures { OnOk result (string_bytes page.new ≡ string_bytes page.old ++ table_head columns.now) }
{
    push_pieces(
        alloc,
        page,
        &[
            Markup("<table>\n<thead><tr>"),
            Markup(columns),
            Markup("</tr></thead>\n<tbody>\n"),
        ],
    )
}

/// Appends the end of a table.
pub(crate) fn push_table_end(alloc: Global, page: &mut String) -> Result<(), AllocError>
    ensures { OnOk result (string_bytes page.new ≡ string_bytes page.old ++ table_end) }
{
    push_pieces(alloc, page, &[Markup("</tbody>\n</table>\n</section>\n")])
}

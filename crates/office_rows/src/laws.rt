//! The laws of rowids. Each function has an empty body, and its contract is the law.

ghost use Rattle.office_rows.specs.{Places.{InsertAddsLast, RowsHaveOneOrder}, InPlace.{AddsInPlace, RepliesInPlace, OthersKeepPlaces}};

/// A row that is inserted without a rowid is the last, under the next number.
pub fn insert_adds_last()
    ensures { InsertAddsLast }
{}

/// Rows whose rowids rise have one order.
pub fn rows_have_one_order()
    ensures { RowsHaveOneOrder }
{}

/// An interchange that is inserted is the last row of its table, under the next rowid.
pub fn adds_in_place()
    ensures { AddsInPlace }
{}

/// An interchange that gets its reply stays under its rowid, and so do all others.
pub fn replies_in_place()
    ensures { RepliesInPlace }
{}

/// What is written to another table leaves the interchanges at their places.
pub fn others_keep_places()
    ensures { OthersKeepPlaces }
{}

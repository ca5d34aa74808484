//! Laws of the definitions. Each function has an empty body, and its contract is the law: a call brings it into
//! the caller's proof.

ghost use Rattle.office_pages.specs.Laws.{TextsBringNoMarkup};

/// A page that shows any text between its tags has the same tags.
pub fn texts_bring_no_markup()
    ensures { TextsBringNoMarkup }
{}

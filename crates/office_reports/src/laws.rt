//! Laws of the definitions. Each function has an empty body, and its contract is the law: a call brings it into
//! the caller's proof.
ghost use Rattle.office_reports.specs.Laws.{YardReportsAreOne, ListReportsAreOne, NamesAreWritten};
ghost use Rattle.office_reports.specs.LookupLaws.{BlocksReportsAreOne, PartnersReportsAreOne, TicketTextsStay, VisitTextsStay, WorkReportsAreOne};
ghost use Rattle.office_reports.specs.PictureLaws.{FieldsAreShown, FieldsBringNoMarkup, FieldsStayInPlace, PicturesAreOne};

/// A state has one report on its yard, and one on each list.
pub fn reports_are_one()
    ensures yard { YardReportsAreOne }
    ensures list { ListReportsAreOne }
{}

/// A slot with a name is written as its name.
pub fn names_are_written()
    ensures { NamesAreWritten }
{}

/// A state has one report on its blocks, and one on what is left to do of each list. Partners have one report, for any
/// the order in which the numbers come that wait.
pub fn lookups_are_one()
    ensures blocks { BlocksReportsAreOne }
    ensures work { WorkReportsAreOne }
    ensures partners { PartnersReportsAreOne }
{}

/// The values of a container's visits, and of an interchange, have the text of the report on it.
pub fn texts_stay()
    ensures visits { VisitTextsStay }
    ensures tickets { TicketTextsStay }
{}

/// A state has one picture.
pub fn pictures_are_one()
    ensures { PicturesAreOne }
{}

/// A field is written as a text that shows its bytes, one by one.
pub fn fields_are_shown()
    ensures { FieldsAreShown }
{}

/// Wherever a field stands, what follows stands there too: between tags, in a tag, or in a value of a tag.
pub fn fields_stay_in_place()
    ensures { FieldsStayInPlace }
{}

/// Whatever the terminal's name and the fields of containers say, the page has the same tags.
pub fn fields_bring_no_markup()
    ensures { FieldsBringNoMarkup }
{}

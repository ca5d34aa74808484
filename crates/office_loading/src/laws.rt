//! What the definitions come to.
ghost use Rattle.office_loading.specs.OwnOffice.{NothingClosedIsAnOffice};

/// Where nothing is closed, a store's own rows are those of an office.
pub fn nothing_closed_is_an_office()
    ensures { NothingClosedIsAnOffice }
{}

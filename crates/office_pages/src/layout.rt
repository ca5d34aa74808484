//! What is the same on every page: whether it is asked for again each minute, and its foot.
ghost use Rattle.std.specs.Prelude.{◌≡◌};
ghost use Rattle.office_pages.specs.Fixed.{again, foot};

#[tactic(auto, unfolding(crate::specs::Fixed::again))]
pub(crate) fn again(asks_again: bool) -> &'static str
    ensures { result.now ≡ again asks_again }
{
    if asks_again {
        "<meta http-equiv='refresh' content='60'>\n"
    } else {
        ""
    }
}

const FOOT: &str = "</main>\n\
    </body>\n\
    </html>\n";

/// The end.
#[tactic(auto, unfolding(crate::specs::Fixed::foot))]
pub(crate) fn foot() -> &'static str
    ensures { result.now ≡ foot }
{
    FOOT
}

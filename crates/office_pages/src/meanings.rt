//! What the names in a reply mean.
ghost use Rattle.std.specs.Prelude.{◌≡◌, map};
ghost use Rattle.office_pages.specs.Meanings.{meaning_of, meant, message_faults, reasons};

/// The name of a reason or a fault, and what it means.
#[derive(Clone, Copy)]
pub(crate) struct Meaning(&'static str, &'static str);

/// The faults of a message, with the sentences of docs/PROFILE.md.
const MESSAGE_FAULTS: [Meaning; 8] = [
    Meaning("OtherType", "S009 is none of the three types"),
    Meaning("NoBgm", "the heading has no BGM"),
    Meaning(
        "Code",
        "1001 is no code of that type that the partner may send",
    ),
    Meaning(
        "Function",
        "1225 is neither empty nor 9, and is not 5 under the code of a list",
    ),
    Meaning(
        "NoTransport",
        "a COPRAR or COARRI without such a TDT, or whose voyage or vessel is outside the limits",
    ),
    Meaning("NoEquipment", "no container"),
    Meaning("EquipmentCount", "6066 isn't the number of EQD segments"),
    Meaning("TooMany", "over 999 containers"),
];

/// The faults of a line, and the other reasons why an order is refused, with the sentences of docs/PROFILE.md.
const REASONS: [Meaning; 18] = [
    Meaning("Form", "the number has not its form"),
    Meaning("CheckDigit", "its check digit is wrong"),
    Meaning(
        "Size",
        "the size-type has not its form, or its length isn't taken",
    ),
    Meaning(
        "Moment",
        "its text is not of its format, or of no moment of the calendar",
    ),
    Meaning(
        "SlotText",
        "the slot's name has not its form; for a Move also, if none is named",
    ),
    Meaning("AlreadyIn", "the container is in the yard"),
    Meaning("NotIn", "the container isn't in the yard"),
    Meaning(
        "AlreadyListed",
        "it is on that list of that call, done or not (of a replacement: done, or listed by an earlier line of it)",
    ),
    Meaning("NotListed", "it isn't on the call's list"),
    Meaning(
        "ListLineDone",
        "it was loaded, or discharged, on that call before",
    ),
    Meaning(
        "Buried",
        "another container stands on it, which blocker names",
    ),
    Meaning("NoSlot", "the slot that is asked for isn't in the yard"),
    Meaning(
        "SlotKind",
        "a twenty asks for an even bay, or a forty for an odd one",
    ),
    Meaning("Taken", "another container covers a cell of that slot"),
    Meaning("OnAir", "nothing below that slot can carry it"),
    Meaning(
        "OnEmpty",
        "the container is full, and one that would carry it there is empty; an empty one would fit",
    ),
    Meaning("NoRoom", "no slot was asked for, and none fits"),
    Meaning(
        "VisitLimit",
        "as many visits were recorded as the set-up allows",
    ),
];

/// The sentence of a name, empty if it has none.
pub(crate) fn meaning_of(meanings: &'static [Meaning], name: &str) -> &'static str
    ensures { result.now ≡ meaning_of (map meant meanings.now) name.now }
{
    for meaning in meanings {
        if meaning.0 == name {
            return meaning.1;
        }
    }
    ""
}

#[tactic(auto, unfolding(crate::specs::Meanings::message_faults))]
pub(crate) fn message_faults() -> &'static [Meaning]
    ensures { map meant result.now ≡ message_faults }
{
    &MESSAGE_FAULTS
}

#[tactic(auto, unfolding(crate::specs::Meanings::reasons))]
pub(crate) fn reasons() -> &'static [Meaning]
    ensures { map meant result.now ≡ reasons }
{
    &REASONS
}

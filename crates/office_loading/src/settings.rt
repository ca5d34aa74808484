ghost use Rattle.std.specs.Prelude.{◌≡◌, ◌↔◌, IsTrue, ◌≤◌, [], string_bytes, ◌≢◌, ◌<◌, ℕ, IfOk, IfErr, Some, None, MatchOption, map, length, slice_get, decimal};
ghost use Rattle.box6346.specs.{NumberText.is_number, SizeText.is_size, SlotName.IsNamed};
ghost use Rattle.edi_messages.specs.{CodeText.table_fault, Codes.table_texts, Forms.{is_name_if_any, IsFormedCall}, Owned.call_content, Texts.is_name};
ghost use Rattle.edi_syntax.specs.Moments.{is_moment};
ghost use Rattle.office_loading.specs.{Checks.AreOwnVisits, Contents.setting_content};
ghost use Rattle.office_loading.specs.Formed.{IsSoundSource, IsSoundArrival, IsSoundDeparture, IsSoundExit, IsSoundVisit, IsSoundLine, AreSoundVisits, AreSoundLines, AreByLetter, MayFollow};
ghost use Rattle.office_loading.specs.Said.{setting_names, names_of, values_of, code_values, set_up_with, AreSettings, RefusesSettings};
ghost use Rattle.office_admission.specs.Limits.{most_visits};
ghost use Rattle.terminal_core.specs.{Forms.IsFormedPort, Rows.visit_content};

use box6346::{BoxNumber, SizeType, Slot};
use edi_messages::{Call, CodeTable};
use edi_syntax::{LAST_NUMBER, Moment, are_printable};
use itoa::Buffer;
use office_admission::{MOST_VISITS, is_party_code};
use std::alloc::Global;
use terminal_core::{Arrival, Departure, LAST_PARTNER, Listing, RestoreFault, Side, Source, Visit};
use yard_core::Block;

/// A setting of the office.
#[derive(Drop)]
pub struct Setting {
    /// What it says.
    pub name: String,
    /// How it says it.
    pub value: String,
}

/// What the settings say.
#[derive(Drop)]
pub(crate) struct Settings {
    /// The code by which interchanges name the terminal as their recipient.
    pub(crate) terminal: String,
    /// The codes of document names (1001).
    pub(crate) codes: CodeTable,
    /// How many visits the terminal may record.
    pub(crate) visit_limit: u32,
}

/// Whether a text is a name: 1 to 35 bytes from space to tilde.
pub(crate) fn is_name(text: &str) -> bool
    ensures { result ≡ is_name text.now }
{
    let bytes = text.as_bytes();
    1 <= bytes.len() && bytes.len() <= 35 && are_printable(bytes)
}

/// Whether a text is a name, or empty.
pub(crate) fn is_name_if_any(text: &str) -> bool
    ensures { result ≡ is_name_if_any text.now }
{
    text.is_empty() || is_name(text)
}

/// Whether two texts are the same.
pub(crate) fn are_same(one: &str, other: &str) -> bool
    ensures { IsTrue result ↔ (one.now ≡ other.now) }
{
    one == other
}

/// Whether each visit has its form, and was opened and closed by partners from 1 to the given count.
pub(crate) fn are_sound_visits(count: usize, visits: &[Visit]) -> bool
    ensures { IsTrue result ↔ AreSoundVisits count visits.now }
{
    for visit in visits {
        if !is_sound_visit(count, visit) {
            return false;
        }
    }
    true
}

/// Whether the numbers of visits rise, and go on one by one after the newest closing.
pub(crate) fn are_own_visits(newest_closed: u32, visits: &[Visit]) -> bool
    ensures { IsTrue result ↔ AreOwnVisits newest_closed (map visit_content visits.now) }
{
    let mut before = 0;
    for visit in visits {
        if !may_follow(newest_closed, before, visit.number) {
            return false;
        }
        before = visit.number;
    }
    true
}

/// Whether the number of a visit may follow that of the visit before it.
fn may_follow(newest_closed: u32, before: u32, number: u32) -> bool
    ensures { IsTrue result ↔ MayFollow newest_closed before number }
{
    before < number && (number - 1 <= newest_closed || number - 1 == before)
}

fn is_sound_visit(count: usize, visit: &Visit) -> bool
    ensures { IsTrue result ↔ IsSoundVisit count (visit_content visit.now) }
{
    is_number(visit.container);
    is_size(visit.size_type);
    let is_sound = is_sound_arrival(count, visit.arrival) && is_sound_exit(count, visit.departure);
    is_sound && is_name_if_any(visit.booking.as_str()) && visit.kilos <= 999_999
}

fn is_sound_arrival(count: usize, arrival: Arrival) -> bool
    ensures { IsTrue result ↔ IsSoundArrival count arrival }
{
    is_moment(arrival.moment);
    is_sound_source(count, arrival.source) && is_named(arrival.slot)
}

fn is_sound_exit(count: usize, departure: Option<Departure>) -> bool
    ensures { IsTrue result ↔ IsSoundExit count departure }
{
    match departure {
        Some(departure) => is_sound_departure(count, departure),
        None => true,
    }
}

fn is_sound_departure(count: usize, departure: Departure) -> bool
    ensures { IsTrue result ↔ IsSoundDeparture count departure }
{
    is_moment(departure.moment);
    is_sound_source(count, departure.source)
}

fn is_sound_source(count: usize, source: Source) -> bool
    ensures { IsTrue result ↔ IsSoundSource count source }
{
    1 <= source.partner
        && source.partner <= LAST_PARTNER
        && source.partner as usize <= count
        && 1 <= source.number
        && source.number <= LAST_NUMBER
}

/// Whether the slot has a name that is read again.
fn is_named(slot: Slot) -> bool
    ensures { IsTrue result ↔ IsNamed slot }
{
    slot.block.is_ascii_uppercase() && slot.bay < 1000 && slot.row < 100 && slot.tier < 10
}

/// What the type of a moment says: it is one of the calendar.
fn is_moment(moment: Moment)
    ensures { IsTrue (is_moment moment) }
{
    let _ = moment.digits();
}

/// What the type of a container number says.
fn is_number(container: BoxNumber)
    ensures { IsTrue (is_number container) }
{
    let _ = container.text();
}

/// What the type of a size-type says.
fn is_size(size_type: SizeType)
    ensures { IsTrue (is_size size_type) }
{
    let _ = size_type.text();
}

/// Whether each line has its form.
pub(crate) fn are_sound_lines(lines: &[Listing]) -> bool
    ensures { IsTrue result ↔ AreSoundLines lines.now }
{
    for line in lines {
        if !is_sound_line(line) {
            return false;
        }
    }
    true
}

fn is_sound_line(line: &Listing) -> bool
    ensures { IsTrue result ↔ IsSoundLine line.now }
{
    is_number(line.container);
    is_formed_call(&line.call) && is_formed_port(line.side, line.port.as_str())
}

fn is_formed_call(call: &Call) -> bool
    ensures { IsTrue result ↔ IsFormedCall (call_content call.now) }
{
    is_name(call.vessel.as_str()) && is_name(call.voyage.as_str())
}

/// Whether a line of such a list may have the port: one to be discharged has none.
fn is_formed_port(side: Side, port: &str) -> bool
    ensures { IsTrue result ↔ IsFormedPort side port.now }
{
    match side {
        Side::Load => is_name_if_any(port),
        Side::Discharge => port.is_empty(),
    }
}

/// Whether blocks are in the order of their letters.
pub(crate) fn are_by_letter(blocks: &[Block]) -> bool
    ensures { IsTrue result ↔ AreByLetter blocks.now }
{
    for index in 1..blocks.len() {
        if blocks[index].letter < blocks[index - 1].letter {
            return false;
        }
    }
    true
}

/// Index of a setting among the ten, in the order of their names.
const TERMINAL: usize = 6;

const VERSION: usize = 7;

const VISITS: usize = 8;

/// What settings say. Unsound if they are those of no set-up, and Memory.
pub(crate) fn read_settings(alloc: Global, settings: &[Setting]) -> Result<Settings, RestoreFault>
    ensures ok { IfOk result (λ said. AreSettings (map setting_content settings.now) (set_up_with said)) }
    ensures refused { IfErr result (RefusesSettings (map setting_content settings.now)) }
{
    if !are_named(settings) {
        return Err(RestoreFault::Unsound);
    }
    if !are_same(value(settings, VERSION), "3") {
        return Err(RestoreFault::Unsound);
    }
    let name = value(settings, TERMINAL);
    if !is_party_code(name) {
        return Err(RestoreFault::Unsound);
    }
    let Some(codes) = codes_of(settings) else {
        return Err(RestoreFault::Unsound);
    };
    let Some(visit_limit) = limit_of(value(settings, VISITS)) else {
        return Err(RestoreFault::Unsound);
    };
    let terminal = String::from_str(alloc, name)?;
    Ok(Settings {
        terminal,
        codes,
        visit_limit,
    })
}

/// Whether the settings have the ten names, in their order.
fn are_named(settings: &[Setting]) -> bool
    ensures { IsTrue result ↔ (names_of (map setting_content settings.now) ≡ setting_names) }
{
    if settings.len() != 10 {
        return false;
    }
    for (place, setting) in settings.iter().enumerate() {
        if !are_same(setting.name.as_str(), name_at(place)) {
            return false;
        }
    }
    true
}

/// The name of a setting by its place.
fn name_at(place: usize) -> &'static str
    requires { place < 10 }
    ensures { slice_get setting_names place ≡ Some result.now }
{
    match place {
        0 => "discharge-list",
        1 => "discharge-report",
        2 => "gate-in",
        3 => "gate-out",
        4 => "load-list",
        5 => "load-report",
        6 => "terminal",
        7 => "version",
        8 => "visits",
        _ => "yard-move",
    }
}

fn value(settings: &[Setting], place: usize) -> &str
    requires { place < length settings.now }
    ensures { slice_get (values_of (map setting_content settings.now)) place ≡ Some result.now }
{
    settings[place].value.as_str()
}

/// The seven codes of document names, in the order of their table.
fn codes_of(settings: &[Setting]) -> Option<CodeTable>
    requires { length settings.now ≡ 10 }
    ensures { MatchOption result
        (table_fault (code_values (values_of (map setting_content settings.now))) ≢ None)
        (λ table. (table_fault (table_texts table) ≡ None) ×
        (table_texts table ≡ code_values (values_of (map setting_content settings.now)))) }
{
    let gate_in = value(settings, 2);
    let gate_out = value(settings, 3);
    let yard_move = value(settings, 9);
    let discharge_list = value(settings, 0);
    let load_list = value(settings, 4);
    let discharge_report = value(settings, 1);
    let load_report = value(settings, 5);
    let table = CodeTable::new([
        gate_in.as_bytes(),
        gate_out.as_bytes(),
        yard_move.as_bytes(),
        discharge_list.as_bytes(),
        load_list.as_bytes(),
        discharge_report.as_bytes(),
        load_report.as_bytes(),
    ]);
    match table {
        Ok(table) => Some(table),
        Err(_) => None,
    }
}

/// The limit of visits: a decimal number without leading zeros, from 1 to 999,999,999.
fn limit_of(text: &str) -> Option<u32>
    ensures { MatchOption result
        ((n : ℕ) → 1 ≤ n → n ≤ most_visits → ¬ (text.now ≡ decimal n))
        (λ n. (1 ≤ n) × (n ≤ most_visits) × (text.now ≡ decimal n)) }
{
    match text.parse::<u32>() {
        Ok(limit) => {
            if is_limit(limit, text) {
                Some(limit)
            } else {
                None
            }
        }
        Err(_) => None,
    }
}

/// Whether the number may be a limit of visits, and the text is how it is written.
fn is_limit(number: u32, text: &str) -> bool
    ensures { IsTrue result ↔ ((1 ≤ number) × (number ≤ most_visits) × (text.now ≡ decimal number)) }
{
    1 <= number && number <= MOST_VISITS && is_decimal(number, text)
}

fn is_decimal(number: u32, text: &str) -> bool
    ensures { IsTrue result ↔ (text.now ≡ decimal number) }
{
    let mut buffer = Buffer::new();
    let written = buffer.format(number);
    are_same(text, written)
}

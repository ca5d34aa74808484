//! The report on a container's visits as JSON and as CSV.
ghost use Rattle.office_admission.specs.Setups.{setup_content};
ghost use Rattle.office_report_data.specs.{Containers.passage_data, Tables.{HasGiven, IsBetweenRecords, record_text, written_rows}, Words.or_null};
ghost use Rattle.office_report_data.specs.Visits.{AreOfVisit, days_data, days_field, fields_content, passage_fields, record_of, visit_data, visit_fields, visits_data};
ghost use Rattle.office_report_data.specs.Visits.{visits_front, visits_header, visits_table, with_passages, with_stay};
ghost use Rattle.office_reports.specs.{Passages.{arrival_by, departure_by, passage_content}, Visits.visits_content};
ghost use Rattle.serde_json.specs.{View.{items_of, members_view, view}, Written.{compact_text, items_text}};
ghost use Rattle.std.specs.{List.flat_map, Option.option_map, Prelude.{◌≡◌, ◌++◌, Some, false, map, string_bytes, IfOk, OnOk}};
ghost use Rattle.terminal_core.specs.Rows.{visit_content};

use crate::containers::{passage_or_null, passage_value};
use crate::rows::{push_back, push_quoted_in, push_row, put_text};
use crate::tables::{push_record, table_text, table_under};
use crate::words::{load_word, number_field, number_or_null, text_or_null, way_word};
use csv::Writer;
use edi_syntax::Moment;
use office_admission::Setup;
use office_reports::texts::{moment_text, number_text, size_text, slot_text};
use office_reports::{Passage, VisitsReport, passage_of};
use serde_json::{Map, Value, put};
use std::alloc::{AllocError, Global};
use terminal_core::{Departure, Visit};

/// The report as JSON: an object of the `container`'s number and `rows` by the numbers of its visits, each of `booking`,
/// `days` (from the date of entry to that of exit), `entry` and `exit` (`moment`, `number` and `partner` of the interchange,
/// `way`), `gross` in kilograms, `load` (`full` or `empty`), `size_type`, `slot` (that of entry) and `visit`. `null` is for
/// nothing: while the container is here it has no `days` and no `exit`.
#[tactic(auto, using(crate::proofs::WholeLemmas::visits_whole))]
pub fn visits_json(alloc: Global, report: &VisitsReport<'_>) -> Result<String, AllocError>
    ensures { IfOk result (λ text. string_bytes text ≡ compact_text (visits_data (visits_content report.now))) }
{
    let number = number_text(alloc, report.container)?;
    let mut text = String::new(alloc);
    push_front(alloc, &mut text, number.as_str())?;
    push_visits(alloc, &mut text, report.setup, &report.visits)?;
    push_back(&mut text)?;
    Ok(text)
}

#[tactic(auto, unfolding(crate::specs::Visits::visits_front))]
fn push_front(alloc: Global, text: &mut String, container: &str) -> Result<(), AllocError>
    ensures { OnOk result (string_bytes text.new ≡ string_bytes text.old ++ visits_front container.now) }
{
    push_quoted_in(alloc, text, "{\"container\":", container, ",\"rows\":[")
}

/// Appends the visits, a comma between each two, and the end of their list.
fn push_visits(
    alloc: Global,
    text: &mut String,
    setup: &Setup,
    visits: &[&Visit],
) -> Result<(), AllocError>
    ensures { OnOk result (string_bytes text.new ≡ string_bytes text.old ++ items_text false
        (items_of (map (visit_data (setup_content setup.now)) (map (λ visit. visit_content visit.now) visits.now)))) }
{
    let mut is_later = false;
    for visit in visits {
        let row = visit_text(alloc, setup, visit)?;
        push_row(text, is_later, row.as_str())?;
        is_later = true;
    }
    text.push_str("]")
}

#[tactic(auto, using(crate::proofs::FloatLemmas::visit_has_no_float))]
fn visit_text(alloc: Global, setup: &Setup, visit: &Visit) -> Result<String, AllocError>
    ensures { IfOk result (λ text. string_bytes text
        ≡ compact_text (visit_data (setup_content setup.now) (visit_content visit.now))) }
{
    let value = visit_value(alloc, setup, visit)?;
    value.to_string(alloc)
}

fn visit_value(alloc: Global, setup: &Setup, visit: &Visit) -> Result<Value, AllocError>
    ensures { IfOk result
        (λ value. view value ≡ visit_data (setup_content setup.now) (visit_content visit.now)) }
{
    let mut members = Map::new(alloc);
    put_stay(alloc, &mut members, visit)?;
    put_passages(alloc, &mut members, setup, visit)?;
    Ok(Value::Object(members))
}

/// Puts what is said of a visit, but for its passages, among the members of an object.
#[tactic(auto, unfolding(crate::specs::Visits::with_stay))]
fn put_stay(
    alloc: Global,
    members: &mut Map<String, Value>,
    visit: &Visit,
) -> Result<(), AllocError>
    ensures { OnOk result (members_view members.new.entries
        ≡ with_stay (visit_content visit.now) (members_view members.old.entries)) }
{
    let size = size_text(alloc, visit.size_type)?;
    let slot = slot_text(alloc, visit.arrival.slot)?;
    let booking = text_or_null(alloc, visit.booking.as_str())?;
    put(members, alloc, "booking", booking)?;
    put(members, alloc, "gross", number_or_null(visit.kilos))?;
    put_text(alloc, members, "load", load_word(visit.is_laden))?;
    put_text(alloc, members, "size_type", size.as_str())?;
    put_text(alloc, members, "slot", slot.as_str())?;
    put(members, alloc, "visit", Value::from(visit.number))
}

/// Puts how the container of a visit came and left among the members of an object.
#[tactic(auto, unfolding(crate::specs::Visits::with_passages))]
fn put_passages(
    alloc: Global,
    members: &mut Map<String, Value>,
    setup: &Setup,
    visit: &Visit,
) -> Result<(), AllocError>
    ensures { OnOk result (members_view members.new.entries
        ≡ with_passages (setup_content setup.now) (visit_content visit.now) (members_view members.old.entries)) }
{
    put(
        members,
        alloc,
        "days",
        days_value(visit.arrival.moment, &visit.departure),
    )?;
    let entry = passage_value(alloc, &entry_of(setup, visit))?;
    put(members, alloc, "entry", entry)?;
    let exit = passage_or_null(alloc, &exit_of(setup, &visit.departure))?;
    put(members, alloc, "exit", exit)
}

/// By which the container of a visit came.
fn entry_of<'a>(setup: &'a Setup, visit: &Visit) -> Passage<'a>
    ensures { passage_content result ≡ arrival_by (setup_content setup.now) (visit_content visit.now) }
{
    let arrival = visit.arrival;
    passage_of(setup, arrival.way, arrival.source, arrival.moment)
}

/// By which it left, if it did.
fn exit_of<'a>(setup: &'a Setup, departure: &Option<Departure>) -> Option<Passage<'a>>
    ensures { option_map passage_content result ≡ departure_by (setup_content setup.now) departure.now }
{
    match departure {
        Some(departure) => Some(passage_of(
            setup,
            departure.way,
            departure.source,
            departure.moment,
        )),
        None => None,
    }
}

fn days_value(entry: Moment, departure: &Option<Departure>) -> Value
    ensures { view result ≡ days_data entry departure.now }
{
    match departure {
        Some(departure) => Value::from(entry.days_until(departure.moment)),
        None => Value::Null,
    }
}

// As CSV.

/// The report as CSV, by the numbers of the visits: under the header
/// `visit,size_type,load,entry_way,entry_partner,entry_number,entry_moment,slot,booking,gross,exit_way,exit_partner,
/// exit_number,exit_moment,days` (one line) a record for each. Each record ends with LF.
pub fn visits_csv(alloc: Global, report: &VisitsReport<'_>) -> Result<String, AllocError>
    ensures { IfOk result (λ text. string_bytes text ≡ visits_table (visits_content report.now)) }
{
    let mut table = headed_table(alloc)?;
    push_records(alloc, &mut table, report.setup, &report.visits)?;
    table_text(table)
}

/// The table with its header, and no row yet.
#[tactic(auto, unfolding(crate::specs::Visits::visits_header))]
fn headed_table(alloc: Global) -> Result<Writer<Vec<u8>>, AllocError>
    ensures { IfOk result (λ table. HasGiven table (record_text visits_header)) }
{
    table_under(
        alloc,
        &[
            b"visit",
            b"size_type",
            b"load",
            b"entry_way",
            b"entry_partner",
            b"entry_number",
            b"entry_moment",
            b"slot",
            b"booking",
            b"gross",
            b"exit_way",
            b"exit_partner",
            b"exit_number",
            b"exit_moment",
            b"days",
        ],
    )
}

fn push_records(
    alloc: Global,
    table: &mut Writer<Vec<u8>>,
    setup: &Setup,
    visits: &[&Visit],
) -> Result<(), AllocError>
    requires { IsBetweenRecords table.old }
    ensures { OnOk result (HasGiven table.new (written_rows table.old
        ++ flat_map (λ visit. record_text (visit_fields (setup_content setup.now) visit))
        (map (λ visit. visit_content visit.now) visits.now))) }
{
    for visit in visits {
        push_visit(alloc, table, setup, visit)?;
    }
    Ok(())
}

#[tactic(auto, using(crate::proofs::MemberLemmas::visit_is))]
fn push_visit(
    alloc: Global,
    table: &mut Writer<Vec<u8>>,
    setup: &Setup,
    visit: &Visit,
) -> Result<(), AllocError>
    requires { IsBetweenRecords table.old }
    ensures { OnOk result (HasGiven table.new (written_rows table.old
        ++ record_text (visit_fields (setup_content setup.now) (visit_content visit.now)))) }
{
    let fields = fields_of(alloc, visit)?;
    let entry = some_fields(alloc, &entry_of(setup, visit))?;
    let exit = passage_fields(alloc, &exit_of(setup, &visit.departure))?;
    push_fields(table, &fields, load_word(visit.is_laden), &entry, &exit)
}

#[tactic(auto, unfolding(crate::specs::Visits::visit_record))]
fn push_fields(
    table: &mut Writer<Vec<u8>>,
    fields: &VisitFields,
    load: &str,
    entry: &PassageFields,
    exit: &PassageFields,
) -> Result<(), AllocError>
    requires { IsBetweenRecords table.old }
    ensures { OnOk result (HasGiven table.new (written_rows table.old
        ++ record_text (record_of fields.now load.now entry.now exit.now))) }
{
    push_record(
        table,
        &[
            fields.number.as_bytes(),
            fields.size.as_bytes(),
            load.as_bytes(),
            entry.way.as_bytes(),
            entry.partner.as_bytes(),
            entry.number.as_bytes(),
            entry.moment.as_bytes(),
            fields.slot.as_bytes(),
            fields.booking.as_bytes(),
            fields.gross.as_bytes(),
            exit.way.as_bytes(),
            exit.partner.as_bytes(),
            exit.number.as_bytes(),
            exit.moment.as_bytes(),
            fields.days.as_bytes(),
        ],
    )
}

/// What is said of a visit besides its passages, and nothing of what there is not.
#[derive(Drop)]
struct VisitFields {
    number: String,
    size: String,
    slot: String,
    booking: String,
    gross: String,
    days: String,
}

fn fields_of(alloc: Global, visit: &Visit) -> Result<VisitFields, AllocError>
    ensures { IfOk result (λ fields. AreOfVisit (visit_content visit.now) fields) }
{
    Ok(VisitFields {
        number: visit.number.to_string(alloc)?,
        size: size_text(alloc, visit.size_type)?,
        slot: slot_text(alloc, visit.arrival.slot)?,
        booking: String::from_str(alloc, visit.booking.as_str())?,
        gross: number_field(alloc, visit.kilos)?,
        days: days_field(alloc, visit.arrival.moment, &visit.departure)?,
    })
}

/// What is said of a passage, and nothing if there is none.
#[derive(Drop)]
struct PassageFields {
    way: String,
    partner: String,
    number: String,
    moment: String,
}

fn passage_fields(alloc: Global, passage: &Option<Passage<'_>>) -> Result<PassageFields, AllocError>
    ensures { IfOk result
        (λ fields. fields_content fields ≡ passage_fields (option_map passage_content passage.now)) }
{
    match passage {
        Some(passage) => some_fields(alloc, passage),
        None => Ok(PassageFields {
            way: String::new(alloc),
            partner: String::new(alloc),
            number: String::new(alloc),
            moment: String::new(alloc),
        }),
    }
}

fn some_fields(alloc: Global, passage: &Passage<'_>) -> Result<PassageFields, AllocError>
    ensures { IfOk result
        (λ fields. fields_content fields ≡ passage_fields (Some (passage_content passage.now))) }
{
    Ok(PassageFields {
        way: String::from_str(alloc, way_word(passage.way))?,
        partner: String::from_str(alloc, passage.partner)?,
        number: passage.number.to_string(alloc)?,
        moment: moment_text(alloc, passage.moment)?,
    })
}

fn days_field(
    alloc: Global,
    entry: Moment,
    departure: &Option<Departure>,
) -> Result<String, AllocError>
    ensures { IfOk result (λ text. string_bytes text ≡ days_field entry departure.now) }
{
    match departure {
        Some(departure) => entry.days_until(departure.moment).to_string(alloc),
        None => Ok(String::new(alloc)),
    }
}

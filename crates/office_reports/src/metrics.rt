//! What those who watch over the office are shown: the metrics.
ghost use Rattle.std.specs.{List.flat_map, Prelude.{◌≡◌, ◌++◌, count_by, map, IfOk, OnOk, string_bytes}};
ghost use Rattle.office_reports.specs.Metrics.{gauge_content, gauge_head, gauge_text, gauges, is_here, is_waited_for, metrics_text, ready_text, versions_text};
ghost use Rattle.office_reports.specs.Partners.{partner_content};
ghost use Rattle.terminal_core.specs.Rows.{visit_content};

use crate::partners::{Partner, waiting_count};
use crate::texts::push_line;
use std::alloc::{AllocError, Global};
use terminal_core::{Terminal, Visit, newest_number};

/// That the office can be asked: compact JSON.
pub fn ready(alloc: Global) -> Result<String, AllocError>
    ensures { IfOk result (λ text. string_bytes text ≡ ready_text) }
{
    String::from_str(alloc, "{\"answer\":\"ready\"}")
}

/// How much there is of what, in the text format of Prometheus: accounts, containers in the yard, visits, how many there
/// ever were and how many there may be, interchanges that wait, and of how many partners; and the versions. Each value has
/// a line of help, one of its type and one of its own, and each line ends with LF.
pub fn metrics_report(
    alloc: Global,
    versions: Versions<'_>,
    terminal: &Terminal,
    visit_limit: u32,
    partners: &[Partner],
) -> Result<String, AllocError>
    ensures { IfOk result (λ text. string_bytes text ≡ metrics_text versions.entry.program.now versions.entry.store.now
        terminal.now visit_limit (map partner_content partners.now)) }
{
    let visits = terminal.visits();
    let gauges = [
        Gauge {
            name: "office_accounts",
            help: "Partners that have an account.",
            value: partners.len() as u128,
        },
        Gauge {
            name: "office_containers",
            help: "Containers in the yard.",
            value: here_count(visits) as u128,
        },
        Gauge {
            name: "office_visits",
            help: "Visits recorded, open and closed.",
            value: visits.len() as u128,
        },
        Gauge {
            // They are numbered from 1 without a gap, and the newest is never put away.
            name: "office_visits_ever",
            help: "Visits recorded, put away ones too.",
            value: u128::from(newest_number(visits)),
        },
        Gauge {
            name: "office_visits_limit",
            help: "Visits that may be recorded.",
            value: u128::from(visit_limit),
        },
        Gauge {
            name: "office_interchanges_waiting",
            help: "Interchanges that wait for a number that is missing.",
            value: waiting_count(partners),
        },
        Gauge {
            name: "office_partners_waiting",
            help: "Partners of whom an interchange waits.",
            value: waited_for_count(partners) as u128,
        },
    ];
    let mut text = String::new(alloc);
    push_gauges(alloc, &mut text, &gauges)?;
    push_versions(alloc, &mut text, versions)?;
    Ok(text)
}

/// How many of the containers are still here.
fn here_count(visits: &[Visit]) -> usize
    ensures { result ≡ count_by is_here (map visit_content visits.now) }
{
    let mut count = 0;
    for visit in visits {
        if visit.departure.is_none() {
            count += 1;
        }
    }
    count
}

/// For how many partners an interchange waits.
fn waited_for_count(partners: &[Partner]) -> usize
    ensures { result ≡ count_by is_waited_for (map partner_content partners.now) }
{
    let mut count = 0;
    for partner in partners {
        if !partner.waiting.is_empty() {
            count += 1;
        }
    }
    count
}

fn push_gauges(alloc: Global, text: &mut String, gauges: &[Gauge<'_>]) -> Result<(), AllocError>
    ensures { OnOk result (string_bytes text.new
        ≡ string_bytes text.old ++ flat_map gauge_text (map gauge_content gauges.now)) }
{
    for gauge in gauges {
        push_gauge(alloc, text, gauge)?;
    }
    Ok(())
}

fn push_gauge(alloc: Global, text: &mut String, gauge: &Gauge<'_>) -> Result<(), AllocError>
    ensures { OnOk result
        (string_bytes text.new ≡ string_bytes text.old ++ gauge_text (gauge_content gauge.now)) }
{
    let value = gauge.value.to_string(alloc)?;
    push_head(alloc, text, gauge.name, gauge.help)?;
    push_line(alloc, text, &[gauge.name, value.as_str()])
}

/// The lines before a value.
fn push_head(alloc: Global, text: &mut String, name: &str, help: &str) -> Result<(), AllocError>
    ensures { OnOk result (string_bytes text.new ≡ string_bytes text.old ++ gauge_head name.now help.now) }
{
    push_line(alloc, text, &["# HELP", name, help])?;
    push_line(alloc, text, &["# TYPE", name, "gauge"])
}

/// The versions, as labels of a value that is always 1.
fn push_versions(alloc: Global, text: &mut String, versions: Versions<'_>) -> Result<(), AllocError>
    ensures { OnOk result (string_bytes text.new
        ≡ string_bytes text.old ++ versions_text versions.entry.program.now versions.entry.store.now) }
{
    push_head(
        alloc,
        text,
        "office_info",
        "Versions of the program and of its store.",
    )?;
    push_text(text, "office_info{version=\"")?;
    push_text(text, versions.program)?;
    push_text(text, "\",store_version=\"")?;
    push_text(text, versions.store)?;
    push_text(text, "\"} 1\n")
}

fn push_text(text: &mut String, more: &str) -> Result<(), AllocError>
    ensures { OnOk result (string_bytes text.new ≡ string_bytes text.old ++ more.now) }
{
    text.push_str(more)
}

/// A value, under its name, and what it is.
#[derive(Clone, Copy)]
pub(crate) struct Gauge<'a> {
    /// What Prometheus calls it.
    pub(crate) name: &'a str,
    /// What it is, in a sentence.
    pub(crate) help: &'a str,
    pub(crate) value: u128,
}

/// The versions by which a program and its store are known.
#[derive(Clone, Copy)]
pub struct Versions<'a> {
    /// That of the program.
    pub program: &'a str,
    /// That of the tables.
    pub store: &'a str,
}

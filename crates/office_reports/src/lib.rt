//! The texts of the office's reports: the yard, a container's visits, a vessel's lists and a partner's
//! tickets.
//!
//! What can be asked of the office besides deliveries, and the keys by which it is asked, accounts that are to be
//! added and partners that deliver among them; and the number that digits write.
//!
//! The texts of what people look up: where a container is, how far the vessels' lists are and what is left to do of one,
//! which numbers are expected of the partners, how full the blocks of the yard are, and the CONTRL of a reply; and of what
//! watches over the office: whether it can be asked, and how much there is of what.
//!
//! The picture of the yard: one page of HTML, with a side view of each row of each block.
#![tactic(auto)]

mod blocks;
mod calls;
mod container_lines;
mod containers;
mod drawing;
mod drawn_containers;
mod fixed;
mod grids;
mod interchange_lines;
mod interchanges;
mod keys;
mod last;
mod last_lines;
pub mod laws;
mod lists;
mod metrics;
mod partners;
mod passages;
mod query;
pub mod replies;
pub mod texts;
mod tickets;
mod visits;
mod work;
mod work_lines;
pub mod yard;

pub use blocks::{
    BlockRow, BlockUse, BlocksReport, blocks_of, blocks_report, blocks_text, cell_count,
};
pub use calls::{CallsReport, ListCount, ListKey, calls_of, calls_report, calls_text};
pub use container_lines::{container_report, container_text};
pub use containers::{ContainerReport, Stay, container_of, open_lines_of};
pub use drawing::picture;
pub use fixed::field_text;
pub use interchange_lines::{interchange_text, kind_name, line_fault_name};
pub use interchanges::{
    InterchangeReport, LineFacts, LineOutcome, MessageRow, facts_of, interchange_of, messages_of,
};
pub use keys::{AccountKey, number_of, passed_of, read_account_key, read_query, read_sender_key};
pub use last::{Arrival, LastReport, LastRow, Settled, last_of};
pub use last_lines::last_text;
pub use lists::{ListReport, ListedLine, lines_on, list_name, list_of, list_report, list_text};
pub use metrics::{Versions, metrics_report, ready};
pub use partners::{
    Partner, PartnerRow, PartnersReport, Waiting, contrl_in, partner_report, partner_row,
    partner_text, partners_of, partners_report, partners_text,
};
pub use passages::{Passage, passage_of};
pub use query::{About, NotNow, Query, Report, ReportKind, View, has_view, program_version};
pub use tickets::{TicketReport, ticket, ticket_of, ticket_text};
pub use visits::{VisitsReport, visit_report, visits_of, visits_text};
pub use work::{Job, WorkReport, in_order, work_of};
pub use work_lines::{work_report, work_text};
pub use yard::{Standing, standings as yard_standings, yard_report, yard_text};

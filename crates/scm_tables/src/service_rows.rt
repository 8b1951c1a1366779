ghost use Rattle.std.specs.Prelude.{◌≡◌, ◌<◌, ◌^◌, ◌==◌, ◌&&◌, ◌||◌, ⊤, not, find, filter, length};
ghost use Rattle.std.specs.Prelude.{map, option_and_then, option_copied, AllPairs, Some};
ghost use Rattle.std.specs.List.{list_any};
ghost use Rattle.record_table.specs.Recorded.{is_displayed, is_named, spare_of};
ghost use Rattle.scm_model.specs.Changes.{configured_if, marked_if};
ghost use Rattle.scm_model.specs.Purge.{leaves};
ghost use Rattle.number_pairs.specs.declared.pairs.Pair.{Pair};
ghost use Rattle.scm_model.specs.Processes.{is_by};
ghost use Rattle.scm_rules.specs.Controls.{is_asked_by, unasked_if};
ghost use Rattle.scm_rules.specs.Failures.{counted_if};
ghost use Rattle.scm_rules.specs.Reports.{reported_if};
ghost use Rattle.scm_rules.specs.Security.{secured_if};
ghost use Rattle.start_plan.specs.Entered.{started_if};
ghost use Rattle.scm_model.specs.Ready.{is_running};
ghost use Rattle.scm_tables.specs.Failed.{fallen_at};
ghost use Rattle.scm_tables.specs.Asked.{asked_in};
ghost use Rattle.scm_tables.specs.Marked.{number_leaves};

use super::turning::{Count, Fall, Mark, Report, Start, Typing, Unask};
use handle_table::HandleTable;
use marked_delete::Free;
use number_pairs::Pair;
use record_table::RecordTable;
use scm_model::codes::{SERVICE_RUNNING, SERVICE_STOPPED};
use scm_model::{Config, Opened, Service, Status};
use scm_text::{Items, WText};

/// The service that a handle is of.
pub fn row_in(rows: &RecordTable, opened: Option<Opened>) -> Option<&Service>
    ensures { option_copied result ≡ option_and_then
        (λ of. find (λ row. row.number == of.service) rows.now.services) opened }
{
    match opened {
        Some(opened) => rows.get(opened.service),
        None => None,
    }
}

/// The service with the same name.
pub fn named_in<'a>(rows: &'a RecordTable, name: &WText) -> Option<&'a Service>
    ensures { option_copied result ≡ find (is_named name.now) rows.now.services }
{
    rows.get(rows.by_name(name)?)
}

/// The service with the same display name.
pub fn displayed_in<'a>(rows: &'a RecordTable, display: &WText) -> Option<&'a Service>
    ensures { option_copied result ≡ find (is_displayed display.now) rows.now.services }
{
    rows.get(rows.by_display(display)?)
}

/// Whether there is a number other than one.
fn has_other(numbers: &[u64], number: u64) -> bool
    ensures { result ≡ list_any (λ other. not (other == number)) numbers.now }
{
    numbers.iter().any(|other| *other != number)
}

/// Whether a text is the same as the name or the display name of a service other than the one with
/// a number.
pub fn is_shown_by_another_in(rows: &RecordTable, number: u64, text: &WText) -> bool
    ensures { result ≡ list_any (λ row. not (row.number == number) &&
        (is_named text.now row || is_displayed text.now row)) rows.now.services }
{
    has_other(rows.named(text), number) || has_other(rows.displayed(text), number)
}

/// Whether a text is the same as the name or the display name of a service.
pub fn is_shown_in(rows: &RecordTable, text: &WText) -> bool
    ensures { result ≡ list_any (λ row. is_named text.now row || is_displayed text.now row)
        rows.now.services }
{
    rows.by_name(text).is_some() || rows.by_display(text).is_some()
}

/// How many services are RUNNING.
pub fn running_in(rows: &RecordTable) -> usize
    ensures { result ≡ length (filter is_running rows.now.services) }
{
    rows.iter()
        .filter(|row| row.status.state == SERVICE_RUNNING)
        .count()
}

/// Marks the service with a number.
pub fn mark_in(rows: &mut RecordTable, number: u64)
    ensures { rows.new.services ≡ map (marked_if number) rows.old.services }
{
    let _found = rows.alter(number, &Mark);
}

/// Gives the service with a number another configuration, for which there is room, and its status
/// the type.
pub fn configure_in(rows: &mut RecordTable, number: u64, config: Config)
    requires { rows.old.spare ≡ Some (spare_of config) }
    ensures { rows.new.services ≡ map (configured_if number config) rows.old.services }
{
    let typing = Typing { kind: config.kind };
    let _before = rows.replace(number, config);
    let _found = rows.alter(number, &typing);
}

/// Gives the service with a number another security descriptor.
pub fn secure_in(rows: &mut RecordTable, number: u64, security: Items<u8>)
    ensures { rows.new.services ≡ map (secured_if number security) rows.old.services }
{
    let before = rows.set_security(number, security);
    drop(before);
}

/// Whether a service is marked, stopped and named by no handle.
fn leaves(handles: &HandleTable, row: &Service) -> bool
    ensures { result ≡ leaves handles.now.rows row.now }
{
    row.marked && row.status.state == SERVICE_STOPPED && !handles.is_open(row.number)
}

/// The services, of which those that are marked may leave.
#[derive(Clone, Copy)]
pub struct Marked<'a> {
    pub services: &'a RecordTable,
    pub handles: &'a HandleTable,
}

impl<'a> Free for Marked<'a> {
    ghost ready = { λ marked. ⊤ };

    ghost free = { λ marked. number_leaves marked.handles.now.rows marked.services.now.services };

    fn is_free(&self, service: u64) -> bool {
        match self.services.get(service) {
            Some(row) => leaves(self.handles, row),
            None => false,
        }
    }
}

/// The service with this number is START_PENDING where it was STOPPED, by this process.
pub fn start_in(rows: &mut RecordTable, number: u64, process: u64)
    ensures { rows.new.services ≡ map (started_if number process) rows.old.services }
{
    let _found = rows.alter(number, &Start { process });
}

/// The service with a number takes a report.
pub fn report_in(rows: &mut RecordTable, number: u64, report: &Status)
    ensures { rows.new.services ≡ map (reported_if number report.now) rows.old.services }
{
    let _found = rows.alter(number, &Report { report });
}

/// The service with a number falls.
pub fn fall_in(rows: &mut RecordTable, number: u64, code: u32)
    ensures { rows.new.services ≡ map (fallen_at number code) rows.old.services }
{
    let _found = rows.alter(number, &Fall { code });
}

/// The service with a number isn't asked to start any more.
pub fn unask_in(rows: &mut RecordTable, number: u64)
    ensures { rows.new.services ≡ map (unasked_if number) rows.old.services }
{
    let _found = rows.alter(number, &Unask);
}

/// Whether this is a service's current process; 0 is none.
fn is_by(row: &Service, process: u64) -> bool
    ensures { result ≡ is_by process row.now }
{
    process != 0 && row.process == process
}

/// The first service whose current process this is.
pub fn current_in(rows: &RecordTable, process: u64) -> Option<&Service>
    ensures { option_copied result ≡ find (is_by process) rows.now.services }
{
    rows.get(rows.first_of_process(process)?)
}

/// The service with a number, if this is its current process.
pub fn current_with(rows: &RecordTable, number: u64, process: u64) -> Option<&Service>
    requires { AllPairs (λ a b. a.number < b.number) rows.now.services }
    ensures { option_copied result ≡ find (λ row. row.number == number && is_by process row)
        rows.now.services }
{
    let row = rows.get(number)?;
    if is_by(row, process) { Some(row) } else { None }
}

/// Whether the service with a number is asked to start.
fn is_asked(rows: &RecordTable, number: u64) -> bool
    ensures { result ≡ asked_in (find (λ row. row.number == number) rows.now.services) }
{
    match rows.get(number) {
        Some(row) => row.asked,
        None => false,
    }
}

/// The first of some pairs whose service is asked to start.
fn first_asked_of<'a>(rows: &RecordTable, pairs: &'a [Pair]) -> Option<&'a Pair>
    ensures { option_copied result ≡ find (λ pair. asked_in
        (find (λ row. row.number == pair.number) rows.now.services)) pairs.now }
{
    pairs.iter().find(|pair| is_asked(rows, pair.number))
}

/// How many of some pairs have a service that is asked to start.
fn count_asked_of(rows: &RecordTable, pairs: &[Pair]) -> usize
    ensures count { result ≡ length (filter (λ pair. asked_in
        (find (λ row. row.number == pair.number) rows.now.services)) pairs.now) }
    ensures small { result < 2 ^ 63 }
{
    pairs
        .iter()
        .filter(|pair| is_asked(rows, pair.number))
        .count()
}

/// The first service that a process is still to be sent to start.
pub fn first_asked_in(rows: &RecordTable, process: u64) -> Option<&Service>
    requires { AllPairs (λ a b. a.number < b.number) rows.now.services }
    ensures { option_copied result ≡ find (is_asked_by process) rows.now.services }
{
    let pair = first_asked_of(rows, rows.of_process(process))?;
    rows.get(pair.number)
}

/// How many services a process is still to be sent to start.
pub fn count_asked_in(rows: &RecordTable, process: u64) -> usize
    requires { AllPairs (λ a b. a.number < b.number) rows.now.services }
    ensures count { result ≡ length (filter (is_asked_by process) rows.now.services) }
    ensures small { result < 2 ^ 63 }
{
    count_asked_of(rows, rows.of_process(process))
}

/// A failure at a moment is counted with the service with a number.
pub fn count_in(rows: &mut RecordTable, number: u64, moment: u64)
    ensures { rows.new.services ≡ map (counted_if number moment) rows.old.services }
{
    let _found = rows.alter(number, &Count { moment });
}

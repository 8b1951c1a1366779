ghost use Rattle.std.specs.Prelude.{◌≡◌, ◌==◌, ◌≤◌, ◌<◌, not, filter, length, map, vec_capacity};
ghost use Rattle.std.specs.Prelude.{vec_len};
ghost use Rattle.std.specs.List.Sorted.{IsNonDecreasingBy, IsPartitionPoint};
ghost use Rattle.scm_model.specs.Notices.{noted, put_in, taken_once};
ghost use Rattle.notify_queue.specs.Queued.{notice_of};

use super::row::{Notice, NotifyRow};
use scm_model::ProcessStatus;
use scm_text::WText;

/// Where the rows begin whose services are no longer below one.
fn begin_of(rows: &[NotifyRow], service: u64) -> usize
    requires { IsNonDecreasingBy (λ row. row.service) rows.now }
    ensures begins { IsPartitionPoint (λ row. row.service < service)
        (λ row. service ≤ row.service) rows.now result }
    ensures within { result ≤ length rows.now }
{
    rows.partition_point(|row| row.service() < service)
}

/// Where the rows end whose services are not yet above one.
fn end_of(rows: &[NotifyRow], service: u64) -> usize
    requires { IsNonDecreasingBy (λ row. row.service) rows.now }
    ensures ends { IsPartitionPoint (λ row. row.service ≤ service)
        (λ row. service < row.service) rows.now result }
    ensures within { result ≤ length rows.now }
{
    rows.partition_point(|row| row.service() <= service)
}

/// Tells the rows of a service of an event. It looks at no others.
pub fn note_in(
    rows: &mut Vec<NotifyRow>,
    service: u64,
    bit: u32,
    status: ProcessStatus,
    name: &WText,
)
    requires sorted { IsNonDecreasingBy (λ row. row.service) rows.old.items }
    requires short { length name.now ≤ 256 }
    ensures rows { rows.new.items ≡ noted (record {
      service = service;
      bit = bit;
      status = status;
      name = name.now;
    }) rows.old.items }
    ensures capacity { vec_capacity rows.new ≡ vec_capacity rows.old }
    ensures len { vec_len rows.new ≡ vec_len rows.old }
{
    let begin = begin_of(rows.as_slice(), service);
    let end = end_of(rows.as_slice(), service);
    for at in begin..end {
        rows[at].note(service, bit, status, name);
    }
}

/// Puts a row after those of its service.
pub fn put_in(rows: &mut Vec<NotifyRow>, row: NotifyRow)
    requires sorted { IsNonDecreasingBy (λ row. row.service) rows.old.items }
    requires room { vec_len rows.old < vec_capacity rows.old }
    ensures rows { rows.new.items ≡ put_in row rows.old.items }
    ensures sorted { IsNonDecreasingBy (λ row. row.service) rows.new.items }
{
    let end = end_of(rows.as_slice(), row.service());
    let _placed = rows.insert(end, row);
}

/// Takes the event that the row with a number was told of.
pub fn take_in(rows: &mut Vec<NotifyRow>, number: u64) -> Option<Notice>
    ensures notice { result ≡ notice_of number rows.old.items }
    ensures rows { rows.new.items ≡ map (taken_once number) rows.old.items }
    ensures capacity { vec_capacity rows.new ≡ vec_capacity rows.old }
    ensures len { vec_len rows.new ≡ vec_len rows.old }
{
    let mut told = None;
    let mut left = rows.len();
    while left > 0 {
        left -= 1;
        told = rows[left].take(number, told);
    }
    told
}

/// Keeps the rows that have another number.
pub fn drop_number(rows: &mut Vec<NotifyRow>, number: u64)
    ensures rows { rows.new.items ≡ filter (λ row. not (row.number == number)) rows.old.items }
    ensures capacity { vec_capacity rows.new ≡ vec_capacity rows.old }
    ensures len { vec_len rows.new ≤ vec_len rows.old }
{
    rows.retain(|row| !(row.number() == number));
}

/// Keeps the rows of other callers.
pub fn drop_caller(rows: &mut Vec<NotifyRow>, caller: u64)
    ensures rows { rows.new.items ≡ filter (λ row. not (row.caller == caller)) rows.old.items }
    ensures capacity { vec_capacity rows.new ≡ vec_capacity rows.old }
    ensures len { vec_len rows.new ≤ vec_len rows.old }
{
    rows.retain(|row| !(row.caller() == caller));
}

/// How many of the rows are a caller's.
pub fn count_of(rows: &[NotifyRow], caller: u64) -> usize
    ensures { result ≡ length (filter (λ row. row.caller == caller) rows.now) }
{
    rows.iter().filter(|row| row.caller() == caller).count()
}

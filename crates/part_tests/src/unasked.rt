use crate::values::{add, config, stopped};
use failure_actions::{Failure, on_failure};
use scm_model::{Action, Config, Service};
use scm_text::{Items, OutOfMemory, WText};
use start_triggers::auto_order;
use std::alloc::Global;
use std::mem::replace;
use test_values::text;

/// The service is started with the machine.
const AUTOMATIC: u32 = 2;

fn restart(delay: u32) -> Action {
    Action { what: 1, delay }
}

/// A restart after a second, and after two the next time.
fn restarts(alloc: Global) -> Result<Items<Action>, OutOfMemory> {
    match Vec::from_array(alloc, [restart(1000), restart(2000)]) {
        Ok(actions) => Ok(Items::from_vec(actions)),
        Err(_) => Err(OutOfMemory),
    }
}

/// The moment of a failure, how many count then, and how long its restart is put off.
type Row = (u64, u32, u32);

/// The moment of the first failure that results in something else.
fn other(config: &Config, rows: &[Row]) -> Option<u64> {
    let (mut count, mut last) = (0, 0);
    for (moment, failures, delay) in rows {
        let want = Failure {
            failures: *failures,
            action: Some(restart(*delay)),
        };
        if on_failure(config, count, last, *moment) != want {
            return Some(*moment);
        }
        (count, last) = (*failures, *moment);
    }
    None
}

/// Whether the failures of an automatic service come to this, which are counted anew after a
/// minute.
fn are_counted(alloc: Global, rows: &[Row]) -> bool {
    let Ok(actions) = restarts(alloc) else {
        return false;
    };
    let mut config = config(alloc, AUTOMATIC, Items::new(alloc));
    config.reset = 60;
    drop(replace(&mut config.actions, actions));
    let other = other(&config, rows);
    drop(config);
    other.is_none()
}

#[test]
fn failures_count_until_the_reset_period_is_over(rt: HostRuntime) {
    let rows = [(0, 1, 1000), (59_000, 2, 2000), (119_000, 1, 1000)];
    assert!(rt; are_counted(rt.alloc(), &rows));
}

/// A stopped automatic service of this group.
fn service(alloc: Global, number: u64, group: WText, tag: u32) -> Service {
    let mut config = config(alloc, AUTOMATIC, Items::new(alloc));
    drop(replace(&mut config.group, group));
    config.tag = tag;
    stopped(alloc, number, config)
}

/// A number, a group and a tag.
type Grouped = (u64, &'static str, u32);

fn add_each(
    alloc: Global,
    services: &mut Items<Service>,
    rows: &[Grouped],
) -> Result<(), OutOfMemory> {
    for (number, group, tag) in rows {
        let group = text(alloc, group)?;
        add(services, service(alloc, *number, group, *tag))?;
    }
    Ok(())
}

fn is_order(alloc: Global, services: &[Service], group: WText, want: &[u64]) -> bool {
    let groups = [group];
    let order = auto_order(alloc, services, &groups);
    drop(groups);
    match order {
        Ok(order) => order.as_slice() == want,
        Err(_) => false,
    }
}

/// Whether such services start in an order, where the group `G1` is listed.
fn is_order_of(alloc: Global, rows: &[Grouped], want: &[u64]) -> bool {
    let mut services = Items::new(alloc);
    let is_so = match (add_each(alloc, &mut services, rows), text(alloc, "G1")) {
        (Ok(()), Ok(group)) => is_order(alloc, services.as_slice(), group, want),
        _ => false,
    };
    drop(services);
    is_so
}

#[test]
fn services_start_by_groups_and_tags(rt: HostRuntime) {
    let rows = [(1, "", 0), (2, "G1", 2), (3, "g1", 1), (4, "G2", 0)];
    assert!(rt; is_order_of(rt.alloc(), &rows, &[3, 2, 4, 1]));
}

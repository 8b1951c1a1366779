//! What the tests build their values with.
use crate::bench::status;
use scm_model::{Config, Need, Service};
use scm_text::{Items, OutOfMemory, WText};
use std::alloc::Global;
use std::mem::replace;
use test_values::{text, unnamed};

/// What a service needs.
#[derive(Clone, Copy)]
pub enum Needed {
    Service(&'static str),
    Group(&'static str),
}

/// Appends units. A 0 is left out.
pub fn append_units(text: &mut WText, units: &[u16]) -> Result<(), OutOfMemory> {
    for unit in units {
        if 0 < *unit {
            text.append_unit(*unit)?;
        }
    }
    Ok(())
}

fn need(alloc: Global, needed: Needed) -> Result<Need, OutOfMemory> {
    match needed {
        Needed::Service(name) => Ok(Need::Service(text(alloc, name)?)),
        Needed::Group(group) => Ok(Need::Group(text(alloc, group)?)),
    }
}

fn add_need(needs: &mut Items<Need>, need: Need) -> Result<(), OutOfMemory> {
    match needs.push(need) {
        Ok(()) => Ok(()),
        Err(failed) => {
            drop(failed);
            Err(OutOfMemory)
        }
    }
}

fn add_needs(alloc: Global, needs: &mut Items<Need>, each: &[Needed]) -> Result<(), OutOfMemory> {
    for needed in each {
        add_need(needs, need(alloc, *needed)?)?;
    }
    Ok(())
}

/// The needs of a service.
pub fn needs(alloc: Global, each: &[Needed]) -> Result<Items<Need>, OutOfMemory> {
    let mut needs = Items::new(alloc);
    match add_needs(alloc, &mut needs, each) {
        Ok(()) => Ok(needs),
        Err(why) => {
            drop(needs);
            Err(why)
        }
    }
}

/// A configuration without texts, of a service that is started so and has a process of its own.
pub fn config(alloc: Global, start: u32, needs: Items<Need>) -> Config {
    let mut config = unnamed(alloc);
    config.start = start;
    drop(replace(&mut config.needs, needs));
    config
}

/// A stopped service.
pub fn stopped(alloc: Global, number: u64, config: Config) -> Service {
    Service::new(alloc, number, config, status(0x10, 1))
}

/// Appends a service.
pub fn add(services: &mut Items<Service>, service: Service) -> Result<(), OutOfMemory> {
    match services.push(service) {
        Ok(()) => Ok(()),
        Err(failed) => {
            drop(failed);
            Err(OutOfMemory)
        }
    }
}

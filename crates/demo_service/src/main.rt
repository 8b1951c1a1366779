//! `demo_service`: a program that obeys the manager, and does nothing else. Its words say what it
//! reports and when it waits for controls.
#![tactic(auto)]

mod demo;
mod fault;
mod reporting;
mod sharing;
mod waiting;
mod word;

use demo::demo;
use fault::{DemoFault, status_of};
use outside::{ReadSource, Sink, Source, WriteSink};
use scm_text::{Items, Text};
use standard_streams::fill_closed;
use std::io::ErrorKind;
use std::process::ExitCode;
use std::rt::Env;

/// The words after the program's name, each in UTF-8.
fn arguments<R: Env + AllocGlobal>(rt: &R) -> Result<Items<Text>, DemoFault> {
    let mut words = Items::new(rt.alloc());
    let args = match std::env::args(rt) {
        Ok(args) => args,
        Err(fault) if fault.kind() == ErrorKind::InvalidData => return Err(DemoFault::Words),
        Err(_) => return Err(DemoFault::OutOfMemory),
    };
    for word in args.skip(1) {
        if words.push(Text::from_string(word)).is_err() {
            return Err(DemoFault::OutOfMemory);
        }
    }
    Ok(words)
}

/// The whole program. Its bounds give it no leave to write to standard error, nor to any place that
/// it isn't handed.
fn program<R: Env + AllocGlobal, I: Source, O: Sink>(rt: &R, input: &mut I, output: &mut O) -> u8 {
    match arguments(rt) {
        Ok(words) => status_of(demo(rt.alloc(), words.as_slice(), input, output)),
        Err(fault) => status_of(Err(fault)),
    }
}

fn main(rt: HostRuntime) -> ExitCode {
    if fill_closed(&rt).is_err() {
        return ExitCode::from(status_of(Err(DemoFault::Write)));
    }
    let mut input = ReadSource::new(rt.stdin());
    let mut output = WriteSink::new(rt.stdout());
    ExitCode::from(program(&rt, &mut input, &mut output))
}

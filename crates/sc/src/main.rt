//! `sc`: asks a service control manager for one thing, which the program's arguments name.
#![tactic(auto)]

use outside::{Sink, WriteSink};
use sc_dial::{Dialer, TcpDialer};
use sc_top::{ScFault, finish, sc_main};
use scm_text::{Items, Text};
use standard_streams::fill_closed;
use std::io::ErrorKind;
use std::process::ExitCode;
use std::rt::Env;

/// The words after the program's name, each in UTF-8.
fn arguments<R: Env + AllocGlobal>(rt: &R) -> Result<Items<Text>, ScFault> {
    let mut words = Items::new(rt.alloc());
    let args = match std::env::args(rt) {
        Ok(args) => args,
        Err(fault) if fault.kind() == ErrorKind::InvalidData => return Err(ScFault::Encoding),
        Err(_) => return Err(ScFault::OutOfMemory),
    };
    for word in args.skip(1) {
        if words.push(Text::from_string(word)).is_err() {
            return Err(ScFault::OutOfMemory);
        }
    }
    Ok(words)
}

/// The whole program. Its bounds give it no leave to write to any place that it isn't handed.
fn program<R: Env + AllocGlobal, D: Dialer, O: Sink, E: Sink>(
    rt: &R,
    dialer: &mut D,
    output: &mut O,
    errors: &mut E,
) -> u8 {
    match arguments(rt) {
        Ok(words) => sc_main(rt.alloc(), &words, dialer, output, errors),
        Err(fault) => finish(&[], Err(fault), errors),
    }
}

fn main(rt: HostRuntime) -> ExitCode {
    let mut errors = WriteSink::new(rt.stderr());
    if fill_closed(&rt).is_err() {
        return ExitCode::from(finish(&[], Err(ScFault::Output), &mut errors));
    }
    let mut dialer = TcpDialer::new(rt);
    let mut output = WriteSink::new(rt.stdout());
    ExitCode::from(program(&rt, &mut dialer, &mut output, &mut errors))
}

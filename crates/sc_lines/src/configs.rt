ghost use Rattle.std.specs.Prelude.{◌≡◌, ◌++◌, OnOk};
ghost use Rattle.sc_lines.specs.Lines.{lines};
ghost use Rattle.sc_lines.specs.Configs.{automatic_name, config_fields, config_text, error_name};
ghost use Rattle.sc_lines.specs.Configs.{start_name};

use super::lines::{Appended, Line, add_lines};
use scm_model::Shown;
use scm_model::codes::{
    SERVICE_AUTO_START, SERVICE_DEMAND_START, SERVICE_DISABLED, SERVICE_ERROR_CRITICAL,
    SERVICE_ERROR_IGNORE, SERVICE_ERROR_NORMAL, SERVICE_ERROR_SEVERE,
};
use scm_text::Items;
use std::alloc::Global;

fn automatic_name(delayed: bool) -> &'static str
    ensures { result.now ≡ automatic_name delayed }
{
    if delayed {
        "AUTO_START (DELAYED)"
    } else {
        "AUTO_START"
    }
}

/// The name of a start type.
fn start_name(start: u32, delayed: bool) -> &'static str
    ensures { result.now ≡ start_name start delayed }
{
    match start {
        SERVICE_AUTO_START => automatic_name(delayed),
        SERVICE_DEMAND_START => "DEMAND_START",
        SERVICE_DISABLED => "DISABLED",
        _ => "UNKNOWN",
    }
}

/// The name of an error control.
fn error_name(error: u32) -> &'static str
    ensures { result.now ≡ error_name error }
{
    match error {
        SERVICE_ERROR_IGNORE => "IGNORE",
        SERVICE_ERROR_NORMAL => "NORMAL",
        SERVICE_ERROR_SEVERE => "SEVERE",
        SERVICE_ERROR_CRITICAL => "CRITICAL",
        _ => "UNKNOWN",
    }
}

/// Appends a configuration, of which some numbers have these names.
fn add_fields<'a>(
    text: &mut Items<u8>,
    alloc: Global,
    name: &'a [u16],
    config: &'a Shown,
    start: &'a str,
    error: &'a str,
) -> Appended
    ensures { OnOk result (text.new
        ≡ text.old ++ lines (config_fields name.now config.now start.now error.now)) }
{
    let fields = [
        Line::Text("SERVICE_NAME: ", name),
        Line::Number("TYPE: ", config.kind),
        Line::Named("START_TYPE: ", config.start, start),
        Line::Named("ERROR_CONTROL: ", config.error, error),
        Line::Text("BINARY_PATH_NAME: ", config.path.units()),
        Line::Text("LOAD_ORDER_GROUP: ", config.group.units()),
        Line::Number("TAG: ", config.tag),
        Line::Text("DISPLAY_NAME: ", config.display.units()),
        Line::Text("DEPENDENCIES: ", config.needs.units()),
        Line::Text("SERVICE_START_NAME: ", config.account.units()),
    ];
    add_lines(text, alloc, &fields)
}

/// Appends a service's configuration. `delayed` is whether an automatic start waits.
pub fn add_config(
    text: &mut Items<u8>,
    alloc: Global,
    name: &[u16],
    config: &Shown,
    delayed: bool,
) -> Appended
    ensures { OnOk result (text.new ≡ text.old ++ config_text name.now config.now delayed) }
{
    let start = start_name(config.start, delayed);
    add_fields(text, alloc, name, config, start, error_name(config.error))
}

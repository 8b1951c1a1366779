ghost use Rattle.std.specs.Prelude.{◌≡◌, ◌<◌, ◌^◌, ◌++◌, ◌==◌, codes, IfOk, OnOk, None};
ghost use Rattle.std.specs.Prelude.{option_copied, if◌then◌else◌};
ghost use Rattle.scm_model.specs.declared.flat.Flat.{Flat};
ghost use Rattle.scm_model.specs.declared.calls.Reply.TheVariants as reply;
ghost use Rattle.scm_model.specs.Refused.{answered};
ghost use Rattle.scm_rules.specs.QueryConfig.{query_config_reply, query_config_verdict, shown_by};
ghost use Rattle.scm_rules.specs.QueryConfig.{shown_in, shown_need, shown_needs, shown_of};
ghost use Rattle.scm_rules.specs.QueryConfig.{shown_size, size_in};
ghost use Rattle.service_listing.specs.Layout.{text_size};

use scm_model::codes::{
    ERROR_ACCESS_DENIED, ERROR_INSUFFICIENT_BUFFER, ERROR_INVALID_HANDLE, SERVICE_QUERY_CONFIG,
};
use scm_model::{Apart, Config, Need, Reply, Service, Shown};
use scm_tables::{Tables, mask_lacks};
use scm_text::{OutOfMemory, WText};
use std::alloc::Global;

/// `LocalSystem`
const LOCAL_SYSTEM: [u16; 11] = [76, 111, 99, 97, 108, 83, 121, 115, 116, 101, 109];

/// Appends a need as it is shown.
fn append_need(text: &mut WText, need: &Need) -> Result<(), OutOfMemory>
    ensures { OnOk result (text.new ≡ text.old ++ shown_need need.now) }
{
    let name = match need {
        Need::Service(name) => name,
        Need::Group(name) => {
            text.append_unit(43)?;
            name
        }
    };
    text.append(name)?;
    text.append_unit(47)
}

/// Needs as they are shown.
fn shown_needs(needs: &[Need], alloc: Global) -> Result<WText, OutOfMemory>
    ensures { IfOk result (λ text. text ≡ shown_needs needs.now) }
{
    let mut text = WText::new(alloc);
    for need in needs {
        append_need(&mut text, need)?;
    }
    Ok(text)
}

/// The account that every service runs as.
fn local_system(alloc: Global) -> Result<WText, OutOfMemory>
    ensures { IfOk result (λ text. text ≡ codes "LocalSystem") }
{
    match WText::from_units(alloc, &LOCAL_SYSTEM) {
        Ok(text) => Ok(text),
        Err(_) => Err(OutOfMemory),
    }
}

/// A configuration as it is shown.
fn shown_of(config: &Config, alloc: Global) -> Result<Shown, OutOfMemory>
    ensures { IfOk result (λ shown. shown ≡ shown_of config.now) }
{
    let path = config.path.copy(alloc)?;
    let group = config.group.copy(alloc)?;
    let needs = shown_needs(config.needs.as_slice(), alloc)?;
    let account = local_system(alloc)?;
    let display = config.display.copy(alloc)?;
    Ok(Shown {
        kind: config.kind,
        start: config.start,
        error: config.error,
        path,
        group,
        tag: config.tag,
        needs,
        account,
        display,
    })
}

/// What is shown of a service that is there.
fn shown_in(service: Option<&Service>, alloc: Global) -> Result<Option<Apart<Shown>>, OutOfMemory>
    ensures { IfOk result (λ shown. shown ≡ shown_in (option_copied service.entry)) }
{
    match service {
        Some(row) => Ok(Some(Apart::new(alloc, shown_of(&row.config, alloc)?)?)),
        None => Ok(None),
    }
}

/// How many bytes a text takes with its zero.
fn text_size(text: &WText) -> u128
    ensures size { result ≡ text_size text.now }
    ensures small { result < 2 ^ 66 }
{
    2 * (text.units().len() as u128 + 1)
}

/// How many bytes a configuration takes, as far as numbers go.
fn shown_size(shown: &Shown) -> u32
    ensures { result ≡ shown_size shown.now }
{
    let texts = 36
        + text_size(&shown.path)
        + text_size(&shown.group)
        + text_size(&shown.needs)
        + text_size(&shown.account)
        + text_size(&shown.display);
    texts.min(0xFFFF_FFFF) as u32
}

/// The same of one that may be absent.
fn size_in(shown: &Option<Apart<Shown>>) -> u32
    ensures { result ≡ size_in shown.now }
{
    match shown {
        Some(shown) => shown_size(shown),
        None => 0,
    }
}

/// What `RQueryServiceConfigW` is refused with, or 0: `ERROR_INVALID_HANDLE` (6),
/// `ERROR_ACCESS_DENIED` (5) or
/// `ERROR_INSUFFICIENT_BUFFER` (122), where so many bytes are needed.
fn query_config_verdict(tables: &Tables, caller: u64, handle: u64, size: u32, needed: u32) -> u32
    requires { needed ≡ size_in (shown_by tables.now.flat caller handle) }
    ensures { result ≡ query_config_verdict tables.now.flat caller handle size }
{
    let Some(opened) = tables.opened(caller, handle) else {
        return ERROR_INVALID_HANDLE;
    };
    if mask_lacks(opened.granted, SERVICE_QUERY_CONFIG) {
        return ERROR_ACCESS_DENIED;
    }
    if size < needed {
        return ERROR_INSUFFICIENT_BUFFER;
    }
    0
}

/// What is answered of a configuration that may be shown.
fn told(config: Option<Apart<Shown>>, needed: u32, code: u32) -> Reply
    ensures { (f : Flat) → result ≡ (answered code (reply.Shown None
        (if code == ERROR_INSUFFICIENT_BUFFER then needed else 0) code) f
        (record { reply = reply.Shown config needed 0; flat = f })).reply }
{
    if code == 0 {
        return Reply::Shown {
            config,
            needed,
            code: 0,
        };
    }
    Reply::Shown {
        config: None,
        needed: if code == ERROR_INSUFFICIENT_BUFFER {
            needed
        } else {
            0
        },
        code,
    }
}

/// What a query of a configuration is answered.
pub fn query_config(
    tables: &Tables,
    caller: u64,
    handle: u64,
    size: u32,
    alloc: Global,
) -> Result<Reply, OutOfMemory>
    ensures { IfOk result (λ reply. reply ≡ query_config_reply tables.now.flat caller handle size) }
{
    let config = shown_in(tables.held_service(caller, handle), alloc)?;
    let needed = size_in(&config);
    let code = query_config_verdict(tables, caller, handle, size, needed);
    Ok(told(config, needed, code))
}

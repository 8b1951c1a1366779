ghost use Rattle.std.specs.Prelude.{◌≡◌, ◌<◌, ◌^◌, ◌++◌, ◌∷◌, [], ℕ, List, IfOk, OnOk, Some};
ghost use Rattle.std.specs.Prelude.{decimal, map, option_map};
ghost use Rattle.child_link.specs.Words.{words_in};
ghost use Rattle.child_link.specs.Lines.{IsOrderLine, IsReport, code_in, control_in, control_text};
ghost use Rattle.child_link.specs.Lines.{front_of, handed_on, line_text, naming_in, numbers_in};
ghost use Rattle.child_link.specs.Lines.{order_in, order_text, ordered, printed_unit, report_in};
ghost use Rattle.child_link.specs.Lines.{report_step, report_text, shared_control_in};
ghost use Rattle.child_link.specs.Lines.{shared_control_text, shared_text, spaced, start_in};
ghost use Rattle.child_link.specs.Lines.{start_text, stated, status_of_words};

use super::words::Words;
use scm_model::{Order, Status, Step};
use scm_text::{Items, OutOfMemory};
use std::alloc::Global;

/// A report as a line has it.
#[derive(Clone, Copy)]
pub struct Reported {
    /// The number of the service; 0 is the one that the process was launched for.
    pub service: u64,
    pub status: Status,
}

/// What stands before a byte, where it is the last one.
fn front_of(byte: u8, bytes: &[u8]) -> Option<&[u8]>
    requires { 0 < byte }
    ensures { option_map (λ front. front.now) result ≡ front_of byte bytes.now }
{
    match bytes.split_last() {
        Some((last, front)) if *last == byte => Some(front),
        _ => None,
    }
}

/// What stands before a line's feed, without a carriage return at its end.
#[tactic(auto, unfolding(crate::specs::Lines::line_text))]
fn text_of(line: &[u8]) -> Option<&[u8]>
    ensures { option_map (λ text. text.now) result ≡ line_text line.now }
{
    let front = front_of(b'\n', line)?;
    Some(front_of(b'\r', front).unwrap_or(front))
}

/// The status whose numbers these words are, and no words more.
#[tactic(auto, unfolding(crate::specs::Lines::status_of_words))]
fn status_in(mut words: Words<'_>) -> Option<Status>
    ensures { result ≡ status_of_words words.entry }
{
    let status = Status {
        kind: words.next_code()?,
        state: words.next_code()?,
        accepted: words.next_code()?,
        win32: words.next_code()?,
        specific: words.next_code()?,
        checkpoint: words.next_code()?,
        hint: words.next_code()?,
    };
    match words.next() {
        None => Some(status),
        Some(_) => None,
    }
}

/// The report that names its service by the first of these words.
#[tactic(auto, unfolding(crate::specs::Lines::naming_in))]
fn naming_in(mut words: Words<'_>) -> Option<Reported>
    ensures { result ≡ naming_in words.entry }
{
    let service = words.next_number()?;
    let status = status_in(words)?;
    Some(Reported { service, status })
}

/// The report whose numbers these words are: seven of a status, or the number of a service before
/// them.
#[tactic(auto, unfolding(crate::specs::Lines::numbers_in))]
fn numbers_in(words: Words<'_>) -> Option<Reported>
    ensures { result ≡ numbers_in words.entry }
{
    match status_in(words.again()) {
        Some(status) => Some(Reported { service: 0, status }),
        None => naming_in(words),
    }
}

/// The report that a text is.
#[tactic(auto, unfolding(crate::specs::Lines::report_in))]
fn report_in(text: &[u8]) -> Option<Reported>
    ensures { result ≡ report_in (words_in (Some text.now)) }
{
    let mut words = Words::of(text);
    if words.next()? == "STATUS".as_bytes() {
        numbers_in(words)
    } else {
        None
    }
}

/// The report that a line of a process is. A report is `STATUS`, the number of a service and the
/// seven numbers of a status in decimal form, each after one space. Without the first number it is
/// a report of service 0. A line feed ends it, and a carriage return may stand before that. Any
/// other line is none.
#[tactic(auto, unfolding(crate::specs::Lines::stated))]
pub fn read_report(line: &[u8]) -> Option<Reported>
    ensures { result ≡ stated line.now }
{
    report_in(text_of(line)?)
}

/// The step of a line of a process: the report that it is, if it is one.
pub fn read_line_step(line: &[u8], process: u64) -> Option<Step>
    ensures { result ≡ option_map (report_step process) (stated line.now) }
{
    let Reported { service, status } = read_report(line)?;
    Some(Step::Report {
        process,
        service,
        status,
    })
}

/// Lines are read just as the format has them: a line is read as a report exactly where it is that
/// report.
pub fn reports_are_read()
    ensures read { (line : List ℕ) (report : Reported) →
        IsReport line report → stated line ≡ Some report }
    ensures only { (line : List ℕ) (report : Reported) →
        stated line ≡ Some report → IsReport line report }
{}

/// A unit of a name as a line has it: itself where it is a printable character of ASCII, else `?`.
fn printed_unit(unit: u16) -> u8
    ensures { result ≡ printed_unit unit }
{
    match unit {
        0x20..=0x7E => unit as u8,
        _ => b'?',
    }
}

/// Adds a name, a byte for each unit.
fn add_name(line: &mut Items<u8>, name: &[u16]) -> Result<(), OutOfMemory>
    ensures { OnOk result (line.new ≡ line.old ++ map printed_unit name.now) }
{
    for unit in name {
        line.append(&[printed_unit(*unit)])?;
    }
    Ok(())
}

/// The line that hands a control on to a process of one service.
fn own_line(alloc: Global, code: u32) -> Result<Items<u8>, OutOfMemory>
    ensures { IfOk result (λ line. line ≡ control_text code) }
{
    let mut line = Items::new(alloc);
    line.append_pair(b"CONTROL ", itoa::Buffer::new().format(code).as_bytes())?;
    line.append(b"\n")?;
    Ok(line)
}

/// The line that tells a shared process which service is to start.
fn start_line(alloc: Global, service: u64, name: &[u16]) -> Result<Items<u8>, OutOfMemory>
    ensures { IfOk result (λ line. line ≡ start_text service name.now) }
{
    let mut line = Items::new(alloc);
    line.append(b"START")?;
    add_number(&mut line, service)?;
    line.append(b" ")?;
    add_name(&mut line, name)?;
    line.append(b"\n")?;
    Ok(line)
}

/// The line that hands a control for a service on to a shared process.
fn shared_control_line(alloc: Global, order: &Order) -> Result<Items<u8>, OutOfMemory>
    ensures { IfOk result (λ line. line ≡ shared_control_text order.now) }
{
    let mut line = Items::new(alloc);
    line.append(b"CONTROL")?;
    add_number(&mut line, order.service)?;
    add_number(&mut line, u64::from(order.code))?;
    line.append(b"\n")?;
    Ok(line)
}

/// The line of an order to a shared process.
fn shared_line(alloc: Global, order: &Order, name: &[u16]) -> Result<Items<u8>, OutOfMemory>
    ensures { IfOk result (λ line. line ≡ shared_text order.now name.now) }
{
    if order.code == 0 {
        start_line(alloc, order.service, name)
    } else {
        shared_control_line(alloc, order)
    }
}

/// The line that hands an order on to a process: `CONTROL` and the control. A shared process is
/// told the service's number before it, or with code 0 `START`, the number and the name of the
/// service that is to start. The name is read with code 0 alone.
pub fn control_line(
    alloc: Global,
    order: &Order,
    shared: bool,
    name: &[u16],
) -> Result<Items<u8>, OutOfMemory>
    ensures { IfOk result (λ line. line ≡ order_text order.now shared name.now) }
{
    if shared {
        shared_line(alloc, order, name)
    } else {
        own_line(alloc, order.code)
    }
}

/// The control of a line: the number in a line of `CONTROL`, one space and the number in decimal
/// form, ended by a line feed. Any other line is no control.
#[tactic(auto, unfolding(crate::specs::Lines::handed_on))]
pub fn read_control_line(line: &[u8]) -> Option<u32>
    ensures { result ≡ handed_on line.now }
{
    control_in(front_of(b'\n', line)?)
}

/// The control that a text hands on.
#[tactic(auto, unfolding(crate::specs::Lines::control_in))]
fn control_in(text: &[u8]) -> Option<u32>
    ensures { result ≡ control_in (words_in (Some text.now)) }
{
    let mut words = Words::of(text);
    if words.next()? == "CONTROL".as_bytes() {
        code_in(words)
    } else {
        None
    }
}

/// The number of 32 bits of which these words are the decimal form.
#[tactic(auto, unfolding(crate::specs::Lines::code_in))]
fn code_in(mut words: Words<'_>) -> Option<u32>
    ensures { result ≡ code_in words.entry }
{
    let code = words.next_code()?;
    if words.next().is_none() {
        Some(code)
    } else {
        None
    }
}

/// The order of a line to a shared process: that a service is to start, with code 0, in a line of
/// `START`, the number of the service and its name, which isn't read, and a control for a service
/// in a line of `CONTROL`, the number and the control. One space parts two of them, and a line feed
/// ends the line. Any other line is no order.
#[tactic(auto, unfolding(crate::specs::Lines::ordered))]
pub fn read_order_line(line: &[u8]) -> Option<Order>
    ensures { result ≡ ordered line.now }
{
    order_in(front_of(b'\n', line)?)
}

/// The order that a text hands on.
#[tactic(auto, unfolding(crate::specs::Lines::order_in))]
fn order_in(text: &[u8]) -> Option<Order>
    ensures { result ≡ order_in (words_in (Some text.now)) }
{
    let mut words = Words::of(text);
    let name = words.next()?;
    if name == "START".as_bytes() {
        start_in(words)
    } else if name == "CONTROL".as_bytes() {
        shared_control_in(words)
    } else {
        None
    }
}

/// That a service is to start, by these words after `START`.
#[tactic(auto, unfolding(crate::specs::Lines::start_in))]
fn start_in(mut words: Words<'_>) -> Option<Order>
    ensures { result ≡ start_in words.entry }
{
    let service = words.next_number()?;
    let _name = words.next()?;
    Some(Order { service, code: 0 })
}

/// A control for a service, by these words after `CONTROL`.
#[tactic(auto, unfolding(crate::specs::Lines::shared_control_in))]
fn shared_control_in(mut words: Words<'_>) -> Option<Order>
    ensures { result ≡ shared_control_in words.entry }
{
    let service = words.next_number()?;
    let code = words.next_code()?;
    if code != 0 && words.next().is_none() {
        Some(Order { service, code })
    } else {
        None
    }
}

/// Adds a space and a number in decimal form.
fn add_number(line: &mut Items<u8>, number: u64) -> Result<(), OutOfMemory>
    ensures { OnOk result (line.new ≡ line.old ++ 32 ∷ decimal number) }
{
    line.append_pair(b" ", itoa::Buffer::new().format(number).as_bytes())
}

/// Adds numbers in decimal form, each after a space.
fn add_numbers(line: &mut Items<u8>, numbers: &[u32]) -> Result<(), OutOfMemory>
    ensures { OnOk result (line.new ≡ line.old ++ spaced numbers.now) }
{
    for number in numbers {
        add_number(line, u64::from(*number))?;
    }
    Ok(())
}

/// The line that reports a status of the service that the process was launched for.
#[tactic(auto, using(crate::proofs::Written::joined_spaced))]
pub fn report_line(alloc: Global, status: &Status) -> Result<Items<u8>, OutOfMemory>
    ensures { IfOk result (λ line. line ≡ report_text status.now ++ 10 ∷ []) }
{
    let mut line = Items::new(alloc);
    line.append(b"STATUS")?;
    add_numbers(&mut line, &status.numbers())?;
    line.append(b"\n")?;
    Ok(line)
}

/// Lines are read just as the format has them: a line hands a control on exactly where it is the
/// line of a control of 32 bits.
pub fn controls_are_read()
    ensures read { (code : ℕ) → code < 2 ^ 32 → handed_on (control_text code) ≡ Some code }
    ensures only { (line : List ℕ) (code : ℕ) →
        handed_on line ≡ Some code → (line ≡ control_text code) × (code < 2 ^ 32) }
{}

/// Lines to a shared process are read just as the format has them: a line hands on an order exactly
/// where it is a control's line, or that of a start, in which any name stands.
pub fn orders_are_read()
    ensures read { (order : Order) (name : List ℕ) → order.service < 2 ^ 64 → order.code < 2 ^ 32
        → ordered (shared_text order name) ≡ Some order }
    ensures only { (line : List ℕ) (order : Order) →
        ordered line ≡ Some order → IsOrderLine line order }
{}

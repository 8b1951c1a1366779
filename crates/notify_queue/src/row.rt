ghost use Rattle.std.specs.Prelude.{◌≡◌, ◌≤◌, ◌==◌, [], length, option_map, if◌then◌else◌, IfSome};
ghost use Rattle.scm_model.specs.Notices.{new_registration, notified, taken_once};
ghost use Rattle.notify_queue.specs.Roomy.{HasNameRoom};
ghost use Rattle.notify_queue.specs.Queued.{notice_at};

use scm_model::{ProcessStatus, zero_process_status};
use scm_text::{TextRoom, WText};
use std::marker::Model;
use std::mem::replace;

/// The most units that a service's name has.
pub const MAX_NAME: u32 = 256;

/// What a registration was told of.
#[derive(Drop)]
pub struct Notice {
    pub bit: u32,
    pub status: ProcessStatus,
    pub name: WText,
}

/// A registration, with room for the name that it will be told.
#[derive(Drop)]
pub struct NotifyRow {
    number: u64,
    caller: u64,
    service: u64,
    mask: u32,
    fired: u32,
    status: ProcessStatus,
    /// Absent once the event was taken.
    name: Option<TextRoom>,
    spent: bool,
}

impl Model for NotifyRow {
    ghost use Rattle.scm_model.specs.declared.flat.Registration.{Registration};
    ghost use Rattle.notify_queue.specs.Roomy.{HasRoom, registration_in};

    ghost Value = { Registration };

    ghost view = { registration_in };

    ghost invariant = { HasRoom };
}

/// Writes a name where there is room for one.
fn write(text: &mut Option<TextRoom>, name: &WText)
    requires room { IfSome text.old HasNameRoom }
    requires short { length name.now ≤ 256 }
    ensures { text.new ≡ option_map (λ t. record { units = name.now; room = t.room }) text.old }
{
    if let Some(text) = text {
        text.set(name);
    }
}

/// The name that was written, if there was room for one.
fn written(text: Option<TextRoom>) -> Option<WText>
    ensures { result ≡ option_map (λ t. t.units) text }
{
    match text {
        Some(text) => Some(text.into_text()),
        None => None,
    }
}

/// What was told with a name.
fn told(bit: u32, status: ProcessStatus, name: Option<WText>) -> Option<Notice>
    ensures { result ≡ option_map (λ name. record { bit = bit; status = status; name = name })
        name }
{
    match name {
        Some(name) => Some(Notice { bit, status, name }),
        None => None,
    }
}

impl NotifyRow {
    /// A registration that was told nothing yet.
    pub fn new(number: u64, caller: u64, service: u64, mask: u32, name: TextRoom) -> NotifyRow
        requires empty { name.units ≡ [] }
        requires room { HasNameRoom name }
        ensures { result ≡ new_registration number caller service mask }
    {
        NotifyRow {
            number,
            caller,
            service,
            mask,
            fired: 0,
            status: zero_process_status(),
            name: Some(name),
            spent: false,
        }
    }

    pub fn number(&self) -> u64
        ensures { result ≡ self.now.number }
    {
        self.number
    }

    pub fn caller(&self) -> u64
        ensures { result ≡ self.now.caller }
    {
        self.caller
    }

    pub fn service(&self) -> u64
        ensures { result ≡ self.now.service }
    {
        self.service
    }

    /// Tells of an event, where it waits for it. It takes no memory.
    pub fn note(&mut self, service: u64, bit: u32, status: ProcessStatus, name: &WText)
        requires { length name.now ≤ 256 }
        ensures { self.new ≡ notified (record {
          service = service;
          bit = bit;
          status = status;
          name = name.now;
        }) self.old }
    {
        if self.service == service && self.fired == 0 && !self.spent && self.mask & bit != 0 {
            self.fired = bit;
            self.status = status;
            write(&mut self.name, name);
        }
    }

    /// Takes the event that it was told of, if it has this number, and else gives what was taken
    /// before. No second event comes.
    pub fn take(&mut self, number: u64, before: Option<Notice>) -> Option<Notice>
        ensures notice { result ≡ if self.old.number == number then notice_at self.old else before }
        ensures row { self.new ≡ taken_once number self.old }
    {
        if self.number != number {
            return before;
        }
        if self.fired == 0 {
            return None;
        }
        let bit = replace(&mut self.fired, 0);
        let status = replace(&mut self.status, zero_process_status());
        let name = written(replace(&mut self.name, None));
        self.spent = true;
        told(bit, status, name)
    }
}

ghost use Rattle.std.specs.Prelude.{◌≡◌, ◌++◌, ◌∷◌, ◌<◌, ◌≤◌, [], length, IfOk, IsOk, MatchOption};
ghost use Rattle.std.specs.Prelude.{OnOk, OnErr, option_to_list};
ghost use Rattle.scm_shapes.specs.Shapes.{rest, first_handle, first_number, first_text};
ghost use Rattle.scm_shapes.specs.Shapes.{first_some_text, first_some_number, first_some_bytes};
ghost use Rattle.scm_shapes.specs.Shapes.{first_sized_array, first_size, first_bytes, first_words};
ghost use Rattle.scm_shapes.specs.Shapes.{first_lock};
ghost use Rattle.scm_shapes.specs.Shapes.{first_shown, first_info, leaves_open, leave_open};
ghost use Rattle.scm_shapes.specs.HandleBodies.{handle_body_of};

use crate::handle_body::HandleBody;
use crate::item::Value;
use scm_model::{Apart, Info, Shown};
use scm_text::{Items, OutOfMemory, WText};
use smallvec::SmallVec;
use std::alloc::Global;
use std::marker::Model;

/// The values of a body, which are taken from the first on. A value of another kind than the one
/// that is asked for is taken as 0, empty or none: the values of a shape are of its kinds. Up to 8
/// values lie in the struct itself.
#[derive(Drop)]
pub struct Values {
    queue: SmallVec<Value, 8>,
}

impl Model for Values {
    ghost use Rattle.std.specs.Prelude.{◌≤◌, List};
    ghost use Rattle.scm_shapes.specs.declared.item.Value.{Value as AValue};

    ghost Value = { List AValue };

    ghost view = { λ v. v.queue.items };

    ghost invariant = { λ v. 8 ≤ v.queue.capacity };
}

/// The first of the values as a handle, or 0.
fn first_handle(values: &[Value]) -> u64
    ensures { result ≡ first_handle values.now }
{
    match values {
        [Value::Handle(handle), ..] => *handle,
        _ => 0,
    }
}

/// The first of the values as a number, or 0.
fn first_number(values: &[Value]) -> u32
    ensures { result ≡ first_number values.now }
{
    match values {
        [Value::Number(number), ..] => *number,
        _ => 0,
    }
}

/// The first of the values as a unique pointer to a number, or none.
fn first_some_number(values: &[Value]) -> Option<u32>
    ensures { result ≡ first_some_number values.now }
{
    match values {
        [Value::SomeNumber(number), ..] => *number,
        _ => None,
    }
}

/// Whether a value leaves open which bytes follow the body.
fn leaves_open(value: &Value) -> bool
    ensures { result ≡ leaves_open value.now }
{
    matches!(value, Value::Info(Info::Other(_)))
}

/// Lets a value go that isn't of the kind that is asked for, or that there is no memory for.
fn let_go(value: Option<Value>) {
    drop(value);
}

impl Values {
    /// None yet, and room for 8.
    pub fn new(alloc: Global) -> Values
        ensures { result ≡ [] }
    {
        Values {
            queue: SmallVec::new(alloc),
        }
    }

    /// Lets all values go, and keeps their room.
    pub fn clear(&mut self)
        ensures { self.new ≡ [] }
    {
        self.queue.clear();
    }

    /// Adds a value after the others. It takes no memory for the first 8.
    pub fn push(&mut self, value: Value) -> Result<(), OutOfMemory>
        ensures ok { OnOk result (self.new ≡ self.old ++ value ∷ []) }
        ensures err { OnErr result (self.new ≡ self.old) }
        ensures enough { length self.old < 8 → IsOk result }
    {
        match self.queue.push(value) {
            Ok(()) => Ok(()),
            Err(failed) => {
                let_go(Some(failed.value));
                Err(OutOfMemory)
            }
        }
    }

    /// Whether any bytes may follow the body of these.
    pub(crate) fn leave_open(&self) -> bool
        ensures { result ≡ leave_open self.now }
    {
        self.queue.as_slice().iter().any(leaves_open)
    }

    /// Takes the first value, if there is one.
    fn take(&mut self) -> Option<Value>
        ensures parts { self.old ≡ option_to_list result ++ self.new }
        ensures none { MatchOption result (self.new ≡ []) (λ _. Unit {0}) }
    {
        if self.queue.is_empty() {
            None
        } else {
            Some(self.queue.remove(0))
        }
    }

    /// Takes a value that isn't kept.
    pub fn skip(&mut self)
        ensures { self.new ≡ rest self.old }
    {
        let_go(self.take());
    }

    pub fn handle(&mut self) -> u64
        ensures value { result ≡ first_handle self.old }
        ensures rest { self.new ≡ rest self.old }
    {
        let handle = first_handle(self.queue.as_slice());
        self.skip();
        handle
    }

    pub fn number(&mut self) -> u32
        ensures value { result ≡ first_number self.old }
        ensures rest { self.new ≡ rest self.old }
    {
        let number = first_number(self.queue.as_slice());
        self.skip();
        number
    }

    /// A handle and two numbers.
    pub fn handle_body(&mut self) -> HandleBody
        ensures { result ≡ handle_body_of self.old }
    {
        HandleBody {
            handle: self.handle(),
            first: self.number(),
            second: self.number(),
        }
    }

    pub fn text(&mut self, alloc: Global) -> WText
        ensures value { result ≡ first_text self.old }
        ensures rest { self.new ≡ rest self.old }
    {
        match self.take() {
            Some(Value::Text(text)) => text,
            other => {
                let_go(other);
                WText::new(alloc)
            }
        }
    }

    pub fn some_text(&mut self) -> Option<WText>
        ensures value { result ≡ first_some_text self.old }
        ensures rest { self.new ≡ rest self.old }
    {
        match self.take() {
            Some(Value::SomeText(text)) => text,
            other => {
                let_go(other);
                None
            }
        }
    }

    pub fn some_number(&mut self) -> Option<u32>
        ensures value { result ≡ first_some_number self.old }
        ensures rest { self.new ≡ rest self.old }
    {
        let number = first_some_number(self.queue.as_slice());
        self.skip();
        number
    }

    pub fn some_bytes(&mut self) -> Option<Items<u8>>
        ensures value { result ≡ first_some_bytes self.old }
        ensures rest { self.new ≡ rest self.old }
    {
        match self.take() {
            Some(Value::SomeBytes(held)) => held,
            other => {
                let_go(other);
                None
            }
        }
    }

    pub fn sized_array(&mut self, alloc: Global) -> Items<u8>
        ensures value { result ≡ first_sized_array self.old }
        ensures rest { self.new ≡ rest self.old }
    {
        match self.take() {
            Some(Value::SizedArray(held)) => held,
            other => {
                let_go(other);
                Items::new(alloc)
            }
        }
    }

    /// The size and the bytes.
    pub fn bytes(&mut self, alloc: Global) -> (u32, Items<u8>)
        ensures size { result.0 ≡ first_size self.old }
        ensures bytes { result.1 ≡ first_bytes self.old }
        ensures rest { self.new ≡ rest self.old }
    {
        match self.take() {
            Some(Value::Bytes(size, held)) => (size, held),
            other => {
                let_go(other);
                (0, Items::new(alloc))
            }
        }
    }

    pub fn words(&mut self) -> Option<Items<WText>>
        ensures value { result ≡ first_words self.old }
        ensures rest { self.new ≡ rest self.old }
    {
        match self.take() {
            Some(Value::Words(words)) => words,
            other => {
                let_go(other);
                None
            }
        }
    }

    /// Whether a lock is held, by whom, and for how many seconds.
    pub fn lock(&mut self) -> (u32, Option<WText>, u32)
        ensures value { result ≡ first_lock self.old }
        ensures rest { self.new ≡ rest self.old }
    {
        match self.take() {
            Some(Value::Lock(held, owner, seconds)) => (held, owner, seconds),
            other => {
                let_go(other);
                (0, None, 0)
            }
        }
    }

    pub fn shown(&mut self) -> Option<Apart<Shown>>
        ensures value { result ≡ first_shown self.old }
        ensures rest { self.new ≡ rest self.old }
    {
        match self.take() {
            Some(Value::Shown(shown)) => shown,
            other => {
                let_go(other);
                None
            }
        }
    }

    /// What is asked at a level.
    pub fn info(&mut self) -> Info
        ensures value { result ≡ first_info self.old }
        ensures rest { self.new ≡ rest self.old }
    {
        match self.take() {
            Some(Value::Info(asked)) => asked,
            other => {
                let_go(other);
                Info::Other(0)
            }
        }
    }
}

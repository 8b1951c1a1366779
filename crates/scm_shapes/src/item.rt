use scm_model::{Apart, Info, Shown};
use scm_text::{Items, WText};

/// A kind of item in a body.
#[derive(Clone, Copy, PartialEq, Eq)]
pub enum Item {
    /// A context handle.
    Handle,
    /// A number of 32 bits.
    Number,
    /// A number of at most so much.
    NumberTo(u32),
    /// A string.
    Text,
    /// A unique pointer to a string.
    SomeText,
    /// The same, which isn't kept.
    UnkeptText,
    /// A unique pointer to a number.
    SomeNumber,
    /// A unique pointer to bytes, and the size of these.
    SomeBytes,
    /// The same, which isn't kept.
    UnkeptBytes,
    /// Bytes, and their size after them, which is at most so much.
    SizedArray(u32),
    /// A size, as many bytes, and zeros up to it.
    Bytes,
    /// A count of words, a pointer to them, and the words.
    Words,
    /// The state of a lock: a number, a pointer, a number, and the text that the pointer points to.
    Lock,
    /// A configuration: nine numbers, five of which point to texts, and these texts. Nine times 0
    /// for none.
    Shown,
    /// What is asked to be changed at one level: the level twice, and a pointer to it.
    Info,
}

/// What an item holds. Nothing is known of an item that isn't kept.
#[derive(Default, Drop)]
pub enum Value {
    Handle(u64),
    Number(u32),
    Text(WText),
    SomeText(Option<WText>),
    #[default]
    UnkeptText,
    SomeNumber(Option<u32>),
    SomeBytes(Option<Items<u8>>),
    UnkeptBytes,
    SizedArray(Items<u8>),
    /// The size, and the bytes.
    Bytes(u32, Items<u8>),
    Words(Option<Items<WText>>),
    /// Whether it is held, by whom, and for how many seconds.
    Lock(u32, Option<WText>, u32),
    Shown(Option<Apart<Shown>>),
    Info(Info),
}

/// A value to write, which is held elsewhere.
#[derive(Clone, Copy)]
pub enum Piece<'a> {
    Handle(u64),
    Number(u32),
    Text(&'a WText),
    SomeText(&'a Option<WText>),
    UnkeptText,
    SomeNumber(Option<u32>),
    SomeBytes(&'a Option<Items<u8>>),
    UnkeptBytes,
    SizedArray(&'a Items<u8>),
    /// The size, and the bytes.
    Bytes(u32, &'a Items<u8>),
    Words(&'a Option<Items<WText>>),
    Lock(u32, &'a Option<WText>, u32),
    Shown(&'a Option<Apart<Shown>>),
    Info(&'a Info),
}

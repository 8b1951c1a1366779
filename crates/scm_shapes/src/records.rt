ghost use Rattle.std.specs.Prelude.{◌≡◌, ◌≤◌, [], ◌∷◌, Some, IsOk, OnOk, length};
ghost use Rattle.ndr_body.specs.Reading.{Gives, number_at};
ghost use Rattle.scm_shapes.specs.declared.item.Value.TheVariants as value;
ghost use Rattle.scm_shapes.specs.Parts.{made};
ghost use Rattle.scm_shapes.specs.Each.{each_at, put_each};
ghost use Rattle.scm_shapes.specs.Records.{lock_at, lock_marks, lock_texts, begins_blank, is_blank};
ghost use Rattle.scm_shapes.specs.Records.{is_pointed, left_over, missing, first_misfit};
ghost use Rattle.scm_shapes.specs.Records.{numbers_in};
ghost use Rattle.scm_shapes.specs.Records.{shown_texts_at, shown_at, shown_marks, shown_texts};
ghost use Rattle.scm_shapes.specs.Records.{put_mark, put_marks, put_record};

use crate::handle_body::next_place;
use crate::item::Value;
use ndr_body::{BodyFault, NdrReader, NdrWriter};
use scm_model::{Apart, Shown};
use scm_text::{OutOfMemory, WText};
use std::alloc::Global;

/// The nine numbers of a configuration. Those with a text's name point to it.
#[derive(Drop)]
pub struct Heads {
    kind: u32,
    start: u32,
    error: u32,
    path: u32,
    group: u32,
    tag: u32,
    needs: u32,
    account: u32,
    display: u32,
}

impl Heads {
    /// Whether the first four tell that there is no configuration.
    fn begins_blank(&self) -> bool
        ensures { result ≡ begins_blank self.now }
    {
        self.path == 0 && self.kind == 0 && self.start == 0 && self.error == 0
    }

    /// Whether all tell so.
    fn is_blank(&self) -> bool
        ensures { result ≡ is_blank self.now }
    {
        self.begins_blank()
            && self.group == 0
            && self.tag == 0
            && self.needs == 0
            && self.account == 0
            && self.display == 0
    }

    /// Whether each text has its pointer.
    fn is_pointed(&self) -> bool
        ensures { result ≡ is_pointed self.now }
    {
        !(self.path == 0
            || self.group == 0
            || self.needs == 0
            || self.account == 0
            || self.display == 0)
    }

    fn left_over(&self) -> usize
        ensures { result ≡ left_over self.now }
    {
        if self.group != 0 {
            16
        } else if self.tag != 0 {
            20
        } else if self.needs != 0 {
            24
        } else if self.account != 0 {
            28
        } else {
            32
        }
    }

    fn missing(&self) -> usize
        ensures { result ≡ missing self.now }
    {
        if self.path == 0 {
            12
        } else if self.group == 0 {
            16
        } else if self.needs == 0 {
            24
        } else if self.account == 0 {
            28
        } else {
            32
        }
    }

    /// The offset, from the first number, of the first one that doesn't fit those before it.
    fn misfit(&self) -> usize
        ensures value { result ≡ first_misfit self.now }
        ensures small { result ≤ 32 }
    {
        if self.begins_blank() {
            self.left_over()
        } else {
            self.missing()
        }
    }
}

#[tactic(auto, unfolding(crate::specs::Each::each_at))]
fn read_heads(reader: &mut NdrReader) -> Result<Heads, BodyFault>
    ensures value { Gives (λ h. (numbers_in h, reader.new.place)) result
        (each_at number_at 9 reader.old.body reader.old.place) }
    ensures body { reader.new.body ≡ reader.old.body }
{
    Ok(Heads {
        kind: reader.number()?,
        start: reader.number()?,
        error: reader.number()?,
        path: reader.number()?,
        group: reader.number()?,
        tag: reader.number()?,
        needs: reader.number()?,
        account: reader.number()?,
        display: reader.number()?,
    })
}

/// The configuration of these numbers, whose texts come next.
#[tactic(auto, unfolding(crate::specs::Records::shown_texts_at, crate::specs::Each::each_at))]
fn read_texts(reader: &mut NdrReader, alloc: Global, heads: &Heads) -> Result<Shown, BodyFault>
    ensures value { Gives (λ s. (Some s, reader.new.place)) result
        (shown_texts_at heads.now reader.old.body reader.old.place) }
    ensures body { reader.new.body ≡ reader.old.body }
{
    let path = reader.text(alloc)?;
    let group = reader.text(alloc)?;
    let needs = reader.text(alloc)?;
    let account = reader.text(alloc)?;
    let display = reader.text(alloc)?;
    Ok(Shown {
        kind: heads.kind,
        start: heads.start,
        error: heads.error,
        path,
        group,
        tag: heads.tag,
        needs,
        account,
        display,
    })
}

/// A configuration, or none where its numbers are 0. A number that doesn't fit to those before it
/// is `BadCount` where it begins.
#[tactic(auto, using(crate::proofs::Recorded::decides), unfolding(crate::specs::Records::shown_at, crate::specs::Records::record_at, crate::specs::Records::shown_texts_at))]
pub fn read_shown(reader: &mut NdrReader, alloc: Global) -> Result<Option<Apart<Shown>>, BodyFault>
    ensures value { Gives (λ v. (v, reader.new.place)) result
        (shown_at reader.old.body reader.old.place) }
    ensures body { reader.new.body ≡ reader.old.body }
{
    let start = next_place(reader);
    let heads = read_heads(reader)?;
    if heads.is_blank() {
        Ok(None)
    } else if heads.is_pointed() {
        let shown = read_texts(reader, alloc, &heads)?;
        Ok(Some(Apart::new(alloc, shown)?))
    } else {
        Err(BodyFault::BadCount(start + heads.misfit()))
    }
}

/// The state of a lock: three numbers, and then its owner, if there is one.
#[tactic(auto, unfolding(crate::specs::Records::lock_at, crate::specs::Records::record_at, crate::specs::Each::each_at))]
pub fn read_lock(reader: &mut NdrReader, alloc: Global) -> Result<Value, BodyFault>
    ensures value { Gives (λ v. (v, reader.new.place)) result
        (made (λ l. value.Lock l.0 l.1 l.2) (lock_at reader.old.body reader.old.place)) }
    ensures body { reader.new.body ≡ reader.old.body }
{
    let held = reader.number()?;
    let pointer = reader.number()?;
    let seconds = reader.number()?;
    if pointer == 0 {
        Ok(Value::Lock(held, None, seconds))
    } else {
        let owner = reader.text(alloc)?;
        Ok(Value::Lock(held, Some(owner), seconds))
    }
}

#[tactic(auto, using(crate::proofs::Widths::grows), unfolding(crate::specs::Records::put_record))]
pub fn put_lock(
    writer: &mut NdrWriter,
    held: u32,
    owner: &Option<WText>,
    seconds: u32,
) -> Result<(), OutOfMemory>
    ensures front { writer.new.front ≡ writer.old.front }
    ensures ok { OnOk result (writer.new.draft ≡ put_record (lock_marks held owner.now seconds)
        (lock_texts owner.now) writer.old.draft) }
    ensures space { writer.old.space ≤ writer.new.space }
    ensures enough { length (put_record (lock_marks held owner.now seconds)
        (lock_texts owner.now) writer.old.draft).bytes ≤ writer.old.space → IsOk result }
{
    match owner {
        None => {
            writer.number(held)?;
            writer.number(0)?;
            writer.number(seconds)
        }
        Some(owner) => {
            writer.number(held)?;
            writer.referent()?;
            writer.number(seconds)?;
            writer.text(owner)
        }
    }
}

/// A number, or a pointer in the place of an absent one.
fn put_mark(writer: &mut NdrWriter, mark: Option<u32>) -> Result<(), OutOfMemory>
    ensures front { writer.new.front ≡ writer.old.front }
    ensures ok { OnOk result (writer.new.draft ≡ put_mark mark writer.old.draft) }
    ensures space { writer.old.space ≤ writer.new.space }
    ensures enough { length (put_mark mark writer.old.draft).bytes ≤ writer.old.space
        → IsOk result }
{
    match mark {
        Some(number) => writer.number(number),
        None => writer.referent(),
    }
}

fn put_marks(writer: &mut NdrWriter, marks: &[Option<u32>]) -> Result<(), OutOfMemory>
    ensures front { writer.new.front ≡ writer.old.front }
    ensures ok { OnOk result (writer.new.draft ≡ put_marks marks.now writer.old.draft) }
    ensures space { writer.old.space ≤ writer.new.space }
    ensures enough { length (put_marks marks.now writer.old.draft).bytes ≤ writer.old.space
        → IsOk result }
{
    for mark in marks {
        put_mark(writer, *mark)?;
    }
    Ok(())
}

#[tactic(auto, using(crate::proofs::Widths::grows))]
fn put_texts(writer: &mut NdrWriter, shown: &Shown) -> Result<(), OutOfMemory>
    ensures front { writer.new.front ≡ writer.old.front }
    ensures ok { OnOk result (writer.new.draft ≡ put_each
        (shown_texts (Some shown.now)) writer.old.draft) }
    ensures space { writer.old.space ≤ writer.new.space }
    ensures enough { length (put_each (shown_texts (Some shown.now)) writer.old.draft).bytes ≤
        writer.old.space → IsOk result }
{
    writer.text(&shown.path)?;
    writer.text(&shown.group)?;
    writer.text(&shown.needs)?;
    writer.text(&shown.account)?;
    writer.text(&shown.display)
}

#[tactic(auto, using(crate::proofs::Widths::grows), unfolding(crate::specs::Records::put_record))]
pub fn put_shown(writer: &mut NdrWriter, shown: &Option<Apart<Shown>>) -> Result<(), OutOfMemory>
    ensures front { writer.new.front ≡ writer.old.front }
    ensures ok { OnOk result (writer.new.draft ≡ put_record (shown_marks shown.now)
        (shown_texts shown.now) writer.old.draft) }
    ensures space { writer.old.space ≤ writer.new.space }
    ensures enough { length (put_record (shown_marks shown.now)
        (shown_texts shown.now) writer.old.draft).bytes ≤ writer.old.space → IsOk result }
{
    match shown {
        None => put_marks(writer, &[Some(0); 9]),
        Some(shown) => {
            let (kind, start, error) = (Some(shown.kind), Some(shown.start), Some(shown.error));
            let tag = Some(shown.tag);
            put_marks(
                writer,
                &[kind, start, error, None, None, tag, None, None, None],
            )?;
            put_texts(writer, shown)
        }
    }
}

// The fields of requests, written into room that there is.
ghost use Rattle.std.specs.Prelude.{◌≡◌, ◌+◌, ◌++◌, ◌∷◌, ◌<◌, ◌≤◌, ◌^◌, [], length};
ghost use Rattle.scm_model.specs.Texts.{some_bytes, some_text, some_words, text_of_call};
ghost use Rattle.scm_model.specs.Texts.{text_of_change, text_of_info, text_of_new};
ghost use Rattle.step_code.specs.Codes.{byte_list, change_code, common_code, create_code, fields};
ghost use Rattle.step_code.specs.Codes.{info_code, joined, list, n4, n8, request_code, some};
ghost use Rattle.step_code.specs.Codes.{status, text};
ghost use Rattle.step_code.specs.Fits.{AreItems, Is4, IsByteList, IsChange, IsInfo, IsNew};
ghost use Rattle.step_code.specs.Fits.{IsRequest, IsAbsentOr, IsStatus, IsText};
ghost use Rattle.step_code.specs.Sizes.{bytes_size, change_size, common_size, create_size};
ghost use Rattle.step_code.specs.Sizes.{fields_size, info_size, some_size, text_size, words_size};

use crate::fields_written::{
    put_byte, put_bytes, put_flag, put_some_actions, put_some_bytes, put_some_number,
    put_some_text, put_some_words, put_status, put_text, put_triggers, put2, put4, put8,
};
use scm_model::{ChangeService, Info, NewService, Request, Status};
use scm_text::{Buffer, Items, WText};

fn put_info(out: &mut Buffer<u8>, info: &Info)
    requires room { info_size info.now ≤ out.old.room }
    requires short { text_of_info info.now < 2 ^ 32 }
    ensures bytes { out.new.items ≡ out.old.items ++ info_code info.now }
    ensures room { out.new.room + info_size info.now ≡ out.old.room }
    ensures fits { IsInfo info.now }
{
    match info {
        Info::Description(text) => {
            put_byte(out, 0);
            put_some_text(out, text);
        }
        Info::Failure {
            reset,
            command,
            actions,
        } => {
            put_byte(out, 1);
            put4(out, *reset);
            put_some_text(out, command);
            put_some_actions(out, actions);
        }
        Info::Delayed(on) => {
            put_byte(out, 2);
            put_flag(out, *on);
        }
        Info::OnExit(on) => {
            put_byte(out, 3);
            put_flag(out, *on);
        }
        Info::Triggers(triggers) => {
            put_byte(out, 4);
            put_triggers(out, triggers.as_slice());
        }
        Info::Other(level) => {
            put_byte(out, 5);
            put4(out, *level);
        }
        Info::Nothing(level) => {
            put_byte(out, 6);
            put4(out, *level);
        }
    }
}

/// What a creation and a change have in common.
fn put_common(
    out: &mut Buffer<u8>,
    group: &Option<WText>,
    tag: Option<u32>,
    needs: &Option<Items<u8>>,
    account: &Option<WText>,
)
    requires room { common_size group.now tag needs.now account.now ≤ out.old.room }
    requires group { some_text group.now < 2 ^ 32 }
    requires needs { some_bytes needs.now < 2 ^ 32 }
    requires account { some_text account.now < 2 ^ 32 }
    ensures bytes { out.new.items ≡ out.old.items
        ++ common_code group.now tag needs.now account.now }
    ensures room { out.new.room + common_size group.now tag needs.now account.now ≡ out.old.room }
    ensures group { IsAbsentOr IsText group.now }
    ensures tag { IsAbsentOr Is4 tag }
    ensures needs { IsAbsentOr IsByteList needs.now }
    ensures account { IsAbsentOr IsText account.now }
{
    put_some_text(out, group);
    put_some_number(out, tag);
    put_some_bytes(out, needs);
    put_some_text(out, account);
}

fn put_change(out: &mut Buffer<u8>, change: &ChangeService)
    requires room { change_size change.now ≤ out.old.room }
    requires short { text_of_change change.now < 2 ^ 32 }
    ensures bytes { out.new.items ≡ out.old.items ++ change_code change.now }
    ensures room { out.new.room + change_size change.now ≡ out.old.room }
    ensures fits { IsChange change.now }
{
    put8(out, change.handle);
    put4(out, change.kind);
    put4(out, change.start);
    put4(out, change.error);
    put_some_text(out, &change.path);
    put_common(
        out,
        &change.group,
        change.tag,
        &change.needs,
        &change.account,
    );
    put_some_text(out, &change.display);
}

fn put_create(out: &mut Buffer<u8>, new: &NewService)
    requires room { create_size new.now ≤ out.old.room }
    requires short { text_of_new new.now < 2 ^ 32 }
    ensures bytes { out.new.items ≡ out.old.items ++ create_code new.now }
    ensures room { out.new.room + create_size new.now ≡ out.old.room }
    ensures fits { IsNew new.now }
{
    put8(out, new.handle);
    put_text(out, &new.name);
    put_some_text(out, &new.display);
    put4(out, new.access);
    put4(out, new.kind);
    put4(out, new.start);
    put4(out, new.error);
    put_text(out, &new.path);
    put_common(out, &new.group, new.tag, &new.needs, &new.account);
}

/// A handle and a number.
fn put_number(out: &mut Buffer<u8>, handle: u64, number: u32)
    requires { 12 ≤ out.old.room }
    ensures bytes { out.new.items ≡ out.old.items ++ joined (n8 handle ∷ n4 number ∷ []) }
    ensures room { out.new.room + 12 ≡ out.old.room }
{
    put8(out, handle);
    put4(out, number);
}

/// A handle and two numbers.
fn put_numbers(out: &mut Buffer<u8>, handle: u64, first: u32, second: u32)
    requires { 16 ≤ out.old.room }
    ensures bytes { out.new.items ≡ out.old.items
        ++ joined (n8 handle ∷ n4 first ∷ n4 second ∷ []) }
    ensures room { out.new.room + 16 ≡ out.old.room }
{
    put8(out, handle);
    put4(out, first);
    put4(out, second);
}

/// A handle, a name and a number.
fn put_named(out: &mut Buffer<u8>, handle: u64, name: &WText, number: u32)
    requires room { 12 + text_size name.now ≤ out.old.room }
    requires short { length name.now < 2 ^ 32 }
    ensures bytes { out.new.items ≡ out.old.items
        ++ joined (n8 handle ∷ text name.now ∷ n4 number ∷ []) }
    ensures room { out.new.room + (12 + text_size name.now) ≡ out.old.room }
    ensures fits { IsText name.now }
{
    put8(out, handle);
    put_text(out, name);
    put4(out, number);
}

fn put_set_security(out: &mut Buffer<u8>, handle: u64, parts: u32, bytes: &Items<u8>)
    requires room { 12 + bytes_size bytes.now ≤ out.old.room }
    requires short { length bytes.now < 2 ^ 32 }
    ensures bytes { out.new.items ≡ out.old.items
        ++ joined (n8 handle ∷ n4 parts ∷ byte_list bytes.now ∷ []) }
    ensures room { out.new.room + (12 + bytes_size bytes.now) ≡ out.old.room }
{
    put8(out, handle);
    put4(out, parts);
    put_bytes(out, bytes);
}

fn put_set_status(out: &mut Buffer<u8>, handle: u64, value: &Status)
    requires { 36 ≤ out.old.room }
    ensures bytes { out.new.items ≡ out.old.items ++ joined (n8 handle ∷ status value.now ∷ []) }
    ensures room { out.new.room + 36 ≡ out.old.room }
    ensures fits { IsStatus value.now }
{
    put8(out, handle);
    put_status(out, value);
}

fn put_page(
    out: &mut Buffer<u8>,
    handle: u64,
    kinds: u32,
    states: u32,
    size: u32,
    resume: Option<u32>,
)
    requires { 20 + some_size (λ _. 4) resume ≤ out.old.room }
    ensures bytes { out.new.items ≡ out.old.items
        ++ joined (n8 handle ∷ n4 kinds ∷ n4 states ∷ n4 size ∷ some n4 resume ∷ []) }
    ensures room { out.new.room + (20 + some_size (λ _. 4) resume) ≡ out.old.room }
    ensures fits { IsAbsentOr Is4 resume }
{
    put8(out, handle);
    put4(out, kinds);
    put4(out, states);
    put4(out, size);
    put_some_number(out, resume);
}

fn put_open_manager(out: &mut Buffer<u8>, database: &Option<WText>, access: u32)
    requires room { some_size text_size database.now + 4 ≤ out.old.room }
    requires short { some_text database.now < 2 ^ 32 }
    ensures bytes { out.new.items ≡ out.old.items
        ++ joined (some text database.now ∷ n4 access ∷ []) }
    ensures room { out.new.room + (some_size text_size database.now + 4) ≡ out.old.room }
    ensures fits { IsAbsentOr IsText database.now }
{
    put_some_text(out, database);
    put4(out, access);
}

fn put_start(out: &mut Buffer<u8>, handle: u64, words: &Option<Items<WText>>)
    requires room { 8 + some_size words_size words.now ≤ out.old.room }
    requires short { some_words words.now < 2 ^ 32 }
    ensures bytes { out.new.items ≡ out.old.items
        ++ joined (n8 handle ∷ some (list text) words.now ∷ []) }
    ensures room { out.new.room + (8 + some_size words_size words.now) ≡ out.old.room }
    ensures fits { IsAbsentOr (AreItems IsText) words.now }
{
    put8(out, handle);
    put_some_words(out, words);
}

fn put_change2(out: &mut Buffer<u8>, handle: u64, info: &Info)
    requires room { 8 + info_size info.now ≤ out.old.room }
    requires short { text_of_info info.now < 2 ^ 32 }
    ensures bytes { out.new.items ≡ out.old.items ++ joined (n8 handle ∷ info_code info.now ∷ []) }
    ensures room { out.new.room + (8 + info_size info.now) ≡ out.old.room }
    ensures fits { IsInfo info.now }
{
    put8(out, handle);
    put_info(out, info);
}

/// The fields of a request, in order.
fn put_fields(out: &mut Buffer<u8>, request: &Request)
    requires room { fields_size request.now ≤ out.old.room }
    requires short { text_of_call request.now < 2 ^ 32 }
    ensures bytes { out.new.items ≡ out.old.items ++ fields request.now }
    ensures room { out.new.room + fields_size request.now ≡ out.old.room }
    ensures fits { IsRequest request.now }
{
    match request {
        &Request::Close { handle }
        | &Request::Delete { handle }
        | &Request::Lock { handle }
        | &Request::QueryStatus { handle }
        | &Request::Unlock { handle }
        | &Request::GetNotify { handle }
        | &Request::CloseNotify { handle } => put8(out, handle),
        &Request::Control {
            handle,
            control: number,
        }
        | &Request::QueryConfig {
            handle,
            size: number,
        }
        | &Request::QueryLock {
            handle,
            size: number,
        }
        | &Request::Notify {
            handle,
            mask: number,
        } => put_number(out, handle, number),
        &Request::QuerySecurity {
            handle,
            parts: first,
            size,
        }
        | &Request::EnumDependents {
            handle,
            states: first,
            size,
        }
        | &Request::QueryConfig2 {
            handle,
            level: first,
            size,
        }
        | &Request::QueryStatusEx {
            handle,
            level: first,
            size,
        } => put_numbers(out, handle, first, size),
        Request::OpenService {
            handle,
            name,
            access: number,
        }
        | Request::DisplayName {
            handle,
            name,
            size: number,
        }
        | Request::KeyName {
            handle,
            name,
            size: number,
        } => put_named(out, *handle, name, *number),
        Request::SetSecurity {
            handle,
            parts,
            bytes,
        } => put_set_security(out, *handle, *parts, bytes),
        Request::SetStatus { handle, status } => put_set_status(out, *handle, status),
        Request::Change(change) => put_change(out, change),
        Request::Create(new) => put_create(out, new),
        &Request::EnumServices {
            handle,
            kinds,
            states,
            size,
            resume,
        } => put_page(out, handle, kinds, states, size, resume),
        Request::OpenManager { database, access } => put_open_manager(out, database, *access),
        Request::Start { handle, words } => put_start(out, *handle, words),
        Request::Change2 { handle, info } => put_change2(out, *handle, info),
    }
}

/// The opnum of a request, and its fields.
pub(crate) fn put_request(out: &mut Buffer<u8>, request: &Request)
    requires room { 2 + fields_size request.now ≤ out.old.room }
    requires short { text_of_call request.now < 2 ^ 32 }
    ensures bytes { out.new.items ≡ out.old.items ++ request_code request.now }
    ensures room { out.new.room + (2 + fields_size request.now) ≡ out.old.room }
    ensures fits { IsRequest request.now }
{
    put2(out, request.opnum());
    put_fields(out, request);
}

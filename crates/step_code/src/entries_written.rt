// The code of an entry, written into room that there is.
ghost use Rattle.std.specs.Prelude.{◌≡◌, ◌+◌, ◌++◌, ◌∷◌, ◌<◌, ◌≤◌, ◌^◌, []};
ghost use Rattle.scm_model.specs.Texts.{text_of, text_of_call};
ghost use Rattle.step_code.specs.Codes.{appended, code_of, joined, n4, n8, principal, request_code};
ghost use Rattle.step_code.specs.Codes.{status, step_code, subtype};
ghost use Rattle.step_code.specs.Fits.{HasCode, IsRequest, IsStatus, IsSubtype};
ghost use Rattle.step_code.specs.Sizes.{code_size, fields_size, step_size};

use crate::fields_written::{put_byte, put_status, put_subtype, put4, put8};
use crate::requests_written::put_request;
use scm_model::{Kept, Principal, Request, Status, Step};
use scm_text::Buffer;

fn principal(by: Principal) -> u8
    ensures { result ≡ principal by }
{
    match by {
        Principal::Admin => 0,
        Principal::User => 1,
    }
}

fn appended(kept: Kept) -> u8
    ensures { result ≡ appended kept }
{
    match kept {
        Kept::NotAsked => 0,
        Kept::Kept => 1,
        Kept::Failed => 2,
    }
}

/// The byte of a step of a number alone, and the number.
fn put_numbered(out: &mut Buffer<u8>, kind: u8, number: u64)
    requires { 9 ≤ out.old.room }
    ensures bytes { out.new.items ≡ out.old.items ++ kind ∷ n8 number }
    ensures room { out.new.room + 9 ≡ out.old.room }
{
    put_byte(out, kind);
    put8(out, number);
}

fn put_joined(out: &mut Buffer<u8>, by: Principal)
    requires { 2 ≤ out.old.room }
    ensures bytes { out.new.items ≡ out.old.items ++ 0 ∷ principal by ∷ [] }
    ensures room { out.new.room + 2 ≡ out.old.room }
{
    put_byte(out, 0);
    put_byte(out, principal(by));
}

fn put_kept(out: &mut Buffer<u8>, kept: Kept)
    requires { 1 ≤ out.old.room }
    ensures bytes { out.new.items ≡ out.old.items ++ appended kept ∷ [] }
    ensures room { out.new.room + 1 ≡ out.old.room }
{
    put_byte(out, appended(kept));
}

fn put_call(out: &mut Buffer<u8>, caller: u64, request: &Request, kept: Kept)
    requires room { 12 + fields_size request.now ≤ out.old.room }
    requires short { text_of_call request.now < 2 ^ 32 }
    ensures bytes { out.new.items ≡ out.old.items
        ++ 1 ∷ joined (n8 caller ∷ request_code request.now ∷ (appended kept ∷ []) ∷ []) }
    ensures room { out.new.room + (12 + fields_size request.now) ≡ out.old.room }
    ensures fits { IsRequest request.now }
{
    put_numbered(out, 1, caller);
    put_request(out, request);
    put_kept(out, kept);
}

fn put_end_start(out: &mut Buffer<u8>, caller: u64, plan: u64)
    requires { 17 ≤ out.old.room }
    ensures bytes { out.new.items ≡ out.old.items ++ 2 ∷ joined (n8 caller ∷ n8 plan ∷ []) }
    ensures room { out.new.room + 17 ≡ out.old.room }
{
    put_numbered(out, 2, caller);
    put8(out, plan);
}

/// What became of a launch.
fn put_launch(out: &mut Buffer<u8>, kind: u8, process: u64, number: u32)
    requires { 13 ≤ out.old.room }
    ensures bytes { out.new.items ≡ out.old.items ++ kind ∷ joined (n8 process ∷ n4 number ∷ []) }
    ensures room { out.new.room + 13 ≡ out.old.room }
{
    put_numbered(out, kind, process);
    put4(out, number);
}

fn put_report(out: &mut Buffer<u8>, process: u64, service: u64, value: &Status)
    requires { 45 ≤ out.old.room }
    ensures bytes { out.new.items ≡ out.old.items
        ++ 6 ∷ joined (n8 process ∷ n8 service ∷ status value.now ∷ []) }
    ensures room { out.new.room + 45 ≡ out.old.room }
    ensures fits { IsStatus value.now }
{
    put_numbered(out, 6, process);
    put8(out, service);
    put_status(out, value);
}

fn put_raised(out: &mut Buffer<u8>, caller: u64, id: &[u8; 16])
    requires { 25 ≤ out.old.room }
    ensures bytes { out.new.items ≡ out.old.items
        ++ 10 ∷ joined (n8 caller ∷ subtype id.now ∷ []) }
    ensures room { out.new.room + 25 ≡ out.old.room }
    ensures fits { IsSubtype id.now }
{
    put_numbered(out, 10, caller);
    put_subtype(out, id);
}

/// Writes the code of a step, which takes no memory.
pub fn write_step(into: &mut Buffer<u8>, step: &Step)
    requires room { step_size step.now ≤ into.old.room }
    requires short { text_of step.now < 2 ^ 32 }
    ensures bytes { into.new.items ≡ into.old.items ++ step_code step.now }
    ensures room { into.new.room + step_size step.now ≡ into.old.room }
    ensures fits { HasCode step.now }
{
    match step {
        &Step::Joined { principal } => put_joined(into, principal),
        Step::Call {
            caller,
            request,
            kept,
        } => put_call(into, *caller, request, *kept),
        &Step::EndStart { caller, plan } => put_end_start(into, caller, plan),
        Step::LaunchTaken => put_byte(into, 3),
        &Step::Launched { process, pid } => put_launch(into, 4, process, pid),
        &Step::LaunchFailed { process, code } => put_launch(into, 5, process, code),
        Step::Report {
            process,
            service,
            status,
        } => put_report(into, *process, *service, status),
        &Step::Ended { process } => put_numbered(into, 7, process),
        &Step::ControlTaken { process } => put_numbered(into, 8, process),
        Step::Tick => put_byte(into, 9),
        Step::Raised { caller, subtype } => put_raised(into, *caller, subtype),
        &Step::Gone { caller } => put_numbered(into, 11, caller),
        &Step::NoMemory { caller } => put_numbered(into, 12, caller),
    }
}

/// Writes the code of an entry, which takes no memory: its moment in milliseconds, in eight bytes,
/// and its step. Each number is little endian in its width. A variant is a byte with its place in
/// the enum, counted from 0, and its fields in order. A request begins with its opnum, in two
/// bytes, in place of that byte. A flag is a byte 0 or 1, an option a flag and the value if there
/// is one, a text or a list a count in four bytes and the items, and a subtype its 16 bytes.
pub fn write_code(into: &mut Buffer<u8>, moment: u64, step: &Step)
    requires room { code_size step.now ≤ into.old.room }
    requires short { text_of step.now < 2 ^ 32 }
    ensures bytes { into.new.items ≡ into.old.items ++ code_of (moment, step.now) }
    ensures room { into.new.room + code_size step.now ≡ into.old.room }
    ensures fits { HasCode step.now }
{
    put8(into, moment);
    write_step(into, step);
}

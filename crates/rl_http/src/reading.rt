//! Reads the head of a request.
ghost use Rattle.std.specs.Prelude.{◌≡◌, ◌<◌, ◌≤◌, ◌^◌, length, option_map, count_by, Some, None, Ok, Err, IfOk};
ghost use Rattle.std.specs.List.{list_any, slice_split};
ghost use Rattle.httparse.specs.Borrowed.{header_parts, HoldsSomeRequest};
ghost use Rattle.rl_http.specs.Heads.{is_named, has_field, last_value, length_spelt, body_length, viewer_spelt, is_close, is_comma, says_close};
ghost use Rattle.rl_http.specs.Heads.{is_last, head_said, parts, trimmed, Says, SaysLength, SaysViewer, ReadsHead, IsHeadWithin, HasViewer};
ghost use Rattle.rl_http.specs.Heads.{viewer_named, name_or_refusal};
ghost use Rattle.rl_names.specs.Title.{user_name_of};
ghost use Rattle.rl_pages.specs.Viewer.{IsViewer};

use crate::heads::{Head, HeadError, HeadRead};
use crate::numbers::{is_number, number};
use httparse::{EMPTY_HEADER, Header, Request, Status};
use rl_names::{NoMemory, Text, UserName, UserNameError};
use std::alloc::Global;

/// The most bytes that a body may have.
const MAX_BODY: u64 = 8_388_608;

fn is_named(field: &Header<'_>, name: &str) -> bool
    ensures { result ≡ is_named name.now (header_parts field.now) }
{
    field.name.eq_ignore_ascii_case(name)
}

fn has_field(fields: &[Header<'_>], name: &str) -> bool
    ensures { result ≡ has_field name.now (parts fields.now) }
{
    'fields: for field in fields {
        if is_named(field, name) {
            return true;
        }
    }
    false
}

/// The value of the last header of this name.
fn last_value<'b>(fields: &[Header<'b>], name: &str) -> Option<&'b [u8]>
    ensures { option_map (λ v. v.now) result ≡ last_value name.now (parts fields.now) }
{
    let mut found: Option<&'b [u8]> = None;
    'fields: for field in fields {
        if is_named(field, name) {
            found = Some(field.value);
        }
    }
    found
}

/// How many headers have this name.
fn count_named(fields: &[Header<'_>], name: &str) -> usize
    ensures { result ≡ count_by (is_named name.now) (parts fields.now) }
{
    let mut count = 0usize;
    'fields: for field in fields {
        if is_named(field, name) {
            count += 1;
        }
    }
    count
}

/// The body's length that a value spells.
fn length_spelt(value: Option<&[u8]>) -> Result<u64, HeadError>
    ensures says { SaysLength result (length_spelt (option_map (λ v. v.now) value.entry)) }
    ensures small { IfOk result (λ n. n ≤ 8388608) }
{
    let Some(value) = value else {
        return Ok(0);
    };
    if !is_number(value) {
        return Err(HeadError::Refused { code: 400 });
    }
    match number(value, MAX_BODY) {
        Some(number) => Ok(number),
        None => Err(HeadError::Refused { code: 413 }),
    }
}

fn body_length(fields: &[Header<'_>]) -> Result<u64, HeadError>
    ensures says { SaysLength result (body_length (parts fields.now)) }
    ensures small { IfOk result (λ n. n ≤ 8388608) }
{
    if count_named(fields, "content-length") > 1 {
        return Err(HeadError::Refused { code: 400 });
    }
    length_spelt(last_value(fields, "content-length"))
}

/// The name of the user that bytes spell.
fn user_name(alloc: Global, name: &[u8]) -> Result<Text, HeadError>
    ensures says { SaysViewer result (name_or_refusal (user_name_of name.now)) }
    ensures viewer { IfOk result (λ name. IsViewer (viewer_named name)) }
{
    match UserName::read(alloc, name) {
        Ok(name) => Ok(Text::from_string(name.into_string())),
        Err(UserNameError::BadUserName) => Err(HeadError::Refused { code: 400 }),
        Err(UserNameError::NoMemory) => Err(HeadError::NoMemory),
    }
}

/// The name of the user that a value spells, or nothing for nobody.
fn viewer_spelt(alloc: Global, value: Option<&[u8]>) -> Result<Text, HeadError>
    ensures says { SaysViewer result (viewer_spelt (option_map (λ v. v.now) value.entry)) }
    ensures viewer { IfOk result (λ name. IsViewer (viewer_named name)) }
{
    match value {
        None | Some([]) => Ok(Text::from_string(String::new(alloc))),
        Some(name) => user_name(alloc, name),
    }
}

/// A member without the blanks at its ends.
fn trimmed(member: &[u8]) -> &[u8]
    ensures { result.now ≡ trimmed member.now }
{
    member.trim_ascii()
}

fn is_close(member: &[u8]) -> bool
    ensures { result ≡ is_close member.now }
{
    trimmed(member).eq_ignore_ascii_case(b"close")
}

fn lists_close(value: &[u8]) -> bool
    ensures { result ≡ list_any is_close (slice_split is_comma value.now) }
{
    value.split(|b| *b == b',').any(|member| is_close(member))
}

fn says_close(field: &Header<'_>) -> bool
    ensures { result ≡ says_close (header_parts field.now) }
{
    is_named(field, "connection") && lists_close(field.value)
}

/// Whether the connection ends after the answer.
fn is_last(minor: u8, fields: &[Header<'_>]) -> bool
    ensures { result ≡ is_last minor (parts fields.now) }
{
    if minor == 0 {
        return true;
    }
    'fields: for field in fields {
        if says_close(field) {
            return true;
        }
    }
    false
}

/// What the parts of a head say.
fn head_said(
    alloc: Global,
    method: &str,
    target: &str,
    minor: u8,
    fields: &[Header<'_>],
) -> Result<Head, HeadError>
    ensures says { Says result (head_said method.now target.now minor (parts fields.now)) }
    ensures small { IfOk result (λ head. head.length ≤ 8388608) }
    ensures viewer { IfOk result (λ head. IsViewer (viewer_named head.viewer)) }
{
    if has_field(fields, "transfer-encoding") {
        return Err(HeadError::Refused { code: 400 });
    }
    let length = body_length(fields)?;
    let viewer = viewer_spelt(alloc, last_value(fields, "x-wiki-user"))?;
    Ok(Head {
        method: Text::of(alloc, method)?,
        target: Text::of(alloc, target)?,
        viewer,
        length,
        last: is_last(minor, fields),
    })
}

/// Reads the head that bytes begin with.
pub fn read_head(alloc: Global, bytes: &[u8]) -> Result<HeadRead, NoMemory>
    requires { length bytes.now < 2 ^ 32 }
    ensures reads { IfOk result (ReadsHead bytes.now) }

    // The head lies in the bytes, and its body has at most 8 MiB.
    ensures within { IfOk result (IsHeadWithin (length bytes.now)) }

    // The viewer is nobody, or a user as the rule of user names spells the name.
    ensures viewer { IfOk result HasViewer }
{
    let mut headers = [EMPTY_HEADER; 64];
    let mut request = Request::new(&mut headers);
    let used = match request.parse(bytes) {
        Ok(Status::Complete(used)) => used,
        Ok(Status::Partial) => return Ok(HeadRead::Part),
        Err(_) => return Ok(HeadRead::Bad { code: 400 }),
    };
    let (Some(method), Some(target), Some(minor)) = (request.method, request.path, request.version)
    else {
        unreachable!()
    };
    match head_said(alloc, method, target, minor, request.headers) {
        Ok(head) => Ok(HeadRead::Whole {
            used: used as u32,
            head,
        }),
        Err(HeadError::Refused { code }) => Ok(HeadRead::Bad { code }),
        Err(HeadError::NoMemory) => Err(NoMemory),
    }
}

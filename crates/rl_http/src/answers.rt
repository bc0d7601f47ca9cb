//! Spells answers.
ghost use Rattle.std.specs.Prelude.{◌≡◌, ◌++◌, ◌∷◌, [], IfOk, OnOk, length, string_bytes, decimal, codes};
ghost use Rattle.rl_http.specs.Caching.{caching_text};
ghost use Rattle.rl_http.specs.Answers.{answer_text, caching_of, code_of, headers, caching_front, length_text, type_line, loaded_text, phrase_of};
ghost use Rattle.rl_http.specs.Answers.{refusal_line, refused_text, revision_body, revision_text, status_line, type_of};

use crate::refusals::Refusal;
use http::StatusCode;
use itoa::Buffer;
use rl_loadphp::{Answer, Kind};
use rl_names::{NoMemory, Text};
use std::alloc::Global;

/// More than the bytes that stand before a body.
const HEAD_ROOM: usize = 256;

fn status_of(refusal: Refusal) -> StatusCode
    ensures { result ≡ code_of refusal }
{
    match refusal {
        Refusal::BadRequest => StatusCode::BAD_REQUEST,
        Refusal::NotAllowed => StatusCode::FORBIDDEN,
        Refusal::NotFound => StatusCode::NOT_FOUND,
        Refusal::BadMethod => StatusCode::METHOD_NOT_ALLOWED,
        Refusal::Conflict { .. } => StatusCode::CONFLICT,
        Refusal::TooLarge => StatusCode::PAYLOAD_TOO_LARGE,
        Refusal::Unavailable => StatusCode::SERVICE_UNAVAILABLE,
    }
}

fn phrase(code: u16) -> &'static str
    ensures { result.now ≡ phrase_of code }
{
    match code {
        200 => "OK",
        400 => "Bad Request",
        403 => "Forbidden",
        404 => "Not Found",
        405 => "Method Not Allowed",
        409 => "Conflict",
        413 => "Content Too Large",
        _ => "Service Unavailable",
    }
}

fn push(out: &mut String, text: &str) -> Result<(), NoMemory>
    ensures { OnOk result (string_bytes out.new ≡ string_bytes out.old ++ text.now) }
{
    out.push_str(text)?;
    Ok(())
}

fn push_number(out: &mut String, number: u64) -> Result<(), NoMemory>
    ensures { OnOk result (string_bytes out.new ≡ string_bytes out.old ++ decimal number) }
{
    let mut digits = Buffer::new();
    push(out, digits.format(number))
}

fn push_status(out: &mut String, status: StatusCode) -> Result<(), NoMemory>
    ensures { OnOk result (string_bytes out.new ≡ string_bytes out.old ++ status_line status) }
{
    let code = status.as_u16();
    push(out, "HTTP/1.1 ")?;
    push_number(out, u64::from(code))?;
    push(out, " ")?;
    push(out, phrase(code))?;
    push(out, "\r\n")
}

fn push_length(out: &mut String, len: u64) -> Result<(), NoMemory>
    ensures { OnOk result (string_bytes out.new ≡ string_bytes out.old ++ length_text len) }
{
    push(out, "Content-Length: ")?;
    push_number(out, len)?;
    push(out, "\r\n\r\n")
}

fn caching_front(private: bool) -> &'static str
    ensures { result.now ≡ caching_front private }
{
    if private {
        "Cache-Control: private, max-age="
    } else {
        "Cache-Control: public, max-age="
    }
}

fn push_age(out: &mut String, private: bool, age: u32) -> Result<(), NoMemory>
    ensures { OnOk result (string_bytes out.new ≡ string_bytes out.old ++ caching_of private age) }
{
    push(out, caching_front(private))?;
    push_number(out, u64::from(age))?;
    push(out, "\r\n")
}

/// The line that says how long an answer may be kept.
#[derive(Clone, Copy)]
enum Caching {
    None,
    For { private: bool, age: u32 },
}

impl Caching {
    fn push_to(self, out: &mut String) -> Result<(), NoMemory>
        ensures { OnOk result (string_bytes out.new ≡ string_bytes out.old ++ caching_text self) }
    {
        match self {
            Caching::None => Ok(()),
            Caching::For { private, age } => push_age(out, private, age),
        }
    }
}

/// Adds a text that ends a line.
fn push_line(out: &mut String, text: &str) -> Result<(), NoMemory>
    ensures { OnOk result (string_bytes out.new ≡ string_bytes out.old ++ (text.now ++ codes "\r\n")) }
{
    push(out, text)?;
    push(out, "\r\n")
}

fn push_type(out: &mut String, kind: &str) -> Result<(), NoMemory>
    ensures { OnOk result (string_bytes out.new ≡ string_bytes out.old ++ type_line kind.now) }
{
    push(out, "Content-Type: ")?;
    push_line(out, kind)?;
    Ok(())
}

fn push_rest(out: &mut String, caching: Caching, len: u64) -> Result<(), NoMemory>
    ensures { OnOk result (string_bytes out.new ≡ string_bytes out.old ++ (caching_text caching ++ length_text len)) }
{
    caching.push_to(out)?;
    push_length(out, len)
}

fn push_headers(out: &mut String, kind: &str, caching: Caching, len: u64) -> Result<(), NoMemory>
    ensures { OnOk result (string_bytes out.new ≡ string_bytes out.old ++ headers kind.now (caching_text caching) len) }
{
    push_type(out, kind)?;
    push_rest(out, caching, len)
}

/// An answer with a body.
fn answer_text(
    alloc: Global,
    status: StatusCode,
    kind: &str,
    caching: Caching,
    body: &str,
) -> Result<Text, NoMemory>
    ensures { IfOk result (λ t. t ≡ answer_text status kind.now (caching_text caching) body.now) }
{
    let mut out = String::with_capacity(alloc, body.len().saturating_add(HEAD_ROOM))?;
    push_status(&mut out, status)?;
    push_headers(&mut out, kind, caching, body.len() as u64)?;
    push(&mut out, body)?;
    Ok(Text::from_string(out))
}

fn push_refusal(out: &mut String, refusal: Refusal) -> Result<(), NoMemory>
    ensures { OnOk result (string_bytes out.new ≡ string_bytes out.old ++ refusal_line refusal) }
{
    match refusal {
        Refusal::BadRequest => push(out, "bad request"),
        Refusal::NotAllowed => push(out, "not allowed"),
        Refusal::NotFound => push(out, "not found"),
        Refusal::BadMethod => push(out, "bad method"),
        Refusal::Conflict { current } => {
            push(out, "conflict ")?;
            push_number(out, current)
        }
        Refusal::TooLarge => push(out, "too large"),
        Refusal::Unavailable => push(out, "unavailable"),
    }
}

/// The answer that refuses a request.
pub fn refused(alloc: Global, refusal: Refusal) -> Result<Text, NoMemory>
    ensures { IfOk result (λ t. t ≡ refused_text refusal) }
{
    let mut body = String::new(alloc);
    push_refusal(&mut body, refusal)?;
    push(&mut body, "\n")?;
    answer_text(
        alloc,
        status_of(refusal),
        "text/plain",
        Caching::None,
        body.as_str(),
    )
}

/// The answer that tells a revision.
pub fn revision(alloc: Global, number: u64) -> Result<Text, NoMemory>
    ensures { IfOk result (λ t. t ≡ revision_text number) }
{
    let mut body = String::new(alloc);
    push(&mut body, "{\"revision\":")?;
    push_number(&mut body, number)?;
    push(&mut body, "}")?;
    answer_text(
        alloc,
        StatusCode::OK,
        "application/json",
        Caching::None,
        body.as_str(),
    )
}

fn type_of(kind: Kind) -> &'static str
    ensures { result.now ≡ type_of kind }
{
    match kind {
        Kind::Script => "text/javascript; charset=utf-8",
        Kind::Style => "text/css; charset=utf-8",
    }
}

/// The answer that has a body of load.php.
pub fn loaded(alloc: Global, answer: &Answer) -> Result<Text, NoMemory>
    ensures { IfOk result (λ t. t ≡ loaded_text answer.now) }
{
    let caching = Caching::For {
        private: answer.private,
        age: answer.max_age,
    };
    answer_text(
        alloc,
        StatusCode::OK,
        type_of(answer.kind),
        caching,
        answer.body.as_str(),
    )
}

//! The answer to a query, from its bytes.
ghost use Rattle.std.specs.Prelude.{◌≡◌, IfOk, map, string_bytes};
ghost use Rattle.std.specs.List.{AllByRecursion};
ghost use Rattle.rl_names.specs.declared.query.Only.{Only as only};
ghost use Rattle.rl_wire.specs.Line.{IsPart};
ghost use Rattle.rl_names.specs.Meant.{Gives};
ghost use Rattle.rl_build.specs.Sight.{sight};
ghost use Rattle.rl_build.specs.Payload.{version_of};
ghost use Rattle.rl_loadphp.specs.Served.{missing, payloads, query_context, served};
ghost use Rattle.rl_loadphp.specs.Body.{body_of, parts_of};
ghost use Rattle.rl_loadphp.specs.Answer.{answer_of, answer_to as answer_to_query, age_with, asked, kind_of, sent};
ghost use Rattle.rl_loadphp.specs.Refusal.{refusal_told};
ghost use Rattle.rl_loadphp.specs.Sent.{IsMadeOfPieces, SaysParts};
ghost use Rattle.rl_names.specs.Query.{query_of};

use crate::answers::{Answer, AnswerError, Kind};
use crate::lines::{Lines, modules};
use crate::serving::{Asked, names_viewer, sort_out};
use crate::texts::{scripts, styles};
use rl_build::Context;
use rl_defs::Catalog;
use rl_names::{
    MAX_ANSWER_BYTES, MAX_NAMES, MAX_QUERY_BYTES, NoMemory, Only, Query, Text, Version, combined,
    distinct, expand, expanded_count,
};
use rl_pages::{Pages, Viewer};
use std::alloc::Global;

/// For how many seconds an answer may be kept that is what the query's version tells: 30 days.
const LONG: u32 = 2_592_000;

/// For how many seconds any other answer may be kept.
const SHORT: u32 = 300;

/// The context that a query asks for.
pub fn read_context(alloc: Global, catalog: &Catalog, query: &Query) -> Result<Context, NoMemory>
    ensures { IfOk result (λ ctx. ctx ≡ query_context catalog.now query.now) }
{
    Context::read(
        alloc,
        catalog,
        query.lang.as_bytes(),
        query.skin.as_bytes(),
        query.debug,
    )
}

/// How long an answer may be kept that has these versions.
fn age(told: &str, versions: &[Version]) -> u32
    ensures { result ≡ age_with told.now versions.now }
{
    if !told.is_empty() && told == combined(versions).as_str() {
        LONG
    } else {
        SHORT
    }
}

/// A body and its age.
#[derive(Drop)]
struct Made {
    body: String,
    max_age: u32,
}

/// What was made, with its age.
fn aged(told: &str, made: Lines) -> Made
    ensures body { string_bytes result.body ≡ string_bytes made.body }
    ensures age { result.max_age ≡ age_with told.now made.versions.items }
{
    let max_age = age(told, &made.versions);
    Made {
        body: made.body,
        max_age,
    }
}

/// The body and its age; each payload is made once.
#[tactic(auto, using(crate::proofs::SortingLemmas::same_age))]
fn make(
    alloc: Global,
    catalog: &Catalog,
    pages: &Pages,
    viewer: &Viewer,
    ctx: &Context,
    query: &Query,
    names: &Asked,
) -> Result<Made, NoMemory>
    ensures body { IfOk result (λ m. string_bytes m.body
        ≡ body_of (sight catalog.now pages.now.entries viewer.now) ctx.now query.now.only names.now.served.items names.now.missing.items) }
    ensures age { IfOk result (λ m. m.max_age
        ≡ age_with query.now.version (map version_of (payloads (sight catalog.now pages.now.entries viewer.now) ctx.now names.now.served.items))) }
    ensures parts { IfOk result (λ _. query.now.only ≡ only.All → AllByRecursion IsPart
        (parts_of (sight catalog.now pages.now.entries viewer.now) ctx.now names.now.served.items names.now.missing.items)) }
{
    let told = query.version.as_str();
    let wanted = !told.is_empty();
    match query.only {
        Only::All => Ok(aged(told, modules(alloc, catalog, pages, viewer, ctx, names)?)),
        Only::Scripts => Ok(aged(
            told,
            scripts(alloc, catalog, pages, viewer, ctx, names, wanted)?,
        )),
        Only::Styles => Ok(aged(
            told,
            styles(alloc, catalog, pages, viewer, ctx, names, wanted)?,
        )),
    }
}

fn kind(only: Only) -> Kind
    ensures { result ≡ kind_of only }
{
    match only {
        Only::All | Only::Scripts => Kind::Script,
        Only::Styles => Kind::Style,
    }
}

/// The answer to a query, however many names it asks for and however long the answer is.
fn answer_to(
    alloc: Global,
    catalog: &Catalog,
    pages: &Pages,
    viewer: &Viewer,
    query: &Query,
) -> Result<Answer, NoMemory>
    ensures value { IfOk result (λ a. a ≡ answer_to_query (sight catalog.now pages.now.entries viewer.now) query.now) }
    ensures parts { IfOk result (λ _. query.now.only ≡ only.All → AllByRecursion IsPart
        (let s = sight catalog.now pages.now.entries viewer.now in
        parts_of s (query_context s.catalogue query.now) (served s query.now) (missing s query.now))) }
{
    let ctx = read_context(alloc, catalog, query)?;
    let asked = expand(alloc, query.modules.as_str())?;
    let names = distinct(alloc, &asked)?;
    let own = names_viewer(alloc, viewer, query.user.as_str())?;
    let names = sort_out(alloc, catalog, pages, viewer, &ctx, own, names)?;
    let made = make(alloc, catalog, pages, viewer, &ctx, query, &names)?;
    Ok(Answer {
        body: Text::from_string(made.body),
        kind: kind(query.only),
        max_age: made.max_age,
        private: !query.user.as_str().is_empty(),
    })
}

/// The query that bytes spell, unless it is too long or has too many names. One that is too long is
/// not read, and the names are counted and not made: a long front before many commas stands for much
/// more text than the query has.
pub fn read_query(alloc: Global, bytes: &[u8]) -> Result<Query, AnswerError>
    ensures { Gives refusal_told result (asked bytes.now) }
{
    let len = bytes.len() as u64;
    if len > MAX_QUERY_BYTES {
        return Err(AnswerError::QueryTooLong { len });
    }
    let query = Query::read(alloc, bytes)?;
    let count = expanded_count(query.modules.as_bytes()) as u64;
    if count > MAX_NAMES {
        return Err(AnswerError::TooManyNames { count });
    }
    Ok(query)
}

/// The answer, unless its body is too long to be sent.
fn sent(answer: Answer) -> Result<Answer, AnswerError>
    ensures { Gives refusal_told result (sent answer) }
{
    let len = answer.body.as_bytes().len() as u64;
    if len > MAX_ANSWER_BYTES {
        return Err(AnswerError::AnswerTooLong { len });
    }
    Ok(answer)
}

/// The answer that a wiki gives a viewer to the bytes of a query.
pub fn answer(
    alloc: Global,
    catalog: &Catalog,
    pages: &Pages,
    viewer: &Viewer,
    query: &[u8],
) -> Result<Answer, AnswerError>
    ensures answer { Gives refusal_told result (answer_of (sight catalog.now pages.now.entries viewer.now) query.now) }

    // Nothing of a private module is sent, nor of one that another wiki serves, nor of another
    // user's.
    ensures pieces { IfOk result (λ a. IsMadeOfPieces (sight catalog.now pages.now.entries viewer.now) (query_of query.now) a.body) }

    // Of an answer without `only` a reader gets parts: their names are names, and the keys of their messages ascend.
    ensures parts { IfOk result (λ a. SaysParts (query_of query.now) a.body) }
{
    let query = read_query(alloc, query)?;
    sent(answer_to(alloc, catalog, pages, viewer, &query)?)
}

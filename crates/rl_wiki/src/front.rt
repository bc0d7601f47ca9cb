//! The answer of a wiki to the bytes of a query.
ghost use Rattle.std.specs.Prelude.{◌≡◌, IfOk, true, false, Ok, codes};
ghost use Rattle.rl_names.specs.Meant.{Gives};
ghost use Rattle.rl_names.specs.Query.{query_of};
ghost use Rattle.rl_wire.specs.StartupReading.{startup_of};
ghost use Rattle.rl_build.specs.Sight.{sight};
ghost use Rattle.rl_loadphp.specs.Refusal.{refusal_told};
ghost use Rattle.rl_loadphp.specs.Sent.{IsMadeOfPieces, SaysParts};
ghost use Rattle.rl_loadphp.specs.Served.{query_context};
ghost use Rattle.rl_startup.specs.Registry.{start_of, startup_text_of};
ghost use Rattle.rl_wiki.specs.Front.{asks_startup, is_alone, reader_of, startup_answer, wiki_answer};

use rl_build::Context;
use rl_defs::Catalog;
use rl_loadphp::{Answer, AnswerError, Kind, answer, names_viewer, read_context, read_query};
use rl_names::{NoMemory, Only, Query, Text, distinct, expand};
use rl_pages::{Pages, Viewer};
use rl_startup::startup_text;
use std::alloc::Global;

/// For how many seconds a startup text may be kept.
const STARTUP_AGE: u32 = 300;

fn is_startup_alone(names: &[Text]) -> bool
    ensures { result ≡ is_alone (codes "startup") names.now }
{
    match names {
        [name] => name.as_str() == "startup",
        _ => false,
    }
}

/// Whether a query asks for the startup text: for the scripts alone, of `startup` alone.
fn asks_startup(alloc: Global, query: &Query) -> Result<bool, NoMemory>
    ensures { IfOk result (λ asks. asks ≡ asks_startup query.now) }
{
    match query.only {
        Only::Scripts => {
            let asked = expand(alloc, query.modules.as_str())?;
            let names = distinct(alloc, &asked)?;
            Ok(is_startup_alone(names.as_slice()))
        }
        Only::All | Only::Styles => Ok(false),
    }
}

/// The startup text of the viewer where they are the query's user, and else of nobody.
fn readers_text(
    alloc: Global,
    catalog: &Catalog,
    pages: &Pages,
    viewer: &Viewer,
    query: &Query,
) -> Result<Text, NoMemory>
    ensures text { IfOk result (λ t. t
        ≡ startup_text_of (sight catalog.now pages.now.entries (reader_of viewer.now query.now)) (query_context catalog.now query.now)) }
    ensures again { IfOk result (λ t. startup_of t
        ≡ Ok (start_of (sight catalog.now pages.now.entries (reader_of viewer.now query.now)) (query_context catalog.now query.now))) }
{
    let ctx = read_context(alloc, catalog, query)?;
    let own = names_viewer(alloc, viewer, query.user.as_str())?;
    if own {
        startup_text(alloc, catalog, pages, viewer, &ctx)
    } else {
        startup_text(alloc, catalog, pages, &Viewer::Anon, &ctx)
    }
}

/// The answer to a query that asks for the startup text.
fn startup_answer(
    alloc: Global,
    catalog: &Catalog,
    pages: &Pages,
    viewer: &Viewer,
    query: &Query,
) -> Result<Answer, NoMemory>
    ensures answer { IfOk result (λ a. a ≡ startup_answer catalog.now pages.now.entries viewer.now query.now) }
    ensures again { IfOk result (λ a. startup_of a.body
        ≡ Ok (start_of (sight catalog.now pages.now.entries (reader_of viewer.now query.now)) (query_context catalog.now query.now))) }
{
    let body = readers_text(alloc, catalog, pages, viewer, query)?;
    Ok(Answer {
        body,
        kind: Kind::Script,
        max_age: STARTUP_AGE,
        private: !query.user.as_str().is_empty(),
    })
}

/// The answer that a wiki gives a viewer to the bytes of a query.
pub(crate) fn wiki_answer(
    alloc: Global,
    catalog: &Catalog,
    pages: &Pages,
    viewer: &Viewer,
    bytes: &[u8],
) -> Result<Answer, AnswerError>
    ensures answer { Gives refusal_told result (wiki_answer catalog.now pages.now.entries viewer.now bytes.now) }

    // But for a startup text, nothing of a private module is sent, nor of one that another wiki serves, nor of another user's.
    ensures pieces { IfOk result (λ a. asks_startup (query_of bytes.now) ≡ false
        → IsMadeOfPieces (sight catalog.now pages.now.entries viewer.now) (query_of bytes.now) a.body) }

    // Of an answer without `only` a reader gets parts.
    ensures parts { IfOk result (λ a. SaysParts (query_of bytes.now) a.body) }

    // Of a startup text a client reads back what it starts from.
    ensures again { IfOk result (λ a. asks_startup (query_of bytes.now) ≡ true → startup_of a.body
        ≡ Ok (start_of (sight catalog.now pages.now.entries (reader_of viewer.now (query_of bytes.now))) (query_context catalog.now (query_of bytes.now)))) }
{
    let query = read_query(alloc, bytes)?;
    if asks_startup(alloc, &query)? {
        let started = startup_answer(alloc, catalog, pages, viewer, &query)?;
        Ok(started)
    } else {
        answer(alloc, catalog, pages, viewer, bytes)
    }
}

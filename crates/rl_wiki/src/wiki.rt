//! A wiki that is kept nowhere.
ghost use Rattle.std.specs.Prelude.{◌≡◌, [], length, IfOk, List, Ok, None, true, false};
ghost use Rattle.rl_names.specs.Meant.{Gives};
ghost use Rattle.rl_names.specs.Query.{query_of};
ghost use Rattle.rl_pages.specs.declared.entry.Entry.{Entry};
ghost use Rattle.rl_pages.specs.Refusals.{checked_edit, checked_choice, IsAccepted};
ghost use Rattle.rl_pages.specs.Viewer.{IsViewer};
ghost use Rattle.rl_pages.specs.Seen.{seen};
ghost use Rattle.rl_view_spec.specs.Breach.{breach_of};
ghost use Rattle.rl_wire.specs.StartupReading.{startup_of};
ghost use Rattle.rl_build.specs.Sight.{sight};
ghost use Rattle.rl_loadphp.specs.Embed.{embed_of, IsOfParts};
ghost use Rattle.rl_loadphp.specs.Refusal.{refusal_told};
ghost use Rattle.rl_loadphp.specs.Sent.{IsMadeOfPieces, SaysParts};
ghost use Rattle.rl_loadphp.specs.Served.{query_context};
ghost use Rattle.rl_startup.specs.Registry.{start_of, startup_text_of};
ghost use Rattle.rl_wiki.specs.Front.{asks_startup, reader_of, wiki_answer};
ghost use Rattle.rl_wiki.specs.Wiki.{Chooses, Edits};

use crate::front::wiki_answer;
use rl_build::Context;
use rl_defs::Catalog;
use rl_loadphp::{Answer, AnswerError, embed};
use rl_names::{NoMemory, Seq, Text};
use rl_pages::{ChoiceError, EditError, Pages, Policy, Viewer};
use rl_startup::startup_text;
use std::alloc::Global;
use std::marker::Model;

/// A wiki: its definitions, and the edits and choices that it took.
#[derive(Drop)]
pub struct Wiki {
    catalog: Catalog,

    /// Edits by the admins of the definitions.
    policy: Policy,

    pages: Pages,
}

impl Model for Wiki {
    ghost use Rattle.std.specs.Prelude.{◌≡◌};
    ghost use Rattle.rl_wiki.specs.Wiki.{WikiState};

    ghost Value = { WikiState };

    ghost view = { λ w. record { catalogue = w.catalog; entries = w.pages.entries } };

    ghost invariant = { λ w. w.policy.admins ≡ w.catalog.admins };
}

/// The rule of edits by the admins of a catalogue.
pub(crate) fn policy_of(alloc: Global, catalog: &Catalog) -> Result<Policy, NoMemory>
    ensures { IfOk result (λ p. p.admins ≡ catalog.now.admins) }
{
    let admins = copies(alloc, catalog.admins())?;
    Ok(Policy {
        admins: Seq::of(admins),
    })
}

fn copies(alloc: Global, texts: &[Text]) -> Result<Vec<Text>, NoMemory>
    ensures { IfOk result (λ v. v.items ≡ texts.now) }
{
    let mut copies = Vec::with_capacity(alloc, texts.len())?;
    'texts: for text in texts {
        copies.push(text.copy()?)?;
    }
    Ok(copies)
}

impl Wiki {
    /// A wiki without edits and choices.
    pub fn open(alloc: Global, catalog: Catalog) -> Result<Wiki, NoMemory>
        ensures { IfOk result (λ w. w ≡ record { catalogue = catalog; entries = [] }) }
    {
        let policy = policy_of(alloc, &catalog)?;
        let pages = Pages::empty(alloc)?;
        Ok(Wiki {
            catalog,
            policy,
            pages,
        })
    }

    /// Edits a page, and answers its new revision; or tells the first rule that the edit breaks.
    pub fn edit(
        &mut self,
        viewer: &Viewer,
        title: &[u8],
        base: u64,
        text: &str,
    ) -> Result<u64, EditError>
        requires { IsViewer viewer.now }
        ensures answer { Edits result (checked_edit self.old.catalogue.admins self.old.entries viewer.now title.now base text.now)
            self.old.entries self.new.entries }
        ensures catalogue { self.new.catalogue ≡ self.old.catalogue }
    {
        let entry = self
            .pages
            .check_edit(&self.policy, viewer, title, base, text)?;
        Ok(self.pages.commit(entry))
    }

    /// Sets an option of the viewer, and answers the number of the entry; or tells the first rule that the choice breaks.
    pub fn set_choice(
        &mut self,
        viewer: &Viewer,
        key: &str,
        value: &str,
    ) -> Result<u64, ChoiceError>
        requires { IsViewer viewer.now }
        ensures answer { Chooses result (checked_choice self.old.entries viewer.now key.now value.now) self.old.entries self.new.entries }
        ensures catalogue { self.new.catalogue ≡ self.old.catalogue }
    {
        let entry = self.pages.check_choice(viewer, key, value)?;
        Ok(self.pages.commit(entry))
    }

    /// The answer to the bytes of a query: the startup text where that is all that the query asks for, of the viewer where the
    /// query names them as its user, and else of nobody; what the modules bring that it names, in any other query.
    pub fn answer(
        &self,
        alloc: Global,
        viewer: &Viewer,
        query: &[u8],
    ) -> Result<Answer, AnswerError>
        ensures answer { Gives refusal_told result (wiki_answer self.now.catalogue self.now.entries viewer.now query.now) }

        // But for a startup text, nothing of a private module is sent, nor of one that another wiki serves, nor of another user's.
        ensures pieces { IfOk result (λ a. asks_startup (query_of query.now) ≡ false
            → IsMadeOfPieces (sight self.now.catalogue self.now.entries viewer.now) (query_of query.now) a.body) }

        // Of an answer without `only` a reader gets parts.
        ensures parts { IfOk result (λ a. SaysParts (query_of query.now) a.body) }

        // Of a startup text a client reads back what it starts from.
        ensures again { IfOk result (λ a. asks_startup (query_of query.now) ≡ true → startup_of a.body
            ≡ Ok (start_of (sight self.now.catalogue self.now.entries (reader_of viewer.now (query_of query.now)))
            (query_context self.now.catalogue (query_of query.now)))) }

        // What the viewer does not see of the history changes nothing.
        ensures isolation { (others : List Entry) → seen viewer.now self.now.entries ≡ seen viewer.now others
            → Gives refusal_told result (wiki_answer self.now.catalogue others viewer.now query.now) }
    {
        wiki_answer(alloc, &self.catalog, &self.pages, viewer, query)
    }

    /// The text that is embedded in a page of the viewer: the private modules, in byte order of their names.
    pub fn embed(&self, alloc: Global, viewer: &Viewer, ctx: &Context) -> Result<Text, NoMemory>
        ensures text { IfOk result (λ t. t ≡ embed_of (sight self.now.catalogue self.now.entries viewer.now) ctx.now) }

        // A reader gets parts of it.
        ensures parts { IfOk result IsOfParts }

        // What the viewer does not see of the history changes nothing.
        ensures isolation { IfOk result (λ t. (others : List Entry) → seen viewer.now self.now.entries ≡ seen viewer.now others
            → t ≡ embed_of (sight self.now.catalogue others viewer.now) ctx.now) }
    {
        embed(alloc, &self.catalog, &self.pages, viewer, ctx)
    }

    /// How many edits and choices were taken.
    pub fn revisions(&self) -> u64
        ensures value { result ≡ length self.now.entries }

        // Every history is within its limits, and each entry keeps the rules of kept entries.
        ensures accepted { IsAccepted self.now.entries }
    {
        self.pages.entry_count()
    }

    /// The history.
    pub fn pages(&self) -> &Pages
        ensures { result.now.entries ≡ self.now.entries }
    {
        &self.pages
    }

    /// The startup text for a viewer: what the viewer's client starts from.
    pub fn startup(&self, alloc: Global, viewer: &Viewer, ctx: &Context) -> Result<Text, NoMemory>
        ensures text { IfOk result (λ t. t ≡ startup_text_of (sight self.now.catalogue self.now.entries viewer.now) ctx.now) }

        // A client reads back what it starts from, and a registry takes its rows.
        ensures again { IfOk result (λ t. startup_of t ≡ Ok (start_of (sight self.now.catalogue self.now.entries viewer.now) ctx.now)) }
        ensures lawful { IfOk result (λ _. breach_of (start_of (sight self.now.catalogue self.now.entries viewer.now) ctx.now).rows ≡ None) }

        // What the viewer does not see of the history changes nothing.
        ensures isolation { IfOk result (λ t. (others : List Entry) → seen viewer.now self.now.entries ≡ seen viewer.now others
            → t ≡ startup_text_of (sight self.now.catalogue others viewer.now) ctx.now) }
    {
        startup_text(alloc, &self.catalog, &self.pages, viewer, ctx)
    }

    /// The definitions.
    pub fn catalog(&self) -> &Catalog
        ensures { result.now ≡ self.now.catalogue }
    {
        &self.catalog
    }
}

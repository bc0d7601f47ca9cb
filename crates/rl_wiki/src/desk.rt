//! A wiki over a keeper: what is taken is kept first, and stands in the history only then.
ghost use Rattle.std.specs.Prelude.{◌≡◌, ◌≤◌, length, None, IfErr, IfOk, IsErrOf, List, option_map, Ok, true, false};
ghost use Rattle.rl_names.specs.Meant.{Gives};
ghost use Rattle.rl_names.specs.Query.{query_of};
ghost use Rattle.rl_base.specs.Causes.{Rose};
ghost use Rattle.rl_pages.specs.declared.entry.Entry.{Entry};
ghost use Rattle.rl_pages.specs.History.{revision_of};
ghost use Rattle.rl_pages.specs.Refusals.{checked_edit, checked_choice, IsAccepted};
ghost use Rattle.rl_pages.specs.Viewer.{IsViewer};
ghost use Rattle.rl_pages.specs.Seen.{seen};
ghost use Rattle.rl_view_spec.specs.Breach.{breach_of};
ghost use Rattle.rl_wire.specs.StartupReading.{startup_of};
ghost use Rattle.rl_build.specs.Sight.{sight};
ghost use Rattle.rl_loadphp.specs.Refusal.{refusal_told};
ghost use Rattle.rl_loadphp.specs.Sent.{IsMadeOfPieces, SaysParts};
ghost use Rattle.rl_loadphp.specs.Served.{query_context};
ghost use Rattle.rl_startup.specs.Registry.{start_of, startup_text_of};
ghost use Rattle.rl_wiki.specs.Desk.{AreTogether, ChoosesDesk, EditsDesk, RefusesToOpen};
ghost use Rattle.rl_wiki.specs.Front.{asks_startup, reader_of, wiki_answer};
ghost use Rattle.rl_wiki.specs.Opening.{first_bad, WereRead};

use crate::error::{DeskChoiceError, DeskEditError, OpenError, Turned};
use crate::front::wiki_answer;
use crate::opening::history_of;
use crate::wiki::policy_of;
use rl_build::Context;
use rl_defs::Catalog;
use rl_keeper::{Keeper, KeeperError};
use rl_loadphp::{Answer, AnswerError};
use rl_names::{NoMemory, Text, Title};
use rl_pages::{Pages, Policy, Viewer};
use rl_startup::startup_text;
use std::alloc::Global;
use std::marker::Model;

/// A wiki whose entries a keeper holds. Where the keeper tells its entries, they are those of the history, always.
#[derive(Drop)]
pub struct Desk<K: Keeper> {
    catalog: Catalog,

    /// Edits by the admins of the definitions.
    policy: Policy,

    pages: Pages,
    keeper: K,
}

impl<K: Keeper> Model for Desk<K> {
    ghost use Rattle.std.specs.Prelude.{◌≡◌};
    ghost use Rattle.rl_wiki.specs.Desk.{AreTogether, DeskState};

    ghost Value = { DeskState K };

    ghost view = { λ d. record { catalogue = d.catalog; entries = d.pages.entries; keeper = d.keeper } };

    ghost invariant = { λ d. (d.policy.admins ≡ d.catalog.admins) × AreTogether (K.entries d.keeper) d.pages.entries };
}

impl<K: Keeper> Desk<K> {
    /// A desk whose history is what the keeper holds. Each refusal hands the keeper back. The rule of edits is not asked
    /// again, since the admins may have changed.
    pub fn open(alloc: Global, keeper: K, catalog: Catalog) -> Result<Desk<K>, Turned<K>>
        ensures ok { IfOk result (λ d. WereRead (K.entries keeper) d.entries × (first_bad d.entries ≡ None) × (d.catalogue ≡ catalog)) }
        ensures stays { IfOk result (λ d. K.entries d.keeper ≡ K.entries keeper) }
        ensures refused { IfErr result (λ e. RefusesToOpen (K.entries keeper) e.why) }
        ensures handed_back { IfErr result (λ e. K.entries e.keeper ≡ K.entries keeper) }
        ensures failed { IfErr result (λ e. e.why ≡ OpenError.Failed → Rose (K.faults keeper) (K.faults e.keeper)) }
        ensures never_falls { IfOk result (λ d. K.faults keeper ≤ K.faults d.keeper) }
    {
        let mut keeper = keeper;
        let entries = match keeper.read_all() {
            Ok(entries) => entries,
            Err(KeeperError::Failed) => {
                return Err(Turned {
                    keeper,
                    why: OpenError::Failed,
                });
            }
            Err(KeeperError::NoMemory) => {
                return Err(Turned {
                    keeper,
                    why: OpenError::NoMemory,
                });
            }
        };
        let Ok(policy) = policy_of(alloc, &catalog) else {
            return Err(Turned {
                keeper,
                why: OpenError::NoMemory,
            });
        };
        match history_of(alloc, &entries) {
            Ok(pages) => Ok(Desk {
                catalog,
                policy,
                pages,
                keeper,
            }),
            Err(why) => Err(Turned { keeper, why }),
        }
    }

    /// Edits a page, and answers its new revision; or tells the first rule that the edit breaks. The entry is kept before
    /// it stands in the history. After a refusal both are as before.
    pub fn edit(
        &mut self,
        viewer: &Viewer,
        title: &[u8],
        base: u64,
        text: &str,
    ) -> Result<u64, DeskEditError>
        requires { IsViewer viewer.now }
        ensures answer { EditsDesk result (checked_edit self.old.catalogue.admins self.old.entries viewer.now title.now base text.now)
            self.old.entries self.new.entries }
        ensures catalogue { self.new.catalogue ≡ self.old.catalogue }

        // A keeper that tells its entries tells the history after the call too.
        ensures told { K.entries self.new.keeper ≡ option_map (λ _. self.new.entries) (K.entries self.old.keeper) }
        ensures failed { IsErrOf result DeskEditError.Failed → Rose (K.faults self.old.keeper) (K.faults self.new.keeper) }
        ensures never_falls { K.faults self.old.keeper ≤ K.faults self.new.keeper }
    {
        let entry = self
            .pages
            .check_edit(&self.policy, viewer, title, base, text)?;
        let number = self.pages.entry_count() + 1;
        match self.keeper.append(number, &entry) {
            Ok(()) => Ok(self.pages.commit(entry)),
            Err(KeeperError::Failed) => Err(DeskEditError::Failed),
            Err(KeeperError::NoMemory) => Err(DeskEditError::NoMemory),
        }
    }

    /// Sets an option of the viewer, and answers the number of the entry; or tells the first rule that the choice breaks.
    /// The entry is kept before it stands in the history. After a refusal both are as before.
    pub fn set_choice(
        &mut self,
        viewer: &Viewer,
        key: &str,
        value: &str,
    ) -> Result<u64, DeskChoiceError>
        requires { IsViewer viewer.now }
        ensures answer { ChoosesDesk result (checked_choice self.old.entries viewer.now key.now value.now) self.old.entries self.new.entries }
        ensures catalogue { self.new.catalogue ≡ self.old.catalogue }

        // A keeper that tells its entries tells the history after the call too.
        ensures told { K.entries self.new.keeper ≡ option_map (λ _. self.new.entries) (K.entries self.old.keeper) }
        ensures failed { IsErrOf result DeskChoiceError.Failed → Rose (K.faults self.old.keeper) (K.faults self.new.keeper) }
        ensures never_falls { K.faults self.old.keeper ≤ K.faults self.new.keeper }
    {
        let entry = self.pages.check_choice(viewer, key, value)?;
        let number = self.pages.entry_count() + 1;
        match self.keeper.append(number, &entry) {
            Ok(()) => Ok(self.pages.commit(entry)),
            Err(KeeperError::Failed) => Err(DeskChoiceError::Failed),
            Err(KeeperError::NoMemory) => Err(DeskChoiceError::NoMemory),
        }
    }

    /// The answer to the bytes of a query: the startup text where that is all that the query asks for, of the viewer where the
    /// query names them as its user, and else of nobody; what the modules bring that it names, in any other query.
    pub fn answer(
        &self,
        alloc: Global,
        viewer: &Viewer,
        query: &[u8],
    ) -> Result<Answer, AnswerError>
        ensures answer { Gives refusal_told result (wiki_answer self.now.catalogue self.now.entries viewer.now query.now) }

        // But for a startup text, nothing of a private module is sent, nor of one that another wiki serves, nor of another user's.
        ensures pieces { IfOk result (λ a. asks_startup (query_of query.now) ≡ false
            → IsMadeOfPieces (sight self.now.catalogue self.now.entries viewer.now) (query_of query.now) a.body) }

        // Of an answer without `only` a reader gets parts.
        ensures parts { IfOk result (λ a. SaysParts (query_of query.now) a.body) }

        // Of a startup text a client reads back what it starts from.
        ensures again { IfOk result (λ a. asks_startup (query_of query.now) ≡ true → startup_of a.body
            ≡ Ok (start_of (sight self.now.catalogue self.now.entries (reader_of viewer.now (query_of query.now)))
            (query_context self.now.catalogue (query_of query.now)))) }

        // What the viewer does not see of the history changes nothing.
        ensures isolation { (others : List Entry) → seen viewer.now self.now.entries ≡ seen viewer.now others
            → Gives refusal_told result (wiki_answer self.now.catalogue others viewer.now query.now) }
    {
        wiki_answer(alloc, &self.catalog, &self.pages, viewer, query)
    }

    /// How many entries the history has.
    pub fn revisions(&self) -> u64
        ensures value { result ≡ length self.now.entries }

        // Every history is within its limits, and each entry keeps the rules of kept entries.
        ensures accepted { IsAccepted self.now.entries }
        ensures together { AreTogether (K.entries self.now.keeper) self.now.entries }
    {
        self.pages.entry_count()
    }

    /// The revision of a page: the number of its last edit, and 0 for no page.
    pub fn revision_of(&self, title: &Title) -> u64
        ensures { result ≡ revision_of self.now.entries title.now }
    {
        self.pages.revision_of(title)
    }

    /// The history.
    pub fn pages(&self) -> &Pages
        ensures { result.now.entries ≡ self.now.entries }
    {
        &self.pages
    }

    /// The startup text for a viewer: what the viewer's client starts from.
    pub fn startup(&self, alloc: Global, viewer: &Viewer, ctx: &Context) -> Result<Text, NoMemory>
        ensures text { IfOk result (λ t. t ≡ startup_text_of (sight self.now.catalogue self.now.entries viewer.now) ctx.now) }

        // A client reads back what it starts from, and a registry takes its rows.
        ensures again { IfOk result (λ t. startup_of t ≡ Ok (start_of (sight self.now.catalogue self.now.entries viewer.now) ctx.now)) }
        ensures lawful { IfOk result (λ _. breach_of (start_of (sight self.now.catalogue self.now.entries viewer.now) ctx.now).rows ≡ None) }

        // What the viewer does not see of the history changes nothing.
        ensures isolation { IfOk result (λ t. (others : List Entry) → seen viewer.now self.now.entries ≡ seen viewer.now others
            → t ≡ startup_text_of (sight self.now.catalogue others viewer.now) ctx.now) }
    {
        startup_text(alloc, &self.catalog, &self.pages, viewer, ctx)
    }

    /// The definitions.
    pub fn catalog(&self) -> &Catalog
        ensures { result.now ≡ self.now.catalogue }
    {
        &self.catalog
    }

    /// The keeper's count of faults.
    pub fn fault_count(&self) -> u64
        ensures { result ≡ K.faults self.now.keeper }
    {
        self.keeper.fault_count()
    }

    /// The keeper. The history is let go.
    pub fn close(self) -> K
        ensures { result ≡ self.keeper }
    {
        let Desk {
            catalog: _,
            policy: _,
            pages: _,
            keeper,
        } = self;
        keeper
    }
}

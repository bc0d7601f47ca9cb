//! A page view with those who are told of what executes.
ghost use Rattle.std.specs.Prelude.{◌≡◌, ◌<◌, ◌++◌, ℕ, List, Bool, IfErr, IfOk, Ok, Err, length, map, option_map, reverse, slice_get, Some};
ghost use Rattle.std.specs.List.{list_any};
ghost use Rattle.rl_names.specs.declared.name.Key.{Key};
ghost use Rattle.rl_batch.specs.Given.{IsBase};
ghost use Rattle.rl_book_spec.specs.Kept.{IsBook, is_due, plan_in, registered_in, traffic_in};
ghost use Rattle.rl_book_spec.specs.Traffic.{all_settled};
ghost use Rattle.rl_book.specs.Calls.{IsRun, Loses, Rests, Resumes, StateIs, Takes, batch_at, has_waiting, is_lost_at, is_settled_at};
ghost use Rattle.rl_book.specs.Opens.{Opens};
ghost use Rattle.rl_book.specs.Serving.{Delivers, LoadsEach, RequestsAll};

use crate::answer::{Ask, Lost, Run};
use crate::boxes::Boxes;
use crate::error::{DeliverError, LoseRefusal, OpenError, UsingError};
use crate::visit::{Visit, VisitTurned};
use rl_base::{Hears, Observer};
use rl_book_spec::{Call, Mark, Plan, Took};
use rl_names::{NoMemory, Text};
use rl_registry::Registry;
use rl_states::Phase;
use rl_store::Store;
use std::alloc::Global;

/// One page view, and the observers who are told of what executes.
#[derive(Drop)]
pub struct Book {
    pub visit: Visit,
    pub observers: Boxes,
}

/// Why a book does not open, with the store and the observers that were handed in.
#[derive(Drop)]
pub struct Turned {
    pub why: OpenError,
    pub store: Store,
    pub observers: Vec<Box<dyn Observer + Send>>,
}

/// What is left of a view that ended.
#[derive(Drop)]
pub struct Closed {
    pub observers: Vec<Box<dyn Observer + Send>>,
}

impl Book {
    /// Opens a view over a startup text, a plan and a store, for these observers. The plan's query has no modules and no
    /// version. Where it does not open, the store and the observers are handed back.
    pub fn open(
        alloc: Global,
        startup: &[u8],
        plan: Plan,
        store: Store,
        observers: Vec<Box<dyn Observer + Send>>,
    ) -> Result<Book, Turned>
        requires { IsBase plan.base }
        ensures opens { IfOk result (λ book. Opens (Ok book.visit) startup.now plan store.pairs) }
        ensures refused { IfErr result (λ turned. Opens (Err turned.why) startup.now plan store.pairs) }
        ensures kept { IfOk result (λ book. book.observers.all ≡ observers) }
        ensures back { IfErr result (λ turned. (turned.store ≡ store) × (turned.observers ≡ observers)) }
    {
        match Visit::open(alloc, startup, plan, store) {
            Ok(visit) => Ok(Book {
                visit,
                observers: Boxes { all: observers },
            }),
            Err(VisitTurned { why, store }) => Err(Turned {
                why,
                store,
                observers,
            }),
        }
    }

    /// Requests names together, or refuses them all. First what was due executes, then what the request made due.
    pub fn using(&mut self, names: &[Text]) -> Result<(), UsingError>
        ensures serves { RequestsAll (λ k s. list_any (λ o. throws o k s) self.old.observers.all.items) result names.now self.old.visit self.new.visit
            (map (λ o. ran o) self.old.observers.all.items) (map (λ o. ran o) self.new.observers.all.items) }
        ensures same { (map (λ o. o.ptr) self.new.observers.all.items ≡ map (λ o. o.ptr) self.old.observers.all.items)
            × (map (λ o. o.vtable) self.new.observers.all.items ≡ map (λ o. o.vtable) self.old.observers.all.items) }
        ensures throws_stay { (k : Key) (s : List ℕ)
            → map (λ o. throws o k s) self.new.observers.all.items ≡ map (λ o. throws o k s) self.old.observers.all.items }
    {
        self.visit.using(names, &mut self.observers)
    }

    /// Requests each of the names that resolves, and answers at how many places the name was dropped. First what was due
    /// executes, then what the request made due.
    pub fn load(&mut self, names: &[Text]) -> Result<u32, NoMemory>
        ensures serves { LoadsEach (λ k s. list_any (λ o. throws o k s) self.old.observers.all.items) result names.now self.old.visit self.new.visit
            (map (λ o. ran o) self.old.observers.all.items) (map (λ o. ran o) self.new.observers.all.items) }
        ensures same { (map (λ o. o.ptr) self.new.observers.all.items ≡ map (λ o. o.ptr) self.old.observers.all.items)
            × (map (λ o. o.vtable) self.new.observers.all.items ≡ map (λ o. o.vtable) self.old.observers.all.items) }
        ensures throws_stay { (k : Key) (s : List ℕ)
            → map (λ o. throws o k s) self.new.observers.all.items ≡ map (λ o. throws o k s) self.old.observers.all.items }
    {
        self.visit.load(names, &mut self.observers)
    }

    /// The next ask, for the batch that waits first. None exactly where no batch waits.
    pub fn take(&mut self) -> Result<Option<Ask>, NoMemory>
        ensures takes { Takes result self.old.visit self.new.visit }
        ensures unheard { self.new.observers ≡ self.old.observers }
    {
        self.visit.take()
    }

    /// Takes what was delivered to an ask, and tells what became of its parts. What is no answer counts as a loss of the ask,
    /// where it may be lost. First what was due executes, then what the answer made due.
    pub fn deliver(&mut self, ask: u32, bytes: &[u8], mark: Mark) -> Result<Took, DeliverError>
        ensures serves { Delivers (λ k s. list_any (λ o. throws o k s) self.old.observers.all.items) result ask bytes.now mark self.old.visit self.new.visit
            (map (λ o. ran o) self.old.observers.all.items) (map (λ o. ran o) self.new.observers.all.items) }
        ensures same { (map (λ o. o.ptr) self.new.observers.all.items ≡ map (λ o. o.ptr) self.old.observers.all.items)
            × (map (λ o. o.vtable) self.new.observers.all.items ≡ map (λ o. o.vtable) self.old.observers.all.items) }
        ensures throws_stay { (k : Key) (s : List ℕ)
            → map (λ o. throws o k s) self.new.observers.all.items ≡ map (λ o. throws o k s) self.old.observers.all.items }
    {
        self.visit.deliver(ask, bytes, mark, &mut self.observers)
    }

    /// Notes that no answer to an ask will come. It takes no memory.
    pub fn lose(&mut self, ask: u32, mark: Option<Mark>) -> Result<Lost, LoseRefusal>
        ensures loses { Loses result ask mark self.old.visit self.new.visit }
        ensures unheard { self.new.observers ≡ self.old.observers }
    {
        self.visit.lose(ask, mark)
    }

    /// Whether rows may execute that did not for want of memory.
    pub fn due(&self) -> bool
        ensures due { result ≡ is_due self.now.visit }
        ensures book { IsBook self.now.visit }
    {
        self.visit.due()
    }

    /// Executes all that is due, the row of least number first. Where memory runs out the first rows executed, and others are
    /// due.
    pub fn resume(&mut self) -> Result<(), NoMemory>
        ensures serves { Resumes (λ k s. list_any (λ o. throws o k s) self.old.observers.all.items) result self.old.visit self.new.visit
            (map (λ o. ran o) self.old.observers.all.items) (map (λ o. ran o) self.new.observers.all.items) }
        ensures same { (map (λ o. o.ptr) self.new.observers.all.items ≡ map (λ o. o.ptr) self.old.observers.all.items)
            × (map (λ o. o.vtable) self.new.observers.all.items ≡ map (λ o. o.vtable) self.old.observers.all.items) }
        ensures throws_stay { (k : Key) (s : List ℕ)
            → map (λ o. throws o k s) self.new.observers.all.items ≡ map (λ o. throws o k s) self.old.observers.all.items }
    {
        self.visit.resume(&mut self.observers)
    }

    /// Whether each batch was answered or given up.
    pub fn settled(&self) -> bool
        ensures { result ≡ all_settled (traffic_in self.now.visit) }
    {
        self.visit.settled()
    }

    /// Whether a batch waits.
    pub fn waiting(&self) -> bool
        ensures { result ≡ has_waiting (traffic_in self.now.visit) }
    {
        self.visit.waiting()
    }

    /// The state of a name, where it has a row. While executions are due nothing is said of it.
    pub fn state_of(&self, name: &[u8]) -> Option<Phase>
        ensures { StateIs self.now.visit name.now result }
    {
        self.visit.state_of(name)
    }

    /// The rows, with the versions that they have by now.
    pub fn registry(&self) -> &Registry
        ensures { result.now ≡ registered_in self.now.visit }
    {
        self.visit.registry()
    }

    /// What it was opened with, beside the startup text.
    pub fn plan(&self) -> &Plan
        ensures { result.now ≡ plan_in self.now.visit }
    {
        self.visit.plan()
    }

    /// The startup text that it was opened with.
    pub fn opening_startup(&self) -> &[u8]
        ensures { result.now ≡ self.now.visit.startup }
    {
        self.visit.opening_startup()
    }

    /// How many calls were taken in.
    pub fn call_count(&self) -> u32
        ensures { result ≡ length self.now.visit.past }
    {
        self.visit.call_count()
    }

    /// A call, of which the first has the number 0.
    pub fn call_at(&self, at: u32) -> &Call
        requires { at < length self.now.visit.past }
        ensures { slice_get (reverse self.now.visit.past) at ≡ Some result.now }
    {
        self.visit.call_at(at)
    }

    /// How many rows executed.
    pub fn run_count(&self) -> u32
        ensures { result ≡ length self.now.visit.ran }
    {
        self.visit.run_count()
    }

    /// An execution, of which the first has the number 0.
    pub fn run_at(&self, at: u32) -> &Run
        requires { at < length self.now.visit.ran }
        ensures { (ran : ℕ × Bool) → slice_get self.now.visit.ran at ≡ Some ran → IsRun self.now.visit ran result.now }
    {
        self.visit.run_at(at)
    }

    /// How many asks were taken.
    pub fn ask_count(&self) -> u32
        ensures { result ≡ length (traffic_in self.now.visit).asks }
    {
        self.visit.ask_count()
    }

    /// The source that an ask is sent to; the empty one is this wiki.
    pub fn ask_source(&self, at: u32) -> &[u8]
        requires { at < length (traffic_in self.now.visit).asks }
        ensures { option_map (λ batch. batch.source) (batch_at (traffic_in self.now.visit) at) ≡ Some result.now }
    {
        self.visit.ask_source(at)
    }

    /// The query that an ask is sent with.
    pub fn ask_query(&self, at: u32) -> &[u8]
        requires { at < length (traffic_in self.now.visit).asks }
        ensures { option_map (λ batch. batch.query) (batch_at (traffic_in self.now.visit) at) ≡ Some result.now }
    {
        self.visit.ask_query(at)
    }

    /// Whether an ask was lost.
    pub fn ask_lost(&self, at: u32) -> bool
        requires { at < length (traffic_in self.now.visit).asks }
        ensures { result ≡ is_lost_at (traffic_in self.now.visit) at }
    {
        self.visit.ask_lost(at)
    }

    /// Whether the batch of an ask was answered or given up.
    pub fn ask_settled(&self, at: u32) -> bool
        requires { at < length (traffic_in self.now.visit).asks }
        ensures { result ≡ is_settled_at (traffic_in self.now.visit) at }
    {
        self.visit.ask_settled(at)
    }

    /// Ends the view once nothing is due.
    pub fn close(self) -> Closed
        requires { Rests self.visit }
        ensures { result.observers ≡ self.observers.all }
    {
        Closed {
            observers: self.leave(),
        }
    }

    /// Ends the view at any moment, and hands back the observers in their order.
    pub fn leave(self) -> Vec<Box<dyn Observer + Send>>
        ensures { result ≡ self.observers.all }
    {
        let Book {
            visit: _,
            observers,
        } = self;
        observers.all
    }
}

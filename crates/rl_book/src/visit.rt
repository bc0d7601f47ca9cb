//! A page view from its opening on: its calls, and all that follows of them.
ghost use Rattle.std.specs.Prelude.{◌≡◌, ◌<◌, ◌≤◌, ◌++◌, ◌∷◌, [], ℕ, List, Bool, false, IfErr, IfOk, IsTrue, OnOk, OnErr, Some};
ghost use Rattle.std.specs.Prelude.{length, option_map, reverse, slice_get, Ok, Err};
ghost use Rattle.rl_names.specs.declared.name.Key.{Key};
ghost use Rattle.rl_batch.specs.Given.{IsBase};
ghost use Rattle.rl_batch.specs.Requests.{MayBeLost};
ghost use Rattle.rl_wire.specs.Reading.{answer_of};
ghost use Rattle.rl_book_spec.specs.Given.{took_by};
ghost use Rattle.rl_book_spec.specs.Kept.{IsBook, Notes, is_due, plan_in, registered_in, traffic_in};
ghost use Rattle.rl_book_spec.specs.Traffic.{all_settled, asked_of};
ghost use Rattle.rl_book_spec.specs.declared.Asked.{Asked};
ghost use Rattle.rl_book_spec.specs.declared.Call.TheVariants.{Take, Deliver, Lose};
ghost use Rattle.rl_book_spec.specs.declared.Sent.{Sent};
ghost use Rattle.rl_book.specs.Calls.{ExecutesNext, IsRun, Loses, Refuses, Rests, Resumes, StateIs, Takes, batch_at, due_row, has_waiting};
ghost use Rattle.rl_book.specs.Calls.{is_answered, is_lost_at, is_settled_at, losses_at, next_ask};
ghost use Rattle.rl_book.specs.Opens.{IsReady, Opens};
ghost use Rattle.rl_book.specs.Serving.{Delivers, LoadsEach, NotesDelivery, NotesLoad, NotesUsing, RequestsAll};

use crate::answer::{Ask, Lost, Run};
use crate::delivering::deliver_parts;
use crate::error::{DeliverError, LoseRefusal, OpenError, UsingError};
use crate::given::Delivered;
use crate::giving::{give_up_at_third, lose_open, losses_of};
use crate::held::Held;
use crate::opening::{Ready, prepare};
use crate::requesting::{load, request};
use crate::running::run_with;
use crate::serving::{copies, make_room};
use rl_base::Hears;
use rl_batch::Requests;
use rl_batch::requests::is_settled;
use rl_book_spec::{Call, Mark, Origin, Plan, Took};
use rl_names::{Blob, NoMemory, Seq, Text};
use rl_registry::{Registry, ResolveError};
use rl_states::{Phase, Table};
use rl_store::Store;
use rl_view::uncounted;
use rl_wire::{Part, WireError, read_answer};
use std::alloc::Global;
use std::marker::{Brand, Model};
use std::sync::ledger::Blank;

/// One page view, from its opening on, but for those who are told of what executes.
#[derive(Drop)]
pub struct Visit {
    alloc: Global,
    startup: Blob,
    plan: Plan,

    /// What the embedded text brings, the store, and what each row is given of them.
    held: Held,

    table: Table,

    /// For each row the part of an answer that it took, if it took one.
    delivered: Vec<Option<Delivered>>,

    requests: Requests,
    calls: Vec<Call>,

    /// There is room for each row.
    runs: Vec<Run>,
}

/// Why a view does not open, with the store that was handed in.
#[derive(Drop)]
pub struct VisitTurned {
    pub why: OpenError,
    pub store: Store,
}

impl Model for Visit {
    ghost use Rattle.rl_book_spec.specs.Kept.{Booked};
    ghost use Rattle.rl_book.specs.Kept.{booked, IsKept};

    ghost Value = { Booked };

    ghost view = { booked };

    ghost invariant = { IsKept };
}

impl Visit {
    /// A view over what was read and made room for, and the store that was looked into.
    fn over(alloc: Global, ready: Ready, plan: Plan, store: Store) -> Visit
        requires base { IsBase plan.base }
        requires ready { (startup : List ℕ) × IsReady ready startup plan store.pairs }
        ensures { (startup : List ℕ) → IsReady ready startup plan store.pairs → Opens (Ok result) startup plan store.pairs }
    {
        Visit {
            alloc,
            startup: ready.startup,
            plan,
            held: Held {
                embedded: ready.embedded,
                store,
                places: ready.places,
            },
            table: ready.table,
            delivered: ready.delivered,
            requests: Requests::new(alloc),
            calls: Vec::new(alloc),
            runs: ready.runs,
        }
    }

    /// Opens a view over a startup text, a plan and a store. The plan's query has no modules and no version. Where it does
    /// not open the store is handed back.
    pub fn open(
        alloc: Global,
        startup: &[u8],
        plan: Plan,
        store: Store,
    ) -> Result<Visit, VisitTurned>
        requires { IsBase plan.base }
        ensures opens { IfOk result (λ visit. Opens (Ok visit) startup.now plan store.pairs) }
        ensures refused { IfErr result (λ turned. Opens (Err turned.why) startup.now plan store.pairs) }
        ensures back { IfErr result (λ turned. turned.store ≡ store) }
    {
        match prepare(alloc, startup, &plan, &store) {
            Ok(ready) => Ok(Visit::over(alloc, ready, plan, store)),
            Err(why) => Err(VisitTurned { why, store }),
        }
    }

    /// What is asked for next.
    fn next_ask(&self) -> Result<Option<Ask>, NoMemory>
        ensures { IfOk result (λ ask. ask ≡ next_ask (traffic_in self.now)) }
    {
        let Some(batch) = self.requests.first_waiting() else {
            return Ok(None);
        };
        Ok(Some(Ask {
            number: self.requests.ask_count(),
            source: batch.source.copy()?,
            query: batch.query.copy()?,
        }))
    }

    /// Takes the batch that waits first, and makes room for the loss of its ask.
    fn take_first(&mut self) -> Result<(), NoMemory>
        ensures ok { OnOk result (Notes Take self.old self.new) }
        ensures err { OnErr result (self.new ≡ self.old) }
    {
        make_room(&mut self.calls, &self.requests)?;
        self.requests.take()?;
        self.calls.push_reserved(Call::Take);
        Ok(())
    }

    /// The next ask, for the batch that waits first. None exactly where no batch waits.
    pub fn take(&mut self) -> Result<Option<Ask>, NoMemory>
        ensures { Takes result self.old self.new }
    {
        let ask = self.next_ask()?;
        self.take_first()?;
        Ok(ask)
    }

    /// How many asks of the batch of this one were lost, where it may be lost.
    fn losses(&self, ask: u32) -> Result<u32, LoseRefusal>
        ensures ok { IfOk result (λ losses. MayBeLost (traffic_in self.now) ask × (losses ≡ losses_at (traffic_in self.now) ask)) }
        ensures err { IfErr result (λ refusal. Refuses refusal (traffic_in self.now) ask) }
    {
        match self.requests.asked(ask) {
            None => Err(LoseRefusal::NoSuchAsk {
                ask,
                asks: self.requests.ask_count(),
            }),
            Some((asked, sent)) => {
                if is_settled(sent) {
                    Err(LoseRefusal::Settled { ask })
                } else if asked.lost {
                    Err(LoseRefusal::LostBefore { ask })
                } else {
                    Ok(sent.losses)
                }
            }
        }
    }

    /// Notes the loss of an ask. The third of a batch gives up the rows that it asks for.
    fn note_loss(&mut self, ask: u32, mark: Option<Mark>)
        requires { MayBeLost (traffic_in self.old) ask }
        ensures { Notes (Lose ask mark) self.old self.new }
    {
        give_up_at_third::<Brand>(&mut self.table, &self.requests, ask, Blank::new(1));
        self.requests.lose(ask);
        self.calls.push_reserved(Call::Lose { ask, mark });
    }

    /// Notes that no answer to an ask will come. It takes no memory.
    pub fn lose(&mut self, ask: u32, mark: Option<Mark>) -> Result<Lost, LoseRefusal>
        ensures { Loses result ask mark self.old self.new }
    {
        let losses = self.losses(ask)?;
        self.note_loss(ask, mark);
        if losses > 1 {
            Ok(Lost::GivenUp)
        } else {
            Ok(Lost::Again { tries: losses + 1 })
        }
    }

    /// Whether rows may execute that did not for want of memory.
    pub fn due(&self) -> bool
        ensures due { result ≡ is_due self.now }
        ensures book { IsBook self.now }
    {
        uncounted::first_run::<Brand>(&self.table, Blank::new(1)).is_some()
    }

    /// Whether each batch was answered or given up.
    pub fn settled(&self) -> bool
        ensures { result ≡ all_settled (traffic_in self.now) }
    {
        self.requests.settled()
    }

    /// Whether a batch waits.
    pub fn waiting(&self) -> bool
        ensures { result ≡ has_waiting (traffic_in self.now) }
    {
        self.requests.has_waiting()
    }

    /// Notes a request of names together, which nothing executes for yet; or says why they are refused.
    fn note_using(&mut self, names: &[Text]) -> Result<(), UsingError>
        requires { Rests self.old }
        ensures { NotesUsing result names.now self.old self.new }
    {
        let copies = copies(self.alloc, names)?;
        make_room(&mut self.calls, &self.requests)?;
        let done = request(
            self.alloc,
            &mut self.table,
            &mut self.requests,
            &self.plan,
            &self.held,
            names,
        );
        match done {
            Ok(()) => {
                let names = Seq::of(copies);
                self.calls.push_reserved(Call::Using { names });
                Ok(())
            }
            Err(ResolveError::Unknown { name }) => Err(UsingError::Unknown { name }),
            Err(ResolveError::Cycle { name }) => Err(UsingError::Cycle { name }),
            Err(ResolveError::NoMemory) => Err(UsingError::NoMemory),
        }
    }

    /// Requests names together, or refuses them all: the first of what was due executes, then what the request made due,
    /// and the observers are told of each execution before it counts.
    pub fn using<O: Hears>(&mut self, names: &[Text], observers: &mut O) -> Result<(), UsingError>
        ensures serves { RequestsAll (O.says observers.old) result names.now self.old self.new (O.told observers.old) (O.told observers.new) }
        ensures fixed { (k : Key) (s : List ℕ) → O.says observers.new k s ≡ O.says observers.old k s }
        ensures same { (first : O) → O.same first observers.old → O.same first observers.new }
    {
        self.resume(observers)?;
        match self.note_using(names) {
            Ok(()) => match self.resume(observers) {
                Ok(()) => Ok(()),
                Err(NoMemory) => Err(UsingError::NoMemory),
            },
            Err(error) => Err(error),
        }
    }

    /// Notes a request of each name that resolves, which nothing executes for yet, and answers how many places were dropped.
    fn note_load(&mut self, names: &[Text]) -> Result<u32, NoMemory>
        requires { Rests self.old }
        ensures { NotesLoad result names.now self.old self.new }
    {
        let copies = copies(self.alloc, names)?;
        make_room(&mut self.calls, &self.requests)?;
        let dropped = load(
            self.alloc,
            &mut self.table,
            &mut self.requests,
            &self.plan,
            &self.held,
            names,
        )?;
        let names = Seq::of(copies);
        self.calls.push_reserved(Call::Load { names });
        Ok(dropped)
    }

    /// Requests each of the names that resolves, and answers at how many places the name was dropped. First what was due
    /// executes, then what the request made due, and the observers are told of each execution before it counts.
    pub fn load<O: Hears>(&mut self, names: &[Text], observers: &mut O) -> Result<u32, NoMemory>
        ensures serves { LoadsEach (O.says observers.old) result names.now self.old self.new (O.told observers.old) (O.told observers.new) }
        ensures fixed { (k : Key) (s : List ℕ) → O.says observers.new k s ≡ O.says observers.old k s }
        ensures same { (first : O) → O.same first observers.old → O.same first observers.new }
    {
        self.resume(observers)?;
        let dropped = self.note_load(names)?;
        self.resume(observers)?;
        Ok(dropped)
    }

    /// Notes the answer to an ask, which nothing executes for yet: the rows of its batch take the parts that count for them.
    fn note_answer(
        &mut self,
        ask: u32,
        bytes: Blob,
        parts: Vec<Part>,
        mark: Mark,
    ) -> Result<Took, NoMemory>
        requires rests { Rests self.old }
        requires asked { (pair : Asked × Sent) × (asked_of (traffic_in self.old) ask ≡ Some pair) }
        requires read { answer_of bytes ≡ Ok parts.items }
        ensures took { IfOk result (λ took. took ≡ took_by self.old.opening self.old.past (Deliver ask bytes mark) parts.items) }
        ensures ok { OnOk result (Notes (Deliver ask bytes mark) self.old self.new) }
        ensures err { OnErr result (self.new ≡ self.old) }
    {
        make_room(&mut self.calls, &self.requests)?;
        let took = deliver_parts(
            self.alloc,
            &mut self.table,
            &mut self.delivered,
            &mut self.requests,
            ask,
            parts,
            mark,
        )?;
        self.calls.push_reserved(Call::Deliver { ask, bytes, mark });
        Ok(took)
    }

    /// Notes what is no answer to an ask, and tells how many asks of its batch are lost by then.
    fn note_refusal(&mut self, ask: u32, bytes: Blob, mark: Mark) -> Result<u32, NoMemory>
        requires { (line : ℕ) × (answer_of bytes ≡ Err line) }
        ensures tries { IfOk result (λ tries. tries ≡ losses_at (traffic_in self.new) ask) }
        ensures ok { OnOk result (Notes (Deliver ask bytes mark) self.old self.new) }
        ensures err { OnErr result (self.new ≡ self.old) }
    {
        make_room(&mut self.calls, &self.requests)?;
        lose_open(&mut self.table, &mut self.requests, ask);
        self.calls.push_reserved(Call::Deliver { ask, bytes, mark });
        Ok(losses_of(&self.requests, ask))
    }

    /// Notes what was delivered to an ask, which nothing executes for yet; or says why it is refused.
    fn note_delivery(&mut self, ask: u32, bytes: &[u8], mark: Mark) -> Result<Took, DeliverError>
        requires { Rests self.old }
        ensures { NotesDelivery result ask bytes.now mark self.old self.new }
    {
        if self.requests.asked(ask).is_none() {
            return Err(DeliverError::NoSuchAsk {
                ask,
                asks: self.requests.ask_count(),
            });
        }
        let copy = Blob::of(self.alloc, bytes)?;
        match read_answer(self.alloc, bytes) {
            Ok(parts) => Ok(self.note_answer(ask, copy, parts, mark)?),
            Err(WireError::BadLine { line }) => {
                let tries = self.note_refusal(ask, copy, mark)?;
                Err(DeliverError::BadWire { line, tries })
            }
            Err(WireError::NoMemory) => Err(DeliverError::NoMemory),
        }
    }

    /// Takes what was delivered to an ask, and tells what became of its parts. Each row of the ask's batch that is touched,
    /// is not skipped and has no outcome takes the first part of its name, also where the ask was lost. What is no answer
    /// counts as a loss of the ask, where it may be lost. First what was due executes, then what the answer made due, and
    /// the observers are told of each execution before it counts.
    pub fn deliver<O: Hears>(
        &mut self,
        ask: u32,
        bytes: &[u8],
        mark: Mark,
        observers: &mut O,
    ) -> Result<Took, DeliverError>
        ensures serves { Delivers (O.says observers.old) result ask bytes.now mark self.old self.new (O.told observers.old) (O.told observers.new) }
        ensures fixed { (k : Key) (s : List ℕ) → O.says observers.new k s ≡ O.says observers.old k s }
        ensures same { (first : O) → O.same first observers.old → O.same first observers.new }
    {
        self.resume(observers)?;
        match self.note_delivery(ask, bytes, mark) {
            Ok(took) => match self.resume(observers) {
                Ok(()) => Ok(took),
                Err(NoMemory) => Err(DeliverError::NoMemory),
            },
            Err(error) => Err(error),
        }
    }

    /// The execution of a row that was answered with an implementation, before any observer was told of it.
    fn run_of(&self, row: u32) -> Result<Run, NoMemory>
        requires within { row < length self.now.opening.registered.rows }
        requires answered { IsTrue (is_answered self.now row) }
        ensures { IfOk result (λ run. (run.threw ≡ false) × IsRun self.now (row, false) run) }
    {
        match &self.delivered[row as usize] {
            Some(taken) => run_with(row, &taken.part, Origin::Wire { mark: taken.mark }),
            None => match self.held.given(row) {
                Some((part, origin)) => run_with(row, part, origin),
                None => unreachable!(),
            },
        }
    }

    /// Notes the execution that was due.
    fn note_run(&mut self, run: Run)
        requires due { due_row self.old ≡ Some run.row }
        requires run { IsRun self.old (run.row, run.threw) run }
        ensures ran { self.new ≡ record self.old { ran = self.old.ran ++ (run.row, run.threw) ∷ [] } }
        ensures few { length self.new.ran ≤ length self.new.opening.registered.rows }
    {
        uncounted::run::<Brand>(&mut self.table, run.row, run.threw, Blank::new(1));
        self.runs.push_reserved(run);
    }

    /// Executes the row that is due, if one is, and answers whether one was. The observers are told first; where there is
    /// no memory for that, nothing executes.
    fn run_next<O: Hears>(&mut self, observers: &mut O) -> Result<bool, NoMemory>
        ensures runs { ExecutesNext (O.says observers.old) result self.old self.new (O.told observers.old) (O.told observers.new) }
        ensures few { length self.new.ran ≤ length self.new.opening.registered.rows }
        ensures fixed { (k : Key) (s : List ℕ) → O.says observers.new k s ≡ O.says observers.old k s }
        ensures same { (first : O) → O.same first observers.old → O.same first observers.new }
    {
        let Some(row) = uncounted::first_run::<Brand>(&self.table, Blank::new(1)) else {
            return Ok(false);
        };
        let mut run = self.run_of(row)?;
        run.threw = observers.hear(&run.key, run.script.as_bytes())?;
        self.note_run(run);
        Ok(true)
    }

    /// Executes all that is due, the row of least number first, and tells the observers of each execution before it
    /// counts. Where memory runs out the first rows executed, and others are due.
    pub fn resume<O: Hears>(&mut self, observers: &mut O) -> Result<(), NoMemory>
        ensures runs { Resumes (O.says observers.old) result self.old self.new (O.told observers.old) (O.told observers.new) }
        ensures fixed { (k : Key) (s : List ℕ) → O.says observers.new k s ≡ O.says observers.old k s }
        ensures same { (first : O) → O.same first observers.old → O.same first observers.new }
    {
        'runs: while self.run_next(observers)? {}
        Ok(())
    }

    /// The state of a name, where it has a row. While executions are due nothing is said of it.
    pub fn state_of(&self, name: &[u8]) -> Option<Phase>
        ensures { StateIs self.now name.now result }
    {
        match self.table.registry().find(name) {
            Some(row) => Some(self.table.state(row)),
            None => None,
        }
    }

    /// The rows, with the versions that they have by now.
    pub fn registry(&self) -> &Registry
        ensures { result.now ≡ registered_in self.now }
    {
        self.table.registry()
    }

    /// What it was opened with, beside the startup text.
    pub fn plan(&self) -> &Plan
        ensures { result.now ≡ plan_in self.now }
    {
        &self.plan
    }

    /// The startup text that it was opened with.
    pub fn opening_startup(&self) -> &[u8]
        ensures { result.now ≡ self.now.startup }
    {
        self.startup.as_bytes()
    }

    /// How many calls were taken in.
    pub fn call_count(&self) -> u32
        ensures { result ≡ length self.now.past }
    {
        self.calls.len() as u32
    }

    /// A call, of which the first has the number 0.
    pub fn call_at(&self, at: u32) -> &Call
        requires { at < length self.now.past }
        ensures { slice_get (reverse self.now.past) at ≡ Some result.now }
    {
        &self.calls[at as usize]
    }

    /// How many rows executed.
    pub fn run_count(&self) -> u32
        ensures { result ≡ length self.now.ran }
    {
        self.runs.len() as u32
    }

    /// An execution, of which the first has the number 0.
    pub fn run_at(&self, at: u32) -> &Run
        requires { at < length self.now.ran }
        ensures { (ran : ℕ × Bool) → slice_get self.now.ran at ≡ Some ran → IsRun self.now ran result.now }
    {
        &self.runs[at as usize]
    }

    /// How many asks were taken.
    pub fn ask_count(&self) -> u32
        ensures { result ≡ length (traffic_in self.now).asks }
    {
        self.requests.ask_count()
    }

    /// The source that an ask is sent to; the empty one is this wiki.
    pub fn ask_source(&self, at: u32) -> &[u8]
        requires { at < length (traffic_in self.now).asks }
        ensures { option_map (λ batch. batch.source) (batch_at (traffic_in self.now) at) ≡ Some result.now }
    {
        match self.requests.asked(at) {
            Some((_, sent)) => sent.batch.source.as_bytes(),
            None => unreachable!(),
        }
    }

    /// The query that an ask is sent with.
    pub fn ask_query(&self, at: u32) -> &[u8]
        requires { at < length (traffic_in self.now).asks }
        ensures { option_map (λ batch. batch.query) (batch_at (traffic_in self.now) at) ≡ Some result.now }
    {
        match self.requests.asked(at) {
            Some((_, sent)) => sent.batch.query.as_bytes(),
            None => unreachable!(),
        }
    }

    /// Whether an ask was lost.
    pub fn ask_lost(&self, at: u32) -> bool
        requires { at < length (traffic_in self.now).asks }
        ensures { result ≡ is_lost_at (traffic_in self.now) at }
    {
        match self.requests.asked(at) {
            Some((asked, _)) => asked.lost,
            None => false,
        }
    }

    /// Whether the batch of an ask was answered or given up.
    pub fn ask_settled(&self, at: u32) -> bool
        requires { at < length (traffic_in self.now).asks }
        ensures { result ≡ is_settled_at (traffic_in self.now) at }
    {
        match self.requests.asked(at) {
            Some((_, sent)) => is_settled(sent),
            None => false,
        }
    }
}

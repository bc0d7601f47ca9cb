//! What a view asks for: its batches, those that wait, and its asks.
ghost use Rattle.std.specs.Prelude.{◌≡◌, ◌+◌, ◌^◌, ◌<◌, ◌≤◌, ◌++◌, Some, true, length, map, slice_get, slice_set, vec_capacity};
ghost use Rattle.std.specs.VecDeque.{deque_capacity};
ghost use Rattle.rl_book_spec.specs.declared.Asked.{Asked};
ghost use Rattle.rl_book_spec.specs.declared.Sent.{Sent};
ghost use Rattle.std.specs.List.{range_with_len};
ghost use Rattle.rl_book_spec.specs.Traffic.{fresh, is_settled, without};

use rl_book_spec::{Asked, Batch, Sent};
use rl_names::NoMemory;
use std::alloc::Global;
use std::collections::VecDeque;
use std::marker::Model;

/// Numbers of batches and asks have 32 bits.
const MAX: usize = 0xFFFF_FFFF;

/// The batches of a view by number, those that wait, in order, and its asks by number.
#[derive(Drop)]
pub struct Requests {
    batches: Vec<Sent>,
    waiting: VecDeque<u32>,
    asks: Vec<Asked>,
}

impl Model for Requests {
    ghost use Rattle.std.specs.VecDeque.{deque_capacity};
    ghost use Rattle.rl_book_spec.specs.Traffic.{Traffic};
    ghost use Rattle.rl_batch.specs.Requests.{IsKept};

    ghost Value = { Traffic };

    ghost view = { λ r. record { batches = r.batches.items; waiting = r.waiting.items; asks = r.asks.items } };

    ghost invariant = { λ r. IsKept r.batches.items r.waiting.items r.asks.items (deque_capacity r.waiting) };
}

/// Adds batches, each of which waits behind the others.
fn push_all(batches: &mut Vec<Sent>, waiting: &mut VecDeque<u32>, new: Vec<Batch>)
    requires few { length batches.old.items + length new.items < 2 ^ 32 }
    requires batches { length batches.old.items + length new.items ≤ vec_capacity batches.old }
    requires waiting { length waiting.old.items + length new.items ≤ deque_capacity waiting.old }
    ensures batches { batches.new.items ≡ batches.old.items ++ map fresh new.items }
    ensures waiting { waiting.new.items ≡ waiting.old.items ++ range_with_len (length batches.old.items) (length new.items) }
    ensures capacity { deque_capacity waiting.old ≤ deque_capacity waiting.new }
{
    for batch in new {
        waiting.push_back_reserved(batches.len() as u32);
        batches.push_reserved(Sent {
            batch,
            losses: 0,
            delivered: false,
        });
    }
}

/// Takes a batch off those that wait.
fn leave(waiting: &mut VecDeque<u32>, batch: u32)
    ensures items { waiting.new.items ≡ without batch waiting.old.items }
    ensures capacity { deque_capacity waiting.new ≡ deque_capacity waiting.old }
{
    waiting.retain(|other| *other != batch);
}

/// Marks an ask as lost, and gives the number of its batch.
fn mark_lost(asks: &mut Vec<Asked>, ask: u32) -> u32
    requires { ask < length asks.old.items }
    ensures { (asked : Asked) → slice_get asks.old.items ask ≡ Some asked
        → (result ≡ asked.batch) × (asks.new.items ≡ slice_set asks.old.items ask (record asked { lost = true })) }
{
    let asked = &mut asks[ask as usize];
    asked.lost = true;
    asked.batch
}

/// Counts a loss of a batch, and gives their number.
fn count_loss(batches: &mut Vec<Sent>, batch: u32) -> u32
    requires within { batch < length batches.old.items }
    requires few { (sent : Sent) → slice_get batches.old.items batch ≡ Some sent → sent.losses ≤ 2 }
    ensures { (sent : Sent) → slice_get batches.old.items batch ≡ Some sent
        → (result ≡ sent.losses + 1) × (batches.new.items ≡ slice_set batches.old.items batch (record sent { losses = sent.losses + 1 })) }
{
    let sent = &mut batches[batch as usize];
    sent.losses += 1;
    sent.losses
}

/// Marks a batch as answered.
fn mark_delivered(batches: &mut Vec<Sent>, batch: u32)
    requires { batch < length batches.old.items }
    ensures { (sent : Sent) → slice_get batches.old.items batch ≡ Some sent
        → batches.new.items ≡ slice_set batches.old.items batch (record sent { delivered = true }) }
{
    batches[batch as usize].delivered = true;
}

/// Whether a batch was answered or given up.
pub fn is_settled(sent: &Sent) -> bool
    ensures { result ≡ is_settled sent.now }
{
    sent.delivered || sent.losses >= 3
}

impl Requests {
    ghost use Rattle.std.specs.Prelude.{◌≡◌, ◌<◌, ◌≤◌, [], length, IfNone, IfOk, IfSome, OnOk, OnErr, is_none, not, option_and_then};
    ghost use Rattle.std.specs.Prelude.{option_map, slice_get};
    ghost use Rattle.rl_book_spec.specs.Traffic.{all_settled, asked_of, after_delivery, after_loss, with_ask, with_batches};
    ghost use Rattle.rl_batch.specs.Requests.{MayBeLost};

    /// No batches.
    pub fn new(alloc: Global) -> Requests
        ensures { result ≡ record { batches = []; waiting = []; asks = [] } }
    {
        Requests {
            batches: Vec::new(alloc),
            waiting: VecDeque::new(alloc),
            asks: Vec::new(alloc),
        }
    }

    /// Adds batches, which wait behind the others.
    pub fn add(&mut self, new: Vec<Batch>) -> Result<(), NoMemory>
        ensures ok { OnOk result (self.new ≡ with_batches new.items self.old) }
        ensures err { OnErr result (self.new ≡ self.old) }
    {
        if new.len() > MAX - self.batches.len() {
            return Err(NoMemory);
        }
        self.batches.reserve(new.len())?;
        self.waiting.reserve(new.len() + self.asks.len())?;
        push_all(&mut self.batches, &mut self.waiting, new);
        Ok(())
    }

    /// The number of the batch that waits first, which is asked for from now on.
    pub fn take(&mut self) -> Result<Option<u32>, NoMemory>
        ensures batch { IfOk result (λ batch. batch ≡ slice_get self.old.waiting 0) }
        ensures ok { OnOk result (self.new ≡ with_ask self.old) }
        ensures err { OnErr result (self.new ≡ self.old) }
    {
        if self.waiting.is_empty() {
            return Ok(None);
        }
        if self.asks.len() >= MAX {
            return Err(NoMemory);
        }
        self.asks.reserve(1)?;
        let batch = self.waiting.pop_front();
        if let Some(batch) = batch {
            self.asks.push_reserved(Asked { batch, lost: false });
        }
        Ok(batch)
    }

    /// Notes that an ask is lost. Its batch waits again until the third loss.
    pub fn lose(&mut self, ask: u32)
        requires { MayBeLost self.old ask }
        ensures { self.new ≡ after_loss self.old ask }
    {
        let batch = mark_lost(&mut self.asks, ask);
        if count_loss(&mut self.batches, batch) < 3 {
            self.waiting.push_back_reserved(batch);
        }
    }

    /// Notes that an answer to an ask was delivered. Its batch waits no more.
    pub fn deliver(&mut self, ask: u32)
        requires { ask < length self.old.asks }
        ensures { self.new ≡ after_delivery self.old ask }
    {
        let batch = self.asks[ask as usize].batch;
        mark_delivered(&mut self.batches, batch);
        leave(&mut self.waiting, batch);
    }

    /// How many asks there are.
    pub fn ask_count(&self) -> u32
        ensures { result ≡ length self.now.asks }
    {
        self.asks.len() as u32
    }

    /// An ask and its batch.
    pub fn asked(&self, ask: u32) -> Option<(Asked, &Sent)>
        ensures value { option_map (λ pair. (pair.0, pair.1.now)) result ≡ asked_of self.now ask }
        ensures within { IfSome result (λ pair. ask < length self.now.asks) }
        ensures beyond { IfNone result (length self.now.asks ≤ ask) }
    {
        match self.asks.get(ask as usize) {
            Some(asked) => Some((*asked, &self.batches[asked.batch as usize])),
            None => None,
        }
    }

    /// The batch that waits first.
    pub fn first_waiting(&self) -> Option<&Batch>
        ensures { option_map (λ batch. batch.now) result
            ≡ option_and_then (λ number. option_map (λ sent. sent.batch) (slice_get self.now.batches number)) (slice_get self.now.waiting 0) }
    {
        match self.waiting.front() {
            Some(batch) => Some(&self.batches[*batch as usize].batch),
            None => None,
        }
    }

    /// Whether a batch waits.
    pub fn has_waiting(&self) -> bool
        ensures { result ≡ not (is_none (slice_get self.now.waiting 0)) }
    {
        !self.waiting.is_empty()
    }

    /// Whether each batch was answered or given up.
    pub fn settled(&self) -> bool
        ensures { result ≡ all_settled self.now }
    {
        self.batches.iter().all(is_settled)
    }
}

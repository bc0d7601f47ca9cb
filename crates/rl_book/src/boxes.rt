//! Observers in their boxes: each is told of what executes, in their order.
ghost use Rattle.std.specs.Prelude.{◌≡◌, ◌++◌, ◌∷◌, [], ℕ, List, Bool, Some, OnOk, OnErr, IfOk, map, All};
ghost use Rattle.std.specs.List.{list_any};
ghost use Rattle.rl_names.specs.declared.name.Key.{Key};
ghost use Rattle.rl_base.specs.Execution.{Execution, told_of};

use rl_base::{Hears, Observer};
use rl_names::{Key, NoMemory};

/// Makes room in one observer.
fn make_room_of(
    observer: &mut Box<dyn Observer + Send>,
    key: &Key,
    script: &[u8],
) -> Result<(), NoMemory>
    ensures room { OnOk result (room_for observer.new ≡ Some (key.now, script.now)) }
    ensures told_nothing { ran observer.new ≡ ran observer.old }
    ensures fixed { (k : Key) (s : List ℕ) → throws observer.new k s ≡ throws observer.old k s }
    ensures same { (observer.new.ptr ≡ observer.old.ptr) × (observer.new.vtable ≡ observer.old.vtable) }
{
    observer.make_room(key, script)
}

/// Tells one observer.
fn execute_of(observer: &mut Box<dyn Observer + Send>, key: &Key, script: &[u8]) -> bool
    requires { room_for observer.old ≡ Some (key.now, script.now) }
    ensures told { ran observer.new ≡ ran observer.old ++ (key.now, script.now) ∷ [] }
    ensures threw { result ≡ throws observer.old key.now script.now }
    ensures fixed { (k : Key) (s : List ℕ) → throws observer.new k s ≡ throws observer.old k s }
    ensures same { (observer.new.ptr ≡ observer.old.ptr) × (observer.new.vtable ≡ observer.old.vtable) }
{
    observer.execute(key, script)
}

/// Makes room for an execution in each observer. They are the same boxes in the same order.
fn make_room_each(
    observers: &mut [Box<dyn Observer + Send>],
    key: &Key,
    script: &[u8],
) -> Result<(), NoMemory>
    ensures room { OnOk result (All (λ o. room_for o ≡ Some (key.now, script.now)) observers.new) }
    ensures told_nothing { map (λ o. ran o) observers.new ≡ map (λ o. ran o) observers.old }
    ensures fixed { (k : Key) (s : List ℕ)
        → map (λ o. throws o k s) observers.new ≡ map (λ o. throws o k s) observers.old }
    ensures same { (map (λ o. o.ptr) observers.new ≡ map (λ o. o.ptr) observers.old)
        × (map (λ o. o.vtable) observers.new ≡ map (λ o. o.vtable) observers.old) }
{
    for observer in observers {
        make_room_of(observer, key, script)?;
    }
    Ok(())
}

/// Tells each observer of the execution for which all have room, and answers whether one throws. They are the same
/// boxes in the same order.
fn execute_each(observers: &mut [Box<dyn Observer + Send>], key: &Key, script: &[u8]) -> bool
    requires { All (λ o. room_for o ≡ Some (key.now, script.now)) observers.old }
    ensures told { map (λ o. ran o) observers.new
        ≡ map (told_of (key.now, script.now)) (map (λ o. ran o) observers.old) }
    ensures threw { result ≡ list_any (λ o. throws o key.now script.now) observers.old }
    ensures fixed { (k : Key) (s : List ℕ)
        → map (λ o. throws o k s) observers.new ≡ map (λ o. throws o k s) observers.old }
    ensures same { (map (λ o. o.ptr) observers.new ≡ map (λ o. o.ptr) observers.old)
        × (map (λ o. o.vtable) observers.new ≡ map (λ o. o.vtable) observers.old) }
{
    let mut threw = false;
    for observer in observers {
        threw |= execute_of(observer, key, script);
    }
    threw
}

/// Makes room in each observer and then tells each of them. Where there is no room, none is told.
fn tell_each(
    observers: &mut [Box<dyn Observer + Send>],
    key: &Key,
    script: &[u8],
) -> Result<bool, NoMemory>
    ensures told { OnOk result (map (λ o. ran o) observers.new
        ≡ map (told_of (key.now, script.now)) (map (λ o. ran o) observers.old)) }
    ensures threw { IfOk result (λ threw. threw ≡ list_any (λ o. throws o key.now script.now) observers.old) }
    ensures refused { OnErr result (map (λ o. ran o) observers.new ≡ map (λ o. ran o) observers.old) }
    ensures fixed { (k : Key) (s : List ℕ)
        → map (λ o. throws o k s) observers.new ≡ map (λ o. throws o k s) observers.old }
    ensures same { (map (λ o. o.ptr) observers.new ≡ map (λ o. o.ptr) observers.old)
        × (map (λ o. o.vtable) observers.new ≡ map (λ o. o.vtable) observers.old) }
{
    make_room_each(observers, key, script)?;
    Ok(execute_each(observers, key, script))
}

/// Observers in their boxes, in their order. They are told here and not in a crate below: of a function of another crate
/// that takes them the prover assumes that it may make some.
#[derive(Drop)]
pub struct Boxes {
    pub all: Vec<Box<dyn Observer + Send>>,
}

impl Hears for Boxes {
    ghost told = { λ b. map (λ o. (Observer-box o).ran o.value) b.all.items };

    ghost says = { λ b k s. list_any (λ o. (Observer-box o).throws o.value k s) b.all.items };

    ghost same = { λ first b. (map (λ o. o.ptr) b.all.items ≡ map (λ o. o.ptr) first.all.items)
        × (map (λ o. o.vtable) b.all.items ≡ map (λ o. o.vtable) first.all.items)
        × ((k : Key) (s : List ℕ)
        → map (λ o. (Observer-box o).throws o.value k s) b.all.items
        ≡ map (λ o. (Observer-box o).throws o.value k s) first.all.items) };

    fn hear(&mut self, key: &Key, script: &[u8]) -> Result<bool, NoMemory> {
        tell_each(self.all.as_mut_slice(), key, script)
    }
}

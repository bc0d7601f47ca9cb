//! Observers of a script, one of which throws.
use super::tree_of;
use crate::{Ended, Status, run};
use rl_base::{MemSink, Observer, Recorder};
use rl_names::Name;
use std::alloc::Global;
use std::test::Fail;

const CHAIN_OF_THREE: &[u8] = b"[\"row\",\"A\",\"aaaaa\",[\"B\"]]
[\"row\",\"B\",\"bbbbb\",[\"C\"]]
[\"row\",\"C\",\"ccccc\"]
[\"using\",[\"A\"]]
[\"impl\",\"A@aaaaa\",\"a()\"]
[\"impl\",\"B@bbbbb\",\"b()\"]
[\"impl\",\"C@ccccc\",\"c()\"]
";

/// What is printed where an observer throws for `B`.
const THROWN: &[u8] = b"using ok
used
used
used
ran C@ccccc 3
threw B@bbbbb 3
summary
view 0
error A@aaaaa
error B@bbbbb
ready C@ccccc
executed B@bbbbb 3
executed C@ccccc 3
";

/// How `drive` ends for the chain of three, and what it writes.
fn driven(
    alloc: Global,
    observers: Vec<Box<dyn Observer + Send>>,
) -> Result<(Ended, Vec<u8>), Fail> {
    let mut tree = tree_of(alloc, "a.script", CHAIN_OF_THREE)?;
    let mut out = MemSink::new(alloc, Vec::new(alloc))?;
    let words = ["drive", "a.script"];
    let ended = run(alloc, &words, &mut tree, &mut out, observers);
    Ok((ended, Vec::from_slice(alloc, out.written())?))
}

/// Whether an observer that was handed back was told of `C` and then of `B`, and of nothing else.
fn heard_of_both(observer: &Box<dyn Observer + Send>) -> bool {
    let Some(recorder) = observer.recorder() else {
        return false;
    };
    recorder.count() == 2
        && recorder.key_at(0).name.as_bytes() == b"C".as_slice()
        && recorder.key_at(1).name.as_bytes() == b"B".as_slice()
}

/// Whether each of them was.
fn all_heard_of_both(observers: &[Box<dyn Observer + Send>]) -> bool {
    for observer in observers {
        if !heard_of_both(observer) {
            return false;
        }
    }
    true
}

/// The names for which a recorder throws.
fn names(alloc: Global, names: &[&str]) -> Result<Vec<Name>, Fail> {
    let mut read = Vec::new(alloc);
    for name in names {
        read.push(Name::read(alloc, name.as_bytes())?)?;
    }
    Ok(read)
}

#[test]
fn throwing_observer(rt: HostRuntime) -> Result<(), Fail> {
    let alloc = rt.alloc();
    let mut observers: Vec<Box<dyn Observer + Send>> = Vec::new(alloc);
    observers.push(Box::new(alloc, Recorder::new(alloc, names(alloc, &["B"])?))?)?;
    let (ended, written) = driven(alloc, observers)?;
    assert_eq!(rt; ended.status, Status::NotReady);
    assert_eq!(rt; written.as_slice(), THROWN);
    assert_eq!(rt; ended.observers.len(), 1);
    assert!(rt; all_heard_of_both(ended.observers.as_slice()));
    Ok(())
}

/// The second is told too, after the first threw.
#[test]
fn two_recorders(rt: HostRuntime) -> Result<(), Fail> {
    let alloc = rt.alloc();
    let mut observers: Vec<Box<dyn Observer + Send>> = Vec::new(alloc);
    observers.push(Box::new(alloc, Recorder::new(alloc, names(alloc, &["B"])?))?)?;
    observers.push(Box::new(alloc, Recorder::new(alloc, Vec::new(alloc)))?)?;
    let (ended, written) = driven(alloc, observers)?;
    assert_eq!(rt; ended.status, Status::NotReady);
    assert_eq!(rt; written.as_slice(), THROWN);
    assert_eq!(rt; ended.observers.len(), 2);
    assert!(rt; all_heard_of_both(ended.observers.as_slice()));
    Ok(())
}

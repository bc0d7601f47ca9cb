//! Small graphs: what is reached, edges turned round, and whether ranks fall.
ghost use Rattle.std.specs.Prelude.{◌≡◌, ◌<◌, ◌≤◌, All, length, nat_lt};
ghost use Rattle.std.specs.List.{list_all};
ghost use Rattle.rl_graph.specs.Graph.{edge_lists, IsWithin};

use crate::{is_marked, places, ranks_fall, ranks_of, reach, reversed};
use std::alloc::Global;
use std::test::Fail;

/// The numbers that are written by one digit each.
fn numbers(alloc: Global, digits: &[u8]) -> Result<Vec<u32>, Fail> {
    let mut numbers = Vec::new(alloc);
    for digit in digits {
        numbers.push(u32::from(digit.saturating_sub(b'0')))?;
    }
    Ok(numbers)
}

/// A graph, from the numbers that each number leads to, with a space between.
fn graph(alloc: Global, text: &str) -> Result<Vec<Vec<u32>>, Fail> {
    let mut lists = Vec::new(alloc);
    for digits in text.split(' ') {
        lists.push(numbers(alloc, digits.as_bytes())?)?;
    }
    Ok(lists)
}

fn are_below(numbers: &[u32], count: usize) -> bool
    ensures { result ≡ list_all (λ number. nat_lt number count) numbers.now }
{
    numbers.iter().all(|number| (*number as usize) < count)
}

fn is_within(edges: &[Vec<u32>]) -> bool
    ensures { result ≡ list_all (λ next. list_all (λ to. nat_lt to (length edges.now)) next.items) edges.now }
{
    edges
        .iter()
        .all(|next| are_below(next.as_slice(), edges.len()))
}

/// What is reached from the starts, the edges turned round, and whether the ranks of what is reached fall.
fn told(alloc: Global, edges: &[Vec<u32>], starts: &[u32]) -> Result<String, Fail>
    requires few { length edges.now ≤ 4096 }
    requires within { IsWithin (edge_lists edges.now) }
    requires low { All (λ start. start < length edges.now) starts.now }
{
    let marks = reach(alloc, edges, starts)?;
    let found = places(alloc, marks.as_slice())?;
    let turned = reversed(alloc, edges)?;
    let ranks = ranks_of(alloc, edges)?;
    let fall = ranks_fall(edges, ranks.as_slice(), found.as_slice());
    let second = is_marked(marks.as_slice(), 1);
    Ok(format!(in alloc; "{found:?} {turned:?} {fall} {second}")?)
}

fn told_of(alloc: Global, text: &str, starts: &str) -> Result<String, Fail> {
    let edges = graph(alloc, text)?;
    let starts = numbers(alloc, starts.as_bytes())?;
    let edges = edges.as_slice();
    let starts = starts.as_slice();
    if edges.len() > 4096 || !is_within(edges) || !are_below(starts, edges.len()) {
        return Ok(String::new(alloc));
    }
    told(alloc, edges, starts)
}

#[test]
fn graphs(rt: HostRuntime) -> Result<(), Fail> {
    let alloc = rt.alloc();
    for (text, starts, want) in [
        ("1 2 ", "0", "[0, 1, 2] [[], [0], [1]] true true"),
        ("1 2 ", "2", "[2] [[], [0], [1]] true false"),
        (
            "12 3 3 ",
            "0",
            "[0, 1, 2, 3] [[], [0], [0], [1, 2]] true true",
        ),
        ("11 ", "1", "[1] [[], [0, 0]] true true"),
        (
            "1 2 0 0",
            "3",
            "[0, 1, 2, 3] [[2, 3], [0], [1], []] false true",
        ),
        ("1  3 2", "0", "[0, 1] [[], [0], [3], [2]] true true"),
        ("0 0", "10", "[0, 1] [[1], []] false true"),
        ("1 ", "", "[] [[], [0]] true false"),
    ] {
        let said = told_of(alloc, text, starts)?;
        assert_eq!(rt; said.as_str(), want, "of {starts} in {text}");
    }
    Ok(())
}

//! What the bytes in hand are: a whole request, or not.
ghost use Rattle.std.specs.Prelude.{◌≡◌, ◌≤◌, IfOk, Ok, length};
ghost use Rattle.rl_pages.specs.Viewer.{IsViewer};
ghost use Rattle.rl_http.specs.Heads.{BeginsWith, ReadsHead, viewer_named};
ghost use Rattle.rl_http.specs.declared.heads.HeadRead.TheVariants.{Part};
ghost use Rattle.rl_http.specs.Serving.{IsHand, looked_at};

use crate::heads::{Head, HeadRead};
use crate::reading::read_head;
use rl_names::NoMemory;
use std::alloc::Global;

/// The most bytes that a head may have.
const MAX_HEAD: usize = 16_384;

/// What the bytes that came are.
#[derive(Drop)]
pub enum Hand {
    /// They begin with a whole request, whose body lies between two places.
    Whole { head: Head, from: usize, to: usize },
    /// With more bytes they may be one.
    More,
    /// Their head is refused.
    Bad { code: u32 },
    /// Their head does not end within the bytes that one may have.
    TooLong,
}

/// What is looked at of the input: as much as a head may have.
fn looked_at(input: &[u8]) -> &[u8]
    ensures looked { result.now ≡ looked_at input.now }
    ensures most { length result.now ≤ 16384 }
{
    if input.len() <= MAX_HEAD {
        input
    } else {
        &input[..MAX_HEAD]
    }
}

/// A head that the bytes begin with, and its body where it is whole.
fn with_body(input: &[u8], from: usize, head: Head) -> Hand
    requires begins { BeginsWith input.now from (Ok head) }
    requires small { (from ≤ 16384) × (head.length ≤ 8388608) }
    requires viewer { IsViewer (viewer_named head.viewer) }
    ensures { IsHand input.now result }
{
    let to = from + head.length as usize;
    if to <= input.len() {
        Hand::Whole { head, from, to }
    } else {
        Hand::More
    }
}

/// What bytes are that end inside a head.
fn without_head(input: &[u8]) -> Hand
    requires { ReadsHead (looked_at input.now) Part }
    ensures { IsHand input.now result }
{
    if input.len() < MAX_HEAD {
        Hand::More
    } else {
        Hand::TooLong
    }
}

/// What the bytes that came are. A head is looked for in so many of them as one may have.
pub fn in_hand(alloc: Global, input: &[u8]) -> Result<Hand, NoMemory>
    ensures { IfOk result (IsHand input.now) }
{
    match read_head(alloc, looked_at(input))? {
        HeadRead::Whole { used, head } => Ok(with_body(input, used as usize, head)),
        HeadRead::Bad { code } => Ok(Hand::Bad { code }),
        HeadRead::Part => Ok(without_head(input)),
    }
}

//! What one page view is from its opening on, as definitions over the calls that were made: what it asks for, what it was
//! answered, and what its store becomes.
#![tactic(auto)]

ghost use Rattle.rl_book_spec.specs.Laws.{BatchesAskForTouched, EventsAnswerRows, GivenStays, ShortAnswersSettle, TouchedIsAskedFor};
ghost use Rattle.rl_book_spec.specs.Laws.{BatchesAreFilled, BatchesAreSomewhere, BatchesHoldRows, BooksAreLawful, DeliveryGives};
ghost use Rattle.rl_book_spec.specs.Laws.{GivenIsOutcome, LossesAreQuiet, QueriesFit, QuietChangesNothing, RequestsTouch};
ghost use Rattle.rl_book_spec.specs.Laws.{SettledIsAnswered, StageBegins, StageEnds, StageGoesOn, StageIsFront, StageStays, StageUnderOthers};

use rl_names::{Blob, Key, Query, Seq, Text};
use rl_wire::Part;

/// Rows that are asked for together, by number, and the query that asks for them.
#[derive(Drop)]
pub struct Batch {
    pub source: Text,
    pub rows: Seq<u32>,
    pub query: Text,
}

/// A batch, how many of its asks were lost, and whether a well-formed answer to one of them was delivered.
#[derive(Drop)]
pub struct Sent {
    pub batch: Batch,
    pub losses: u32,
    pub delivered: bool,
}

/// The number of the batch that is asked for, and whether the ask was lost.
#[derive(Clone, Copy, Debug, PartialEq, Eq)]
pub struct Asked {
    pub batch: u32,
    pub lost: bool,
}

/// Where a delivery or a loss came from: a link, and the place of a fetch among those that it kept.
#[derive(Clone, Copy, Debug, PartialEq, Eq)]
pub struct Mark {
    pub link: u32,
    pub answer: u64,
}

/// A call that a view took in.
#[derive(Drop)]
pub enum Call {
    Using { names: Seq<Text> },
    Load { names: Seq<Text> },
    Take,
    Deliver { ask: u32, bytes: Blob, mark: Mark },
    Lose { ask: u32, mark: Option<Mark> },
}

/// What a view is opened with, beside the startup text and the store.
#[derive(Drop)]
pub struct Plan {
    /// Every query begins with this one. It has no modules and no version.
    pub base: Query,
    pub features: Seq<Text>,
    /// The lines of parts that came with the page.
    pub embedded: Blob,
    /// How many bytes a query may have.
    pub limit: u32,
}

/// Where an implementation came from.
#[derive(Clone, Copy, Debug, PartialEq, Eq)]
pub enum Origin {
    Embedded,
    Stored { wire: Option<u32> },
    Wire { mark: Mark },
}

/// How many parts of an answer became outcomes, and how many were passed over.
#[derive(Clone, Copy, Debug, PartialEq, Eq)]
pub struct Took {
    pub used: u32,
    pub passed: u32,
}

/// An implementation that is kept from view to view, and the answer that it came with.
#[derive(Drop)]
pub struct Stored {
    pub key: Key,
    pub part: Part,
    pub wire: Option<u32>,
}

/// The events of every view are lawful, so all laws of views hold of them.
pub fn book_laws()
    ensures lawful { BooksAreLawful }
    ensures touched { RequestsTouch }
{}

/// The batches of a request hold each of its rows, none is empty, and a query is longer than the limit only where it asks
/// for one row.
pub fn batch_laws()
    ensures rows { BatchesHoldRows }
    ensures filled { BatchesAreFilled }
    ensures fit { QueriesFit }
{}

/// A batch that is not settled waits once or has one open ask. What is touched and has no outcome is asked for, where
/// answers are whole; so once all batches are settled each touched row is skipped or has an outcome.
pub fn settling_laws()
    ensures somewhere { BatchesAreSomewhere }
    ensures asked { TouchedIsAskedFor }
    ensures settled { SettledIsAnswered }
    ensures short { ShortAnswersSettle }
{}

/// What a row was given stays given, a batch asks for rows that are touched and not skipped, and an event that requests
/// nothing changes the progress only of the rows that it is the first to answer.
pub fn later_laws()
    ensures given { GivenStays }
    ensures asked { BatchesAskForTouched }
    ensures answered { EventsAnswerRows }
{}

/// What an answer brings, and the part that is kept of an outcome.
pub fn part_laws()
    ensures brings { DeliveryGives }
    ensures given { GivenIsOutcome }
{}

/// How a book comes to its log row by row, also where it had to stop in between.
pub fn stage_laws()
    ensures begins { StageBegins }
    ensures goes_on { StageGoesOn }
    ensures ends { StageEnds }
    ensures stays { StageStays }
    ensures front { StageIsFront }
    ensures others { StageUnderOthers }
    ensures quiet { QuietChangesNothing }
    ensures losses { LossesAreQuiet }
{}

//! Serves one connection.
ghost use Rattle.std.specs.Prelude.{◌≡◌, ◌≢◌, ◌<◌, ◌≤◌, ◌++◌, [], IfOk, OnOk, OnErr, IsErrOf, length};
ghost use Rattle.rl_base.specs.Causes.{Rose};
ghost use Rattle.rl_base.specs.Connection.{after_front};
ghost use Rattle.rl_base.specs.Written.{appended};
ghost use Rattle.rl_pages.specs.Viewer.{IsViewer};
ghost use Rattle.rl_http.specs.Answers.{refused_text};
ghost use Rattle.rl_http.specs.Heads.{viewer_named};
ghost use Rattle.rl_http.specs.Replies.{http_reply};
ghost use Rattle.rl_http.specs.Sent.{AppendsFront};
ghost use Rattle.rl_http.specs.Serving.{end_by, end_of, refusal_for, Finishes, IsAtEnd, Sends, SendsFront, Serves, moment};

use crate::answers::refused;
use crate::hand::{Hand, in_hand};
use crate::heads::Head;
use crate::inbox::Inbox;
use crate::outbox::{flush, give};
use crate::refusals::Refusal;
use crate::replies::reply_to;
use crate::routing::Routes;
use rl_base::{Conn, ConnError};
use rl_keeper::Keeper;
use rl_names::NoMemory;
use rl_wiki::Desk;
use std::alloc::Global;
use std::sync::Wait;

/// How a connection ended.
#[derive(Clone, Copy, Debug, PartialEq, Eq)]
pub enum End {
    /// The input ended between two requests.
    Closed,
    /// The input ended inside a request.
    Cut,
    /// A request asked for it, or was of version 1.0.
    Asked,
    /// A head was refused, and answered so.
    Bad,
    /// A head was too long.
    TooLong,
    /// The connection failed, and counted it.
    PeerFault,
    /// Memory ran out; nothing more was written.
    NoMemory,
}

/// What was served over a connection.
#[derive(Clone, Copy, Debug, PartialEq, Eq)]
pub struct Served {
    /// How many requests were read whole.
    pub requests: u64,
    pub end: End,
}

/// How many bytes are read at once at most.
const CHUNK: usize = 65_536;

/// How a connection ends where no more bytes come.
fn end_of(input: &[u8]) -> End
    ensures { result ≡ end_of input.now }
{
    if input.is_empty() {
        End::Closed
    } else {
        End::Cut
    }
}

/// How a connection ends that refused a call.
fn end_by(error: ConnError) -> End
    ensures { result ≡ end_by error }
{
    match error {
        ConnError::Failed => End::PeerFault,
        ConnError::NoMemory => End::NoMemory,
    }
}

fn refusal_for(code: u32) -> Refusal
    ensures { result ≡ refusal_for code }
{
    if code == 413 {
        Refusal::TooLarge
    } else {
        Refusal::BadRequest
    }
}

/// Sends what was collected, and then reads more bytes. Answers how many came; none means the end.
fn more<C: Conn>(
    conn: &mut C,
    chunk: &mut [u8],
    inbox: &mut Inbox,
    out: &mut Vec<u8>,
) -> Result<usize, ConnError>
    requires { 0 < length chunk.old }
    ensures took { after_front inbox.old (C.left conn.old) ≡ after_front inbox.new (C.left conn.new) }
    ensures whole { OnOk result (C.written conn.new ≡ appended (C.written conn.old) out.old.items) }
    ensures empty { OnOk result (out.new.items ≡ []) }
    ensures none { IfOk result (λ count. count ≡ 0 → (inbox.new ≡ inbox.old) × IsAtEnd (C.left conn.new)) }
    ensures front { OnErr result (AppendsFront (C.written conn.old) out.old.items (C.written conn.new)) }
    ensures failed { IsErrOf result ConnError.Failed → Rose (C.faults conn.old) (C.faults conn.new) }
    ensures never_falls { C.faults conn.old ≤ C.faults conn.new }
    ensures room { length chunk.new ≡ length chunk.old }
{
    flush(conn, out)?;
    inbox.fetch(conn, chunk)
}

/// Answers a request.
fn answer<K: Keeper, C: Conn>(
    alloc: Global,
    routes: &Routes,
    desk: &mut Desk<K>,
    conn: &mut C,
    out: &mut Vec<u8>,
    head: &Head,
    body: &[u8],
) -> Result<(), ConnError>
    requires { IsViewer (viewer_named head.now.viewer) }
    ensures whole { OnOk result (Sends (Rose (K.faults desk.old.keeper) (K.faults desk.new.keeper)) desk.old.entries
        (http_reply desk.old.catalogue desk.old.entries head.now body.now) desk.new.entries
        (C.written conn.old) out.old.items (C.written conn.new) out.new.items) }
    ensures front { OnErr result (SendsFront (Rose (K.faults desk.old.keeper) (K.faults desk.new.keeper)) desk.old.entries
        (http_reply desk.old.catalogue desk.old.entries head.now body.now) desk.new.entries
        (C.written conn.old) out.old.items (C.written conn.new)) }
    ensures failed { IsErrOf result ConnError.Failed → Rose (C.faults conn.old) (C.faults conn.new) }
    ensures never_falls { C.faults conn.old ≤ C.faults conn.new }
    ensures left_stays { C.left conn.new ≡ C.left conn.old }
    ensures catalogue { desk.new.catalogue ≡ desk.old.catalogue }
    ensures keeper { K.faults desk.old.keeper ≤ K.faults desk.new.keeper }
{
    match reply_to(alloc, routes, desk, head, body) {
        Ok(text) => give(conn, out, text.as_bytes()),
        Err(NoMemory) => Err(ConnError::NoMemory),
    }
}

/// Sends what was collected, and ends.
fn finish<C: Conn>(conn: &mut C, out: &mut Vec<u8>, end: End) -> End
    ensures finishes { Finishes end (C.written conn.old) out.old.items (C.written conn.new) result }
    ensures failed { end ≢ End.PeerFault → result ≡ End.PeerFault → Rose (C.faults conn.old) (C.faults conn.new) }
    ensures never_falls { C.faults conn.old ≤ C.faults conn.new }
    ensures left_stays { C.left conn.new ≡ C.left conn.old }
{
    match flush(conn, out) {
        Ok(()) => end,
        Err(error) => end_by(error),
    }
}

/// Answers a head that is refused, and ends.
fn refuse<C: Conn>(alloc: Global, conn: &mut C, out: &mut Vec<u8>, code: u32) -> End
    ensures finishes { Finishes End.Bad (C.written conn.old) (out.old.items ++ refused_text (refusal_for code)) (C.written conn.new) result }
    ensures failed { result ≡ End.PeerFault → Rose (C.faults conn.old) (C.faults conn.new) }
    ensures never_falls { C.faults conn.old ≤ C.faults conn.new }
    ensures left_stays { C.left conn.new ≡ C.left conn.old }
{
    let Ok(text) = refused(alloc, refusal_for(code)) else {
        return End::NoMemory;
    };
    match give(conn, out, text.as_bytes()) {
        Ok(()) => finish(conn, out, End::Bad),
        Err(error) => end_by(error),
    }
}

/// Serves one connection, which is read by way of a buffer.
fn serve_by<R: Wait, K: Keeper, C: Conn>(
    rt: &R,
    alloc: Global,
    routes: &Routes,
    desk: &mut Desk<K>,
    conn: &mut C,
    chunk: &mut [u8],
) -> Served
    requires { 0 < length chunk.old }
    ensures serves { Serves desk.old.catalogue (moment desk.old.entries (K.faults desk.old.keeper)) (moment desk.new.entries (K.faults desk.new.keeper))
        (C.left conn.old) (C.left conn.new) (C.written conn.old) (C.written conn.new) result }
    ensures peer_fault { result.end ≡ End.PeerFault → Rose (C.faults conn.old) (C.faults conn.new) }
    ensures never_falls { C.faults conn.old ≤ C.faults conn.new }
    ensures catalogue { desk.new.catalogue ≡ desk.old.catalogue }
    ensures keeper { K.faults desk.old.keeper ≤ K.faults desk.new.keeper }
{
    let mut requests = 0u64;
    let mut inbox = Inbox::new(alloc);
    let mut out = Vec::new(alloc);
    'requests: for _ in rt.forever() {
        match in_hand(alloc, inbox.rest()) {
            Ok(Hand::Whole { head, from, to }) => {
                requests = requests.saturating_add(1);
                let body = &inbox.rest()[from..to];
                if let Err(error) = answer(alloc, routes, desk, conn, &mut out, &head, body) {
                    return Served {
                        requests,
                        end: end_by(error),
                    };
                }
                if head.last {
                    let end = finish(conn, &mut out, End::Asked);
                    return Served { requests, end };
                }
                inbox.pass(to);
            }
            Ok(Hand::More) => match more(conn, chunk, &mut inbox, &mut out) {
                Ok(0) => return Served {
                    requests,
                    end: end_of(inbox.rest()),
                },
                Ok(_) => {}
                Err(error) => return Served {
                    requests,
                    end: end_by(error),
                },
            },
            Ok(Hand::Bad { code }) => {
                let end = refuse(alloc, conn, &mut out, code);
                return Served { requests, end };
            }
            Ok(Hand::TooLong) => {
                let end = finish(conn, &mut out, End::TooLong);
                return Served { requests, end };
            }
            Err(NoMemory) => return Served {
                requests,
                end: End::NoMemory,
            },
        }
    }
    unreachable!()
}

/// Serves one connection over a desk: answers each request that comes whole, in order, until the connection ends. Short
/// answers are collected, and sent before more is read.
pub fn serve_desk<R: Wait, K: Keeper, C: Conn>(
    rt: &R,
    alloc: Global,
    desk: &mut Desk<K>,
    conn: &mut C,
) -> Served
    // Each request that came whole is answered at the history that the one before left, by 503 only where the keeper
    // counted a fault at this very request; and all answers are written, in order, or at a fault of the peer, or for want
    // of memory, a front of them.
    ensures serves { Serves desk.old.catalogue (moment desk.old.entries (K.faults desk.old.keeper)) (moment desk.new.entries (K.faults desk.new.keeper))
        (C.left conn.old) (C.left conn.new) (C.written conn.old) (C.written conn.new) result }
    ensures peer_fault { result.end ≡ End.PeerFault → Rose (C.faults conn.old) (C.faults conn.new) }
    ensures never_falls { C.faults conn.old ≤ C.faults conn.new }
    ensures catalogue { desk.new.catalogue ≡ desk.old.catalogue }
    ensures keeper { K.faults desk.old.keeper ≤ K.faults desk.new.keeper }
{
    let (Ok(routes), Ok(mut chunk)) = (Routes::new(alloc), vec![in alloc; 0u8; CHUNK]) else {
        return Served {
            requests: 0,
            end: End::NoMemory,
        };
    };
    serve_by(rt, alloc, &routes, desk, conn, chunk.as_mut_slice())
}

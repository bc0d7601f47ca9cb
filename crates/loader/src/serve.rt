//! `serve`: the wiki of a database over HTTP, one connection after another.
use crate::end::End;
use clap::{Arg, Command, Error, value_parser};
use rl_base::{DirTree, FetchError, Tree};
use rl_cli::Status;
use rl_defs::{Catalog, CatalogError};
use rl_http::{TcpConn, serve_desk};
use rl_keeper::{Keeper, SqlKeeper};
use rl_names::{Counted, MAX_FILE_BYTES, NoMemory};
use rl_wiki::{Desk, OpenError};
use sqlite::Connection;
use std::alloc::Global;
use std::io::{self, Read};
use std::net::{Net, Shutdown, TcpListener, TcpStream};
use std::sync::Wait;
use std::time::{Duration, Instant};

/// How many seconds a peer may be silent where no option says so.
pub const IDLE: u64 = 10;

/// For how many seconds, and how often at most, the rest of what a peer sends is read once all is answered.
const LINGER: u64 = 1;

const LAST_READS: u32 = 65_536;

/// The words after `serve`.
#[derive(Drop)]
struct Words<'a> {
    db: &'a str,
    defs: &'a str,
    port: u16,
}

/// Reads the words after `serve`, of which the first is the command's name for a person.
fn read_words<'a>(alloc: Global, words: &'a [&'a str]) -> Result<Words<'a>, Error> {
    let db = Arg::new(alloc, "DB").required(true);
    let defs = Arg::new(alloc, "DEFS").required(true);
    let port = Arg::new(alloc, "PORT")
        .required(true)
        .value_parser(value_parser!(u16));
    let command = Command::new(alloc, "loader serve")
        .arg(db)?
        .arg(defs)?
        .arg(port)?;
    let found = command.try_get_matches_from(words)?;
    // Each is required, so each is there.
    Ok(Words {
        db: found.get_str("DB").unwrap_or(""),
        defs: found.get_str("DEFS").unwrap_or(""),
        port: found.get_one::<u16>("PORT").unwrap_or(0),
    })
}

/// Says a line on standard error. Where it takes nothing the status still tells.
fn say(rt: &HostRuntime, line: &str) {
    let _ = eprintln!(rt; "loader: {line}");
}

/// Sets the limits of time of a stream.
fn set_limits(stream: &TcpStream, idle: Duration) -> io::Result<()> {
    stream.set_nodelay(true)?;
    stream.set_read_timeout(Some(idle))?;
    stream.set_write_timeout(Some(idle))
}

/// Ends the writing side, and reads on for a second at most: what a peer still sends would else drop its answer.
fn linger(rt: &HostRuntime, mut stream: TcpStream) -> io::Result<()> {
    stream.shutdown(Shutdown::Write)?;
    let begun = Instant::now(rt)?;
    let mut rest = [0u8; 16_384];
    for _ in 0..LAST_READS {
        let Some(left) = Duration::from_secs(LINGER).checked_sub(begun.elapsed(rt)?) else {
            return Ok(());
        };
        stream.set_read_timeout(Some(left))?;
        if stream.read(&mut rest)? == 0 {
            return Ok(());
        }
    }
    Ok(())
}

/// Serves one connection, and says a line where it ends by a fault.
fn serve_one<L: Wait, K: Keeper>(
    rt: &HostRuntime,
    live: &L,
    desk: &mut Desk<K>,
    stream: TcpStream,
) {
    let mut conn = TcpConn::over(stream);
    let served = serve_desk(live, rt.alloc(), desk, &mut conn);
    match served.end {
        rl_http::End::Closed | rl_http::End::Cut => {}
        rl_http::End::Asked | rl_http::End::Bad | rl_http::End::TooLong => {
            // A peer that is gone has no answer to lose.
            let _ = linger(rt, conn.into_stream());
        }
        rl_http::End::PeerFault => say(
            rt,
            "a connection failed, or its peer was silent for too long",
        ),
        rl_http::End::NoMemory => say(rt, "a connection ended for want of memory"),
    }
}

/// Serves one connection after another.
fn serve_all<L: Wait, K: Keeper>(
    rt: &HostRuntime,
    live: &L,
    desk: &mut Desk<K>,
    listener: &TcpListener,
    idle: Duration,
) {
    for stream in listener.incoming() {
        match stream {
            Ok(stream) => match set_limits(&stream, idle) {
                Ok(()) => serve_one(rt, live, desk, stream),
                Err(_) => say(rt, "a connection takes no limits of time"),
            },
            Err(_) => say(rt, "a connection could not be taken"),
        }
    }
}

/// Says what is served, and serves it.
fn serve_desk_at<L: Wait, K: Keeper>(
    rt: &HostRuntime,
    live: &L,
    desk: &mut Desk<K>,
    listener: &TcpListener,
    idle: Duration,
) -> io::Result<()> {
    let address = listener.local_addr()?;
    let entries = desk.revisions();
    eprintln!(rt; "loader: listening on {address}, with {entries} entries")?;
    serve_all(rt, live, desk, listener, idle);
    Ok(())
}

/// How the program ends where what a keeper holds makes no desk. Of a bad entry a line is said.
fn unopened(rt: &HostRuntime, why: OpenError) -> Status {
    match why {
        OpenError::Failed => Status::ReadFault,
        OpenError::BadRecord { number } => {
            let _ = eprintln!(rt;
                "loader: entry {number} of the database breaks the rules of kept entries"
            );
            Status::ReadFault
        }
        OpenError::NoMemory => Status::NoMemory,
    }
}

/// Serves what a keeper holds.
fn serve_kept<L: Wait, K: Keeper + Drop>(
    rt: &HostRuntime,
    live: &L,
    keeper: K,
    catalog: Catalog,
    listener: &TcpListener,
    idle: Duration,
) -> Status {
    match Desk::open(rt.alloc(), keeper, catalog) {
        Ok(mut desk) => match serve_desk_at(rt, live, &mut desk, listener, idle) {
            Ok(()) => Status::Done,
            Err(_) => Status::WriteFault,
        },
        Err(turned) => unopened(rt, turned.why),
    }
}

/// Serves the database of a file, which is made where there is none.
fn serve_file<L: Wait>(
    rt: &HostRuntime,
    live: &L,
    file: &str,
    catalog: Catalog,
    listener: &TcpListener,
    idle: Duration,
) -> Status {
    let Ok(db) = Connection::open(rt, file) else {
        return Status::ReadFault;
    };
    match SqlKeeper::over(rt.alloc(), db) {
        Ok(keeper) => serve_kept(rt, live, keeper, catalog, listener, idle),
        Err(NoMemory) => Status::NoMemory,
    }
}

/// How the program ends where definitions are refused.
fn refused(breach: CatalogError) -> End {
    match breach {
        CatalogError::TooMany { what, count } => End::at(Status::TooLarge { what, count }, 2),
        CatalogError::NoMemory => End::plain(Status::NoMemory),
        breach => {
            let why = breach.rule().map_or(0, |rule| rule.number());
            let status = Status::BadInput {
                word: 2,
                line: 0,
                why,
            };
            End {
                breach: Some(breach),
                ..End::at(status, 2)
            }
        }
    }
}

/// Reads the definitions of a file.
fn definitions(rt: &HostRuntime, file: &str) -> Result<Catalog, End> {
    let mut tree = DirTree::new(rt, rt.alloc());
    let bytes = match tree.fetch(file, MAX_FILE_BYTES + 1) {
        Ok(bytes) => bytes,
        Err(FetchError::NoMemory) => return Err(End::plain(Status::NoMemory)),
        Err(_) => {
            return Err(End {
                reason: tree.reason(),
                ..End::at(Status::ReadFault, 2)
            });
        }
    };
    let count = bytes.as_bytes().len() as u64;
    if count > MAX_FILE_BYTES {
        let what = Counted::FileBytes;
        return Err(End::at(Status::TooLarge { what, count }, 2));
    }
    Catalog::read(rt.alloc(), bytes.as_bytes()).map_err(refused)
}

/// Serves a wiki by the words of a command line, of which `serve` is the first: those that follow name the database, the
/// definitions and the port. What is wrong with the words or the port is said here.
pub fn serve<L>(rt: &HostRuntime, live: &L, words: &[&str], idle: u64) -> Result<Status, End>
where
    L: Wait + Net<Listener = TcpListener, Stream = TcpStream>,
{
    let words = match read_words(rt.alloc(), words) {
        Ok(words) => words,
        Err(error) => {
            let _ = error.print(rt);
            return Ok(Status::BadWords);
        }
    };
    let catalog = definitions(rt, words.defs)?;
    let Ok(listener) = TcpListener::bind(live, ("127.0.0.1", words.port)) else {
        let port = words.port;
        let _ = eprintln!(rt; "loader: port {port} could not be listened on");
        return Ok(Status::WriteFault);
    };
    let idle = Duration::from_secs(idle);
    match serve_file(rt, live, words.db, catalog, &listener, idle) {
        Status::ReadFault => Err(End::at(Status::ReadFault, 1)),
        Status::NoMemory => Err(End::plain(Status::NoMemory)),
        status => Ok(status),
    }
}

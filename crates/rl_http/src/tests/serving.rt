//! Connections that are served: whole, in pieces, cut, with failing calls, and over loopback.
use crate::tests::answers::desk;
use crate::{End, TcpConn, serve_desk};
use rl_base::MemConn;
use rl_keeper::MemKeeper;
use rl_names::Blob;
use rl_wiki::Desk;
use std::alloc::Global;
use std::io::{Read, Write};
use std::net::{Net, OpenStream, Shutdown, TcpListener, TcpStream};
use std::process::Abort;
use std::sync::Wait;
use std::test::Fail;
use std::thread;

/// What comes over a connection, and what is to become of it.
struct Case {
    input: &'static [u8],
    written: &'static [u8],
    requests: u64,
    end: End,
}

/// The connection over these bytes, of which a call takes so many at most, and of which these calls fail.
fn conn(alloc: Global, input: &[u8], most: usize, failing: &[u64]) -> Result<MemConn, Fail> {
    let input = Blob::of(alloc, input)?;
    let failing = Vec::from_slice(alloc, failing)?;
    Ok(MemConn::in_pieces(alloc, input, most.max(1), failing)?)
}

/// Whether a case becomes what it is to become, in pieces of so many bytes.
fn becomes<R: Wait>(
    rt: &R,
    alloc: Global,
    desk: &mut Desk<MemKeeper>,
    case: &Case,
    most: usize,
) -> Result<bool, Fail> {
    let mut conn = conn(alloc, case.input, most, &[])?;
    let served = serve_desk(rt, alloc, desk, &mut conn);
    Ok(served.requests == case.requests && served.end == case.end && conn.written() == case.written)
}

const PLAIN: &[u8] = b"GET /load.php?modules=zz HTTP/1.1\r\nHost: w\r\n\r\n";

const ANSWER: &[u8] =
    b"HTTP/1.1 200 OK\r\nContent-Type: text/javascript; charset=utf-8\r\nCache-Control: public, max-age=300\r\nContent-Length: 35\r\n\r\nmw.loader.state({\"zz\":\"missing\"});\n";

/// Connections that change nothing.
const CASES: [Case; 7] = [
    Case {
        input: b"",
        written: b"",
        requests: 0,
        end: End::Closed,
    },
    Case {
        input: PLAIN,
        written: ANSWER,
        requests: 1,
        end: End::Closed,
    },
    Case {
        input: b"GET /lo",
        written: b"",
        requests: 0,
        end: End::Cut,
    },
    Case {
        input: b"POST /nope HTTP/1.1\r\nContent-Length: 3\r\n\r\nab",
        written: b"",
        requests: 0,
        end: End::Cut,
    },
    Case {
        input: b"GET /nope HTTP/1.0\r\n\r\nGET /",
        written: b"HTTP/1.1 404 Not Found\r\nContent-Type: text/plain\r\nContent-Length: 10\r\n\r\nnot found\n",
        requests: 1,
        end: End::Asked,
    },
    Case {
        input: b"GET / HTTP/1.1\r\nTransfer-Encoding: chunked\r\n\r\n",
        written: b"HTTP/1.1 400 Bad Request\r\nContent-Type: text/plain\r\nContent-Length: 12\r\n\r\nbad request\n",
        requests: 0,
        end: End::Bad,
    },
    Case {
        input: b"GET /edit HTTP/1.1\r\n\r\nPOST /nope HTTP/1.1\r\nconnection: x , Close\r\nContent-Length: 2\r\n\r\nabGET /",
        written: b"HTTP/1.1 405 Method Not Allowed\r\nContent-Type: text/plain\r\nContent-Length: 11\r\n\r\nbad method\nHTTP/1.1 404 Not Found\r\nContent-Type: text/plain\r\nContent-Length: 10\r\n\r\nnot found\n",
        requests: 2,
        end: End::Asked,
    },
];

#[test]
fn connections(rt: HostRuntime) -> Result<(), Fail> {
    let mut desk = desk(rt.alloc(), &[])?;
    for case in &CASES {
        for most in [1usize, 7, 70_000] {
            assert!(rt; becomes(&rt, rt.alloc(), &mut desk, case, most)?);
        }
    }
    Ok(())
}

/// Edits, one after another; the keeper fails at the second entry.
const EDITS: [Case; 3] = [
    Case {
        input: b"POST /edit HTTP/1.1\r\nX-Wiki-User: Root\r\nContent-Length: 24\r\n\r\ntitle=Talk&base=0&text=xPOST /edit HTTP/1.1\r\nX-Wiki-User: Root\r\nContent-Length: 24\r\n\r\ntitle=Talk&base=0&text=y",
        written: b"HTTP/1.1 200 OK\r\nContent-Type: application/json\r\nContent-Length: 14\r\n\r\n{\"revision\":1}HTTP/1.1 409 Conflict\r\nContent-Type: text/plain\r\nContent-Length: 11\r\n\r\nconflict 1\n",
        requests: 2,
        end: End::Closed,
    },
    Case {
        input: b"POST /edit HTTP/1.1\r\nX-Wiki-User: Root\r\nContent-Length: 24\r\n\r\ntitle=Talk&base=1&text=x",
        written: b"HTTP/1.1 503 Service Unavailable\r\nContent-Type: text/plain\r\nContent-Length: 12\r\n\r\nunavailable\n",
        requests: 1,
        end: End::Closed,
    },
    Case {
        input: b"GET /revision?title=Talk HTTP/1.1\r\n\r\n",
        written: b"HTTP/1.1 200 OK\r\nContent-Type: application/json\r\nContent-Length: 14\r\n\r\n{\"revision\":1}",
        requests: 1,
        end: End::Closed,
    },
];

#[test]
fn edits_over_a_connection(rt: HostRuntime) -> Result<(), Fail> {
    let mut desk = desk(rt.alloc(), &[2])?;
    for case in &EDITS {
        assert!(rt; becomes(&rt, rt.alloc(), &mut desk, case, 5)?);
    }
    Ok(())
}

/// How a connection over these bytes ends.
fn end_of<R: Wait>(
    rt: &R,
    alloc: Global,
    desk: &mut Desk<MemKeeper>,
    input: &[u8],
    failing: &[u64],
) -> Result<End, Fail> {
    let mut conn = conn(alloc, input, 70_000, failing)?;
    Ok(serve_desk(rt, alloc, desk, &mut conn).end)
}

#[test]
fn cut_at_each_byte(rt: HostRuntime) -> Result<(), Fail> {
    let mut desk = desk(rt.alloc(), &[])?;
    for at in 1..PLAIN.len() {
        assert!(rt; end_of(&rt, rt.alloc(), &mut desk, &PLAIN[..at], &[])? == End::Cut);
    }
    Ok(())
}

#[test]
fn each_call_fails(rt: HostRuntime) -> Result<(), Fail> {
    let mut desk = desk(rt.alloc(), &[])?;
    // It reads, writes, and reads once more.
    for call in 0..3u64 {
        assert!(rt; end_of(&rt, rt.alloc(), &mut desk, PLAIN, &[call])? == End::PeerFault);
    }
    assert!(rt; end_of(&rt, rt.alloc(), &mut desk, PLAIN, &[3])? == End::Closed);
    Ok(())
}

/// A head of so many bytes, and at least 24, and then a body of so many bytes.
fn padded(alloc: Global, front: &[u8], head: usize, body: usize) -> Result<Vec<u8>, Fail> {
    let mut bytes = Vec::from_slice(alloc, front)?;
    for _ in front.len()..head.saturating_sub(4) {
        bytes.push(b'a')?;
    }
    bytes.extend_from_slice(b"\r\n\r\n")?;
    for _ in 0..body {
        bytes.push(b'b')?;
    }
    Ok(bytes)
}

/// A head of so many bytes is one too long, or not.
const HEADS: [(usize, End); 3] = [
    (16_383, End::Closed),
    (16_384, End::Closed),
    (16_385, End::TooLong),
];

#[test]
fn heads_at_the_limit(rt: HostRuntime) -> Result<(), Fail> {
    let mut desk = desk(rt.alloc(), &[])?;
    for (length, end) in &HEADS {
        let input = padded(rt.alloc(), b"GET /nope HTTP/1.1\r\nX: ", *length, 0)?;
        assert!(rt; end_of(&rt, rt.alloc(), &mut desk, input.as_slice(), &[])? == *end);
    }
    Ok(())
}

#[test]
fn bodies_at_the_limit(rt: HostRuntime) -> Result<(), Fail> {
    let mut desk = desk(rt.alloc(), &[])?;
    let input = padded(
        rt.alloc(),
        b"POST /nope HTTP/1.1\r\nContent-Length: 8388608",
        0,
        8_388_608,
    )?;
    assert!(rt; end_of(&rt, rt.alloc(), &mut desk, input.as_slice(), &[])? == End::Closed);
    let input = padded(
        rt.alloc(),
        b"POST /nope HTTP/1.1\r\nContent-Length: 8388609",
        0,
        8,
    )?;
    assert!(rt; end_of(&rt, rt.alloc(), &mut desk, input.as_slice(), &[])? == End::Bad);
    Ok(())
}

/// What a peer is answered over a socket.
fn ask<R: Abort + Net>(rt: &R, alloc: Global, port: u16) -> Vec<u8> {
    let address = format!(in alloc; "127.0.0.1:{port}").expect(rt, "memory");
    let mut stream = TcpStream::connect(rt, address.as_str()).expect(rt, "a connection");
    stream.write_all(PLAIN).expect(rt, "to write");
    stream.shutdown(Shutdown::Write).expect(rt, "to end");
    let mut answer = Vec::new(alloc);
    stream.read_to_end(&mut answer).expect(rt, "to read");
    answer
}

/// Serves one peer of a listener, and answers how the connection ended.
fn serve_one<R: Abort + Wait>(rt: &R, alloc: Global, listener: &TcpListener) -> End {
    let mut desk = desk(alloc, &[]).expect(rt, "a desk");
    let (stream, _) = listener.accept().expect(rt, "a peer");
    let mut conn = TcpConn::over(stream);
    serve_desk(rt, alloc, &mut desk, &mut conn).end
}

#[test]
fn over_loopback(rt: HostRuntime) {
    let listener = TcpListener::bind(&rt, "127.0.0.1:0").expect(&rt, "a port");
    let port = listener.local_addr().expect(&rt, "an address").port();
    let (end, answer) = thread::join(
        &rt,
        || serve_one(&rt, rt.alloc(), &listener),
        || ask(&rt, rt.alloc(), port),
    );
    assert!(&rt; end == End::Closed);
    assert!(&rt; answer.as_slice() == ANSWER);
}

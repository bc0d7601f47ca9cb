//! Heads that are read or refused, and what is routed where.
use crate::{HeadRead, Route, read_head, route};
use rl_names::NoMemory;
use std::alloc::Global;
use std::test::Fail;

/// How many bytes the head has, 0 where more may make one, or the code that refuses it.
fn read(alloc: Global, bytes: &[u8]) -> Result<u32, NoMemory> {
    if bytes.len() > 65_536 {
        return Err(NoMemory);
    }
    match read_head(alloc, bytes)? {
        HeadRead::Whole { used, .. } => Ok(used),
        HeadRead::Part => Ok(0),
        HeadRead::Bad { code } => Ok(code),
    }
}

/// Heads in the order of the rules that refuse them, each with a later fault in it.
const HEADS: [(&[u8], u32); 14] = [
    (b"GET /load.php?modules=zz HTTP/1.1\r\nHost: w\r\n\r\n", 46),
    (b"GET / HTTP/1.0\n\nrest", 16),
    (b"", 0),
    (b"GET / HTTP/1.1\r\nHost", 0),
    (b"GET / HTTP/2.0\r\n\r\n", 400),
    (b"G\x00T / HTTP/1.1\r\n\r\n", 400),
    (
        b"GET /\xFF HTTP/1.1\r\nContent-Length: 8388609\r\n\r\n",
        400,
    ),
    (
        b"POST / HTTP/1.1\r\nTransfer-Encoding: chunked\r\nContent-Length: 8388609\r\n\r\n",
        400,
    ),
    (b"POST / HTTP/1.1\r\nContent-Length: 8388608\r\n\r\n", 44),
    (
        b"POST / HTTP/1.1\r\nContent-Length: +1\r\nX-Wiki-User: a|b\r\n\r\n",
        400,
    ),
    (
        b"POST / HTTP/1.1\r\nContent-Length: 9\r\ncontent-length: 9\r\n\r\n",
        400,
    ),
    (
        b"POST / HTTP/1.1\r\nContent-Length: 8388609\r\nX-Wiki-User: a|b\r\n\r\n",
        413,
    ),
    (
        b"POST / HTTP/1.1\r\nContent-Length: 99999999999999999999\r\n\r\n",
        413,
    ),
    (
        b"GET / HTTP/1.1\r\nX-Wiki-User: Ann\r\nX-Wiki-User: a|b\r\n\r\n",
        400,
    ),
];

#[test]
fn request_heads(rt: HostRuntime) -> Result<(), Fail> {
    for (bytes, want) in &HEADS {
        let answer = read(rt.alloc(), bytes)?;
        assert_eq!(rt; answer, *want);
    }
    Ok(())
}

/// The viewer that a head names, and whether the connection ends after its answer.
fn told(alloc: Global, bytes: &[u8]) -> Result<String, Fail> {
    let mut out = String::new(alloc);
    if bytes.len() > 65_536 {
        return Ok(out);
    }
    if let HeadRead::Whole { head, .. } = read_head(alloc, bytes)? {
        out.push_str(head.viewer.as_str())?;
        out.push_str(if head.last { " last" } else { " goes on" })?;
    }
    Ok(out)
}

#[test]
fn what_heads_say(rt: HostRuntime) -> Result<(), Fail> {
    for (bytes, want) in [
        (&b"GET / HTTP/1.1\r\n\r\n"[..], " goes on"),
        (b"GET / HTTP/1.0\r\n\r\n", " last"),
        (
            b"GET / HTTP/1.1\r\nX-Wiki-User: Ben\r\nX-Wiki-User: Ann_Lee\r\n\r\n",
            "Ann Lee goes on",
        ),
        (
            b"GET / HTTP/1.1\r\nConnection: closed, keep-alive\r\n\r\n",
            " goes on",
        ),
        (
            b"GET / HTTP/1.1\r\nConnection: a\r\nconnection: keep-alive , CLOSE\r\n\r\n",
            " last",
        ),
    ] {
        let answer = told(rt.alloc(), bytes)?;
        assert_eq!(rt; answer.as_str(), want);
    }
    Ok(())
}

#[test]
fn routes(rt: HostRuntime) -> Result<(), Fail> {
    for (method, path, want) in [
        ("GET", "/load.php", Route::Load),
        ("POST", "/edit", Route::Edit),
        ("POST", "/option", Route::Choice),
        ("GET", "/revision", Route::Revision),
        ("GET", "/edit", Route::NotAllowed),
        ("HEAD", "/load.php", Route::NotAllowed),
        ("POST", "/nope", Route::NotFound),
        ("GET", "/load.php/", Route::NotFound),
        ("GET", "", Route::NotFound),
    ] {
        let answer = route(rt.alloc(), method, path)?;
        assert!(rt; answer == want);
    }
    Ok(())
}

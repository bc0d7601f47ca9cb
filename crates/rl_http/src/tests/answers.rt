//! Answers to requests, with every code.
use crate::{HeadRead, Routes, read_head, reply_to};
use rl_defs::Catalog;
use rl_keeper::MemKeeper;
use rl_names::{NoMemory, Text};
use rl_wiki::{Desk, OpenError};
use std::alloc::Global;
use std::test::Fail;

/// A desk without entries, of which Root is an admin. The keeper's calls of these numbers fail.
pub(crate) fn desk(alloc: Global, failing: &[u64]) -> Result<Desk<MemKeeper>, OpenError> {
    let Ok(catalog) = Catalog::read(alloc, b"[wiki]\nadmins = [\"Root\"]\n") else {
        return Err(OpenError::NoMemory);
    };
    let Ok(failing) = Vec::from_slice(alloc, failing) else {
        return Err(OpenError::NoMemory);
    };
    let keeper = MemKeeper::new(alloc, Vec::new(alloc), failing)?;
    match Desk::open(alloc, keeper, catalog) {
        Ok(desk) => Ok(desk),
        Err(turned) => Err(turned.why),
    }
}

/// The answer to a request, whose body follows its head.
fn answer(
    alloc: Global,
    routes: &Routes,
    desk: &mut Desk<MemKeeper>,
    request: &[u8],
) -> Result<Text, NoMemory> {
    if request.len() > 65_536 {
        return Err(NoMemory);
    }
    match read_head(alloc, request)? {
        HeadRead::Whole { used, head } => {
            let (_, body) = request.split_at(request.len().min(used as usize));
            reply_to(alloc, routes, desk, &head, body)
        }
        HeadRead::Part | HeadRead::Bad { .. } => Err(NoMemory),
    }
}

fn is_wanted(answer: &Text, code: &str, body: &str) -> bool {
    answer.as_str().starts_with(code) && answer.as_str().ends_with(body)
}

/// Requests, one after another, with the code and the end of the answer to each. The keeper fails at the third entry.
const REQUESTS: [(&[u8], &str, &str); 20] = [
    (
        b"GET /load.php?modules=zz HTTP/1.1\r\n\r\n",
        "HTTP/1.1 200 OK\r\n",
        "\r\n\r\nmw.loader.state({\"zz\":\"missing\"});\n",
    ),
    (
        b"GET /l%6Fad.php?only=styles HTTP/1.1\r\n\r\n",
        "HTTP/1.1 200 OK\r\nContent-Type: text/css; charset=utf-8\r\n",
        "Content-Length: 0\r\n\r\n",
    ),
    (
        b"GET /load.php?user=Ann HTTP/1.1\r\n\r\n",
        "HTTP/1.1 200 OK\r\n",
        "",
    ),
    (
        b"GET /nope HTTP/1.1\r\n\r\n",
        "HTTP/1.1 404 Not Found\r\n",
        "\r\n\r\nnot found\n",
    ),
    (
        b"POST /nope HTTP/1.1\r\n\r\n",
        "HTTP/1.1 404 Not Found\r\n",
        "\r\n\r\nnot found\n",
    ),
    (
        b"GET /%FF HTTP/1.1\r\n\r\n",
        "HTTP/1.1 404 Not Found\r\n",
        "\r\n\r\nnot found\n",
    ),
    (
        b"GET http://w/load.php HTTP/1.1\r\n\r\n",
        "HTTP/1.1 404 Not Found\r\n",
        "\r\n\r\nnot found\n",
    ),
    (
        b"GET /edit HTTP/1.1\r\n\r\n",
        "HTTP/1.1 405 Method Not Allowed\r\n",
        "\r\n\r\nbad method\n",
    ),
    (
        b"POST /edit HTTP/1.1\r\nX-Wiki-User: Root\r\n\r\ntitle=Talk&base=0&text=x",
        "HTTP/1.1 200 OK\r\n",
        "\r\n\r\n{\"revision\":1}",
    ),
    (
        b"POST /edit HTTP/1.1\r\nX-Wiki-User: Root\r\n\r\ntitle=Talk&base=0&text=x",
        "HTTP/1.1 409 Conflict\r\n",
        "\r\n\r\nconflict 1\n",
    ),
    (
        b"POST /edit HTTP/1.1\r\n\r\ntitle=Talk&base=1&text=x",
        "HTTP/1.1 403 Forbidden\r\n",
        "\r\n\r\nnot allowed\n",
    ),
    (
        b"POST /edit HTTP/1.1\r\n\r\ntitle=a|b&base=+1&text=x",
        "HTTP/1.1 400 Bad Request\r\n",
        "\r\n\r\nbad request\n",
    ),
    (
        b"POST /edit HTTP/1.1\r\nX-Wiki-User: Root\r\n\r\ntitle=a|b&base=1",
        "HTTP/1.1 400 Bad Request\r\n",
        "\r\n\r\nbad request\n",
    ),
    (
        b"POST /edit HTTP/1.1\r\nX-Wiki-User: Root\r\n\r\ntitle=Talk&base=18446744073709551616",
        "HTTP/1.1 400 Bad Request\r\n",
        "\r\n\r\nbad request\n",
    ),
    (
        b"POST /option HTTP/1.1\r\nX-Wiki-User: Ann\r\n\r\nkey=skin&value=vector",
        "HTTP/1.1 200 OK\r\n",
        "\r\n\r\n{\"revision\":2}",
    ),
    (
        b"POST /option HTTP/1.1\r\nX-Wiki-User: Ann\r\n\r\nvalue=vector",
        "HTTP/1.1 400 Bad Request\r\n",
        "\r\n\r\nbad request\n",
    ),
    (
        b"POST /option HTTP/1.1\r\n\r\nkey=skin&value=vector",
        "HTTP/1.1 403 Forbidden\r\n",
        "\r\n\r\nnot allowed\n",
    ),
    (
        b"GET /revision?title=_Talk HTTP/1.1\r\n\r\n",
        "HTTP/1.1 200 OK\r\n",
        "\r\n\r\n{\"revision\":1}",
    ),
    (
        b"GET /revision HTTP/1.1\r\n\r\n",
        "HTTP/1.1 400 Bad Request\r\n",
        "\r\n\r\nbad request\n",
    ),
    (
        b"POST /edit HTTP/1.1\r\nX-Wiki-User: Root\r\n\r\ntitle=Talk&base=1&text=x",
        "HTTP/1.1 503 Service Unavailable\r\n",
        "\r\n\r\nunavailable\n",
    ),
];

/// The number of the first request that is answered otherwise than wanted, and how many there are where none is.
fn first_other(
    alloc: Global,
    routes: &Routes,
    desk: &mut Desk<MemKeeper>,
) -> Result<usize, NoMemory> {
    let mut right = 0usize;
    for (request, code, body) in &REQUESTS {
        let text = answer(alloc, routes, desk, request)?;
        if !is_wanted(&text, code, body) {
            return Ok(right);
        }
        right = right.saturating_add(1);
    }
    Ok(right)
}

#[test]
fn status_codes(rt: HostRuntime) -> Result<(), Fail> {
    let alloc = rt.alloc();
    let routes = Routes::new(alloc)?;
    let mut desk = desk(alloc, &[3])?;
    let right = first_other(alloc, &routes, &mut desk)?;
    assert_eq!(rt; right, 20);
    assert!(rt; desk.revisions() == 2 && desk.fault_count() == 1);
    Ok(())
}

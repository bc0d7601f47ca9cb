//! Scripts that are printed, and scripts with a fault.
use super::driven;
use crate::Status;
use std::test::Fail;

const CHAIN_OF_THREE: &str = r#"["row","A","aaaaa",["B"]]
["row","B","bbbbb",["C"]]
["row","C","ccccc"]
["using",["A"]]
["impl","A@aaaaa","a()"]
["impl","B@bbbbb","b()"]
["impl","C@ccccc","c()"]
"#;

const CHAIN_OF_THREE_OUTPUT: &str = "\
using ok
used
used
used
ran C@ccccc 3
ran B@bbbbb 3
ran A@aaaaa 3
summary
view 0
ready A@aaaaa
ready B@bbbbb
ready C@ccccc
executed A@aaaaa 3
executed B@bbbbb 3
executed C@ccccc 3
";

/// A line at fault.
const fn bad(line: u32, why: u32) -> Status {
    Status::BadInput { word: 1, line, why }
}

/// Scripts that are printed.
#[test]
fn printed(rt: HostRuntime) -> Result<(), Fail> {
    let alloc = rt.alloc();
    for (name, script, status, output) in [
        (
            "chain_of_three",
            CHAIN_OF_THREE,
            Status::Done,
            CHAIN_OF_THREE_OUTPUT,
        ),
        (
            "unknown",
            r#"["row","A","aaaaa",["B"]]
["row","B","bbbbb",["A","zz","nn"]]
["using",["A"]]"#,
            Status::NotReady,
            "using unknown nn\nsummary\nview 0\n",
        ),
        (
            "cycle",
            r#"["row","A","aaaaa",["B"]]
["row","B","bbbbb",["A"]]
["using",["A"]]"#,
            Status::NotReady,
            "using cycle A\nsummary\nview 0\n",
        ),
        ("no bytes", "", Status::Done, "summary\nview 0\n"),
        (
            "two carriage returns: the line's end and a blank of JSON",
            "[\"using\",[]]\r\r",
            Status::Done,
            "using ok\nsummary\nview 0\n",
        ),
        (
            "blank lines, comments and carriage returns",
            "# a row\r\n\r\n\n[\"row\",\"A\",\"aaaaa\"]\r\n#[\"using\",[\"zz\"]]\n\r\n[\"using\",[\"A\"]]",
            Status::NotReady,
            "using ok\nsummary\nview 0\nloading A@aaaaa\n",
        ),
        (
            "blanks between words",
            "  [ \"row\" ,\t\"A\", \"aaaaa\" , [ ] ]\n[\"using\",\r[\"A\" ]] \n\t[\"impl\",\"A@aaaaa\",\"a()\"]",
            Status::Done,
            "using ok\nused\nran A@aaaaa 3\nsummary\nview 0\nready A@aaaaa\nexecuted A@aaaaa 3\n",
        ),
        (
            "a part before its row is touched",
            r#"["row","A","aaaaa"]
["impl","A@aaaaa","a()"]
["impl","B@bbbbb","b()"]
["using",["A"]]"#,
            Status::NotReady,
            "passed\npassed\nusing ok\nsummary\nview 0\nloading A@aaaaa\n",
        ),
        (
            "a part that comes twice",
            r#"["row","A","aaaaa"]
["using",["A"]]
["impl","A@bbbbb","a();"]
["impl","A@aaaaa","a()"]"#,
            Status::Done,
            "using ok\nused\nran A@bbbbb 4\npassed\nsummary\nview 0\nready A@bbbbb\nexecuted A@bbbbb 4\n",
        ),
        (
            "the least row of those that may run",
            r#"["row","C","ccccc",["A"]]
["row","B","bbbbb",["A"]]
["row","A","aaaaa"]
["using",["B","C"]]
["impl","B@bbbbb",""]
["impl","C@ccccc",""]
["impl","A@aaaaa",""]
["using",["A"]]"#,
            Status::Done,
            "using ok\nused\nused\nused\nran A@aaaaa 0\nran C@ccccc 0\nran B@bbbbb 0\nusing ok\nsummary\nview 0\n\
ready C@ccccc\nready B@bbbbb\nready A@aaaaa\nexecuted C@ccccc 0\nexecuted B@bbbbb 0\nexecuted A@aaaaa 0\n",
        ),
        (
            "loaded, and what it needs is not there",
            r#"["row","A","aaaaa",["B"]]
["row","B","bbbbb"]
["row","C","ccccc"]
["using",["A"]]
["impl","A@aaaaa","\u00e4\n"]"#,
            Status::NotReady,
            "using ok\nused\nsummary\nview 0\nloaded A@aaaaa\nloading B@bbbbb\n",
        ),
    ] {
        let (ended, written) = driven(alloc, script.as_bytes())?;
        assert_eq!(rt; ended, status, "{name}");
        assert_eq!(rt; written.as_slice(), output.as_bytes(), "{name}");
    }
    Ok(())
}

/// Scripts with a fault, of which nothing is printed.
#[test]
fn faulty(rt: HostRuntime) -> Result<(), Fail> {
    let alloc = rt.alloc();
    for (script, status) in [
        ("[\"using\",[\"A\"]]\n[\"usin\",[]]", bad(2, 1)),
        ("[\"usin\",[]]\n[\"using\",[\"A\"]]", bad(1, 1)),
        ("\n#\n\r\n[\"using\",\"A\"]", bad(4, 1)),
        (" ", bad(1, 1)),
        (" # x", bad(1, 1)),
        ("\u{feff}[\"using\",[]]", bad(1, 1)),
        ("[\"using\",[]]\u{b}", bad(1, 1)),
        ("[\"row\",\"a,b\",\"aaaaa\"]", bad(1, 1)),
        ("[\"row\",\"A\",\"aaaa\"]", bad(1, 1)),
        ("[\"row\",\"A\",null]", bad(1, 1)),
        ("[\"row\",\"A\",\"aaaaa\",null]", bad(1, 1)),
        ("[\"row\",\"A\",\"aaaaa\",[],1]", bad(1, 1)),
        ("[\"impl\",\"A\",\"a()\"]", bad(1, 1)),
        ("[\"load\",\"A\"]", bad(1, 1)),
        ("[\"state\",\"A\",\"ready\"]", bad(1, 1)),
        ("[\"features\",null]", bad(1, 1)),
        ("[\"take\"]", bad(1, 1)),
        ("[\"using\",[]]\n[\"row\",\"A\",\"aaaaa\"]", bad(2, 3)),
        ("[\"using\",[]]\n[\"row\",\"A\"]", bad(2, 1)),
        (
            "[\"row\",\"A\",\"aaaaa\"]\n[\"row\",\"A\",\"bbbbb\"]",
            bad(0, 22),
        ),
        (
            "[\"row\",\"A\",\"aaaaa\"]\n[\"row\",\"A\",\"bbbbb\"]\n[]",
            bad(3, 1),
        ),
    ] {
        let (ended, written) = driven(alloc, script.as_bytes())?;
        assert_eq!(rt; ended, status, "{script}");
        assert!(rt; written.is_empty(), "{script}");
    }
    let (ended, _) = driven(alloc, b"[\"usin\",[]]\n\xff")?;
    assert_eq!(rt; ended, bad(0, 4));
    Ok(())
}

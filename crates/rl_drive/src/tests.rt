//! Scripts and what they come to, and steps of every kind.
ghost use Rattle.std.specs.Prelude.{IfOk, IsTrue};
ghost use Rattle.rl_view_spec.specs.Rows.{has_own_group, has_version_unless_private};

use crate::{DriveError, Driven, drive, play};
use rl_base::Hears;
use rl_names::{Dep, Group, Key, Name, NoMemory, Row, Seq, StateKind, Text, Version};
use rl_registry::Registry;
use rl_script_spec::{Step, Unready};
use std::alloc::Global;
use std::test::Fail;

/// Observers who throw for the module of one name.
#[derive(Drop)]
struct ThrowFor {
    name: &'static [u8],
}

impl Hears for ThrowFor {
    ghost use Rattle.std.specs.Prelude.{◌≡◌, [], bytes_eq};

    ghost told = { λ _. [] };

    ghost says = { λ t k s. bytes_eq k.name t.name.now };

    ghost same = { λ first t. first ≡ t };

    fn hear(&mut self, key: &Key, _script: &[u8]) -> Result<bool, NoMemory> {
        Ok(key.name.as_bytes() == self.name)
    }
}

/// A line that says why not everything was served.
fn told(alloc: Global, unready: &Option<Unready>) -> Result<String, NoMemory> {
    match unready {
        None => Ok(String::from_str(alloc, "done\n")?),
        Some(Unready::Refused { step, name, why }) => {
            let name = name.as_str();
            Ok(format!(in alloc; "step {step}: {name} {why:?}\n")?)
        }
        Some(
            Unready::NotReady {
                name,
                state,
                member,
                blame,
            },
        ) => {
            let (name, member) = (name.as_str(), member.as_str());
            Ok(format!(in alloc; "{name} {state:?}: {member} {blame:?}\n")?)
        }
    }
}

/// What a script comes to, where a module of this name throws: what is printed for it, and a line that says why not all is
/// ready; or why it came to nothing.
fn driven(alloc: Global, script: &[u8], thrown: &'static [u8]) -> Result<Vec<u8>, NoMemory> {
    match drive(alloc, script, &mut ThrowFor { name: thrown }) {
        Ok(
            Driven {
                mut text,
                ready: _,
                unready,
            },
        ) => {
            let end = told(alloc, &unready)?;
            text.extend_from_slice(end.as_bytes())?;
            Ok(text)
        }
        Err(DriveError::BadInput { line, why }) => {
            Ok(format!(in alloc; "bad line {line} {why}\n")?.into_bytes())
        }
        Err(DriveError::TooLarge { what, count }) => {
            Ok(format!(in alloc; "too many {what:?} {count}\n")?.into_bytes())
        }
        Err(DriveError::NoMemory) => Err(NoMemory),
    }
}

const CHAIN_OF_THREE: &str = r#"["row","A","aaaaa",["B"]]
["row","B","bbbbb",["C"]]
["row","C","ccccc"]
["using",["A"]]
["impl","A@aaaaa","a()"]
["impl","B@bbbbb","b()"]
["impl","C@ccccc","c()"]
"#;

const CHAIN_OF_THREE_OUTPUT: &str = "\
using ok
used
used
used
ran C@ccccc 3
ran B@bbbbb 3
ran A@aaaaa 3
summary
view 0
ready A@aaaaa
ready B@bbbbb
ready C@ccccc
executed A@aaaaa 3
executed B@bbbbb 3
executed C@ccccc 3
done
";

/// Scripts, and what they come to.
const SCRIPTS: [(&str, &str); 9] = [
    (CHAIN_OF_THREE, CHAIN_OF_THREE_OUTPUT),
    // a request that is refused touches nothing, and what it names is not ready
    (
        r#"["row","A","aaaaa"]
["row","B","bbbbb",["A"]]
["using",["A"]]
["using",["B","zz"]]
["impl","B@bbbbb","b()"]
["impl","A@aaaaa","a()"]"#,
        "using ok\nusing unknown zz\npassed\nused\nran A@aaaaa 3\n\
summary\nview 0\nready A@aaaaa\nexecuted A@aaaaa 3\nstep 2: zz Unknown\n",
    ),
    // an unknown name comes before one that leads back to itself
    (
        r#"["row","A","aaaaa",["A"]]
["row","B","bbbbb",["A","zz"]]
["using",["B"]]
["using",["A"]]"#,
        "using unknown zz\nusing cycle A\nsummary\nview 0\nstep 1: zz Unknown\n",
    ),
    // two ways to one row; names and dependencies that stand twice; lengths are in bytes
    (
        r#"["row","D","ddddd",["B","C"]]
["row","B","bbbbb",["E"]]
["row","C","ccccc",["E","E"]]
["row","E","eeeee"]
["using",["D","D","E"]]
["impl","D@ddddd","d()"]
["impl","C@ccccc","c()"]
["impl","B@bbbbb",""]
["impl","E@eeeee","e(é)"]"#,
        "using ok\nused\nused\nused\nused\nran E@eeeee 5\nran B@bbbbb 0\nran C@ccccc 3\nran D@ddddd 3\n\
summary\nview 0\nready D@ddddd\nready B@bbbbb\nready C@ccccc\nready E@eeeee\n\
executed D@ddddd 3\nexecuted B@bbbbb 0\nexecuted C@ccccc 3\nexecuted E@eeeee 5\ndone\n",
    ),
    // what ran for one request is there for the next; a version that is not the row's
    (
        r#"["row","@w/a","aaaaa",["B"]]
["row","B","bbbbb"]
["using",["B"]]
["impl","B@00000","b()"]
["using",["@w/a"]]
["impl","@w/a@aaaaa","a()"]"#,
        "using ok\nused\nran B@00000 3\nusing ok\nused\nran @w/a@aaaaa 3\n\
summary\nview 0\nready @w/a@aaaaa\nready B@00000\nexecuted @w/a@aaaaa 3\nexecuted B@00000 3\ndone\n",
    ),
    // of what A waits for the least name is blamed, and not A, which has its part
    (
        r#"["row","A","aaaaa",["d","c"]]
["row","d","ddddd"]
["row","c","ccccc"]
["load",["A"]]
["impl","A@aaaaa","a()"]
["state","d","error"]
["state","c","missing"]"#,
        "load dropped 0\nused\nused\nused\nsummary\nview 0\n\
error A@aaaaa\nerror d@ddddd\nmissing c@ccccc\nA Error: c Missing\n",
    ),
    // a step counts where it is no request; a name that is dropped is told before one that is not ready
    (
        r#"["row","A","aaaaa"]
["row","B","bbbbb",["B"]]
["impl","A@aaaaa","a()"]
["load",["A"]]
["load",["A","B"]]"#,
        "passed\nload dropped 0\nload dropped 1\nsummary\nview 0\nloading A@aaaaa\nstep 3: B Cycle\n",
    ),
    (
        "[\"row\",\"A\",\"aaaaa\"]\n[\"row\",\"A\",\"aaaaa\"]\n[\"using\"]",
        "bad line 3 1\n",
    ),
    (
        "[\"using\",[\"A\"]]\n[\"row\",\"A\",\"aaaaa\",[\"B\"]]",
        "bad line 2 3\n",
    ),
];

#[test]
fn scripts(rt: HostRuntime) -> Result<(), Fail> {
    let alloc = rt.alloc();
    for (script, output) in SCRIPTS {
        let printed = driven(alloc, script.as_bytes(), b"")?;
        assert_eq!(rt; printed.as_slice(), output.as_bytes(), "of {script}");
    }
    Ok(())
}

/// A row that has two twins, with so many dependencies.
fn twins(alloc: Global, dependencies: usize) -> Result<String, NoMemory> {
    let mut row = String::from_str(alloc, "[\"row\",\"A\",\"aaaaa\",[\"B\"")?;
    for _ in 1..dependencies {
        row.push_str(",\"B\"")?;
    }
    Ok(format!(in alloc; "{row}]]\n{row}]]\n{row}]]")?)
}

/// Dependencies are counted before names are compared.
#[test]
fn refused_rows(rt: HostRuntime) -> Result<(), Fail> {
    let alloc = rt.alloc();
    for (dependencies, want) in [
        (256, "bad line 0 22\n"),
        (257, "too many Dependencies 257\n"),
        (258, "too many Dependencies 258\n"),
    ] {
        let script = twins(alloc, dependencies)?;
        let answer = driven(alloc, script.as_bytes(), b"")?;
        assert_eq!(rt; answer.as_slice(), want.as_bytes(), "of {dependencies}");
    }
    Ok(())
}

fn dependencies(alloc: Global, names: &[&str]) -> Result<Vec<Dep>, NoMemory> {
    let mut deps = Vec::new(alloc);
    for name in names {
        deps.push(Dep::Named(Text::of(alloc, name)?))?;
    }
    Ok(deps)
}

/// A row of this wiki. The feature `f` skips the row `S`, and the row `P` is private.
fn row(alloc: Global, name: &str, deps: Vec<Dep>) -> Result<Row, Fail>
    ensures version { IfOk result (λ row. IsTrue (has_version_unless_private row)) }
    ensures group { IfOk result (λ row. IsTrue (has_own_group row)) }
{
    let version = Version::read(b"aaaaa").ok_or("a version")?;
    let (version, group) = if name == "P" {
        (None, Group::Private)
    } else {
        (Some(version), Group::Plain)
    };
    let skip = if name == "S" {
        Some(Text::of(alloc, "f")?)
    } else {
        None
    };
    Ok(Row {
        name: Name::read(alloc, name.as_bytes())?,
        version,
        deps: Seq::of(deps),
        group,
        source: Text::of(alloc, "")?,
        skip,
    })
}

/// The registry of these rows, under the feature `f`.
fn registry(alloc: Global, table: &[(&str, &[&str])]) -> Result<Registry, Fail> {
    let mut rows = Vec::new(alloc);
    for (name, needs) in table {
        let deps = dependencies(alloc, needs)?;
        rows.push(row(alloc, name, deps)?)?;
    }
    let features = [Text::of(alloc, "f")?];
    Ok(Registry::read(alloc, rows, &features)?)
}

fn texts(alloc: Global, texts: &[&str]) -> Result<Seq<Text>, NoMemory> {
    let mut copies = Vec::new(alloc);
    for text in texts {
        copies.push(Text::of(alloc, text)?)?;
    }
    Ok(Seq::of(copies))
}

/// The step of a word: a request for these names, or a part under the first of them. A word of no step is the script of
/// an implementation.
fn step(alloc: Global, word: &str, names: &[&str]) -> Result<Step, Fail> {
    let first = names.first().ok_or("a name")?;
    match word {
        "using" => Ok(Step::Using {
            names: texts(alloc, names)?,
        }),
        "load" => Ok(Step::Load {
            names: texts(alloc, names)?,
        }),
        "missing" => Ok(Step::State {
            name: Text::of(alloc, first)?,
            kind: StateKind::Missing,
        }),
        "error" => Ok(Step::State {
            name: Text::of(alloc, first)?,
            kind: StateKind::Error,
        }),
        _ => Ok(Step::Impl {
            key: Key::split(alloc, first.as_bytes())?,
            script: Text::of(alloc, word)?,
        }),
    }
}

fn steps(alloc: Global, table: &[(&str, &[&str])]) -> Result<Vec<Step>, Fail> {
    let mut steps = Vec::new(alloc);
    for (word, names) in table {
        steps.push(step(alloc, word, names)?)?;
    }
    Ok(steps)
}

/// `A` needs `S`, which is skipped and so does not need `C`. `F` needs `P`, which is private.
const ROWS: [(&str, &[&str]); 7] = [
    ("A", &["S"]),
    ("S", &["C"]),
    ("C", &[]),
    ("D", &["zz"]),
    ("E", &["E"]),
    ("F", &["P"]),
    ("P", &[]),
];

/// Steps of the whole grammar, whether all is ready at the end, and what is printed.
const STEPS: [(&[(&str, &[&str])], bool, &str); 4] = [
    (&[], true, "summary\nview 0\n"),
    (
        &[("using", &["A"]), ("a()", &["A@aaaaa"])],
        true,
        "using ok\nused\nran A@aaaaa 3\n\
summary\nview 0\nready A@aaaaa\nready S@aaaaa\nexecuted A@aaaaa 3\n",
    ),
    (
        &[("load", &["P"]), ("p()", &["P@ppppp"])],
        false,
        "load dropped 0\npassed\n\
summary\nview 0\nerror P\n",
    ),
    (
        &[
            ("using", &["A", "D"]),
            ("using", &["E"]),
            ("load", &["D", "A", "x", "F", "x"]),
            ("c()", &["C@ccccc"]),
            ("s()", &["S@sssss"]),
            ("a();", &["A@bbbbb"]),
            ("error", &["P"]),
            ("f()", &["F@fffff"]),
            ("missing", &["F"]),
            ("missing", &["x"]),
            ("load", &["C"]),
            ("missing", &["C"]),
        ],
        false,
        "using unknown zz\nusing cycle E\nload dropped 3\npassed\npassed\n\
used\nran A@bbbbb 4\npassed\nused\npassed\npassed\nload dropped 0\nused\n\
summary\nview 0\nready A@bbbbb\nready S@aaaaa\nmissing C@aaaaa\nerror F@fffff\nerror P\nexecuted A@bbbbb 4\n",
    ),
];

#[test]
fn steps_by_hand(rt: HostRuntime) -> Result<(), Fail> {
    let alloc = rt.alloc();
    for (played, ready, output) in STEPS {
        let steps = steps(alloc, played)?;
        let registry = registry(alloc, &ROWS)?;
        let mut nobody = ThrowFor { name: b"" };
        let driven = play(alloc, registry, steps.as_slice(), &mut nobody)?;
        assert_eq!(rt; driven.text.as_slice(), output.as_bytes());
        assert_eq!(rt; driven.ready, ready);
    }
    Ok(())
}

/// `B` throws, so that `A`, which needs it, never runs.
#[test]
fn a_module_throws(rt: HostRuntime) -> Result<(), Fail> {
    let alloc = rt.alloc();
    let printed = driven(alloc, CHAIN_OF_THREE.as_bytes(), b"B")?;
    assert_eq!(rt;
        printed.as_slice(),
        b"using ok\nused\nused\nused\nran C@ccccc 3\nthrew B@bbbbb 3\nsummary\nview 0\n\
error A@aaaaa\nerror B@bbbbb\nready C@ccccc\nexecuted B@bbbbb 3\nexecuted C@ccccc 3\nA Error: B Threw\n"
            .as_slice()
    );
    Ok(())
}

//! Scripts, and what they say or where they are at fault.
use crate::{Script, ScriptError, read_script};
use rl_names::{Dep, Group, Row, StateKind, Text};
use rl_script_spec::Step;
use std::alloc::Global;
use std::test::Fail;

/// The group, the source and the skip of a row, where it has any.
fn push_rest(alloc: Global, text: &mut String, row: &Row) -> Result<(), Fail> {
    match row.group {
        Group::Plain => {}
        Group::User => text.push_str(" user")?,
        Group::Private => text.push_str(" private")?,
        Group::Other(number) => text.push_str(format!(in alloc; " group {number}")?.as_str())?,
    }
    if !row.source.as_str().is_empty() {
        text.push_str(" from ")?;
        text.push_str(row.source.as_str())?;
    }
    if let Some(skip) = &row.skip {
        text.push_str(" skip ")?;
        text.push_str(skip.as_str())?;
    }
    Ok(())
}

/// A row as its name, its version, its dependencies, and what it has beside them.
fn push_row(alloc: Global, text: &mut String, row: &Row) -> Result<(), Fail> {
    text.push_str(row.name.as_str())?;
    if let Some(version) = row.version {
        for byte in version.bytes() {
            text.push(char::from(byte))?;
        }
    }
    for dep in row.deps.as_slice() {
        text.push(' ')?;
        match dep {
            Dep::Named(name) => text.push_str(name.as_str())?,
            Dep::At(_) => text.push('?')?,
        }
    }
    push_rest(alloc, text, row)?;
    text.push('\n')?;
    Ok(())
}

/// A word, and names after it.
fn push_names(text: &mut String, word: &str, names: &[Text]) -> Result<(), Fail> {
    text.push_str(word)?;
    for name in names {
        text.push(' ')?;
        text.push_str(name.as_str())?;
    }
    Ok(())
}

/// A step as its word and what belongs to it.
fn push_step(text: &mut String, step: &Step) -> Result<(), Fail> {
    match step {
        Step::Using { names } => push_names(text, "using", names.as_slice())?,
        Step::Load { names } => push_names(text, "load", names.as_slice())?,
        Step::Impl { key, script } => {
            text.push_str("impl ")?;
            text.push_str(key.name.as_str())?;
            text.push(' ')?;
            text.push_str(script.as_str())?;
        }
        Step::State { name, kind } => {
            text.push_str(match kind {
                StateKind::Missing => "missing ",
                StateKind::Error => "error ",
            })?;
            text.push_str(name.as_str())?;
        }
    }
    text.push('\n')?;
    Ok(())
}

/// What a script says, a line for each row, each feature and each step.
fn spelt(alloc: Global, script: &Script) -> Result<String, Fail> {
    let mut text = String::new(alloc);
    for row in &script.rows {
        push_row(alloc, &mut text, row)?;
    }
    for feature in &script.features {
        text.push_str("feature ")?;
        text.push_str(feature.as_str())?;
        text.push('\n')?;
    }
    for step in &script.steps {
        push_step(&mut text, step)?;
    }
    Ok(text)
}

fn fault(alloc: Global, error: ScriptError) -> Result<String, Fail> {
    match error {
        ScriptError::BadLine { line, why } => Ok(format!(in alloc; "line {line} why {why}")?),
        ScriptError::TooMany { count } => Ok(format!(in alloc; "steps {count}")?),
        ScriptError::NoMemory => Ok(format!(in alloc; "no memory")?),
    }
}

fn answer(alloc: Global, text: &str) -> Result<String, Fail> {
    match read_script(alloc, text) {
        Ok(script) => spelt(alloc, &script),
        Err(error) => fault(alloc, error),
    }
}

fn counts(alloc: Global, text: &str) -> Result<String, Fail> {
    match read_script(alloc, text) {
        Ok(script) => Ok(format!(in alloc;
            "{} rows {} steps",
            script.rows.len(),
            script.steps.len()
        )?),
        Err(error) => fault(alloc, error),
    }
}

#[test]
fn scripts(rt: HostRuntime) -> Result<(), Fail> {
    let alloc = rt.alloc();
    let table = [
        ("", ""),
        // a chain of three
        (
            "[\"row\",\"A\",\"aaaaa\",[\"B\"]]\n[\"row\",\"B\",\"bbbbb\",[\"C\"]]\n[\"row\",\"C\",\"ccccc\"]\n[\"using\",[\"A\"]]\n[\"impl\",\"A@aaaaa\",\"a()\"]\n",
            "Aaaaaa B\nBbbbbb C\nCccccc\nusing A\nimpl A a()\n",
        ),
        // lines that say nothing, a carriage return at a line's end, blanks between words, and no last line end
        (
            "\n\r\n# [\"take\"]\n#\n[\"using\",[]]\r\n [ \"using\" ,\t[ \"B\"\r] ] ",
            "using\nusing B\n",
        ),
        ("[\"using\",[\"A\"]]\r\r\n", "using A\n"),
        ("\r\r\n", "line 1 why 1"),
        (" \n", "line 1 why 1"),
        (" # x\n", "line 1 why 1"),
        // names of requests and dependencies are any texts, and may be repeated
        (
            "[\"row\",\"A\",\"aaaaa\",[\"\",\"é\",\"é\"]]\n[\"using\",[\"a b\",\"\\u0041\",\"A\"]]\n",
            "Aaaaaa  é é\nusing a b A A\n",
        ),
        ("[\"impl\",\"a@b@00000\",\"\"]\n", "impl a@b \n"),
        // the first faulty line counts, before and after good ones
        (
            "\n[\"using\",[\"A\"]\n[\"using\",[\"A\"]]\n",
            "line 2 why 1",
        ),
        (
            "[\"using\",[\"A\"]]\n\n[\"using\",[1]]\n[\"row\",\"A\",\"aaaaa\"]\n",
            "line 3 why 1",
        ),
        // a row after a step, and one after a step that is no row either
        (
            "[\"row\",\"A\",\"aaaaa\"]\n[\"using\",[]]\n[\"row\",\"A\",\"aaaaa\"]\n[]\n",
            "line 3 why 3",
        ),
        (
            "[\"impl\",\"A@aaaaa\",\"\"]\n[\"row\",\"A\",\"aaaa\"]\n",
            "line 2 why 1",
        ),
        // members that are left out, stand too many, or are of another kind
        ("[\"row\",\"A\"]", "line 1 why 1"),
        ("[\"row\",\"A\",\"aaaaa\",null]", "line 1 why 1"),
        ("[\"row\",\"A\",null]", "line 1 why 1"),
        // whole rows; the last line of features counts; names of states are any texts
        (
            "[\"row\",\"A\",\"aaaaa\",[\"B\"],4294967295,\"\",\"\"]\n[\"row\",\"B\",\"bbbbb\",[],null,\"home\",\"es6\"]\n[\"row\",\"C\",\"ccccc\",[],0,null,null]\n[\"row\",\"D\",null,[],1]",
            "Aaaaaa B group 4294967295 skip \nBbbbbb from home skip es6\nCccccc user\nD private\n",
        ),
        (
            "[\"features\",[\"a\"]]\n[\"row\",\"A\",\"aaaaa\"]\n[\"features\",[\"b\",\"\"]]\n[\"load\",[\"A\",\"\"]]\n[\"state\",\"a b\",\"missing\"]\n[\"state\",\"\",\"error\"]",
            "Aaaaaa\nfeature b\nfeature \nload A \nmissing a b\nerror \n",
        ),
        ("[\"using\",[]]\n[\"features\",[]]", "line 2 why 3"),
        ("[\"row\",\"A\",\"aaaaa\",[],1]", "line 1 why 1"),
        ("[\"row\",\"A\",null,[],2]", "line 1 why 1"),
        ("[\"row\",\"A\",\"aaaaa\",[],2.0]", "line 1 why 1"),
        ("[\"row\",\"A\",\"aaaaa\",[],-1]", "line 1 why 1"),
        ("[\"row\",\"A\",\"aaaaa\",[],4294967296]", "line 1 why 1"),
        ("[\"row\",\"A\",\"aaaaa\",[],\"2\"]", "line 1 why 1"),
        ("[\"row\",\"A\",\"aaaaa\",[],2,3]", "line 1 why 1"),
        ("[\"row\",\"A\",\"aaaaa\",[],2,null,[]]", "line 1 why 1"),
        (
            "[\"row\",\"A\",\"aaaaa\",[],null,null,null,null]",
            "line 1 why 1",
        ),
        ("[\"features\",null]", "line 1 why 1"),
        ("[\"features\",[],[]]", "line 1 why 1"),
        ("[\"load\",[1]]", "line 1 why 1"),
        ("[\"state\",\"A\"]", "line 1 why 1"),
        ("[\"state\",\"A\",\"ready\"]", "line 1 why 1"),
        ("[\"state\",\"A\",\"error\",null]", "line 1 why 1"),
        ("[\"row\",\"A\",\"aaaaa\",[1.0]]", "line 1 why 1"),
        ("[\"row\",\".A\",\"aaaaa\"]", "line 1 why 1"),
        ("[\"using\"]", "line 1 why 1"),
        ("[\"using\",\"A\"]", "line 1 why 1"),
        ("[\"using\",[\"A\"],[\"A\"]]", "line 1 why 1"),
        ("[\"using\",{\"a\":1.0,\"a\":[]}]", "line 1 why 1"),
        ("[\"impl\",\"A@aaaaa\"]", "line 1 why 1"),
        ("[\"impl\",\"@aaaaa\",\"\"]", "line 1 why 1"),
        ("[\"impl\",\"A@aaaaa\",\"\",\"\"]", "line 1 why 1"),
        // no array, and another word
        ("{\"using\":[]}", "line 1 why 1"),
        ("[]", "line 1 why 1"),
        ("[[]]", "line 1 why 1"),
        ("[\"take\"]", "line 1 why 1"),
        ("[\"Using\",[]]", "line 1 why 1"),
        ("\u{FEFF}[\"using\",[]]", "line 1 why 1"),
    ];
    for (text, want) in table {
        assert_eq!(rt; answer(alloc, text)?.as_str(), want, "{text}");
    }
    Ok(())
}

#[test]
fn steps_at_the_limit(rt: HostRuntime) -> Result<(), Fail> {
    let alloc = rt.alloc();
    let row = "[\"row\",\"A\",\"aaaaa\"]\n";
    let using = "[\"using\",[]]\n";
    let table = [
        (row, 65_536, "", "1 rows 65536 steps"),
        ("#\n\n", 65_537, "[]", "steps 65537"),
        (
            "#\n",
            65_536,
            "[\"row\",\"A\",\"aaaaa\"]\n[\"using\",[]]",
            "line 65538 why 3",
        ),
    ];
    for (front, steps, end, want) in table {
        let mut text = String::from_str(alloc, front)?;
        for _ in 0..steps {
            text.push_str(using)?;
        }
        text.push_str(end)?;
        assert_eq!(rt; counts(alloc, text.as_str())?.as_str(), want);
    }
    Ok(())
}

//! Scripts of steps for each command, what they say, and how the steps are spelt.
use crate::{Kinds, ScriptError, Step, read_script, write_step};
use std::alloc::Global;
use std::test::Fail;

/// The lines of steps, each written from a copy.
fn spelt(alloc: Global, steps: &[Step]) -> Result<String, Fail> {
    let mut text = String::new(alloc);
    for step in steps {
        let copy = step.copy(alloc)?;
        let line = write_step(alloc, &copy)?;
        text.push_str(line.as_str())?;
        text.push('\n')?;
    }
    Ok(text)
}

fn fault(alloc: Global, error: ScriptError) -> Result<String, Fail> {
    match error {
        ScriptError::BadLine { line, why } => Ok(format!(in alloc; "line {line} why {why}")?),
        ScriptError::TooMany { count } => Ok(format!(in alloc; "steps {count}")?),
        ScriptError::NoMemory => Ok(format!(in alloc; "no memory")?),
    }
}

fn answer(alloc: Global, bytes: &[u8], kinds: Kinds) -> Result<String, Fail> {
    match read_script(alloc, bytes, kinds) {
        Ok(steps) => spelt(alloc, steps.as_slice()),
        Err(error) => fault(alloc, error),
    }
}

fn count(alloc: Global, bytes: &[u8], kinds: Kinds) -> Result<String, Fail> {
    match read_script(alloc, bytes, kinds) {
        Ok(steps) => Ok(format!(in alloc; "{} steps", steps.len())?),
        Err(error) => fault(alloc, error),
    }
}

#[test]
fn lines(rt: HostRuntime) -> Result<(), Fail> {
    let alloc = rt.alloc();
    let table = [
        ("", ""),
        // each kind, as it is written
        (
            "[\"edit\",\"Root\",\"MediaWiki:Common.js\",18446744073709551615,\"a\\n\\\"\\u0001é\"]\n",
            "[\"edit\",\"Root\",\"MediaWiki:Common.js\",18446744073709551615,\"a\\n\\\"\\u0001é\"]\n",
        ),
        (
            "[\"option\",\"\",\"skin\",\"\"]\n[\"clock\",999999999999999999]\n",
            "[\"option\",\"\",\"skin\",\"\"]\n[\"clock\",999999999999999999]\n",
        ),
        (
            "[\"view\",\"Ann\",\"en\",\"vector\",true,[\"es6\",\"\"]]\n[\"using\",[]]\n[\"load\",[\"a\",\"a\"]]\n",
            "[\"view\",\"Ann\",\"en\",\"vector\",true,[\"es6\",\"\"]]\n[\"using\",[]]\n[\"load\",[\"a\",\"a\"]]\n",
        ),
        (
            "[\"take\"]\n[\"serve\",4294967295]\n[\"deliver\",0]\n[\"lose\",10]\n[\"close\"]\n",
            "[\"take\"]\n[\"serve\",4294967295]\n[\"deliver\",0]\n[\"lose\",10]\n[\"close\"]\n",
        ),
        // ignored lines, a carriage return at the end, blanks between words, and no last line end
        (
            "\n\r\n# [\"take\"]\n[\"take\"]\r\n [ \"serve\" ,\t1 ] ",
            "[\"take\"]\n[\"serve\",1]\n",
        ),
        ("\u{FEFF}[\"take\"]", "line 1 why 1"),
        (" \n", "line 1 why 1"),
        // users as the rule of user names spells them
        (
            "[\"edit\",\"_Ann__Lee \",\"x\",0,\"\"]",
            "[\"edit\",\"Ann Lee\",\"x\",0,\"\"]\n",
        ),
        ("[\"edit\",\"Ann/Lee\",\"x\",0,\"\"]", "line 1 why 1"),
        ("[\"option\",\" \",\"k\",\"v\"]", "line 1 why 1"),
        (
            "[\"view\",\"a|b\",\"en\",\"vector\",false,[]]",
            "line 1 why 1",
        ),
        // titles, keys, languages and skins are any texts
        (
            "[\"edit\",\"\",\"a|b\",0,\"\"]\n[\"view\",\"\",\"\",\"?\",false,[]]",
            "[\"edit\",\"\",\"a|b\",0,\"\"]\n[\"view\",\"\",\"\",\"?\",false,[]]\n",
        ),
        // numbers
        (
            "[\"edit\",\"\",\"x\",18446744073709551616,\"\"]",
            "line 1 why 1",
        ),
        ("[\"edit\",\"\",\"x\",-0,\"\"]", "line 1 why 1"),
        ("[\"clock\",1000000000000000000]", "line 1 why 1"),
        ("[\"clock\",1.0]", "line 1 why 1"),
        ("[\"serve\",4294967296]", "line 1 why 1"),
        ("[\"deliver\",-1]", "line 1 why 1"),
        ("[\"lose\",\"1\"]", "line 1 why 1"),
        // members of another kind, too few and too many
        ("[\"edit\",\"\",\"x\",0]", "line 1 why 1"),
        ("[\"edit\",\"\",\"x\",0,\"\",null]", "line 1 why 1"),
        ("[\"edit\",null,\"x\",0,\"\"]", "line 1 why 1"),
        ("[\"edit\",\"\",null,0,\"\"]", "line 1 why 1"),
        ("[\"edit\",\"\",\"x\",0,null]", "line 1 why 1"),
        ("[\"option\",\"\",\"k\"]", "line 1 why 1"),
        ("[\"option\",\"\",\"k\",\"v\",\"v\"]", "line 1 why 1"),
        ("[\"option\",\"\",1,\"v\"]", "line 1 why 1"),
        ("[\"clock\"]", "line 1 why 1"),
        ("[\"clock\",1,1]", "line 1 why 1"),
        ("[\"view\",\"\",\"en\",\"vector\",false]", "line 1 why 1"),
        (
            "[\"view\",\"\",\"en\",\"vector\",false,[],[]]",
            "line 1 why 1",
        ),
        ("[\"view\",\"\",\"en\",\"vector\",0,[]]", "line 1 why 1"),
        ("[\"view\",\"\",\"en\",\"vector\",null,[]]", "line 1 why 1"),
        (
            "[\"view\",\"\",\"en\",\"vector\",false,[1]]",
            "line 1 why 1",
        ),
        ("[\"using\",\"a\"]", "line 1 why 1"),
        ("[\"load\",[],[]]", "line 1 why 1"),
        ("[\"take\",0]", "line 1 why 1"),
        ("[\"close\",null]", "line 1 why 1"),
        ("[\"serve\"]", "line 1 why 1"),
        ("[\"embed\"]", "line 1 why 1"),
        // no array, another word, and words of other scripts
        ("{}", "line 1 why 1"),
        ("[]", "line 1 why 1"),
        ("[[\"take\"]]", "line 1 why 1"),
        ("[\"Take\"]", "line 1 why 1"),
        ("[\"row\",\"a\",\"aaaaa\"]", "line 1 why 1"),
        ("[\"impl\",\"a@aaaaa\",\"\"]", "line 1 why 1"),
        ("[\"state\",\"a\",\"missing\"]", "line 1 why 1"),
        // an embedded text is for plans; the first faulty line is told
        ("[\"take\"]\n[\"embed\",\"\"]\n[]", "line 2 why 2"),
        ("[\"take\"]\n\n[]\n[\"embed\",\"\"]", "line 3 why 1"),
    ];
    for (text, want) in table {
        assert_eq!(rt;
            answer(alloc, text.as_bytes(), Kinds::All)?.as_str(),
            want,
            "{text}"
        );
    }
    Ok(())
}

#[test]
fn what_commands_take(rt: HostRuntime) -> Result<(), Fail> {
    let alloc = rt.alloc();
    let edit = "[\"edit\",\"\",\"x\",0,\"\"]\n";
    let choice = "[\"option\",\"\",\"k\",\"v\"]\n";
    let clock = "[\"clock\",0]\n";
    let view = "[\"view\",\"\",\"en\",\"vector\",false,[]]\n";
    let using = "[\"using\",[]]\n";
    let load = "[\"load\",[]]\n";
    let embed = "[\"embed\",\"a\"]\n";
    let wrong = "line 1 why 2";
    // a line alone, and what it is in a race, in a file of pages and in a plan
    let table = [
        (edit, edit, edit, wrong),
        (choice, choice, choice, wrong),
        (clock, clock, wrong, wrong),
        (view, view, wrong, view),
        (using, using, wrong, "line 1 why 3"),
        (load, load, wrong, "line 1 why 3"),
        ("[\"take\"]", wrong, wrong, wrong),
        ("[\"serve\",0]", wrong, wrong, wrong),
        ("[\"deliver\",0]", wrong, wrong, wrong),
        ("[\"lose\",0]", wrong, wrong, wrong),
        ("[\"close\"]", "[\"close\"]\n", wrong, wrong),
        (embed, wrong, wrong, "line 1 why 3"),
        ("", "", "", "line 0 why 3"),
        ("#\n\r\n", "", "", "line 0 why 3"),
        (
            "[\"take\",0]",
            "line 1 why 1",
            "line 1 why 1",
            "line 1 why 1",
        ),
    ];
    for (text, race, pages, plan) in table {
        assert_eq!(rt;
            answer(alloc, text.as_bytes(), Kinds::Race)?.as_str(),
            race,
            "{text}"
        );
        assert_eq!(rt;
            answer(alloc, text.as_bytes(), Kinds::Pages)?.as_str(),
            pages,
            "{text}"
        );
        assert_eq!(rt;
            answer(alloc, text.as_bytes(), Kinds::Page)?.as_str(),
            plan,
            "{text}"
        );
    }
    Ok(())
}

#[test]
fn plans(rt: HostRuntime) -> Result<(), Fail> {
    let alloc = rt.alloc();
    let view = "[\"view\",\"\",\"en\",\"vector\",false,[]]\n";
    let using = "[\"using\",[]]\n";
    let load = "[\"load\",[]]\n";
    let embed = "[\"embed\",\"a\"]\n";
    let table = [
        (view, embed, using, "4 steps"),
        (view, using, load, "4 steps"),
        (view, embed, embed, "line 3 why 3"),
        (view, using, embed, "line 3 why 3"),
        (view, view, using, "line 2 why 3"),
        (view, embed, view, "line 3 why 3"),
        (view, "[\"view\",\"\"]\n", view, "line 2 why 1"),
        (view, using, "[\"take\"]\n", "line 3 why 2"),
        ("[\"take\"]\n", view, using, "line 1 why 2"),
        (embed, view, using, "line 1 why 3"),
        (load, view, using, "line 1 why 3"),
    ];
    for (first, second, third, want) in table {
        let text = format!(in alloc; "{first}{second}{third}{load}")?;
        assert_eq!(rt;
            count(alloc, text.as_bytes(), Kinds::Page)?.as_str(),
            want,
            "{text}"
        );
    }
    Ok(())
}

#[test]
fn steps_at_the_limit(rt: HostRuntime) -> Result<(), Fail> {
    let alloc = rt.alloc();
    let table = [
        (65_535, "[\"take\"]\n#\n", "65536 steps"),
        (65_536, "#\n[\"take\"]\n[]", "steps 65537"),
        (65_536, "[\"embed\",\"\"]", "steps 65537"),
        (65_536, "[]\n[\"take\"]", "line 65537 why 1"),
    ];
    for (steps, end, want) in table {
        let mut text = String::new(alloc);
        for _ in 0..steps {
            text.push_str("[\"take\"]\n")?;
        }
        text.push_str(end)?;
        assert_eq!(rt; count(alloc, text.as_bytes(), Kinds::All)?.as_str(), want);
    }
    Ok(())
}

#[test]
fn bytes_that_are_no_text(rt: HostRuntime) -> Result<(), Fail> {
    let alloc = rt.alloc();
    for bytes in [&b"\xFF"[..], b"[]\n\xFF", b"[\"take\"]\n#\xC3"] {
        assert_eq!(rt; answer(alloc, bytes, Kinds::All)?.as_str(), "line 0 why 4");
        assert_eq!(rt; answer(alloc, bytes, Kinds::Page)?.as_str(), "line 0 why 4");
    }
    Ok(())
}

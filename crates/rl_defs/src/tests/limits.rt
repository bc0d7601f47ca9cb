//! Definitions at their limits.
use super::compare;
use std::alloc::Global;
use std::test::Fail;

/// A piece so many times, between two texts.
fn repeated(
    alloc: Global,
    before: &str,
    piece: &str,
    times: u32,
    after: &str,
) -> Result<String, Fail> {
    let mut text = String::from_str(alloc, before)?;
    for _ in 0..times {
        text.push_str(piece)?;
    }
    text.push_str(after)?;
    Ok(text)
}

/// A file with so many modules, and more behind them.
fn modules(alloc: Global, count: u32, rest: &str) -> Result<String, Fail> {
    let mut file = String::new(alloc);
    for number in 0..count {
        let module = format!(in alloc; "[modules.m{number}]\n")?;
        file.push_str(module.as_str())?;
    }
    file.push_str(rest)?;
    Ok(file)
}

/// How many modules, what stands behind them, and what the file is told.
const MODULES: [(u32, &str, &str); 4] = [
    (3_500, "", "taken"),
    (3_501, "", "too many: 3501 of Modules"),
    (
        3_500,
        "[modules.z]\ndependencies = [\"zz\"]",
        "too many: 3501 of Modules",
    ),
    (3_501, "[wiki]\nskins = [\"B\"]", "bad name `B`"),
];

#[test]
fn many_modules(rt: HostRuntime) -> Result<(), Fail> {
    for (count, rest, wanted) in &MODULES {
        let file = modules(rt.alloc(), *count, rest)?;
        compare(&rt, rt.alloc(), file.as_bytes(), wanted)?;
    }
    Ok(())
}

/// What stands in front of a piece, the piece, how often it stands there, what stands behind, and
/// what the file is told.
const REPEATS: [(&str, &str, u32, &str, &str); 13] = [
    ("[modules.a]\ndependencies = [", "\"a\",", 256, "]", "taken"),
    (
        "[modules.a]\ndependencies = [",
        "\"a\",",
        257,
        "]",
        "too many: 257 of Dependencies",
    ),
    (
        "[modules.a]\ndependencies = [\"zz\",",
        "\"a\",",
        256,
        "]",
        "too many: 257 of Dependencies",
    ),
    (
        "[modules.a]\nskip = \"",
        "x",
        0,
        "\"",
        "unknown or bad field `skip` (module `a`)",
    ),
    ("[modules.a]\nskip = \"", "x", 1, "\"", "taken"),
    ("[modules.a]\nskip = \"", "x", 100, "\"", "taken"),
    (
        "[modules.a]\nskip = \"",
        "x",
        101,
        "\"",
        "unknown or bad field `skip` (module `a`)",
    ),
    // two bytes each
    ("[modules.a]\nskip = \"", "\u{e9}", 50, "\"", "taken"),
    (
        "[modules.a]\nskip = \"",
        "\u{e9}",
        51,
        "\"",
        "unknown or bad field `skip` (module `a`)",
    ),
    ("[modules.", "a", 255, "]", "taken"),
    ("[wiki]\nskins = [\"", "a", 40, "\"]", "taken"),
    ("[wiki]\nadmins = [\"", "a", 85, "\"]", "taken"),
    // an admin's spaces are not counted
    ("[wiki]\nadmins = [\"", "_a", 43, "\"]", "taken"),
];

#[test]
fn repeats(rt: HostRuntime) -> Result<(), Fail> {
    for (before, piece, times, after, wanted) in &REPEATS {
        let file = repeated(rt.alloc(), before, piece, *times, after)?;
        compare(&rt, rt.alloc(), file.as_bytes(), wanted)?;
    }
    Ok(())
}

/// What stands in front of a name, how long it is, and what stands behind.
const TOO_LONG: [(&str, u32, &str); 3] = [
    ("[modules.", 256, "]"),
    ("[wiki]\nskins = [\"", 41, "\"]"),
    ("[wiki]\nadmins = [\"", 86, "\"]"),
];

#[test]
fn names_too_long(rt: HostRuntime) -> Result<(), Fail> {
    for (before, len, after) in &TOO_LONG {
        let file = repeated(rt.alloc(), before, "a", *len, after)?;
        let wanted = repeated(rt.alloc(), "bad name `", "a", *len, "`")?;
        compare(&rt, rt.alloc(), file.as_bytes(), wanted.as_str())?;
    }
    Ok(())
}

/// A file of 65,536 bytes that one module lists so many times, one of a single byte that another
/// lists, and more behind them.
fn listed(alloc: Global, large: u32, small: u32, rest: &str) -> Result<String, Fail> {
    let mut file = repeated(
        alloc,
        "[files]\nlarge = \"",
        "x",
        65_536,
        "\"\nsmall = \"y\"\n",
    )?;
    let lists = repeated(
        alloc,
        "[modules.a]\nscripts = [",
        "\"large\",",
        large,
        "]\n",
    )?;
    file.push_str(lists.as_str())?;
    let lists = repeated(
        alloc,
        "[modules.b]\nscripts = [",
        "\"small\",",
        small,
        "]\n",
    )?;
    file.push_str(lists.as_str())?;
    file.push_str(rest)?;
    Ok(file)
}

const LISTED: [(u32, u32, &str, &str); 5] = [
    (1_023, 65_536, "", "taken"),
    (1_024, 0, "", "taken"),
    (1_024, 1, "", "too many: 67108865 of ListedBytes"),
    (1_025, 0, "", "too many: 67174400 of ListedBytes"),
    (
        1_025,
        0,
        "[modules.c]\nsource = \"x\"",
        "module `c` has an unknown source",
    ),
];

#[test]
fn listed_bytes(rt: HostRuntime) -> Result<(), Fail> {
    for (large, small, rest, wanted) in &LISTED {
        let file = listed(rt.alloc(), *large, *small, rest)?;
        compare(&rt, rt.alloc(), file.as_bytes(), wanted)?;
    }
    Ok(())
}

/// Arrays in one another, this deep.
fn nested(alloc: Global, depth: u32) -> Result<String, Fail> {
    let inner = repeated(alloc, "", "]", depth, "")?;
    repeated(alloc, "x = ", "[", depth, inner.as_str())
}

const NESTED: [(u32, &str); 4] = [
    (1, "unknown or bad field `x` (module ``)"),
    (80, "unknown or bad field `x` (module ``)"),
    (81, "the file is not TOML"),
    (100_000, "the file is not TOML"),
];

#[test]
fn nesting(rt: HostRuntime) -> Result<(), Fail> {
    for (depth, wanted) in &NESTED {
        let file = nested(rt.alloc(), *depth)?;
        compare(&rt, rt.alloc(), file.as_bytes(), wanted)?;
    }
    Ok(())
}

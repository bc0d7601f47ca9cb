//! The order of key texts, which nobody writes for it.
ghost use Rattle.std.specs.Prelude.{◌≡◌};
ghost use Rattle.std.specs.Ordering.{nat_cmp};
ghost use Rattle.std.specs.Cmp.Lexicographic.{slice_cmp};
ghost use Rattle.rl_book_spec.specs.Closing.{key_bytes};
ghost use Rattle.rl_names.specs.Name.{key_text};

use rl_names::{Key, Name, Version};
use std::cmp::Ordering;

/// The byte order of two key texts, each of a name and a version.
fn compare_parts(name: &Name, version: &Version, other: &Name, other_version: &Version) -> Ordering
    ensures { result ≡ slice_cmp nat_cmp (key_text name.now version.now) (key_text other.now other_version.now) }
{
    let at = b"@";
    let mine = version.bytes();
    let theirs = other_version.bytes();
    let left = name.as_bytes().iter().chain(at.iter().chain(mine.iter()));
    let right = other
        .as_bytes()
        .iter()
        .chain(at.iter().chain(theirs.iter()));
    left.cmp(right)
}

/// The byte order of a key text and that of this name and this version.
pub(crate) fn compare_with(key: &Key, name: &Name, version: &Version) -> Ordering
    ensures { result ≡ slice_cmp nat_cmp (key_bytes key.now) (key_text name.now version.now) }
{
    compare_parts(&key.name, &key.version, name, version)
}

/// The byte order of two key texts.
pub(crate) fn compare(a: &Key, b: &Key) -> Ordering
    ensures { result ≡ slice_cmp nat_cmp (key_bytes a.now) (key_bytes b.now) }
{
    compare_parts(&a.name, &a.version, &b.name, &b.version)
}

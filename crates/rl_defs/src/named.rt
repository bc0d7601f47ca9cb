//! Look-ups among values that are in byte order of their names.
ghost use Rattle.std.specs.Prelude.{◌≡◌, bytes_eq, find, map, option_and_then, option_copied, slice_get};
ghost use Rattle.std.specs.List.{position};
ghost use Rattle.rl_defs.specs.Named.{AreNames};

use std::str;

/// What has a name among others of its kind.
pub(crate) trait Named {
    ghost use Rattle.std.specs.Prelude.{List, ℕ};

    ghost name_of: { Self → List ℕ };

    fn name(&self) -> &str
        ensures { result.now ≡ name_of self.now };
}

/// The place of this name among values that are in byte order of their names.
pub(crate) fn place_of<T: Named>(values: &[T], name: &str) -> Option<usize>
    requires { AreNames (map T.name_of values.now) }
    ensures place { result ≡ position (λ v. bytes_eq (T.name_of v) name.now) values.now }
    ensures found { option_and_then (slice_get values.now) result
        ≡ find (λ v. bytes_eq (T.name_of v) name.now) values.now }
{
    values.binary_search_by(|v| v.name().cmp(name)).ok()
}

/// The value of this name among values that are in byte order of their names.
pub(crate) fn find_named<'a, T: Named>(values: &'a [T], name: &str) -> Option<&'a T>
    requires { AreNames (map T.name_of values.now) }
    ensures { option_copied result ≡ find (λ v. bytes_eq (T.name_of v) name.now) values.now }
{
    let at = place_of(values, name)?;
    Some(&values[at])
}

/// The place of these bytes as a name. Bytes that are no text are nobody's name.
pub(crate) fn place_of_bytes<T: Named>(values: &[T], name: &[u8]) -> Option<usize>
    requires { AreNames (map T.name_of values.now) }
    ensures place { result ≡ position (λ v. bytes_eq (T.name_of v) name.now) values.now }
    ensures found { option_and_then (slice_get values.now) result
        ≡ find (λ v. bytes_eq (T.name_of v) name.now) values.now }
{
    match str::from_utf8(name) {
        Ok(name) => place_of(values, name),
        Err(_) => None,
    }
}

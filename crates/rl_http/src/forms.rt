//! Reads what is posted.
ghost use Rattle.std.specs.Prelude.{◌≡◌, IfOk};
ghost use Rattle.rl_names.specs.Query.{last_value, decoded};
ghost use Rattle.rl_http.specs.Forms.{base_of, later_value};

use crate::numbers::{is_number, number};
use form_urlencoded::{decode, raw_pairs};
use rl_names::{NoMemory, Text};
use std::alloc::Global;

/// The last value of a form under a name; without one, the empty text.
pub fn last_value(alloc: Global, form: &[u8], name: &str) -> Result<Text, NoMemory>
    ensures { IfOk result (λ t. t ≡ last_value form.now name.now) }
{
    let mut found = Text::from_string(String::new(alloc));
    'pairs: for (other, value) in raw_pairs(form) {
        if decode(alloc, other)?.as_str() == name {
            found = Text::from_string(decode(alloc, value)?.into_owned(alloc)?);
        }
    }
    Ok(found)
}

/// The base that a text spells.
pub fn base_of(text: &[u8]) -> Option<u64>
    ensures { result ≡ base_of text.now }
{
    if !is_number(text) {
        return None;
    }
    number(text, u64::MAX)
}

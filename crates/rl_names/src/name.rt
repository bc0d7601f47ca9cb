//! Names of modules, versions, and keys, which are both.
ghost use Rattle.std.specs.Prelude.{◌≡◌, ◌↔◌, ◌++◌, not, position, IfOk, OnOk, option_and_then, IfSome, IfNone, IsSome, IsTrue, drop};
ghost use Rattle.std.specs.Prelude.{string_bytes, false};
ghost use Rattle.std.specs.List.{list_all, list_any};
ghost use Rattle.std.specs.Str.{IsAscii};
ghost use Rattle.std.specs.Ordering.{nat_cmp};
ghost use Rattle.std.specs.Cmp.Lexicographic.{slice_cmp};
ghost use Rattle.rl_names.specs.Meant.{Gives};
ghost use Rattle.rl_names.specs.Name.{is_name, is_name_byte, is_version, is_version_byte, key_text, name_fault, fault_told, name_of};

use crate::text::{NoMemory, Text};
use std::alloc::{AllocError, Global};
use std::cmp::Ordering;
use std::marker::Model;
use std::str;
use thiserror::Error;

/// Why bytes are no name.
#[derive(Clone, Copy, Debug, PartialEq, Eq, Error)]
pub enum NameError {
    #[error("a name has at least one byte")]
    Empty,
    #[error("a name has at most 255 bytes, not {len}")]
    TooLong { len: u64 },
    /// `at` counts bytes from 0.
    #[error("the byte at {at} may not stand in a name")]
    BadByte { at: u32 },
    #[error("a name does not begin with a dot")]
    LeadingDot,
    #[error("out of memory")]
    NoMemory,
}

impl From<AllocError> for NameError {
    ghost use Rattle.std.specs.Prelude.{◌≡◌};
    ghost use Rattle.rl_names.specs.declared.name.NameError.TheVariants.{NoMemory};

    ghost from_gives = { λ _ e. e ≡ NoMemory };

    fn from(_error: AllocError) -> Self {
        NameError::NoMemory
    }
}

/// The name of a module.
#[derive(Drop)]
pub struct Name {
    text: String,
}

impl Model for Name {
    ghost use Rattle.std.specs.Prelude.{List, ℕ, IsTrue, string_bytes};
    ghost use Rattle.rl_names.specs.Name.{is_name};

    ghost Value = { List ℕ };

    ghost view = { λ n. string_bytes n.text };

    ghost invariant = { λ n. IsTrue (is_name (string_bytes n.text)) };
}

/// Whether a byte may stand in a name.
fn may_stand(byte: u8) -> bool
    ensures { result ≡ is_name_byte byte }
{
    (33..=126).contains(&byte) && byte != b'|' && byte != b',' && byte != b'!'
}

/// ASCII bytes as text.
fn ascii_text(bytes: &[u8]) -> &str
    requires { IsAscii bytes.now }
    ensures { result.now ≡ bytes.now }
{
    let Ok(text) = str::from_utf8(bytes) else {
        unreachable!()
    };
    text
}

fn all_may_stand(bytes: &[u8]) -> bool
    ensures { result ≡ list_all is_name_byte bytes.now }
{
    bytes.iter().all(|b| may_stand(*b))
}

/// The first place whose byte may not stand in a name.
fn bad_byte(bytes: &[u8]) -> Option<usize>
    ensures { result ≡ position (λ b. not (is_name_byte b)) bytes.now }
{
    bytes.iter().position(|b| !may_stand(*b))
}

/// Why the bytes are no name, if they are none.
fn fault_of(bytes: &[u8]) -> Option<NameError>
    ensures fault { option_and_then fault_told result ≡ name_fault bytes.now }
    ensures told { IfSome result (λ error. IsSome (fault_told error)) }
{
    if bytes.is_empty() {
        return Some(NameError::Empty);
    }
    if bytes.len() > 255 {
        return Some(NameError::TooLong {
            len: bytes.len() as u64,
        });
    }
    match bad_byte(bytes) {
        Some(at) => Some(NameError::BadByte { at: at as u32 }),
        None if bytes[0] == b'.' => Some(NameError::LeadingDot),
        None => None,
    }
}

impl Name {
    ghost use Rattle.rl_names.specs.Name.{NamesAreFaultless};

    /// Reads a name. Of the faults, the first in their order is told.
    pub fn read(alloc: Global, bytes: &[u8]) -> Result<Name, NameError>
        ensures answer { Gives fault_told result (name_of bytes.now) }

        // The names are the bytes with no fault.
        ensures faultless { NamesAreFaultless }
    {
        if let Some(fault) = fault_of(bytes) {
            return Err(fault);
        }
        let text = String::from_str(alloc, ascii_text(bytes))?;
        Ok(Name { text })
    }

    pub fn as_bytes(&self) -> &[u8]
        ensures value { result.now ≡ self.now }
        ensures name { IsTrue (is_name self.now) }
    {
        self.text.as_bytes()
    }

    pub fn as_str(&self) -> &str
        ensures { result.now ≡ self.now }
    {
        self.text.as_str()
    }

    /// Whether the bytes are a name.
    pub fn is(bytes: &[u8]) -> bool
        ensures { result ≡ is_name bytes.now }
    {
        if bytes.is_empty() || bytes.len() > 255 {
            return false;
        }
        all_may_stand(bytes) && bytes[0] != b'.'
    }

    pub(crate) fn allocator(&self) -> Global {
        *self.text.allocator()
    }

    /// The text, with what is known of each name.
    pub(crate) fn text(&self) -> &str
        ensures value { result.now ≡ self.now }
        ensures name { IsTrue (is_name self.now) }
    {
        self.text.as_str()
    }

    /// The order of their bytes.
    pub fn compare(&self, other: &Name) -> Ordering
        ensures { result ≡ slice_cmp nat_cmp self.now other.now }
    {
        self.text.as_bytes().cmp(other.text.as_bytes())
    }

    /// A copy of the name.
    pub fn copy(&self) -> Result<Name, NoMemory>
        ensures { IfOk result (λ n. n ≡ self.now) }
    {
        let text = self.text.clone()?;
        Ok(Name { text })
    }

    /// The name that a text is, without a copy.
    pub fn from_text(text: Text) -> Name
        requires { IsTrue (is_name text) }
        ensures { result ≡ text }
    {
        Name {
            text: text.into_string(),
        }
    }

    /// The name that a text is.
    pub fn of(alloc: Global, text: &str) -> Result<Name, NoMemory>
        requires { IsTrue (is_name text.now) }
        ensures { IfOk result (λ n. n ≡ text.now) }
    {
        let text = String::from_str(alloc, text)?;
        Ok(Name { text })
    }
}

/// The version of a module: five digits or small letters.
#[derive(Clone, Copy)]
pub struct Version {
    bytes: [u8; 5],
}

impl Model for Version {
    ghost use Rattle.std.specs.Prelude.{List, ℕ, IsTrue};
    ghost use Rattle.rl_names.specs.Name.{is_version};

    ghost Value = { List ℕ };

    ghost view = { λ v. v.bytes };

    ghost invariant = { λ v. IsTrue (is_version v.bytes) };

    ghost inverse = { λ b. record { bytes = b } };
}

impl Version {
    pub(crate) fn of(bytes: [u8; 5]) -> Version
        requires { IsTrue (is_version bytes) }
        ensures { result ≡ bytes }
    {
        Version { bytes }
    }

    /// Whether the bytes are a version.
    pub fn is(bytes: &[u8]) -> bool
        ensures { result ≡ is_version bytes.now }
    {
        bytes.len() == 5 && all_small(bytes)
    }

    /// The version that the bytes spell.
    pub fn read(bytes: &[u8]) -> Option<Version>
        ensures found { IsSome result ↔ IsTrue (is_version bytes.now) }
        ensures value { IfSome result (λ v. v ≡ bytes.now) }
    {
        if !Version::is(bytes) {
            return None;
        }
        let mut copy = [0u8; 5];
        copy.copy_from_slice(bytes);
        Some(Version { bytes: copy })
    }

    pub fn bytes(&self) -> [u8; 5]
        ensures { result ≡ self.now }
    {
        self.bytes
    }

    pub fn as_str(&self) -> &str
        ensures value { result.now ≡ self.now }
        ensures version { IsTrue (is_version self.now) }
    {
        ascii_text(&self.bytes)
    }

    /// Adds the version to a text.
    pub fn push_to(&self, out: &mut String) -> Result<(), NoMemory>
        ensures { OnOk result (string_bytes out.new ≡ string_bytes out.old ++ self.now) }
    {
        out.push_str(self.as_str())?;
        Ok(())
    }
}

fn is_small(byte: u8) -> bool
    ensures { result ≡ is_version_byte byte }
{
    byte.is_ascii_digit() || byte.is_ascii_lowercase()
}

fn all_small(bytes: &[u8]) -> bool
    ensures { result ≡ list_all is_version_byte bytes.now }
{
    bytes.iter().all(|b| is_small(*b))
}

/// A name with a version, written `name@version`.
#[derive(Drop)]
pub struct Key {
    pub name: Name,
    pub version: Version,
}

/// Why bytes are no key.
#[derive(Clone, Copy, Debug, PartialEq, Eq, Error)]
pub enum KeyError {
    #[error("no `@` stands after the first byte")]
    NoVersion,
    #[error("what follows the last `@` is no version")]
    BadVersion,
    #[error("what stands before the last `@` is no name")]
    BadName,
    #[error("out of memory")]
    NoMemory,
}

impl From<NameError> for KeyError {
    ghost use Rattle.rl_names.specs.Key.{key_error_of};
    ghost use Rattle.std.specs.Prelude.{◌≡◌};

    ghost from_gives = { λ e k. k ≡ key_error_of e };

    fn from(error: NameError) -> Self {
        match error {
            NameError::Empty
            | NameError::TooLong { .. }
            | NameError::BadByte { .. }
            | NameError::LeadingDot => KeyError::BadName,
            NameError::NoMemory => KeyError::NoMemory,
        }
    }
}

ghost use Rattle.rl_names.specs.Cut.{before_by, suffix_by};
ghost use Rattle.rl_names.specs.Key.{is_at};

/// What stands before and after the last `@`; none where there is none past the first place.
fn halves(bytes: &[u8]) -> Option<(&[u8], &[u8])>
    ensures found { IfSome result (λ parts. IsTrue (list_any is_at (drop 1 bytes.now))
        × (parts.0.now ≡ before_by is_at bytes.now) × (parts.1.now ≡ suffix_by is_at bytes.now)) }
    ensures none { IfNone result (list_any is_at (drop 1 bytes.now) ≡ false) }
{
    'places: for at in (1..bytes.len()).rev() {
        if bytes[at] == b'@' {
            return Some((&bytes[..at], &bytes[at + 1..]));
        }
    }
    None
}

impl Key {
    ghost use Rattle.rl_names.specs.Key.{key_of, key_fault_told, KeyTexts};

    /// Splits a key text at its last `@`. One in front is a byte of the name.
    pub fn split(alloc: Global, bytes: &[u8]) -> Result<Key, KeyError>
        ensures answer { Gives key_fault_told result (key_of bytes.now) }

        // The keys are what the key texts spell.
        ensures texts { KeyTexts }
    {
        let Some((name, version)) = halves(bytes) else {
            return Err(KeyError::NoVersion);
        };
        let Some(version) = Version::read(version) else {
            return Err(KeyError::BadVersion);
        };
        let name = Name::read(alloc, name)?;
        Ok(Key { name, version })
    }

    /// The key text, which `split` reads again.
    pub fn write(&self) -> Result<Text, NoMemory>
        ensures text { IfOk result (λ t. t ≡ key_text self.now.name self.now.version) }
        ensures again { IfOk result (λ t. key_of t ≡ Ok self.now) }
    {
        let alloc = self.name.allocator();
        joined(alloc, self.name.text(), self.version.as_str())
    }
}

/// A key text, from its parts.
fn joined(alloc: Global, name: &str, version: &str) -> Result<Text, NoMemory>
    ensures { IfOk result (λ t. t ≡ key_text name.now version.now) }
{
    let mut text = String::new(alloc);
    text.reserve(name.len().saturating_add(6))?;
    text.push_str(name)?;
    text.push('@')?;
    text.push_str(version)?;
    Ok(Text::from_string(text))
}

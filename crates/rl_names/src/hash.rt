//! The hash that versions are made by: FNV-1 of 32 bits, written with five digits in base 36.
ghost use Rattle.std.specs.Prelude.{◌≡◌, ◌<◌, ◌^◌, false, List, ℕ, [], ◌++◌, IsTrue, fold};
ghost use Rattle.std.specs.Fmt.{digit_glyph};
ghost use Rattle.rl_names.specs.Hash.{fnv, fnv_step, hash_5, combined as combined_of, version_of_hash};
ghost use Rattle.rl_names.specs.Name.{is_version_byte};

use crate::name::Version;
use std::marker::Model;

const START: u32 = 0x811C_9DC5;

const PRIME: u32 = 0x0100_0193;

/// A hash that is made piece by piece: what the pieces give is what their bytes give at once.
#[derive(Clone, Copy, Debug)]
pub struct Hasher {
    hash: u32,
}

impl Model for Hasher {
    ghost use Rattle.std.specs.Prelude.{ℕ};

    ghost Value = { ℕ };

    ghost view = { λ h. h.hash };

    ghost inverse = { λ n. record { hash = n } };
}

fn step(hash: u32, byte: u8) -> u32
    ensures { result ≡ fnv_step hash byte }
{
    hash.wrapping_mul(PRIME) ^ u32::from(byte)
}

impl Hasher {
    /// The hash of no bytes.
    pub fn new() -> Hasher
        ensures { result ≡ fnv [] }
    {
        Hasher { hash: START }
    }

    /// Takes more bytes: the hash of those before becomes that of all.
    pub fn add(&mut self, bytes: &[u8])
        ensures value { self.new ≡ fold fnv_step self.old bytes.now }
        ensures pieces { (before : List ℕ) → self.old ≡ fnv before → self.new ≡ fnv (before ++ bytes.now) }
    {
        for byte in bytes {
            self.hash = step(self.hash, *byte);
        }
    }

    /// The version of the bytes so far.
    pub fn finish(&self) -> Version
        ensures { result ≡ version_of_hash self.now }
    {
        version_of(self.hash)
    }
}

/// A digit of base 36.
fn digit(value: u32) -> u8
    requires { value < 36 }
    ensures digit { result ≡ digit_glyph false value }
    ensures kind { IsTrue (is_version_byte result) }
{
    if value < 10 {
        b'0' + value as u8
    } else {
        b'a' + (value as u8 - 10)
    }
}

/// The hash without the digits after the fifth.
fn leading(hash: u32) -> u32
    ensures five { result < 36 ^ 5 }
    ensures same { version_of_hash result ≡ version_of_hash hash }
{
    if hash < 36u32.pow(5) {
        hash
    } else if hash < 36u32.pow(6) {
        hash / 36
    } else {
        hash / 36 / 36
    }
}

fn version_of(hash: u32) -> Version
    ensures { result ≡ version_of_hash hash }
{
    let n = leading(hash);
    let a = digit(n / 36 / 36 / 36 / 36 % 36);
    let b = digit(n / 36 / 36 / 36 % 36);
    let c = digit(n / 36 / 36 % 36);
    let d = digit(n / 36 % 36);
    let e = digit(n % 36);
    Version::of([a, b, c, d, e])
}

/// The version of a text.
pub fn hash5(bytes: &[u8]) -> Version
    ensures { result ≡ hash_5 bytes.now }
{
    let mut hasher = Hasher::new();
    hasher.add(bytes);
    hasher.finish()
}

/// The version of several versions together.
pub fn combined(versions: &[Version]) -> Version
    ensures { result ≡ combined_of versions.now }
{
    let mut hasher = Hasher::new();
    for version in versions {
        hasher.add(&version.bytes());
    }
    hasher.finish()
}

//! The parameters of a request for modules, as a web form spells them.
ghost use Rattle.std.specs.Prelude.{◌≡◌, ℕ, List, ◌+◌, ◌*◌, ◌<◌, ◌≤◌, ◌^◌, [], IfOk, OnOk, length};
ghost use Rattle.form_urlencoded.specs.Form as form;
ghost use Rattle.rl_names.specs.Query.{decoded, is_on, only_of, only_text, debug_text};
ghost use Rattle.rl_names.specs.QuerySteps.{with_parameter};

use crate::text::{NoMemory, Text};
use form_urlencoded::{Serializer, decode, raw_pairs};
use std::alloc::Global;

/// Which part of the modules is asked for.
#[derive(Clone, Copy, Debug, PartialEq, Eq)]
pub enum Only {
    All,
    Scripts,
    Styles,
}

impl Only {
    /// What a value of `only` asks for: any but two is as absent.
    fn of(value: &str) -> Only
        ensures { result ≡ only_of value.now }
    {
        match value {
            "scripts" => Only::Scripts,
            "styles" => Only::Styles,
            _ => Only::All,
        }
    }

    fn as_str(self) -> &'static str
        ensures { result.now ≡ only_text self }
    {
        match self {
            Only::All => "",
            Only::Scripts => "scripts",
            Only::Styles => "styles",
        }
    }
}

/// Whether a value of `debug` turns it on.
fn means_on(value: &str) -> bool
    ensures { result ≡ is_on value.now }
{
    value == "true" || value == "1" || value == "2"
}

/// A request for modules. An empty text stands for a parameter that is absent.
#[derive(Drop)]
pub struct Query {
    /// A packed list of names.
    pub modules: Text,
    pub lang: Text,
    pub skin: Text,
    pub debug: bool,
    pub only: Only,
    pub user: Text,
    pub version: Text,
}

fn value_text(alloc: Global, value: &[u8]) -> Result<Text, NoMemory>
    ensures { IfOk result (λ t. t ≡ decoded value.now) }
{
    let text = decode(alloc, value)?.into_owned(alloc)?;
    Ok(Text::from_string(text))
}

impl Query {
    ghost use Rattle.rl_names.specs.Query.{query_of, query_text, size_of, IsText};
    ghost use Rattle.rl_names.specs.QuerySteps.{no_query, noted};

    fn empty(alloc: Global) -> Query
        ensures { result ≡ no_query }
    {
        Query {
            modules: Text::from_string(String::new(alloc)),
            lang: Text::from_string(String::new(alloc)),
            skin: Text::from_string(String::new(alloc)),
            debug: false,
            only: Only::All,
            user: Text::from_string(String::new(alloc)),
            version: Text::from_string(String::new(alloc)),
        }
    }

    /// Takes a parameter, in place of an earlier value of it.
    fn note(&mut self, alloc: Global, name: &str, value: &[u8]) -> Result<(), NoMemory>
        ensures { OnOk result (self.new ≡ noted self.old name.now (decoded value.now)) }
    {
        match name {
            "modules" => self.modules = value_text(alloc, value)?,
            "lang" => self.lang = value_text(alloc, value)?,
            "skin" => self.skin = value_text(alloc, value)?,
            "debug" => self.debug = means_on(decode(alloc, value)?.as_str()),
            "only" => self.only = Only::of(decode(alloc, value)?.as_str()),
            "user" => self.user = value_text(alloc, value)?,
            "version" => self.version = value_text(alloc, value)?,
            _ => {}
        }
        Ok(())
    }

    /// Reads a query from a form. Of each parameter the last value counts; other parameters are passed over.
    pub fn read(alloc: Global, bytes: &[u8]) -> Result<Query, NoMemory>
        ensures { IfOk result (λ q. q ≡ query_of bytes.now) }
    {
        let mut query = Query::empty(alloc);
        'pairs: for (name, value) in raw_pairs(bytes) {
            query.note(alloc, decode(alloc, name)?.as_str(), value)?;
        }
        Ok(query)
    }

    fn debug_str(&self) -> &'static str
        ensures { result.now ≡ debug_text self.now.debug }
    {
        if self.debug { "true" } else { "" }
    }

    fn written(&self) -> Result<Text, NoMemory>
        ensures text { IfOk result (λ t. t ≡ query_text self.now) }
        ensures utf8 { IfOk result (λ _. IsText self.now) }
    {
        let mut form = Serializer::new(String::new(self.modules.allocator()));
        append(&mut form, "debug", self.debug_str())?;
        append(&mut form, "lang", self.lang.as_str())?;
        append(&mut form, "modules", self.modules.as_str())?;
        append(&mut form, "only", self.only.as_str())?;
        append(&mut form, "skin", self.skin.as_str())?;
        append(&mut form, "user", self.user.as_str())?;
        append(&mut form, "version", self.version.as_str())?;
        Ok(Text::from_string(form.finish()))
    }

    /// Writes the query as a form: the parameters by name, without the empty ones.
    pub fn write(&self) -> Result<Text, NoMemory>
        ensures text { IfOk result (λ t. t ≡ query_text self.now) }

        // What was written is read again.
        ensures again { IfOk result (λ t. query_of t ≡ self.now) }
    {
        self.written()
    }

    /// How many bytes `write` gives.
    pub fn encoded_len(&self) -> u64
        requires { size_of self.now < 2 ^ 60 }
        ensures { result ≡ length (query_text self.now) }
    {
        let len = longer(0, "debug", self.debug_str());
        let len = longer(len, "lang", self.lang.as_str());
        let len = longer(len, "modules", self.modules.as_str());
        let len = longer(len, "only", self.only.as_str());
        let len = longer(len, "skin", self.skin.as_str());
        let len = longer(len, "user", self.user.as_str());
        longer(len, "version", self.version.as_str())
    }
}

fn append(form: &mut Serializer, name: &str, value: &str) -> Result<(), NoMemory>
    requires { form.old.prefix ≡ [] }
    ensures { OnOk result (form.new ≡ record { prefix = []; form = with_parameter form.old.form name.now value.now }) }
{
    if !value.is_empty() {
        form.append_pair(name, value)?;
    }
    Ok(())
}

/// The length of a form after one more parameter, unless its value is empty.
fn longer(len: u64, name: &str, value: &str) -> u64
    requires room { len < 2 ^ 63 }
    requires name { length name.now < 2 ^ 10 }
    requires value { length value.now < 2 ^ 60 }
    ensures exact { (text : List ℕ) → length text ≡ len → length (with_parameter text name.now value.now) ≡ result }
    ensures most { result ≤ len + 3 * length name.now + 3 * length value.now + 2 }
{
    if value.is_empty() {
        return len;
    }
    let separator = u64::from(len > 0);
    let pair = encoded_len_of(name.as_bytes()) + 1 + encoded_len_of(value.as_bytes());
    len + separator + pair
}

#[tactic(auto, unfolding(percent_encoding::specs::Percent::percent_encode_byte))]
fn byte_len(byte: u8) -> u64
    ensures exact { result ≡ length (form.serialize_byte byte) }
    ensures most { result ≤ 3 }
{
    match byte {
        b'*' | b'-' | b'.' | b'0'..=b'9' | b'A'..=b'Z' | b'_' | b'a'..=b'z' | b' ' => 1,
        _ => 3,
    }
}

#[tactic(auto, unfolding(form_urlencoded::specs::Form::byte_serialize))]
/// How many bytes a text has once a form spells it.
pub fn encoded_len_of(bytes: &[u8]) -> u64
    requires { length bytes.now < 2 ^ 60 }
    ensures exact { result ≡ length (form.byte_serialize bytes.now) }
    ensures most { result ≤ 3 * length bytes.now }
{
    let mut len = 0;
    for byte in bytes {
        len += byte_len(*byte);
    }
    len
}

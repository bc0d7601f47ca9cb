//! What a module brings to a page, and its version.
ghost use Rattle.std.specs.Prelude.{◌≡◌, IfOk};
ghost use Rattle.rl_wire.specs.Message.{AreAscending};
ghost use Rattle.rl_build.specs.Payload.{text_of, version_of};

use rl_names::{Message, NoMemory, Seq, Text, Version, hash5};
use rl_wire::payload_text;
use std::alloc::Global;

/// The texts that a module brings to a page.
#[derive(Drop)]
pub struct Payload {
    pub script: Text,
    pub styles: Text,
    /// In byte order of their keys, each key once.
    pub messages: Seq<Message>,
}

impl Payload {
    /// All that a module brings, as the one text that its version is the hash of.
    pub fn text(&self, alloc: Global) -> Result<Text, NoMemory>
        requires { AreAscending self.now.messages }
        ensures { IfOk result (λ t. t ≡ text_of self.now) }
    {
        payload_text(
            alloc,
            self.script.as_str(),
            self.styles.as_str(),
            self.messages.as_slice(),
        )
    }
}

/// The version of what a module brings. It tells changes, though two payloads may have one version.
pub fn version(alloc: Global, payload: &Payload) -> Result<Version, NoMemory>
    requires { AreAscending payload.now.messages }
    ensures { IfOk result (λ v. v ≡ version_of payload.now) }
{
    let text = payload.text(alloc)?;
    Ok(hash5(text.as_bytes()))
}

//! Printed lines.
ghost use Rattle.std.specs.Prelude.{◌≡◌, ◌++◌, OnOk, decimal};
ghost use Rattle.rl_script_spec.specs.Output.{key_or_name, line, state_word};

use itoa::Buffer;
use rl_names::{NoMemory, Version};
use rl_view_spec::Phase;

/// What is printed for a state.
pub fn state_word(phase: Phase) -> &'static str
    ensures { result.now ≡ state_word phase }
{
    match phase {
        Phase::Registered => "registered",
        Phase::Loading => "loading",
        Phase::Loaded => "loaded",
        Phase::Executing => "executing",
        Phase::Ready => "ready",
        Phase::Error => "error",
        Phase::Missing => "missing",
    }
}

/// Adds a text.
pub fn write(out: &mut Vec<u8>, text: &str) -> Result<(), NoMemory>
    ensures { OnOk result (out.new.items ≡ out.old.items ++ text.now) }
{
    out.extend_from_slice(text.as_bytes())?;
    Ok(())
}

/// Adds a text that ends a line.
pub fn write_line(out: &mut Vec<u8>, text: &str) -> Result<(), NoMemory>
    ensures { OnOk result (out.new.items ≡ out.old.items ++ line text.now) }
{
    write(out, text)?;
    out.push(b'\n')?;
    Ok(())
}

/// Adds a number in decimal.
pub fn write_number(out: &mut Vec<u8>, number: u64) -> Result<(), NoMemory>
    ensures { OnOk result (out.new.items ≡ out.old.items ++ decimal number) }
{
    let mut digits = Buffer::new();
    write(out, digits.format(number))
}

/// Adds a key, or a name alone where there is no version.
pub fn write_key(out: &mut Vec<u8>, name: &str, version: &Option<Version>) -> Result<(), NoMemory>
    ensures { OnOk result (out.new.items ≡ out.old.items ++ key_or_name name.now version.now) }
{
    write(out, name)?;
    match version {
        None => Ok(()),
        Some(version) => {
            out.push(b'@')?;
            write(out, version.as_str())
        }
    }
}

//! Writing a step as the line of a script.
ghost use Rattle.std.specs.Prelude.{◌≡◌, [], ◌∷◌, false, IfOk, OnOk, Ok};
ghost use Rattle.serde_json.specs.Data.{string};
ghost use Rattle.rl_wire.specs.Tokens.{value_tokens, values_tokens, Adds};
ghost use Rattle.rl_steps.specs.Script.{is_embedded, script_of};
ghost use Rattle.rl_steps.specs.Spelling.{texts_value, whole_value, values_of, step_text, IsSpelt, IsSized, StepsReadBack};
ghost use Rattle.rl_steps.specs.declared.script.Kinds.TheVariants.{All};
ghost use Rattle.rl_steps.specs.declared.step.Step.TheVariants.{Edit, Choice, View};

use crate::step::Step;
use json::Writer;
use rl_names::{NoMemory, Seq, Text};
use std::alloc::Global;

/// Writes a list of texts.
fn write_texts(json: &mut Writer, texts: &[Text]) -> Result<(), NoMemory>
    ensures { Adds result json.old json.new (value_tokens (texts_value texts.now)) }
{
    json.begin_array()?;
    'texts: for text in texts {
        json.string(text.as_str())?;
    }
    json.end_array()?;
    Ok(())
}

/// Writes the word and the members of an edit.
fn write_edit(
    json: &mut Writer,
    by: &Text,
    title: &Text,
    base: u64,
    text: &Text,
) -> Result<(), NoMemory>
    ensures { Adds result json.old json.new (values_tokens (values_of (Edit by.now title.now base text.now))) }
{
    json.string("edit")?;
    json.string(by.as_str())?;
    json.string(title.as_str())?;
    json.u64(base)?;
    json.string(text.as_str())?;
    Ok(())
}

/// Writes the word and the members of an option.
fn write_choice(json: &mut Writer, user: &Text, key: &Text, value: &Text) -> Result<(), NoMemory>
    ensures { Adds result json.old json.new (values_tokens (values_of (Choice user.now key.now value.now))) }
{
    json.string("option")?;
    json.string(user.as_str())?;
    json.string(key.as_str())?;
    json.string(value.as_str())?;
    Ok(())
}

/// Writes the word and the members of a view.
fn write_view(
    json: &mut Writer,
    user: &Text,
    lang: &Text,
    skin: &Text,
    debug: bool,
    features: &Seq<Text>,
) -> Result<(), NoMemory>
    ensures { Adds result json.old json.new (values_tokens (values_of (View user.now lang.now skin.now debug features.now))) }
{
    json.string("view")?;
    json.string(user.as_str())?;
    json.string(lang.as_str())?;
    json.string(skin.as_str())?;
    json.boolean(debug)?;
    write_texts(json, features.as_slice())
}

/// Writes a word and a list of names.
fn write_names(json: &mut Writer, word: &str, names: &Seq<Text>) -> Result<(), NoMemory>
    ensures { Adds result json.old json.new (values_tokens (string word.now ∷ texts_value names.now ∷ [])) }
{
    json.string(word)?;
    write_texts(json, names.as_slice())
}

/// Writes a word and a number.
fn write_number(json: &mut Writer, word: &str, number: u64) -> Result<(), NoMemory>
    ensures { Adds result json.old json.new (values_tokens (string word.now ∷ whole_value number ∷ [])) }
{
    json.string(word)?;
    json.u64(number)?;
    Ok(())
}

/// Writes the word and the members of a step.
fn write_values(json: &mut Writer, step: &Step) -> Result<(), NoMemory>
    ensures adds { Adds result json.old json.new (values_tokens (values_of step.now)) }
    ensures sized { OnOk result (IsSized step.now) }
{
    match step {
        Step::Edit {
            by,
            title,
            base,
            text,
        } => write_edit(json, by, title, *base, text),
        Step::Choice { user, key, value } => write_choice(json, user, key, value),
        Step::Clock { now } => write_number(json, "clock", *now),
        Step::View {
            user,
            lang,
            skin,
            debug,
            features,
        } => write_view(json, user, lang, skin, *debug, features),
        Step::Using { names } => write_names(json, "using", names),
        Step::Load { names } => write_names(json, "load", names),
        Step::Take => Ok(json.string("take")?),
        Step::Serve { ask } => write_number(json, "serve", u64::from(*ask)),
        Step::Deliver { wire } => write_number(json, "deliver", u64::from(*wire)),
        Step::Lose { ask } => write_number(json, "lose", u64::from(*ask)),
        Step::Close => Ok(json.string("close")?),
        Step::Embed { text } => {
            json.string("embed")?;
            Ok(json.string(text.as_str())?)
        }
    }
}

/// The line of a script that says a step, without its end.
pub fn write_step(alloc: Global, step: &Step) -> Result<Text, NoMemory>
    ensures text { IfOk result (λ text. text ≡ step_text step.now) }

    // It is read as the step alone, where that is no embedded text, its users are as the rule of user names spells them, and a
    // clock is below its end.
    ensures again { IfOk result (λ text. is_embedded step.now ≡ false → IsSpelt step.now → script_of All text ≡ Ok (step.now ∷ [])) }
{
    let mut json = Writer::new(Vec::new(alloc));
    json.begin_array()?;
    write_values(&mut json, step)?;
    json.end_array()?;
    // SAFETY: what a writer wrote is UTF-8.
    let text = unsafe { String::from_utf8_unchecked(json.into_inner()) };
    Ok(Text::from_string(text))
}

/// The line of each step, as `write_step` gives it, is read as that step.
pub fn spelling_laws()
    ensures { StepsReadBack }
{}

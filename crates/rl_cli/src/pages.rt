//! The wiki that definitions and a file of pages make.
ghost use Rattle.std.specs.Prelude.{◌≡◌, IfOk, fold};
ghost use Rattle.rl_pages.specs.declared.viewer.Viewer.{Viewer};
ghost use Rattle.rl_steps.specs.declared.step.Step.TheVariants as steps;
ghost use Rattle.rl_cli.specs.Pages.{after_step};

use rl_names::{NoMemory, Text};
use rl_pages::{ChoiceError, EditError, Viewer, ViewerError};
use rl_steps::Step;
use rl_wiki::Wiki;
use std::alloc::Global;

/// Takes an edit, or passes it over where it is refused.
fn take_edit(
    alloc: Global,
    wiki: &mut Wiki,
    by: &Text,
    title: &Text,
    base: u64,
    text: &Text,
) -> Result<(), NoMemory>
    ensures entries { IfOk result (λ _. wiki.new.entries
        ≡ after_step wiki.old.catalogue.admins wiki.old.entries (steps.Edit by.now title.now base text.now)) }
    ensures catalogue { wiki.new.catalogue ≡ wiki.old.catalogue }
{
    let viewer = match Viewer::read(alloc, by.as_bytes()) {
        Ok(viewer) => viewer,
        Err(ViewerError::BadUser) => return Ok(()),
        Err(ViewerError::NoMemory) => return Err(NoMemory),
    };
    match wiki.edit(&viewer, title.as_bytes(), base, text.as_str()) {
        Ok(_) => Ok(()),
        Err(EditError::BadTitle) => Ok(()),
        Err(EditError::NotAllowed) => Ok(()),
        Err(EditError::Conflict { .. }) => Ok(()),
        Err(EditError::TextTooLong { .. }) => Ok(()),
        Err(EditError::Full { .. }) => Ok(()),
        Err(EditError::NoMemory) => Err(NoMemory),
    }
}

/// Takes a choice, or passes it over where it is refused.
fn take_choice(
    alloc: Global,
    wiki: &mut Wiki,
    user: &Text,
    key: &Text,
    value: &Text,
) -> Result<(), NoMemory>
    ensures entries { IfOk result (λ _. wiki.new.entries
        ≡ after_step wiki.old.catalogue.admins wiki.old.entries (steps.Choice user.now key.now value.now)) }
    ensures catalogue { wiki.new.catalogue ≡ wiki.old.catalogue }
{
    let viewer = match Viewer::read(alloc, user.as_bytes()) {
        Ok(viewer) => viewer,
        Err(ViewerError::BadUser) => return Ok(()),
        Err(ViewerError::NoMemory) => return Err(NoMemory),
    };
    match wiki.set_choice(&viewer, key.as_str(), value.as_str()) {
        Ok(_) => Ok(()),
        Err(ChoiceError::NotAllowed) => Ok(()),
        Err(ChoiceError::BadKey) => Ok(()),
        Err(ChoiceError::TextTooLong { .. }) => Ok(()),
        Err(ChoiceError::Full { .. }) => Ok(()),
        Err(ChoiceError::NoMemory) => Err(NoMemory),
    }
}

/// Takes one step. Pages are made by edits and options alone.
fn take_step(alloc: Global, wiki: &mut Wiki, step: &Step) -> Result<(), NoMemory>
    ensures entries { IfOk result (λ _. wiki.new.entries ≡ after_step wiki.old.catalogue.admins wiki.old.entries step.now) }
    ensures catalogue { wiki.new.catalogue ≡ wiki.old.catalogue }
{
    match step {
        Step::Edit {
            by,
            title,
            base,
            text,
        } => take_edit(alloc, wiki, by, title, *base, text),
        Step::Choice { user, key, value } => take_choice(alloc, wiki, user, key, value),
        Step::Clock { .. }
        | Step::View { .. }
        | Step::Using { .. }
        | Step::Load { .. }
        | Step::Take
        | Step::Serve { .. }
        | Step::Deliver { .. }
        | Step::Lose { .. }
        | Step::Close
        | Step::Embed { .. } => Ok(()),
    }
}

/// Takes steps in their order.
pub fn take_steps(alloc: Global, wiki: &mut Wiki, steps: &[Step]) -> Result<(), NoMemory>
    ensures entries { IfOk result (λ _. wiki.new.entries ≡ fold (after_step wiki.old.catalogue.admins) wiki.old.entries steps.now) }
    ensures catalogue { wiki.new.catalogue ≡ wiki.old.catalogue }
{
    'steps: for step in steps {
        take_step(alloc, wiki, step)?;
    }
    Ok(())
}

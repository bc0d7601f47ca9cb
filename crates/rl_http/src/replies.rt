//! Answers one request.
ghost use Rattle.std.specs.Prelude.{◌≡◌, ◌==◌, ◌≤◌, IfOk, OnErr, IsErr, codes};
ghost use Rattle.std.specs.List.{position};
ghost use Rattle.rl_base.specs.Causes.{Rose};
ghost use Rattle.rl_names.specs.Query.{last_value};
ghost use Rattle.rl_names.specs.Title.{title_of};
ghost use Rattle.rl_pages.specs.Refusals.{checked_edit, checked_choice};
ghost use Rattle.rl_pages.specs.Viewer.{IsViewer};
ghost use Rattle.rl_wiki.specs.Front.{wiki_answer};
ghost use Rattle.rl_http.specs.Answers.{refused_text};
ghost use Rattle.rl_http.specs.Forms.{base_of};
ghost use Rattle.rl_http.specs.Heads.{viewer_named};
ghost use Rattle.rl_http.specs.Replies.{Replies, http_reply, kept, made_edit, made_choice, edit_asked, choice_asked, load_text, reply_by};
ghost use Rattle.rl_http.specs.Replies.{revision_asked, refusal_of_edit, refusal_of_choice};
ghost use Rattle.rl_http.specs.Routes.{target_parts};

use crate::answers::{loaded, refused, revision};
use crate::forms::{base_of, last_value};
use crate::heads::Head;
use crate::refusals::Refusal;
use crate::routes::Route;
use crate::routing::Routes;
use rl_keeper::Keeper;
use rl_loadphp::AnswerError;
use rl_names::{NoMemory, Text, Title, TitleError};
use rl_pages::Viewer;
use rl_wiki::{Desk, DeskChoiceError, DeskEditError};
use std::alloc::Global;

fn viewer_named(name: &Text) -> Result<Viewer, NoMemory>
    ensures { IfOk result (λ v. v ≡ viewer_named name.now) }
{
    if name.is_empty() {
        Ok(Viewer::Anon)
    } else {
        Ok(Viewer::User(name.copy()?))
    }
}

/// Where the first `?` stands.
fn mark_in(target: &[u8]) -> Option<usize>
    ensures { result ≡ position (λ b. b == 63) target.now }
{
    target.iter().position(|b| *b == b'?')
}

/// The bytes before the first `?`, and those after it.
fn target_parts(target: &[u8]) -> (&[u8], &[u8])
    ensures path { result.0.now ≡ (target_parts target.now).0 }
    ensures query { result.1.now ≡ (target_parts target.now).1 }
{
    match mark_in(target) {
        Some(at) => (&target[..at], &target[at + 1..]),
        None => (target, &[]),
    }
}

fn load<K: Keeper>(
    alloc: Global,
    desk: &Desk<K>,
    viewer: &Viewer,
    query: &[u8],
) -> Result<Text, NoMemory>
    ensures { IfOk result (λ t. t ≡ load_text (wiki_answer desk.now.catalogue desk.now.entries viewer.now query.now)) }
{
    match desk.answer(alloc, viewer, query) {
        Ok(answer) => loaded(alloc, &answer),
        Err(AnswerError::NoMemory) => Err(NoMemory),
        Err(AnswerError::QueryTooLong { .. }) => refused(alloc, Refusal::BadRequest),
        Err(AnswerError::TooManyNames { .. }) => refused(alloc, Refusal::BadRequest),
        Err(AnswerError::AnswerTooLong { .. }) => refused(alloc, Refusal::BadRequest),
    }
}

fn revision_asked<K: Keeper>(alloc: Global, desk: &Desk<K>, query: &[u8]) -> Result<Text, NoMemory>
    ensures { IfOk result (λ t. t ≡ revision_asked desk.now.entries (title_of (last_value query.now (codes "title")))) }
{
    let title = last_value(alloc, query, "title")?;
    match Title::read(alloc, title.as_bytes()) {
        Ok(title) => revision(alloc, desk.revision_of(&title)),
        Err(TitleError::BadTitle) => refused(alloc, Refusal::BadRequest),
        Err(TitleError::NoMemory) => Err(NoMemory),
    }
}

/// The answer to an edit that is refused.
fn refuse_edit(alloc: Global, error: DeskEditError) -> Result<Text, NoMemory>
    ensures text { IfOk result (λ t. t ≡ refused_text (refusal_of_edit error)) }
    ensures memory { error ≡ DeskEditError.NoMemory → IsErr result }
{
    let refusal = match error {
        DeskEditError::BadTitle => Refusal::BadRequest,
        DeskEditError::NotAllowed => Refusal::NotAllowed,
        DeskEditError::Conflict { current } => Refusal::Conflict { current },
        DeskEditError::TextTooLong { .. } | DeskEditError::Full { .. } => Refusal::TooLarge,
        DeskEditError::Failed => Refusal::Unavailable,
        DeskEditError::NoMemory => return Err(NoMemory),
    };
    refused(alloc, refusal)
}

/// The answer to a choice that is refused.
fn refuse_choice(alloc: Global, error: DeskChoiceError) -> Result<Text, NoMemory>
    ensures text { IfOk result (λ t. t ≡ refused_text (refusal_of_choice error)) }
    ensures memory { error ≡ DeskChoiceError.NoMemory → IsErr result }
{
    let refusal = match error {
        DeskChoiceError::NotAllowed => Refusal::NotAllowed,
        DeskChoiceError::BadKey => Refusal::BadRequest,
        DeskChoiceError::TextTooLong { .. } | DeskChoiceError::Full { .. } => Refusal::TooLarge,
        DeskChoiceError::Failed => Refusal::Unavailable,
        DeskChoiceError::NoMemory => return Err(NoMemory),
    };
    refused(alloc, refusal)
}

/// Makes an edit. The text for one that is accepted is made before the desk changes.
fn make_edit<K: Keeper>(
    alloc: Global,
    desk: &mut Desk<K>,
    viewer: &Viewer,
    title: &[u8],
    base: u64,
    text: &str,
) -> Result<Text, NoMemory>
    requires { IsViewer viewer.now }
    ensures replies { IfOk result (λ t. Replies desk.old.entries (Rose (K.faults desk.old.keeper) (K.faults desk.new.keeper))
        (kept desk.old.entries (made_edit (checked_edit desk.old.catalogue.admins desk.old.entries viewer.now title.now base text.now))) t desk.new.entries) }
    ensures stays { OnErr result (desk.new.entries ≡ desk.old.entries) }
    ensures catalogue { desk.new.catalogue ≡ desk.old.catalogue }
    ensures never_falls { K.faults desk.old.keeper ≤ K.faults desk.new.keeper }
{
    let accepted = revision(alloc, desk.revisions() + 1)?;
    match desk.edit(viewer, title, base, text) {
        Ok(_) => Ok(accepted),
        Err(error) => {
            let refusal = refuse_edit(alloc, error)?;
            Ok(refusal)
        }
    }
}

/// Makes a choice, alike.
fn make_choice<K: Keeper>(
    alloc: Global,
    desk: &mut Desk<K>,
    viewer: &Viewer,
    key: &str,
    value: &str,
) -> Result<Text, NoMemory>
    requires { IsViewer viewer.now }
    ensures replies { IfOk result (λ t. Replies desk.old.entries (Rose (K.faults desk.old.keeper) (K.faults desk.new.keeper))
        (kept desk.old.entries (made_choice (checked_choice desk.old.entries viewer.now key.now value.now))) t desk.new.entries) }
    ensures stays { OnErr result (desk.new.entries ≡ desk.old.entries) }
    ensures catalogue { desk.new.catalogue ≡ desk.old.catalogue }
    ensures never_falls { K.faults desk.old.keeper ≤ K.faults desk.new.keeper }
{
    let accepted = revision(alloc, desk.revisions() + 1)?;
    match desk.set_choice(viewer, key, value) {
        Ok(_) => Ok(accepted),
        Err(error) => {
            let refusal = refuse_choice(alloc, error)?;
            Ok(refusal)
        }
    }
}

/// The answer to a request for an edit.
fn edit<K: Keeper>(
    alloc: Global,
    desk: &mut Desk<K>,
    viewer: &Viewer,
    form: &[u8],
) -> Result<Text, NoMemory>
    requires { IsViewer viewer.now }
    ensures replies { IfOk result (λ t. Replies desk.old.entries (Rose (K.faults desk.old.keeper) (K.faults desk.new.keeper))
        (kept desk.old.entries (edit_asked desk.old.catalogue.admins desk.old.entries viewer.now form.now
        (base_of (last_value form.now (codes "base"))))) t desk.new.entries) }
    ensures stays { OnErr result (desk.new.entries ≡ desk.old.entries) }
    ensures catalogue { desk.new.catalogue ≡ desk.old.catalogue }
    ensures never_falls { K.faults desk.old.keeper ≤ K.faults desk.new.keeper }
{
    let base = last_value(alloc, form, "base")?;
    let Some(base) = base_of(base.as_bytes()) else {
        let refusal = refused(alloc, Refusal::BadRequest)?;
        return Ok(refusal);
    };
    let title = last_value(alloc, form, "title")?;
    let text = last_value(alloc, form, "text")?;
    let reply = make_edit(alloc, desk, viewer, title.as_bytes(), base, text.as_str())?;
    Ok(reply)
}

/// The answer to a request for a choice.
fn choose<K: Keeper>(
    alloc: Global,
    desk: &mut Desk<K>,
    viewer: &Viewer,
    form: &[u8],
) -> Result<Text, NoMemory>
    requires { IsViewer viewer.now }
    ensures replies { IfOk result (λ t. Replies desk.old.entries (Rose (K.faults desk.old.keeper) (K.faults desk.new.keeper))
        (kept desk.old.entries (choice_asked desk.old.entries viewer.now form.now)) t desk.new.entries) }
    ensures stays { OnErr result (desk.new.entries ≡ desk.old.entries) }
    ensures catalogue { desk.new.catalogue ≡ desk.old.catalogue }
    ensures never_falls { K.faults desk.old.keeper ≤ K.faults desk.new.keeper }
{
    let key = last_value(alloc, form, "key")?;
    let value = last_value(alloc, form, "value")?;
    let reply = make_choice(alloc, desk, viewer, key.as_str(), value.as_str())?;
    Ok(reply)
}

/// The answer to a request for a call.
fn reply_by<K: Keeper>(
    alloc: Global,
    desk: &mut Desk<K>,
    route: Route,
    viewer: &Viewer,
    query: &[u8],
    body: &[u8],
) -> Result<Text, NoMemory>
    requires { IsViewer viewer.now }
    ensures replies { IfOk result (λ t. Replies desk.old.entries (Rose (K.faults desk.old.keeper) (K.faults desk.new.keeper))
        (reply_by route desk.old.catalogue desk.old.entries viewer.now query.now body.now) t desk.new.entries) }
    ensures stays { OnErr result (desk.new.entries ≡ desk.old.entries) }
    ensures catalogue { desk.new.catalogue ≡ desk.old.catalogue }
    ensures never_falls { K.faults desk.old.keeper ≤ K.faults desk.new.keeper }
{
    match route {
        Route::Load => load(alloc, desk, viewer, query),
        Route::Edit => edit(alloc, desk, viewer, body),
        Route::Choice => choose(alloc, desk, viewer, body),
        Route::Revision => revision_asked(alloc, desk, query),
        Route::NotFound => refused(alloc, Refusal::NotFound),
        Route::NotAllowed => refused(alloc, Refusal::BadMethod),
    }
}

/// The answer to one whole request, and the history that the request leaves: the answer by the definition, or 503 where the
/// keeper failed at an entry that is accepted. Without memory the history is as before.
pub fn reply_to<K: Keeper>(
    alloc: Global,
    routes: &Routes,
    desk: &mut Desk<K>,
    head: &Head,
    body: &[u8],
) -> Result<Text, NoMemory>
    requires { IsViewer (viewer_named head.now.viewer) }
    ensures replies { IfOk result (λ t. Replies desk.old.entries (Rose (K.faults desk.old.keeper) (K.faults desk.new.keeper))
        (http_reply desk.old.catalogue desk.old.entries head.now body.now) t desk.new.entries) }
    ensures stays { OnErr result (desk.new.entries ≡ desk.old.entries) }
    ensures catalogue { desk.new.catalogue ≡ desk.old.catalogue }
    ensures never_falls { K.faults desk.old.keeper ≤ K.faults desk.new.keeper }
{
    let viewer = viewer_named(&head.viewer)?;
    let (path, query) = target_parts(head.target.as_bytes());
    let route = routes.find_encoded(alloc, head.method.as_str(), path)?;
    let reply = reply_by(alloc, desk, route, &viewer, query, body)?;
    Ok(reply)
}

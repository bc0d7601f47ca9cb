//! What a session of both ends is: what its steps do and answer, as definitions, with the headline over any steps.
#![tactic(auto)]

ghost use Rattle.rl_stage_spec.specs.Headline.{EmbeddedIsBuilt, PartsComeByAnswers, RunsAreGiven, ServedIsBuilt, SessionsHold};
ghost use Rattle.rl_stage_spec.specs.Headline.{StoredIsBuilt, ViewsAreOver};
ghost use Rattle.rl_stage_spec.specs.Shared.{ReadHasSkins, SharedIsForAll, VaryTells};

/// Of every session over lawful definitions, whatever its steps: in each view no module runs twice, each runs after all else
/// that it needs, and a touched name is ready exactly where all of its closure is good. Each view is opened over what the wiki
/// has for its viewer then.
///
/// What executes was given to its row. What was embedded was built when the view was opened. What came by an answer stands in
/// what the wiki said, at one moment, to an ask of that very view, and was built at that moment for the view's viewer and
/// context. What a view took from the store, under the key of the row, is what the wiki built for the view's own viewer and
/// context when it made the answer that the part came with, whoever had asked.
pub fn session_laws()
    ensures hold { SessionsHold }
    ensures over { ViewsAreOver }
    ensures given { RunsAreGiven }
    ensures embedded { EmbeddedIsBuilt }
    ensures answers { PartsComeByAnswers }
    ensures served { ServedIsBuilt }
    ensures stored { StoredIsBuilt }
{}

/// What is stored serves every viewer: of a module whose group is neither `user` nor `private` the same is built for each of
/// them in all contexts of one skin, and contexts for which the same is stored have one skin and one language, since no skin
/// of a definitions file that was read has a bar.
pub fn shared_laws()
    ensures skins { ReadHasSkins }
    ensures vary { VaryTells }
    ensures shared { SharedIsForAll }
{}

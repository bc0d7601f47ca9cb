//! What a viewer may not see changes no answer.
ghost use Rattle.rl_loadphp.specs.Isolation.{AnswersAreSeen, EmbedsAreSeen, PrivateIsUnseen};

/// Two wikis that differ in private modules alone give the same answer to every query, and so do two of the same
/// definitions whose histories a viewer sees alike; these also embed the same text. This does nothing: its contract is the law.
pub fn isolation_law()
    ensures private { PrivateIsUnseen }
    ensures seen { AnswersAreSeen }
    ensures embedded { EmbedsAreSeen }
{}

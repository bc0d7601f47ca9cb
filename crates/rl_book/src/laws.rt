//! Laws of views: where they end, and that the order in which answers come changes nothing of it.
ghost use Rattle.rl_book.specs.Order.{ExecutionsThrowAs, NotesThrowAs, OrderIsFree, SettledIsDecided};

/// Two views over the same rows and features, under observers who say the same, of which nothing is due: with the same touched
/// names and the same outcomes they have the same states, and executed the same rows with the same texts. That rows threw as the
/// observers say is so of a view that executed nothing, and stays so through executions and calls. Once all batches are settled
/// each touched name is ready, in error or missing, where each answer that was delivered had a part for each row of its batch.
pub fn order_laws()
    ensures order { OrderIsFree }
    ensures executed { ExecutionsThrowAs }
    ensures noted { NotesThrowAs }
    ensures settled { SettledIsDecided }
{}

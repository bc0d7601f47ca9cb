//! Answers of a table's rows: which of them count.
ghost use Rattle.std.specs.Prelude.{◌≡◌, ◌<◌, length};
ghost use Rattle.rl_view.specs.Seen.{counts_at};

use rl_states::Table;

/// Whether an answer counts for a row: it is touched, is not skipped and has no outcome.
pub fn counts(table: &Table, row: u32) -> bool
    requires { row < length table.now.registered.rows }
    ensures { result ≡ counts_at table.now row }
{
    table.touched(row) && !table.registry().skipped(row) && !table.has_outcome(row)
}

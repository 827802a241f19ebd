// The end: every column cleared behind its used part, and the work space whole; after a refusal all of them.
ghost use Rattle.columns.specs.Loans.{old_of, new_of};
ghost use Rattle.rules.specs.Types.{built_says};
ghost use Rattle.rules.specs.Tables.{coding_left};
ghost use Rattle.std.specs.Prelude.{◌≤◌};
ghost use Rattle.code_stages.specs.Stages.{Where};
ghost use Rattle.code_stages.specs.Settling.{CodingSettled};

use crate::answers;
use rules::{Counts, Refusal};

pub fn settle(
    b: Result<Counts, Refusal>,
    names: usize,
    edges: usize,
    bases: &mut [u64],
    short: &mut [u16],
    long_at: &mut [u32],
    long_value: &mut [u64],
    fields: &mut [u32],
    table: &mut [u16],
    escape_at: &mut [u64],
    escape_label: &mut [u32],
    edge_codes: &mut [u16],
    counting: &mut [u64],
    ranking: &mut [u64],
)
    requires { Where (built_says b) (names ≤ 16777216) }
    ensures { let before = coding_left old_of bases short long_at long_value fields table escape_at escape_label edge_codes counting ranking in
        let left = coding_left new_of bases short long_at long_value fields table escape_at escape_label edge_codes counting ranking in
        CodingSettled (built_says b) names edges before left }
{
    columns::zero(bases, answers::used_to(b, bases.len()));
    columns::zero(short, answers::used_to(b, short.len()));
    columns::zero(long_at, answers::used_to(b, long_at.len()));
    columns::zero(long_value, answers::used_to(b, long_value.len()));
    columns::zero(fields, answers::fields_of(b));
    columns::zero(table, answers::table_of(b, names));
    let escapes = answers::escapes_of(b);
    columns::zero(escape_at, escapes);
    columns::zero(escape_label, escapes);
    columns::zero(edge_codes, answers::used_to(b, edges));
    columns::zero(counting, 0);
    columns::zero(ranking, 0);
}

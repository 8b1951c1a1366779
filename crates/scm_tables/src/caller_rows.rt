ghost use Rattle.std.specs.Prelude.{◌≡◌, ◌==◌, not, find, filter, vec_capacity};

use scm_model::Caller;

/// The caller with a number.
pub fn caller_in(rows: &[Caller], number: u64) -> Option<Caller>
    ensures { result ≡ find (λ row. row.number == number) rows.now }
{
    for row in rows {
        if row.number == number {
            return Some(*row);
        }
    }
    None
}

/// Keeps the rows that have another number.
pub fn drop_caller_row(rows: &mut Vec<Caller>, number: u64)
    ensures rows { rows.new.items ≡ filter (λ row. not (row.number == number)) rows.old.items }
    ensures capacity { vec_capacity rows.new ≡ vec_capacity rows.old }
{
    rows.retain(|row| !(row.number == number));
}

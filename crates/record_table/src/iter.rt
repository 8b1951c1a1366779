ghost use Rattle.std.specs.Prelude.{◌≡◌, ◌<◌, ◌^◌, length};
ghost use Rattle.std.specs.Iterator.{YieldsFirstRef, item_count};

use super::table::RecordTable;
use scm_model::Service;
use std::marker::Model;

/// The services of a table in order of number, seen as those that are left.
#[derive(Drop)]
pub struct Services<'a> {
    table: &'a RecordTable,
    place: usize,
    end: usize,
}

impl<'a> Model for Services<'a> {
    ghost use Rattle.std.specs.Prelude.{List, ◌≡◌, drop, length};
    ghost use Rattle.scm_model.specs.declared.flat.Service.{Service};

    ghost Value = { List Service };

    ghost view = { λ it. drop it.place it.table.now.services };

    ghost invariant = { λ it. it.end ≡ length it.table.now.services };
}

impl<'a> Services<'a> {
    /// All services of a table.
    pub fn of(table: &'a RecordTable) -> Services<'a>
        ensures items { result ≡ table.now.services }
        ensures small { length table.now.services < 2 ^ 63 }
    {
        Services {
            table,
            place: 0,
            end: table.len(),
        }
    }
}

impl<'a> Iterator for Services<'a> {
    type Item = &'a Service;

    ghost next_gives = { YieldsFirstRef (λ rest. rest) };

    ghost remaining = { item_count (λ rest. rest) };

    fn next(&mut self) -> Option<&'a Service> {
        if self.place >= self.end {
            return None;
        }
        let row = self.table.at(self.place)?;
        self.place += 1;
        Some(row)
    }
}

ghost use Rattle.std.specs.Prelude.{◌≡◌};
ghost use Rattle.scm_rules.specs.Names.{names_active, names_failed};

use scm_text::{WText, same_units};

const ACTIVE: [u16; 14] = [
    83, 101, 114, 118, 105, 99, 101, 115, 65, 99, 116, 105, 118, 101,
];

const FAILED: [u16; 14] = [
    83, 101, 114, 118, 105, 99, 101, 115, 70, 97, 105, 108, 101, 100,
];

/// Whether a database's name is that of the one that is served.
pub fn names_active(database: &Option<WText>) -> bool
    ensures { result ≡ names_active database.now }
{
    match database {
        Some(name) => name.units().len() == 0 || same_units(name.units(), &ACTIVE),
        None => true,
    }
}

/// Whether a database's name is that of the one that never is.
pub fn names_failed(database: &Option<WText>) -> bool
    ensures { result ≡ names_failed database.now }
{
    match database {
        Some(name) => same_units(name.units(), &FAILED),
        None => false,
    }
}

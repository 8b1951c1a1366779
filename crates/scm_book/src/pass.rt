// The tokens of those who call the book.
use atomic_table::Badge;
use book_rule::View;
use std::marker::Model;

/// A seat's token. It has no bytes but its caller's number, and can't be copied. Contracts see
/// whose it is, what it has seen, and which places of that are its own.
#[derive(Drop)]
pub struct Pass {
    pub(crate) badge: Badge<View>,
    /// The number of the caller whose it is, or 0.
    pub(crate) caller: u64,
}

impl Model for Pass {
    ghost use Rattle.scm_book.specs.Passes.{Known, known_of, Sits};

    ghost Value = { Known };

    ghost view = { λ p. known_of p.badge.table_id p.badge.views };

    ghost invariant = { λ p. Sits p.badge.views p.caller };
}

/// A pass that makes no step more.
#[derive(Drop)]
pub struct Spent {
    pub(crate) badge: Badge<View>,
}

impl Model for Spent {
    ghost use Rattle.scm_book.specs.Passes.{Known, known_of, Rests};

    ghost Value = { Known };

    ghost view = { λ p. known_of p.badge.table_id p.badge.views };

    ghost invariant = { λ p. Rests p.badge.views };
}

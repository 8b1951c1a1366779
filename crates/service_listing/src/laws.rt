ghost use Rattle.std.specs.Prelude.{ℕ, List};
ghost use Rattle.scm_model.specs.declared.flat.Service.{Service};
ghost use Rattle.service_listing.specs.Fitting.{HaveTheirSizes, IsLongestFit};
ghost use Rattle.service_listing.specs.Placed.{LevelsHaveTheirParts, LevelsHaveTheirSizes};

/// Law: a page has as many services as fit.
pub fn pages_are_longest()
    ensures { (size : ℕ) (rows : List Service) → IsLongestFit size rows }
{}

/// Law: a listing has as many bytes as its size says, and a status with its process has 36.
pub fn bytes_have_their_sizes()
    ensures { HaveTheirSizes }
{}

/// Law: a level has as many bytes as its parts take.
pub fn levels_have_their_sizes()
    ensures { LevelsHaveTheirSizes }
{}

/// Law: a description stands after its offset, and a command after five numbers and the actions.
pub fn levels_have_their_parts()
    ensures { LevelsHaveTheirParts }
{}

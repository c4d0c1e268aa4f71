//! Answers of a desk as C sees them.

ghost use Rattle.std.specs.Prelude.{◌≡◌};
ghost use Rattle.dl_c.specs.Answers.{primed_as, held_as};

use dl_c_values::answers::Loaded;
use dl_c_values::codes::{FRESH, HIT};
use dl_desk::DeskPrime;

/// The answer to a prime.
pub fn primed(reply: DeskPrime) -> Loaded
    ensures { result ≡ primed_as reply }
{
    match reply {
        DeskPrime::Primed(cell) => Loaded {
            code: FRESH,
            cell,
            batch: 0,
        },
        DeskPrime::Kept => Loaded::refused(HIT),
    }
}

/// The answer to `dl_desk_held`.
pub fn held_cell(cell: Option<u32>) -> Loaded
    ensures { result ≡ held_as cell }
{
    match cell {
        Some(cell) => Loaded::found(cell),
        None => Loaded::refused(FRESH),
    }
}

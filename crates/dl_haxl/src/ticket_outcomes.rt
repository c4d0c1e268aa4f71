//! What the tickets of keys show.

ghost use Rattle.std.specs.Prelude.{◌≡◌, ◌++◌, [], true, OnOk, length};
ghost use Rattle.dl_terms.specs.Asked.{paired, pairs_of, wanted_of};
ghost use Rattle.dl_haxl.specs.Pairs.{AllLater, all_show, outcomes_shown};

use dl_loader::{LoaderName, Ticket};
use dl_terms::Asked;
use std::alloc::AllocError;

/// Whether each of the tickets shows its outcome.
pub(crate) fn all_shown<L: LoaderName>(tickets: &mut [Ticket<'_, L>]) -> bool
    ensures later { AllLater tickets.old tickets.new }
    ensures all { result ≡ all_show tickets.new }
{
    for ticket in tickets.iter_mut() {
        if ticket.look().is_none() {
            return false;
        }
    }
    true
}

/// Learns what the tickets of the wanted keys show.
pub(crate) fn learn<'l, L: LoaderName>(
    asked: &mut Asked<'l>,
    tickets: &mut [Ticket<'l, L>],
) -> Result<(), AllocError>
    requires each { length (wanted_of asked.old) ≡ length tickets.old }
    requires shown { all_show tickets.old ≡ true }
    ensures same { tickets.new ≡ tickets.old }
    ensures learned { OnOk result (pairs_of asked.new
        ≡ pairs_of asked.old ++ paired (wanted_of asked.old) (outcomes_shown tickets.old)) }
    ensures wanted { OnOk result (wanted_of asked.new ≡ []) }
{
    for ticket in tickets.iter_mut() {
        match ticket.look() {
            Some(outcome) => asked.learn(outcome)?,
            None => unreachable!(),
        }
    }
    Ok(())
}

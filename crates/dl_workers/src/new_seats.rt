//! How the first pass of a channel becomes the seats of a queue.

ghost use Rattle.std.specs.Prelude.{◌≡◌, ◌+◌, ◌-◌, ◌<◌, ◌≤◌, [], All, IfOk, vec_len};
ghost use Rattle.crossbeam_channel.specs.Claims.{view, IsSeatAt};
ghost use Rattle.crossbeam_channel.specs.Ends.{sends_on};
ghost use Rattle.dl_workers.specs.LosslessRule.{traffic};
ghost use Rattle.dl_workers.specs.Seats.{IsNewSender, IsNewTaker};

use crate::rule::{Deal, Item, Lossless, Traffic, Widen};
use crate::seats::{Sender, Taker};
use crossbeam_channel::{Pass, RuledSender};
use std::alloc::{AllocError, Global};

/// Makes the first pass, which is that of one seat, the pass of `more` seats more.
pub(crate) fn widen(
    sends: &RuledSender<Item, Traffic, Lossless>,
    whole: &mut Pass<Item, Traffic>,
    more: u32,
)
    requires channel { IsSeatAt (sends_on sends.now) whole.old }
    requires first { view whole.old ≡ traffic 1 1 [] [] }
    ensures channel { IsSeatAt (sends_on sends.now) whole.new }
    ensures wide { view whole.new ≡ traffic (1 + more) (1 + more) [] [] }
{
    for _ in 0..more {
        let _none = sends.another::<Widen>(whole);
    }
}

/// Deals the seats of senders from a pass of more seats than that.
pub(crate) fn deal_senders(
    sends: &RuledSender<Item, Traffic, Lossless>,
    alloc: Global,
    whole: &mut Pass<Item, Traffic>,
    count: u32,
) -> Result<Vec<Sender>, AllocError>
    requires channel { IsSeatAt (sends_on sends.now) whole.old }
    requires enough { count < (view whole.old).seats }
    requires unused { view whole.old ≡ traffic (view whole.old).seats (view whole.old).all [] [] }
    ensures channel { IsSeatAt (sends_on sends.now) whole.new }
    ensures rest { IfOk result (λ _. view whole.new ≡ traffic ((view whole.old).seats - count) (view whole.old).all [] []) }
    ensures count { IfOk result (λ v. vec_len v ≡ count) }
    ensures seats { IfOk result (λ v. All (λ s. IsSeatAt (sends_on sends.now) s.pass) v.items) }
    ensures new { IfOk result (λ v. All (IsNewSender (view whole.old).all) v.items) }
{
    let mut seats = Vec::with_capacity(alloc, count as usize)?;
    for _ in 0..count {
        let pass = sends.another::<Deal>(whole);
        seats.push_reserved(Sender::new(pass));
    }
    Ok(seats)
}

/// Deals the seats of takers from a pass of exactly as many seats. It becomes the last of them.
pub(crate) fn deal_takers(
    sends: &RuledSender<Item, Traffic, Lossless>,
    alloc: Global,
    mut whole: Pass<Item, Traffic>,
    count: u32,
) -> Result<Vec<Taker>, AllocError>
    requires channel { IsSeatAt (sends_on sends.now) whole }
    requires some { 1 ≤ count }
    requires unused { view whole ≡ traffic count (view whole).all [] [] }
    ensures count { IfOk result (λ v. vec_len v ≡ count) }
    ensures seats { IfOk result (λ v. All (λ t. IsSeatAt (sends_on sends.now) t.pass) v.items) }
    ensures new { IfOk result (λ v. All (IsNewTaker (view whole).all) v.items) }
{
    let mut seats = Vec::with_capacity(alloc, count as usize)?;
    for _ in 1..count {
        let pass = sends.another::<Deal>(&mut whole);
        seats.push_reserved(Taker::new(pass));
    }
    seats.push_reserved(Taker::new(whole));
    Ok(seats)
}

//! The loads of keys.

ghost use Rattle.std.specs.Prelude.{◌≡◌, [], ◌∷◌};
ghost use Rattle.dl_desk.specs.declared.call.DeskCall.TheVariants as asked;
ghost use Rattle.dl_desk.specs.declared.event.Call.TheVariants as made;
ghost use Rattle.dl_desk.specs.declared.event.Reply.TheVariants as reply;
ghost use Rattle.dl_loader.specs.Inside.Preparation.{IsReady};

use crate::event_call::{EventCall, Prepared};
use dl_desk::{Desk, FetchKey, Keys, LoadReply};
use dl_history::{Call, CallFault, Replies, Reply};
use std::alloc::Global;
use std::slice;

/// The load of a key.
#[derive(Drop)]
pub(crate) struct Load<'a> {
    pub(crate) key: &'a FetchKey,
}

impl EventCall for Load<'_> {
    type Reply = LoadReply;

    ghost call = { λ c. made.Load c.key.now };

    ghost told = { λ r. reply.Loaded r };

    ghost ready = { λ c desk. IsReady desk (asked.Load c.key.now) };

    #[inline(always)]
    fn prepare(
        &self,
        alloc: Global,
        _at: u16,
        desk: &mut Desk,
    ) -> Result<Prepared<LoadReply>, CallFault> {
        // The memo's own key, so that the history keeps no key for a load that finds one.
        let (reply, key) = desk.prepare_kept_load(alloc, self.key)?;
        Ok(Prepared {
            call: Call::Load(key),
            reply: Reply::Loaded(reply),
            dues: None,
            answer: reply,
        })
    }

    #[inline(always)]
    fn show(&self, desk: &mut Desk) {
        desk.make_prepared();
    }

    #[inline(always)]
    fn loads(reply: &LoadReply) -> &[LoadReply]
        ensures { reply.now ∷ [] ≡ result.now }
    {
        slice::from_ref(reply)
    }

    fn tell(loaded: LoadReply) -> Reply
        ensures { result ≡ reply.Loaded loaded }
    {
        Reply::Loaded(loaded)
    }
}

/// The loads of several keys in order, as one call.
#[derive(Drop)]
pub(crate) struct LoadMany<'a> {
    pub(crate) keys: &'a [FetchKey],
}

impl EventCall for LoadMany<'_> {
    type Reply = Replies;

    ghost call = { λ c. made.LoadMany c.keys.now };

    ghost told = { λ rs. reply.Many rs };

    ghost ready = { λ c desk. IsReady desk (asked.LoadMany c.keys.now) };

    fn prepare(
        &self,
        alloc: Global,
        _at: u16,
        desk: &mut Desk,
    ) -> Result<Prepared<Replies>, CallFault> {
        let replies = desk.prepare_loads(alloc, self.keys)?;
        let replies = Replies::new(alloc, replies)?;
        let told = replies.try_copy()?;
        let keys = Keys::copy_of(alloc, self.keys)?;
        Ok(Prepared {
            call: Call::LoadMany(keys),
            reply: Reply::Many(told),
            dues: None,
            answer: replies,
        })
    }

    fn show(&self, desk: &mut Desk) {
        desk.make_prepared();
    }

    fn loads(replies: &Replies) -> &[LoadReply]
        ensures { replies.now ≡ result.now }
    {
        replies.as_slice()
    }

    fn tell(replies: Replies) -> Reply
        ensures { result ≡ reply.Many replies }
    {
        Reply::Many(replies)
    }
}

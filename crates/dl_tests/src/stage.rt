//! What calls need, and what the library refuses them.

use crate::{Refusal, USERS, plan, tables, term};
use dl_scope::Plan;
use dl_source::Tables;
use dl_terms::Term;
use std::alloc::Global;
use std::hash::RandomState;
use std::process::Abort;
use std::random::RandomSource;

/// What calls need, and what the library refuses them.
#[derive(Drop)]
pub(crate) struct Stage<'a, R> {
    pub(crate) rt: &'a R,
    pub(crate) alloc: Global,
    /// How the loader hashes keys.
    pub(crate) hashing: RandomState,
    pub(crate) refusal: &'a Refusal,
}

/// The tables of users, and what you make stages of.
#[derive(Drop)]
pub(crate) struct Setting {
    alloc: Global,
    hashing: RandomState,
    nothing: Refusal,
    pub(crate) users: Tables,
}

impl Setting {
    pub(crate) fn new<R: Abort + RandomSource>(rt: &R, alloc: Global) -> Setting {
        let hashing = RandomState::new(rt).expect(rt, "no random numbers");
        Setting {
            alloc,
            hashing,
            nothing: Refusal::of_nothing(alloc),
            users: tables(alloc, hashing, USERS).expect(rt, "no tables"),
        }
    }

    /// The tables of users once more.
    pub(crate) fn copy_of_users(&self, rt: &impl Abort) -> Tables {
        tables(self.alloc, self.hashing, USERS).expect(rt, "no tables")
    }

    /// A stage that refuses nothing.
    pub(crate) fn stage<'a, R>(&'a self, rt: &'a R) -> Stage<'a, R> {
        self.refused(rt, &self.nothing)
    }

    /// A stage with this refusal.
    pub(crate) fn refused<'a, R>(&self, rt: &'a R, refusal: &'a Refusal) -> Stage<'a, R> {
        Stage {
            rt,
            alloc: self.alloc,
            hashing: self.hashing,
            refusal,
        }
    }
}

impl<R: Abort> Stage<'_, R> {
    /// The term of a text.
    pub(crate) fn term(&self, text: &str) -> Term {
        term(self.alloc, self.hashing, text).expect(self.rt, "no term")
    }

    /// The plans of these texts.
    pub(crate) fn plans(&self, texts: &[&str]) -> Vec<Plan> {
        let mut plans = Vec::new(self.alloc);
        for text in texts {
            let plan = plan(self.alloc, self.hashing, text).expect(self.rt, "no plan");
            plans.push(plan).expect(self.rt, "no memory");
        }
        plans
    }
}

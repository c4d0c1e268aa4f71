//! The workload of terms over a shared loader, one after another.

ghost use Rattle.std.specs.Prelude.{◌≡◌};
ghost use Rattle.dl_desk.specs.Service.{Answers};
ghost use Rattle.dl_loader.specs.Opening.{Names};

use crate::alike::Alike;
use crate::counts::Counts;
use crate::keys::limits;
use crate::scene::Scene;
use crate::shared::close;
use anyhow::{Result, bail};
use dl_desk::{FetchKey, Text};
use dl_haxl::run_inline;
use dl_loader::{History, Loader, LoaderName, Opening, Pass};
use dl_source::Source;
use dl_terms::{Answer, Term};
use itoa::Buffer;
use std::alloc::{AllocError, Global};
use std::marker::Brand;
use std::sync::Wait;

/// The number of terms, and the size of each.
#[derive(Clone, Copy)]
pub(crate) struct Terms {
    pub(crate) count: u32,
    /// The number of parts of each.
    pub(crate) parts: u32,
    /// The number of rounds of loads that each takes, which is how deep it is.
    pub(crate) rounds: u32,
}

/// Evaluates terms over a loader, whose source answers each key with one row. Each part of a term loads a key, and in
/// each further round the key that the row names in another table, so it loads no key twice. It closes the loader at
/// the end.
pub(crate) fn evaluated<R: Wait>(
    scene: &Scene<'_, R>,
    counts: &mut Counts,
    terms: Terms,
    batch: u32,
) -> Result<()> {
    let limits = limits(batch)?;
    let source = Alike::row(scene.alloc)?;
    let opening = Opening::new(scene.alloc, scene.hashing, &source, limits, 1)?;
    counts.history(&on_loader::<Brand, _, _>(scene, &source, opening, terms)?);
    Ok(())
}

/// The evaluations on the loader of an opening, which `L` names, and its history.
fn on_loader<L: LoaderName, S: Source, R: Wait>(
    scene: &Scene<'_, R>,
    source: &S,
    opening: Opening<'_, S>,
    terms: Terms,
) -> Result<History>
    requires source { opening.source ≡ source.now }
    requires names { Names S.answer opening L.service L.parts L.cells L.name }
{
    let (loader, mut passes) = Loader::<L>::start(scene.alloc, opening)?;
    evaluate(scene, source, &loader, &mut passes, terms)?;
    close(scene.alloc, loader, passes)
}

/// The first caller evaluates the terms.
fn evaluate<L: LoaderName, S: Source, R: Wait>(
    scene: &Scene<'_, R>,
    source: &S,
    loader: &Loader<L>,
    passes: &mut [Pass<L>],
    terms: Terms,
) -> Result<()>
    requires { Answers (S.answer source.now) L.service }
{
    if let Some(pass) = passes.first_mut() {
        for number in 0..terms.count {
            evaluate_one(scene, source, loader, pass, terms, number)?;
        }
    }
    Ok(())
}

/// The caller of a pass evaluates the term of a number.
fn evaluate_one<L: LoaderName, S: Source, R: Wait>(
    scene: &Scene<'_, R>,
    source: &S,
    loader: &Loader<L>,
    pass: &mut Pass<L>,
    terms: Terms,
    number: u32,
) -> Result<()>
    requires { Answers (S.answer source.now) L.service }
{
    let (alloc, hashing) = (scene.alloc, scene.hashing);
    let term = term_of(alloc, terms, number)?;
    let (answer, _rounds) = run_inline(scene.rt, alloc, hashing, loader, source, pass, term)?;
    match answer {
        Answer::Value(_) => Ok(()),
        Answer::Fault(_) => bail!("a term without a value"),
    }
}

/// The term of a number. Fails if memory runs out.
pub(crate) fn term_of(alloc: Global, terms: Terms, number: u32) -> Result<Term, AllocError> {
    let next = Text::new(alloc, "next")?;
    let parts = parts_of(alloc, &next, terms, number)?;
    Ok(Term::All(parts))
}

/// The parts of the term of a number.
fn parts_of(
    alloc: Global,
    next: &Text,
    terms: Terms,
    number: u32,
) -> Result<Vec<Term>, AllocError> {
    let first = number.saturating_mul(terms.parts);
    let mut parts = Vec::with_capacity(alloc, terms.parts as usize)?;
    for part in 0..terms.parts {
        parts.push(part_of(alloc, next, first.saturating_add(part), terms.rounds)?)?;
    }
    Ok(parts)
}

/// The part of a number, over all terms, with this many rounds of loads. The field `next` of a row names its next key.
fn part_of(alloc: Global, next: &Text, number: u32, rounds: u32) -> Result<Term, AllocError> {
    let first = number.saturating_mul(rounds);
    let mut part = Term::Load(key_of(alloc, first)?);
    for round in 1..rounds {
        part = followed(alloc, part, next, first.saturating_add(round))?;
    }
    Ok(part)
}

/// The key `1` of the table of a number.
fn key_of(alloc: Global, number: u32) -> Result<FetchKey, AllocError> {
    let table = table_of(alloc, number)?;
    FetchKey::new(alloc, table.as_str(), "1").or(Err(AllocError))
}

/// The load of the key that the field of the part's row names, in the table of a number.
fn followed(alloc: Global, part: Term, field: &Text, number: u32) -> Result<Term, AllocError> {
    let part = Box::new(alloc, part)?;
    let field = field.try_copy()?;
    let table = table_of(alloc, number)?;
    Ok(Term::Follow { part, field, table })
}

/// The table of a number: its name is the number in decimal.
fn table_of(alloc: Global, number: u32) -> Result<Text, AllocError> {
    let mut buffer = Buffer::new();
    Text::new(alloc, buffer.format(number))
}

//! What a term ends with, by the outcomes of the loads that were read, where its fault comes from, and which loads it asks
//! for.

ghost use Rattle.std.specs.Prelude.{◌≡◌, ◌≤◌, ◌+◌, [], ℕ, List, None, Some, IfOk, IfNone, IfSome, OnOk, map, option_copied};
ghost use Rattle.std.specs.List.{AllZip};
ghost use Rattle.serde_json.specs.Data.{Data};
ghost use Rattle.serde_json.specs.Find.{as_array, get};
ghost use Rattle.serde_json.specs.View.{items_of, items_view, view};
ghost use Rattle.serde_json.specs.declared.value.Value.{Value as JsonValue};
ghost use Rattle.dl_picture.specs.Asking.{joint_by, known_of};
ghost use Rattle.dl_picture.specs.FaultPath.{EndsWith, IsOf, MayEndWith, at_item};
ghost use Rattle.dl_picture.specs.Seeking.{AreItems, AreTogether, EndsInside, Gathers, IsAdded, IsOver, IsTogether, MayBeItem, loads_of_value, value_in, value_of};
ghost use Rattle.dl_picture.specs.TermLoads.{all_loads_at, copies_load, copy_loads, each_loads, loads_at, target_loads, targets_loads};
ghost use Rattle.dl_terms.specs.Tree.{Tree, each, follow, load, over, pick, the_item, with_item};
ghost use Rattle.dl_terms.specs.TermAnswers.{answer, answers, item_targets, joined_data, list_targets, listed, load_answer, picked, target_answer, target_answers, target_in, targets_in, value_target};
ghost use Rattle.dl_terms.specs.declared.answer.Answer.TheVariants as answer;
ghost use Rattle.dl_terms.specs.View.{term_view, terms_view, trees_of};

use crate::asking::{Asking, Loading};
use crate::knowledge::{Knowledge, MOST_ITEMS};
use crate::origin::{Ending, Met, Origin};
use dl_desk::FetchKey;
use dl_terms::{Answer, AnswerValue, EvalFault, Names, Term, loaded};
use dl_values::Text;
use serde_json::Value;
use std::alloc::{AllocError, Global};

/// What several parts end with together: their values, as a list or as the object of these names, or the first fault and
/// its place. Fails if memory runs out.
fn gathered<'t>(
    alloc: Global,
    names: Option<&Names>,
    endings: Vec<Ending<'t>>,
) -> Result<Result<AnswerValue, (usize, Origin<'t>)>, AllocError>
    ensures { IfOk result (Gathers (joint_by names.entry) endings.entry.items) }
{
    let mut values = Vec::with_capacity(alloc, endings.len())?;
    for ending in endings {
        match ending {
            Ok(value) => values.push(value)?,
            Err(origin) => return Ok(Err((values.len(), origin))),
        }
    }
    Ok(Ok(joined(alloc, names, values)?))
}

/// The list of values, or the object of these names. Fails if memory runs out.
fn joined(
    alloc: Global,
    names: Option<&Names>,
    values: Vec<AnswerValue>,
) -> Result<AnswerValue, AllocError>
    ensures { IfOk result (λ v. v ≡ joined_data (joint_by names.entry) (items_of values.items)) }
{
    match names {
        None => Ok(AnswerValue::list(values)),
        Some(names) => AnswerValue::object(alloc, names, values),
    }
}

/// What parts end with and one part more, or `None` if one of them waits. Fails if memory runs out.
fn with_ending<'t>(
    before: Option<Vec<Ending<'t>>>,
    ending: Option<Ending<'t>>,
) -> Result<Option<Vec<Ending<'t>>>, AllocError>
    ensures { IfOk result (IsAdded before.entry ending.entry) }
{
    match (before, ending) {
        (Some(mut endings), Some(ending)) => {
            endings.push(ending)?;
            Ok(Some(endings))
        }
        _ => Ok(None),
    }
}

impl Knowledge<'_, '_> {
    /// What the load of a key answers, if it was read.
    fn answer_of_key(
        &self,
        key: &FetchKey,
        asking: &mut Asking<'_>,
    ) -> Result<Option<Answer>, AllocError>
        ensures answer { IfOk result (λ a. a ≡ load_answer (known_of self.now) key.now) }
        ensures loads { OnOk result (asking.new.loads ≡ asking.old.loads + 1) }
    {
        asking.load()?;
        match self.outcome(key) {
            Some(outcome) => Ok(Some(loaded(key, outcome)?)),
            None => Ok(None),
        }
    }

    /// What the load of a value as an id of a table answers, if it was read.
    fn answer_of_id(
        &self,
        table: &Text,
        id: &Value,
        asking: &mut Asking<'_>,
    ) -> Result<Option<Answer>, AllocError>
        ensures answer { IfOk result (λ a. a ≡ target_answer (known_of self.now) (value_target table.now (view id.now))) }
        ensures loads { OnOk result (asking.new.loads ≡ asking.old.loads + target_loads (value_target table.now (view id.now))) }
    {
        match self.key_in(table, id)? {
            Some(key) => self.answer_of_key(&key, asking),
            None => Ok(Some(Answer::Fault(EvalFault::NotAKey))),
        }
    }

    /// What the load of a key ends with.
    fn seek_load<'t>(
        &self,
        term: &'t Term,
        key: &'t FetchKey,
        asking: &mut Asking<'t>,
    ) -> Result<Option<Ending<'t>>, AllocError>
        ensures ends { (t : Tree) → IsOf t term.now → t ≡ load key.now → IfOk result (MayEndWith (known_of self.now) t) }
        ensures loads { OnOk result (asking.new.loads ≡ asking.old.loads + 1) }
    {
        match self.answer_of_key(key, asking)? {
            None => {
                asking.wait(Loading::Load(key));
                Ok(None)
            }
            Some(Answer::Value(value)) => Ok(Some(Ok(value))),
            Some(Answer::Fault(fault)) => {
                Ok(Some(Err(Origin::own(self.alloc, term, fault, Met::Outcome))))
            }
        }
    }

    /// What an item ends with in the body of this one, or in none.
    fn seek_item<'t>(
        &self,
        term: &'t Term,
        item: Option<&AnswerValue>,
    ) -> Result<Option<Ending<'t>>, AllocError>
        ensures { term_view term.now ≡ the_item → IfOk result (MayEndWith (known_of self.now) (at_item (option_copied item.entry) (term_view term.now))) }
    {
        match item {
            None => Ok(Some(Err(Origin::own(self.alloc, term, EvalFault::NoItem, Met::Nothing)))),
            Some(item) => Ok(Some(Ok(AnswerValue::row(item.to_json(self.alloc)?)))),
        }
    }

    /// What a pick ends with whose part has this value.
    fn pick_of<'t>(
        &self,
        term: &'t Term,
        value: AnswerValue,
        field: &Text,
    ) -> Result<Option<Ending<'t>>, AllocError>
        ensures { (t q : Tree) → answer (known_of self.now) q ≡ Some (answer.Value value) → IsOf t term.now → t ≡ pick q field.now
            → IfOk result (MayEndWith (known_of self.now) t) }
    {
        match value.member(self.alloc, field.as_str())? {
            None => Ok(Some(Err(self.lacks(term, value)))),
            Some(found) => Ok(Some(Ok(AnswerValue::row(found)))),
        }
    }

    /// The fault of a term whose part has this value, without the field.
    fn lacks<'t>(&self, term: &'t Term, value: AnswerValue) -> Origin<'t>
        ensures path { result.path.items ≡ [] }
        ensures part { result.part.now ≡ term.now }
        ensures fault { result.fault ≡ EvalFault.NoField }
        ensures met { result.met ≡ Met.Whole value }
    {
        Origin::own(self.alloc, term, EvalFault::NoField, Met::Whole(value))
    }

    /// What a follow ends with whose part has this value.
    fn follow_of<'t>(
        &self,
        term: &'t Term,
        value: AnswerValue,
        field: &'t Text,
        table: &Text,
        asking: &mut Asking<'t>,
    ) -> Result<Option<Ending<'t>>, AllocError>
        ensures ends { (t q : Tree) → answer (known_of self.now) q ≡ Some (answer.Value value) → IsOf t term.now → t ≡ follow q field.now table.now
            → IfOk result (MayEndWith (known_of self.now) t) }
        ensures loads { OnOk result (asking.new.loads ≡ asking.old.loads + target_loads (target_in table.now (picked field.now (answer.Value value)))) }
    {
        match value.member(self.alloc, field.as_str())? {
            None => Ok(Some(Err(self.lacks(term, value)))),
            Some(id) => match self.answer_of_id(table, id.value(), asking)? {
                None => {
                    asking.wait(Loading::Follow(field));
                    Ok(None)
                }
                Some(Answer::Value(row)) => Ok(Some(Ok(row))),
                Some(Answer::Fault(fault)) => {
                    let met = Met::Field(id.into_value()?);
                    Ok(Some(Err(Origin::own(self.alloc, term, fault, met))))
                }
            },
        }
    }

    /// What an each ends with whose part has this value.
    fn each_of<'t>(
        &self,
        term: &'t Term,
        value: AnswerValue,
        field: &'t Text,
        table: &Text,
        asking: &mut Asking<'t>,
    ) -> Result<Option<Ending<'t>>, AllocError>
        ensures ends { (t q : Tree) → answer (known_of self.now) q ≡ Some (answer.Value value) → IsOf t term.now → t ≡ each q field.now table.now
            → IfOk result (MayEndWith (known_of self.now) t) }
        ensures loads { OnOk result (asking.new.loads ≡ asking.old.loads + targets_loads (targets_in table.now (picked field.now (answer.Value value)))) }
    {
        match value.member(self.alloc, field.as_str())? {
            None => Ok(Some(Err(self.lacks(term, value)))),
            Some(ids) => self.seek_list(term, table, ids.value(), Loading::Each(field), asking),
        }
    }

    /// What an each ends with whose field has this value.
    fn seek_list<'t>(
        &self,
        term: &'t Term,
        table: &Text,
        ids: &Value,
        itself: Loading<'t>,
        asking: &mut Asking<'t>,
    ) -> Result<Option<Ending<'t>>, AllocError>
        ensures ends { (t q : Tree) (d : Data) (field : List ℕ) → answer (known_of self.now) q ≡ Some (answer.Value d) → get field d ≡ Some (view ids.now)
            → IsOf t term.now → t ≡ each q field table.now → IfOk result (MayEndWith (known_of self.now) t) }
        ensures loads { OnOk result (asking.new.loads ≡ asking.old.loads + targets_loads (list_targets table.now (as_array (view ids.now)))) }
    {
        match ids.as_array() {
            None => Ok(Some(Err(self.no_ids(term, EvalFault::NotAList, ids)?))),
            Some(list) => {
                if list.len() > MOST_ITEMS {
                    return Ok(Some(Err(self.no_ids(term, EvalFault::TooMany, ids)?)));
                }
                self.seek_ids(term, table, list.as_slice(), itself, asking)
            }
        }
    }

    /// The fault of an each whose field has a value that is no list of ids.
    fn no_ids<'t>(
        &self,
        term: &'t Term,
        fault: EvalFault,
        ids: &Value,
    ) -> Result<Origin<'t>, AllocError>
        ensures path { IfOk result (λ o. o.path.items ≡ []) }
        ensures part { IfOk result (λ o. o.part.now ≡ term.now) }
        ensures fault { IfOk result (λ o. o.fault ≡ fault) }
        ensures met { IfOk result (λ o. (v : JsonValue) × (view v ≡ view ids.now) × (o.met ≡ Met.Field v)) }
    {
        let met = Met::Field(ids.clone()?);
        Ok(Origin::own(self.alloc, term, fault, met))
    }

    /// What an each ends with whose field lists these ids, at most 1,024.
    fn seek_ids<'t>(
        &self,
        term: &'t Term,
        table: &Text,
        ids: &[Value],
        itself: Loading<'t>,
        asking: &mut Asking<'t>,
    ) -> Result<Option<Ending<'t>>, AllocError>
        ensures together { IfOk result (AreTogether (known_of self.now) term.now table.now ids.now) }
        ensures loads { OnOk result (asking.new.loads ≡ asking.old.loads + each_loads (item_targets table.now (items_view ids.now))) }
    {
        match self.rows_of(term, table, ids, asking)? {
            None => {
                asking.wait(itself);
                Ok(None)
            }
            Some(rows) => match gathered(self.alloc, None, rows)? {
                Ok(values) => Ok(Some(Ok(values))),
                Err((_, origin)) => Ok(Some(Err(origin))),
            },
        }
    }

    /// What the loads of an each end with, by these ids, unless one waits.
    fn rows_of<'t>(
        &self,
        term: &'t Term,
        table: &Text,
        ids: &[Value],
        asking: &mut Asking<'_>,
    ) -> Result<Option<Vec<Ending<'t>>>, AllocError>
        ensures rows { IfOk result (λ o. IfSome o (λ rows. AreItems (known_of self.now) term.now table.now 0 ids.now rows.items)) }
        ensures waits { IfOk result (λ o. IfNone o (target_answers (known_of self.now) (item_targets table.now (items_view ids.now)) ≡ None)) }
        ensures loads { OnOk result (asking.new.loads ≡ asking.old.loads + each_loads (item_targets table.now (items_view ids.now))) }
    {
        let mut rows = Some(Vec::with_capacity(self.alloc, ids.len())?);
        for (place, id) in ids.iter().enumerate() {
            rows = with_ending(rows, self.row_of(term, table, place, id, asking)?)?;
        }
        Ok(rows)
    }

    /// What the load of an each ends with, by the id at this place, unless it waits.
    fn row_of<'t>(
        &self,
        term: &'t Term,
        table: &Text,
        place: usize,
        id: &Value,
        asking: &mut Asking<'_>,
    ) -> Result<Option<Ending<'t>>, AllocError>
        ensures row { IfOk result (MayBeItem (known_of self.now) term.now table.now place id.now) }
        ensures loads { OnOk result (asking.new.loads ≡ asking.old.loads + target_loads (value_target table.now (view id.now))) }
    {
        match self.answer_of_id(table, id, asking)? {
            None => Ok(None),
            Some(Answer::Value(row)) => Ok(Some(Ok(row))),
            Some(Answer::Fault(fault)) => {
                let met = Met::Item(place, id.clone()?);
                Ok(Some(Err(Origin::own(self.alloc, term, fault, met))))
            }
        }
    }

    /// The value of a term's first part, which ends so, or what the term ends with if that has none.
    fn inside<'t>(
        &self,
        term: &'t Term,
        ending: Option<Ending<'t>>,
    ) -> Result<Result<AnswerValue, Option<Ending<'t>>>, AllocError>
        ensures ends { (t q : Tree) → IsOf t term.now → IsOver (known_of self.now) t q → MayEndWith (known_of self.now) q ending.entry
            → IfOk result (EndsInside (known_of self.now) t q) }
        ensures value { IfOk result (λ inside. value_in inside ≡ value_of ending.entry) }
    {
        match ending {
            None => Ok(Err(None)),
            Some(Ok(value)) => Ok(Ok(value)),
            Some(Err(origin)) => Ok(Err(Some(Err(origin.above(term, 0)?)))),
        }
    }

    /// What a pick ends with whose part ends so.
    fn seek_pick<'t>(
        &self,
        term: &'t Term,
        part: Option<Ending<'t>>,
        field: &Text,
    ) -> Result<Option<Ending<'t>>, AllocError>
        ensures { (t q : Tree) → IsOf t term.now → t ≡ pick q field.now → MayEndWith (known_of self.now) q part.entry → IfOk result (MayEndWith (known_of self.now) t) }
    {
        match self.inside(term, part)? {
            Ok(value) => self.pick_of(term, value, field),
            Err(ending) => Ok(ending),
        }
    }

    /// What a follow ends with whose part ends so.
    fn seek_follow<'t>(
        &self,
        term: &'t Term,
        part: Option<Ending<'t>>,
        field: &'t Text,
        table: &Text,
        asking: &mut Asking<'t>,
    ) -> Result<Option<Ending<'t>>, AllocError>
        ensures ends { (t q : Tree) → IsOf t term.now → t ≡ follow q field.now table.now → MayEndWith (known_of self.now) q part.entry → IfOk result (MayEndWith (known_of self.now) t) }
        ensures loads { OnOk result (asking.new.loads ≡ asking.old.loads
            + loads_of_value (value_of part.entry) (λ d. target_loads (target_in table.now (picked field.now (answer.Value d))))) }
    {
        match self.inside(term, part)? {
            Ok(value) => self.follow_of(term, value, field, table, asking),
            Err(ending) => Ok(ending),
        }
    }

    /// What an each ends with whose part ends so.
    fn seek_each<'t>(
        &self,
        term: &'t Term,
        part: Option<Ending<'t>>,
        field: &'t Text,
        table: &Text,
        asking: &mut Asking<'t>,
    ) -> Result<Option<Ending<'t>>, AllocError>
        ensures ends { (t q : Tree) → IsOf t term.now → t ≡ each q field.now table.now → MayEndWith (known_of self.now) q part.entry → IfOk result (MayEndWith (known_of self.now) t) }
        ensures loads { OnOk result (asking.new.loads ≡ asking.old.loads
            + loads_of_value (value_of part.entry) (λ d. targets_loads (targets_in table.now (picked field.now (answer.Value d))))) }
    {
        match self.inside(term, part)? {
            Ok(value) => self.each_of(term, value, field, table, asking),
            Err(ending) => Ok(ending),
        }
    }

    /// What a term ends with whose parts, from this number on, end so, or of which one waits: as the list of their values
    /// or as the object of these names.
    fn together<'t>(
        &self,
        term: &'t Term,
        number: usize,
        names: Option<&Names>,
        endings: Option<Vec<Ending<'t>>>,
    ) -> Result<Option<Ending<'t>>, AllocError>
        requires { number ≤ 1 }
        ensures { (t : Tree) (ts : List Tree) → IsOf t term.now → IsTogether (known_of self.now) t (joint_by names.entry) number ts
            → IfSome endings.entry (λ es. AllZip (EndsWith (known_of self.now)) ts es.items)
            → IfNone endings.entry (answers (known_of self.now) (trees_of ts) ≡ None) → IfOk result (MayEndWith (known_of self.now) t) }
    {
        match endings {
            None => Ok(None),
            Some(endings) => match gathered(self.alloc, names, endings)? {
                Ok(value) => Ok(Some(Ok(value))),
                Err((place, origin)) => Ok(Some(Err(origin.above(term, number + place)?))),
            },
        }
    }

    /// What a term ends with, in a body with this item or in none, or `None` if it waits. Fails if memory runs out.
    #[cycle(seeking)]
    pub(crate) fn seek<'t>(
        &self,
        term: &'t Term,
        item: Option<&AnswerValue>,
        asking: &mut Asking<'t>,
    ) -> Result<Option<Ending<'t>>, AllocError>
        ensures ends { IfOk result (MayEndWith (known_of self.now) (at_item (option_copied item.entry) (term_view term.now))) }
        ensures loads { OnOk result (asking.new.loads ≡ asking.old.loads + loads_at (known_of self.now) (option_copied item.entry) (term_view term.now)) }
    {
        match term {
            Term::Value(value) => Ok(Some(Ok(AnswerValue::row(value.try_copy()?)))),
            Term::Load(key) => self.seek_load(term, key, asking),
            Term::Item => self.seek_item(term, item),
            Term::Pick { part, field } => {
                self.seek_pick(term, self.seek(part, item, asking)?, field)
            }
            Term::Follow { part, field, table } => {
                self.seek_follow(term, self.seek(part, item, asking)?, field, table, asking)
            }
            Term::Each { part, field, table } => {
                self.seek_each(term, self.seek(part, item, asking)?, field, table, asking)
            }
            Term::Over { part, body } => {
                self.seek_over(term, self.seek(part, item, asking)?, body, asking)
            }
            Term::All(parts) => self.seek_all(term, None, parts.as_slice(), item, asking),
            Term::Object { names, parts } => {
                self.seek_all(term, Some(names), parts.as_slice(), item, asking)
            }
        }
    }

    /// What a term ends with that has these parts, as the list of their values or as the object of these names.
    #[cycle(seeking)]
    fn seek_all<'t>(
        &self,
        term: &'t Term,
        names: Option<&Names>,
        parts: &'t [Term],
        item: Option<&AnswerValue>,
        asking: &mut Asking<'t>,
    ) -> Result<Option<Ending<'t>>, AllocError>
        ensures ends { (t : Tree) → IsOf t term.now
            → IsTogether (known_of self.now) t (joint_by names.entry) 0 (map (λ x. at_item (option_copied item.entry) (term_view x)) parts.now)
            → IfOk result (MayEndWith (known_of self.now) t) }
        ensures loads { OnOk result (asking.new.loads ≡ asking.old.loads + all_loads_at (known_of self.now) (option_copied item.entry) (terms_view parts.now)) }
    {
        let endings = self.endings_of(parts, item, asking)?;
        self.together(term, 0, names, endings)
    }

    /// What terms end with, in a body with this item or in none, or `None` if one waits.
    #[cycle(seeking)]
    fn endings_of<'t>(
        &self,
        terms: &'t [Term],
        item: Option<&AnswerValue>,
        asking: &mut Asking<'t>,
    ) -> Result<Option<Vec<Ending<'t>>>, AllocError>
        ensures endings { IfOk result (λ o. IfSome o (λ endings. AllZip (EndsWith (known_of self.now))
            (map (λ x. at_item (option_copied item.entry) (term_view x)) terms.now) endings.items)) }
        ensures waits { IfOk result (λ o. IfNone o
            (answers (known_of self.now) (trees_of (map (λ x. at_item (option_copied item.entry) (term_view x)) terms.now)) ≡ None)) }
        ensures loads { OnOk result (asking.new.loads ≡ asking.old.loads + all_loads_at (known_of self.now) (option_copied item.entry) (terms_view terms.now)) }
    {
        let mut endings = Some(Vec::with_capacity(self.alloc, terms.len())?);
        for term in terms {
            endings = with_ending(endings, self.seek(term, item, asking)?)?;
        }
        Ok(endings)
    }

    /// What an over ends with whose part ends so.
    #[cycle(seeking)]
    fn seek_over<'t>(
        &self,
        term: &'t Term,
        part: Option<Ending<'t>>,
        body: &'t Term,
        asking: &mut Asking<'t>,
    ) -> Result<Option<Ending<'t>>, AllocError>
        ensures ends { (t q : Tree) → IsOf t term.now → t ≡ over q (term_view body.now) → MayEndWith (known_of self.now) q part.entry → IfOk result (MayEndWith (known_of self.now) t) }
        ensures loads { OnOk result (asking.new.loads ≡ asking.old.loads
            + loads_of_value (value_of part.entry) (λ d. copies_load (λ e. loads_at (known_of self.now) (Some e) (term_view body.now)) (listed (answer.Value d)))) }
    {
        match self.inside(term, part)? {
            Ok(value) => self.over_of(term, value, body, asking),
            Err(ending) => Ok(ending),
        }
    }

    /// What an over ends with whose part has this value.
    #[cycle(seeking)]
    fn over_of<'t>(
        &self,
        term: &'t Term,
        value: AnswerValue,
        body: &'t Term,
        asking: &mut Asking<'t>,
    ) -> Result<Option<Ending<'t>>, AllocError>
        ensures ends { (t q : Tree) → answer (known_of self.now) q ≡ Some (answer.Value value) → IsOf t term.now → t ≡ over q (term_view body.now)
            → IfOk result (MayEndWith (known_of self.now) t) }
        ensures loads { OnOk result (asking.new.loads ≡ asking.old.loads
            + copies_load (λ e. loads_at (known_of self.now) (Some e) (term_view body.now)) (listed (answer.Value value))) }
    {
        let whole = AnswerValue::row(value.to_json(self.alloc)?);
        match self.items(value)? {
            Err(fault) => Ok(Some(Err(Origin::own(self.alloc, term, fault, Met::Whole(whole))))),
            Ok(items) => {
                let endings = self.endings_over(body, items.as_slice(), asking)?;
                self.together(term, 1, None, endings)
            }
        }
    }

    /// What the copies of a body for these items end with, or `None` if one waits.
    #[cycle(seeking)]
    fn endings_over<'t>(
        &self,
        body: &'t Term,
        items: &[AnswerValue],
        asking: &mut Asking<'t>,
    ) -> Result<Option<Vec<Ending<'t>>>, AllocError>
        ensures endings { IfOk result (λ o. IfSome o (λ endings. AllZip (EndsWith (known_of self.now))
            (map (λ d. with_item d (term_view body.now)) items.now) endings.items)) }
        ensures waits { IfOk result (λ o. IfNone o
            (answers (known_of self.now) (trees_of (map (λ d. with_item d (term_view body.now)) items.now)) ≡ None)) }
        ensures loads { OnOk result (asking.new.loads ≡ asking.old.loads + copy_loads (λ e. loads_at (known_of self.now) (Some e) (term_view body.now)) (items_of items.now)) }
    {
        let mut endings = Some(Vec::with_capacity(self.alloc, items.len())?);
        for (place, item) in items.iter().enumerate() {
            asking.enter(place)?;
            endings = with_ending(endings, self.seek(body, Some(item), asking)?)?;
            asking.leave();
        }
        Ok(endings)
    }
}

//! Laws of what terms give, for every term and all outcomes. Each function does nothing: its contract is the law.

ghost use Rattle.dl_terms.specs.Laws.{GivesOnce, GivesForEver, GivesOrWaits, GivesByDepth, GivesByRules, GivesBySubstitution, NeedsEach, WaitsForUnknown, WaitsOnce, WantsFrontier};

/// A term gives at most one answer.
pub fn gives_once()
    ensures { GivesOnce }
{}

/// A term keeps its answer as more keys get their outcomes.
pub fn gives_for_ever()
    ensures { GivesForEver }
{}

/// A term gives an answer exactly if it waits for no key.
pub fn gives_or_waits()
    ensures { GivesOrWaits }
{}

/// After r rounds that each bring the outcomes of all keys that the term waits for, each of its parts of depth at most
/// r gives an answer.
pub fn gives_by_depth()
    ensures { GivesByDepth }
{}

/// The answer that the definitions compute is the one that the rules of a term's forms give.
pub fn gives_by_rules()
    ensures { GivesByRules }
{}

/// An `Over` gives, and waits for, what its part and then an `All` of copies of its body do. Each copy is the body with an
/// item in the place of `Item`, and is as deep and as high as the body.
pub fn gives_by_substitution()
    ensures { GivesBySubstitution }
{}

/// None of the keys that a term waits for has an outcome yet.
pub fn waits_for_unknown()
    ensures { WaitsForUnknown }
{}

/// A term needs each key that it waits for: it gives no answer as long as one of them has no outcome.
pub fn needs_each()
    ensures { NeedsEach }
{}

/// A term waits for each key once.
pub fn waits_once()
    ensures { WaitsOnce }
{}

/// A round that begins with no wanted keys leaves exactly the keys that the term waits for, in order.
pub fn wants_frontier()
    ensures { WantsFrontier }
{}

//! The forms that the terms of a document may have.

ghost use Rattle.std.specs.Prelude.{◌≡◌, IsTrue};
ghost use Rattle.dl_terms.specs.View.{term_view, terms_view};
ghost use Rattle.dl_documents.specs.Terms.{allows_item, allows_object, allows_over, has_forms, have_forms, in_body};

use dl_terms::Term;

/// How many bodies may be around a body.
const MOST_AROUND: u32 = 2;

/// The forms that a term may have.
#[derive(Clone, Copy)]
pub(crate) enum Forms {
    /// The six of versions 1 and 2.
    Six,
    /// The nine of version 3, in so many bodies.
    Nine { bodies: u32 },
}

impl Forms {
    /// The forms that the body of an `over` may have.
    fn in_body(self) -> Forms
        requires { IsTrue (allows_over self) }
        ensures { result ≡ in_body self }
    {
        match self {
            Forms::Six => Forms::Six,
            Forms::Nine { bodies } => Forms::Nine { bodies: bodies + 1 },
        }
    }

    /// Whether an `over` is one of them.
    fn allows_over(self) -> bool
        ensures { result ≡ allows_over self }
    {
        match self {
            Forms::Six => false,
            Forms::Nine { bodies } => bodies <= MOST_AROUND,
        }
    }

    /// Whether an item is one of them.
    fn allows_item(self) -> bool
        ensures { result ≡ allows_item self }
    {
        match self {
            Forms::Six => false,
            Forms::Nine { bodies } => 1 <= bodies,
        }
    }

    /// Whether an object is one of them.
    fn allows_object(self) -> bool
        ensures { result ≡ allows_object self }
    {
        matches!(self, Forms::Nine { .. })
    }
}

/// Whether the term has only these forms.
#[cycle(forming)]
pub(crate) fn has_forms(forms: Forms, term: &Term) -> bool
    ensures { result ≡ has_forms forms (term_view term.now) }
{
    match term {
        Term::Value(_) | Term::Load(_) => true,
        Term::Pick { part, .. } | Term::Follow { part, .. } | Term::Each { part, .. } => {
            has_forms(forms, part)
        }
        Term::All(parts) => have_forms(forms, parts),
        Term::Over { part, body } => {
            forms.allows_over() && has_forms(forms, part) && has_forms(forms.in_body(), body)
        }
        Term::Item => forms.allows_item(),
        Term::Object { parts, .. } => forms.allows_object() && have_forms(forms, parts),
    }
}

/// Whether each of the terms has only these forms.
#[cycle(forming)]
fn have_forms(forms: Forms, terms: &Vec<Term>) -> bool
    ensures { result ≡ have_forms forms (terms_view terms.now.items) }
{
    for term in terms {
        if !has_forms(forms, term) {
            return false;
        }
    }
    true
}

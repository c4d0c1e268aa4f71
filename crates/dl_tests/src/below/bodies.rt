//! What terms over lists answer if no document can have them: an item under no body, and an object with a name twice.

use crate::{answer_text, assert_is, json};
use dl_desk::Text;
use dl_terms::{Asked, Names, Term, explore, unexplored};
use std::alloc::Global;
use std::hash::RandomState;
use std::io::Eprint;
use std::process::Abort;

/// The term wants no key, and answers this.
fn assert_answers<R: Abort + Eprint>(
    rt: &R,
    alloc: Global,
    hashing: RandomState,
    term: Term,
    answer: &str,
) {
    let mut node = unexplored(alloc, term).expect(rt, "no node");
    let mut asked = Asked::new(alloc, hashing);
    explore(alloc, &mut node, &mut asked).expect(rt, "no memory");
    let given = node.take_answer().expect(rt, "no answer");
    let text = answer_text(alloc, &given).expect(rt, "no memory");
    assert_is!(rt, &text.as_str(), &answer, "the answer");
}

/// An object of two values, both with this name.
fn twice<R: Abort + Eprint>(rt: &R, alloc: Global, name: &str) -> Term {
    let first = Term::Value(json(alloc, "1").expect(rt, "no JSON"));
    let second = Term::Value(json(alloc, "2").expect(rt, "no JSON"));
    let parts = vec![in alloc; first, second].expect(rt, "no memory");
    let name = Text::new(alloc, name).expect(rt, "no memory");
    let again = name.try_copy().expect(rt, "no memory");
    let names = vec![in alloc; name, again].expect(rt, "no memory");
    let names = Names::new(alloc, names).expect(rt, "no memory");
    Term::Object { names, parts }
}

#[test]
fn an_item_under_no_body_is_a_fault(rt: HostRuntime) {
    let hashing = RandomState::new(&rt).expect(&rt, "no random numbers");
    assert_answers(&rt, rt.alloc(), hashing, Term::Item, "no item");
}

#[test]
fn of_two_members_with_one_name_the_first_counts(rt: HostRuntime) {
    let hashing = RandomState::new(&rt).expect(&rt, "no random numbers");
    let object = twice(&rt, rt.alloc(), "a");
    assert_answers(&rt, rt.alloc(), hashing, object, r#"{"a":1}"#);
}

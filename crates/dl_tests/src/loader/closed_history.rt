//! The history of a closed loader, as text.

use crate::made;
use crate::stage::Stage;
use dl_loader::{EntryKind, History, MOST_CALLERS};
use std::io::Eprint;
use std::process::Abort;

/// A history as text: a line for each event; and a line for each caller that has entries, with those and with the
/// places of its events.
pub(super) fn history_text<R: Abort + Eprint>(stage: &Stage<'_, R>, history: &History) -> String {
    let text = format!(in stage.alloc; "{history}");
    let mut text = text.expect(stage.rt, "no memory");
    for caller in 0..=MOST_CALLERS {
        write_caller(stage, &mut text, history, caller);
    }
    text
}

fn write_caller<R: Abort + Eprint>(
    stage: &Stage<'_, R>,
    text: &mut String,
    history: &History,
    caller: u32,
) {
    let rt = stage.rt;
    let places = made!(
        stage,
        "History::of_caller",
        Err(_),
        history.of_caller(stage.alloc, caller)
    );
    let places = places.expect(rt, "no memory");
    let entries = history.entries(caller);
    if entries.is_empty() {
        assert!(rt; places.is_empty());
        return;
    }
    write!(text, "caller {caller}:").expect(rt, "no memory");
    write_entries(rt, text, entries);
    writeln!(text, " of {:?}", places.as_slice()).expect(rt, "no memory");
}

/// Writes the place of each call, and for each outcome that the caller has read its cell and the place of its event.
pub(super) fn write_entries(rt: &impl Abort, text: &mut String, entries: &[EntryKind]) {
    for entry in entries {
        let written = match entry {
            EntryKind::Call { at } => write!(text, " {at}"),
            EntryKind::Saw { cell, at } => write!(text, " saw {cell} at {at}"),
        };
        written.expect(rt, "no memory");
    }
}

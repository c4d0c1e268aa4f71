//! A row from its opening to its last close.

ghost use Rattle.std.specs.Prelude.{◌≡◌};
ghost use Rattle.dl_loader.specs.Opening.{Names};

use super::closed_history::history_text;
use super::player::Scene;
use super::step::Part;
use crate::assert_is;
use crate::stage::Stage;
use dl_loader::{CloseFault, History, Loader, LoaderName, Opening, Pass};
use dl_source::Source;
use std::io::Eprint;
use std::process::Abort;
use std::sync::Wait;

/// Makes the calls and the closes of a row on the loader of an opening, which `L` names.
pub(super) fn play<L: LoaderName, S: Source, R: Abort + Eprint + Wait>(
    stage: &Stage<'_, R>,
    source: &S,
    opening: Opening<'_, S>,
    parts: &[Part],
)
    requires source { opening.source ≡ source.now }
    requires names { Names S.answer opening L.service L.parts L.cells L.name }
{
    let started = Loader::<L>::start(stage.alloc, opening);
    let (mut loader, mut passes) = started.expect(stage.rt, "no loader");
    for part in parts {
        let scene = Scene {
            rt: stage.rt,
            alloc: stage.alloc,
            refusal: stage.refusal,
            source,
            loader: &loader,
        };
        scene.play(passes.as_mut_slice(), part.steps);
        let Some(back) = close(stage, loader, passes, part) else {
            return;
        };
        (loader, passes) = back;
    }
}

/// What a close answers. If it runs out of memory by a refusal, it happens again.
fn closed<L: LoaderName, R: Abort + Eprint>(
    stage: &Stage<'_, R>,
    loader: Loader<L>,
    passes: Vec<Pass<L>>,
) -> Result<History, (CloseFault, Loader<L>, Vec<Pass<L>>)> {
    stage.refusal.begin();
    let first = loader.close(stage.alloc, passes);
    let is_out_of_memory = matches!(first, Err((CloseFault::OutOfMemory, _, _)));
    let is_again = stage
        .refusal
        .is_again(stage.rt, "Loader::close", is_out_of_memory);
    match first {
        Err((_, loader, passes)) if is_again => loader.close(stage.alloc, passes),
        first => first,
    }
}

/// Closes the loader as the part says. If that fails, you get the loader and the passes back.
fn close<L: LoaderName, R: Abort + Eprint>(
    stage: &Stage<'_, R>,
    loader: Loader<L>,
    mut passes: Vec<Pass<L>>,
    part: &Part,
) -> Option<(Loader<L>, Vec<Pass<L>>)> {
    let rt = stage.rt;
    let count = part.passes.min(passes.len());
    let kept = passes.split_off(count).expect(rt, "no memory");
    match closed(stage, loader, passes) {
        Ok(history) => {
            let text = history_text(stage, &history);
            assert!(rt; text.ends_with(part.close), "{text}");
            None
        }
        Err((fault, loader, mut passes)) => {
            let text = format!(in stage.alloc; "{fault:?}").expect(rt, "no memory");
            assert_is!(rt, &text.as_str(), &part.close, "close");
            assert_is!(rt, &passes.len(), &part.passes, "passes that come back");
            passes.extend(kept).expect(rt, "no memory");
            Some((loader, passes))
        }
    }
}

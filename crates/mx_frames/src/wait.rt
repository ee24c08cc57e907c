//! Runs that wait for a node.
ghost use Rattle.std.specs.Prelude.{◌≡◌, ◌<◌, ◌++◌, ◌∷◌, [], false, ◌+◌, ℕ, length, IfOk, OnOk, OnErr};
ghost use Rattle.mx_runs.specs.Runs.{Model as Models};
ghost use Rattle.mx_runs.specs.Inputs.{InputsEnd};
ghost use Rattle.mx_memo.specs.Memos.{Memory};
ghost use Rattle.mx_frames.specs.Flights.{AsksInOrder, IsPaused, IsPushed, IsSoundPaused, IsWithin, Waited, Work, first_of, frame_nodes, stretch_asking};

use crate::current::Current;
use crate::passing::Asked;
use crate::progress::Setting;
use crate::rings::{frames_from, nodes_of};
use crate::runs::{Frame, Runs};
use mx_value::node::SharedNode;
use mx_value::refusal::EvalRefusal;
use std::alloc::{AllocError, Global};

/// The run on top waits for a node that it asks and that is not known: a ring where that is in flight, too deep where the
/// chain would be longer than the limit. Where the node is to be run, its run is on top then.
pub fn wait(
    alloc: Global,
    setting: &Setting<'_>,
    current: Current,
    asked: Asked,
    runs: &mut Runs,
) -> Result<SharedNode, EvalRefusal>
    ensures waited { (model : Models) (q : Work) (m : Memory) (now : ℕ) → InputsEnd model →
        AsksInOrder model → IsWithin q setting.now.limit setting.now.below →
        IsSoundPaused m runs.old.frames.items (stretch_asking current asked) →
        IsPaused model q m runs.old.stack runs.old.frames.items
        (stretch_asking current asked) now →
        Waited model q m runs.new.stack runs.new.frames.items
        (first_of runs.old.frames.items current.node) now result }
    ensures node { IfOk result (λ n. n ≡ asked.node) }
    ensures begun { IfOk result (λ n. asked.is_begun ≡ false) }
    ensures frames { IfOk result
        (λ n. length runs.new.frames.items + setting.now.below < setting.now.limit) }
    ensures pushed { OnOk result (IsPushed current runs.old.frames.items runs.new.frames.items) }
{
    let Asked {
        node,
        waiting,
        is_begun,
    } = asked;
    let frame = Frame { current, waiting };
    push_frame(&mut runs.frames, frame)?;
    if is_begun {
        return Err(EvalRefusal::Ring(nodes_of(alloc, frames_from(&runs.frames, node.get()))?));
    }
    if setting.limit.saturating_sub(setting.below) <= runs.frames.len() {
        return Err(EvalRefusal::TooDeep(node.get().copy(alloc)?));
    }
    runs.stack.begin()?;
    Ok(node)
}

/// So many frames get room at once: each evaluation begins with none.
const FRAMES: usize = 64;

/// One frame more.
fn push_frame(frames: &mut Vec<Frame>, frame: Frame) -> Result<(), AllocError>
    ensures ok { OnOk result (frames.new.items ≡ frames.old.items ++ frame ∷ []) }
    ensures err { OnErr result (frames.new.items ≡ frames.old.items) }
{
    if frames.is_empty() {
        frames.reserve(FRAMES)?;
    }
    frames.push(frame)?;
    Ok(())
}

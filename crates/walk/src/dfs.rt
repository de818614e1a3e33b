ghost use Rattle.std.specs.Prelude.{◌≡◌, ◌<◌, ◌≤◌, true, false, ◌++◌, length, drop, replicate, Err};
ghost use Rattle.ir.specs.Entities.{not_live, too_short};
ghost use Rattle.flow.specs.Meaning.{live};
ghost use Rattle.walk.specs.Outcome.{Walked};
ghost use Rattle.walk.specs.declared.dfs.WalkError.TheVariants.{Refused};

use crate::marks::MARKS;
use crate::root::LiveRoot;
use crate::visitor::Visitor;
use flow::{FlowGraph, is_live};
use ir::{Cause, Refusal, Value};

/// Why a walk was not completed: it was refused, or its visitor stopped it.
#[derive(Clone, Copy, PartialEq, Eq, Debug, Drop)]
pub enum WalkError<S> {
    Refused(Refusal),
    Stopped(S),
}

impl<S> From<Refusal> for WalkError<S> {
    ghost from_gives = { λ refusal error. error ≡ Refused refusal };

    fn from(refusal: Refusal) -> WalkError<S> {
        WalkError::Refused(refusal)
    }
}

/// Shows `visitor` what `root` reaches, each value once and after what it uses, and answers the steps taken.
///
/// The caller lends at least 1,024 bytes for the marks, whatever they hold. The first 1,024 are zero at the return,
/// also where the visitor stopped the walk, and those behind stay as they were. A walk that is refused changes nothing.
pub fn post_order_dfs<G: FlowGraph, V: Visitor>(
    graph: &G,
    root: Value,
    marks: &mut [u8],
    visitor: &mut V,
) -> Result<u32, WalkError<V::Stop>>
    ensures missing { live (G.meaning graph.now) root.0 ≡ false → (result ≡ Err (Refused not_live)) × (marks.new ≡ marks.old) × (visitor.new ≡ visitor.old) }
    ensures short { live (G.meaning graph.now) root.0 ≡ true → length marks.old < 1024 → (result ≡ Err (Refused (too_short 1024))) × (marks.new ≡ marks.old) × (visitor.new ≡ visitor.old) }
    ensures walked { Walked (G.meaning graph.now) root.0 (length marks.old) (λ shown. V.fits visitor.old shown visitor.new) (λ shown. V.stops visitor.old shown visitor.new) result }
    ensures cleared { live (G.meaning graph.now) root.0 ≡ true → 1024 ≤ length marks.old → marks.new ≡ replicate 1024 0 ++ drop 1024 marks.old }
{
    if !is_live(graph, root) {
        return Err(Refusal::from(Cause::NotLive).into());
    }
    let too_short = Refusal {
        cause: Cause::TooShort,
        place: MARKS as u32,
    };
    let bytes = marks.first_chunk_mut().ok_or(too_short)?;
    let root = LiveRoot { graph, value: root };
    root.walk(bytes, visitor).map_err(WalkError::Stopped)
}

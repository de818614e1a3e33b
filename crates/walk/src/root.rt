ghost use Rattle.std.specs.Prelude.{◌≡◌, true};
ghost use Rattle.flow.specs.Meaning.{live};

use crate::marks::{MARKS, Marks};
use crate::stack::{Stack, StackEntry};
use crate::visitor::Visitor;
use flow::{FlowGraph, value_args};
use ir::Value;

/// A live value of a graph, from which a walk starts.
// Nothing compares or prints a root.
#[derive(Drop)]
pub(crate) struct LiveRoot<'a, G: FlowGraph> {
    pub(crate) graph: &'a G,
    pub(crate) value: Value,
    ghost alive: { live (G.meaning graph.now) value.0 ≡ true },
}

impl<G: FlowGraph> LiveRoot<'_, G> {
    ghost use Rattle.std.specs.Prelude.{◌+◌, ◌*◌, ◌<◌, ◌≤◌, ◌∷◌, ◌++◌, length, replicate};
    ghost use Rattle.arrayvec.specs.ArrayVec.{array_vec_len};
    ghost use Rattle.flow.specs.Meaning.{uses};
    ghost use Rattle.walk.specs.declared.stack.StackEntry.TheVariants.{Visit};
    ghost use Rattle.walk.specs.Going.{Walking, GoesOn};
    ghost use Rattle.walk.specs.Outcome.{Ended};
    ghost use Rattle.walk.specs.Stacked.{entries, traced};

    /// Pushes the visit of `v` and, on top of it, the operands of `v`, the first of them on top.
    fn expand<const CAP: usize>(&self, v: Value, stack: &mut Stack<CAP>)
        requires { array_vec_len stack.old + length (uses (G.meaning self.now.graph.now) v.0) < CAP }
        ensures { entries stack.new ≡ traced (uses (G.meaning self.now.graph.now) v.0) ++ (Visit v ∷ entries stack.old) }
    {
        stack.push(StackEntry::Visit(v));
        for arg in value_args(self.graph, v).iter().rev() {
            stack.push(StackEntry::Trace(arg));
        }
    }

    /// Shows `visitor` what the root reaches, each value once and after what it uses, and answers the steps taken.
    ///
    /// The bytes lent are zero at the return, also where the visitor stopped the walk.
    // A stack is cleared as it is made, which would take longer than most walks: so a walk begins with a small one.
    pub(crate) fn walk<V: Visitor>(
        &self,
        bytes: &mut [u8; MARKS],
        visitor: &mut V,
    ) -> Result<u32, V::Stop>
        ensures ended { Ended (G.meaning self.now.graph.now) self.now.value.0 (λ shown. V.fits visitor.old shown visitor.new) (λ shown. V.stops visitor.old shown visitor.new) result }
        ensures cleared { bytes.new ≡ replicate 1024 0 }
    {
        let mut marks = Marks::new(bytes);
        let mut stack = Stack::<256>::new();
        stack.push(StackEntry::Trace(self.value));
        match self.go_on(&mut marks, &mut stack, 0, visitor)? {
            Progress::Done(steps) => Ok(steps),
            Progress::Full(steps) => self.go_on_with_room(
                &mut marks,
                stack.as_slice(),
                steps,
                visitor,
            ),
        }
    }

    /// Goes on with entries over a stack that no walk fills.
    // No walk takes more steps than 1 + the values + 3 operands of each. It is kept out of line, so that a small walk has a small frame.
    #[inline(never)]
    fn go_on_with_room<V: Visitor>(
        &self,
        marks: &mut Marks,
        entries: &[StackEntry],
        steps: u32,
        visitor: &mut V,
    ) -> Result<u32, V::Stop>
        requires safe { Walking (G.meaning self.now.graph.now) self.now.value.0 marks.old.bytes.now entries.now steps (λ shown. Unit {0}) }
        ensures went { (a : V) → Walking (G.meaning self.now.graph.now) self.now.value.0 marks.old.bytes.now entries.now steps (λ shown. V.fits a shown visitor.old) → Ended (G.meaning self.now.graph.now) self.now.value.0 (λ shown. V.fits a shown visitor.new) (λ shown. V.stops a shown visitor.new) result }
        ensures same_reference { marks.new.bytes.ghost_name ≡ marks.old.bytes.ghost_name }
    {
        let mut stack = Stack::<4100>::new();
        let Ok(()) = stack.try_extend_from_slice(entries) else {
            unreachable!()
        };
        let Progress::Done(steps) = self.go_on(marks, &mut stack, steps, visitor)? else {
            unreachable!()
        };
        Ok(steps)
    }

    /// Goes on until nothing is left on the stack, or the stack may have no place for what one value more adds.
    fn go_on<V: Visitor, const CAP: usize>(
        &self,
        marks: &mut Marks,
        stack: &mut Stack<CAP>,
        steps: u32,
        visitor: &mut V,
    ) -> Result<Progress, V::Stop>
        requires safe { Walking (G.meaning self.now.graph.now) self.now.value.0 marks.old.bytes.now stack.old.items steps (λ shown. Unit {0}) }
        ensures went { (a : V) → Walking (G.meaning self.now.graph.now) self.now.value.0 marks.old.bytes.now stack.old.items steps (λ shown. V.fits a shown visitor.old) → GoesOn (G.meaning self.now.graph.now) self.now.value.0 CAP (λ shown. V.fits a shown visitor.new) (λ shown. V.stops a shown visitor.new) marks.new.bytes.now stack.new.items result }
        ensures safe { GoesOn (G.meaning self.now.graph.now) self.now.value.0 CAP (λ shown. Unit {0}) (λ shown stop. Unit {0}) marks.new.bytes.now stack.new.items result }
        ensures same_reference { marks.new.bytes.ghost_name ≡ marks.old.bytes.ghost_name }
    {
        let mut taken = steps;
        while stack.len() + 3 <= CAP {
            let Some(entry) = stack.pop() else {
                return Ok(Progress::Done(taken));
            };
            taken += 1;
            // The steps to come are data: closures on the stack would have to be allocated.
            match entry {
                StackEntry::Visit(v) => {
                    marks.mark(v);
                    visitor.show(v)?;
                }
                StackEntry::Trace(v) => {
                    if !marks.is_marked(v) {
                        self.expand(v, stack);
                    }
                }
            }
        }
        Ok(Progress::Full(taken))
    }
}

/// How far a walk came over its stack, and in how many steps.
#[derive(Clone, Copy, PartialEq, Eq, Debug)]
pub(crate) enum Progress {
    /// To its end.
    Done(u32),
    /// To a stack that may have no place for what one value more adds.
    Full(u32),
}

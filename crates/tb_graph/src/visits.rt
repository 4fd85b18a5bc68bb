ghost use Rattle.std.specs.Prelude.{◌≡◌, ℕ, ◌+◌, ◌<◌, ◌≤◌, List as Members, [], ◌∷◌, ◌++◌, length, drop, not, ◌==◌, IfOk, IfErr, OnOk, All};
ghost use Rattle.std.specs.List.{prefix_len};
ghost use Rattle.tb_graph.specs.Graphs.{AreNodes};
ghost use Rattle.tb_graph.specs.Visits.{Outcome, Cyclic, OfCycle};
ghost use Rattle.tb_graph.specs.Stacks.{Goes, GoesBy, IsSound, nodes_of, work, frame_work};

use crate::OrderFault;
use std::alloc::Global;
use tb_text::List;

/// How far the visit of a node is.
#[derive(Clone, Copy, Debug, PartialEq, Eq)]
pub enum Mark {
    Unseen,
    Visiting,
    Finished,
}

/// A node that is being visited, and the place of the reference that is met next.
#[derive(Clone, Copy, Debug)]
pub struct Frame {
    pub node: usize,
    pub next: usize,
}

/// A depth-first visit: the mark of each node, the nodes that are being visited, each from the one before it, and
/// those that are finished.
#[derive(Debug, Drop)]
pub struct Visit {
    pub marks: Vec<Mark>,
    pub frames: Vec<Frame>,
    pub finished: Vec<usize>,
}

impl Visit {
    /// The visit of this many nodes, before its first step.
    pub fn new(alloc: Global, count: usize) -> Result<Visit, OrderFault>
        ensures fresh { IfOk result (λ v. (v.frames.items ≡ []) × (v.finished.items ≡ [])) }
        ensures sound { (refs : Members (Members ℕ)) → length refs ≡ count → IfOk result (λ v. IsSound refs v.marks.items [] []) }
        ensures fault { IfErr result (λ e. e ≡ OrderFault.NoMemory) }
    {
        Ok(Visit {
            marks: vec![in alloc; Mark::Unseen; count]?,
            frames: Vec::new(alloc),
            finished: Vec::new(alloc),
        })
    }

    /// Visits a root, and all that is reached from it and not finished.
    pub fn visit(
        &mut self,
        alloc: Global,
        refs: &[List<usize>],
        root: usize,
    ) -> Result<(), OrderFault>
        requires sound { IsSound refs.now self.old.marks.items self.old.frames.items self.old.finished.items }
        requires start { self.old.frames.items ≡ [] }
        requires root { root < length refs.now }
        requires refs { All (AreNodes refs.now) refs.now }
        ensures sound { OnOk result (IsSound refs.now self.new.marks.items self.new.frames.items self.new.finished.items) }
        ensures end { OnOk result (self.new.frames.items ≡ []) }
        ensures goes { OnOk result ((rest : Members ℕ) (outcome : Outcome) → Goes refs.now rest [] self.new.finished.items outcome → GoesBy refs.now rest root [] self.old.finished.items outcome) }
        ensures cycle { IfErr result (OfCycle (λ cycle. (rest : Members ℕ) → GoesBy refs.now rest root [] self.old.finished.items (Cyclic cycle))) }
    {
        self.meet(alloc, refs, root)?;
        while let Some(frame) = self.frames.pop() {
            self.step(alloc, refs, frame)?;
        }
        Ok(())
    }

    /// Goes on at the innermost frame, which was taken off: meets its next reference, or finishes its node.
    fn step(&mut self, alloc: Global, refs: &[List<usize>], frame: Frame) -> Result<(), OrderFault>
        requires sound { IsSound refs.now self.old.marks.items (self.old.frames.items ++ frame ∷ []) self.old.finished.items }
        requires refs { All (AreNodes refs.now) refs.now }
        ensures sound { OnOk result (IsSound refs.now self.new.marks.items self.new.frames.items self.new.finished.items) }
        ensures less { OnOk result (work refs.now self.new.marks.items self.new.frames.items < work refs.now self.old.marks.items (self.old.frames.items ++ frame ∷ [])) }
        ensures goes { OnOk result ((rest : Members ℕ) (outcome : Outcome) → Goes refs.now rest self.new.frames.items self.new.finished.items outcome → Goes refs.now rest (self.old.frames.items ++ frame ∷ []) self.old.finished.items outcome) }
        ensures cycle { IfErr result (OfCycle (λ cycle. (rest : Members ℕ) → Goes refs.now rest (self.old.frames.items ++ frame ∷ []) self.old.finished.items (Cyclic cycle))) }
    {
        let Frame { node, next } = frame;
        let references = refs[node].as_slice();
        if next < references.len() {
            self.frames.push(Frame {
                node,
                next: next + 1,
            })?;
            self.meet(alloc, refs, references[next])
        } else {
            self.marks[node] = Mark::Finished;
            self.finished.push(node)?;
            Ok(())
        }
    }

    /// Passes over a finished node, begins the visit of an unseen one, and fails at one that is being visited.
    fn meet(&mut self, alloc: Global, refs: &[List<usize>], node: usize) -> Result<(), OrderFault>
        requires sound { IsSound refs.now self.old.marks.items self.old.frames.items self.old.finished.items }
        requires node { node < length refs.now }
        ensures sound { OnOk result (IsSound refs.now self.new.marks.items self.new.frames.items self.new.finished.items) }
        ensures less { OnOk result (work refs.now self.new.marks.items self.new.frames.items ≤ work refs.now self.old.marks.items self.old.frames.items) }
        ensures goes { OnOk result ((rest : Members ℕ) (outcome : Outcome) → Goes refs.now rest self.new.frames.items self.new.finished.items outcome → GoesBy refs.now rest node self.old.frames.items self.old.finished.items outcome) }
        ensures cycle { IfErr result (OfCycle (λ cycle. (rest : Members ℕ) → GoesBy refs.now rest node self.old.frames.items self.old.finished.items (Cyclic cycle))) }
    {
        match self.marks[node] {
            Mark::Finished => Ok(()),
            Mark::Visiting => Err(OrderFault::Cycle(cycle_at(alloc, &self.frames, node)?)),
            Mark::Unseen => {
                self.frames.push(Frame { node, next: 0 })?;
                self.marks[node] = Mark::Visiting;
                Ok(())
            }
        }
    }

    pub fn into_finished(self) -> Vec<usize>
        ensures { result.items ≡ self.finished.items }
    {
        let Visit { finished, .. } = self;
        finished
    }
}

/// The nodes that are being visited, from this one on.
fn cycle_at(alloc: Global, frames: &[Frame], node: usize) -> Result<List<usize>, OrderFault>
    ensures cycle { IfOk result (λ cycle. cycle ≡ nodes_of (drop (prefix_len (λ frame. not (frame.node == node)) frames.now) frames.now)) }
    ensures fault { IfErr result (λ e. e ≡ OrderFault.NoMemory) }
{
    let nodes = frames
        .iter()
        .skip_while(|frame| frame.node != node)
        .map(|frame| frame.node)
        .collect(alloc)?;
    Ok(List::from_vec(nodes))
}

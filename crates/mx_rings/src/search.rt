//! A search for a ring of a graph, in depth: it goes on from the last vertex of a way to a successor that was not seen yet,
//! and leaves a vertex whose successors are all done. Each successor is looked at twice at most.
ghost use Rattle.std.specs.Prelude.{◌≡◌, ◌<◌, ◌^◌, ◌+◌, ◌∷◌, [], ◌++◌, length, slice_get, slice_index_or, IfOk, IfSome, MatchOption, Some, List as Many};
ghost use Rattle.mx_c3.specs.declared.space.SpaceId.{SpaceId};
ghost use Rattle.mx_c3.specs.Lists.{Has};
ghost use Rattle.mx_c3.specs.Linearisation.{bases_of};
ghost use Rattle.mx_rings.specs.declared.search.Stage.TheVariants.{OnWay, Done};
ghost use Rattle.mx_rings.specs.Graph.{IsRing, HasNoRing, IsClosed};
ghost use Rattle.mx_rings.specs.Search.{IsSearch, EndsWith, Moves, Passes, IsStep, IsVisit, IsFrom, stage_of};

use mx_c3::lists::{BaseLists, Order};
use mx_c3::space::SpaceId;
use std::alloc::{AllocError, Global};

/// How far a vertex is.
#[derive(Clone, Copy)]
enum Stage {
    /// Not reached yet.
    Unseen,
    /// On the way that is being followed.
    OnWay,
    /// Left, and on no ring.
    Done,
}

/// What a step of a search came to.
#[derive(Clone, Copy)]
enum Turn {
    /// The search goes on.
    Further,
    /// The last vertex of the way leads back to this one.
    Back(SpaceId),
    /// The way has no vertex any more.
    End,
}

/// A search that goes on.
#[derive(Drop)]
struct Search {
    /// How far each vertex is.
    stages: Vec<Stage>,
    /// How many successors of each vertex were passed, the first ones, all of them done.
    passed: Vec<usize>,
    /// The way that is being followed.
    way: Vec<SpaceId>,
}

impl Search {
    /// A search that has seen nothing yet.
    fn new(alloc: Global, graph: &BaseLists) -> Result<Search, AllocError>
        ensures search { IfOk result (λ s. IsSearch graph.now s) }
        ensures empty { IfOk result (λ s. s.way.items ≡ []) }
    {
        let mut stages = Vec::new(alloc);
        let mut passed = Vec::new(alloc);
        for _ in 0..graph.len() {
            stages.push(Stage::Unseen)?;
            passed.push(0)?;
        }
        Ok(Search {
            stages,
            passed,
            way: Vec::new(alloc),
        })
    }

    /// The last vertex of the way.
    fn last(&self) -> Option<SpaceId>
        ensures { MatchOption result (self.now.way.items ≡ []) (EndsWith self.now.way.items) }
    {
        match self.way.last() {
            Some(last) => Some(*last),
            None => None,
        }
    }

    /// How far a vertex is.
    fn stage(&self, x: SpaceId) -> Stage
        requires { x.0 < length self.now.stages.items }
        ensures { stage_of self.now x ≡ Some result }
    {
        self.stages[x.0 as usize]
    }

    /// Goes on to a vertex.
    fn enter(&mut self, x: SpaceId) -> Result<(), AllocError>
        requires { x.0 < length self.old.stages.items }
        ensures { let way = self.old.way.items ++ x ∷ [] in
            IfOk result (λ _. Moves x OnWay way self.old self.new) }
    {
        self.way.push(x)?;
        self.stages[x.0 as usize] = Stage::OnWay;
        Ok(())
    }

    /// Leaves the last vertex of the way.
    fn leave(&mut self, x: SpaceId)
        requires { x.0 < length self.old.stages.items }
        ensures { (front : Many SpaceId) → self.old.way.items ≡ front ++ x ∷ [] →
            Moves x Done front self.old self.new }
    {
        let _ = self.way.pop();
        self.stages[x.0 as usize] = Stage::Done;
    }

    /// Goes past one more successor of a vertex.
    fn pass(&mut self, x: SpaceId)
        requires within { x.0 < length self.old.passed.items }
        requires fits { slice_index_or self.old.passed.items x.0 0 + 1 < 2 ^ 64 }
        ensures { Passes x self.old self.new }
    {
        self.passed[x.0 as usize] += 1;
    }

    /// The first successor of a vertex that was not passed.
    fn next(&self, graph: &BaseLists, x: SpaceId) -> Option<SpaceId>
        requires graph { x.0 < length graph.now }
        requires passed { x.0 < length self.now.passed.items }
        ensures next { let place = slice_index_or self.now.passed.items x.0 0 in
            result ≡ slice_get (bases_of graph.now x) place }
        ensures fits { let place = slice_index_or self.now.passed.items x.0 0 in
            IfSome result (λ _. place + 1 < 2 ^ 64) }
    {
        let place = self.passed[x.0 as usize];
        let successors = graph.bases(x).as_slice();
        if place < successors.len() {
            return Some(successors[place]);
        }
        return None;
    }

    /// One step from the last vertex of the way.
    fn turn(&mut self, graph: &BaseLists) -> Result<Turn, AllocError>
        requires closed { IsClosed graph.now }
        requires search { IsSearch graph.now self.old }
        ensures { IfOk result (IsStep graph.now self.old self.new) }
    {
        let Some(last) = self.last() else {
            return Ok(Turn::End);
        };
        match self.next(graph, last) {
            Some(next) => return self.look(graph, last, next),
            None => {
                self.leave(last);
                return Ok(Turn::Further);
            }
        }
    }

    /// One step from the last vertex of the way to its first successor that was not passed.
    fn look(&mut self, graph: &BaseLists, last: SpaceId, next: SpaceId) -> Result<Turn, AllocError>
        requires closed { IsClosed graph.now }
        requires search { IsSearch graph.now self.old }
        requires last { EndsWith self.old.way.items last }
        requires next { let place = slice_index_or self.old.passed.items last.0 0 in
            slice_get (bases_of graph.now last) place ≡ Some next }
        requires fits { slice_index_or self.old.passed.items last.0 0 + 1 < 2 ^ 64 }
        ensures { IfOk result (IsStep graph.now self.old self.new) }
    {
        match self.stage(next) {
            Stage::Unseen => {
                self.enter(next)?;
                return Ok(Turn::Further);
            }
            Stage::OnWay => return Ok(Turn::Back(next)),
            Stage::Done => {
                self.pass(last);
                return Ok(Turn::Further);
            }
        }
    }

    /// Follows all ways from a vertex, up to one that leads back.
    fn visit(&mut self, graph: &BaseLists, x: SpaceId) -> Result<Option<SpaceId>, AllocError>
        requires closed { IsClosed graph.now }
        requires search { IsSearch graph.now self.old }
        requires empty { self.old.way.items ≡ [] }
        requires within { x.0 < length graph.now }
        ensures { IfOk result (IsVisit graph.now x self.old self.new) }
    {
        match self.stage(x) {
            Stage::Unseen => {}
            Stage::OnWay | Stage::Done => return Ok(None),
        }
        self.enter(x)?;
        'turns: for _ in 0..u64::MAX {
            match self.turn(graph)? {
                Turn::Further => {}
                Turn::Back(to) => return Ok(Some(to)),
                Turn::End => return Ok(None),
            }
        }
        return Err(AllocError);
    }

    /// The way from a vertex on.
    fn from(&self, alloc: Global, x: SpaceId) -> Result<Order, AllocError>
        requires { Has self.now.way.items x }
        ensures { IfOk result (IsFrom self.now.way.items x) }
    {
        for place in 0..self.way.len() {
            if self.way[place] == x {
                return copied(alloc, &self.way[place..]);
            }
        }
        unreachable!()
    }
}

/// The same vertices.
fn copied(alloc: Global, vertices: &[SpaceId]) -> Result<Order, AllocError>
    ensures { IfOk result (λ it. it ≡ vertices.now) }
{
    Order::from_vec(alloc, vertices.to_vec(alloc)?)
}

/// A ring of a graph, which has the successors of each vertex by its place. None where it has no ring.
pub fn ring_in(alloc: Global, graph: &BaseLists) -> Result<Option<Order>, AllocError>
    requires closed { IsClosed graph.now }
    requires few { length graph.now < 2 ^ 32 }
    ensures { IfOk result (λ found. MatchOption found (HasNoRing graph.now) (IsRing graph.now)) }
{
    let mut search = Search::new(alloc, graph)?;
    for place in 0..graph.len() {
        match search.visit(graph, SpaceId(place as u32))? {
            Some(x) => return Ok(Some(search.from(alloc, x)?)),
            None => {}
        }
    }
    return Ok(None);
}

//! What holds of shortest ways.
ghost use Rattle.std.specs.Prelude.{◌≡◌, List, Option};
ghost use Rattle.dia_breaking_ways.specs.declared.graph.Step.{Step as AnyStep};
ghost use Rattle.dia_breaking_ways.specs.declared.graph.Reach.{Reach as AnyReach};
ghost use Rattle.dia_breaking_ways.specs.Walks.{Graph, IsWalk};

/// A graph determines the steps and the shortest ways.
pub fn walks_are_one()
    ensures { (graph : Graph) (steps others : List AnyStep) (reached ways : List (Option AnyReach))
        → IsWalk graph steps reached → IsWalk graph others ways
        → (steps ≡ others) × (reached ≡ ways) }
{}

//! An example that was worked out by hand, which the definition of drains must meet.
ghost use Rattle.worked_examples.specs.First.{first_case};
ghost use Rattle.worked_examples.specs.Drained.{drained_history};
ghost use Rattle.world.specs.drains.Drains.{IsDrained};

/// The example with claims, acknowledgements and a purge is the drain of its case.
pub fn drained_example_is_drained()
    ensures drained { IsDrained first_case 0 drained_history }
{}

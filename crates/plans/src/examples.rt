//! Examples that were worked out by hand, which the definition of plans of threads must meet.
ghost use Rattle.std.specs.Prelude.{◌≡◌, [], Ok, codes};
ghost use Rattle.plans.specs.PlanExamples.{full_actions, full_plan, refused_at, said_by, said_in, uneven_actions, uneven_plan};

/// What plans say for four workers and twelve rounds over the first example's case, and the lines for which
/// others are refused.
pub fn plan_examples()
    ensures full { said_by full_plan ≡ full_actions }
    ensures uneven { said_by uneven_plan ≡ uneven_actions }

    // The first line that is no action is named.
    ensures no_interval { said_by (codes "at 6 move 2 0") ≡ refused_at 1 }
    ensures no_worker { said_by (codes "at 4 crash 3\n#\nat 4 crash 4\n") ≡ refused_at 3 }
    ensures no_round { said_by (codes "at 11 hold 0\nat 12 hold 0\n") ≡ refused_at 2 }
    ensures no_at { said_by (codes "crash 1") ≡ refused_at 1 }
    ensures no_interval_named { said_by (codes "at 6 move 0") ≡ refused_at 1 }
    ensures two_spaces { said_by (codes "at 4  crash 2") ≡ refused_at 1 }
    ensures one_more { said_by (codes "at 4 crash 2 1") ≡ refused_at 1 }

    // In no round nothing happens, so that only lines that are skipped may stand there.
    ensures no_rounds { said_in 0 (codes "# none\n\n") ≡ Ok [] }
    ensures some_line { said_in 0 (codes "# none\nat 0 crash 0\n") ≡ refused_at 2 }
{}

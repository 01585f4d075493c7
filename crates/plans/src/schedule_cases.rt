//! Examples that were worked out by hand, which the definition of schedules must meet.
ghost use Rattle.std.specs.Prelude.{◌≡◌, codes};
ghost use Rattle.plans.specs.ScheduleExamples.{said_by, refused_at, uneven_schedule, uneven_steps, full_schedule, full_steps};

/// What schedules of the first example's case say, and the lines for which others are refused.
pub fn schedule_examples()
    ensures uneven { said_by uneven_schedule ≡ uneven_steps }
    ensures full { said_by full_schedule ≡ full_steps }

    // The first line that is no step is named.
    ensures no_interval { said_by (codes "claim 0 2\ncrash 99\n") ≡ refused_at 1 }
    ensures eleven_digits { said_by (codes "#\ncrash 00000000003\n") ≡ refused_at 2 }
    ensures two_spaces { said_by (codes "claim  0 1") ≡ refused_at 1 }
    ensures two_returns { said_by (codes "crash 3\r\r\n") ≡ refused_at 1 }
    ensures fire_on_injector { said_by (codes "fire 0 0") ≡ refused_at 1 }
    ensures no_worker { said_by (codes "crash 15\n\ncrash 16") ≡ refused_at 3 }
    ensures no_message { said_by (codes "lose 4294967296\n") ≡ refused_at 1 }
    ensures no_relay { said_by (codes "relay 0 0\nrelay 1 0\n") ≡ refused_at 2 }
    ensures no_relay_forgets { said_by (codes "forget 1\n") ≡ refused_at 1 }
{}

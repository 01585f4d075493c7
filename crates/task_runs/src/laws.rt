//! What each text collects to that was written while its run went on.
ghost use Rattle.std.specs.Prelude.{◌≡◌, ℕ, List};
ghost use Rattle.mw_types.specs.declared.entry.Entry.{Entry};
ghost use Rattle.topology.specs.Shapes.{Shape};
ghost use Rattle.live_outlet.specs.Collecting.{IsCollected, WhyNot};
ghost use Rattle.live_outlet.specs.Covering.{results_of};
ghost use Rattle.live_outlet.specs.declared.refusal.CollectRefusal.{CollectRefusal};
ghost use Rattle.live_outlet.specs.declared.refusal.CollectRefusal.TheVariants.{NoMemory};
ghost use Rattle.task_runs.specs.Lives.{IsLiveText};

/// The whole text of a run whose results were written at once collects to these results, each once and in
/// the order of their ids. No line of it differs from another of its id, and the one line that is no
/// result is the summary line.
pub fn live_texts_collect_once()
    ensures agree { (shape : Shape) (history : List Entry) (text : List ℕ) (why : CollectRefusal) →
        IsLiveText shape history text → WhyNot text why → why ≡ NoMemory }
    ensures once { (shape : Shape) (history : List Entry) (text : List ℕ)
        (texts : List (List ℕ)) (others : ℕ) →
        IsLiveText shape history text → IsCollected text texts others →
        (texts ≡ results_of shape history) × (others ≡ 1) }
{}

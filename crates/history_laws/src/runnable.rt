//! What a case of the program is.
ghost use Rattle.run_history.specs.Inputs.{IsRunnable};

use run_history::Case;

/// The topology of a case keeps its rules, and so does what each injector injects. A caller that is
/// to use the laws calls this once, and then knows it of the case.
pub fn case_is_runnable(case: &Case)
    ensures runnable { IsRunnable case.now }
{
    let _parts = case.topology.parts();
    for items in case.items.as_slice() {
        let _lines = items.count();
    }
}

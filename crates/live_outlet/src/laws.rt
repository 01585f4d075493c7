//! Which lines are read as live lines, and which histories an outlet goes on with.
ghost use Rattle.std.specs.Prelude.{◌≡◌, ◌≤◌, ◌++◌, ℕ, List, [], length, take, Contains, Some};
ghost use Rattle.std.specs.List.{AllByRecursion};
ghost use Rattle.mw_types.specs.declared.entry.Entry.{Entry};
ghost use Rattle.mw_types.specs.declared.identity.RecordId.{RecordId as Id};
ghost use Rattle.live_outlet.specs.LiveLines.{LiveLine as Line, live_text, IsLive};
ghost use Rattle.topology.specs.Shapes.{Shape};
ghost use Rattle.live_outlet.specs.Collecting.{told_id, IsCollected, WhyNot};
ghost use Rattle.live_outlet.specs.declared.refusal.CollectRefusal.{CollectRefusal};
ghost use Rattle.live_outlet.specs.declared.refusal.CollectRefusal.TheVariants.{NoMemory};
ghost use Rattle.live_outlet.specs.Outlets.{OutletView, IsPumpedFrom};
ghost use Rattle.live_outlet.specs.Covering.{OutletStep, OneSink, IsFresh, AreDone, Covers, furthest, results_of};

/// Each live line is read as one, under its id, and what is read as one is one.
pub fn exactly_live_lines_are_told()
    ensures each { (line : Line) → IsLive line → told_id (live_text line) ≡ Some line.id }
    ensures only { (text : List ℕ) (id : Id) → told_id text ≡ Some id →
        (line : Line) × IsLive line × (line.id ≡ id) × (live_text line ≡ text) }
{}

/// An outlet that was pumped from a history can be pumped from each that extends it.
pub fn outlets_go_on_as_histories_grow()
    ensures grown { (shape : Shape) (history : List Entry) (more : List Entry) (o : OutletView) →
        IsPumpedFrom shape o history → IsPumpedFrom shape o (history ++ more) }
{}

/// A live line's text begins no other one's, so what is left of a line that was cut off is no live
/// line.
pub fn no_live_line_begins_another()
    ensures { (one other : Line) (more : List ℕ) → IsLive one → IsLive other →
        live_text one ++ more ≡ live_text other → more ≡ [] }
{}

/// Whatever outlets write into one sink, pumped from beginnings of one history in any order, stopped
/// by faults and taken back, what they add to the text that it had is made of live lines of that
/// history's run, of which some were cut off, and has those of each beginning that a pump came to the
/// end of. An outlet is pumped only where no other one owes an LF.
pub fn texts_cover_what_was_pumped()
    ensures { (shape : Shape) (history : List Entry) (steps : List OutletStep)
        (first last : OneSink) (before text : List ℕ) →
        IsFresh before first → AreDone shape history steps first last →
        last.text ≡ Some (before ++ text) → Covers shape history (furthest steps) text }
{}

/// A text that covers so many first entries of a history collects to each of their results, and to
/// nothing but results of the history, each once; where it covers all of them, to all results, in the
/// order of their ids. No live line of it differs from another of its id.
pub fn covering_texts_collect_once()
    ensures agree { (shape : Shape) (history : List Entry) (place : ℕ) (text : List ℕ)
        (why : CollectRefusal) →
        Covers shape history place text → WhyNot text why → why ≡ NoMemory }
    ensures each { (shape : Shape) (history : List Entry) (place : ℕ) (text : List ℕ)
        (texts : List (List ℕ)) (others : ℕ) →
        Covers shape history place text → IsCollected text texts others →
        AllByRecursion (Contains texts) (results_of shape (take place history)) }
    ensures only { (shape : Shape) (history : List Entry) (place : ℕ) (text : List ℕ)
        (texts : List (List ℕ)) (others : ℕ) →
        Covers shape history place text → IsCollected text texts others →
        AllByRecursion (Contains (results_of shape history)) texts }
    ensures once { (shape : Shape) (history : List Entry) (place : ℕ) (text : List ℕ)
        (texts : List (List ℕ)) (others : ℕ) →
        Covers shape history place text → length history ≤ place →
        IsCollected text texts others → texts ≡ results_of shape history }
{}

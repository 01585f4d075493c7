//! The text of a finished run, of the shards of a case, and of a case without its weak computations.
ghost use Rattle.std.specs.Prelude.{ℕ, ◌<◌, List, ◌≡◌, length, sum_by};
ghost use Rattle.std.specs.List.{flat_map, range_with_len};
ghost use Rattle.std.specs.List.Sorted.{IsPermutation};
ghost use Rattle.mw_types.specs.declared.entry.Entry.{Entry};
ghost use Rattle.mw_types.specs.declared.kind.Kind.{Kind};
ghost use Rattle.topology.specs.declared.subscription.By.TheVariants.{Head, Tail};
ghost use Rattle.topology.specs.Shapes.{Shape, extracted};
ghost use Rattle.topology.specs.Rules.{IsTopology};
ghost use Rattle.run_history.specs.Cases.{CaseShape};
ghost use Rattle.run_history.specs.Inputs.{IsRunnable};
ghost use Rattle.run_history.specs.Texts.{IsResultText};
ghost use Rattle.plain_answer.specs.Ends.{IsFinishedRun};
ghost use Rattle.plain_answer.specs.Plain.{Keyed, plain_of, fires_of, fired_of, handled_of, injected_count, late_count, plain_lines, IsPlainText};
ghost use Rattle.plain_answer.specs.Splits.{Split, reads_in, FollowsReadings, IsUnread, behind_last, AreShards, IsMergedText};
ghost use Rattle.plain_answer.specs.Passes.{with_passes, without_weak, HasLinesOf};

/// The result text of a run that is at its end is the plain count of its files, whatever the order
/// of its entries was, and whoever wrote them.
pub fn results_are_the_plain_count()
    ensures plain { (case : CaseShape) (history : List Entry) (text : List ℕ) →
        IsRunnable case → IsFinishedRun case history →
        IsResultText case.topology history text → IsPlainText case text }
{}

/// A case has one plain text, so that whatever meets the definition is the same text.
pub fn a_case_has_one_plain_text()
    ensures one { (case : CaseShape) (one other : List ℕ) →
        IsPlainText case one → IsPlainText case other → one ≡ other }
{}

/// The result text is of the files alone: two runs of one case that are at their ends write the
/// same.
pub fn finished_runs_write_one_text()
    ensures same { (case : CaseShape) (one other : List Entry) (text again : List ℕ) →
        IsRunnable case → IsFinishedRun case one → IsFinishedRun case other →
        IsResultText case.topology one text → IsResultText case.topology other again →
        text ≡ again }
{}

/// What a part of any kind gives of all that it reads is what it gives of shards, where each row's
/// members are in one shard, and so are its two numbers. Members that are late are among them.
pub fn plain_counts_split_by_key()
    ensures given { (kind : Kind) (split : Split) (shards : ℕ) (reads : List Keyed) →
        ((key : List ℕ) → split key < shards) → IsPermutation (plain_of kind reads)
        (flat_map (λ shard. plain_of kind (reads_in split shard reads)) (range_with_len 0 shards)) }
    ensures fired { (kind : Kind) (split : Split) (shards : ℕ) (reads : List Keyed) →
        ((key : List ℕ) → split key < shards) → fires_of kind reads
        ≡ sum_by (λ shard. fires_of kind (reads_in split shard reads)) (range_with_len 0 shards) }
    ensures handled { (split : Split) (shards : ℕ) (reads : List Keyed) →
        ((key : List ℕ) → split key < shards) → length reads
        ≡ sum_by (λ shard. length (reads_in split shard reads)) (range_with_len 0 shards) }
{}

/// A whole topology splits at its injectors, by what is the same of a key and of all that its
/// readings extract of it: the plain texts of the shards, merged, are the plain text.
pub fn plain_texts_split()
    ensures lines { (case : CaseShape) (split : Split) (shards : List CaseShape) →
        AreShards case split shards →
        IsPermutation (plain_lines case) (flat_map plain_lines shards) }
    ensures fired { (case : CaseShape) (split : Split) (shards : List CaseShape) →
        AreShards case split shards → fired_of case ≡ sum_by fired_of shards }
    ensures handled { (case : CaseShape) (split : Split) (shards : List CaseShape) →
        AreShards case split shards → handled_of case ≡ sum_by handled_of shards }
    ensures injected { (case : CaseShape) (split : Split) (shards : List CaseShape) →
        AreShards case split shards → injected_count case ≡ sum_by injected_count shards }
    ensures late { (case : CaseShape) (split : Split) (shards : List CaseShape) →
        AreShards case split shards → late_count case ≡ sum_by late_count shards }
    ensures text { (case : CaseShape) (split : Split) (shards : List CaseShape) (text : List ℕ) →
        AreShards case split shards → IsMergedText shards text → IsPlainText case text }
{}

/// By which part of a key a topology splits: by any where readings are by the whole key, by the
/// head where none is by the tail, and by what stands behind the last slash where none is by the
/// head; the tail itself won't do, since its own tail is another.
pub fn cuts_follow_readings()
    ensures key { (shape : Shape) (split : Split) →
        IsUnread shape Head → IsUnread shape Tail → FollowsReadings shape split }
    ensures head { (shape : Shape) (split : Split) →
        IsUnread shape Tail → FollowsReadings shape (λ key. split (extracted Head key)) }
    ensures last { (shape : Shape) (split : Split) →
        IsUnread shape Head → FollowsReadings shape (λ key. split (behind_last key)) }
{}

/// A weak computation leaves no mark on the plain text but in its summary: without the weak ones a
/// case has the lines that it has where plain passes stand in their place. The two summaries differ,
/// since what a plain pass handles is counted. For any topology that a file may state.
pub fn weak_passes_are_seen_through()
    ensures lines { (case : CaseShape) → IsTopology case.topology →
        IsPermutation (plain_lines (with_passes case)) (plain_lines (without_weak case)) }
    ensures text { (case : CaseShape) (text : List ℕ) → IsTopology case.topology →
        IsPlainText (without_weak case) text → HasLinesOf (with_passes case) text }
{}

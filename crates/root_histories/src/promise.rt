//! The history that a run which was cut short was about to write.
ghost use Rattle.std.specs.Prelude.{◌≡◌, true, map as list_map, IfErr, IfOk};
ghost use Rattle.root_access.specs.declared.failure.Failure.TheVariants as failures;
ghost use Rattle.root_histories.specs.Promises.{added_runs, adds_others_alone, seen_of, BeginsWith, GoesOn};

use kept_runs::Kept;
use kept_texts::Run;
use root_access::Failure;

/// The history on the disk, and the one that a run was about to write.
#[derive(Drop)]
pub(crate) struct Promise {
    pub old: Kept,
    pub new: Kept,
}

/// Whether two runs are the same: of the same moment and user, with as many calls, and the same
/// tree after them.
fn is_same_run(one: &Run, other: &Run) -> bool
    ensures yes { result ≡ true → seen_of one.now ≡ seen_of other.now }
    ensures no { seen_of one.now ≡ seen_of other.now → result ≡ true }
{
    let (words, others) = (&one.words, &other.words);
    one.calls == other.calls
        && one.tree == other.tree
        && words.outside == others.outside
        && words.time.text() == others.time.text()
        && words.login.text() == others.login.text()
}

/// Whether these are the same runs, in the same order.
fn are_same_runs(runs: &[Run], others: &[Run]) -> bool
    ensures yes { result ≡ true → list_map seen_of runs.now ≡ list_map seen_of others.now }
    ensures no { list_map seen_of runs.now ≡ list_map seen_of others.now → result ≡ true }
{
    if runs.len() != others.len() {
        return false;
    }
    for (i, run) in runs.iter().enumerate() {
        if !is_same_run(run, &others[i]) {
            return false;
        }
    }
    true
}

/// Whether the first of the new runs are the old ones.
fn begins_with(new: &[Run], old: &[Run]) -> bool
    ensures yes { result ≡ true → BeginsWith new.now old.now }
    ensures no { BeginsWith new.now old.now → result ≡ true }
{
    match new.get(..old.len()) {
        Some(first) => are_same_runs(first, old),
        None => false,
    }
}

/// Whether one history goes on where another one ends, as that of a run always does: it has the
/// same runs first. (Its text may have another path of the root, if that was moved.)
fn goes_on(old: &Kept, new: &Kept) -> bool
    ensures yes { result ≡ true → GoesOn old.now.text.parts new.now.text.parts }
    ensures no { GoesOn old.now.text.parts new.now.text.parts → result ≡ true }
{
    let (old, new) = (old.text(), new.text());
    new.header().id == old.header().id && begins_with(new.runs(), old.runs())
}

/// The promise of a run that goes on where the history ends.
///
/// Error: `OtherPromise` if it doesn't.
pub(crate) fn promise_of(old: Kept, new: Kept) -> Result<Promise, Failure>
    ensures ok { IfOk result (λ promise. (promise ≡ record { old = old; new = new }) × GoesOn old.text.parts new.text.parts) }
    ensures err { IfErr result (λ failure. (failure ≡ failures.OtherPromise) × (GoesOn old.text.parts new.text.parts → ⊥)) }
{
    if goes_on(&old, &new) {
        Ok(Promise { old, new })
    } else {
        Err(Failure::OtherPromise)
    }
}

/// The runs that the new history has after those of the old one.
fn added_runs(promise: &Promise) -> &[Run]
    ensures { result.now ≡ added_runs promise.now.old.text.parts promise.now.new.text.parts }
{
    let before = promise.old.text().runs().len();
    let runs = promise.new.text().runs();
    match runs.get(before..) {
        Some(added) => added,
        None => &[],
    }
}

/// Whether a run was cut short before its calls, when it wrote what others had done, or the history
/// for this root. Such a run has no steps: the root already was as the new history says.
pub(crate) fn is_before_calls(promise: &Promise) -> bool
    ensures { result ≡ adds_others_alone promise.now.old.text.parts promise.now.new.text.parts }
{
    added_runs(promise).iter().all(|run| run.words.outside)
}

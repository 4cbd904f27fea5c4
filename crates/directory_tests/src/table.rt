// A table of calls, and the run of a directory along it.
use directories::Directory;
use keys::Key;

/// One call with the answer that is expected of it.
#[derive(Clone, Copy)]
pub(crate) enum Step<K> {
    Size(usize),
    Empty(usize),
    Admits(K, bool),
    Find(K, Option<usize>),
    Name(usize, Option<K>),
    Enter(K, Option<usize>),
    Remove(K, bool),
}

// Both absent, or the same key. No `==`, since keys are told apart by sameness.
fn same_names<K: Key>(a: Option<K>, b: Option<K>) -> bool {
    match (a, b) {
        (Some(x), Some(y)) => x.same(&y),
        (None, None) => true,
        _ => false,
    }
}

// Makes one call, and says whether the answer is the expected one.
fn agrees<K: Key, D: Directory<K>>(d: &mut D, step: &Step<K>) -> bool {
    // A step is a value with the answer that is expected of it, so that a table of them is the test.
    match *step {
        Step::Size(size) => d.size() == size,
        Step::Empty(size) => {
            d.empty(size);
            true
        }
        Step::Admits(key, answer) => d.admits(&key) == answer,
        Step::Find(key, slot) => d.find(&key) == slot,
        Step::Name(slot, key) => same_names(d.name(slot), key),
        Step::Enter(key, slot) => d.enter(key) == slot,
        Step::Remove(key, answer) => d.remove(&key) == answer,
    }
}

/// Makes the calls one after another, and answers the place of the first whose answer is not the expected one.
pub(crate) fn first_wrong<K: Key, D: Directory<K>>(d: &mut D, steps: &[Step<K>]) -> Option<usize> {
    steps.iter().position(|step| !agrees(d, step))
}

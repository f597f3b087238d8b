//! Calls by the words that lines begin with.

/// The call of this word, of those that a program has.
pub fn call_named<C: Copy>(calls: &[(&str, C)], word: &str) -> Option<C> {
    for (name, call) in calls {
        if *name == word {
            return Some(*call);
        }
    }
    None
}

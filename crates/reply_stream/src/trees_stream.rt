//! The trees of a reply, whose bytes come in pieces behind the catalog's last byte.
ghost use Rattle.std.specs.Prelude.{◌≡◌, ◌<◌, ◌≤◌, ◌-◌, ◌^◌, ◌++◌, ◌≢◌, ◌∷◌, ℕ, min, List, [], Some, None, Ok, true, false, nat_lt, if◌then◌else◌, is_some, IsTrue, IsErr, IsOk, IfOk, OnOk, OnErr};
ghost use Rattle.vo_spec.specs.Bytes.{IsBytes};
ghost use Rattle.row_bytes.specs.Fields.{whole};
ghost use Rattle.tree_stream.specs.Findings.{no_target};
ghost use Rattle.tree_stream.specs.Summaries.{CanEnd as CanEndTree};
ghost use Rattle.tree_stream.specs.Streams.{IsBehind as IsBehindTree, IsSettled, summary_of, target_in};
ghost use Rattle.tree_stream.specs.declared.target.Target.{Target as PlainTarget};
ghost use Rattle.reply_stream.specs.declared.trees_summary.TreesSummary.{TreesSummary as PlainSummary};
ghost use Rattle.reply_stream.specs.ReplyTrees.{CanBecomeTrees, GoesOn, HasNeededAndToken, HasNeededByte, IsStateBehind, IsTreeBehind, awaits_count, count_and_first, first_count, kept_first, rest_of_open, rest_of_trees, trees_at};

use crate::trees_state::{OpenTree, TreesState};
use crate::trees_summary::TreesSummary;
use std::alloc::{AllocError, Global};
use std::mem;
use tree_stream::{Summary, Target, TreeStream};

/// A reader of a reply's trees, up to the last byte of the reply. It holds none of them.
#[derive(Drop)]
pub struct TreesStream {
    state: TreesState,
}

impl TreesStream {
    ghost use Rattle.reply_stream.specs.TreesStreams.{CanEnd, IsBehind, held_in, trees_summary_of};

    /// A reader that was given no bytes, of trees the first of which is read for a target.
    pub fn new(target: Target) -> TreesStream
        ensures trees { (bytes : List ℕ)
            → trees_summary_of result bytes ≡ whole (trees_at target bytes) }
        ensures behind { IsBehind target result [] }
    {
        TreesStream {
            state: TreesState::Count(target),
        }
    }

    /// Takes the piece that comes next. Of bytes that are no trees it takes no more.
    pub fn feed(&mut self, alloc: Global, piece: &[u8]) -> Result<(), AllocError>
        // It is as if the piece had stood in front of the bytes to come.
        ensures ok { OnOk result ((more : List ℕ)
            → trees_summary_of self.new more ≡ trees_summary_of self.old (piece.now ++ more)) }

        ensures behind { OnOk result ((target : PlainTarget) (bytes : List ℕ)
            → IsBehind target self.old bytes → IsBehind target self.new (bytes ++ piece.now)) }

        // Where memory ran out, no trees come of it any more.
        ensures err { OnErr result ((more : List ℕ) → trees_summary_of self.new more ≡ None) }

        // Memory runs out only while the bytes so far can still become trees.
        ensures way { IsErr result → CanEnd self.old }
        ensures dead { ((more : List ℕ) → IsBytes more → trees_summary_of self.old more ≡ None)
            → IsOk result }

        // It runs out only at a byte of the piece that is of a row of the first tree whose key is
        // in the target's interval, as the bytes say that came.
        ensures memory { IsErr result → (target : PlainTarget) (bytes : List ℕ)
            → IsBehind target self.old bytes → HasNeededByte target.interval bytes piece.now }
    {
        if awaits_count(&self.state) {
            return self.feed_count(alloc, piece);
        }
        match feed_in_place(&mut self.state, alloc, piece) {
            Ok(true) => Ok(()),
            Ok(false) => {
                let _ = mem::replace(&mut self.state, TreesState::Invalid);
                Ok(())
            },
            Err(error) => {
                let _ = mem::replace(&mut self.state, TreesState::Invalid);
                Err(error)
            },
        }
    }

    /// Takes a piece that the number of trees is awaited of.
    fn feed_count(&mut self, alloc: Global, piece: &[u8]) -> Result<(), AllocError>
        requires { awaits_count self.old.state ≡ true }
        ensures ok { OnOk result ((more : List ℕ)
            → trees_summary_of self.new more ≡ trees_summary_of self.old (piece.now ++ more)) }
        ensures err { OnErr result ((more : List ℕ) → trees_summary_of self.new more ≡ None) }
        ensures way { IsErr result → CanEnd self.old }
        ensures behind { OnOk result ((target : PlainTarget) (bytes : List ℕ)
            → IsBehind target self.old bytes → IsBehind target self.new (bytes ++ piece.now)) }
        ensures memory { IsErr result → (target : PlainTarget) (bytes : List ℕ)
            → IsBehind target self.old bytes → HasNeededByte target.interval bytes piece.now }
    {
        match mem::replace(&mut self.state, TreesState::Invalid) {
            TreesState::Count(target) => {
                self.state = state_behind_count(target, alloc, piece)?;
                Ok(())
            },
            _ => unreachable!(),
        }
    }

    /// How many bytes are held: the keys of the rows that were found, their values as they are
    /// encoded, and a token that isn't whole.
    pub fn held(&self) -> usize
        ensures count { result ≡ min (held_in self.now) (2 ^ 64 - 1) }

        // No more than was needed of the first tree, and a token.
        ensures within { (target : PlainTarget) (bytes : List ℕ) → IsBehind target self.now bytes
            → HasNeededAndToken target.interval bytes result }

        // Behind the last tree these are all rows that were found, or more.
        ensures found { (summary : PlainSummary) → trees_summary_of self.now [] ≡ Some summary
            → min (first_count summary.first) (2 ^ 64 - 1) ≤ result }
    {
        match &self.state {
            TreesState::Count(_) => 0,
            TreesState::Empty => 0,
            TreesState::Tree(tree) => first_held(&tree.first).saturating_add(tree.stream.held()),
            TreesState::Invalid => 0,
        }
    }

    /// How many trees there are and what was found in the first one, where the last has ended.
    pub fn end(self) -> Option<TreesSummary>
        ensures { result ≡ trees_summary_of self [] }
    {
        let TreesStream { state } = self;
        match state {
            TreesState::Count(_) => None,
            TreesState::Empty => Some(TreesSummary {
                count: 0,
                first: None,
            }),
            TreesState::Tree(tree) => end_tree(tree),
            TreesState::Invalid => None,
        }
    }
}

/// How many bytes of rows are kept of the first tree, once it ended.
fn first_held(first: &Option<Summary>) -> usize
    ensures { result ≡ min (first_count first.now) (2 ^ 64 - 1) }
{
    match first {
        Some(summary) => summary.held(),
        None => 0,
    }
}

fn awaits_count(state: &TreesState) -> bool
    ensures { result ≡ awaits_count state.now }
{
    matches!(state, TreesState::Count(_))
}

/// Takes a piece where the state stands, which has the number of trees, and says whether these
/// still can be trees. The state of an open tree is large, and isn't moved for a piece.
fn feed_in_place(state: &mut TreesState, alloc: Global, piece: &[u8]) -> Result<bool, AllocError>
    requires { awaits_count state.old ≡ false }
    ensures goes_on { result ≡ Ok true → (more : List ℕ)
        → rest_of_trees state.new more ≡ rest_of_trees state.old (piece.now ++ more) }
    ensures lost { result ≡ Ok false → (more : List ℕ)
        → rest_of_trees state.old (piece.now ++ more) ≡ None }
    ensures way { IsErr result → CanBecomeTrees state.old }
    ensures behind { result ≡ Ok true → (target : PlainTarget) (bytes : List ℕ)
        → IsStateBehind target state.old bytes
        → IsStateBehind target state.new (bytes ++ piece.now) }
    ensures memory { IsErr result → (target : PlainTarget) (bytes : List ℕ)
        → IsStateBehind target state.old bytes
        → HasNeededByte target.interval bytes piece.now }
{
    match state {
        TreesState::Count(_) => unreachable!(),
        TreesState::Empty => Ok(piece.is_empty()),
        TreesState::Tree(tree) => feed_trees(tree, alloc, piece),
        TreesState::Invalid => Ok(true),
    }
}

/// What a piece leaves that the number of trees is awaited of.
fn state_behind_count(target: Target, alloc: Global, piece: &[u8]) -> Result<TreesState, AllocError>
    ensures ok { IfOk result (λ new. (more : List ℕ) → rest_of_trees new more
        ≡ rest_of_trees (TreesState.Count target) (piece.now ++ more)) }
    ensures way { IsErr result → CanBecomeTrees (TreesState.Count target) }
    ensures behind { IfOk result (λ new. IsStateBehind target new piece.now) }
    ensures memory { IsErr result → HasNeededByte target.interval [] piece.now }
{
    match piece.split_first() {
        Some((count, behind)) => begin_trees(target, alloc, *count, behind),
        None => Ok(TreesState::Count(target)),
    }
}

/// Begins so many trees, and takes the bytes behind their number.
fn begin_trees(
    target: Target,
    alloc: Global,
    count: u8,
    behind: &[u8],
) -> Result<TreesState, AllocError>
    ensures ok { IfOk result (λ new. (more : List ℕ) → rest_of_trees new more
        ≡ rest_of_trees (TreesState.Count target) (count ∷ behind.now ++ more)) }
    ensures way { IsErr result → CanBecomeTrees (TreesState.Count target) }
    ensures behind { IfOk result (λ new. IsStateBehind target new (count ∷ behind.now)) }
    ensures memory { IsErr result → HasNeededByte target.interval [] (count ∷ behind.now) }
{
    if count == 0 {
        return Ok(without_trees(behind));
    }
    let tree = OpenTree {
        stream: TreeStream::new(alloc, target),
        count,
        left: count - 1,
        first: None,
    };
    feed_open(tree, alloc, behind)
}

/// There are no trees, and these bytes come behind.
fn without_trees(behind: &[u8]) -> TreesState
    ensures trees { (more : List ℕ) → rest_of_trees result more
        ≡ whole (Some (count_and_first 0 None, behind.now ++ more)) }
    ensures behind { (target : PlainTarget) (bytes : List ℕ) → IsStateBehind target result bytes }
{
    if behind.is_empty() {
        TreesState::Empty
    } else {
        TreesState::Invalid
    }
}

fn feed_open(mut tree: OpenTree, alloc: Global, piece: &[u8]) -> Result<TreesState, AllocError>
    ensures ok { IfOk result (λ new. (more : List ℕ)
        → rest_of_trees new more ≡ whole (rest_of_open tree (piece.now ++ more))) }
    ensures way { IsErr result → CanEndTree (summary_of tree.stream) }
    ensures behind { IfOk result (λ new. (target : PlainTarget) (bytes : List ℕ)
        → IsTreeBehind target tree.first tree.stream bytes
        → IsStateBehind target new (bytes ++ piece.now)) }
    ensures memory { IsErr result → (target : PlainTarget) (bytes : List ℕ)
        → IsTreeBehind target tree.first tree.stream bytes
        → HasNeededByte target.interval bytes piece.now }
{
    let goes_on = feed_trees(&mut tree, alloc, piece)?;
    if goes_on {
        return Ok(TreesState::Tree(tree));
    }
    Ok(TreesState::Invalid)
}

/// Takes a piece, tree after tree, and says whether these still can be trees.
fn feed_trees(tree: &mut OpenTree, alloc: Global, piece: &[u8]) -> Result<bool, AllocError>
    ensures ok { GoesOn result tree.old tree.new piece.now }
    ensures way { IsErr result → CanEndTree (summary_of tree.old.stream) }
    ensures behind { result ≡ Ok true → (target : PlainTarget) (bytes : List ℕ)
        → IsTreeBehind target tree.old.first tree.old.stream bytes
        → IsTreeBehind target tree.new.first tree.new.stream (bytes ++ piece.now) }
    ensures memory { IsErr result → (target : PlainTarget) (bytes : List ℕ)
        → IsTreeBehind target tree.old.first tree.old.stream bytes
        → HasNeededByte target.interval bytes piece.now }
{
    let mut left = tree.stream.feed(alloc, piece)?;
    'trees: while !left.is_empty() {
        if !next_tree(tree, alloc) {
            return Ok(false);
        }
        left = tree.stream.feed(alloc, left)?;
    }
    Ok(true)
}

/// Goes on to the next tree, if the one before has ended and there is another.
fn next_tree(tree: &mut OpenTree, alloc: Global) -> bool
    requires { IsSettled tree.old.stream }
    ensures next { result ≡ true → (bytes : List ℕ)
        → rest_of_open tree.new bytes ≡ rest_of_open tree.old bytes }
    ensures last { result ≡ false → (bytes : List ℕ) → bytes ≢ []
        → whole (rest_of_open tree.old bytes) ≡ None }
    ensures target { result ≡ true → target_in tree.new.stream ≡ no_target }
    ensures kept { result ≡ true → IsTrue (is_some tree.new.first) }
    ensures behind { result ≡ true → (target : PlainTarget) (bytes : List ℕ)
        → IsTreeBehind target tree.old.first tree.old.stream bytes
        → IsTreeBehind target tree.new.first tree.new.stream bytes }
    ensures fewer { result ≡ true → tree.new.left < tree.old.left }
{
    if tree.left == 0 {
        return false;
    }
    let next = TreeStream::new(alloc, Target::of_no_rows(alloc));
    match mem::replace(&mut tree.stream, next).end() {
        Some(summary) => {
            keep_first(&mut tree.first, summary);
            tree.left -= 1;
            true
        },
        None => false,
    }
}

/// Keeps the summary, where there is none yet.
fn keep_first(first: &mut Option<Summary>, summary: Summary)
    ensures { first.new ≡ Some (kept_first first.old summary) }
{
    if first.is_none() {
        *first = Some(summary);
    }
}

/// What was read, if the tree has ended and is the last.
fn end_tree(tree: OpenTree) -> Option<TreesSummary>
    ensures { result ≡ whole (rest_of_open tree []) }
{
    let OpenTree {
        stream,
        count,
        left,
        first,
    } = tree;
    match stream.end() {
        Some(summary) => end_last(count, left, first, summary),
        None => None,
    }
}

/// What was read of so many trees, if none is left behind the one with this summary.
fn end_last(
    count: u8,
    left: u8,
    mut first: Option<Summary>,
    summary: Summary,
) -> Option<TreesSummary>
    ensures { result ≡ if nat_lt 0 left then None
        else Some (count_and_first count (Some (kept_first first summary))) }
{
    if left > 0 {
        return None;
    }
    keep_first(&mut first, summary);
    Some(TreesSummary { count, first })
}

//! Rows put and exchanged as they are given, in whole trees and in parts of them.
ghost use Rattle.std.specs.Prelude.{IfOk};
ghost use Rattle.vo_spec.specs.Fits.{FitsKey, FitsPart, FitsRow, FitsRowPart};
ghost use Rattle.mb_tree.specs.View.{part_of};
ghost use Rattle.mb_update.specs.RowParts.{IsWholeRow};

use crate::{UpdateFault, Updates, insert_row};
use mb_tree::{PartTree, Tree, TreeEntry};
use std::alloc::{AllocError, Global};
use std::test::Fail;
use vo_spec::{Cell, CellValue, Digest, Key, List, Row, RowPart, Value};

fn key_of(alloc: Global, letter: u8) -> Result<Key, AllocError>
    ensures { IfOk result FitsKey }
{
    Ok(Key::from_vec(Vec::from_slice(alloc, &[letter])?))
}

fn row_of(alloc: Global, letter: u8, number: i64) -> Result<Row, AllocError>
    ensures { IfOk result FitsRow }
{
    let key = key_of(alloc, letter)?;
    let cells = List::from_vec(Vec::from_array(alloc, [Value::Int(number)])?);
    Ok(Row { key, cells })
}

/// The row of this number, shown.
fn shown<'b>(alloc: Global, number: i64) -> Result<RowPart<'b>, AllocError>
    ensures whole { IfOk result IsWholeRow }
    ensures fits { IfOk result FitsRowPart }
{
    let cell = Cell::Shown(CellValue::owned(Value::Int(number)));
    Ok(RowPart::Cells(List::from_vec(Vec::from_array(alloc, [cell])?)))
}

/// The row of this number as its digest.
fn closed<'b>(alloc: Global, number: i64) -> Result<RowPart<'b>, AllocError>
    ensures { IfOk result FitsRowPart }
{
    let entry = TreeEntry::of_row(alloc, row_of(alloc, b'a', number)?)?;
    Ok(RowPart::Digest(entry.cells().digest()))
}

/// The digest of the tree of one row, that of `a` with this number.
fn digest_with(alloc: Global, number: i64) -> Result<Digest, UpdateFault> {
    let row = row_of(alloc, b'a', number)?;
    let tree = insert_row(alloc, &Tree::new(alloc)?, row)?;
    Ok(tree.node_digest())
}

/// The tree with the row 1 of this key, if it has room.
fn put_in_tree(alloc: Global, tree: &Tree, letter: u8) -> Result<Tree, UpdateFault> {
    if tree.row_count() > 1 {
        return Err(UpdateFault::Memory);
    }
    tree.put(alloc, &key_of(alloc, letter)?, &shown(alloc, 1)?)
}

fn tree_of_a(alloc: Global) -> Result<Tree, UpdateFault> {
    put_in_tree(alloc, &Tree::new(alloc)?, b'a')
}

fn digest_of(tree: Result<Tree, UpdateFault>) -> Result<Digest, UpdateFault> {
    Ok(tree?.node_digest())
}

/// The tree of `a`, with the row 2 in the place of that of this key.
fn set_in_tree(alloc: Global, letter: u8) -> Result<Tree, UpdateFault> {
    let tree = tree_of_a(alloc)?;
    tree.set(alloc, &key_of(alloc, letter)?, &shown(alloc, 2)?)
}

/// The part with the digest of row 1 for this key.
fn put_in_part<'b>(
    alloc: Global,
    part: &PartTree<'b>,
    letter: u8,
) -> Result<PartTree<'b>, UpdateFault>
    requires { FitsPart (part_of part.now) }
    ensures { IfOk result (λ new. FitsPart (part_of new)) }
{
    part.put(alloc, &key_of(alloc, letter)?, &closed(alloc, 1)?)
}

/// The part with the digest of row 2 for this key.
fn set_in_part<'b>(
    alloc: Global,
    part: &PartTree<'b>,
    letter: u8,
) -> Result<PartTree<'b>, UpdateFault>
    requires { FitsPart (part_of part.now) }
    ensures { IfOk result (λ new. FitsPart (part_of new)) }
{
    part.set(alloc, &key_of(alloc, letter)?, &closed(alloc, 2)?)
}

fn part_of_a<'b>(alloc: Global) -> Result<PartTree<'b>, UpdateFault>
    ensures { IfOk result (λ new. FitsPart (part_of new)) }
{
    put_in_part(alloc, &PartTree::Leaf(List::new(alloc)), b'a')
}

fn part_digest(part: Result<PartTree<'_>, UpdateFault>) -> Result<Digest, UpdateFault>
    requires { IfOk part (λ part. FitsPart (part_of part)) }
{
    Ok(part?.node_digest())
}

fn stub<'b>() -> PartTree<'b>
    ensures { FitsPart (part_of result) }
{
    PartTree::Stub(Digest::new([0; 32]))
}

#[test]
fn a_whole_tree_takes_rows_that_are_shown(rt: HostRuntime) -> Result<(), Fail> {
    let alloc = rt.alloc();
    assert_eq!(rt; digest_of(tree_of_a(alloc)), digest_with(alloc, 1));
    assert_eq!(rt; digest_of(set_in_tree(alloc, b'a')), digest_with(alloc, 2));
    Ok(())
}

#[test]
fn a_whole_tree_refuses_a_key_twice_and_one_that_it_lacks(rt: HostRuntime) -> Result<(), Fail> {
    let alloc = rt.alloc();
    let twice = match tree_of_a(alloc) {
        Ok(tree) => digest_of(put_in_tree(alloc, &tree, b'a')),
        Err(fault) => Err(fault),
    };
    assert_eq!(rt; twice, Err(UpdateFault::DuplicateKey));
    assert_eq!(rt;
        digest_of(set_in_tree(alloc, b'b')),
        Err(UpdateFault::NoRow)
    );
    Ok(())
}

#[test]
fn a_part_takes_the_digests_of_rows(rt: HostRuntime) -> Result<(), Fail> {
    let alloc = rt.alloc();
    assert_eq!(rt; part_digest(part_of_a(alloc)), digest_with(alloc, 1));
    let set = match part_of_a(alloc) {
        Ok(part) => part_digest(set_in_part(alloc, &part, b'a')),
        Err(fault) => Err(fault),
    };
    assert_eq!(rt; set, digest_with(alloc, 2));
    Ok(())
}

#[test]
fn a_part_refuses_what_the_tree_does(rt: HostRuntime) -> Result<(), Fail> {
    let alloc = rt.alloc();
    let both = match part_of_a(alloc) {
        Ok(part) => (
            part_digest(put_in_part(alloc, &part, b'a')),
            part_digest(set_in_part(alloc, &part, b'b')),
        ),
        Err(fault) => (Err(fault), Err(fault)),
    };
    assert_eq!(rt; both.0, Err(UpdateFault::DuplicateKey));
    assert_eq!(rt; both.1, Err(UpdateFault::NoRow));
    Ok(())
}

#[test]
fn a_stub_is_missing(rt: HostRuntime) -> Result<(), Fail> {
    let alloc = rt.alloc();
    let missing = Err(UpdateFault::Missing);
    assert_eq!(rt; part_digest(put_in_part(alloc, &stub(), b'a')), missing);
    assert_eq!(rt; part_digest(set_in_part(alloc, &stub(), b'a')), missing);
    Ok(())
}

//! The forms in memory, each once on its plain path and at a failure that was listed.
//!
//! They are another crate's, which has no tests of its own, since a crate with tests is proved
//! twice.
use outside::{
    Disk, FailAt, Failed, Failure, Link, MemDisk, MemNet, MemShelf, MemSink, NamedFile, Net, Never,
    PutFault, Shelf, Sink, TakeFault, write_output,
};
use std::alloc::{AllocError, Global};
use std::test::Fail;

fn fail_at(alloc: Global, call: u64, after: usize) -> Result<FailAt, AllocError> {
    Ok(FailAt::new(vec![in alloc; Failure { call, after }]?))
}

#[test]
fn sinks_keep_what_is_put(rt: HostRuntime) -> Result<(), Fail> {
    let mut failing = MemSink::new(rt.alloc(), fail_at(rt.alloc(), 1, 2)?);
    let does_fail = sink_fails_at_its_call(&mut failing);
    drop(failing);
    let mut sink = MemSink::new(rt.alloc(), Never);
    let is_kept = last_bytes_are_written(&mut sink) && sink.put(b"x") == Ok(());
    drop(sink);
    assert_eq!(rt; (does_fail, is_kept), (true, true));
    Ok(())
}

fn sink_fails_at_its_call(sink: &mut MemSink<FailAt>) -> bool {
    let put = (sink.put(b"ab"), sink.put(b"cde"), sink.put(b"f"));
    let due = (Ok(()), Err(PutFault::Failed), Ok(()));
    put == due && sink.contents() == b"abcdf".as_slice()
}

/// The last bytes, with the status that they come with.
fn last_bytes_are_written(out: &mut MemSink<Never>) -> bool {
    let last = b"bad journal 0\n";
    write_output(out, 7, last) == 7 && out.contents() == last.as_slice()
}

fn seed(alloc: Global) -> Result<NamedFile, AllocError> {
    let name = String::from_str(alloc, "seed")?;
    let bytes = Vec::from_slice(alloc, b"123")?;
    Ok(NamedFile { name, bytes })
}

fn shelf_of_a_seed(alloc: Global) -> Result<MemShelf<FailAt>, AllocError> {
    let failures = fail_at(alloc, 2, 0)?;
    let files = vec![in alloc; seed(alloc)?]?;
    Ok(MemShelf::new(files, failures))
}

#[test]
fn shelf_gives_files_and_faults(rt: HostRuntime) -> Result<(), Fail> {
    let mut shelf = shelf_of_a_seed(rt.alloc())?;
    let is_given = seed_is_given(rt.alloc(), &mut shelf);
    drop(shelf);
    assert!(rt; is_given);
    Ok(())
}

fn seed_is_given(alloc: Global, shelf: &mut MemShelf<FailAt>) -> bool {
    let is_taken = is_seed(shelf.take(alloc, "seed", 3));
    let faults = (
        shelf.take(alloc, "seed", 2).err(),
        shelf.take(alloc, "seed", 3).err(),
        shelf.take(alloc, "see", 3).err(),
    );
    let failed = Some(TakeFault::Failed);
    is_taken && faults == (Some(TakeFault::TooLong), failed, failed)
}

fn is_seed(taken: Result<Vec<u8>, TakeFault>) -> bool {
    match taken {
        Ok(taken) => {
            let is_same = taken.as_slice() == b"123".as_slice();
            drop(taken);
            is_same
        }
        Err(_) => false,
    }
}

fn one_connection(alloc: Global, coming: &[u8]) -> Result<Vec<Vec<u8>>, AllocError> {
    let coming = Vec::from_slice(alloc, coming)?;
    Ok(vec![in alloc; coming]?)
}

#[test]
fn net_gives_bytes_in_pieces(rt: HostRuntime) -> Result<(), Fail> {
    let coming = one_connection(rt.alloc(), b"hello")?;
    let mut net = MemNet::new(rt.alloc(), coming, Never)?.in_pieces(3);
    let is_given = first_piece_is_given(&mut net);
    drop(net);
    assert!(rt; is_given);
    Ok(())
}

fn first_piece_is_given(net: &mut MemNet<Never>) -> bool {
    let mut buffer = [0u8; 4];
    let unconnected = net.get(&mut buffer);
    let got = (net.connect("there"), net.get(&mut buffer), buffer);
    let due = (Ok(()), Ok(3), [104, 101, 108, 0]);
    (unconnected, got, net.next()) == (Err(Failed), due, Err(Failed))
}

#[test]
fn net_keeps_what_was_put(rt: HostRuntime) -> Result<(), Fail> {
    let failures = fail_at(rt.alloc(), 2, 1)?;
    let mut net = MemNet::new(rt.alloc(), one_connection(rt.alloc(), b"")?, failures)?;
    let is_kept = front_is_kept(&mut net);
    drop(net);
    assert!(rt; is_kept);
    Ok(())
}

fn front_is_kept(net: &mut MemNet<FailAt>) -> bool {
    let called = (net.listen("here", None), net.next(), net.put(b"zz"));
    let is_sent = net.sent() == b"z".as_slice();
    net.close();
    let is_past = match net.past().first() {
        Some(sent) => sent.as_slice() == b"z".as_slice(),
        None => false,
    };
    called == (Ok(()), Ok(()), Err(PutFault::Failed)) && is_sent && is_past
}

#[test]
fn disk_keeps_what_is_written(rt: HostRuntime) -> Result<(), Fail> {
    let mut disk = MemDisk::new(rt.alloc(), Vec::from_slice(rt.alloc(), b"abc")?, Never)?;
    let is_kept = writes_and_reads(&mut disk);
    drop(disk);
    assert!(rt; is_kept?);
    Ok(())
}

fn writes_and_reads(disk: &mut MemDisk<Never>) -> Result<bool, AllocError> {
    disk.reserve(7, 4, 3)?;
    let written = (
        disk.write_at(5, b"xy"),
        disk.write_at(1, b"BC"),
        disk.sync(),
    );
    let found = (disk.len(), disk.moment());
    let mut buffer = [0u8; 2];
    let read = (disk.read(2, &mut buffer), buffer);
    let due = ((Ok(()), Ok(()), Ok(())), (Ok(7), 3));
    let is_read = read == (Ok(()), *b"C\0") && disk.contents() == b"aBC\0\0xy".as_slice();
    Ok((written, found) == due && is_read)
}

#[test]
fn disk_fails_at_its_call(rt: HostRuntime) -> Result<(), Fail> {
    let failing = fail_at(rt.alloc(), 0, 1)?;
    let mut disk = MemDisk::new(rt.alloc(), Vec::from_slice(rt.alloc(), b"abc")?, failing)?;
    let does_fail = a_write_fails(&mut disk);
    drop(disk);
    assert!(rt; does_fail?);
    Ok(())
}

fn a_write_fails(disk: &mut MemDisk<FailAt>) -> Result<bool, AllocError> {
    disk.reserve(4, 4, 1)?;
    let written = disk.write_at(0, b"ABCD");
    Ok((written, disk.contents()) == (Err(Failed), b"Abc".as_slice()))
}

#[test]
fn disk_leaves_images(rt: HostRuntime) -> Result<(), Fail> {
    let mut disk = MemDisk::new(rt.alloc(), Vec::from_slice(rt.alloc(), b"abc")?, Never)?;
    let are_left = are_images_left(rt.alloc(), &mut disk);
    drop(disk);
    assert!(rt; are_left?);
    Ok(())
}

fn are_images_left(alloc: Global, disk: &mut MemDisk<Never>) -> Result<bool, AllocError> {
    disk.reserve(5, 3, 3)?;
    let done = (disk.write_at(1, b"B"), disk.sync(), disk.write_at(3, b"de"));
    let mut are_left = done == (Ok(()), Ok(()), Ok(()));
    // A moment, what is left with these lost bytes, and whether that is so after the sync too.
    for (moment, image, is_later) in &[
        (0, "abc", false),
        (1, "a1c", false),
        (2, "aBc", true),
        (3, "aBc34", true),
    ] {
        let made = disk.image(alloc, *moment, b"012345")?;
        let found = (
            disk.has_left(alloc, *moment, &made),
            disk.has_left(alloc, 2, &made),
        );
        are_left &= made.as_slice() == image.as_bytes();
        drop(made);
        are_left &= found == (Ok(true), Ok(*is_later));
    }
    Ok(are_left)
}

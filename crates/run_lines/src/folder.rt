//! Files in memory, and runs of the program over them.
use outside::{Disk, FailAt, Failure, MemDisk, MemNet, MemShelf, MemSink, NamedFile, Never};
use std::alloc::{AllocError, Global};
use vo_commands::run;

/// The words that the program is run with, which of its calls of the files and of the output fail,
/// and whom it can talk to.
#[derive(Drop)]
pub struct Attempt {
    pub words: Vec<String>,
    pub take_failures: Vec<Failure>,
    pub put_failures: Vec<Failure>,
    pub peer: Option<Peer>,
}

/// Who makes or takes connections, one after the other: the bytes that come on each are those of a
/// file, in pieces of at most so many, and some calls of the network fail.
#[derive(Drop)]
pub struct Peer {
    pub files: Vec<String>,
    pub piece: usize,
    pub failures: Vec<Failure>,
}

/// What a run ended with, what it wrote, and what it put on its connections.
#[derive(Drop)]
pub struct RunEnd {
    pub status: u8,
    pub written: Vec<u8>,
    pub put: Vec<u8>,
}

/// Files by their names. Of two with one name the later one counts.
#[derive(Drop)]
pub struct Folder {
    files: Vec<NamedFile>,
}

impl Folder {
    pub fn new(alloc: Global) -> Folder {
        Folder {
            files: Vec::new(alloc),
        }
    }

    pub fn keep(&mut self, name: String, bytes: Vec<u8>) -> Result<(), AllocError> {
        self.files.insert(0, NamedFile { name, bytes })?;
        Ok(())
    }

    /// The bytes of the file of that name.
    pub fn find(&self, name: &str) -> Option<&[u8]> {
        for file in &self.files {
            if file.name.as_str() == name {
                return Some(file.bytes.as_slice());
            }
        }
        None
    }

    /// The name of the file that has these bytes, the latest one of several.
    pub fn name_of(&self, bytes: &[u8]) -> Option<&str> {
        for file in &self.files {
            if self.find(&file.name).is_some_and(|found| found == bytes) {
                return Some(file.name.as_str());
            }
        }
        None
    }

    /// A run with nothing on its disk.
    pub fn run(&self, alloc: Global, attempt: Attempt) -> Result<RunEnd, AllocError> {
        self.run_on(alloc, attempt, &mut empty_disk(alloc)?)
    }

    pub fn run_on<D: Disk>(
        &self,
        alloc: Global,
        attempt: Attempt,
        disk: &mut D,
    ) -> Result<RunEnd, AllocError> {
        let Attempt {
            words,
            take_failures,
            put_failures,
            peer,
        } = attempt;
        match self.outside_of(alloc, take_failures, peer) {
            Ok((mut shelf, mut net)) => {
                let failing = FailAt::new(put_failures);
                let end = run_over(alloc, &words, &mut shelf, disk, &mut net, failing);
                drop((words, shelf, net));
                end
            }
            Err(fault) => {
                drop((words, put_failures));
                Err(fault)
            }
        }
    }

    /// These files, and a network with the connections of this peer.
    fn outside_of(
        &self,
        alloc: Global,
        take_failures: Vec<Failure>,
        peer: Option<Peer>,
    ) -> Result<(MemShelf<FailAt>, MemNet<FailAt>), AllocError> {
        match copies(alloc, &self.files) {
            Ok(files) => {
                let shelf = MemShelf::new(files, FailAt::new(take_failures));
                self.beside_net(alloc, shelf, peer)
            }
            Err(fault) => {
                drop((take_failures, peer));
                Err(fault)
            }
        }
    }

    fn beside_net(
        &self,
        alloc: Global,
        shelf: MemShelf<FailAt>,
        peer: Option<Peer>,
    ) -> Result<(MemShelf<FailAt>, MemNet<FailAt>), AllocError> {
        match self.net_to(alloc, peer) {
            Ok(net) => Ok((shelf, net)),
            Err(fault) => {
                drop(shelf);
                Err(fault)
            }
        }
    }

    /// A network with the connections of this peer, if there is one.
    fn net_to(&self, alloc: Global, peer: Option<Peer>) -> Result<MemNet<FailAt>, AllocError> {
        let Some(peer) = peer else {
            return MemNet::new(alloc, Vec::new(alloc), FailAt::new(Vec::new(alloc)));
        };
        let Peer {
            files,
            piece,
            failures,
        } = peer;
        let coming = self.bytes_of(alloc, &files);
        drop(files);
        match coming {
            Ok(coming) => {
                let net = MemNet::new(alloc, coming, FailAt::new(failures))?;
                Ok(net.in_pieces(piece.max(1)))
            }
            Err(fault) => {
                drop(failures);
                Err(fault)
            }
        }
    }

    /// The bytes of each of these files.
    fn bytes_of(&self, alloc: Global, names: &[String]) -> Result<Vec<Vec<u8>>, AllocError> {
        let mut all = Vec::new(alloc);
        for name in names {
            let bytes = self.find(name).unwrap_or(&[]);
            all.push(Vec::from_slice(alloc, bytes)?)?;
        }
        Ok(all)
    }

    /// A run that never fails, with this file in the place of the one of its name.
    pub fn run_with(
        &self,
        alloc: Global,
        words: &[String],
        file: NamedFile,
    ) -> Result<RunEnd, AllocError> {
        let shelf = MemShelf::new(self.files_with(alloc, file)?, FailAt::new(Vec::new(alloc)));
        let (mut shelf, mut net) = self.beside_net(alloc, shelf, None)?;
        let end = run_without_disk(alloc, words, &mut shelf, &mut net);
        drop((shelf, net));
        end
    }

    fn files_with(&self, alloc: Global, file: NamedFile) -> Result<Vec<NamedFile>, AllocError> {
        match copies(alloc, &self.files) {
            Ok(mut files) => {
                files.insert(0, file)?;
                Ok(files)
            }
            Err(fault) => {
                drop(file);
                Err(fault)
            }
        }
    }
}

/// Runs the program over these, with nothing on its disk.
fn run_without_disk(
    alloc: Global,
    words: &[String],
    shelf: &mut MemShelf<FailAt>,
    net: &mut MemNet<FailAt>,
) -> Result<RunEnd, AllocError> {
    let mut disk = empty_disk(alloc)?;
    let never = FailAt::new(Vec::new(alloc));
    let end = run_over(alloc, words, shelf, &mut disk, net, never);
    drop(disk);
    end
}

fn empty_disk(alloc: Global) -> Result<MemDisk<Never>, AllocError> {
    MemDisk::new(alloc, Vec::new(alloc), Never)
}

/// Runs the program over these.
fn run_over<D: Disk>(
    alloc: Global,
    words: &[String],
    shelf: &mut MemShelf<FailAt>,
    disk: &mut D,
    net: &mut MemNet<FailAt>,
    put_failures: FailAt,
) -> Result<RunEnd, AllocError> {
    let mut out = MemSink::new(alloc, put_failures);
    let status = run(alloc, words, shelf, disk, net, &mut out);
    let end = end_of(alloc, status, out.contents(), net);
    drop(out);
    end
}

fn end_of(
    alloc: Global,
    status: u8,
    written: &[u8],
    net: &MemNet<FailAt>,
) -> Result<RunEnd, AllocError> {
    let written = Vec::from_slice(alloc, written)?;
    let put = all_put(alloc, net)?;
    Ok(RunEnd {
        status,
        written,
        put,
    })
}

/// What was put on all connections, in order.
fn all_put(alloc: Global, net: &MemNet<FailAt>) -> Result<Vec<u8>, AllocError> {
    let mut all = Vec::new(alloc);
    for put in net.past() {
        all.extend_from_slice(put)?;
    }
    all.extend_from_slice(net.sent())?;
    Ok(all)
}

fn copies(alloc: Global, files: &[NamedFile]) -> Result<Vec<NamedFile>, AllocError> {
    let mut all = Vec::new(alloc);
    for file in files {
        all.push(copy_of(alloc, file)?)?;
    }
    Ok(all)
}

fn copy_of(alloc: Global, file: &NamedFile) -> Result<NamedFile, AllocError> {
    let name = String::from_str(alloc, &file.name)?;
    let bytes = Vec::from_slice(alloc, &file.bytes)?;
    Ok(NamedFile { name, bytes })
}

// What no clause says: the system's files and writers, and that ample memory is found.
use desk_edge::{
    CallList, Failed, Feed, FileList, FileShelf, InFeed, MemoryFeed, MemoryFile, MemoryShelf,
    MemorySink, OutSink, ReadFault, Shelf, Sink, SizeList, read_whole, write_whole,
};
use std::alloc::{AllocError, Global};
use std::io::{ErrorKind, Read, Write};
use std::process::Abort;
use std::test::Fail;
use std::{fs, io};
use text_limits::MOST_BYTES;

const TEXT: &[u8] = b"[quotes]\nk = 2.5\n";

// Ends the test where what is told of does not hold.
fn holds(rt: &impl Abort, is_so: bool, told: &str) {
    assert!(rt; is_so, "{told}");
}

#[test]
fn a_file_of_8_mib_is_read(rt: HostRuntime) -> Result<(), Fail> {
    let calls = CallList::new(rt.alloc());
    let mut shelf = MemoryShelf::new(longest_file(rt.alloc())?, 1_048_576, calls);
    holds(&rt, is_found(rt.alloc(), &mut shelf, "m"), "it is found");
    // It is found, given in pieces of 4096 bytes, and seen to end.
    holds(&rt, shelf.calls() == 2050, "2050 calls are made");
    Ok(())
}

// A file `m` of as many bytes as a file may have.
fn longest_file(alloc: Global) -> Result<FileList, AllocError> {
    let path = String::from_str(alloc, "m")?;
    let bytes = vec![in alloc; 7u8; MOST_BYTES]?;
    let mut files = FileList::new(alloc);
    files.push(MemoryFile::new(path, bytes))?;
    Ok(files)
}

// Whether a path is read whole.
fn is_found<H: Shelf>(alloc: Global, shelf: &mut H, path: &str) -> bool {
    read_whole(shelf, path, &mut Vec::new(alloc)) == Ok(true)
}

const SHORT: &str = "desk_edge_file_shelf_test";

const LONG: &str = "desk_edge_file_shelf_long";

#[test]
fn the_systems_files_are_read(rt: HostRuntime) -> Result<(), Fail> {
    fs::write(&rt, SHORT, TEXT)?;
    holds(&rt, long_file_is_read(&rt)?, "each path answers as wanted");
    fs::remove_file(&rt, SHORT)?;
    fs::remove_file(&rt, LONG)?;
    Ok(())
}

// Writes the long file; whether it, the short one and paths that are no files answer as they should.
fn long_file_is_read(rt: &HostRuntime) -> io::Result<bool> {
    let long = three_pieces(rt.alloc())?;
    files_are_read(rt, &long)
}

// A file of three pieces, none of them like another.
fn three_pieces(alloc: Global) -> Result<Vec<u8>, AllocError> {
    let mut long = Vec::new(alloc);
    for at in 0u16..10_000 {
        long.push((at % 251) as u8)?;
    }
    Ok(long)
}

// Writes a long file of these bytes; whether it, the short one and paths that are no files answer as they should.
fn files_are_read(rt: &HostRuntime, long: &[u8]) -> io::Result<bool> {
    fs::write(rt, LONG, long)?;
    let mut shelf = FileShelf::new(rt.clone()?);
    let all = is_read(rt.alloc(), &mut shelf, SHORT, Ok(true), TEXT)
        && is_read(rt.alloc(), &mut shelf, LONG, Ok(true), long)
        && is_read(
            rt.alloc(),
            &mut shelf,
            "desk_edge_no_such_file",
            Ok(false),
            b"",
        )
        && is_read(rt.alloc(), &mut shelf, "", Ok(false), b"")
        && is_refused(rt.alloc(), &mut shelf, ".")
        && is_refused(rt.alloc(), &mut shelf, "desk_edge_file_shelf_test/x")
        && is_refused(rt.alloc(), &mut shelf, "a\0b");
    Ok(all)
}

// Whether reading a path fails, and gives no bytes.
fn is_refused<H: Shelf>(alloc: Global, shelf: &mut H, path: &str) -> bool {
    is_read(alloc, shelf, path, Err(ReadFault::Failed), b"")
}

// Whether reading a path answers what is wanted, and gives these bytes.
fn is_read<H: Shelf>(
    alloc: Global,
    shelf: &mut H,
    path: &str,
    wanted: Result<bool, ReadFault>,
    bytes: &[u8],
) -> bool {
    let mut out = Vec::new(alloc);
    read_whole(shelf, path, &mut out) == wanted && out.as_slice() == bytes
}

// A shelf that loses the first byte behind an open is refused here.
#[test]
fn a_file_is_taken_from_its_first_byte(rt: HostRuntime) -> Result<(), Fail> {
    const PATH: &str = "desk_edge_first_byte_test";
    fs::write(&rt, PATH, TEXT)?;
    holds(
        &rt,
        begins_twice(&rt, PATH)?,
        "each time it begins with its first byte",
    );
    fs::remove_file(&rt, PATH)?;
    Ok(())
}

// Whether the file at a path is taken from its first byte, and begun again, from its first byte again.
fn begins_twice(rt: &HostRuntime, path: &str) -> io::Result<bool> {
    let mut shelf = FileShelf::new(rt.clone()?);
    Ok(begins(&mut shelf, path) && begins(&mut shelf, path))
}

// Whether the file at a path is found, and gives the first three bytes of the text one by one.
fn begins<H: Shelf>(shelf: &mut H, path: &str) -> bool {
    shelf.find(path) == Ok(true)
        && taken(shelf) == Some(TEXT[0])
        && taken(shelf) == Some(TEXT[1])
        && taken(shelf) == Some(TEXT[2])
}

// The next byte of a file; none where no byte is taken.
fn taken<H: Shelf>(shelf: &mut H) -> Option<u8> {
    let mut buf = [0u8; 1];
    if shelf.take(&mut buf) == Ok(1) {
        return Some(buf[0]);
    }
    None
}

// The names that files of a session have.
const PATHS: [&str; 10] = [
    "market",
    "script",
    "quotes",
    "fixings",
    "market.toml",
    "script.txt",
    "quotes.csv",
    "fixings.csv",
    "m",
    "s",
];

// A shelf that opens another path for one of these names is refused here.
#[test]
fn each_path_has_its_own_file(rt: HostRuntime) -> Result<(), Fail> {
    for path in &PATHS {
        fs::write(&rt, path, path.as_bytes())?;
    }
    holds(
        &rt,
        own_files_are_read(&rt)?,
        "each path gives its own name",
    );
    remove_each(&rt)?;
    Ok(())
}

// Whether each of the paths gives its own name.
fn own_files_are_read(rt: &HostRuntime) -> io::Result<bool> {
    let mut shelf = FileShelf::new(rt.clone()?);
    Ok(own_names_are_read(rt.alloc(), &mut shelf))
}

// The same of any shelf.
fn own_names_are_read<H: Shelf>(alloc: Global, shelf: &mut H) -> bool {
    for path in &PATHS {
        if !is_read(alloc, shelf, path, Ok(true), path.as_bytes()) {
            return false;
        }
    }
    true
}

// Removes each of the paths.
fn remove_each(rt: &HostRuntime) -> io::Result<()> {
    for path in &PATHS {
        fs::remove_file(rt, path)?;
    }
    Ok(())
}

#[test]
fn a_writer_takes_the_bytes(rt: HostRuntime) {
    holds(&rt, is_written(rt.alloc()), "a vector takes the bytes");
    holds(
        &rt,
        is_cut(),
        "a writer with no room left takes no more, which is a fault",
    );
}

// Whether a vector takes the text.
fn is_written(alloc: Global) -> bool {
    let mut taken = Vec::new(alloc);
    write_text(OutSink::new(&mut taken)) == Ok(()) && taken.as_slice() == TEXT
}

// Whether a slice of five bytes takes five bytes, and then fails.
fn is_cut() -> bool {
    let mut room = [0u8; 5];
    write_text(OutSink::new(room.as_mut_slice())) == Err(Failed) && room.as_slice() == &TEXT[..5]
}

// Writes the text to a sink.
fn write_text<S: Sink + Drop>(mut sink: S) -> Result<(), Failed> {
    write_whole(&mut sink, TEXT)
}

// A writer that takes each piece whole and cannot hand it on.
#[derive(Drop)]
struct Stuck;

impl Write for Stuck {
    fn write(&mut self, piece: &[u8]) -> io::Result<usize> {
        Ok(piece.len())
    }

    fn flush(&mut self) -> io::Result<()> {
        Err(io::Error::from(ErrorKind::BrokenPipe))
    }
}

// A sink that hands no piece on, and so sees no fault of its flush, is refused here.
#[test]
fn a_piece_that_is_not_handed_on_is_a_fault(rt: HostRuntime) {
    let mut sink = OutSink::new(Stuck);
    holds(&rt, sink.put(TEXT) == Err(Failed), "a piece is a fault");
    holds(
        &rt,
        write_whole(&mut sink, TEXT) == Err(Failed),
        "a text is a fault",
    );
    holds(
        &rt,
        sink.flush() == Err(Failed),
        "and so is a flush, which is not told as done",
    );
}

// A sink in memory that counts no flush, or flushes at each put, is refused here.
#[test]
fn a_flush_sends_on_what_was_taken(rt: HostRuntime) -> Result<(), AllocError> {
    let mut sink = MemorySink::new(rt.alloc(), 64, 64, third_fails(rt.alloc())?)?;
    flush_sends_on(&rt, &mut sink);
    Ok(())
}

// Tells of a sink with nothing in it whose third call fails.
fn flush_sends_on(rt: &impl Abort, sink: &mut MemorySink) {
    holds(rt, sink.put(b"ab") == Ok(2), "two bytes are taken");
    holds(rt, sink.sent().is_empty(), "none is sent on yet");
    holds(rt, sink.flush() == Ok(()), "they are flushed");
    holds(rt, sink.flush() == Err(Failed), "the third call fails");
    holds(rt, sink.sent() == b"ab".as_slice(), "both were sent on");
}

// The third call, which fails.
fn third_fails(alloc: Global) -> Result<CallList, AllocError> {
    let mut fails = CallList::new(alloc);
    fails.push(3)?;
    Ok(fails)
}

// A reader that gives its bytes in order, and the pieces that a feed over it gives.
#[test]
fn a_reader_is_read_piece_by_piece(rt: HostRuntime) {
    let mut feed = InFeed::new(TEXT);
    holds(&rt, taken_by(&mut feed) == Ok(5), "a buffer is filled");
    holds(&rt, taken_by(&mut feed) == Ok(5), "and again");
    holds(&rt, taken_by(&mut feed) == Ok(5), "and again");
    holds(&rt, taken_by(&mut feed) == Ok(2), "then what is left");
    holds(&rt, taken_by(&mut feed) == Ok(0), "and then it ends");
}

// How many bytes the next piece has, where there is room for five.
fn taken_by<F: Feed>(feed: &mut F) -> Result<usize, Failed> {
    let mut buf = [0u8; 5];
    feed.take(&mut buf)
}

// A reader that cannot be read.
#[derive(Drop)]
struct Closed;

impl Read for Closed {
    fn read(&mut self, _buf: &mut [u8]) -> io::Result<usize> {
        Err(io::Error::from(ErrorKind::BrokenPipe))
    }
}

// A feed that takes a fault for the end is refused here.
#[test]
fn a_reader_that_fails_is_a_fault(rt: HostRuntime) {
    let mut feed = InFeed::new(Closed);
    holds(&rt, taken_by(&mut feed) == Err(Failed), "a call is a fault");
}

// A feed in memory whose pieces are not of its sizes is refused here.
#[test]
fn a_feed_gives_pieces_of_its_sizes(rt: HostRuntime) -> Result<(), AllocError> {
    let sizes = three_sizes(rt.alloc())?;
    let fails = third_fails(rt.alloc())?;
    let bytes = TEXT.to_vec(rt.alloc())?;
    pieces_are_given(&rt, &mut MemoryFeed::new(bytes, sizes, fails));
    Ok(())
}

// The sizes 2, 0 and 9.
fn three_sizes(alloc: Global) -> Result<SizeList, AllocError> {
    let mut sizes = SizeList::new(alloc);
    for size in [2usize, 0, 9] {
        sizes.push(size)?;
    }
    Ok(sizes)
}

// Tells of a feed of the text with these sizes whose third call fails.
fn pieces_are_given(rt: &impl Abort, feed: &mut MemoryFeed) {
    holds(rt, taken_by(feed) == Ok(2), "two bytes come");
    holds(rt, taken_by(feed) == Ok(1), "a size of 0 is one of 1");
    holds(rt, taken_by(feed) == Err(Failed), "the third call fails");
    holds(
        rt,
        taken_by(feed) == Ok(5),
        "no piece is larger than its room",
    );
    holds(rt, taken_by(feed) == Ok(5), "no size is left");
    holds(rt, feed.calls() == 5, "five calls were made");
    holds(rt, feed.faults() == 1, "one of them failed");
}

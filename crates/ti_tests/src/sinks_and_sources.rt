// Each public function of sources and sinks, and calls that fail.

use std::alloc::{AllocError, Global};
use std::fs;
use std::test::Fail;
use ti_io::{FileSource, MemSink, MemSource, Sink, Source, StdSink, write_piece};

/// A call of a source, and what its result is counted as.
#[derive(Clone, Copy)]
enum Take {
    /// Finds a file: 1 if it exists, 0 if not.
    Find(&'static str),
    /// Reads: the number of bytes read.
    Read,
}

/// A call of a sink, and what its result is counted as.
#[derive(Clone, Copy)]
enum Give {
    /// Writes: the number of bytes accepted.
    Write(&'static [u8]),
    /// Flushes: always 0.
    Flush,
}

/// Calls of a source with their expected results; `None` is a failure.
type Takes = &'static [(Take, Option<usize>)];

/// Calls of a sink with their expected results; `None` is a failure.
type Gives = &'static [(Give, Option<usize>)];

/// The indices of the calls that fail, and all calls.
struct Reading {
    fails: &'static [u32],
    calls: Takes,
}

/// The indices of the calls that fail, all calls, the bytes that the sink accepted, and how many of them are flushed.
struct Writing {
    fails: &'static [u32],
    calls: Gives,
    taken: &'static str,
    flushed: usize,
}

/// The indices of the calls that fail, whether all bytes were written, and the bytes that the sink accepted.
struct WriteCase {
    fails: &'static [u32],
    is_written: bool,
    taken: &'static str,
}

const READINGS: &[Reading] = &[
    Reading {
        fails: &[],
        calls: &[
            (Take::Find("c"), Some(0)),
            (Take::Find("a"), Some(1)),
            (Take::Read, Some(2)),
            (Take::Read, Some(2)),
            (Take::Read, Some(1)),
            (Take::Read, Some(0)),
            (Take::Find("b"), Some(1)),
        ],
    },
    Reading {
        fails: &[0, 99],
        calls: &[
            (Take::Find("c"), None),
            (Take::Find("a"), Some(1)),
            (Take::Read, Some(2)),
            (Take::Read, Some(2)),
            (Take::Read, Some(1)),
            (Take::Read, Some(0)),
            (Take::Find("b"), Some(1)),
        ],
    },
    Reading {
        fails: &[1],
        calls: &[
            (Take::Find("c"), Some(0)),
            (Take::Find("a"), None),
            (Take::Read, Some(0)),
            (Take::Read, Some(0)),
            (Take::Read, Some(0)),
            (Take::Read, Some(0)),
            (Take::Find("b"), Some(1)),
        ],
    },
    Reading {
        fails: &[2, 5],
        calls: &[
            (Take::Find("c"), Some(0)),
            (Take::Find("a"), Some(1)),
            (Take::Read, None),
            (Take::Read, Some(2)),
            (Take::Read, Some(2)),
            (Take::Read, None),
            (Take::Find("b"), Some(1)),
        ],
    },
    Reading {
        fails: &[4, 6],
        calls: &[
            (Take::Find("c"), Some(0)),
            (Take::Find("a"), Some(1)),
            (Take::Read, Some(2)),
            (Take::Read, Some(2)),
            (Take::Read, None),
            (Take::Read, Some(1)),
            (Take::Find("b"), None),
        ],
    },
];

const WRITINGS: &[Writing] = &[
    Writing {
        fails: &[],
        calls: &[
            (Give::Write(b"abcd"), Some(3)),
            (Give::Write(b"abcd"), Some(2)),
            (Give::Write(b"abcd"), None),
            (Give::Flush, Some(0)),
            (Give::Write(b""), Some(0)),
        ],
        taken: "abcab",
        flushed: 5,
    },
    Writing {
        fails: &[0],
        calls: &[
            (Give::Write(b"abcd"), None),
            (Give::Write(b"abcd"), Some(3)),
            (Give::Write(b"abcd"), Some(2)),
            (Give::Flush, Some(0)),
            (Give::Write(b""), Some(0)),
        ],
        taken: "abcab",
        flushed: 5,
    },
    Writing {
        fails: &[1, 2],
        calls: &[
            (Give::Write(b"abcd"), Some(3)),
            (Give::Write(b"abcd"), None),
            (Give::Write(b"abcd"), None),
            (Give::Flush, Some(0)),
            (Give::Write(b""), Some(0)),
        ],
        taken: "abc",
        flushed: 3,
    },
    Writing {
        fails: &[3],
        calls: &[
            (Give::Write(b"abcd"), Some(3)),
            (Give::Write(b"abcd"), Some(2)),
            (Give::Write(b"abcd"), None),
            (Give::Flush, None),
            (Give::Write(b""), Some(0)),
        ],
        taken: "abcab",
        flushed: 0,
    },
    Writing {
        fails: &[4],
        calls: &[
            (Give::Write(b"abcd"), Some(3)),
            (Give::Write(b"abcd"), Some(2)),
            (Give::Write(b"abcd"), None),
            (Give::Flush, Some(0)),
            (Give::Write(b""), None),
        ],
        taken: "abcab",
        flushed: 5,
    },
];

const PIECES: &[WriteCase] = &[
    WriteCase {
        fails: &[],
        is_written: true,
        taken: "abcdefg",
    },
    WriteCase {
        fails: &[0],
        is_written: false,
        taken: "",
    },
    WriteCase {
        fails: &[2],
        is_written: false,
        taken: "abcdef",
    },
];

/// Calls on a file that contains `abc`, with a buffer of four bytes.
const OF_A_FILE: Takes = &[
    (Take::Read, Some(0)),
    (Take::Find("no_such_file.txt"), None),
    (Take::Find("a_file_to_read.txt"), Some(1)),
    (Take::Read, Some(3)),
    (Take::Read, Some(0)),
];

const TO_OUT: Gives = &[
    (Give::Write(b""), Some(0)),
    (Give::Write(b"out\n"), Some(4)),
    (Give::Flush, Some(0)),
];

const TO_ERR: Gives = &[(Give::Write(b"err\n"), Some(4)), (Give::Flush, Some(0))];

/// The result of a call of a source.
fn source_result<S: Source>(source: &mut S, call: Take, buf: &mut [u8]) -> Option<usize> {
    match call {
        Take::Find(name) => match source.find(name) {
            Ok(is_there) => Some(usize::from(is_there)),
            Err(_) => None,
        },
        Take::Read => source.read(buf).ok(),
    }
}

/// Whether the calls of a source have the expected results.
fn takes<S: Source>(source: &mut S, calls: &[(Take, Option<usize>)], buf: &mut [u8]) -> bool {
    for (call, answer) in calls {
        if source_result(source, *call, buf) != *answer {
            return false;
        }
    }
    true
}

/// The result of a call of a sink.
fn sink_result<K: Sink>(sink: &mut K, call: Give) -> Option<usize> {
    match call {
        Give::Write(piece) => sink.write(piece).ok(),
        Give::Flush => match sink.flush() {
            Ok(()) => Some(0),
            Err(_) => None,
        },
    }
}

/// Whether the calls of a sink have the expected results.
fn gives<K: Sink>(sink: &mut K, calls: &[(Give, Option<usize>)]) -> bool {
    for (call, answer) in calls {
        if sink_result(sink, *call) != *answer {
            return false;
        }
    }
    true
}

/// A source with three files, two of which have the same name, that returns at most two bytes for each read.
fn source_of(alloc: Global, fails: &[u32]) -> Result<MemSource, AllocError> {
    let mut files = Vec::new(alloc);
    for (name, bytes) in [("a", b"abcde".as_slice()), ("b", b"x"), ("a", b"zz")] {
        files.push((String::from_str(alloc, name)?, bytes.to_vec(alloc)?))?;
    }
    Ok(MemSource::new(files, 2, fails.to_vec(alloc)?))
}

/// A sink that accepts at most three bytes for each write, and at most `room` in all.
fn sink_of(alloc: Global, room: usize, fails: &[u32]) -> Result<MemSink, Fail> {
    Ok(MemSink::new(alloc, 3, room, fails.to_vec(alloc)?)?)
}

fn has_taken(sink: &MemSink, text: &str) -> bool {
    sink.bytes() == text.as_bytes()
}

#[test]
fn reads_in_memory(rt: HostRuntime) -> Result<(), Fail> {
    for row in READINGS {
        let mut source = source_of(rt.alloc(), row.fails)?;
        let holds = takes(&mut source, row.calls, &mut [0u8; 4]);
        assert!(rt; holds, "{:?}", row.fails);
    }
    Ok(())
}

#[test]
fn writes_in_memory(rt: HostRuntime) -> Result<(), Fail> {
    for row in WRITINGS {
        let mut sink = sink_of(rt.alloc(), 5, row.fails)?;
        let holds = gives(&mut sink, row.calls)
            && has_taken(&sink, row.taken)
            && sink.flushed() == row.flushed;
        assert!(rt; holds, "{:?}", row.fails);
    }
    Ok(())
}

fn is_written(sink: &mut MemSink) -> bool {
    write_piece(sink, b"abcdefg").is_ok()
}

#[test]
fn writes_whole_pieces(rt: HostRuntime) -> Result<(), Fail> {
    for row in PIECES {
        let mut sink = sink_of(rt.alloc(), 9, row.fails)?;
        let is_written = is_written(&mut sink);
        let holds = is_written == row.is_written && has_taken(&sink, row.taken);
        assert!(rt; holds, "{:?}", row.fails);
    }
    Ok(())
}

/// Whether the calls have the expected results and the buffer keeps the bytes of the last successful read.
fn file_is_read(rt: &HostRuntime) -> bool {
    let mut buf = [0u8; 4];
    let mut source = FileSource::new(rt);
    takes(&mut source, OF_A_FILE, &mut buf) && buf == *b"abc\0"
}

#[test]
fn reads_a_file(rt: HostRuntime) -> Result<(), Fail> {
    fs::write(&rt, "a_file_to_read.txt", "abc")?;
    let is_read = file_is_read(&rt);
    fs::remove_file(&rt, "a_file_to_read.txt")?;
    assert!(rt; is_read);
    Ok(())
}

#[test]
fn writes_to_streams(rt: HostRuntime) {
    let out = gives(&mut StdSink::out(&rt), TO_OUT);
    assert!(rt; out);
    let err = gives(&mut StdSink::err(&rt), TO_ERR);
    assert!(rt; err);
}

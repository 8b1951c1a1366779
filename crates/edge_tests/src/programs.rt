use child_link::{Feed, Link, PipeFeed, PipeLink};
use outside::{Source, write_all};
use process_runner::{ProcessSpawner, SpawnFault, Spawned, Spawner};
use scm_text::{Items, OutOfMemory, Text};
use std::alloc::Global;

/// Words that are parted by `|`.
fn words_of(alloc: Global, line: &str) -> Result<Items<Text>, OutOfMemory> {
    let mut words = Items::new(alloc);
    for word in line.split('|') {
        if words.push(Text::from_str(alloc, word)?).is_err() {
            return Err(OutOfMemory);
        }
    }
    Ok(words)
}

/// What a source gives, up to its end.
fn read_all<S: Source>(alloc: Global, source: &mut S) -> Option<Vec<u8>> {
    let mut bytes = Vec::new(alloc);
    let mut room = [0; 64];
    for _ in 0..64 {
        let count = source.read(&mut room).ok()?;
        if count == 0 {
            break;
        }
        bytes.extend_from_slice(&room[..count]).ok()?;
    }
    Some(bytes)
}

/// Writes a text to a child's input and ends it, reads what the child writes, and waits for its
/// end.
fn talk(alloc: Global, child: Spawned<PipeLink, PipeFeed>, text: &str) -> Option<Vec<u8>> {
    let Spawned { mut link, mut feed } = child;
    let is_written = write_all(&mut feed, text.as_bytes()).is_ok();
    let past = feed.end();
    let bytes = read_all(alloc, &mut link);
    let has_ended = link.wait().is_ok();
    drop(link);
    if is_written && past.faults == 0 && has_ended {
        bytes
    } else {
        drop(bytes);
        None
    }
}

/// Starts a program with its words.
fn start<P: Spawner<Link = PipeLink, Feed = PipeFeed>>(
    alloc: Global,
    spawner: &mut P,
    line: &str,
) -> Result<Spawned<PipeLink, PipeFeed>, SpawnFault> {
    let Ok(words) = words_of(alloc, line) else {
        return Err(SpawnFault::Other);
    };
    let child = spawner.start(&words);
    drop(words);
    child
}

/// What a program that is started writes when it reads a text.
fn told<P: Spawner<Link = PipeLink, Feed = PipeFeed>>(
    alloc: Global,
    spawner: &mut P,
    line: &str,
    text: &str,
) -> Option<Vec<u8>> {
    match start(alloc, spawner, line) {
        Ok(child) => talk(alloc, child, text),
        Err(_) => None,
    }
}

/// Whether some bytes are this text.
fn is_text(bytes: &Option<Vec<u8>>, text: &str) -> bool {
    match bytes {
        Some(bytes) => bytes.as_slice() == text.as_bytes(),
        None => false,
    }
}

#[test]
fn a_program_is_started_with_its_words_and_both_pipes(rt: HostRuntime) {
    let rows = [
        ("/bin/echo|STATUS 16|4", "", "STATUS 16 4\n"),
        (
            "/bin/cat",
            "CONTROL 1\nCONTROL 2\n",
            "CONTROL 1\nCONTROL 2\n",
        ),
        (
            "/bin/sh|-c|read word rest; echo $rest $1|sh|more",
            "a b c\n",
            "b c more\n",
        ),
    ];
    let mut spawner = ProcessSpawner::new(&rt, rt.alloc());
    for (line, text, want) in rows {
        let told = told(rt.alloc(), &mut spawner, line, text);
        let is_wanted = is_text(&told, want);
        drop(told);
        assert!(rt; is_wanted, "at {line}");
    }
}

#[test]
fn a_program_that_cannot_be_started_has_its_fault(rt: HostRuntime) {
    let rows = [
        ("/no/such/program", SpawnFault::NotFound),
        ("/etc/passwd/program", SpawnFault::NoPath),
        ("/etc/passwd", SpawnFault::Denied),
    ];
    let mut spawner = ProcessSpawner::new(&rt, rt.alloc());
    for (line, want) in rows {
        let fault = start(rt.alloc(), &mut spawner, line).err();
        assert!(rt; fault == Some(want), "at {line}");
    }
}

/// The descriptors that a program finds open.
fn descriptors<P: Spawner<Link = PipeLink, Feed = PipeFeed>>(
    alloc: Global,
    spawner: &mut P,
) -> Option<Vec<u8>> {
    told(alloc, spawner, "/bin/sh|-c|ls /proc/self/fd", "")
}

/// The same beside a program that goes on.
fn beside<P: Spawner<Link = PipeLink, Feed = PipeFeed>>(
    alloc: Global,
    spawner: &mut P,
) -> Option<Vec<u8>> {
    let Ok(other) = start(alloc, spawner, "/bin/cat") else {
        return None;
    };
    let found = descriptors(alloc, spawner);
    let told = talk(alloc, other, "still here");
    let goes_on = is_text(&told, "still here");
    drop(told);
    if goes_on {
        found
    } else {
        drop(found);
        None
    }
}

/// Whether both are there and alike.
fn are_alike(one: &Option<Vec<u8>>, other: &Option<Vec<u8>>) -> bool {
    match (one, other) {
        (Some(one), Some(other)) => one.as_slice() == other.as_slice(),
        _ => false,
    }
}

#[test]
fn a_program_gets_no_pipe_of_another(rt: HostRuntime) {
    let mut spawner = ProcessSpawner::new(&rt, rt.alloc());
    let alone = descriptors(rt.alloc(), &mut spawner);
    let beside = beside(rt.alloc(), &mut spawner);
    let alike = are_alike(&alone, &beside);
    drop(alone);
    drop(beside);
    assert!(rt; alike);
}

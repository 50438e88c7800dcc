//! Scripts as rows: lines with the replies that are wanted.
use rr_script::serve_alone;
use std::alloc::{AllocError, Global};

/// Two clients, one server, two loaned and two active requests, two queued and one borrowed response; a client and a
/// server.
pub(super) const PORTS: &str = "\
hub typed 2 1 2 2 2 1 - 1 1 -> done
client discard 1 static - -> created 0
server discard 1 static - 1 -> created 1
";

/// The same without a server.
pub(super) const CLIENT: &str = "\
hub typed 2 1 2 2 2 1 - 1 1 -> done
client discard 1 static - -> created 0
";

/// The same without ports.
pub(super) const HUB: &str = "hub typed 2 1 2 2 2 1 - 1 1 -> done\n";

/// A request with an answer.
pub(super) const BASE_PATH: &str = "\
copy 0 123 -> pending 2 1
recv 1 -> active 3 2
data 3 -> data 123
copy 3 456 -> sent 4
recv 2 -> response 4
data 4 -> data 456
recv 2 -> none
";

/// A script: a name, the lines that it begins with, and its further ones, each as `command -> reply`.
#[derive(Clone, Copy)]
pub(super) struct Row {
    pub(super) name: &'static str,
    pub(super) start: &'static str,
    pub(super) lines: &'static str,
}

/// Lines as they are read, and the replies that are wanted.
#[derive(Drop)]
pub(super) struct Story {
    pub(super) input: String,
    pub(super) wanted: String,
}

/// The story of lines as `command -> reply`. A line without a reply is one that isn't answered.
pub(super) fn told(alloc: Global, start: &str, lines: &str) -> Result<Story, AllocError> {
    let mut story = Story {
        input: String::new(alloc),
        wanted: String::new(alloc),
    };
    for line in start.lines().chain(lines.lines()) {
        tell(&mut story, line)?;
    }
    Ok(story)
}

/// Adds a line to a story.
fn tell(story: &mut Story, line: &str) -> Result<(), AllocError> {
    match line.split_once(" -> ") {
        Some((command, reply)) => {
            story.input.push_str(command)?;
            story.wanted.push_str(reply)?;
            story.wanted.push('\n')?;
        }
        None => story.input.push_str(line)?,
    }
    story.input.push('\n')
}

/// The words after the program's name, of a line in which one space parts them.
pub(super) fn words(alloc: Global, line: &str) -> Result<Vec<String>, AllocError> {
    let mut words = Vec::new(alloc);
    for word in line.split(' ') {
        words.push(String::from_str(alloc, word)?)?;
    }
    Ok(words)
}

/// The status and the output of a program.
#[derive(Drop)]
pub(super) struct Ended {
    pub(super) status: u8,
    pub(super) output: Vec<u8>,
    pub(super) fault: Vec<u8>,
}

/// Hands an input to the program, with the words of a line after its name.
pub(super) fn served(alloc: Global, line: &str, input: &[u8]) -> Result<Ended, AllocError> {
    let words = words(alloc, line)?;
    let mut output = Vec::new(alloc);
    let mut fault = Vec::new(alloc);
    let status = serve_alone(alloc, words.as_slice(), input, &mut output, &mut fault);
    Ok(Ended {
        status,
        output,
        fault,
    })
}

/// Returns whether a script's replies are those of its lines, and it ends with this status and fault.
pub(super) fn ends(alloc: Global, row: &Row, status: u8, fault: &str) -> Result<bool, AllocError> {
    let story = told(alloc, row.start, row.lines)?;
    let ended = served(alloc, "script", story.input.as_bytes())?;
    Ok(
        ended.status == status
            && ended.output.as_slice() == story.wanted.as_bytes()
            && ended.fault.as_slice() == fault.as_bytes(),
    )
}

/// Plays scripts. Returns the name of the first whose replies are not those of its lines, or that does not end well.
pub(super) fn failing(alloc: Global, rows: &[Row]) -> Result<Option<&'static str>, AllocError> {
    for row in rows {
        if !ends(alloc, row, 0, "")? {
            return Ok(Some(row.name));
        }
    }
    Ok(None)
}

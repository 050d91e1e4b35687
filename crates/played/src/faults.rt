// The faults that a script can have, and scripts next to them that have none.
use crate::scripts::{ROOM, listing_of};
use std::fmt;

const CASES: [(&str, &str); 24] = [
    ("no header line", "# nothing\n\n"),
    ("a header that no line feed ends", "dfn 2 2"),
    ("a letter that names no container", "xfn 2 2\n"),
    ("a line that is not of a form", "dfn 2 2\n1 + 17 \n"),
    ("eleven digits", "dfn 2 2\n1 + 12345678901\n"),
    ("a number out of range", "dfn 2 2\n1 + 2147483648\n"),
    ("the largest number", "dfn 2 2\n1 + 2147483647\n"),
    ("no steps", "dfn 2 2\n1 s\n1 . 0\n"),
    ("a thousand steps", "dfn 2 2\n1 s\n1 . 1000\n"),
    ("rounded to 512", "dfp 2 2\n1 + 0,0,511.5\n"),
    ("rounded to 511", "dfp 2 2\n1 + 0,0,511.4\n"),
    ("halves away from zero", "dfp 2 2\n1 + 1.5,-1.5,0\n"),
    ("minus 512 and a half", "dfp 2 2\n1 + -512.5,0,0\n"),
    ("capacity 64", "dfn 64 1\n"),
    ("capacity 65", "dfn 65 1\n"),
    ("capacity 0", "gbn 0 1\n"),
    ("9 threads", "dfn 64 9\n"),
    ("thread 3 of 2", "dfn 2 2\n3 s\n"),
    ("thread 0", "dfn 2 2\n0 . 1\n"),
    ("a second operation", "dfn 2 2\n1 s\n1 -\n"),
    ("an index at the capacity", "dfn 2 2\n1 r 2\n"),
    ("a step past the end", "dfn 2 2\n1 s\n1 . 3\n"),
    ("a step of nothing", "dfn 2 2\n\n# a\n1 . 1\n"),
    ("the call's fault before the form's", "dfn 2 2\n1 . 1\nx\n"),
];

// What is played. No text made for it: that could lack memory.
#[derive(Drop)]
enum Title {
    Case(&'static str),
    Long(usize),
    Room(usize),
}

impl fmt::Display for Title {
    fn fmt<W: fmt::Write>(&self, f: &mut fmt::Formatter<W>) -> fmt::Result {
        match self {
            Title::Case(text) => write!(f, "{text}"),
            Title::Long(count) => write!(f, "a script of {count} bytes"),
            Title::Room(room) => write!(f, "15 bytes for an output of {room}"),
        }
    }
}

// What comes of a script whose output has so many bytes.
fn show_fate(rt: &HostRuntime, title: Title, script: &[u8], room: usize) -> anyhow::Result<()> {
    let heap = rt.alloc();
    match listing_of(heap, script, Vec::from_elem(heap, 0u8, room)?)? {
        Ok(listing) => println!(rt; "  {title}: {} bytes listed", listing.len())?,
        Err(fault) => println!(rt; "  {title}: {fault}")?,
    }
    Ok(())
}

// A script of a header and empty lines, of so many bytes.
fn show_long(rt: &HostRuntime, count: usize) -> anyhow::Result<()> {
    let mut script = Vec::with_capacity(rt.alloc(), count)?;
    script.extend_from_slice(b"dfn 2 2\n")?;
    script.resize(count, b'\n')?;
    show_fate(rt, Title::Long(count), script.as_slice(), ROOM)
}

// The listing of one push is 15 bytes.
fn show_room(rt: &HostRuntime, room: usize) -> anyhow::Result<()> {
    show_fate(rt, Title::Room(room), b"dfn 2 2\n1 + 17\n", room)
}

pub fn play_faults(rt: &HostRuntime) -> anyhow::Result<()> {
    println!(rt; "faults")?;
    for (title, script) in CASES {
        show_fate(rt, Title::Case(title), script.as_bytes(), ROOM)?;
    }
    show_long(rt, 16384)?;
    show_long(rt, 16385)?;
    show_room(rt, 15)?;
    show_room(rt, 14)
}

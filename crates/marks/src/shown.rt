// A file marked by the library and by the second marker, and what both answer.
use crate::bodies::Body;
use crate::second;
use crate::trees::Tree;
use fault::Fault;
use marker::mark;
use plan::Plan;
use std::alloc::{AllocError, Global};
use std::io;

// A marked file with zeros behind it, and its length.
type Marked = (Vec<u8>, usize);

// One byte more than the longest file in form.
const LONGEST: usize = 442;

// What the two markers answer: the marked file, or why it is refused.
#[derive(Drop)]
pub struct Answers {
    pub first: Result<Marked, Fault>,
    pub second: Result<Marked, Fault>,
}

// Writes the file of the plan that the library's marker makes.
fn mark_into(file: &[u8], buffer: &mut [u8]) -> Result<usize, Fault> {
    let mut place = Plan::new();
    mark(file, &mut place)?;
    place.write(buffer)
}

// By the library's marker, into a buffer of zeros.
fn first(heap: Global, file: &[u8]) -> Result<Result<Marked, Fault>, AllocError> {
    let mut bytes = vec![in heap; 0; LONGEST]?;
    let length = mark_into(file, bytes.as_mut_slice());
    Ok(length.map(|length| (bytes, length)))
}

// By the second marker, in a copy of the file.
fn second(heap: Global, file: &[u8]) -> Result<Result<Marked, Fault>, AllocError> {
    let mut bytes = Vec::from_slice(heap, file)?;
    let length = second::mark(bytes.as_mut_slice());
    bytes.resize(LONGEST, 0)?;
    Ok(length.map(|length| (bytes, length)))
}

impl Answers {
    pub fn of(heap: Global, file: &[u8]) -> Result<Answers, AllocError> {
        Ok(Answers {
            first: first(heap, file)?,
            second: second(heap, file)?,
        })
    }

    // Whether they are the same file, byte for byte, with nothing written behind it, or the same refusal.
    pub fn agree(&self) -> bool {
        self.first == self.second
    }
}

// The line of the tree that serves the house.
fn server(body: Body<'_>, tree: Tree, house: usize) -> Option<usize> {
    body.lines.iter().position(|line| {
        let [_, _, marks] = *line;
        let (own, _) = tree.ends(*line);
        marks & tree.mark() != 0 && own == house
    })
}

// Prints the line of the tree that serves each house, from the head on.
fn print_servers(rt: &HostRuntime, name: &str, body: Body<'_>, tree: Tree) -> io::Result<()> {
    print!(rt; "    {name}")?;
    for house in 0..body.counters.len() {
        match server(body, tree, house) {
            Some(line) => print!(rt; " {line}")?,
            None => print!(rt; " -")?,
        }
    }
    println!(rt; "")
}

fn print_counters(rt: &HostRuntime, body: Body<'_>) -> io::Result<()> {
    print!(rt; "    counters")?;
    for counter in body.counters {
        print!(rt; " {counter}")?;
    }
    println!(rt; "")
}

// Prints what the library answers, and whether the second marker agrees.
pub fn print_marked(rt: &HostRuntime, name: &str, file: &[u8]) -> io::Result<()> {
    let answers = Answers::of(rt.alloc(), file)?;
    let agree = answers.agree();
    match &answers.first {
        Err(fault) => println!(rt; "{name}: {fault}, markers agree: {agree}"),
        Ok((bytes, length)) => {
            println!(rt; "{name}: ok, markers agree: {agree}")?;
            let body = Body::of(bytes.get(..*length).unwrap_or(&[]));
            print_servers(rt, "direct", body, Tree::Direct)?;
            print_servers(rt, "back", body, Tree::Back)?;
            print_counters(rt, body)
        }
    }
}

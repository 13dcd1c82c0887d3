// A second marker, written apart from the library's and by another method: it tries every line n times in a table of
// distances, lowering what it finds too high, and marks the bytes of the file. The form is left to the reader of form.
use crate::bodies::Body;
use crate::trees::Tree;
use fault::Fault;
use plan::Draft;

// For each house how many lines it is away from the head, if anything reaches it.
type Distances = [Option<usize>; 48];

// For each house the line that leads it one step nearer.
type Servers = [Option<usize>; 48];

fn distance(table: &Distances, house: usize) -> Option<usize> {
    table.get(house).copied().flatten()
}

// Lowers the distance of the house that the line would serve to one more than that of the house beyond.
fn relax(table: &mut Distances, (own, beyond): (usize, usize)) {
    let Some(steps) = distance(table, beyond) else {
        return;
    };
    let found = steps.saturating_add(1);
    if let Some(known) = table.get_mut(own)
        && known.is_none_or(|least| found < least)
    {
        *known = Some(found);
    }
}

fn relax_all(table: &mut Distances, lines: &[[u8; 3]], tree: Tree) {
    for line in lines {
        relax(table, tree.ends(*line));
    }
}

fn distances(body: Body<'_>, tree: Tree) -> Distances {
    let mut table = [None; 48];
    table[0] = Some(0);
    for _ in body.counters {
        relax_all(&mut table, body.lines, tree);
    }
    table
}

// The lowest line that leads the house one step nearer.
fn server(lines: &[[u8; 3]], tree: Tree, table: &Distances, house: usize) -> Option<usize> {
    let due = distance(table, house);
    lines.iter().position(|line| {
        let (own, beyond) = tree.ends(*line);
        own == house && distance(table, beyond).map(|steps| steps.saturating_add(1)) == due
    })
}

// For each house but the head the line that leads it one step nearer. Refuses the lowest house that has no way.
fn servers(body: Body<'_>, tree: Tree) -> Result<Servers, Fault> {
    let table = distances(body, tree);
    let mut servers = [None; 48];
    let houses = servers.iter_mut().enumerate().take(body.counters.len());
    for (house, found) in houses.skip(1) {
        if distance(&table, house).is_none() {
            return Err(Fault::new(tree.cause(), house));
        }
        *found = server(body.lines, tree, &table, house);
    }
    Ok(servers)
}

// What the tree adds to the marks of the line.
fn mark_of(servers: &Servers, tree: Tree, line: usize) -> u8 {
    if servers.contains(&Some(line)) {
        tree.mark()
    } else {
        0
    }
}

// For each house how many of the back lines enter it.
fn counters(lines: &[[u8; 3]], back: &Servers) -> [u8; 48] {
    let mut counters = [0u8; 48];
    for (number, line) in lines.iter().enumerate() {
        let (_, beyond) = Tree::Back.ends(*line);
        if let Some(counter) = counters.get_mut(beyond)
            && back.contains(&Some(number))
        {
            *counter = counter.saturating_add(1);
        }
    }
    counters
}

// The first byte of a line's record.
fn record(line: usize) -> usize {
    line.saturating_mul(3).saturating_add(9)
}

fn write_marks(file: &mut [u8], lines: usize, direct: &Servers, back: &Servers) {
    for (line, marks) in file.iter_mut().skip(11).step_by(3).take(lines).enumerate() {
        *marks = mark_of(direct, Tree::Direct, line) | mark_of(back, Tree::Back, line);
    }
}

fn write_counters(file: &mut [u8], lines: usize, counters: &[u8]) {
    for (byte, counter) in file.iter_mut().skip(record(lines)).zip(counters) {
        *byte = *counter;
    }
}

// Marks the file anew, and gives its length, or refuses it and leaves it as it was.
pub fn mark(file: &mut [u8]) -> Result<usize, Fault> {
    let _ = Draft::read(file)?;
    let body = Body::of(file);
    let lines = body.lines.len();
    let direct = servers(body, Tree::Direct)?;
    let back = servers(body, Tree::Back)?;
    let counters = counters(body.lines, &back);
    write_marks(file, lines, &direct, &back);
    write_counters(file, lines, &counters);
    Ok(file.len())
}

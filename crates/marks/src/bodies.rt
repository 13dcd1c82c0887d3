const HEADER: usize = 9;

// A file in form behind its header: three bytes for each line, and a counter for each house.
#[derive(Clone, Copy)]
pub struct Body<'a> {
    pub lines: &'a [[u8; 3]],
    pub counters: &'a [u8],
}

impl<'a> Body<'a> {
    pub fn of(file: &'a [u8]) -> Body<'a> {
        let lines = usize::from(file.get(7).copied().unwrap_or(0));
        let rest = file.get(HEADER..).unwrap_or(&[]);
        let (records, counters) = rest.split_at(rest.len().min(3 * lines));
        let (lines, _) = records.as_chunks::<3>();
        Body { lines, counters }
    }
}

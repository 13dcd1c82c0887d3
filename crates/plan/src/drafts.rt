ghost use Rattle.std.specs.Prelude.{◌≡◌, ℕ, ◌<◌, ◌≤◌, length, slice_index, slice_index_or};
ghost use Rattle.lines.specs.Lines.{blank, InForm};

use lines::Line;

// A plan in form whose marks and counters nobody has judged: n houses, m lines, the capacity k, a record for each
// line and a counter for each house. What lies beyond the lines and the houses is blank.
#[derive(Clone, Copy)]
pub struct Draft {
    pub houses: usize,
    pub lines: usize,
    pub capacity: usize,
    pub records: [Line; 128],
    pub counters: [u8; 48],
    ghost size: { (1 ≤ houses) × (houses ≤ 48) × (lines ≤ 128) × (1 ≤ capacity) × (capacity ≤ 4) },
    ghost tables: { (length records ≡ 128) × (length counters ≡ 48) },
    ghost form: { (i : ℕ) → i < lines → InForm houses (slice_index_or records i blank) },
    ghost bytes: { (h : ℕ) → slice_index counters h < 256 },
    ghost spare: { (i : ℕ) → lines ≤ i → slice_index_or records i blank ≡ blank },
    ghost rest: { (h : ℕ) → houses ≤ h → slice_index counters h ≡ 0 },
}

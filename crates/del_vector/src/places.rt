ghost use Rattle.std.specs.Prelude.{◌≡◌, ◌==◌, ◌<◌, ◌≤◌, length};
ghost use Rattle.std.specs.List.{AllWithin, list_any};
ghost use Rattle.rowsets.specs.Marks.{Rises};

// The first place of a rising list that isn't below a row.
fn place_of(rows: &[u16], row: u16) -> usize
    requires { Rises rows.now }
    ensures within { result ≤ length rows.now }
    ensures before { AllWithin (λ r. r < row) rows.now 0 result }
    ensures behind { AllWithin (λ r. row ≤ r) rows.now result (length rows.now) }
{
    let mut low = 0;
    let mut high = rows.len();
    while low < high {
        let middle = low + (high - low) / 2;
        if rows[middle] < row {
            low = middle + 1;
        } else {
            high = middle;
        }
    }
    low
}

/// Whether a row is one of a rising list, by a binary search.
pub fn is_one_of(rows: &[u16], row: u16) -> bool
    requires { Rises rows.now }
    ensures { result ≡ list_any (λ r. r == row) rows.now }
{
    let place = place_of(rows, row);
    place < rows.len() && rows[place] == row
}

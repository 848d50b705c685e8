// The rows of a table: the one place that knows how many numbers a row has and what each of them is.
#![tactic(auto)]

ghost use Rattle.std.specs.Prelude.{◌≡◌, ◌<◌, length};
ghost use Rattle.rows.specs.Rows.{rows_of, row_at};

// The numbers of a row.
pub const ROW_WIDTH: usize = 5;

// A piece: so many letters from left_a on of A and from left_b on of B, under a match; direction 1 is reversed.
#[derive(Clone, Copy)]
pub struct Row {
    pub number: u32,
    pub left_a: u32,
    pub left_b: u32,
    pub length: u32,
    pub direction: u32,
}

// How many rows the table has. Up to four numbers at its end that form no row are ignored.
#[tactic(auto, using(crate::proofs::TableRows::reading))]
pub fn row_count(table: &[u32]) -> usize
    ensures { result ≡ length (rows_of table.now) }
{
    table.len() / ROW_WIDTH
}

#[tactic(auto, using(crate::proofs::TableRows::reading))]
pub fn row_at(table: &[u32], k: usize) -> Row
    requires { k < length (rows_of table.now) }
    ensures { result ≡ row_at (rows_of table.now) k }
{
    let at = k * ROW_WIDTH;
    Row {
        number: table[at],
        left_a: table[at + 1],
        left_b: table[at + 2],
        length: table[at + 3],
        direction: table[at + 4],
    }
}

// An index of the matches by their ends on one side, as it stands in a lent slice: the layout. It serves speed alone.
// First the numbers of the matches, arranged by their left ends. Then, in this order, the left ends and the right ends:
// those that are looked through stand together. Above the right ends stand levels: each has the furthest of each 16
// numbers, a block, of the one below it, until a level is one block.
#![tactic(auto)]

ghost use Rattle.std.specs.Prelude.{◌≡◌, ◌+◌, ◌*◌, ◌^◌, ◌<◌};
ghost use Rattle.arrangement.specs.Index.{blocks_of, block_start};

// So many numbers are a block. Blocks of 8 take as long, and more places above them; blocks of 32 take longer.
pub const BLOCK: usize = 16;

// How many blocks so many numbers have: the last one may be short.
pub fn blocks_of(count: usize) -> usize
    requires { count + 15 < 2 ^ 64 }
    ensures { result ≡ blocks_of count }
{
    count.div_ceil(BLOCK)
}

// Where block b of so many numbers begins, or they end.
pub fn block_start(b: usize, count: usize) -> usize
    requires { b * 16 < 2 ^ 64 }
    ensures { result ≡ block_start b count }
{
    (b * BLOCK).min(count)
}

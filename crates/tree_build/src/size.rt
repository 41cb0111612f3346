// How large a batch is, and its tree.
ghost use Rattle.std.specs.Prelude.{◌≡◌, ◌*◌, ◌≤◌, ◌<◌, ◌^◌};
ghost use Rattle.tree.specs.Tree.{depth_of};
ghost use Rattle.tree_build.specs.AllRows.{nodes_of};
ghost use Rattle.tree_build.specs.Leaves.{most, count_of, rows_length, held_of};

use tree::bit_length;

// The most leaves of a batch: a power of two. The definitions' `most` goes with it.
pub const MOST: usize = 1024;

// How many leaves size bytes are: 0 where they are not 1 to MOST whole leaves.
pub fn count_of(size: usize) -> usize
    ensures { (result ≡ count_of size) × (result ≤ most) × (32 * result ≤ size) }
{
    if size % 32 != 0 {
        return 0;
    }
    if MOST < size / 32 {
        return 0;
    }
    size / 32
}

// The least d with 2^d at least count: the bits that the last place needs.
pub fn depth(count: usize) -> u32
    requires { (0 < count) × (count ≤ most) }
    ensures { (result ≡ depth_of count) × (2 ^ result ≤ most) × (count ≤ 2 ^ result) }
{
    bit_length((count - 1) as u32)
}

// How many leaves a tree of depth d has place for.
pub fn width(d: u32) -> usize
    requires { 2 ^ d ≤ most }
    ensures { result ≡ 2 ^ d }
{
    1 << d
}

// How many bytes all nodes of a tree of depth d take.
pub fn bytes(d: u32) -> usize
    requires { 2 ^ d ≤ most }
    ensures { result ≡ 32 * nodes_of d }
{
    32 * (2 * width(d) - 1)
}

// How many bytes the rows of a tree take whose leaves have size bytes: 0 where these are no leaves.
pub fn rows_length(size: usize) -> usize
    ensures { result ≡ rows_length size }
{
    let count = count_of(size);
    if count == 0 {
        return 0;
    }
    bytes(depth(count))
}

// Of how many leaves size bytes are the rows, where count is asked for: of count, or of 0 where that is above MOST or
// the bytes are too few.
pub fn held_of(size: usize, count: usize) -> usize
    ensures { (result ≡ held_of size count) × (result ≤ most) }
{
    if count == 0 {
        return 0;
    }
    if MOST < count {
        return 0;
    }
    if size < bytes(depth(count)) {
        return 0;
    }
    count
}

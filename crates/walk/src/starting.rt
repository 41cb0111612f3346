// The start of a walk: 31, 19, or a walk at its first step.
ghost use Rattle.std.specs.Prelude.{◌≡◌, ◌+◌, ◌*◌, ◌<◌, ◌≤◌, length};
ghost use Rattle.laws.specs.Same.{same};
ghost use Rattle.refusal.specs.Refusal.{passes};
ghost use Rattle.walk.specs.State.{key_at};
ghost use Rattle.walk.specs.Starting.{met_before, twice, keys_bad, start_code, begun_walk, started_of};

use super::Walk;
use octets::{equal, put};
use pile::RECORD;
use refusal::{Refusal, codes, refuse};

// A walk over the servers with these keys, 32 bytes each, from this nonce on. The buffer is for two records a server.
// It is lent to be read: nothing is written yet.
pub fn start<'a>(
    keys: &'a [u8],
    nonce: [u8; 32],
    most: u64,
    pile: &'a [u8],
) -> Result<Walk, Refusal>
    ensures { result ≡ started_of keys.now nonce most (length pile.now) }
{
    start_code(keys, pile.len())?;
    Ok(begun(keys, nonce, most))
}

// 31, then 19.
fn start_code(keys: &[u8], room: usize) -> Result<(), Refusal>
    ensures { result ≡ passes (start_code keys.now room) }
{
    if keys_bad(keys) {
        return Err(refuse(codes::WALK_SERVERS));
    }
    if room < 2 * RECORD * (keys.len() / 32) {
        return Err(refuse(codes::ROOM));
    }
    Ok(())
}

// The keys are not 3 to 8 whole ones, or one stands there twice.
#[tactic(auto, unfolding(crate::specs::Starting::keys_bad, laws::specs::Any::any))]
fn keys_bad(keys: &[u8]) -> bool
    ensures { result ≡ keys_bad keys.now }
{
    let n = keys.len() / 32;
    keys.len() % 32 != 0 || n < 3 || 8 < n || any_twice(keys, n)
}

// One of the first n keys is one of those before it.
fn any_twice(keys: &[u8], n: usize) -> bool
    requires { 32 * n ≤ length keys.now }
    ensures { result ≡ twice keys.now n }
{
    (0..n).any(|j| met_before(keys, j))
}

// Key j is one of those before it.
fn met_before(keys: &[u8], j: usize) -> bool
    requires { 32 * j + 32 ≤ length keys.now }
    ensures { result ≡ met_before keys.now j }
{
    (0..j).any(|i| is_same(keys, i, j))
}

// Keys i and j are the same.
fn is_same(keys: &[u8], i: usize, j: usize) -> bool
    requires { (i < j) × (32 * j + 32 ≤ length keys.now) }
    ensures { result ≡ same (key_at keys.now i) (key_at keys.now j) }
{
    let a = 32 * i;
    let b = 32 * j;
    equal(&keys[a..a + 32], &keys[b..b + 32])
}

// The walk at its first step. The first rand is zero.
fn begun(keys: &[u8], nonce: [u8; 32], most: u64) -> Walk
    requires { length keys.now ≤ 256 }
    ensures { result ≡ begun_walk keys.now nonce most }
{
    let mut all = [0u8; 256];
    put(&mut all, 0, keys);
    Walk {
        keys: all,
        count: keys.len() / 32,
        step: 0,
        nonce: nonce,
        rand: [0u8; 32],
        last: 0,
        most: most,
    }
}

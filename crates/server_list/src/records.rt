// One list by its records.
ghost use Rattle.std.specs.Prelude.{◌≡◌, ◌+◌, ◌*◌, ◌<◌, ◌≤◌, length};
ghost use Rattle.laws.specs.Same.{same};
ghost use Rattle.server_list.specs.Lists.{server_at, server_count, serves_at};
ghost use Rattle.server_list.specs.Lookup.{first_in, offset_by};

use octets::{equal, le64};

// The bytes of a server's record: its key and its SRV value, 32 bytes each.
pub const SERVER: usize = 64;

// Whether two values are the same. Not by `==`: eight bytes are looked at together, the last first, since of values that
// were made to be nearly alike most differ there.
fn alike<'a>(a: &'a [u8], b: &'a [u8]) -> bool
    requires { length a.now ≡ 32 }
    ensures { result ≡ same a.now b.now }
{
    if b.len() != 32 {
        return false;
    }
    if le64(a, 24) != le64(b, 24) {
        return false;
    }
    if le64(a, 16) != le64(b, 16) {
        return false;
    }
    if le64(a, 8) != le64(b, 8) {
        return false;
    }
    equal(a, b)
}

// Whether record k of list has this SRV value.
fn serves_at<'a>(list: &'a [u8], srv: &'a [u8], k: usize) -> bool
    requires { k < server_count list.now }
    ensures { result ≡ serves_at srv.now list.now k }
{
    let one = record_of(list, k);
    // The first half of a record is its key.
    alike(&one[32..SERVER], srv)
}

// The number of the first record of list with this SRV value, or of all records where none has it: no Option, as in the
// definition `first_in`, whose number is compared with that of all.
pub fn index_in<'a>(list: &'a [u8], srv: &'a [u8]) -> usize
    ensures { result ≡ first_in list.now srv.now }
{
    let count = list.len() / SERVER;
    (0..count)
        .position(|k| serves_at(list, srv, k))
        .unwrap_or(count)
}

// Record k of list, as a part of it.
pub fn record_of(list: &[u8], k: usize) -> &[u8]
    requires { k * 64 + 64 ≤ length list.now }
    ensures result_value { result.now ≡ server_at list.now k }
    ensures ref_ptr_value { result.ref_ptr ≡ offset_by list.entry.ref_ptr (k * 64) }
{
    let at = k * SERVER;
    &list[at..at + SERVER]
}

// Words of four bytes, which the header of a message and the shorter values are.
ghost use Rattle.std.specs.Prelude.{◌≡◌, ◌+◌, ◌*◌, ◌≤◌, length};
ghost use Rattle.laws.specs.Pasted.{pasted};
ghost use Rattle.wire_message.specs.Encode.{words};

use octets::{le32_bytes, put};

// The numbers of ws, four bytes each and one after the other, from index at of dst on.
pub fn put_words(dst: &mut [u8], at: usize, ws: &[u32])
    requires { at + 4 * length ws.now ≤ length dst.old }
    ensures { dst.new ≡ pasted dst.old at (words ws.now) }
{
    for (i, word) in ws.iter().enumerate() {
        put(dst, at + 4 * i, &le32_bytes(*word));
    }
}

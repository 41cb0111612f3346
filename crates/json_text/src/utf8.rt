// The octets of a character (RFC 3629, section 3).
ghost use Rattle.std.specs.Prelude.{◌≡◌, ◌+◌, ◌≤◌, length};
ghost use Rattle.laws.specs.Pasted.{pasted};
ghost use Rattle.json_text.specs.Octets.{trailing, utf8};

use octets::put;

// How many octets a character has. By its number: a `char` would have to be made of it first, by a test that it is one.
pub fn size(c: u32) -> usize
    ensures { result ≡ length (utf8 c) }
{
    if c < 0x80 {
        return 1;
    }
    if c < 0x800 {
        return 2;
    }
    if c < 0x10000 { 3 } else { 4 }
}

fn tail(c: u32) -> u8
    ensures { result ≡ trailing c }
{
    (0x80 + c % 64) as u8
}

// The octets of c, at n. By hand, as `size` is.
pub fn put_letter(c: u32, out: &mut [u8], n: usize)
    requires { n + length (utf8 c) ≤ length out.old }
    ensures { out.new ≡ pasted out.old n (utf8 c) }
{
    if c < 0x80 {
        let one = [c as u8];
        put(out, n, &one);
        return;
    }
    if c < 0x800 {
        let two = [(0xC0 + c / 64 % 32) as u8, tail(c)];
        put(out, n, &two);
        return;
    }
    put_long(c, out, n);
}

// The same of a character that takes three octets or four.
fn put_long(c: u32, out: &mut [u8], n: usize)
    requires { (2048 ≤ c) × (n + length (utf8 c) ≤ length out.old) }
    ensures { out.new ≡ pasted out.old n (utf8 c) }
{
    if c < 0x10000 {
        let three = [(0xE0 + c / 4096 % 16) as u8, tail(c / 64), tail(c)];
        put(out, n, &three);
        return;
    }
    let four = [
        (0xF0 + c / 262144 % 8) as u8,
        tail(c / 4096),
        tail(c / 64),
        tail(c),
    ];
    put(out, n, &four);
}

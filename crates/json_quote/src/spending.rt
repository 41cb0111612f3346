// How much room is left behind a string. It is known before a byte is written, so that nothing is where there is too
// little.
ghost use Rattle.std.specs.Prelude.{◌≡◌, length};
ghost use Rattle.json_quote.specs.Quoted.{escaped, quoted};
ghost use Rattle.json_quote.specs.Room.{spent};

// What is left once n bytes more are taken.
pub fn spend(room: Option<usize>, n: usize) -> Option<usize>
    ensures { result ≡ spent room n }
{
    room?.checked_sub(n)
}

// How many bytes an octet takes within a string.
fn width(b: u8) -> usize
    ensures { result ≡ length (escaped b) }
{
    match b {
        b'"' | b'\\' => 2,
        0..=0x1F => 6,
        _ => 1,
    }
}

// What is left behind the string of x.
pub fn quoted_room(room: Option<usize>, x: &[u8]) -> Option<usize>
    ensures { result ≡ spent room (length (quoted x.now)) }
{
    let mut left = spend(room, 1);
    for b in x {
        left = spend(left, width(*b));
    }
    spend(left, 1)
}

// Numbers in decimal.
ghost use Rattle.std.specs.Prelude.{◌≡◌, ◌+◌, ◌≤◌, ◌<◌, length, drop};
ghost use Rattle.list_write.specs.Decimal.{decimal, Spelt};

use super::Digits;

// The digits of x, of which there are 10 at most.
pub fn digits_of(x: u32) -> Digits
    ensures { Spelt x result.text result.from }
{
    let mut text = [0u8; 10];
    let mut from = 9;
    let mut rest = x;
    // loop: 0 has a digit, too.
    loop {
        text[from] = 48 + (rest % 10) as u8;
        if rest < 10 {
            return Digits {
                text: text,
                from: from,
            };
        }
        rest /= 10;
        from -= 1;
    }
}

// How many bits a number needs.
ghost use Rattle.tree.specs.Width.{Bits};

// How many bits x needs: 0 for 0.
pub fn bit_length(x: u32) -> u32
    ensures { Bits x result }
{
    u32::BITS - x.leading_zeros()
}

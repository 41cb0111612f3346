// Which packets are answered.
ghost use Rattle.std.specs.Prelude.{true, false, ◌≡◌, ◌<◌, length, MatchOption};
ghost use Rattle.server_batch.specs.Batch.{packet_in};
ghost use Rattle.server_batch.specs.Steps.{stay_test, stay_at, Held};

use super::packets::Packets;

// Whether a packet with this mark and length is answered, where an answer may have `least` bytes.
pub fn stays(mark: u32, n: usize, least: usize) -> bool
    ensures { result ≡ stay_test mark n least }
{
    mark == 1 && least <= n
}

// The packets of a batch with their marks, of which those are answered that are marked and have `least` bytes.
#[derive(Clone, Copy)]
pub struct Chosen<'a> {
    pub packets: Packets<'a>,
    pub marks: &'a [u32],
    pub least: usize,
    ghost held: { Held packets.slots.now packets.slot packets.lengths.now marks.now },
}

impl<'a> Chosen<'a> {
    // Packet i, where it is answered.
    pub fn answered(self, i: usize) -> Option<&'a [u8]>
        requires { i < length self.packets.lengths.now }
        ensures { MatchOption result
            (stay_at self.entry.marks.now self.entry.packets.lengths.now self.entry.least i ≡ false) (λ p.
            (stay_at self.entry.marks.now self.entry.packets.lengths.now self.entry.least i ≡ true)
            × (p.now
            ≡ packet_in self.entry.packets.slots.now self.entry.packets.slot self.entry.packets.lengths.now i)) }
    {
        if stays(self.marks[i], self.packets.size(i), self.least) {
            return Some(self.packets.packet(i));
        }
        None
    }
}

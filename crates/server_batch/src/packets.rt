// The packets of a batch, as they came.
ghost use Rattle.std.specs.Prelude.{◌≡◌, ◌+◌, ◌*◌, ◌≤◌, ◌<◌, length, get_or};
ghost use Rattle.server_batch.specs.Batch.{packet_in};

// Slots of one size, one after the other, with the length of the packet at the front of each.
#[derive(Clone, Copy)]
pub struct Packets<'a> {
    pub slots: &'a [u8],
    pub slot: usize,
    pub lengths: &'a [u32],
}

impl<'a> Packets<'a> {
    // How long packet i is said to be.
    pub fn size(self, i: usize) -> usize
        requires { i < length self.lengths.now }
        ensures { result ≡ get_or self.entry.lengths.now i 0 }
    {
        self.lengths[i] as usize
    }

    // Packet i, which is inside its slot.
    pub fn packet(self, i: usize) -> &'a [u8]
        requires { (i < length self.lengths.now)
            × (self.slot * i + get_or self.lengths.now i 0 ≤ length self.slots.now) }
        ensures { result.now
            ≡ packet_in self.entry.slots.now self.entry.slot self.entry.lengths.now i }
    {
        let start = self.slot * i;
        let end = start + self.size(i);
        &self.slots[start..end]
    }
}
